//! The bytes in modified UTF-8 of the units of a string, and how many there are.

ghost use Rattle.std.specs.Prelude.{◌≡◌, ◌+◌, ◌*◌, ◌<◌, ◌≤◌, ◌++◌, length, IfOk, OnOk};
ghost use Rattle.jg_table_heap.specs.Spelling.{spelling, spelt};

use std::alloc::{AllocError, Allocator};

/// Writes the spelling of a unit at the end.
fn push_unit<A: Allocator>(bytes: &mut Vec<u8, A>, unit: u16) -> Result<(), AllocError>
    ensures { OnOk result (bytes.new.items ≡ bytes.old.items ++ spelling unit) }
{
    if 0 < unit && unit < 128 {
        bytes.push(unit as u8)?;
    } else if unit < 2048 {
        bytes.push((192 + unit / 64) as u8)?;
        bytes.push((128 + unit % 64) as u8)?;
    } else {
        bytes.push((224 + unit / 4096) as u8)?;
        bytes.push((128 + unit / 64 % 64) as u8)?;
        bytes.push((128 + unit % 64) as u8)?;
    }
    Ok(())
}

/// The bytes that spell the units. Fails only for want of memory.
pub fn to_mutf8<A: Allocator>(alloc: A, units: &[u16]) -> Result<Vec<u8, A>, AllocError>
    ensures { IfOk result (λ bytes. bytes.items ≡ spelt units.now) }
{
    let mut bytes = Vec::new(alloc);
    for unit in units {
        push_unit(&mut bytes, *unit)?;
    }
    Ok(bytes)
}

/// How many bytes spell a unit.
fn unit_len(unit: u16) -> usize
    ensures len { result ≡ length (spelling unit) }
    ensures small { result ≤ 3 }
{
    if 0 < unit && unit < 128 {
        1
    } else if unit < 2048 {
        2
    } else {
        3
    }
}

/// How many bytes spell the units: what `GetStringUTFLength` answers.
pub fn mutf8_len(units: &[u16]) -> usize
    ensures len { result ≡ length (spelt units.now) }
    ensures small { result ≤ 3 * length units.now }
{
    let mut total = 0;
    for unit in units {
        total += unit_len(*unit);
    }
    total
}
