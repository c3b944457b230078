//! The units that bytes in modified UTF-8 spell.

ghost use Rattle.std.specs.Prelude.{◌≡◌, ℕ, ◌+◌, ◌<◌, ◌≤◌, ◌↔◌, ◌++◌, ◌^◌, List, ℤ, pos, length, drop, map, IfOk, IfSome, IfNone, IsTrue, is_some};
ghost use Rattle.jg_table_heap.specs.Spelling.{spelling, IsSpelt, IsSpeltInItems, IsByte, IsByteAt};
ghost use Rattle.std.specs.Option.{option_map};
ghost use Rattle.jg_table_heap.specs.Reading.{decoded};

use crate::mutf8::forms::unit_at;
use std::alloc::{AllocError, Allocator};

/// A number that may be a byte.
trait MaybeByte: Copy {
    ghost number: { Self → ℤ };

    /// The byte, where it is one.
    fn byte(self) -> Option<u8>
        ensures { IsByte (number self) result };
}

impl MaybeByte for u8 {
    ghost number = { λ byte. pos byte };

    fn byte(self) -> Option<u8> {
        Some(self)
    }
}

impl MaybeByte for i64 {
    ghost number = { λ item. item };

    fn byte(self) -> Option<u8> {
        if 0 <= self && self < 256 {
            Some(self as u8)
        } else {
            None
        }
    }
}

/// The item at an index, where it is a byte.
fn byte_at<I: MaybeByte>(items: &[I], index: usize) -> Option<u8>
    ensures { IsByteAt (map I.number items.now) index result }
{
    match items.get(index) {
        Some(item) => item.byte(),
        None => None,
    }
}

/// The unit whose spelling begins at an index, and how many bytes spell it.
fn next_unit<I: MaybeByte>(items: &[I], at: usize) -> Option<(u16, usize)>
    requires inside { at < length items.now }
    requires fits { length items.now < 2 ^ 63 }
    ensures found { IfSome result (λ unit. (unit.0 < 2 ^ 16)
        × (drop at (map I.number items.now)
        ≡ map pos (spelling unit.0) ++ drop (at + unit.1) (map I.number items.now))) }
    ensures only { IfSome result (λ unit. (v : ℕ) (tail : List ℤ) → v < 2 ^ 16
        → drop at (map I.number items.now) ≡ map pos (spelling v) ++ tail → unit.0 ≡ v) }
    ensures len { IfSome result (λ unit. (0 < unit.1) × (at + unit.1 ≤ length items.now)) }
    ensures none { IfNone result ((unit : ℕ) (tail : List ℤ) → unit < 2 ^ 16
        → drop at (map I.number items.now) ≡ map pos (spelling unit) ++ tail → ⊥) }
{
    unit_at(
        byte_at(items, at),
        byte_at(items, at + 1),
        byte_at(items, at + 2),
    )
}

/// Whether the items are the bytes that spell some units.
fn spells<I: MaybeByte>(items: &[I]) -> bool
    requires { length items.now < 2 ^ 63 }
    ensures { IsTrue result ↔ ((units : List ℕ) × IsSpeltInItems units (map I.number items.now)) }
{
    let mut at = 0;
    while at < items.len() {
        match next_unit(items, at) {
            Some((_, len)) => at += len,
            None => return false,
        }
    }
    true
}

/// The units that the items spell, unless they spell none.
fn units_of<I: MaybeByte, A: Allocator>(
    alloc: A,
    items: &[I],
) -> Result<Option<Vec<u16, A>>, AllocError>
    requires { length items.now < 2 ^ 63 }
    ensures found { IfOk result (λ found. IfSome found (λ units. IsSpeltInItems units.items (map I.number items.now))) }
    ensures none { IfOk result (λ found. IfNone found ((units : List ℕ) → IsSpeltInItems units (map I.number items.now)
        → ⊥)) }
    ensures short { IfOk result (λ found. IfSome found (λ units. length units.items ≤ length items.now)) }
{
    let mut units = Vec::new(alloc);
    let mut at = 0;
    while at < items.len() {
        match next_unit(items, at) {
            Some((unit, len)) => {
                units.push(unit)?;
                at += len;
            }
            None => return Ok(None),
        }
    }
    Ok(Some(units))
}

/// Whether the items are all bytes and spell some units.
pub fn is_mutf8(items: &[i64]) -> bool
    ensures decoded { result ≡ is_some (decoded items.now) }
    ensures spelt { IsTrue result ↔ ((units : List ℕ) × IsSpeltInItems units items.now) }
{
    spells(items)
}

/// Whether the bytes spell some units.
pub fn are_mutf8(bytes: &[u8]) -> bool
    ensures { IsTrue result ↔ ((units : List ℕ) × IsSpelt units bytes.now) }
{
    spells(bytes)
}

/// The units that the bytes spell, and `None` where they spell none. Fails only for want of
/// memory.
pub fn from_mutf8<A: Allocator>(alloc: A, bytes: &[u8]) -> Result<Option<Vec<u16, A>>, AllocError>
    ensures found { IfOk result (λ found. IfSome found (λ units. IsSpelt units.items bytes.now)) }
    ensures none { IfOk result (λ found. IfNone found ((units : List ℕ) → IsSpelt units bytes.now → ⊥)) }
{
    units_of(alloc, bytes)
}

/// The units that the items spell, and `None` where they spell none or aren't all bytes. Fails
/// only for want of memory.
pub fn from_mutf8_items<A: Allocator>(
    alloc: A,
    items: &[i64],
) -> Result<Option<Vec<u16, A>>, AllocError>
    ensures decoded { IfOk result (λ found. option_map (λ units. units.items) found ≡ decoded items.now) }
    ensures found { IfOk result (λ found. IfSome found (λ units. IsSpeltInItems units.items items.now)) }
    ensures none { IfOk result (λ found. IfNone found ((units : List ℕ) → IsSpeltInItems units items.now → ⊥)) }
    ensures short { IfOk result (λ found. IfSome found (λ units. length units.items ≤ length items.now)) }
{
    units_of(alloc, items)
}
