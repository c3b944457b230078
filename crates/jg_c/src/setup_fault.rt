//! Where a setup text has its fault.

ghost use Rattle.std.specs.Prelude.{◌≡◌, ◌≢◌, IfOk, false, string_bytes};
ghost use Rattle.jg_policy.specs.declared.fault.SetupFault.TheVariants.{NoMemory};
ghost use Rattle.jg_c.specs.Errors as errors;
ghost use Rattle.jg_c.specs.Lines.{Writes};
ghost use Rattle.jg_c.specs.Opened.{IsFaulty, TellsFault, TellsPlace};

use crate::copying::copy_out;
use crate::numbers::NO_MEMORY;
use crate::opening::{MAX_BYTES, read_setup};
use jg_fault_text::push_setup_fault;
use jg_policy::SetupFault;
use std::alloc::{AllocError, Global};

/// What `jg_setup_fault` answers where the text has no fault.
const NONE: i64 = 0;

/// Where the bytes have this fault, as `jg --explain` tells it.
fn place_text(alloc: Global, bytes: &[u8], fault: SetupFault) -> Result<String, AllocError>
    ensures { IfOk result (λ text. TellsPlace fault bytes.now (string_bytes text)) }
{
    let mut text = String::new(alloc);
    if bytes.len() > MAX_BYTES {
        text.push_str("more than 16777216 bytes\n")?;
    } else {
        push_setup_fault(&mut text, alloc, bytes, fault)?;
    }
    Ok(text)
}

/// Whether it is want of memory, which says nothing of the bytes.
fn is_no_memory(fault: SetupFault) -> bool
    ensures { result ≡ false → fault ≢ NoMemory }
{
    match fault {
        SetupFault::NoMemory => true,
        _ => false,
    }
}

/// Writes where the bytes have this fault, and answers how long that is.
fn write_place(alloc: Global, bytes: &[u8], fault: SetupFault, told: &mut [u8]) -> i64
    ensures is { result ≢ errors.no_memory → IsFaulty bytes.now fault → TellsFault bytes.now told.old told.new result }
    ensures kept { result ≡ errors.no_memory → told.new ≡ told.old }
{
    if is_no_memory(fault) {
        return i64::from(NO_MEMORY);
    }
    match place_text(alloc, bytes, fault) {
        Ok(text) => copy_out(text.as_bytes(), told),
        Err(_) => i64::from(NO_MEMORY),
    }
}

/// Writes where the text of a setup has its fault and what is wrong there, a line with its line feed, and answers how
/// long that is; 0 where it has none.
#[unsafe(no_mangle)]
pub extern "C" fn jg_setup_fault(alloc: Global, text: &[u8], told: &mut [u8]) -> i64
    ensures is { result ≢ errors.no_memory → TellsFault text.now told.old told.new result }
    ensures kept { result ≡ errors.no_memory → told.new ≡ told.old }
{
    let _setup = match read_setup(alloc, text) {
        Ok(setup) => setup,
        Err(fault) => return write_place(alloc, text, fault, told),
    };
    NONE
}
