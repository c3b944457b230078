//! What is left behind by what a core was told.

ghost use Rattle.std.specs.Prelude.{◌≡◌, ◌≢◌, ◌↔◌, ◌⊎◌, None};
ghost use Rattle.jg_c.specs.Errors as errors;
ghost use Rattle.jg_c.specs.Lines.{LeaksLines};
ghost use Rattle.jg_c.specs.Sessions.{Of, core_of};

use crate::copying::copy_out;
use crate::handle::Handle;
use crate::numbers::{CLOSED, NO_MEMORY};
use jg_core::Core;
use jg_script::write_leaks;
use std::alloc::Global;

/// Writes what is left as the core is now, and answers how long that is.
fn leaks(alloc: Global, core: &Core, text: &mut [u8]) -> i64
    ensures is { result ≢ errors.no_memory → LeaksLines core.now text.old text.new result }
    ensures kept { result ≡ errors.no_memory → text.new ≡ text.old }
    ensures numbers { result ≢ errors.closed }
{
    let Ok(left) = core.leaks() else {
        return i64::from(NO_MEMORY);
    };
    match write_leaks(alloc, &left) {
        Ok(lines) => copy_out(lines.as_bytes(), text),
        Err(_) => i64::from(NO_MEMORY),
    }
}

/// Writes what is left behind by all that was told, a line each, and answers how long that is.
#[unsafe(no_mangle)]
pub extern "C" fn jg_core_leaks(alloc: Global, core: &mut Handle, text: &mut [u8]) -> i64
    ensures closed { (result ≡ errors.closed) ↔ (core_of core.old.value ≡ None) }
    ensures is { result ≢ errors.no_memory → Of (core_of core.old.value)
        (λ a. LeaksLines a.core text.old text.new result) }
    ensures kept { (result ≡ errors.no_memory) ⊎ (result ≡ errors.closed) → text.new ≡ text.old }
    ensures same { core.new.value ≡ core.old.value }
{
    match core.core() {
        Some(asked) => leaks(alloc, &asked.core, text),
        None => i64::from(CLOSED),
    }
}
