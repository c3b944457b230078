//! Cores are opened and closed.

ghost use Rattle.std.specs.Prelude.{ℕ, List, ◌≡◌, ◌≢◌, ◌≤◌, ◌↔◌, is_some, length, IfOk, IfErr, OnOk, None, Some, Box};
ghost use Rattle.jg_policy.specs.Findings.{States};
ghost use Rattle.jg_c.specs.Errors as errors;
ghost use Rattle.jg_c.specs.Opened.{IsFresh, IsFaulty, IsOpening, IsUnopened};
ghost use Rattle.jg_c.specs.Sessions.{Has, core_of};

use crate::error::{DONE, of_setup_fault};
use crate::handle::Handle;
use crate::numbers::{ABI, BAD_VERSION, CLOSED, IS_OPEN, NO_MEMORY};
use crate::session::{CoreSession, Session};
use jg_core::Core;
use jg_judge::Bounds;
use jg_policy::{Setup, SetupFault};
use jg_record::Lists;
use std::alloc::Global;
use std::str;

/// By which numbers questions are judged. It is `jg_bounds` in jg.h.
#[repr(C)]
#[derive(Clone, Copy)]
pub struct JgBounds {
    /// How many local references a frame may have room for.
    pub capacity: i32,
    /// How many items an array may have.
    pub length: i32,
    /// How many items of a region may be read.
    pub items: i32,
}

/// The most bytes that a setup text may have.
pub(crate) const MAX_BYTES: usize = 16_777_216;

/// The setup that the bytes state. Bytes that are no text are no TOML, and too many are no setup, whatever they are.
pub(crate) fn read_setup(alloc: Global, text: &[u8]) -> Result<Setup, SetupFault>
    ensures stated { IfOk result (States text.now) }
    ensures short { OnOk result (length text.now ≤ 16777216) }
    ensures refused { IfErr result (IsFaulty text.now) }
{
    if text.len() > MAX_BYTES {
        return Err(SetupFault::TooMany);
    }
    match str::from_utf8(text) {
        Ok(text) => Setup::read(alloc, text),
        Err(_) => Err(SetupFault::NotToml),
    }
}

/// The bounds of these numbers.
pub(crate) fn bounds_of(bounds: &JgBounds) -> Bounds
    ensures { result ≡ record { capacity = bounds.now.capacity; length = bounds.now.length; items = bounds.now.items } }
{
    Bounds {
        capacity: bounds.capacity,
        length: bounds.length,
        items: bounds.items,
    }
}

/// A core of this setup that was told nothing.
fn fresh_core(alloc: Global, setup: Setup, bounds: &JgBounds) -> CoreSession
    ensures { (text : List ℕ) → States text setup → length text ≤ 16777216
        → IsFresh text bounds.now.capacity bounds.now.length bounds.now.items result }
{
    CoreSession {
        core: Core::new(alloc, setup),
        bounds: bounds_of(bounds),
        room: Lists {
            arguments: Vec::new(alloc),
            objects: Vec::new(alloc),
        },
    }
}

/// A core in a box, or the number of why there is none.
fn boxed_core(alloc: Global, text: &[u8], bounds: &JgBounds) -> Result<Box<Session>, i32>
    ensures fresh { IfOk result (λ b. Has (core_of (Some b.value))
        (IsFresh text.now bounds.now.capacity bounds.now.length bounds.now.items)) }
    ensures why { IfErr result (IsUnopened text.now) }
    ensures numbers { IfErr result (λ n. (n ≢ errors.done) × (n ≢ errors.is_open) × (n ≢ errors.bad_version)) }
{
    let setup = match read_setup(alloc, text) {
        Ok(setup) => setup,
        Err(fault) => return Err(of_setup_fault(fault)),
    };
    match Box::new(alloc, Session::Core(fresh_core(alloc, setup, bounds))) {
        Ok(session) => Ok(session),
        Err(_) => Err(NO_MEMORY),
    }
}

/// Opens a closed handle on a core that was told nothing, under the setup that the text states. `version` is that of
/// jg.h.
#[unsafe(no_mangle)]
pub extern "C" fn jg_core_open(
    alloc: Global,
    text: &[u8],
    bounds: &JgBounds,
    version: u32,
    core: &mut Handle,
) -> i32
    ensures opened { result ≡ errors.done → Has (core_of core.new.value)
        (IsFresh text.now bounds.now.capacity bounds.now.length bounds.now.items) }
    ensures is_open { (result ≡ errors.is_open) ↔ (core.old.value ≢ None) }
    ensures version { core.old.value ≡ None → (result ≡ errors.bad_version) ↔ (version ≢ 1) }
    ensures why { core.old.value ≡ None → version ≡ 1 → IsOpening text.now result }
    ensures unchanged { result ≢ errors.done → core.new.value ≡ core.old.value }
{
    match core.slot().get_mut() {
        Some(_) => IS_OPEN,
        None => {
            if version != ABI {
                return BAD_VERSION;
            }
            match boxed_core(alloc, text, bounds) {
                Ok(session) => {
                    core.slot().put(alloc, session);
                    DONE
                }
                Err(why) => why,
            }
        }
    }
}

/// Whether the handle holds a core.
fn holds_core(handle: &mut Handle) -> bool
    ensures value { result ≡ is_some (core_of handle.old.value) }
    ensures same { handle.new.value ≡ handle.old.value }
{
    match handle.slot().get_mut() {
        Some(Session::Core(_)) => true,
        _ => false,
    }
}

/// Lets all go that the core holds; the handle is closed then.
#[unsafe(no_mangle)]
pub extern "C" fn jg_core_close(alloc: Global, core: &mut Handle) -> i32
    ensures closed { (result ≡ errors.closed) ↔ (core_of core.old.value ≡ None) }
    ensures done { (result ≡ errors.done) ↔ (core_of core.old.value ≢ None) }
    ensures after { result ≡ errors.done → core.new.value ≡ None }
    ensures unchanged { result ≢ errors.done → core.new.value ≡ core.old.value }
{
    if !holds_core(core) {
        return CLOSED;
    }
    let _session = core.slot().take(alloc);
    DONE
}
