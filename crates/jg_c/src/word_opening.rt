//! Witnesses are opened and closed.

ghost use Rattle.std.specs.Prelude.{ℕ, List, ◌≡◌, ◌≢◌, ◌≤◌, ◌↔◌, is_some, length, IfOk, IfErr, None, Some, Box};
ghost use Rattle.jg_policy.specs.Findings.{States};
ghost use Rattle.jg_c.specs.Errors as errors;
ghost use Rattle.jg_c.specs.Opened.{IsFreshWitness, IsOpening, IsUnopened};
ghost use Rattle.jg_c.specs.Sessions.{Has, witness_of};

use crate::error::{DONE, of_setup_fault};
use crate::handle::Handle;
use crate::numbers::{ABI, BAD_VERSION, CLOSED, IS_OPEN, NO_MEMORY};
use crate::opening::{JgBounds, bounds_of, read_setup};
use crate::session::{Session, WitnessSession};
use jg_policy::Setup;
use jg_witness::Witness;
use std::alloc::Global;

/// A witness of this setup that was told nothing.
fn fresh_witness(alloc: Global, setup: Setup, bounds: &JgBounds, fewest: usize) -> WitnessSession
    ensures { (text : List ℕ) → States text setup → length text ≤ 16777216
        → IsFreshWitness text bounds.now.capacity bounds.now.length bounds.now.items result }
{
    WitnessSession {
        witness: Witness::new(alloc, setup, fewest),
        bounds: bounds_of(bounds),
        operands: Vec::new(alloc),
        objects: Vec::new(alloc),
    }
}

/// A witness in a box, or the number of why there is none.
fn boxed_witness(
    alloc: Global,
    text: &[u8],
    bounds: &JgBounds,
    fewest: usize,
) -> Result<Box<Session>, i32>
    ensures fresh { IfOk result (λ b. Has (witness_of (Some b.value))
        (IsFreshWitness text.now bounds.now.capacity bounds.now.length bounds.now.items)) }
    ensures why { IfErr result (IsUnopened text.now) }
    ensures numbers { IfErr result (λ n. (n ≢ errors.done) × (n ≢ errors.is_open) × (n ≢ errors.bad_version)) }
{
    let setup = match read_setup(alloc, text) {
        Ok(setup) => setup,
        Err(fault) => return Err(of_setup_fault(fault)),
    };
    match Box::new(
        alloc,
        Session::Witness(fresh_witness(alloc, setup, bounds, fewest)),
    ) {
        Ok(session) => Ok(session),
        Err(_) => Err(NO_MEMORY),
    }
}

/// Opens a closed handle on a witness that was told nothing, under the setup that the text states. About `fewest` names
/// of references that ended are kept, for `jg_witness_last`. `version` is that of jg.h.
#[unsafe(no_mangle)]
pub extern "C" fn jg_witness_open(
    alloc: Global,
    text: &[u8],
    bounds: &JgBounds,
    fewest: u64,
    version: u32,
    witness: &mut Handle,
) -> i32
    ensures opened { result ≡ errors.done → Has (witness_of witness.new.value)
        (IsFreshWitness text.now bounds.now.capacity bounds.now.length bounds.now.items) }
    ensures is_open { (result ≡ errors.is_open) ↔ (witness.old.value ≢ None) }
    ensures version { witness.old.value ≡ None → (result ≡ errors.bad_version) ↔ (version ≢ 1) }
    ensures why { witness.old.value ≡ None → version ≡ 1 → IsOpening text.now result }
    ensures unchanged { result ≢ errors.done → witness.new.value ≡ witness.old.value }
{
    match witness.slot().get_mut() {
        Some(_) => IS_OPEN,
        None => {
            if version != ABI {
                return BAD_VERSION;
            }
            match boxed_witness(alloc, text, bounds, fewest as usize) {
                Ok(session) => {
                    witness.slot().put(alloc, session);
                    DONE
                }
                Err(why) => why,
            }
        }
    }
}

/// Whether the handle holds a witness.
fn holds_witness(handle: &mut Handle) -> bool
    ensures value { result ≡ is_some (witness_of handle.old.value) }
    ensures same { handle.new.value ≡ handle.old.value }
{
    match handle.slot().get_mut() {
        Some(Session::Witness(_)) => true,
        _ => false,
    }
}

/// Lets all go that the witness holds; the handle is closed then.
#[unsafe(no_mangle)]
pub extern "C" fn jg_witness_close(alloc: Global, witness: &mut Handle) -> i32
    ensures closed { (result ≡ errors.closed) ↔ (witness_of witness.old.value ≡ None) }
    ensures done { (result ≡ errors.done) ↔ (witness_of witness.old.value ≢ None) }
    ensures after { result ≡ errors.done → witness.new.value ≡ None }
    ensures unchanged { result ≢ errors.done → witness.new.value ≡ witness.old.value }
{
    if !holds_witness(witness) {
        return CLOSED;
    }
    let _session = witness.slot().take(alloc);
    DONE
}
