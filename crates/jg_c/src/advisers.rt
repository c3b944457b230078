//! Advisers are opened and closed.

ghost use Rattle.std.specs.Prelude.{◌≡◌, ◌≢◌, ◌↔◌, ◌⊎◌, is_some, IfSome, Box, None, Some};
ghost use Rattle.jg_c.specs.Advising.{IsNewAdviser};
ghost use Rattle.jg_c.specs.Errors as errors;
ghost use Rattle.jg_c.specs.Sessions.{Has, adviser_of};

use crate::error::DONE;
use crate::handle::Handle;
use crate::numbers::{CLOSED, IS_OPEN, NO_MEMORY};
use crate::session::{AdviserSession, Noted, Session};
use jg_advice::Adviser;
use std::alloc::Global;
use std::collections::VecDeque;

/// An adviser to whom nothing happened yet.
fn new_adviser(alloc: Global, most: u64) -> AdviserSession
    ensures { IsNewAdviser most result }
{
    AdviserSession {
        noted: Noted {
            adviser: Adviser::new(alloc, most),
            waiting: VecDeque::new(alloc),
            room: Vec::new(alloc),
        },
        lost: false,
    }
}

/// An adviser in a box; none where memory runs out.
fn boxed_adviser(alloc: Global, most: u64) -> Option<Box<Session>>
    ensures { IfSome result (λ b. Has (adviser_of (Some b.value)) (IsNewAdviser most)) }
{
    match Box::new(alloc, Session::Adviser(new_adviser(alloc, most))) {
        Ok(session) => Some(session),
        Err(_) => None,
    }
}

/// Opens a closed handle on an adviser to whom nothing happened yet. A critical region is long where more than `most`
/// calls are made in it.
#[unsafe(no_mangle)]
pub extern "C" fn jg_adviser_open(alloc: Global, most: u64, adviser: &mut Handle) -> i32
    ensures opened { result ≡ errors.done → Has (adviser_of adviser.new.value) (IsNewAdviser most) }
    ensures is_open { (result ≡ errors.is_open) ↔ (adviser.old.value ≢ None) }
    ensures why { adviser.old.value ≡ None → (result ≡ errors.done) ⊎ (result ≡ errors.no_memory) }
    ensures unchanged { result ≢ errors.done → adviser.new.value ≡ adviser.old.value }
{
    match adviser.slot().get_mut() {
        Some(_) => IS_OPEN,
        None => match boxed_adviser(alloc, most) {
            Some(session) => {
                adviser.slot().put(alloc, session);
                DONE
            }
            None => NO_MEMORY,
        },
    }
}

/// Whether the handle holds an adviser.
fn holds_adviser(handle: &mut Handle) -> bool
    ensures value { result ≡ is_some (adviser_of handle.old.value) }
    ensures same { handle.new.value ≡ handle.old.value }
{
    match handle.slot().get_mut() {
        Some(Session::Adviser(_)) => true,
        _ => false,
    }
}

/// Lets all go that the adviser holds; the handle is closed then.
#[unsafe(no_mangle)]
pub extern "C" fn jg_adviser_close(alloc: Global, adviser: &mut Handle) -> i32
    ensures closed { (result ≡ errors.closed) ↔ (adviser_of adviser.old.value ≡ None) }
    ensures done { (result ≡ errors.done) ↔ (adviser_of adviser.old.value ≢ None) }
    ensures after { result ≡ errors.done → adviser.new.value ≡ None }
    ensures unchanged { result ≢ errors.done → adviser.new.value ≡ adviser.old.value }
{
    if !holds_adviser(adviser) {
        return CLOSED;
    }
    let _session = adviser.slot().take(alloc);
    DONE
}
