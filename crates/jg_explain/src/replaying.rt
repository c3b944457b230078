//! A journal's calls are made again, in a guard of their own.

ghost use Rattle.std.specs.Prelude.{◌≡◌, ◌<◌, ◌+◌, length, IfOk, OnOk};
ghost use Rattle.jg_explain.specs.Explained.{IsFront};

use jg_guard::{Guard, NoMemory};
use jg_policy::Setup;
use std::alloc::{Allocator, Global};

/// The same setup again, by way of its text.
fn copy_of(setup: &Setup, alloc: Global) -> Result<Setup, NoMemory>
    ensures { IfOk result (λ copy. copy ≡ setup.now) }
{
    let Ok(text) = setup.to_version_2(alloc) else {
        return Err(NoMemory);
    };
    match Setup::read(alloc, text.as_str()) {
        Ok(copy) => Ok(copy),
        Err(_) => Err(NoMemory),
    }
}

/// A guard of the same setup and limit, which has made no call yet.
pub fn replaying_guard<A: Allocator + Clone>(
    guard: &Guard<A>,
    alloc: Global,
) -> Result<Guard, NoMemory>
    ensures { IfOk result (λ again. IsFront guard.now again 0) }
{
    let setup = copy_of(guard.view().setup, alloc)?;
    match Guard::new(alloc, alloc, setup, guard.limit()) {
        Ok(again) => Ok(again),
        Err(_) => Err(NoMemory),
    }
}

/// Makes the call of the entry at that place, from 0, again, by a guard that made those of the entries before it.
pub fn replay_entry<A: Allocator + Clone, B: Allocator + Clone>(
    guard: &Guard<A>,
    again: &mut Guard<B>,
    place: usize,
) -> Result<(), NoMemory>
    requires below { place < length guard.now.journal }
    requires front { IsFront guard.now again.old place }
    ensures { OnOk result (IsFront guard.now again.new (place + 1)) }
{
    let _legal = guard.journal_len();
    let Some(entry) = guard.journal_entry(place) else {
        unreachable!()
    };
    let Ok(call) = entry.call().try_copy() else {
        return Err(NoMemory);
    };
    match again.call(entry.tid(), entry.env(), call) {
        Ok(_) => Ok(()),
        Err(_) => Err(NoMemory),
    }
}
