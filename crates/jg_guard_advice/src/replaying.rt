//! Advice on a journal that is there already.

ghost use Rattle.std.specs.Prelude.{◌≡◌, ◌<◌, ◌+◌, [], length, IfOk, OnOk};
ghost use Rattle.jg_guard_advice.specs.Logged.{Logged, Follows};
ghost use Rattle.jg_explain.specs.Explained.{IsFront};

use crate::advising::GuardAdviser;
use jg_explain::replaying_guard;
use jg_guard::{Guard, NoMemory};
use jg_script::Beside;
use std::alloc::{Allocator, Global};

/// Makes the call of the entry at that place, from 0, again, by a guard that made those of the entries before it and
/// beside which the log stands.
fn advise_on_entry<A: Allocator + Clone>(
    guard: &Guard<A>,
    again: &mut Guard,
    advising: &mut GuardAdviser,
    place: usize,
) -> Result<(), NoMemory>
    requires below { place < length guard.now.journal }
    requires front { IsFront guard.now again.old place }
    ensures front { OnOk result (IsFront guard.now again.new (place + 1)) }
    ensures logged { OnOk result (Logged advising.old.log again.old.setup again.old.journal
        → Follows advising.old.log advising.new.log again.new.setup again.new.journal) }
{
    let (_legal, _same) = (guard.journal_len(), again.journal_len());
    let Some(entry) = guard.journal_entry(place) else {
        unreachable!()
    };
    let Ok(call) = entry.call().try_copy() else {
        return Err(NoMemory);
    };
    match advising.take_call(again, entry.tid(), entry.env(), call, place as u64 + 1) {
        Ok(()) => Ok(()),
        Err(_) => Err(NoMemory),
    }
}

/// Tells a new log the whole journal of the guard. The calls are made again in a guard of its own, which takes
/// memory and time as the journal's did. The log's `most` and `all` are as `GuardAdviser::new` says. Fails for want
/// of memory.
pub fn advise_on_journal<A: Allocator + Clone>(
    guard: &Guard<A>,
    alloc: Global,
    most: u64,
    all: bool,
) -> Result<GuardAdviser, NoMemory>
    ensures logged { IfOk result (λ x. Logged x.log guard.now.setup guard.now.journal) }
    ensures most { IfOk result (λ x. x.log.adviser.most ≡ most) }
    ensures all { IfOk result (λ x. x.log.noting.all ≡ all) }
{
    let mut again = replaying_guard(guard, alloc)?;
    let Ok(mut advising) = GuardAdviser::new(alloc, alloc, most, all) else {
        return Err(NoMemory);
    };
    for place in 0..guard.journal_len() {
        advise_on_entry(guard, &mut again, &mut advising, place)?;
    }
    Ok(advising)
}
