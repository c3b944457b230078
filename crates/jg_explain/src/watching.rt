//! At which entries the answers to questions turned.

ghost use Rattle.std.specs.Prelude.{◌≡◌, ◌≤◌, length, map, OnOk};
ghost use Rattle.jg_explain.specs.Explained.{IsFront, after};
ghost use Rattle.jg_explain.specs.Watched.{watched, begun_with, asked_at};

use crate::replaying::replay_entry;
use jg_breaches::{Condition, Turns, holds, turn};
use jg_guard::{Guard, NoMemory};
use std::alloc::Allocator;

/// A condition that is watched up to the entry at a place: whether it holds just before that entry, and
/// at which of the entries before it the answer turned.
#[derive(Clone, Copy, PartialEq, Eq)]
pub struct Watch {
    pub place: usize,
    pub condition: Condition,
    pub holds: bool,
    pub turns: Turns,
}

/// Whether the condition holds after the guard's journal.
pub(crate) fn holds_now<A: Allocator + Clone>(guard: &Guard<A>, condition: Condition) -> bool
    ensures { result ≡ after guard.now.setup condition guard.now.journal }
{
    holds(&guard.view(), condition)
}

fn begin<B: Allocator + Clone>(again: &Guard<B>, watch: Watch) -> Watch
    ensures { result ≡ begun_with again.now.setup again.now.journal watch }
{
    Watch {
        place: watch.place,
        condition: watch.condition,
        holds: holds_now(again, watch.condition),
        turns: Turns {
            latest: None,
            earlier: None,
        },
    }
}

fn ask<B: Allocator + Clone>(again: &Guard<B>, watch: Watch, at: usize) -> Watch
    ensures { result ≡ asked_at again.now.setup again.now.journal at watch }
{
    if at < watch.place {
        let is = holds_now(again, watch.condition);
        Watch {
            place: watch.place,
            condition: watch.condition,
            holds: is,
            turns: turn(watch.turns, watch.holds, is, at),
        }
    } else {
        watch
    }
}

fn begin_each<B: Allocator + Clone>(again: &Guard<B>, watches: &mut [Watch])
    ensures { watches.new ≡ map (begun_with again.now.setup again.now.journal) watches.old }
{
    for watch in watches.iter_mut() {
        *watch = begin(again, *watch);
    }
}

fn ask_each<B: Allocator + Clone>(again: &Guard<B>, watches: &mut [Watch], at: usize)
    ensures { watches.new ≡ map (asked_at again.now.setup again.now.journal at) watches.old }
{
    for watch in watches.iter_mut() {
        *watch = ask(again, *watch, at);
    }
}

/// Watches each of the conditions up to its place, but not past the first `end` entries, in one run over
/// those. `again` is a new guard of the same setup, and has made their calls then. Fails only for want
/// of memory.
pub(crate) fn watch_until<A: Allocator + Clone, B: Allocator + Clone>(
    guard: &Guard<A>,
    again: &mut Guard<B>,
    watches: &mut [Watch],
    end: usize,
) -> Result<(), NoMemory>
    requires front { IsFront guard.now again.old 0 }
    requires within { end ≤ length guard.now.journal }
    ensures { OnOk result (watches.new ≡ map (watched guard.now.setup guard.now.journal end) watches.old) }
{
    begin_each(again, watches);
    for at in 0..end {
        replay_entry(guard, again, at)?;
        ask_each(again, watches, at);
    }
    Ok(())
}

/// Watches each of the conditions up to its place, in one run over the guard's journal. `again` is a
/// new guard of the same setup, and has that journal then. Fails only for want of memory.
pub fn watch_all<A: Allocator + Clone, B: Allocator + Clone>(
    guard: &Guard<A>,
    again: &mut Guard<B>,
    watches: &mut [Watch],
) -> Result<(), NoMemory>
    requires { IsFront guard.now again.old 0 }
    ensures { OnOk result (watches.new
        ≡ map (watched guard.now.setup guard.now.journal (length guard.now.journal)) watches.old) }
{
    watch_until(guard, again, watches, guard.journal_len())
}
