//! At which entries the answers to many questions turned, in one run over a journal that asks each
//! question at few of the entries.
//!
//! Most conditions come to hold once and cease once: that a reference names something, and that a buffer
//! is open. They are asked before and after the entries that look as if they made or ended them
//! (`suspects`); what is seen there tells of all other entries (`traces`), and where it doesn't, each
//! condition is asked at each entry instead (`watching`). The others are asked after each entry that may
//! turn them (`steady`).

ghost use Rattle.std.specs.Prelude.{◌≡◌, ◌≤◌, ◌<◌, ◌+◌, ℕ, IfOk, IfSome, OnOk, length, map, take};
ghost use Rattle.jg_guard.specs.Guard.{State};
ghost use Rattle.jg_rules.specs.Legal.{Legal};
ghost use Rattle.jg_explain.specs.Explained.{IsFront};
ghost use Rattle.jg_explain.specs.Followed.{IsFollowed, comes_once as comes_but_once};
ghost use Rattle.jg_explain.specs.Watched.{watched};

use crate::replaying::{replay_entry, replaying_guard};
use crate::steady::{Steady, ask_steady, begin_steady, find_steady};
use crate::suspects::Suspects;
use crate::traces::{Seen, Trace, conclude, see_each, trace_each, untraced};
use crate::watching::{Watch, watch_until};
use jg_breaches::Condition;
use jg_guard::{Guard, NoMemory};
use jg_words::Ref;
use std::alloc::{AllocError, Allocator, Global};

/// What is known of all conditions that are followed, after so many entries.
#[derive(Drop)]
struct Following {
    traces: Vec<Trace>,
    steady: Vec<Steady>,
    suspects: Suspects,
    /// The traces that the next entry may turn.
    suspected: Vec<usize>,
    /// What was found of these before it.
    seen: Vec<Seen>,
}

/// Whether it comes to hold at one entry at most, and ceases at one at most.
fn comes_once(condition: Condition) -> bool
    ensures { result ≡ comes_but_once condition }
{
    match condition {
        Condition::Names { reference, .. } => reference != Ref::Null,
        Condition::NamesObject { reference, .. } => reference != Ref::Null,
        Condition::IsOpen { .. } => true,
        _ => false,
    }
}

/// Takes the condition up, unless it is followed.
fn take_up<B: Allocator + Clone>(
    again: &Guard<B>,
    following: &mut Following,
    condition: Condition,
    alloc: Global,
) -> Result<(), AllocError>
    ensures { OnOk result ((whole : State) → IsFront whole again.now 0
        → IsFollowed whole 0 following.old.traces.items following.old.steady.items
        → IsFollowed whole 0 following.new.traces.items following.new.steady.items) }
{
    if comes_once(condition) {
        let known = following.suspects.trace_of(&following.traces, condition);
        if known.is_none() {
            let place = following.traces.len();
            following.suspects.add(condition, place, alloc)?;
            following.traces.push(untraced(condition))?;
        }
        return Ok(());
    }
    if find_steady(&following.steady, condition).is_none() {
        following.steady.push(begin_steady(again, condition))?;
    }
    Ok(())
}

/// Takes each watch's condition up, where the guard has made no call yet.
fn begin_following<B: Allocator + Clone>(
    again: &Guard<B>,
    watches: &[Watch],
    alloc: Global,
) -> Result<Following, AllocError>
    ensures { IfOk result (λ following. (whole : State) → IsFront whole again.now 0
        → IsFollowed whole 0 following.traces.items following.steady.items) }
{
    let mut following = Following {
        traces: Vec::new(alloc),
        steady: Vec::new(alloc),
        suspects: Suspects::new(alloc),
        suspected: Vec::new(alloc),
        seen: Vec::new(alloc),
    };
    for watch in watches {
        take_up(again, &mut following, watch.condition, alloc)?;
    }
    Ok(following)
}

/// The entry at that place once more, and what it turned.
fn follow_one<A: Allocator + Clone, B: Allocator + Clone>(
    guard: &Guard<A>,
    again: &mut Guard<B>,
    following: &mut Following,
    at: usize,
    alloc: Global,
) -> Result<(), NoMemory>
    requires front { IsFront guard.now again.old at }
    requires within { at < length guard.now.journal }
    ensures front { OnOk result (IsFront guard.now again.new (at + 1)) }
    ensures followed { OnOk result (IsFollowed guard.now at following.old.traces.items following.old.steady.items
        → IsFollowed guard.now (at + 1) following.new.traces.items following.new.steady.items) }
{
    let _legal = guard.journal_len();
    let Some(entry) = guard.journal_entry(at) else {
        unreachable!()
    };
    let Ok(()) = following
        .suspects
        .suspect(entry, &following.traces, &mut following.suspected, alloc)
    else {
        return Err(NoMemory);
    };
    let Ok(()) = see_each(
        again,
        &following.traces,
        &following.suspected,
        &mut following.seen,
    ) else {
        return Err(NoMemory);
    };
    replay_entry(guard, again, at)?;
    trace_each(again, &mut following.traces, &following.seen, at);
    ask_steady(again, &mut following.steady, entry, at);
    Ok(())
}

/// What is known of the watch's condition before the next entry, which is the one at its place.
fn known_now<B: Allocator + Clone>(
    again: &Guard<B>,
    following: &Following,
    watch: Watch,
) -> Option<Watch>
    ensures { (whole : State) (end : ℕ) → IsFront whole again.now watch.place
        → Legal whole.setup whole.journal → watch.place ≤ end → end ≤ length whole.journal
        → IsFollowed whole watch.place following.now.traces.items following.now.steady.items
        → IfSome result (λ known. known ≡ watched whole.setup whole.journal end watch) }
{
    if comes_once(watch.condition) {
        let place = following
            .suspects
            .trace_of(&following.traces, watch.condition)?;
        let trace = following.traces.get(place)?;
        if trace.condition == watch.condition {
            return conclude(again, *trace, watch.place);
        }
        return None;
    }
    let steady = find_steady(&following.steady, watch.condition)?;
    Some(Watch {
        place: watch.place,
        condition: watch.condition,
        holds: steady.holds,
        turns: steady.turns,
    })
}

/// Adds what is known of the watches whose place is that of the next entry, as far as it is known.
fn push_known<B: Allocator + Clone>(
    again: &Guard<B>,
    following: &Following,
    watches: &[Watch],
    found: &mut Vec<Watch>,
    at: usize,
) -> Result<(), AllocError>
    ensures { OnOk result ((whole : State) (end : ℕ) → IsFront whole again.now at
        → Legal whole.setup whole.journal → at ≤ end → end ≤ length whole.journal
        → IsFollowed whole at following.now.traces.items following.now.steady.items
        → found.old.items ≡ map (watched whole.setup whole.journal end) (take (length found.old.items) watches.now)
        → found.new.items ≡ map (watched whole.setup whole.journal end) (take (length found.new.items) watches.now)) }
{
    for _ in found.len()..watches.len() {
        let Some(watch) = watches.get(found.len()) else {
            return Ok(());
        };
        if watch.place != at {
            return Ok(());
        }
        let Some(known) = known_now(again, following, *watch) else {
            return Ok(());
        };
        found.push(known)?;
    }
    Ok(())
}

/// What is known of each watch, in one run over the first `end` entries; none where what was asked does
/// not tell it, or where the watches don't stand in the order of their places. `again` is a new guard of
/// the same setup.
fn follow<A: Allocator + Clone, B: Allocator + Clone>(
    guard: &Guard<A>,
    again: &mut Guard<B>,
    watches: &[Watch],
    end: usize,
    alloc: Global,
) -> Result<Option<Vec<Watch>>, NoMemory>
    requires front { IsFront guard.now again.old 0 }
    requires within { end ≤ length guard.now.journal }
    ensures { IfOk result (λ found. IfSome found (λ all. all.items
        ≡ map (watched guard.now.setup guard.now.journal end) watches.now)) }
{
    let _legal = guard.journal_len();
    let Ok(mut following) = begin_following(again, watches, alloc) else {
        return Err(NoMemory);
    };
    let mut found = Vec::new(alloc);
    for at in 0..end {
        let Ok(()) = push_known(again, &following, watches, &mut found, at) else {
            return Err(NoMemory);
        };
        follow_one(guard, again, &mut following, at, alloc)?;
    }
    let Ok(()) = push_known(again, &following, watches, &mut found, end) else {
        return Err(NoMemory);
    };
    if found.len() < watches.len() {
        return Ok(None);
    }
    Ok(Some(found))
}

/// What is known of each watch up to its place, of the first `end` entries of the guard's journal at most.
/// Their calls are made once more, and twice where few questions don't tell it. Fails only for want of
/// memory.
pub(crate) fn watch_each<A: Allocator + Clone>(
    guard: &Guard<A>,
    watches: Vec<Watch>,
    end: usize,
    alloc: Global,
) -> Result<Vec<Watch>, NoMemory>
    requires { end ≤ length guard.now.journal }
    ensures { IfOk result (λ found. found.items
        ≡ map (watched guard.now.setup guard.now.journal end) watches.items) }
{
    let mut again = replaying_guard(guard, alloc)?;
    if let Some(found) = follow(guard, &mut again, &watches, end, alloc)? {
        return Ok(found);
    }
    drop(again);
    let mut watches = watches;
    let mut again = replaying_guard(guard, alloc)?;
    watch_until(guard, &mut again, &mut watches, end)?;
    Ok(watches)
}
