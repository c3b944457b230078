//! Conditions that come to hold once, and the entries at which they were seen to turn.

ghost use Rattle.std.specs.Prelude.{◌≡◌, ◌≤◌, ◌<◌, ◌+◌, ℕ, All, List, true, length, IfSome, IsTrue, OnOk};
ghost use Rattle.jg_words.specs.Entry.{Entry as Entries};
ghost use Rattle.jg_policy.specs.Stated.{StatedSetup};
ghost use Rattle.jg_guard.specs.Guard.{State};
ghost use Rattle.jg_rules.specs.Effects.{parts};
ghost use Rattle.jg_rules.specs.Legal.{Legal};
ghost use Rattle.jg_rules.specs.Parts.{Parts};
ghost use Rattle.jg_rules.specs.View.{ViewStands};
ghost use Rattle.jg_breaches.specs.Turns.{still};
ghost use Rattle.jg_explain.specs.Explained.{IsFront, known, turns_before, was};
ghost use Rattle.jg_explain.specs.Followed.{IsSeen, IsTraced, comes_once, given_in, given_ref, was_given};

use crate::watching::{Watch, holds_now};
use jg_breaches::{Condition, Turns};
use jg_guard::Guard;
use jg_rules::View;
use jg_words::{BufId, Ref};
use std::alloc::{AllocError, Allocator};

fn never_if(is_never: bool) -> Option<Turns>
    ensures { IfSome result (λ ts. IsTrue is_never × (ts ≡ still)) }
{
    if is_never {
        Some(Turns {
            latest: None,
            earlier: None,
        })
    } else {
        None
    }
}

/// A condition that comes to hold at one entry at most, with the places of the entries at which it was
/// seen to come to hold and to cease, and of the entry that gave its number to something else. An entry's
/// place is the number of entries before it.
#[derive(Clone, Copy)]
pub(crate) struct Trace {
    pub(crate) condition: Condition,
    pub(crate) made: Option<usize>,
    pub(crate) ended: Option<usize>,
    pub(crate) other: Option<usize>,
}

/// What was found of a trace, by its place in the list, after some entries: whether its condition holds,
/// and whether its number was given, which isn't known where its maker's numbers are at their end.
#[derive(Clone, Copy)]
pub(crate) struct Seen {
    pub(crate) trace: usize,
    pub(crate) condition: Condition,
    pub(crate) holds: bool,
    pub(crate) given: Option<bool>,
}

/// A trace of which nothing was seen yet.
pub(crate) fn untraced(condition: Condition) -> Trace
    ensures { comes_once condition ≡ true
        → (s : StatedSetup) (journal : List Entries) → IsTraced s journal result }
{
    Trace {
        condition,
        made: None,
        ended: None,
        other: None,
    }
}

fn is_ref_given<A: Allocator + Clone>(view: &View<'_, A>, reference: Ref) -> Option<bool>
    ensures { IfSome result (λ given. (p : Parts) → ViewStands view.now p → given ≡ given_ref p reference) }
{
    let Ref::To { maker, n, .. } = reference else {
        return None;
    };
    if view.threads.can_count(maker) {
        Some(n < view.threads.next_ref(maker))
    } else {
        None
    }
}

fn is_buffer_given<A: Allocator + Clone>(view: &View<'_, A>, buffer: BufId) -> Option<bool>
    ensures { IfSome result (λ given. (p : Parts) → ViewStands view.now p
        → given ≡ given_in p (Condition.IsOpen buffer)) }
{
    if view.threads.can_count(buffer.maker) {
        Some(buffer.n < view.threads.next_buf(buffer.maker))
    } else {
        None
    }
}

/// Whether the number of what the condition asks for was given, as the guard's tables are now.
fn given_now<A: Allocator + Clone>(guard: &Guard<A>, condition: Condition) -> Option<bool>
    ensures { IfSome result (λ given. given ≡ given_in (parts guard.now.setup guard.now.journal) condition) }
{
    let view = guard.view();
    match condition {
        Condition::Names { reference, .. } | Condition::NamesObject { reference, .. } => {
            is_ref_given(&view, reference)
        }
        Condition::IsOpen { buffer } => is_buffer_given(&view, buffer),
        _ => None,
    }
}

/// What is found of the trace now.
fn see<B: Allocator + Clone>(again: &Guard<B>, trace: usize, condition: Condition) -> Seen
    ensures condition { result.condition ≡ condition }
    ensures seen { (whole : State) (place : ℕ) → IsFront whole again.now place
        → IsSeen whole.setup whole.journal place result }
{
    Seen {
        trace,
        condition,
        holds: holds_now(again, condition),
        given: given_now(again, condition),
    }
}

/// Puts what is found of each of those traces now in the place of what is in the list.
pub(crate) fn see_each<B: Allocator + Clone>(
    again: &Guard<B>,
    traces: &[Trace],
    suspected: &[usize],
    seen: &mut Vec<Seen>,
) -> Result<(), AllocError>
    ensures { OnOk result ((whole : State) (place : ℕ) → IsFront whole again.now place
        → All (IsSeen whole.setup whole.journal place) seen.new.items) }
{
    seen.clear();
    for i in suspected {
        if let Some(trace) = traces.get(*i) {
            seen.push(see(again, *i, trace.condition))?;
        }
    }
    Ok(())
}

/// The trace with what was found of it before and after the entry at that place.
fn noted(trace: Trace, before: Seen, after: Seen, at: usize) -> Trace
    ensures { (s : StatedSetup) (journal : List Entries) → at < length journal → IsTraced s journal trace
        → before.condition ≡ trace.condition → after.condition ≡ trace.condition
        → IsSeen s journal at before → IsSeen s journal (at + 1) after → IsTraced s journal result }
{
    if !before.holds && after.holds {
        Trace {
            made: Some(at),
            ..trace
        }
    } else if before.holds && !after.holds {
        Trace {
            ended: Some(at),
            ..trace
        }
    } else if !after.holds && before.given == Some(false) && after.given == Some(true) {
        Trace {
            other: Some(at),
            ..trace
        }
    } else {
        trace
    }
}

fn is_same(first: Condition, second: Condition) -> bool
    ensures { result ≡ true → first ≡ second }
{
    first == second
}

/// The same, where what was found before is of the trace's condition.
fn traced(trace: Trace, before: Seen, after: Seen, at: usize) -> Trace
    ensures { (s : StatedSetup) (journal : List Entries) → at < length journal → IsTraced s journal trace
        → after.condition ≡ trace.condition → IsSeen s journal at before → IsSeen s journal (at + 1) after
        → IsTraced s journal result }
{
    if is_same(before.condition, trace.condition) {
        noted(trace, before, after, at)
    } else {
        trace
    }
}

fn trace_one<B: Allocator + Clone>(again: &Guard<B>, traces: &mut [Trace], before: Seen, at: usize)
    ensures { (whole : State) → IsFront whole again.now (at + 1) → at < length whole.journal
        → IsSeen whole.setup whole.journal at before → All (IsTraced whole.setup whole.journal) traces.old
        → All (IsTraced whole.setup whole.journal) traces.new }
{
    if before.trace < traces.len() {
        let trace = traces[before.trace];
        let after = see(again, before.trace, trace.condition);
        traces[before.trace] = traced(trace, before, after, at);
    }
}

/// Has each trace note what turned at the entry at that place, of which that was found before; the guard
/// has just made its call.
pub(crate) fn trace_each<B: Allocator + Clone>(
    again: &Guard<B>,
    traces: &mut [Trace],
    seen: &[Seen],
    at: usize,
)
    ensures { (whole : State) → IsFront whole again.now (at + 1) → at < length whole.journal
        → All (IsSeen whole.setup whole.journal at) seen.now
        → All (IsTraced whole.setup whole.journal) traces.old
        → All (IsTraced whole.setup whole.journal) traces.new }
{
    for before in seen {
        trace_one(again, traces, *before, at);
    }
}

/// Whether what was seen tells that the condition has never held before that place.
fn is_never(trace: Trace, given: Option<bool>, place: usize) -> bool
    ensures { (s : StatedSetup) (journal : List Entries) → Legal s journal → place ≤ length journal
        → IsTraced s journal trace
        → IfSome given (λ given. given ≡ was_given s trace.condition journal place)
        → IsTrue result → turns_before s trace.condition journal place ≡ still }
{
    match given {
        Some(false) => true,
        _ => match trace.other {
            None => false,
            Some(other) => other < place,
        },
    }
}

/// At which entries before that place the condition turned, where what was seen tells it.
fn turns_of(trace: Trace, holds: bool, given: Option<bool>, place: usize) -> Option<Turns>
    ensures { (s : StatedSetup) (journal : List Entries) → Legal s journal → place ≤ length journal
        → IsTraced s journal trace → holds ≡ was s trace.condition journal place
        → IfSome given (λ given. given ≡ was_given s trace.condition journal place)
        → IfSome result (λ ts. ts ≡ turns_before s trace.condition journal place) }
{
    let Some(made) = trace.made else {
        return never_if(is_never(trace, given, place));
    };
    if made >= place {
        return None;
    }
    if holds {
        return Some(Turns {
            latest: Some(made),
            earlier: None,
        });
    }
    let ended = trace.ended?;
    if made >= ended || ended >= place {
        return None;
    }
    Some(Turns {
        latest: Some(ended),
        earlier: Some(made),
    })
}

/// What is known of the trace's condition before the entry at that place, which is the next that the
/// guard comes to; none where what was seen doesn't tell it.
pub(crate) fn conclude<B: Allocator + Clone>(
    again: &Guard<B>,
    trace: Trace,
    place: usize,
) -> Option<Watch>
    ensures { (whole : State) → IsFront whole again.now place → Legal whole.setup whole.journal
        → place ≤ length whole.journal → IsTraced whole.setup whole.journal trace
        → IfSome result (λ w. w ≡ known whole.setup whole.journal place trace.condition) }
{
    let holds = holds_now(again, trace.condition);
    let given = given_now(again, trace.condition);
    let turns = turns_of(trace, holds, given, place)?;
    Some(Watch {
        place,
        condition: trace.condition,
        holds,
        turns,
    })
}
