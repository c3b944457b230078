//! Conditions that are asked after each entry that may turn them.

ghost use Rattle.std.specs.Prelude.{◌≡◌, ℕ, List, All, IfSome, map};
ghost use Rattle.jg_policy.specs.Stated.{StatedSetup};
ghost use Rattle.jg_words.specs.Entry.{Entry as Entries};
ghost use Rattle.jg_explain.specs.Followed.{IsSteady, asked_steady, begun_steady, can_turn as can_turn_at, may_turn as may_turn_by, moves_links as may_link, moves_monitors as may_move};

use crate::watching::holds_now;
use jg_breaches::{Condition, Turns, turn};
use jg_guard::Guard;
use jg_words::{Call, Entry, Tid, VmCall};
use std::alloc::Allocator;

/// A condition, whether it holds now, and at which entries it turned.
#[derive(Clone, Copy)]
pub(crate) struct Steady {
    pub(crate) condition: Condition,
    pub(crate) holds: bool,
    pub(crate) turns: Turns,
}

/// The condition, where the guard has made no call yet.
pub(crate) fn begin_steady<B: Allocator + Clone>(again: &Guard<B>, condition: Condition) -> Steady
    ensures { result ≡ begun_steady again.now.setup again.now.journal condition }
{
    Steady {
        condition,
        holds: holds_now(again, condition),
        turns: Turns {
            latest: None,
            earlier: None,
        },
    }
}

/// Whether the call may change who owns a monitor.
fn moves_monitors(call: &Call) -> bool
    ensures { result ≡ may_move call.now }
{
    match call {
        Call::Vm(VmCall::DetachCurrentThread) | Call::Monitors(_) => true,
        _ => false,
    }
}

/// Whether the call may change which native methods are linked.
fn moves_links(call: &Call) -> bool
    ensures { result ≡ may_link call.now }
{
    match call {
        Call::Vm(VmCall::RegisterNatives { .. } | VmCall::UnregisterNatives { .. }) => true,
        _ => false,
    }
}

/// Whether a passed call of the thread may turn the condition.
fn may_turn(condition: Condition, tid: Tid, call: &Call) -> bool
    ensures { result ≡ may_turn_by condition tid.0 call.now }
{
    match condition {
        Condition::IsAttached { tid: own } => own.0 == tid.0,
        Condition::IsPresent { env } => env.tid.0 == tid.0,
        Condition::HasPending { tid: own } => own.0 == tid.0,
        Condition::HasFrame { tid: own } => own.0 == tid.0,
        Condition::InNative { tid: own } => own.0 == tid.0,
        Condition::Owns { .. } | Condition::IsOwned { .. } => moves_monitors(call),
        Condition::IsLinked { .. } => moves_links(call),
        Condition::Names { .. } | Condition::NamesObject { .. } | Condition::IsOpen { .. } => true,
    }
}

/// Whether the entry may have turned the condition: a denied call turns none.
fn can_turn(condition: Condition, entry: &Entry) -> bool
    ensures { result ≡ can_turn_at condition entry.now }
{
    match entry.rule() {
        Some(_) => false,
        None => may_turn(condition, entry.tid(), entry.call()),
    }
}

/// What is known after the entry at that place, of which the guard has just made the call.
fn ask_one<B: Allocator + Clone>(
    again: &Guard<B>,
    steady: Steady,
    entry: &Entry,
    at: usize,
) -> Steady
    ensures { result ≡ asked_steady again.now.setup again.now.journal entry.now at steady }
{
    if can_turn(steady.condition, entry) {
        let is = holds_now(again, steady.condition);
        Steady {
            condition: steady.condition,
            holds: is,
            turns: turn(steady.turns, steady.holds, is, at),
        }
    } else {
        steady
    }
}

/// The same of each.
pub(crate) fn ask_steady<B: Allocator + Clone>(
    again: &Guard<B>,
    all: &mut [Steady],
    entry: &Entry,
    at: usize,
)
    ensures { all.new ≡ map (asked_steady again.now.setup again.now.journal entry.now at) all.old }
{
    for steady in all.iter_mut() {
        *steady = ask_one(again, *steady, entry, at);
    }
}

/// What is known of the condition, if it is in the list.
pub(crate) fn find_steady(all: &[Steady], condition: Condition) -> Option<Steady>
    ensures condition { IfSome result (λ found. found.condition ≡ condition) }
    ensures known { (s : StatedSetup) (journal : List Entries) (place : ℕ)
        → All (IsSteady s journal place) all.now → IfSome result (IsSteady s journal place) }
{
    for steady in all {
        if steady.condition == condition {
            return Some(*steady);
        }
    }
    None
}
