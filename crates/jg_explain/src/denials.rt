//! Which calls of a journal were denied, and in which way each broke its rule.

ghost use Rattle.std.specs.Prelude.{◌≡◌, ◌≤◌, ◌++◌, Some, flat_map, length, map, reverse, slice_get, take, OnOk, IfOk};
ghost use Rattle.jg_explain.specs.Explained.{AreWithin, IsFront, causes, causes_at, causes_of, denial_of, unknown, watches_of};

use crate::replaying::replay_entry;
use crate::watching::Watch;
use jg_breaches::{Breach, Condition, Turns, breach_of, conditions_of};
use jg_guard::{Guard, NoMemory};
use jg_words::{Entry, Rule};
use std::alloc::{AllocError, Allocator, Global};

/// A denied call: the place of its entry, which is the number of entries before it, the rule that it
/// was denied by, in which way it broke it, and how many watches it has.
#[derive(Clone, Copy)]
pub struct Denial {
    pub place: usize,
    pub rule: Rule,
    pub breach: Breach,
    pub asked: usize,
}

/// Denials, and the watches of all of them, those of one after those of the other.
#[derive(Drop)]
pub(crate) struct Denials {
    pub(crate) denials: Vec<Denial>,
    pub(crate) watches: Vec<Watch>,
}

/// Adds a watch of each condition up to that place, which knows nothing yet.
pub(crate) fn push_watches(
    watches: &mut Vec<Watch>,
    place: usize,
    conditions: &[Condition],
) -> Result<(), AllocError>
    ensures { OnOk result (watches.new.items ≡ watches.old.items ++ map (unknown place) conditions.now) }
{
    for condition in conditions {
        watches.push(Watch {
            place,
            condition: *condition,
            holds: false,
            turns: Turns {
                latest: None,
                earlier: None,
            },
        })?;
    }
    Ok(())
}

/// Adds what is known of an entry that was denied by the rule, where `again` has the entries before it.
fn push_denial<B: Allocator + Clone>(
    again: &Guard<B>,
    found: &mut Denials,
    alloc: Global,
    entry: &Entry,
    rule: Rule,
) -> Result<(), NoMemory>
    ensures denials { OnOk result (found.new.denials.items ≡ found.old.denials.items
        ++ map denial_of (causes_of again.now.setup again.now.journal entry.now (Some rule))) }
    ensures watches { OnOk result (found.new.watches.items ≡ found.old.watches.items
        ++ flat_map watches_of (causes_of again.now.setup again.now.journal entry.now (Some rule))) }
{
    let place = again.journal_len();
    let view = again.view();
    let breach = breach_of(&view, entry.tid(), entry.env(), entry.call(), rule);
    let Ok(conditions) = conditions_of(&view, entry.tid(), breach, &alloc) else {
        return Err(NoMemory);
    };
    let Ok(()) = push_watches(&mut found.watches, place, &conditions) else {
        return Err(NoMemory);
    };
    let denial = Denial {
        place,
        rule,
        breach,
        asked: conditions.len(),
    };
    match found.denials.push(denial) {
        Ok(()) => Ok(()),
        Err(_) => Err(NoMemory),
    }
}

/// Adds the entry at that place, if it was denied, where `again` has the entries before it.
pub(crate) fn push_if_denied<A: Allocator + Clone, B: Allocator + Clone>(
    guard: &Guard<A>,
    again: &Guard<B>,
    found: &mut Denials,
    alloc: Global,
    place: usize,
) -> Result<(), NoMemory>
    ensures denials { OnOk result (found.new.denials.items ≡ found.old.denials.items
        ++ map denial_of (causes_at again.now.setup again.now.journal (slice_get (reverse guard.now.journal) place))) }
    ensures watches { OnOk result (found.new.watches.items ≡ found.old.watches.items
        ++ flat_map watches_of
        (causes_at again.now.setup again.now.journal (slice_get (reverse guard.now.journal) place))) }
{
    let Some(entry) = guard.journal_entry(place) else {
        return Ok(());
    };
    match entry.rule() {
        None => Ok(()),
        Some(rule) => push_denial(again, found, alloc, entry, rule),
    }
}

/// The first denials of the guard's journal, at most `most`, with the watches of each, which know
/// nothing yet. `again` is a new guard of the same setup, which goes over the journal as far as is
/// needed: past the last of them and no further. Fails only for want of memory.
pub(crate) fn denials_of<A: Allocator + Clone, B: Allocator + Clone>(
    guard: &Guard<A>,
    again: &mut Guard<B>,
    alloc: Global,
    most: usize,
) -> Result<Denials, NoMemory>
    requires { IsFront guard.now again.old 0 }
    ensures denials { IfOk result (λ found. found.denials.items
        ≡ map denial_of (take most (causes guard.now.setup guard.now.journal))) }
    ensures watches { IfOk result (λ found. found.watches.items
        ≡ flat_map watches_of (take most (causes guard.now.setup guard.now.journal))) }
    ensures within { OnOk result (AreWithin (length again.new.journal)
        (take most (causes guard.now.setup guard.now.journal))) }
    ensures front { OnOk result (length again.new.journal ≤ length guard.now.journal) }
{
    let mut found = Denials {
        denials: Vec::new(alloc),
        watches: Vec::new(alloc),
    };
    for at in 0..guard.journal_len() {
        if found.denials.len() >= most {
            return Ok(found);
        }
        push_if_denied(guard, again, &mut found, alloc, at)?;
        replay_entry(guard, again, at)?;
    }
    Ok(found)
}
