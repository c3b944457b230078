//! One thread's list of locals, with the objects that they name beside it.

ghost use Rattle.std.specs.Prelude.{◌≡◌, ◌≤◌, ◌<◌, ◌+◌, ◌++◌, ◌∷◌, ◌&&◌, ◌==◌, [], IsOk, IsTrue, IfSome, MatchOption, false, OnOk, OnErr, filter, length, map, slice_index_or, slice_set, option_to_list, vec_capacity};
ghost use Rattle.std.specs.List.{AllByRecursion, list_any};
ghost use Rattle.jg_lists.specs.Marks.{Marks};
ghost use Rattle.jg_table_locals.specs.Seen.{Chain, IsPlaceOf, is_before, is_live, named, ended};

use crate::hints::Hints;
use crate::row::LocalSlot;
use jg_lists::Marking;
use std::alloc::{AllocError, Allocator};
use std::cell::Cell;
use std::marker::Model;

/// A thread's slots, and beside them the objects that the live ones name, so that a collection reads
/// these alone. Contracts see the slots, and for how many more there is room.
#[derive(Drop)]
pub struct SlotList<A: Allocator> {
    slots: Vec<LocalSlot, A>,
    /// The object of each slot; of a dead one the greatest number, at which there is no mark.
    objects: Vec<u64, A>,
    /// Where a local was found last, since a call's operand is asked for more than once. It is a guess,
    /// which each look-up checks.
    recent: Cell<usize>,
    /// Where each local may stand, since a search in a long list waits for memory at each step.
    hints: Hints<A>,
}

impl<A: Allocator> Model for SlotList<A> {
    ghost use Rattle.std.specs.Prelude.{◌≡◌, ◌-◌, map, min, vec_len, vec_capacity};
    ghost use Rattle.jg_table_locals.specs.Seen.{SlotsSeen, named};

    ghost Value = { SlotsSeen };

    ghost view = { λ a. record {
      items = a.slots.items;
      room = min (vec_capacity a.slots - vec_len a.slots) (vec_capacity a.objects - vec_len a.objects);
    } };

    ghost invariant = { λ a. a.objects.items ≡ map named a.slots.items };
}

/// The object that the slot names, if it is live.
fn named(slot: LocalSlot) -> u64
    ensures { result ≡ named slot }
{
    if slot.live { slot.object } else { u64::MAX }
}

/// Whether the local `n` stands at the place.
fn stands_at(slots: &[LocalSlot], place: usize, n: u64) -> bool
    ensures { IsTrue result → IsPlaceOf n slots.now place }
{
    match slots.get(place) {
        Some(slot) => slot.n == n,
        None => false,
    }
}

/// Where the local `n` stands, if none is missing from the oldest up to it.
fn place_in_row(slots: &[LocalSlot], n: u64) -> Option<usize>
    ensures { IfSome result (IsPlaceOf n slots.now) }
{
    let place = n.checked_sub(slots.first()?.n)? as usize;
    if stands_at(slots, place, n) {
        Some(place)
    } else {
        None
    }
}

/// Where the local `n` stands, if its hint is right.
fn place_hinted<A: Allocator>(slots: &[LocalSlot], hints: &Hints<A>, n: u64) -> Option<usize>
    ensures { IfSome result (IsPlaceOf n slots.now) }
{
    let place = hints.get(n)?;
    if stands_at(slots, place, n) {
        Some(place)
    } else {
        None
    }
}

/// Where the local `n` stands, live or dead.
fn place_among<A: Allocator>(slots: &[LocalSlot], hints: &Hints<A>, n: u64) -> Option<usize>
    requires { Chain is_before slots.now }
    ensures { MatchOption result (AllByRecursion (λ s. (s.n == n) ≡ false) slots.now) (IsPlaceOf n slots.now) }
{
    // Most lists have a local of each number, and then no search is needed.
    if let Some(place) = place_in_row(slots, n) {
        return Some(place);
    }
    if let Some(place) = place_hinted(slots, hints, n) {
        return Some(place);
    }
    match slots.binary_search_by_key(&n, |slot| slot.n) {
        Ok(place) => Some(place),
        Err(_place) => None,
    }
}

/// Lists the objects of the slots, for which there is room.
fn name_all<A: Allocator>(objects: &mut Vec<u64, A>, slots: &[LocalSlot])
    requires { length slots.now ≤ vec_capacity objects.old }
    ensures items { objects.new.items ≡ map named slots.now }
    ensures capacity { vec_capacity objects.old ≤ vec_capacity objects.new }
{
    objects.clear();
    for slot in slots {
        objects.push_reserved(named(*slot));
    }
}

impl<A: Allocator> SlotList<A> {
    /// No slots. Takes no memory.
    pub fn new(slots: A, objects: A, offsets: A, bases: A) -> SlotList<A>
        ensures { result.items ≡ [] }
    {
        SlotList {
            slots: Vec::new(slots),
            objects: Vec::new(objects),
            recent: Cell::new(0),
            hints: Hints::new(offsets, bases),
        }
    }

    pub fn as_slice(&self) -> &[LocalSlot]
        ensures { result.now ≡ self.now.items }
    {
        self.slots.as_slice()
    }

    /// Where the local `n` stands, live or dead.
    pub fn place_of(&self, n: u64) -> Option<usize>
        requires { Chain is_before self.now.items }
        ensures { MatchOption result (AllByRecursion (λ s. (s.n == n) ≡ false) self.now.items)
            (λ i. (i < length self.now.items) × ((s : LocalSlot) → (slice_index_or self.now.items i s).n ≡ n)) }
    {
        let recent = self.recent.get();
        if stands_at(self.as_slice(), recent, n) {
            return Some(recent);
        }
        let place = place_among(self.as_slice(), &self.hints, n)?;
        self.recent.set(place);
        Some(place)
    }

    /// Makes room for one more.
    pub fn reserve(&mut self) -> Result<(), AllocError>
        ensures items { self.new.items ≡ self.old.items }
        ensures ok { OnOk result (0 < self.new.room) }
        ensures room { self.old.room ≤ self.new.room }
        ensures has_room { 0 < self.old.room → IsOk result }
    {
        self.slots.try_reserve(1)?;
        self.objects.try_reserve(1)
    }

    /// Adds a slot behind the others.
    pub fn push(&mut self, slot: LocalSlot) -> Result<(), AllocError>
        ensures ok { OnOk result (self.new.items ≡ self.old.items ++ slot ∷ []) }
        ensures err { OnErr result (self.new.items ≡ self.old.items) }
        ensures room { self.old.room ≤ self.new.room + 1 }
        ensures has_room { 0 < self.old.room → IsOk result }
    {
        self.reserve()?;
        self.hints.note(slot.n, self.slots.len());
        self.slots.push_reserved(slot);
        self.objects.push_reserved(named(slot));
        Ok(())
    }

    /// Marks a slot dead. The answer is the slot as it was.
    pub fn end(&mut self, place: usize) -> LocalSlot
        requires { place < length self.old.items }
        ensures was { result ≡ slice_index_or self.old.items place result }
        ensures items { self.new.items ≡ slice_set self.old.items place (ended result) }
        ensures room { self.new.room ≡ self.old.room }
    {
        let was = self.slots[place];
        self.slots[place].live = false;
        self.objects[place] = u64::MAX;
        was
    }

    /// Takes the last slot off.
    pub fn pop(&mut self) -> Option<LocalSlot>
        ensures items { self.old.items ≡ self.new.items ++ option_to_list result }
        ensures fewer { 0 < length self.old.items → length self.new.items < length self.old.items }
        ensures room { self.old.room ≤ self.new.room }
    {
        self.objects.pop();
        self.slots.pop()
    }

    /// The dead slots go.
    pub fn close_up(&mut self)
        ensures items { self.new.items ≡ filter is_live self.old.items }
        ensures room { self.old.room ≤ self.new.room }
    {
        self.slots.retain(|slot| slot.live);
        name_all(&mut self.objects, &self.slots);
        self.hints.note_all(&self.slots);
    }

    /// Marks each object that a live slot names. Objects without a mark are passed over.
    pub fn mark_named<M: Marking>(&self, marks: &mut M)
        ensures { Marks (λ o. list_any (λ s. s.object == o) (filter is_live self.now.items)) (M.mark_of marks.old)
            (M.mark_of marks.new) }
    {
        marks.set_all(&self.objects);
    }
}
