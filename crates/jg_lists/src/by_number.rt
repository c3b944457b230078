//! Values by number, for any numbers: found by a search that mostly ends at once.

ghost use Rattle.std.specs.Prelude.{◌≡◌, ℕ, ◌<◌, ◌^◌, ◌++◌, ◌∷◌, ◌==◌, if◌then◌else◌, [], IsPermutation, IsSome, IfSome, None, Some, OnOk, OnErr, length, map, slice_index_or, option_copied};
ghost use Rattle.std.specs.Option.{is_some, option_copied_mut};
ghost use Rattle.std.specs.Borrow.{sem};
ghost use Rattle.std.specs.Map.{set_value, keys_of};
ghost use Rattle.std.specs.BTreeMap.{is_at};
ghost use Rattle.std.specs.Ordering.{nat_cmp};
ghost use Rattle.jg_lists.specs.ByThread.{at, IsOnce};
ghost use Rattle.jg_lists.specs.ByNumber.{seen};

use crate::slots::{find_slot, leave_slot, make_room, take_slot};
use std::alloc::{AllocError, Allocator, Global};
use std::marker::Model;

/// A number, with its value.
#[derive(Drop)]
pub struct Numbered<V> {
    pub number: u64,
    pub value: V,
}

/// A value for each of some numbers, found by the number in a step or a few, however many there are. Takes
/// memory for as many values as there ever were at once, whatever their numbers are: beside the values with
/// their numbers at most 24 bytes for each, and 128. It is fastest for numbers that lie close together.
/// Contracts see the numbers with their values.
#[derive(Drop)]
pub struct ByNumber<V, A: Allocator = Global> {
    /// In each slot the place of a seat, counted from 1, or 0 where the slot is free.
    slots: Vec<u32, A>,
    /// How many slots aren't free, at most.
    used: usize,
    seats: Vec<Numbered<V>, A>,
}

impl<V, A: Allocator> Model for ByNumber<V, A> {
    ghost use Rattle.std.specs.Prelude.{List, ℕ, map};
    ghost use Rattle.jg_lists.specs.ByNumber.{seen, number_of};
    ghost use Rattle.jg_lists.specs.Searches.{Standing};

    ghost Value = { List (ℕ × V) };

    ghost view = { λ a. map seen a.seats.items };

    ghost invariant = { λ a. Standing a.slots.items (map number_of a.seats.items) a.used };
}

impl<V, A: Allocator> ByNumber<V, A> {
    ghost use Rattle.jg_lists.specs.Lending.{lends_get, lends_value};

    /// No number has a value. Takes no memory; the two lists grow from the two handles.
    pub fn new(places: A, seats: A) -> ByNumber<V, A>
        ensures empty { result ≡ [] }
        ensures once { IsOnce result }
    {
        ByNumber {
            slots: Vec::new(places),
            used: 0,
            seats: Vec::new(seats),
        }
    }

    /// The number's value, if it has one.
    pub fn get(&self, number: u64) -> Option<&V>
        ensures value { option_copied result ≡ at number self.now }
        ensures once { IsOnce self.now }
    {
        let Some(found) = find_slot(&self.slots, &self.seats, number) else {
            return None;
        };
        Some(&self.seats[found.seat].value)
    }

    /// Whether the number has a value.
    pub fn contains(&self, number: u64) -> bool
        ensures value { result ≡ is_some (at number self.now) }
        ensures once { IsOnce self.now }
    {
        self.get(number).is_some()
    }

    /// The number's value for writing, if it has one.
    pub fn get_mut(&mut self, number: u64) -> Option<&mut V>
        ensures* writes_back { sem 𝓛 (lends_get V.row A.row A.Allocator self.entry number result) }
        ensures value { option_copied_mut result ≡ at number self.old }
        ensures once { IsOnce self.old }
    {
        match find_slot(&self.slots, &self.seats, number) {
            Some(found) => Some(self.value_at(number, found.seat)),
            None => None,
        }
    }

    /// The value of the number's seat for writing.
    fn value_at(&mut self, number: u64, seat: usize) -> &mut V
        requires seated { seat < length self.old }
        requires own { slice_index_or (keys_of self.old) seat 0 ≡ number }
        ensures* writes_back { sem 𝓛 (lends_value V.row A.row A.Allocator self.entry number result) }
        ensures value { Some result.now ≡ at number self.old }
        ensures once { IsOnce self.old }
    {
        &mut self.seats[seat].value
    }

    /// Gives another value to a number that has one. Takes no memory.
    pub fn set(&mut self, number: u64, value: V)
    where
        V: Drop,
        requires { IsSome (at number self.old) }
        ensures entries { self.new ≡ set_value (is_at (nat_cmp number)) self.old value }
        ensures set { (q : ℕ) → at q self.new ≡ (if number == q then Some value else at q self.old) }
        ensures once { IsOnce self.new }
    {
        if let Some(found) = find_slot(&self.slots, &self.seats, number) {
            *self.value_at(number, found.seat) = value;
        }
    }

    /// Gives a value to a number that has none (`contains`). Fails for want of memory, and where 2^32 - 1
    /// numbers have a value, and then leaves all unchanged.
    pub fn add(&mut self, number: u64, value: V) -> Result<(), AllocError>
    where
        V: Drop,
        requires { at number self.old ≡ None }
        ensures added { OnOk result (self.new ≡ self.old ++ (number, value) ∷ []) }
        ensures found { OnOk result ((q : ℕ) → at q self.new ≡ (if number == q then Some value else at q self.old)) }
        ensures err { OnErr result (self.new ≡ self.old) }
        ensures once { IsOnce self.new }
        ensures few { OnOk result (length self.new < 2 ^ 32) }
    {
        let Ok(place) = u32::try_from(self.seats.len() + 1) else {
            return Err(AllocError);
        };
        self.used = make_room(&mut self.slots, self.used, &self.seats)?;
        self.seats.push(Numbered { number, value })?;
        take_slot(&mut self.slots, number, place);
        self.used += 1;
        Ok(())
    }

    /// Takes the number's value out, if it has one. The seat that was the last goes to its place. Takes
    /// no memory.
    pub fn remove(&mut self, number: u64) -> Option<V>
        ensures was { result ≡ at number self.old }
        ensures removed { (q : ℕ) → at q self.new ≡ (if number == q then None else at q self.old) }
        ensures taken { IfSome result (λ v. IsPermutation self.old ((number, v) ∷ self.new)) }
        ensures none { result ≡ None → self.new ≡ self.old }
        ensures once { IsOnce self.new }
    {
        let Some(found) = find_slot(&self.slots, &self.seats, number) else {
            return None;
        };
        let used = leave_slot(&mut self.slots, self.used, &self.seats, found);
        self.used = used;
        let seat = self.seats.swap_remove(found.seat);
        Some(seat.value)
    }

    /// The numbers that have a value, with it.
    pub fn seats(&self) -> &[Numbered<V>]
        ensures seats { map seen result.now ≡ self.now }
        ensures once { IsOnce self.now }
    {
        &self.seats
    }
}
