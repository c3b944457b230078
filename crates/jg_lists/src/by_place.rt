//! Values by number, for small numbers: found in one step, in a list with a place for each.

ghost use Rattle.std.specs.Prelude.{◌≡◌, ℕ, ◌<◌, ◌++◌, ◌∷◌, ◌==◌, if◌then◌else◌, [], IsPermutation, IfSome, IsSome, None, Some, OnOk, OnErr, length, map, option_copied};
ghost use Rattle.std.specs.Option.{is_some, option_copied_mut};
ghost use Rattle.std.specs.Borrow.{sem};
ghost use Rattle.jg_lists.specs.ByThread.{at, IsOnce};
ghost use Rattle.jg_lists.specs.ByNumber.{seen};
ghost use Rattle.jg_lists.specs.ByPlace.{IsSeatOf, Swaps};

use crate::blanks::{number_at, widen};
use crate::by_number::Numbered;
use std::alloc::{AllocError, Allocator, Global};
use std::marker::Model;

/// A value for each of some numbers, found by the number in one step, however many there are. Takes 4
/// bytes for each number up to the greatest that has a value, beside the values: it is meant for small
/// numbers, as those of threads. Contracts see the numbers with their values.
#[derive(Drop)]
pub struct ByPlace<V, A: Allocator = Global> {
    /// By the number, the place of its seat, counted from 1, or 0 where it has none.
    places: Vec<u32, A>,
    seats: Vec<Numbered<V>, A>,
}

impl<V, A: Allocator> Model for ByPlace<V, A> {
    ghost use Rattle.std.specs.Prelude.{List, ℕ, map};
    ghost use Rattle.jg_lists.specs.ByNumber.{seen, number_of};
    ghost use Rattle.jg_lists.specs.ByPlace.{Placed};

    ghost Value = { List (ℕ × V) };

    ghost view = { λ a. map seen a.seats.items };

    ghost invariant = { λ a. Placed a.places.items (map number_of a.seats.items) };
}

impl<V, A: Allocator> ByPlace<V, A> {
    ghost use Rattle.jg_lists.specs.Lending.{lends_get_by_place, lends_value_by_place};

    /// No number has a value. Takes no memory; the two lists grow from the two handles.
    pub fn new(places: A, seats: A) -> ByPlace<V, A>
        ensures empty { result ≡ [] }
        ensures once { IsOnce result }
    {
        ByPlace {
            places: Vec::new(places),
            seats: Vec::new(seats),
        }
    }

    /// The number's value, if it has one.
    pub fn get(&self, number: u64) -> Option<&V>
        ensures value { option_copied result ≡ at number self.now }
        ensures once { IsOnce self.now }
    {
        let place = number_at(&self.places, number as usize, 0);
        if place == 0 {
            return None;
        }
        Some(&self.seats[place as usize - 1].value)
    }

    /// Whether the number has a value.
    pub fn contains(&self, number: u64) -> bool
        ensures value { result ≡ is_some (at number self.now) }
        ensures once { IsOnce self.now }
    {
        self.get(number).is_some()
    }

    /// The number's value for writing, if it has one.
    pub fn get_mut(&mut self, number: u64) -> Option<&mut V>
        ensures* writes_back { sem 𝓛 (lends_get_by_place V.row A.row A.Allocator self.entry number result) }
        ensures value { option_copied_mut result ≡ at number self.old }
        ensures once { IsOnce self.old }
    {
        if self.contains(number) {
            Some(self.value_mut(number))
        } else {
            None
        }
    }

    fn value_mut(&mut self, number: u64) -> &mut V
        requires { IsSome (at number self.old) }
        ensures* writes_back { sem 𝓛 (lends_value_by_place V.row A.row A.Allocator self.entry number result) }
        ensures value { Some result.now ≡ at number self.old }
        ensures once { IsOnce self.old }
    {
        let place = number_at(&self.places, number as usize, 0);
        &mut self.seats[place as usize - 1].value
    }

    /// Gives a value to a number that has none (`contains`). Fails for want of memory, for the greatest number
    /// of all, and where 2^32 - 1 numbers have a value, and then leaves all unchanged.
    pub fn add(&mut self, number: u64, value: V) -> Result<(), AllocError>
    where
        V: Drop,
        requires { at number self.old ≡ None }
        ensures added { OnOk result (self.new ≡ self.old ++ (number, value) ∷ []) }
        ensures found { OnOk result ((q : ℕ) → at q self.new ≡ (if number == q then Some value else at q self.old)) }
        ensures err { OnErr result (self.new ≡ self.old) }
        ensures once { IsOnce self.new }
    {
        widen(&mut self.places, number as usize, 0)?;
        let Ok(place) = u32::try_from(self.seats.len() + 1) else {
            return Err(AllocError);
        };
        self.seats.push(Numbered { number, value })?;
        self.places[number as usize] = place;
        Ok(())
    }

    /// Takes the number's value out, if it has one. The seat that was the last goes to its place. Takes
    /// no memory.
    pub fn remove(&mut self, number: u64) -> Option<V>
        ensures was { result ≡ at number self.old }
        ensures removed { (q : ℕ) → at q self.new ≡ (if number == q then None else at q self.old) }
        ensures taken { IfSome result (λ v. IsPermutation self.old ((number, v) ∷ self.new)) }
        ensures none { result ≡ None → self.new ≡ self.old }
        ensures once { IsOnce self.new }
    {
        let place = number_at(&self.places, number as usize, 0);
        if place == 0 {
            return None;
        }
        let last = self.seats[self.seats.len() - 1].number;
        self.places[last as usize] = place;
        self.places[number as usize] = 0;
        let seat = self.seats.swap_remove(place as usize - 1);
        Some(seat.value)
    }

    /// The place of the number's seat, from 0, if it has one.
    pub fn place_of(&self, number: u64) -> Option<usize>
        ensures found { IfSome result (λ i. IsSeatOf number i self.now) }
        ensures none { result ≡ None → at number self.now ≡ None }
    {
        let place = number_at(&self.places, number as usize, 0);
        if place == 0 {
            return None;
        }
        Some(place as usize - 1)
    }

    /// Swaps the seats at the two places. Takes no memory.
    pub fn swap(&mut self, i: usize, j: usize)
        requires one { i < length self.old }
        requires other { j < length self.old }
        ensures moved { Swaps self.old self.new i j }
        ensures found { (q : ℕ) → at q self.new ≡ at q self.old }
        ensures same { length self.new ≡ length self.old }
        ensures once { IsOnce self.new }
    {
        let first = self.seats[i].number;
        let second = self.seats[j].number;
        self.places.swap(first as usize, second as usize);
        self.seats.swap(i, j);
    }

    /// The numbers that have a value, with it.
    pub fn seats(&self) -> &[Numbered<V>]
        ensures seats { map seen result.now ≡ self.now }
        ensures once { IsOnce self.now }
    {
        &self.seats
    }
}
