//! Values by thread, kept by place, since the numbers of threads are small.

ghost use Rattle.std.specs.Prelude.{◌≡◌, ℕ, ◌<◌, ◌^◌, ◌++◌, ◌∷◌, ◌==◌, if◌then◌else◌, [], All, IsPermutation, IfSome, None, Some, OnOk, OnErr, length, map, option_copied};
ghost use Rattle.std.specs.Option.{is_some, option_copied_mut};
ghost use Rattle.std.specs.Borrow.{sem};
ghost use Rattle.jg_lists.specs.ByThread.{at, IsOnce};
ghost use Rattle.jg_lists.specs.ByNumber.{seen};
ghost use Rattle.jg_lists.specs.ByPlace.{IsSeatOf, Swaps};

use crate::by_number::Numbered;
use crate::by_place::ByPlace;
use std::alloc::{AllocError, Allocator, Global};
use std::marker::Model;

/// A value for each of some threads, found by the thread's number in one step, however many threads
/// there are. Contracts see the threads with their values, the first that was added first.
#[derive(Drop)]
pub struct ByThread<V, A: Allocator = Global> {
    /// By the thread's number, so each is below 2 ^ 16.
    numbers: ByPlace<V, A>,
}

impl<V, A: Allocator> Model for ByThread<V, A> {
    ghost use Rattle.std.specs.Prelude.{List, ℕ, ◌<◌, ◌^◌, All};

    ghost Value = { List (ℕ × V) };

    ghost view = { λ a. a.numbers };

    ghost invariant = { λ a. All (λ e. e.0 < 2 ^ 16) a.numbers };
}

impl<V, A: Allocator> ByThread<V, A> {
    ghost use Rattle.jg_lists.specs.Lending.{lends_get_by_thread};

    /// No thread has a value. Takes no memory; the two lists grow from the two handles.
    pub fn new(places: A, seats: A) -> ByThread<V, A>
        ensures empty { result ≡ [] }
        ensures once { IsOnce result }
    {
        ByThread {
            numbers: ByPlace::new(places, seats),
        }
    }

    /// The thread's value, if it has one.
    pub fn get(&self, tid: u16) -> Option<&V>
        ensures value { option_copied result ≡ at tid self.now }
        ensures once { IsOnce self.now }
    {
        self.numbers.get(u64::from(tid))
    }

    /// Whether the thread has a value.
    pub fn contains(&self, tid: u16) -> bool
        ensures value { result ≡ is_some (at tid self.now) }
        ensures once { IsOnce self.now }
    {
        self.numbers.contains(u64::from(tid))
    }

    /// The thread's value for writing, if it has one.
    pub fn get_mut(&mut self, tid: u16) -> Option<&mut V>
        ensures* writes_back { sem 𝓛 (lends_get_by_thread V.row A.row A.Allocator self.entry tid result) }
        ensures value { option_copied_mut result ≡ at tid self.old }
        ensures once { IsOnce self.old }
    {
        self.numbers.get_mut(u64::from(tid))
    }

    /// Gives a value to a thread that has none (`contains`). Fails only for want of memory, and then
    /// leaves all unchanged.
    pub fn add(&mut self, tid: u16, value: V) -> Result<(), AllocError>
    where
        V: Drop,
        requires { at tid self.old ≡ None }
        ensures added { OnOk result (self.new ≡ self.old ++ (tid, value) ∷ []) }
        ensures found { OnOk result ((t : ℕ) → at t self.new ≡ (if tid == t then Some value else at t self.old)) }
        ensures err { OnErr result (self.new ≡ self.old) }
        ensures once { IsOnce self.new }
    {
        self.numbers.add(u64::from(tid), value)
    }

    /// Takes the thread's value out, if it has one. Takes no memory.
    pub fn remove(&mut self, tid: u16) -> Option<V>
        ensures was { result ≡ at tid self.old }
        ensures removed { (t : ℕ) → at t self.new ≡ (if tid == t then None else at t self.old) }
        ensures taken { IfSome result (λ v. IsPermutation self.old ((tid, v) ∷ self.new)) }
        ensures none { result ≡ None → self.new ≡ self.old }
        ensures once { IsOnce self.new }
    {
        self.numbers.remove(u64::from(tid))
    }

    /// The place of the thread's seat, from 0, if it has one.
    pub fn place_of(&self, tid: u16) -> Option<usize>
        ensures found { IfSome result (λ i. IsSeatOf tid i self.now) }
        ensures none { result ≡ None → at tid self.now ≡ None }
    {
        self.numbers.place_of(u64::from(tid))
    }

    /// Swaps the seats at the two places. Takes no memory.
    pub fn swap(&mut self, i: usize, j: usize)
        requires one { i < length self.old }
        requires other { j < length self.old }
        ensures moved { Swaps self.old self.new i j }
        ensures found { (t : ℕ) → at t self.new ≡ at t self.old }
        ensures same { length self.new ≡ length self.old }
        ensures once { IsOnce self.new }
    {
        self.numbers.swap(i, j);
    }

    /// The threads that have a value, with it. Each number is that of a thread, so it fits in a `u16`.
    pub fn seats(&self) -> &[Numbered<V>]
        ensures seats { map seen result.now ≡ self.now }
        ensures once { IsOnce self.now }
        ensures threads { All (λ seat. seat.number < 2 ^ 16) result.now }
    {
        self.numbers.seats()
    }
}
