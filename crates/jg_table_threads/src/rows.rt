//! The rows of all threads, by thread.

ghost use Rattle.std.specs.Prelude.{◌≡◌, ◌≤◌, ◌<◌, ◌^◌, ℕ, ◌==◌, if◌then◌else◌, [], All, None, Some, IsSome, IsTrue, OnOk, OnErr, find, length, map, option_map};
ghost use Rattle.std.specs.List.{list_any};
ghost use Rattle.std.specs.Map.{keys_of, values_of};
ghost use Rattle.jg_lists.specs.ByNumber.{seen};
ghost use Rattle.jg_lists.specs.ByThread.{at, IsOnce};
ghost use Rattle.jg_table_threads.specs.History.{is_object};
ghost use Rattle.jg_table_threads.specs.Rows.{row_of};
ghost use Rattle.jg_table_threads.specs.Calm.{AreCalm, AreOthersCalm, IsInFront};
ghost use Rattle.jg_lists.specs.Marks.{Marks};

use crate::row::{NO_ROW, Row};
use jg_lists::{ByThread, Marking, Numbered};
use std::alloc::{AllocError, Allocator};
use std::marker::Model;

/// The rows of all threads. Those with a pending exception stand in front, so that a pass over what is
/// pending goes over them alone. Contracts see the rows, by thread.
#[derive(Drop)]
pub struct RowTable<A: Allocator> {
    seats: ByThread<Row, A>,
    /// How many seats stand in front.
    raised: usize,
}

impl<A: Allocator> Model for RowTable<A> {
    ghost use Rattle.std.specs.Prelude.{List, ℕ, length, ◌≤◌};
    ghost use Rattle.jg_table_threads.specs.Rows.{Row};
    ghost use Rattle.jg_table_threads.specs.Calm.{AreCalm};

    ghost Value = { List (ℕ × Row) };

    ghost view = { λ a. a.seats };

    ghost invariant = { λ a. (a.raised ≤ length a.seats) × AreCalm a.raised a.seats };
}

impl<A: Allocator> RowTable<A> {
    /// No thread has a row. Takes no memory.
    pub fn new(places: A, rows: A) -> RowTable<A>
        ensures { result ≡ [] }
    {
        RowTable {
            seats: ByThread::new(places, rows),
            raised: 0,
        }
    }

    /// The row of the thread, if it has one.
    pub fn find(&self, tid: u16) -> Option<Row>
        ensures value { result ≡ at tid self.now }
        ensures once { IsOnce self.now }
    {
        self.seats.get(tid).copied()
    }

    /// The row of the thread, or that of one that did nothing.
    pub fn get(&self, tid: u16) -> Row
        ensures { result ≡ row_of self.now tid }
    {
        match self.find(tid) {
            Some(row) => row,
            None => NO_ROW,
        }
    }

    /// Gives the thread another row, if it has one. Takes no memory.
    pub fn replace(&mut self, tid: u16, row: Row)
        ensures put { (t : ℕ) → at t self.new
            ≡ (if tid == t then option_map (λ _. row) (at t self.old) else at t self.old) }
        ensures was_once { IsOnce self.old }
        ensures once { IsOnce self.new }
    {
        if !self.seats.contains(tid) {
            return;
        }
        self.set(tid, row);
    }

    /// Gives the thread another row by which the same is pending, if it has one. Takes no memory.
    pub fn replace_rest(&mut self, tid: u16, row: Row)
        requires { row.pending ≡ (row_of self.old tid).pending }
        ensures put { (t : ℕ) → at t self.new
            ≡ (if tid == t then option_map (λ _. row) (at t self.old) else at t self.old) }
        ensures was_once { IsOnce self.old }
        ensures once { IsOnce self.new }
    {
        write_row(&mut self.seats, tid, row);
    }

    /// Gives the thread, which has a row, another one. Takes no memory.
    fn set(&mut self, tid: u16, row: Row)
        requires { IsSome (at tid self.old) }
        ensures put { (t : ℕ) → at t self.new ≡ (if tid == t then Some row else at t self.old) }
        ensures once { IsOnce self.new }
    {
        let raised = move_seat(&mut self.seats, self.raised, tid, row.pending.is_some());
        self.raised = raised;
        write_row(&mut self.seats, tid, row);
    }

    /// Gives the thread this row. Fails only where it has none yet, for want of memory.
    pub fn put(&mut self, tid: u16, row: Row) -> Result<(), AllocError>
        requires { at tid self.old ≡ None → row.pending ≡ None }
        ensures put { OnOk result ((t : ℕ) → at t self.new ≡ (if tid == t then Some row else at t self.old)) }
        ensures was_once { IsOnce self.old }
        ensures once { IsOnce self.new }
        ensures err { OnErr result (self.new ≡ self.old) }
        ensures absent { OnErr result (at tid self.old ≡ None) }
    {
        if self.seats.contains(tid) {
            self.set(tid, row);
            return Ok(());
        }
        self.seats.add(tid, row)?;
        Ok(())
    }

    /// The first thread by whose row the object is pending.
    pub fn thread_of(&self, object: u64) -> Option<u16>
        ensures first { result ≡ option_map (λ e. e.0) (find (λ e. is_object object e.1.pending) self.now) }
        ensures once { IsOnce self.now }
    {
        let (front, _) = self.seats.seats().split_at(self.raised);
        thread_in(front, object)
    }

    /// Marks each object that is pending by some row.
    pub fn mark_pending<M: Marking>(&self, marks: &mut M)
        ensures marks { Marks (λ o. list_any (λ row. is_object o row.pending) (values_of self.now))
            (M.mark_of marks.old) (M.mark_of marks.new) }
        ensures once { IsOnce self.now }
    {
        let (front, _) = self.seats.seats().split_at(self.raised);
        mark_seats(front, marks);
    }
}

/// Brings the thread's seat to the front, where `up`, else out of it, and answers how many stand there then.
fn move_seat<A: Allocator>(seats: &mut ByThread<Row, A>, raised: usize, tid: u16, up: bool) -> usize
    requires has { IsSome (at tid seats.old) }
    requires few { raised ≤ length seats.old }
    requires calm { AreCalm raised seats.old }
    ensures others { AreOthersCalm tid result seats.new }
    ensures front { IsTrue up → IsInFront tid result seats.new }
    ensures found { (t : ℕ) → at t seats.new ≡ at t seats.old }
    ensures few { result ≤ length seats.new }
{
    if up {
        raise(seats, raised, tid)
    } else {
        lower(seats, raised, tid)
    }
}

fn raise<A: Allocator>(seats: &mut ByThread<Row, A>, raised: usize, tid: u16) -> usize
    requires has { IsSome (at tid seats.old) }
    requires few { raised ≤ length seats.old }
    requires calm { AreCalm raised seats.old }
    ensures others { AreOthersCalm tid result seats.new }
    ensures front { IsInFront tid result seats.new }
    ensures found { (t : ℕ) → at t seats.new ≡ at t seats.old }
    ensures few { result ≤ length seats.new }
{
    // A slice bounds the seats.
    let _seats = seats.seats();
    let Some(place) = seats.place_of(tid) else {
        return raised;
    };
    if place < raised {
        return raised;
    }
    seats.swap(place, raised);
    raised + 1
}

fn lower<A: Allocator>(seats: &mut ByThread<Row, A>, raised: usize, tid: u16) -> usize
    requires few { raised ≤ length seats.old }
    requires calm { AreCalm raised seats.old }
    ensures others { AreOthersCalm tid result seats.new }
    ensures found { (t : ℕ) → at t seats.new ≡ at t seats.old }
    ensures few { result ≤ length seats.new }
{
    let Some(place) = seats.place_of(tid) else {
        return raised;
    };
    if place >= raised {
        return raised;
    }
    let last = raised - 1;
    seats.swap(place, last);
    last
}

fn write_row<A: Allocator>(seats: &mut ByThread<Row, A>, tid: u16, row: Row)
    ensures put { (t : ℕ) → at t seats.new
        ≡ (if tid == t then option_map (λ _. row) (at t seats.old) else at t seats.old) }
    ensures was_once { IsOnce seats.old }
    ensures keys { keys_of seats.new ≡ keys_of seats.old }
    ensures once { IsOnce seats.new }
{
    if let Some(kept) = seats.get_mut(tid) {
        *kept = row;
    }
}

/// The first thread of the seats by whose row the object is pending.
fn thread_in(seats: &[Numbered<Row>], object: u64) -> Option<u16>
    requires { All (λ seat. seat.number < 2 ^ 16) seats.now }
    ensures { result ≡ option_map (λ e. e.0) (find (λ e. is_object object e.1.pending) (map seen seats.now)) }
{
    for seat in seats {
        if seat.value.has_pending(object) {
            return Some(seat.number as u16);
        }
    }
    None
}

fn mark_seats<M: Marking>(seats: &[Numbered<Row>], marks: &mut M)
    ensures { Marks (λ o. list_any (λ seat. is_object o seat.value.pending) seats.now) (M.mark_of marks.old)
        (M.mark_of marks.new) }
{
    for seat in seats {
        seat.value.mark_pending(marks);
    }
}
