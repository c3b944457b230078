//! The marks of objects, which are all unset at once.

ghost use Rattle.std.specs.Prelude.{◌≡◌, ℕ, ◌+◌, ◌<◌, ◌≤◌, max, ◌==◌, ◌&&◌, [], All, false, not, Some, length, slice_get, slice_index_or, true, OnOk};
ghost use Rattle.std.specs.List.{list_any, range_with_len};
ghost use Rattle.jg_lists.specs.Marks.{Marks, but_last, marks_in};

use crate::marking::Marking;
use std::alloc::{AllocError, Allocator, Global};
use std::marker::Model;

/// A mark for each object, by its number. All are unset at once, so that a collection doesn't go over
/// what is gone. Contracts see whether each is set.
#[derive(Drop)]
pub struct ObjectMarks<A: Allocator = Global> {
    /// The turn in which each was set last, or 0. One byte each, so that many lie in the processor's
    /// nearest cache; once in 255 turns all are written anew. The last is of no object: what has no
    /// mark is noted there, which takes no branch.
    turns: Vec<u8, A>,
    /// The turn that is now. A mark is set where it was set in this turn.
    turn: u8,
}

impl<A: Allocator> Model for ObjectMarks<A> {
    ghost use Rattle.std.specs.Prelude.{List, Bool, All, ◌≤◌};
    ghost use Rattle.jg_lists.specs.Marks.{marks_in};

    ghost Value = { List Bool };

    ghost view = { λ m. marks_in m.turn m.turns.items };

    ghost invariant = { λ m. All (λ t. t ≤ m.turn) m.turns.items };
}

/// The turn after this one, in which no mark was set. No place goes.
fn next_turn<A: Allocator>(turns: &mut Vec<u8, A>, turn: u8) -> u8
    ensures above { 0 < result }
    ensures past { All (λ t. t ≤ turn) turns.old.items → All (λ t. t < result) turns.new.items }
    ensures kept { turn < 255 → turns.new ≡ turns.old }
    ensures many { length turns.new.items ≡ length turns.old.items }
{
    if turn == u8::MAX {
        turns.fill(0);
        return 1;
    }
    turn + 1
}

/// Makes a place, set in no turn, for each of the first `count` objects that has none, and one more.
fn widen<A: Allocator>(turns: &mut Vec<u8, A>, count: usize) -> Result<(), AllocError>
    ensures ok { OnOk result (count < length turns.new.items) }
    ensures past { (turn : ℕ) → 0 < turn → All (λ t. t < turn) turns.old.items → All (λ t. t < turn) turns.new.items }
    ensures within { (turn : ℕ) → All (λ t. t ≤ turn) turns.old.items → All (λ t. t ≤ turn) turns.new.items }
    ensures kept { length turns.old.items ≤ length turns.new.items }
    ensures few { length turns.new.items ≤ max (length turns.old.items) (count + 1) }
{
    if turns.len() <= count {
        let Some(places) = count.checked_add(1) else {
            return Err(AllocError);
        };
        turns.resize(places, 0)?;
    }
    Ok(())
}

/// The turn in which the object's mark was set last, if it has one.
fn turn_of(turns: &[u8], object: u64) -> Option<u8>
    ensures { result ≡ slice_get (but_last turns.now) object }
{
    let place = object as usize;
    if place < turns.len().saturating_sub(1) {
        Some(turns[place])
    } else {
        None
    }
}

/// Whether the object's mark was set in this turn.
fn is_noted(turns: &[u8], turn: u8, object: u64) -> bool
    ensures { result ≡ slice_index_or (marks_in turn turns.now) object false }
{
    match turn_of(turns, object) {
        Some(last) => last == turn,
        None => false,
    }
}

/// Whether one of the places whose turn is wanted, as `wanted` says place by place, has another turn. Goes
/// over all without a branch, so that the processor compares many at once.
fn other_turn(turns: &[u8], turn: u8, wanted: &[bool]) -> bool
    requires { length wanted.now ≤ length turns.now }
    ensures { result ≡ list_any (λ i. slice_index_or wanted.now i false && not (slice_index_or turns.now i 0 == turn))
        (range_with_len 0 (length wanted.now)) }
{
    let mut other = false;
    for at in 0..wanted.len() {
        other |= wanted[at] & (turns[at] != turn);
    }
    other
}

/// Notes the turn for an object, or at the last place if it has no mark.
fn note(turns: &mut [u8], object: u64, turn: u8)
    requires { 0 < length turns.old }
    ensures set { Marks (λ o. object == o) (slice_get (marks_in turn turns.old))
        (slice_get (marks_in turn turns.new)) }
    ensures past { All (λ t. t ≤ turn) turns.old → All (λ t. t ≤ turn) turns.new }
{
    let last = turns.len() - 1;
    turns[(object as usize).min(last)] = turn;
}

/// Notes the turn for each of the objects.
fn note_all(turns: &mut [u8], objects: &[u64], turn: u8)
    requires { 0 < length turns.old }
    ensures set { Marks (λ o. list_any (λ x. x == o) objects.now) (slice_get (marks_in turn turns.old))
        (slice_get (marks_in turn turns.new)) }
    ensures past { All (λ t. t ≤ turn) turns.old → All (λ t. t ≤ turn) turns.new }
{
    for object in objects {
        note(turns, *object, turn);
    }
}

impl<A: Allocator> ObjectMarks<A> {
    /// No marks. Takes no memory.
    pub fn new(alloc: A) -> ObjectMarks<A>
        ensures { result ≡ [] }
    {
        ObjectMarks {
            turns: Vec::new(alloc),
            turn: 0,
        }
    }

    /// Unsets all marks, and makes one for each of the first `count` objects that has none. Fails only
    /// for want of memory, and then too no mark is set.
    pub fn start(&mut self, count: usize) -> Result<(), AllocError>
        ensures unset { (o : ℕ) → slice_index_or self.new o false ≡ false }
        ensures made { OnOk result ((o : ℕ) → o < count → slice_get self.new o ≡ Some false) }
    {
        let turn = next_turn(&mut self.turns, self.turn);
        self.turn = turn;
        widen(&mut self.turns, count)?;
        Ok(())
    }

    /// Unsets all marks. Takes no memory.
    pub fn unset_all(&mut self)
        ensures unset { (o : ℕ) → slice_index_or self.new o false ≡ false }
        ensures many { length self.new ≡ length self.old }
    {
        let turn = next_turn(&mut self.turns, self.turn);
        self.turn = turn;
    }

    /// Makes a mark for each of the first `count` objects that has none, set or unset. Fails only for want
    /// of memory, and then changes nothing.
    pub fn widen(&mut self, count: usize) -> Result<(), AllocError>
        ensures ok { OnOk result (count ≤ length self.new) }
        ensures kept { length self.old ≤ length self.new }
    {
        widen(&mut self.turns, count)
    }

    /// Whether the object's mark is set. An object without a mark has none set.
    pub fn is_set(&self, object: u64) -> bool
        ensures { result ≡ slice_index_or self.now object false }
    {
        is_noted(&self.turns, self.turn, object)
    }

    /// Whether the mark of one of the objects from `first` on isn't set, of those that are wanted: `wanted`
    /// says so of each in turn. Answers yes also where one of these objects has no mark.
    pub fn misses(&self, first: u64, wanted: &[bool]) -> bool
        ensures within { first + length wanted.now ≤ length self.now
            → result
            ≡ list_any (λ i. slice_index_or wanted.now i false && not (slice_index_or self.now (first + i) false))
            (range_with_len 0 (length wanted.now)) }
        ensures past { length self.now < first + length wanted.now → result ≡ true }
    {
        let first = first as usize;
        let count = self.turns.len().saturating_sub(1);
        if first > count || wanted.len() > count - first {
            return true;
        }
        other_turn(&self.turns[first..first + wanted.len()], self.turn, wanted)
    }
}

impl<A: Allocator> Marking for ObjectMarks<A> {
    ghost mark_of = { slice_get };

    fn set(&mut self, object: u64) {
        if !self.turns.is_empty() {
            note(&mut self.turns, object, self.turn);
        }
    }

    // The greatest number never has a mark, since there are never so many.
    fn set_all(&mut self, objects: &[u64]) {
        if !self.turns.is_empty() {
            note_all(&mut self.turns, objects, self.turn);
        }
    }
}
