//! Parts of strings and arrays that calls read or write, and which calls may have thrown.

ghost use Rattle.std.specs.Prelude.{◌≡◌, ◌+◌, ℕ, List, Some};
ghost use Rattle.jg_rows.specs.Columns.{columns};
ghost use Rattle.jg_table_heap.specs.History.{Event};
ghost use Rattle.jg_rules.specs.Parts.{Parts};
ghost use Rattle.jg_rules.specs.View.{ViewTells};
ghost use Rattle.jg_advice.specs.Throwing as spec;

use crate::functions::throws_untold;
use jg_judge::Argument;
use jg_rows::Row;
use jg_rules::{Store, View, object_named};
use jg_table_heap::{Heap, natural};
use jg_table_objects::Objects;
use jg_words::{ObjId, Ref, Tid};
use std::alloc::Allocator;

/// A store of objects that knows how long these are.
pub trait Lengths: Store {
    /// How many characters a string has, items an array, fields any other object, where it is there.
    fn length_here(&self, object: ObjId) -> Option<u64>
        ensures { (k : ℕ) (e : List Event) → Self.Store.Tells self.now k e → result ≡ spec.length_here k e object.0 };
}

impl<A: Allocator> Lengths for Heap<A> {
    fn length_here(&self, object: ObjId) -> Option<u64> {
        if object.0 < self.len() && !self.is_gone(object) {
            Some(self.array_len(object) as u64)
        } else {
            None
        }
    }
}

impl<A: Allocator> Lengths for Objects<A> {
    fn length_here(&self, object: ObjId) -> Option<u64> {
        match self.length_there(object) {
            Some(length) => Some(u64::from(length)),
            // A class object has none.
            None if self.is_there(object) => Some(0),
            None => None,
        }
    }
}

/// A part of a string or an array.
#[derive(Clone, Copy)]
pub(crate) struct Part {
    /// The reference that names the string or the array.
    pub whole: Ref,
    pub start: u32,
    pub count: u64,
}

/// As many as the number says, where it isn't negative.
fn so_many(number: i32) -> Option<u32>
    ensures { result ≡ spec.so_many number }
{
    if number < 0 {
        return None;
    }
    Some(natural(number))
}

/// How many items the part has, by the operand behind its start.
fn count_by(argument: Argument) -> Option<u64>
    ensures { result ≡ spec.count_by argument }
{
    match argument {
        Argument::Number(count) => match so_many(count) {
            None => None,
            Some(count) => Some(u64::from(count)),
        },
        Argument::List { count, .. } => Some(count),
        Argument::Reference(Ref::Null) => Some(1),
        _ => None,
    }
}

fn part_by(whole: Ref, start: Option<u32>, count: Option<u64>) -> Option<Part>
    ensures { result ≡ spec.part_by whole start count }
{
    let start = start?;
    let count = count?;
    Some(Part {
        whole,
        start,
        count,
    })
}

/// The part that a call with these operands reads or writes, where they say one.
fn part_of(arguments: &[Argument]) -> Option<Part>
    ensures { result ≡ spec.part_of arguments.now }
{
    match arguments {
        [Argument::Reference(whole), Argument::Number(start)] => {
            part_by(*whole, so_many(*start), Some(1))
        }
        [Argument::Reference(whole), Argument::Number(start), last] => {
            part_by(*whole, so_many(*start), count_by(*last))
        }
        _ => None,
    }
}

/// How long what the reference names for the thread is, where it names something that is there.
fn length_named<A: Allocator + Clone, S: Lengths>(
    view: &View<'_, A, S>,
    tid: Tid,
    reference: Ref,
) -> Option<u64>
    ensures { (p : Parts) → ViewTells S.Store.Tells view.now p
        → result ≡ spec.length_named view.now.setup.now p tid.0 reference }
{
    match object_named(view, tid, reference) {
        None => None,
        Some(object) => view.heap.length_here(object),
    }
}

fn is_up_to(part: Part, length: Option<u64>) -> bool
    ensures { result ≡ spec.is_up_to (part.start + part.count) length }
{
    let Some(length) = length else {
        return false;
    };
    match u64::from(part.start).checked_add(part.count) {
        None => false,
        Some(end) => end <= length,
    }
}

/// Whether the part lies within what is known of it.
fn is_within<A: Allocator + Clone, S: Lengths>(
    view: &View<'_, A, S>,
    tid: Tid,
    part: Option<Part>,
) -> bool
    ensures { (p : Parts) → ViewTells S.Store.Tells view.now p
        → result ≡ spec.is_within view.now.setup.now p tid.0 part }
{
    match part {
        None => false,
        Some(part) => is_up_to(part, length_named(view, tid, part.whole)),
    }
}

/// Whether the call may have thrown, and its answer doesn't tell. `view` is of the tables as it was judged by.
pub(crate) fn may_throw<A: Allocator + Clone, S: Lengths>(
    view: &View<'_, A, S>,
    tid: Tid,
    row: &Row,
    arguments: &[Argument],
) -> bool
    ensures { (p : Parts) → ViewTells S.Store.Tells view.now p
        → result ≡ spec.may_throw view.now.setup.now p tid.0 (Some (columns row.now)) arguments.now }
{
    throws_untold(row) && !is_within(view, tid, part_of(arguments))
}
