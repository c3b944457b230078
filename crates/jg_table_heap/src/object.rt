//! What a slot holds, and as what an object is made.

use jg_words::{ObjId, Primitive};
use std::alloc::{Allocator, Global};

/// What a field or an array's item holds: a number, or `null` or an object.
#[derive(Clone, Copy, Debug, PartialEq, Eq)]
pub enum Slot {
    Number(i64),
    Object(Option<ObjId>),
}

/// As what an object is made.
#[derive(Drop)]
pub enum Shape<A: Allocator = Global> {
    /// An object of a class that is neither the strings' nor an array's, with its fields.
    Plain { class: u32, fields: Vec<Slot, A> },
    /// A string of these UTF-16 units.
    Text(Vec<u16, A>),
    /// An array of a primitive type with `length` zeros.
    Numbers { element: Primitive, length: u32 },
    /// An array of `length` references, each of them `first`.
    Objects { length: u32, first: Option<ObjId> },
}
