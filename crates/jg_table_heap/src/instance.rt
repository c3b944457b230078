//! What is kept of an object with fields, and of a string.

ghost use Rattle.std.specs.Prelude.{◌≤◌, ◌<◌, ◌^◌, length};

use crate::object::Slot;
use std::alloc::Allocator;

/// An object with fields, of a class whose objects have them.
#[derive(Drop)]
pub(crate) struct Instance<A: Allocator> {
    pub(crate) class: u32,
    pub(crate) slots: Vec<Slot, A>,
    ghost plain: { 2 ≤ class → 10 ≤ class },
}

/// A string's units.
#[derive(Drop)]
pub(crate) struct Text<A: Allocator> {
    pub(crate) units: Vec<u16, A>,
    ghost short: { length units.items < 2 ^ 61 },
}
