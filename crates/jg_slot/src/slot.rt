//! A box, or nothing, as one pointer.

ghost use Rattle.std.specs.Prelude.{◌≡◌, Option, Some, None};
ghost use Rattle.std.specs.Option.{MatchOption};

mod lends;

use crate::parts::Parts;
use std::alloc::Global;
use std::marker::Model;
use std::ptr::null_mut;

/// Null, or a pointer that owns a box.
pub struct Slot<T> {
    pub(super) at: *mut T,
    pub ghost value: { Option T },
}

impl<T> Model for Slot<T> {
    ghost use Rattle.jg_slot.specs.Held.{held};

    ghost also_owns = { λ h. held T.row h.at h.value };
}

impl<T> Slot<T> {
    /// A slot that holds nothing.
    pub(crate) fn empty() -> Slot<T>
        ensures { result.value ≡ None }
    {
        Slot { at: null_mut() }
    }

    /// A slot that holds what the parts own.
    fn of_parts(parts: Parts<T, Global>) -> Slot<T>
        ensures { result.value ≡ Some parts.value }
    {
        let Parts { ptr, alloc: _ } = parts;
        Slot { at: ptr }
    }

    /// The parts of the box that it owns, if it owns one.
    fn into_parts(self, alloc: Global) -> Option<Parts<T, Global>>
        ensures { MatchOption result (self.value ≡ None) (λ p. self.value ≡ Some p.value) }
    {
        let Slot { at } = self;
        if at.is_null() {
            None
        } else {
            Some(Parts { ptr: at, alloc })
        }
    }

    /// A slot that holds the box.
    pub(crate) fn of(value: Box<T>) -> Slot<T>
    where
        T: Drop,
        ensures { result.value ≡ Some value.value }
    {
        Slot::of_parts(Parts::of(value))
    }

    /// The box that it owns, if it owns one.
    pub(crate) fn into_box(self, alloc: Global) -> Option<Box<T>>
        ensures { MatchOption result (self.value ≡ None) (λ b. self.value ≡ Some b.value) }
    {
        match self.into_parts(alloc) {
            Some(parts) => Some(parts.into_box()),
            None => None,
        }
    }
}

impl<T: Drop> Slot<T> {
    /// Takes out what it holds.
    pub fn take(&mut self, alloc: Global) -> Option<Box<T>>
        ensures value { MatchOption result (self.old.value ≡ None) (λ b. self.old.value ≡ Some b.value) }
        ensures after { self.new.value ≡ None }
    {
        std::mem::replace(self, Slot::empty()).into_box(alloc)
    }

    /// Holds the box from now on, and lets go of what it held.
    pub fn put(&mut self, alloc: Global, value: Box<T>)
        ensures { self.new.value ≡ Some value.value }
    {
        let _before = std::mem::replace(self, Slot::of(value)).into_box(alloc);
    }
}
