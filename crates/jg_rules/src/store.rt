//! What judging asks of a store of objects.

ghost use Rattle.std.specs.Prelude.{◌≡◌, ℕ, List};
ghost use Rattle.jg_table_heap.specs.History.{Event, class_there};
ghost use Rattle.jg_rules.specs.Parts.{HeapTells};

use jg_table_buffers::Items;
use jg_table_heap::Heap;
use jg_words::{CLASS_CLASS, ObjId};
use std::alloc::Allocator;

/// A store of objects. Judging reads their classes, and nothing else of what they are.
pub trait Store {
    /// What the buffers beside it keep of a copy's items.
    type Items: Items;

    /// It stands for these events, beside so many class objects.
    ghost Tells: { Self → ℕ → List Event → Type 0 };

    /// The class of an object that is there; 1, which is java/lang/Class, of any other.
    fn class_there(&self, object: ObjId) -> u32
        ensures { (k : ℕ) (e : List Event) → Tells self.now k e → result ≡ class_there k e object.0 };
}

impl<A: Allocator> Store for Heap<A> {
    type Items = Vec<i64, A>;

    ghost Tells = { λ heap k e. HeapTells heap k e };

    fn class_there(&self, object: ObjId) -> u32 {
        if object.0 < self.len() && !self.is_gone(object) {
            self.class_of(object)
        } else {
            CLASS_CLASS
        }
    }
}
