//! What the table keeps of the items of a copy: all of them, or how many there are.

ghost use Rattle.std.specs.Prelude.{◌≡◌, ℤ, pos, List, length, replicate};
ghost use Rattle.jg_table_buffers.specs.Seen.{listed};

use std::alloc::Allocator;

/// What [`Buffers`](crate::Buffers) keeps of the items of an open copy.
pub trait Items: Drop {
    /// The items, as contracts see them.
    ghost items_of: { Self → List ℤ };

    /// How many items there are.
    fn count(&self) -> u64
        ensures { result ≡ length (items_of self.now) };
}

impl<A: Allocator> Items for Vec<i64, A> {
    ghost items_of = { listed };

    fn count(&self) -> u64 {
        self.len() as u64
    }
}

/// How many items there are, and no more. They stand elsewhere, so here they count as zeros, and
/// nobody reads them.
#[derive(Drop)]
pub struct Unseen {
    pub(crate) count: u64,
}

impl Items for Unseen {
    ghost items_of = { λ unseen. replicate unseen.count (pos 0) };

    fn count(&self) -> u64 {
        self.count
    }
}
