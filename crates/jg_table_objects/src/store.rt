//! What judging asks of a store, answered by the objects that are there.

ghost use Rattle.std.specs.Prelude.{◌≡◌};
ghost use Rattle.jg_table_heap.specs.History.{class_there};
ghost use Rattle.jg_table_objects.specs.Standing.{Tells};

use crate::objects::Objects;
use jg_rules::Store;
use jg_table_buffers::Unseen;
use jg_words::ObjId;
use std::alloc::Allocator;

impl<A: Allocator> Store for Objects<A> {
    type Items = Unseen;

    ghost Tells = { λ rows k e. Tells rows k e };

    fn class_there(&self, object: ObjId) -> u32 {
        Objects::class_there(self, object)
    }
}
