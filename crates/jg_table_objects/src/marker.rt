//! A table of objects while others mark in it, which still tells the same of them.

ghost use Rattle.std.specs.Prelude.{◌≡◌, []};
ghost use Rattle.std.proofs.Props.{props};
ghost use Rattle.jg_table_objects.specs.Rows.{Rows, IsButMarks, mark_in};

use crate::objects::Objects;
use jg_lists::Marking;
use std::alloc::Allocator;
use std::marker::{Brand, PhantomData};

/// What a store told when its marking began. Who lets others mark in it picks this for `Brand`.
pub trait Before {
    ghost before: { Rows };
}

impl Before for Brand {
    ghost before = { record { classes = 0; count = 0; there = [] } };
}

/// A store while others mark objects in it. They know of it only that it is [`Marking`], so their contracts can't say
/// what else it tells afterwards. This type says it: whatever is marked, the store tells of the same objects as before.
#[derive(Drop)]
pub struct Marker<B: Before, A: Allocator> {
    pub objects: Objects<A>,
    before: PhantomData<B>,
    ghost same: { IsButMarks B.before objects } by { Prim.hlevel props },
}

impl<B: Before, A: Allocator> Marker<B, A> {
    /// The store, for others to mark in it.
    pub fn new(objects: Objects<A>) -> Marker<B, A>
        requires { IsButMarks B.before objects }
        ensures { result.objects ≡ objects }
    {
        Marker {
            objects,
            before: PhantomData,
        }
    }

    /// The store again.
    pub fn into_objects(self) -> Objects<A>
        ensures objects { result ≡ self.objects }
        ensures same { IsButMarks B.before result }
    {
        self.objects
    }
}

impl<B: Before, A: Allocator> Marking for Marker<B, A> {
    ghost mark_of = { λ marker. mark_in marker.objects };

    fn set(&mut self, object: u64) {
        self.objects.set(object);
    }

    fn set_all(&mut self, objects: &[u64]) {
        self.objects.set_all(objects);
    }
}
