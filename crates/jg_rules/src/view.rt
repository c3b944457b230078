//! The setup and the tables, as the judge reads them.

use crate::store::Store;
use jg_policy::{Links, Setup};
use jg_table_buffers::Buffers;
use jg_table_globals::Globals;
use jg_table_heap::Heap;
use jg_table_locals::Locals;
use jg_table_monitors::Monitors;
use jg_table_threads::Threads;
use std::alloc::{Allocator, Global};

/// The setup and the tables, lent to judge by. The store of objects is the guard's, or any other that tells
/// their classes.
#[derive(Drop)]
pub struct View<'a, A: Allocator = Global, S: Store = Heap<A>> {
    pub setup: &'a Setup,
    pub threads: &'a Threads<A>,
    pub locals: &'a Locals<A>,
    pub globals: &'a Globals<A>,
    pub buffers: &'a Buffers<A, S::Items>,
    pub monitors: &'a Monitors<A>,
    pub heap: &'a S,
    pub links: &'a Links<A>,
}
