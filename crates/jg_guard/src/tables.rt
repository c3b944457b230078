//! The state of the machine, as the guard keeps it.

use jg_policy::{Links, Setup};
use jg_rules::View;
use jg_table_buffers::Buffers;
use jg_table_globals::Globals;
use jg_table_heap::Heap;
use jg_table_locals::Locals;
use jg_table_monitors::Monitors;
use jg_table_threads::Threads;
use std::alloc::{Allocator, Global};

/// The state of the machine, a handle to the memory that it takes, and one to the memory that
/// list answers take.
#[derive(Drop)]
pub(crate) struct Tables<A: Allocator> {
    pub(crate) alloc: A,
    pub(crate) lists: Global,
    pub(crate) threads: Threads<A>,
    pub(crate) locals: Locals<A>,
    pub(crate) globals: Globals<A>,
    pub(crate) buffers: Buffers<A>,
    pub(crate) monitors: Monitors<A>,
    pub(crate) heap: Heap<A>,
    pub(crate) links: Links<A>,
}

impl<A: Allocator> Tables<A> {
    ghost use Rattle.std.specs.Prelude.{◌≡◌};
    ghost use Rattle.jg_rules.specs.View.{rows_in};
    ghost use Rattle.jg_guard.specs.Tables.{rows_of};

    /// The tables, lent to judge and to answer by.
    pub(crate) fn view<'a>(&'a self, setup: &'a Setup) -> View<'a, A>
        ensures setup { result.setup.now ≡ setup.now }
        ensures rows { rows_in result ≡ rows_of self.now }
    {
        View {
            setup,
            threads: &self.threads,
            locals: &self.locals,
            globals: &self.globals,
            buffers: &self.buffers,
            monitors: &self.monitors,
            heap: &self.heap,
            links: &self.links,
        }
    }
}
