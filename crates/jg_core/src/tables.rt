//! The tables of a core.

use jg_policy::{Links, Setup};
use jg_rules::View;
use jg_table_buffers::{Buffers, Unseen};
use jg_table_globals::Globals;
use jg_table_locals::Locals;
use jg_table_monitors::Monitors;
use jg_table_objects::Objects;
use jg_table_threads::Threads;
use std::alloc::Allocator;

/// What is so by the facts that were told.
#[derive(Drop)]
pub(crate) struct Tables<A: Allocator> {
    pub(crate) alloc: A,
    pub(crate) threads: Threads<A>,
    pub(crate) locals: Locals<A>,
    pub(crate) globals: Globals<A>,
    pub(crate) buffers: Buffers<A, Unseen>,
    pub(crate) monitors: Monitors<A>,
    pub(crate) objects: Objects<A>,
    pub(crate) links: Links<A>,
}

impl<A: Allocator> Tables<A> {
    ghost use Rattle.std.specs.Prelude.{◌≡◌};
    ghost use Rattle.jg_rules.specs.View.{rows_in};
    ghost use Rattle.jg_core.specs.Tables.{rows_of};

    /// The tables, lent to judge by.
    pub(crate) fn view<'a>(&'a self, setup: &'a Setup) -> View<'a, A, Objects<A>>
        ensures setup { result.setup.now ≡ setup.now }
        ensures rows { rows_in result ≡ rows_of self.now }
    {
        View {
            setup,
            threads: &self.threads,
            locals: &self.locals,
            globals: &self.globals,
            buffers: &self.buffers,
            monitors: &self.monitors,
            heap: &self.objects,
            links: &self.links,
        }
    }
}
