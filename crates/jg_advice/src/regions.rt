//! Critical regions, and how long they are.

ghost use Rattle.std.specs.Prelude.{◌≡◌, ℕ, OnOk, Some};
ghost use Rattle.jg_lists.specs.ByThread.{at};
ghost use Rattle.jg_rules.specs.Parts.{Parts};
ghost use Rattle.jg_advice.specs.Doing.{cause_by};
ghost use Rattle.jg_advice.specs.Regions as spec;
ghost use Rattle.jg_advice.specs.Standing.{kept, Sees};

use crate::advice::Source;
use crate::doing::{Doings, cause};
use jg_lists::ByThread;
use jg_rules::{Store, View};
use jg_words::Tid;
use std::alloc::{AllocError, Allocator, Global};

/// How many calls any threads made, and how often it was told that the collector ran.
#[derive(Clone, Copy)]
pub struct Counts {
    pub calls: u64,
    pub collections: u64,
}

/// A critical region: the call that it began with, and how many calls any threads had made before it, and how often
/// it had been told that the collector ran.
#[derive(Clone, Copy)]
pub struct Region {
    pub source: Source,
    pub calls: u64,
    pub collections: u64,
}

/// By the thread that is in it.
pub type Regions = ByThread<Region, Global>;

/// The thread's critical region begins or ends, if it does: the thread was lent a buffer, gave one back, or its session
/// ended. `view` is of the tables with that.
pub fn note_region<A: Allocator + Clone, S: Store>(
    regions: &mut Regions,
    doings: &Doings,
    view: &View<'_, A, S>,
    line: u64,
    counts: Counts,
    tid: Tid,
) -> Result<(), AllocError>
    ensures { OnOk result ((p : Parts) → Sees view.now p → (t : ℕ) → at t regions.new
        ≡ spec.region_by t p (λ u. record {
          source = cause_by (kept doings.now) p line u;
          calls = counts.calls;
          collections = counts.collections;
        }) (Some tid) (at t regions.old)) }
{
    if !view.buffers.in_critical(tid) {
        let _ended = regions.remove(tid.0);
        return Ok(());
    }
    if regions.contains(tid.0) {
        return Ok(());
    }
    let begun = Region {
        source: cause(doings, view, line, tid),
        calls: counts.calls,
        collections: counts.collections,
    };
    regions.add(tid.0, begun)
}
