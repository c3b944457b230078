//! How much there was at most at once.

ghost use Rattle.std.specs.Prelude.{◌≡◌, List};
ghost use Rattle.jg_words.specs.Entry.{Entry as Entries};
ghost use Rattle.jg_policy.specs.Stated.{StatedSetup};
ghost use Rattle.jg_rules.specs.Effects.{parts};
ghost use Rattle.jg_rules.specs.Parts.{TablesStand};
ghost use Rattle.jg_guard.specs.Peaks.{IsNow, raised as raised_by};
ghost use Rattle.jg_guard.specs.Tables.{rows_of};

use crate::tables::Tables;
use std::alloc::Allocator;

/// The most that there was at once after any entry of a journal, and before the first.
#[derive(Clone, Copy)]
pub struct Peaks {
    /// Live local references, and global and weak ones in being, of all threads.
    pub references: u128,
    /// Objects in being, but for class objects.
    pub objects: u64,
    /// Open buffers.
    pub buffers: u128,
}

/// How much there is now.
pub(crate) fn counted<A: Allocator + Clone>(tables: &Tables<A>) -> Peaks
    ensures { (s : StatedSetup) (h : List Entries) → TablesStand s (rows_of tables.now) (parts s h)
        → IsNow s h result }
{
    Peaks {
        references: tables.locals.len() + tables.globals.len(),
        objects: tables.heap.in_being(),
        buffers: tables.buffers.len(),
    }
}

/// The greater of each.
pub(crate) fn raised(peaks: Peaks, now: Peaks) -> Peaks
    ensures { result ≡ raised_by peaks now }
{
    Peaks {
        references: peaks.references.max(now.references),
        objects: peaks.objects.max(now.objects),
        buffers: peaks.buffers.max(now.buffers),
    }
}
