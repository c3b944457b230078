//! The end of a run: the receipts are compared with the journal.

ghost use Rattle.std.specs.Prelude.{◌≡◌, All, IfOk, IfErr, length, sum_by};
ghost use Rattle.jg_rules.specs.Legal.{Legal};
ghost use Rattle.jg_shell.specs.Work.{AreApart};
ghost use Rattle.jg_shell.specs.Settled.{IsOwnEntries, IsOfSome};
ghost use Rattle.jg_shell.specs.Difference.{handed_back, IsFirstDifference};

use crate::compare::first_difference;
use crate::shared::SharedGuard;
use crate::worker::Worker;
use jg_guard::Guard;
use jg_words::Tid;
use std::sync::ledger::Ledger;

/// A guard that no thread calls any more, and the workers that called it.
#[derive(Drop)]
pub struct Finished<L: Ledger> {
    pub guard: Guard,
    pub workers: Vec<Worker<L>>,
}

/// Why receipts and journal don't agree.
#[derive(Drop)]
pub enum FinishFault<L: Ledger> {
    /// Something was journaled that no worker was told, or a worker was told what wasn't journaled.
    Differs {
        /// The thread of the receipt or the entry that differs first.
        tid: Tid,
        /// Its place in the journal, the oldest entry at 0.
        place: usize,
        /// What was handed in, the guard out of its lock.
        back: Finished<L>,
    },
}

/// Compares the receipts of the workers with the journal. Where they agree, the journal is just
/// what the workers were told, each call once, in each worker's order. Else it names the first
/// difference: the first receipt, workers in their order, that isn't the entry at its place or isn't
/// after the one before, or, where all receipts are right, the first entry that is no worker's
/// receipt. Both answers hand back the guard and the workers. Takes no memory, and time by the
/// number of entries times the number of workers.
pub fn finish<L: Ledger>(
    shared: SharedGuard<L>,
    workers: Vec<Worker<L>>,
) -> Result<Finished<L>, FinishFault<L>>
    // The workers are of different threads.
    requires { AreApart workers.items }

    // In both answers.
    ensures workers { (handed_back result).workers.items ≡ workers.items }
    ensures legal { Legal (handed_back result).guard.setup (handed_back result).guard.journal }

    // The entries of each worker's thread are its receipts, each once, in order, at their places; and
    // there are no others.
    ensures told { IfOk result (λ f. All (IsOwnEntries f.guard.journal) workers.items) }
    ensures known { IfOk result (λ f. All (IsOfSome workers.items) f.guard.journal) }
    ensures count { IfOk result (λ f. length f.guard.journal ≡ sum_by (λ w. length w.receipts) workers.items) }

    ensures differs { IfErr result (IsFirstDifference workers.items) }
{
    let guard = shared.into_guard();
    let _entries = guard.journal_len();
    match first_difference(&guard, workers.as_slice()) {
        None => Ok(Finished { guard, workers }),
        Some((tid, place)) => Err(FinishFault::Differs {
            tid,
            place,
            back: Finished { guard, workers },
        }),
    }
}
