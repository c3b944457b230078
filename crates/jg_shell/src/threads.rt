//! Workers in threads of their own.

ghost use Rattle.std.specs.Prelude.{◌<◌, ◌≤◌, ℕ, length, slice_index_or};
ghost use Rattle.jg_shell.specs.Work.{Work};
ghost use Rattle.jg_shell.specs.Played.{Ran};

use crate::gate::Gate;
use crate::shared::SharedGuard;
use crate::worker::Worker;
use std::sync::Wait;
use std::sync::ledger::Ledger;
use std::thread;
use std::thread::Threads;

/// Runs each worker in a thread of its own, as `Worker::run` does, and returns when all have ended.
/// Where a thread cannot be made, its worker runs after another one. May wait, as the runs do.
pub fn play<L: Ledger + Send + Sync, R: Threads + Wait + Sync, G: Gate>(
    rt: &R,
    shared: &SharedGuard<L>,
    workers: &mut [Worker<L>],
    turns: u32,
    gate: &G,
)
    requires { 1 ≤ turns }
    ensures { (i : ℕ) (d : Work) → i < length workers.old
        → Ran turns (slice_index_or workers.old i d) (slice_index_or workers.new i d) }
{
    let threads = workers.len().max(1);
    thread::for_each_mut(
        rt,
        workers,
        threads,
        &|_, worker: &mut Worker<L>|
            requires { 1 ≤ turns }
            ensures { Ran turns worker.entry.now worker.exit.now }
        { worker.run(rt, shared, turns, gate) },
    );
}
