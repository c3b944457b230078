//! The guard that many threads share.

ghost use Rattle.std.specs.Prelude.{◌≡◌, ◌<◌, ◌≤◌, ◌+◌, ◌⊎◌, map, vec_len, IfOk, IfErr, OnOk, OnErr};
ghost use Rattle.jg_shell.specs.Receipts.{IsReceiptOf};
ghost use Rattle.jg_shell.specs.Work.{fresh, AreApart};

use crate::held::Held;
use crate::receipt::Receipt;
use crate::worker::Worker;
use jg_guard::{Guard, Refusal};
use jg_policy::Setup;
use jg_script::{Lines, Scripts};
use jg_words::{Call, EnvId, Tid};
use std::alloc::{AllocError, Global};
use std::sync::ledger::{Blank, Ledger, Share};
use std::sync::{Mutex, Wait};

/// A guard that any thread may call, one call at a time. It has one ledger, `L`, of which each
/// caller has a share.
#[derive(Drop)]
pub struct SharedGuard<L: Ledger> {
    pub(crate) held: Mutex<Held<L>>,
}

impl<L: Ledger> SharedGuard<L> {
    /// A guard with an empty journal of at most `limit` entries, and a worker for each thread of the
    /// scripts, threads ascending, with that thread's lines and no receipts. Each worker has one
    /// part of the ledger that `blank` becomes. Fails only for want of memory, and then drops what
    /// it was handed. What lies under a lock no contract shows: that the journal is empty there, and
    /// the setup and the limit are those handed in, is tested.
    pub fn new(
        alloc: Global,
        setup: Setup,
        limit: u32,
        scripts: Scripts,
        blank: Blank,
    ) -> Result<(SharedGuard<L>, Vec<Worker<L>>), AllocError>
        requires name { blank.name ≡ L.name }
        requires parts { blank.parts ≡ L.parts }
        requires enough { 64 ≤ blank.parts }
        ensures workers { IfOk result (λ made. made.1.items ≡ map fresh scripts) }
        ensures apart { IfOk result (λ made. AreApart made.1.items) }
    {
        let (calls, whole) = blank.open::<L>();
        let threads = scripts.into_lines();
        let workers = hire(alloc, threads, whole)?;
        let guard = Guard::new(alloc, alloc, setup, limit)?;
        let held = Mutex::new(Held::new(guard, calls));
        Ok((SharedGuard { held }, workers))
    }

    /// Copies the call for the receipt, waits for the lock, and makes the call under it as
    /// `Held::call` does; the caller's share counts one more. Under the lock the call is judged,
    /// done and journaled, and nothing else. A refusal hands the call back: the journal is full, or
    /// memory ran out. Nothing is promised of the guard, which other threads may have called.
    pub fn call<R: Wait>(
        &self,
        rt: &R,
        share: &mut Share<L>,
        tid: Tid,
        env: Option<EnvId>,
        call: Call,
    ) -> Result<Receipt, Refusal>
        requires { 0 < share.old.parts }
        ensures receipt { IfOk result (IsReceiptOf tid env call) }
        ensures counted { OnOk result (share.new.amount ≡ share.old.amount + 1) }
        ensures parts { share.new.parts ≡ share.old.parts }
        ensures uncounted { OnErr result (share.new.amount ≡ share.old.amount) }
        ensures back { IfErr result (λ refusal. (refusal ≡ Refusal.Limit call) ⊎ (refusal ≡ Refusal.NoMemory call)) }
    {
        match call.try_copy() {
            Ok(copy) => self.held.lock(rt).take(share, tid, env, call, copy),
            Err(_) => Err(Refusal::NoMemory(call)),
        }
    }

    // The guard, once no thread calls it any more.
    pub(crate) fn into_guard(self) -> Guard {
        let SharedGuard { held } = self;
        held.into_inner().into_guard()
    }
}

// A worker for each thread, with one part of the share.
fn hire<L: Ledger>(
    alloc: Global,
    threads: Vec<Lines>,
    mut rest: Share<L>,
) -> Result<Vec<Worker<L>>, AllocError>
    requires parts { vec_len threads ≤ rest.parts }
    requires amount { rest.amount ≡ 0 }
    ensures { IfOk result (λ workers. workers.items ≡ map fresh threads.items) }
{
    let mut workers = Vec::with_capacity(alloc, threads.len())?;
    for lines in threads {
        let share = rest.split_off(1, 0);
        workers.push(Worker::new(alloc, lines, share))?;
    }
    Ok(workers)
}
