//! Workers.

ghost use Rattle.std.specs.Prelude.{◌≡◌, ◌<◌, ◌≤◌, All};
ghost use Rattle.jg_shell.specs.Work.{fresh};
ghost use Rattle.jg_shell.specs.Played.{Ran};

use crate::account::{Account, Stop};
use crate::gate::Gate;
use crate::receipt::Receipt;
use crate::shared::SharedGuard;
use jg_script::{Line, Lines};
use jg_words::Tid;
use std::alloc::Global;
use std::marker::Model;
use std::sync::Wait;
use std::sync::ledger::{Ledger, Share};

/// One thread of a script: its lines, the receipts of its calls and its share of the count of
/// calls, which is the number of its receipts. Contracts see the thread, the lines, the receipts,
/// the oldest first, and why it stopped.
#[derive(Drop)]
pub struct Worker<L: Ledger> {
    account: Account<L>,
    lines: Vec<Line>,
    stopped: Option<Stop>,
}

impl<L: Ledger> Model for Worker<L> {
    ghost use Rattle.jg_shell.specs.Work.{Work};

    ghost Value = { Work };

    ghost view = { λ w. record {
      tid = w.account.tid;
      lines = w.lines.items;
      receipts = w.account.receipts;
      stopped = w.stopped;
    } };
}

impl<L: Ledger> Worker<L> {
    // A worker that has not run yet. Its share counts nothing.
    pub(crate) fn new(alloc: Global, script: Lines, share: Share<L>) -> Worker<L>
        requires parts { 0 < share.parts }
        requires amount { share.amount ≡ 0 }
        ensures { result ≡ fresh script }
    {
        let Lines { tid, calls } = script;
        Worker {
            account: Account::new(alloc, tid, share),
            lines: calls,
            stopped: None,
        }
    }

    /// Makes the calls of the lines in their order, and keeps their receipts. A MonitorEnter that
    /// answers `busy` is made again, at most `turns` times in all; then the worker goes on with the
    /// next line. A refusal ends the run, and `stopped` says which it was. May wait, for the lock
    /// and at the gate.
    pub fn run<R: Wait, G: Gate>(&mut self, rt: &R, shared: &SharedGuard<L>, turns: u32, gate: &G)
        requires { 1 ≤ turns }
        ensures { Ran turns self.old self.new }
    {
        let Worker {
            account,
            lines,
            stopped,
        } = self;
        *stopped = None;
        for (index, line) in lines.iter().enumerate() {
            if let Err(stop) = account.play_line(rt, shared, gate, index + 1, turns, line) {
                *stopped = Some(stop);
                return;
            }
        }
    }

    /// The thread whose lines these are.
    pub fn tid(&self) -> Tid
        ensures { result ≡ self.now.tid }
    {
        self.account.tid()
    }

    /// The lines, in the order of the script.
    pub fn lines(&self) -> &[Line]
        ensures { result.now ≡ self.now.lines }
    {
        self.lines.as_slice()
    }

    /// The receipts of the calls that were journaled, the oldest first. Each is of this thread.
    pub fn receipts(&self) -> &[Receipt]
        ensures receipts { result.now ≡ self.now.receipts }
        ensures own { All (λ r. r.tid ≡ self.now.tid) self.now.receipts }
    {
        self.account.receipts()
    }

    /// Why the last run stopped before the end of the lines; None where it did not, or there was
    /// none.
    pub fn stopped(&self) -> Option<Stop>
        ensures { result ≡ self.now.stopped }
    {
        self.stopped
    }
}
