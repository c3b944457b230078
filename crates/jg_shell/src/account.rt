//! What one thread was told, line by line.

ghost use Rattle.std.specs.Prelude.{◌≡◌, ◌<◌, ◌≤◌, ◌+◌, [], All, IfOk, OnOk, OnErr};
ghost use Rattle.jg_shell.specs.Busy.{is_busy, is_monitor_enter};
ghost use Rattle.jg_shell.specs.Stopping.{stop_for};
ghost use Rattle.jg_shell.specs.Played.{AddsReceipt, AddsGroup, AddsPart};
ghost use Rattle.jg_shell.specs.Receipts.{IsReceiptOf};

use crate::gate::Gate;
use crate::receipt::Receipt;
use crate::shared::SharedGuard;
use jg_guard::Refusal;
use jg_script::Line;
use jg_words::{Call, MonitorsCall, Outcome, Reply, Tid, Value};
use std::alloc::Global;
use std::marker::Model;
use std::sync::Wait;
use std::sync::ledger::{Ledger, Share};
use thiserror::Error;

/// Why a worker stopped before the end of its lines.
#[derive(Clone, Copy, Debug, PartialEq, Eq, Error)]
pub enum Stop {
    /// The journal has as many entries as it may have.
    #[error("limit")]
    Limit,
    /// Memory ran out.
    #[error("no memory")]
    NoMemory,
}

/// A thread's receipts, the oldest first, beside its share of the count of calls. Its type keeps
/// that the share is the number of the receipts, and that each of them is the thread's.
#[derive(Drop)]
pub(crate) struct Account<L: Ledger> {
    tid: Tid,
    receipts: Vec<Receipt>,
    share: Share<L>,
}

impl<L: Ledger> Model for Account<L> {
    ghost use Rattle.std.specs.Prelude.{◌≡◌, ◌<◌, length, All};
    ghost use Rattle.jg_shell.specs.Work.{OwnReceipts};

    ghost Value = { OwnReceipts };

    ghost view = { λ a. record { tid = a.tid; receipts = a.receipts.items } };

    ghost invariant = { λ a. (a.share.amount ≡ length a.receipts.items) × (0 < a.share.parts)
        × All (λ r. r.tid ≡ a.tid) a.receipts.items };
}

impl<L: Ledger> Account<L> {
    pub(crate) fn new(alloc: Global, tid: Tid, share: Share<L>) -> Account<L>
        requires parts { 0 < share.parts }
        requires amount { share.amount ≡ 0 }
        ensures { result ≡ record { tid = tid; receipts = [] } }
    {
        Account {
            tid,
            receipts: Vec::new(alloc),
            share,
        }
    }

    // Plays one line: makes its call, and again while it is a MonitorEnter that was busy, at most
    // `turns` times in all. Lines count from 1.
    pub(crate) fn play_line<R: Wait, G: Gate>(
        &mut self,
        rt: &R,
        shared: &SharedGuard<L>,
        gate: &G,
        number: usize,
        turns: u32,
        line: &Line,
    ) -> Result<(), Stop>
        requires { 1 ≤ turns }
        ensures ok { OnOk result (AddsGroup turns line.now self.old self.new) }
        ensures err { OnErr result (AddsPart turns line.now self.old self.new) }
    {
        let may_retry = is_monitor_enter(&line.call);
        let mut turn: u32 = 1;
        loop {
            let busy = self.make(rt, shared, gate, number, turn, line)?;
            if !may_retry || !busy || turn == turns {
                return Ok(());
            }
            turn += 1;
        }
    }

    // Makes a line's call once, and says whether it was busy. Room for the receipt is made before.
    fn make<R: Wait, G: Gate>(
        &mut self,
        rt: &R,
        shared: &SharedGuard<L>,
        gate: &G,
        number: usize,
        turn: u32,
        line: &Line,
    ) -> Result<bool, Stop>
        ensures ok { IfOk result (AddsReceipt line.now self.old self.new) }
        ensures err { OnErr result (self.new ≡ self.old) }
    {
        gate.before(self.tid, number, turn);
        if self.receipts.reserve(1).is_err() {
            return Err(Stop::NoMemory);
        }
        let receipt = receipt_of(rt, shared, &mut self.share, self.tid, line)?;
        gate.after(&receipt);
        let busy = is_busy(&receipt.outcome);
        self.receipts.push_reserved(receipt);
        Ok(busy)
    }

    pub(crate) fn receipts(&self) -> &[Receipt]
        ensures receipts { result.now ≡ self.now.receipts }
        ensures own { All (λ r. r.tid ≡ self.now.tid) self.now.receipts }
    {
        self.receipts.as_slice()
    }

    pub(crate) fn tid(&self) -> Tid
        ensures { result ≡ self.now.tid }
    {
        self.tid
    }
}

/// Makes a line's call, which the thread's share then counts.
fn receipt_of<L: Ledger, R: Wait>(
    rt: &R,
    shared: &SharedGuard<L>,
    share: &mut Share<L>,
    tid: Tid,
    line: &Line,
) -> Result<Receipt, Stop>
    requires { 0 < share.old.parts }
    ensures receipt { IfOk result (IsReceiptOf tid line.now.env line.now.call) }
    ensures counted { OnOk result (share.new.amount ≡ share.old.amount + 1) }
    ensures parts { share.new.parts ≡ share.old.parts }
    ensures uncounted { OnErr result (share.new.amount ≡ share.old.amount) }
{
    let Ok(call) = line.call.try_copy() else {
        return Err(Stop::NoMemory);
    };
    match shared.call(rt, share, tid, line.env, call) {
        Ok(receipt) => Ok(receipt),
        Err(refusal) => Err(stop_of(refusal)),
    }
}

/// Why a thread stops whose call was refused.
fn stop_of(refusal: Refusal) -> Stop
    ensures { result ≡ stop_for refusal }
{
    match refusal {
        Refusal::Limit(_) => Stop::Limit,
        Refusal::NoMemory(_) => Stop::NoMemory,
    }
}

fn is_monitor_enter(call: &Call) -> bool
    ensures { result ≡ is_monitor_enter call.now }
{
    matches!(call, Call::Monitors(MonitorsCall::MonitorEnter { .. }))
}

fn is_busy(outcome: &Outcome) -> bool
    ensures { result ≡ is_busy outcome.now }
{
    matches!(
        outcome,
        Outcome::Passed(Reply {
            value: Value::Busy,
            ..
        })
    )
}
