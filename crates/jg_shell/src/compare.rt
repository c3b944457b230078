//! Receipts against the journal.

ghost use Rattle.std.specs.Prelude.{◌≡◌, ◌↔◌, ◌<◌, ◌⊎◌, All, IsTrue, MatchOption, length};
ghost use Rattle.jg_shell.specs.Receipts.{told_of, told_by};
ghost use Rattle.jg_shell.specs.Finish.{IsRight, Stand, PlacesRise, IsFirstWrong, has_place, is_told, IsRightWorker, IsWrongReceipt, IsUntoldEntry, IsAllTold};

use crate::receipt::Receipt;
use crate::worker::Worker;
use jg_guard::Guard;
use jg_words::{Entry, Outcome, Reply, Tid, Value};
use std::sync::ledger::Ledger;

// The thread and the place at which the receipts of the workers and the journal differ first: the
// first receipt, workers in their order, that isn't the entry at its place or isn't after the one
// before, else the first entry that is no worker's receipt.
pub(crate) fn first_difference<L: Ledger>(
    guard: &Guard,
    workers: &[Worker<L>],
) -> Option<(Tid, usize)>
    ensures { MatchOption result (IsAllTold guard.now.journal workers.now)
        (λ found. IsWrongReceipt guard.now.journal workers.now found.0 found.1
        ⊎ IsUntoldEntry guard.now.journal workers.now found.0 found.1) }
{
    match first_wrong_receipt(guard, workers) {
        Some(found) => Some(found),
        None => first_untold_entry(guard, workers),
    }
}

fn first_wrong_receipt<L: Ledger>(guard: &Guard, workers: &[Worker<L>]) -> Option<(Tid, usize)>
    ensures { MatchOption result (All (IsRightWorker guard.now.journal) workers.now)
        (λ found. IsWrongReceipt guard.now.journal workers.now found.0 found.1) }
{
    for worker in workers {
        if let Some(place) = first_wrong(guard, worker.receipts()) {
            return Some((worker.tid(), place));
        }
    }
    None
}

// The place of the first receipt that isn't the entry at its place or isn't after the one before.
fn first_wrong(guard: &Guard, receipts: &[Receipt]) -> Option<usize>
    ensures { MatchOption result (Stand guard.now.journal 0 receipts.now)
        (IsFirstWrong guard.now.journal receipts.now) }
{
    let len = guard.journal_len();
    let mut low = 0;
    for receipt in receipts {
        if !is_right(guard, low, receipt) {
            return Some(receipt.place);
        }
        prove!(receipt.place < len);
        low = receipt.place + 1;
    }
    None
}

fn is_right(guard: &Guard, low: usize, receipt: &Receipt) -> bool
    ensures right { IsTrue result ↔ IsRight guard.now.journal low receipt.now }
    ensures within { IsTrue result → receipt.now.place < length guard.now.journal }
{
    match guard.journal_entry(receipt.place) {
        Some(entry) => low <= receipt.place && is_entry_of(entry, receipt),
        None => false,
    }
}

#[tactic(auto, using(crate::proofs::Equal::equal_words))]
fn is_entry_of(entry: &Entry, receipt: &Receipt) -> bool
    ensures { IsTrue result ↔ (told_of entry.now ≡ told_by receipt.now) }
{
    entry.tid() == receipt.tid
        && entry.env() == receipt.env
        && *entry.call() == receipt.call
        && ended_so(entry, &receipt.outcome)
}

// Whether the entry ended in the outcome.
pub(crate) fn ended_so(entry: &Entry, outcome: &Outcome) -> bool
    ensures { IsTrue result ↔ (entry.now.outcome ≡ outcome.now) }
{
    match outcome {
        Outcome::Passed(reply) => answered_so(entry, reply),
        Outcome::Denied(rule) => entry.rule() == Some(*rule),
    }
}

fn answered_so(entry: &Entry, reply: &Reply) -> bool
    ensures { IsTrue result ↔ (entry.now.outcome ≡ Outcome.Passed reply.now) }
{
    match entry.value() {
        None => false,
        Some(value) => is_reply(value, entry.warned(), entry.noticed(), reply),
    }
}

#[tactic(auto, using(crate::proofs::Equal::equal_words))]
fn is_reply(value: &Value, warned: bool, noticed: bool, reply: &Reply) -> bool
    ensures { IsTrue result ↔ (record { value = value.now; warned = warned; noticed = noticed } ≡ reply.now) }
{
    if warned != reply.warned {
        return false;
    }
    if noticed != reply.noticed {
        return false;
    }
    *value == reply.value
}

// Receipts that are all right stand in the order of their places, so each look-up is a binary
// search.
fn first_untold_entry<L: Ledger>(guard: &Guard, workers: &[Worker<L>]) -> Option<(Tid, usize)>
    requires { All (IsRightWorker guard.now.journal) workers.now }
    ensures { MatchOption result (IsAllTold guard.now.journal workers.now)
        (λ found. IsUntoldEntry guard.now.journal workers.now found.0 found.1) }
{
    for place in 0..guard.journal_len() {
        if let Some(entry) = guard.journal_entry(place) {
            let tid = entry.tid();
            if !is_told(workers, tid, place) {
                return Some((tid, place));
            }
        }
    }
    None
}

// Whether a worker of the thread has a receipt for the place.
fn is_told<L: Ledger>(workers: &[Worker<L>], tid: Tid, place: usize) -> bool
    requires { All (λ w. PlacesRise w.receipts) workers.now }
    ensures { result ≡ is_told workers.now tid place }
{
    for worker in workers {
        if worker.tid() == tid && has_place(worker.receipts(), place) {
            return true;
        }
    }
    false
}

fn has_place(receipts: &[Receipt], place: usize) -> bool
    requires { PlacesRise receipts.now }
    ensures { result ≡ has_place place receipts.now }
{
    receipts
        .binary_search_by_key(&place, |receipt| receipt.place)
        .is_ok()
}
