//! What lies under the lock.

ghost use Rattle.std.specs.Prelude.{◌≡◌, ◌<◌, ◌+◌, ◌⊎◌, length, Some, Err, IsErr, IfOk, IfErr, OnOk, OnErr};
ghost use Rattle.jg_guard.specs.Guard.{Takes, Unchanged};
ghost use Rattle.jg_shell.specs.Receipts.{IsReceiptOf, told_at, told_by};

use crate::receipt::Receipt;
use jg_guard::{Guard, Refusal};
use jg_words::{Call, EnvId, Tid};
use std::marker::Model;
use std::sync::ledger::{Book, Ledger, Share};

/// What lies under the lock: a guard, and the book of its calls, whose total is the number of the
/// journal's entries. Contracts see the guard. The ledger `L` says which shares the book counts.
#[derive(Drop)]
pub struct Held<L: Ledger> {
    guard: Guard,
    calls: Book<L>,
}

impl<L: Ledger> Model for Held<L> {
    ghost use Rattle.std.specs.Prelude.{◌≡◌, length};
    ghost use Rattle.jg_guard.specs.Guard.{State};

    ghost Value = { State };

    ghost view = { λ h. h.guard };

    ghost invariant = { λ h. h.calls.total ≡ length h.guard.journal };
}

impl<L: Ledger> Held<L> {
    pub(crate) fn new(guard: Guard, calls: Book<L>) -> Held<L>
        requires { calls.total ≡ length guard.journal }
        ensures { result ≡ guard }
    {
        Held { guard, calls }
    }

    pub(crate) fn into_guard(self) -> Guard
        ensures { result ≡ self }
    {
        let Held { guard, calls: _ } = self;
        guard
    }

    /// Judges the call, does it if it breaks no rule, and journals it, as `Guard::call` does; the
    /// caller's share and the book each count one more. A refusal changes nothing and hands the
    /// call back: the journal is full, or memory ran out. Where both hold, either may come, since
    /// the call is copied for the receipt first.
    pub fn call(
        &mut self,
        share: &mut Share<L>,
        tid: Tid,
        env: Option<EnvId>,
        call: Call,
    ) -> Result<Receipt, Refusal>
        requires { 0 < share.old.parts }

        // The journal has one entry more, and the receipt is that entry, at its place.
        ensures taken { IfOk result (λ receipt. Takes self.old self.new tid env call receipt.outcome) }
        ensures place { IfOk result (λ receipt. receipt.place ≡ length self.old.journal) }
        ensures receipt { IfOk result (IsReceiptOf tid env call) }
        ensures entry { IfOk result (λ receipt. told_at self.new.journal receipt.place ≡ Some (told_by receipt)) }
        ensures counted { OnOk result (share.new.amount ≡ share.old.amount + 1) }
        ensures parts { share.new.parts ≡ share.old.parts }

        // A refusal changes nothing and hands the call back.
        ensures unchanged { OnErr result (Unchanged self.old self.new) }
        ensures uncounted { OnErr result (share.new.amount ≡ share.old.amount) }
        ensures back { IfErr result (λ refusal. (refusal ≡ Refusal.Limit call) ⊎ (refusal ≡ Refusal.NoMemory call)) }
        ensures limit { result ≡ Err (Refusal.Limit call) → length self.old.journal ≡ self.old.limit }
        ensures full { length self.old.journal ≡ self.old.limit → IsErr result }
    {
        match call.try_copy() {
            Ok(copy) => self.take(share, tid, env, call, copy),
            Err(_) => Err(Refusal::NoMemory(call)),
        }
    }

    // Judges, does, journals and counts the call. The copy is for the receipt.
    pub(crate) fn take(
        &mut self,
        share: &mut Share<L>,
        tid: Tid,
        env: Option<EnvId>,
        call: Call,
        copy: Call,
    ) -> Result<Receipt, Refusal>
        requires parts { 0 < share.old.parts }
        requires copy { copy ≡ call }
        ensures taken { IfOk result (λ told. Takes self.old self.new tid env call told.outcome) }
        ensures place { IfOk result (λ told. told.place ≡ length self.old.journal) }
        ensures receipt { IfOk result (IsReceiptOf tid env call) }
        ensures counted { OnOk result (share.new.amount ≡ share.old.amount + 1) }
        ensures parts { share.new.parts ≡ share.old.parts }
        ensures unchanged { OnErr result (Unchanged self.old self.new) }
        ensures uncounted { OnErr result (share.new.amount ≡ share.old.amount) }
        ensures back { IfErr result (λ refusal. (refusal ≡ Refusal.Limit call) ⊎ (refusal ≡ Refusal.NoMemory call)) }
        ensures limit { result ≡ Err (Refusal.Limit call) → length self.old.journal ≡ self.old.limit }
        ensures full { length self.old.journal ≡ self.old.limit → IsErr result }
    {
        let place = self.guard.journal_len();
        match self.guard.call(tid, env, call) {
            Ok(outcome) => {
                self.calls.add(share, 1);
                Ok(Receipt {
                    place,
                    tid,
                    env,
                    call: copy,
                    outcome,
                })
            }
            Err(refusal) => Err(refusal),
        }
    }
}
