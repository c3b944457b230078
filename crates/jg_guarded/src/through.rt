//! A call on its way through the guard to the machine.

ghost use Rattle.std.specs.Prelude.{◌≡◌, ◌<◌, ◌⊎◌, ◌↔◌, List, ◌∷◌, length, None, Some, Err, IfOk, IfErr, OnOk, OnErr};
ghost use Rattle.jg_words.specs.Entry.{Entry};
ghost use Rattle.jg_words.specs.declared.rule.Rule.{Rule};
ghost use Rattle.jg_guard.specs.Guard.{Takes, Unchanged, next_entry};
ghost use Rattle.jg_guarded.specs.Passed.{judged, passed_in};

use crate::machine::Machine;
use jg_guard::{Guard, Refusal};
use jg_words::{Call, Entry, EnvId, Outcome, Tid};
use std::alloc::Allocator;

/// Asks the guard, and has the machine do the call where the guard let it through. `tid` is the
/// thread that makes the call, `env` the environment that it hands in. A denied call is journaled
/// and doesn't reach the machine. A refusal changes nothing, and the call comes back in it.
pub fn let_through<A: Allocator + Clone, M: Machine>(
    guard: &mut Guard<A>,
    machine: &mut M,
    tid: Tid,
    env: Option<EnvId>,
    call: Call,
) -> Result<Outcome, Refusal>
    ensures taken { IfOk result (λ outcome. Takes guard.old guard.new tid env call outcome) }
    ensures passed { judged guard.old tid env call ≡ None → OnOk result ((h : List Entry) → M.stands machine.old h
        → M.stands machine.new (next_entry guard.old tid env call ∷ h)) }
    ensures denied { (rule : Rule) → judged guard.old tid env call ≡ Some rule → machine.new ≡ machine.old }
    ensures in_step { M.stands machine.old (passed_in guard.old.journal)
        → M.stands machine.new (passed_in guard.new.journal) }
    ensures guard_kept { OnErr result (Unchanged guard.old guard.new) }
    ensures machine_kept { OnErr result (machine.new ≡ machine.old) }
    ensures back { IfErr result (λ refusal. (refusal ≡ Refusal.Limit call) ⊎ (refusal ≡ Refusal.NoMemory call)) }
    ensures limit { (result ≡ Err (Refusal.Limit call)) ↔ (length guard.old.journal ≡ guard.old.limit) }
{
    match guard.call(tid, env, call) {
        Ok(Outcome::Passed(reply)) => {
            machine.carry_out(guard.newest());
            Ok(Outcome::Passed(reply))
        }
        Ok(Outcome::Denied(rule)) => Ok(Outcome::Denied(rule)),
        Err(refusal) => Err(refusal),
    }
}
