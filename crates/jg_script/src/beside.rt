//! What stands beside a guard that takes the calls of a text.

ghost use Rattle.std.specs.Prelude.{◌≡◌, ◌≤◌, List, length, IfErr, OnOk};
ghost use Rattle.jg_guard.specs.Guard.{next_entry};
ghost use Rattle.jg_policy.specs.Stated.{StatedSetup};
ghost use Rattle.jg_rules.specs.Legal.{Legal};
ghost use Rattle.jg_script.specs.Entries.{FailsCall, Took};
ghost use Rattle.jg_words.specs.Entry.{Entry};

use crate::run_fault::RunFault;
use jg_guard::{Guard, Refusal};
use jg_words::{Call, EnvId, Tid};
use std::alloc::Allocator;

/// What stands beside a guard, and follows each call that the guard takes.
pub trait Beside<A: Allocator + Clone> {
    // What it was at first became this by the calls of these entries, the newest first. What that means each says
    // itself.
    ghost follows: { Self → Self → StatedSetup → List Entry → Type 0 };

    /// The guard takes the call of line number `line`, as `Guard::call` does. `Limit` and `NoMemory` are the guard's
    /// refusals, and leave its journal as it was.
    fn take_call(
        &mut self,
        guard: &mut Guard<A>,
        tid: Tid,
        env: Option<EnvId>,
        call: Call,
        line: u64,
    ) -> Result<(), RunFault>
        requires { length guard.old.journal ≤ guard.old.limit }
        ensures took { OnOk result (Took guard.old guard.new (next_entry guard.old tid env call)) }
        ensures err { IfErr result (FailsCall guard.old guard.new (next_entry guard.old tid env call) line) }
        ensures legal { Legal guard.old.setup guard.old.journal → Legal guard.new.setup guard.new.journal }
        ensures setup { guard.new.setup ≡ guard.old.setup }
        ensures limit { guard.new.limit ≡ guard.old.limit }
        ensures follows { (first : Self) → follows first self.old guard.old.setup guard.old.journal
            → follows first self.new guard.new.setup guard.new.journal };
}

/// Nothing beside the guard.
#[derive(Clone, Copy)]
pub struct Alone;

impl<A: Allocator + Clone> Beside<A> for Alone {
    ghost follows = { λ first alone setup journal. Unit {0} };

    #[inline(always)]
    fn take_call(
        &mut self,
        guard: &mut Guard<A>,
        tid: Tid,
        env: Option<EnvId>,
        call: Call,
        line: u64,
    ) -> Result<(), RunFault> {
        match guard.call(tid, env, call) {
            Ok(_) => Ok(()),
            Err(Refusal::Limit(_)) => Err(RunFault::Limit { line }),
            Err(Refusal::NoMemory(_)) => Err(RunFault::NoMemory { line }),
        }
    }
}

/// That, where there is one.
impl<A: Allocator + Clone, B: Beside<A>> Beside<A> for Option<B> {
    ghost use Rattle.jg_script.specs.Beside.{FollowsIf};

    ghost follows = { λ first beside setup journal. FollowsIf B.follows first beside setup journal };

    #[inline(always)]
    fn take_call(
        &mut self,
        guard: &mut Guard<A>,
        tid: Tid,
        env: Option<EnvId>,
        call: Call,
        line: u64,
    ) -> Result<(), RunFault> {
        match self {
            None => Alone.take_call(guard, tid, env, call, line),
            Some(beside) => beside.take_call(guard, tid, env, call, line),
        }
    }
}
