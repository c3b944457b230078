//! What the log is told of a call.

ghost use Rattle.std.specs.Prelude.{◌≡◌, ◌++◌, List, OnOk};
ghost use Rattle.jg_advice.specs.Moments.{Moment};
ghost use Rattle.jg_advice.specs.Standing.{Sees};
ghost use Rattle.jg_advice.specs.Told.{LogStands};
ghost use Rattle.jg_guard_advice.specs.Logged.{name_handed, with_facts};
ghost use Rattle.jg_guard_advice.specs.Operands.{operands_seen};
ghost use Rattle.jg_rules.specs.Parts.{Parts};
ghost use Rattle.jg_rules.specs.View.{ViewStands};

use jg_advice::AdviceLog;
use jg_core::Fact;
use jg_judge::{Argument, push_arguments};
use jg_rules::View;
use jg_words::{Call, ObjectsCall, Tid};
use std::alloc::{AllocError, Allocator};

/// The name that FindClass is handed; no text of any other call.
pub(crate) fn name_handed(call: &Call) -> &[u8]
    ensures { result.now ≡ name_handed call.now }
{
    match call {
        Call::Objects(ObjectsCall::FindClass { name }) => name.as_str().as_bytes(),
        _ => &[],
    }
}

/// Lists the operands of the question that the call is, where it is about a string, an array or a buffer: advice looks
/// at no others.
pub(crate) fn list_operands<A: Allocator + Clone>(
    view: &View<'_, A>,
    tid: Tid,
    call: &Call,
    out: &mut Vec<Argument>,
) -> Result<(), AllocError>
    ensures { OnOk result ((p : Parts) → ViewStands view.now p
        → out.new.items ≡ out.old.items ++ operands_seen view.now.setup.now p tid.0 call.now) }
{
    match call {
        Call::Strings(_) | Call::Arrays(_) | Call::Buffers(_) => {
            push_arguments(view, tid, call, out)
        }
        _ => Ok(()),
    }
}

/// Tells the facts of an entry, the oldest first, all on its line. `view` is of the tables with all of them.
pub(crate) fn tell_all<A: Allocator + Clone>(
    log: &mut AdviceLog,
    view: &View<'_, A>,
    line: u64,
    facts: &[Fact],
)
    ensures logs { (h : List Moment) (p : Parts) → LogStands log.old h → Sees view.now p
        → LogStands log.new (with_facts line p facts.now h) }
    ensures most { log.new.adviser.most ≡ log.old.adviser.most }
    ensures all { log.new.noting.all ≡ log.old.noting.all }
{
    let mut rest = facts;
    while let Some((fact, later)) = rest.split_first() {
        log.told(view, line, *fact);
        rest = later;
    }
}
