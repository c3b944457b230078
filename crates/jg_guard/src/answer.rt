//! What a call answers, group by group: it only reads.

ghost use Rattle.std.specs.Prelude.{◌≡◌, false, IfOk, OnErr};
ghost use Rattle.jg_rules.specs.Parts.{Parts};
ghost use Rattle.jg_rules.specs.View.{ViewStands, rows_in};
ghost use Rattle.jg_rules.specs.Answers.{unnoticed};
ghost use Rattle.jg_guard.specs.Cleaning.{cleans_up};
ghost use Rattle.jg_guard.specs.Findings.{Finds};
ghost use Rattle.jg_guard.specs.Tables.{IsDue};

use crate::collect::Findings;
use crate::groups::arrays::answer_arrays;
use crate::groups::buffers::answer_buffers;
use crate::groups::exceptions::answer_exceptions;
use crate::groups::frames::answer_frames;
use crate::groups::monitors::answer_monitors;
use crate::groups::objects::answer_objects;
use crate::groups::refs::answer_refs;
use crate::groups::strings::answer_strings;
use crate::groups::vm::answer_vm;
use jg_rules::{Answer, View};
use jg_words::{Call, Tid};
use std::alloc::{AllocError, Allocator, Global};

/// What the call answers, where it breaks no rule, but for a notice. `findings` are what a collection
/// found; `lists` is for the items of a list answer.
pub(crate) fn answer_to<A: Allocator + Clone>(
    view: &View<'_, A>,
    findings: &Findings<A>,
    lists: Global,
    tid: Tid,
    call: &Call,
) -> Result<Answer, AllocError>
    requires { IsDue view.now.setup.now (rows_in view.now) tid.0 call.now }
    ensures given { IfOk result (λ given. (p : Parts) → ViewStands view.now p
        → Finds view.now.setup.now p call.now findings.now → given ≡ unnoticed view.now.setup.now p tid call.now) }
    ensures wants { OnErr result (cleans_up call.now ≡ false) }
{
    match call {
        Call::Vm(call) => Ok(answer_vm(view, findings, tid, call)),
        Call::Refs(call) => Ok(answer_refs(view, tid, call)),
        Call::Frames(call) => Ok(answer_frames(view, tid, call)),
        Call::Exceptions(call) => Ok(answer_exceptions(view, tid, call)),
        Call::Objects(call) => Ok(answer_objects(view, tid, call)),
        Call::Strings(call) => answer_strings(view, lists, tid, call),
        Call::Arrays(call) => answer_arrays(view, lists, tid, call),
        Call::Monitors(call) => Ok(answer_monitors(view, tid, call)),
        Call::Buffers(call) => Ok(answer_buffers(view, tid, call)),
    }
}
