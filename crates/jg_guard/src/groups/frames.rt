//! What the calls on frames answer and do.

ghost use Rattle.std.specs.Prelude.{◌≡◌, false, OnOk, OnErr};
ghost use Rattle.jg_words.specs.declared.call.Call.TheVariants.{Frames};
ghost use Rattle.jg_rules.specs.Parts.{Parts, TablesStand};
ghost use Rattle.jg_rules.specs.View.{ViewStands, rows_in};
ghost use Rattle.jg_rules.specs.Answers.{frames_answer};
ghost use Rattle.jg_guard.specs.Cleaning.{cleans_up};
ghost use Rattle.jg_guard.specs.Tables.{rows_of, IsDue, IsEffective, KeepsRoom};
ghost use Rattle.jg_rules.specs.Effects.{done_by};

use crate::forms::{handing_out, plain};
use crate::tables::Tables;
use jg_policy::Setup;
use jg_rules::{Answer, View, object_named};
use jg_table_heap::natural;
use jg_words::{FramesCall, Kind, Tid, Value};
use std::alloc::{AllocError, Allocator};

/// What a call of the group answers, where it breaks no rule.
pub(crate) fn answer_frames<A: Allocator + Clone>(
    view: &View<'_, A>,
    tid: Tid,
    call: &FramesCall,
) -> Answer
    requires { IsDue view.now.setup.now (rows_in view.now) tid.0 (Frames call.now) }
    ensures { (p : Parts) → ViewStands view.now p → result ≡ frames_answer p tid call.now }
{
    match call {
        FramesCall::PushLocalFrame { .. } => plain(Value::Ok),
        FramesCall::PopLocalFrame { kept } => {
            handing_out(view, tid, Kind::Local, object_named(view, tid, *kept))
        }
        FramesCall::EnsureLocalCapacity { .. } => plain(Value::Number(0)),
    }
}

/// Does what a call of the group does beside handing out a reference. An `Err` leaves all rows as
/// they were.
pub(crate) fn perform_frames<A: Allocator + Clone>(
    tables: &mut Tables<A>,
    setup: &Setup,
    tid: Tid,
    call: &FramesCall,
) -> Result<(), AllocError>
    requires { IsEffective setup.now (rows_of tables.old) tid (Frames call.now) }
    ensures stands { OnOk result ((p : Parts) → TablesStand setup.now (rows_of tables.old) p
        → TablesStand setup.now (rows_of tables.new) (done_by setup.now tid.0 (Frames call.now) p)) }
    ensures room { OnOk result (KeepsRoom tables.old tables.new tid.0 (Frames call.now)) }
    ensures err { OnErr result (rows_of tables.new ≡ rows_of tables.old) }
    ensures wants { OnErr result (cleans_up (Frames call.now) ≡ false) }
{
    match call {
        FramesCall::PushLocalFrame { capacity } => tables.locals.push(tid, natural(*capacity)),
        FramesCall::PopLocalFrame { .. } => {
            tables.locals.pop(tid);
            Ok(())
        }
        FramesCall::EnsureLocalCapacity { capacity } => {
            tables.locals.ensure(tid, natural(*capacity));
            Ok(())
        }
    }
}
