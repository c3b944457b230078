//! What the calls on exceptions answer, and what they clear.

ghost use Rattle.std.specs.Prelude.{◌≡◌};
ghost use Rattle.jg_words.specs.declared.call.Call.TheVariants.{Exceptions};
ghost use Rattle.jg_rules.specs.Parts.{Parts, TablesStand};
ghost use Rattle.jg_rules.specs.View.{ViewStands, rows_in};
ghost use Rattle.jg_rules.specs.Answers.{exceptions_answer};
ghost use Rattle.jg_rules.specs.Effects.{done_by};
ghost use Rattle.jg_guard.specs.Tables.{rows_of, IsDue, IsEffective, KeepsRoom};

use crate::forms::{handing_out, plain, saying};
use crate::tables::Tables;
use jg_policy::Setup;
use jg_rules::{Answer, View, object_named};
use jg_words::{ExceptionsCall, Kind, Tid, Value};
use std::alloc::Allocator;

/// What a call of the group answers, where it breaks no rule.
pub(crate) fn answer_exceptions<A: Allocator + Clone>(
    view: &View<'_, A>,
    tid: Tid,
    call: &ExceptionsCall,
) -> Answer
    requires { IsDue view.now.setup.now (rows_in view.now) tid.0 (Exceptions call.now) }
    ensures { (p : Parts) → ViewStands view.now p → result ≡ exceptions_answer p tid call.now }
{
    match call {
        ExceptionsCall::Throw { exception } => {
            saying(Value::Ok, object_named(view, tid, *exception))
        }
        ExceptionsCall::ExceptionOccurred => {
            handing_out(view, tid, Kind::Local, view.threads.pending(tid))
        }
        ExceptionsCall::ExceptionDescribe => plain(Value::Ok),
        ExceptionsCall::ExceptionClear => plain(Value::Ok),
        ExceptionsCall::ExceptionCheck => {
            plain(Value::Truth(view.threads.pending(tid).is_some()))
        }
    }
}

/// Does what a call of the group does beside handing out a reference, and beside what a Throw makes pending.
pub(crate) fn perform_exceptions<A: Allocator + Clone>(
    tables: &mut Tables<A>,
    setup: &Setup,
    tid: Tid,
    call: &ExceptionsCall,
)
    requires { IsEffective setup.now (rows_of tables.old) tid (Exceptions call.now) }
    ensures stands { (p : Parts) → TablesStand setup.now (rows_of tables.old) p
        → TablesStand setup.now (rows_of tables.new) (done_by setup.now tid.0 (Exceptions call.now) p) }
    ensures room { KeepsRoom tables.old tables.new tid.0 (Exceptions call.now) }
{
    let _setup = setup;
    match call {
        ExceptionsCall::Throw { .. } => {}
        ExceptionsCall::ExceptionOccurred => {}
        ExceptionsCall::ExceptionDescribe => tables.threads.clear_pending(tid),
        ExceptionsCall::ExceptionClear => tables.threads.clear_pending(tid),
        ExceptionsCall::ExceptionCheck => {}
    }
}
