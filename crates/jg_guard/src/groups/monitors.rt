//! What the calls on monitors answer and do.

ghost use Rattle.std.specs.Prelude.{◌≡◌, false, OnOk, OnErr};
ghost use Rattle.jg_words.specs.declared.call.Call.TheVariants.{Monitors};
ghost use Rattle.jg_words.specs.declared.call.monitors.MonitorsCall.TheVariants.{MonitorEnter, MonitorExit};
ghost use Rattle.jg_table_monitors.specs.History.{entering, owner};
ghost use Rattle.jg_rules.specs.Parts.{Parts, TablesStand};
ghost use Rattle.jg_rules.specs.View.{ViewStands, rows_in};
ghost use Rattle.jg_rules.specs.Answers.{entered, monitors_answer};
ghost use Rattle.jg_rules.specs.Effects.{done_by};
ghost use Rattle.jg_guard.specs.Cleaning.{cleans_up};
ghost use Rattle.jg_guard.specs.Tables.{rows_of, IsDue, IsEffective, KeepsRoom};

use crate::forms::plain;
use crate::tables::Tables;
use jg_policy::Setup;
use jg_rules::{Answer, View, the_object};
use jg_table_monitors::Entering;
use jg_words::{MonitorsCall, ObjId, Ref, Tid, Value};
use std::alloc::{AllocError, Allocator};

/// What a thread that enters the object's monitor is told.
fn told<A: Allocator + Clone>(view: &View<'_, A>, tid: Tid, object: ObjId) -> Value
    ensures { (p : Parts) → ViewStands view.now p → result ≡ entered (entering tid.0 (owner p.monitors object.0)) }
{
    match view.monitors.owner(object) {
        None => Value::Ok,
        Some(owner) => {
            if owner.0 == tid.0 {
                Value::Ok
            } else {
                Value::Busy
            }
        }
    }
}

/// What a call of the group answers, where it breaks no rule.
pub(crate) fn answer_monitors<A: Allocator + Clone>(
    view: &View<'_, A>,
    tid: Tid,
    call: &MonitorsCall,
) -> Answer
    requires { IsDue view.now.setup.now (rows_in view.now) tid.0 (Monitors call.now) }
    ensures { (p : Parts) → ViewStands view.now p → result ≡ monitors_answer p tid call.now }
{
    match call {
        MonitorsCall::MonitorEnter { of } => {
            let object = the_object(view, tid, *of);
            plain(told(view, tid, object))
        }
        MonitorsCall::MonitorExit { .. } => plain(Value::Ok),
    }
}

fn enter<A: Allocator + Clone>(
    tables: &mut Tables<A>,
    setup: &Setup,
    tid: Tid,
    of: Ref,
) -> Result<(), AllocError>
    requires { IsEffective setup.now (rows_of tables.old) tid (Monitors (MonitorEnter of)) }
    ensures stands { OnOk result ((p : Parts) → TablesStand setup.now (rows_of tables.old) p
        → TablesStand setup.now (rows_of tables.new) (done_by setup.now tid.0 (Monitors (MonitorEnter of)) p)) }
    ensures locals { tables.new.locals ≡ tables.old.locals }
    ensures links { tables.new.links ≡ tables.old.links }
    ensures err { OnErr result (rows_of tables.new ≡ rows_of tables.old) }
{
    let object = the_object(&tables.view(setup), tid, of);
    match tables.monitors.enter(tid, object)? {
        Entering::Entered => Ok(()),
        Entering::Busy => unreachable!(),
    }
}

fn exit<A: Allocator + Clone>(tables: &mut Tables<A>, setup: &Setup, tid: Tid, of: Ref)
    requires { IsDue setup.now (rows_of tables.old) tid.0 (Monitors (MonitorExit of)) }
    ensures stands { (p : Parts) → TablesStand setup.now (rows_of tables.old) p
        → TablesStand setup.now (rows_of tables.new) (done_by setup.now tid.0 (Monitors (MonitorExit of)) p) }
    ensures locals { tables.new.locals ≡ tables.old.locals }
    ensures links { tables.new.links ≡ tables.old.links }
{
    let object = the_object(&tables.view(setup), tid, of);
    tables.monitors.exit(tid, object);
}

/// Does what a passed call of the group does. An `Err` leaves all rows as they were.
pub(crate) fn perform_monitors<A: Allocator + Clone>(
    tables: &mut Tables<A>,
    setup: &Setup,
    tid: Tid,
    call: &MonitorsCall,
) -> Result<(), AllocError>
    requires { IsEffective setup.now (rows_of tables.old) tid (Monitors call.now) }
    ensures stands { OnOk result ((p : Parts) → TablesStand setup.now (rows_of tables.old) p
        → TablesStand setup.now (rows_of tables.new) (done_by setup.now tid.0 (Monitors call.now) p)) }
    ensures room { OnOk result (KeepsRoom tables.old tables.new tid.0 (Monitors call.now)) }
    ensures err { OnErr result (rows_of tables.new ≡ rows_of tables.old) }
    ensures wants { OnErr result (cleans_up (Monitors call.now) ≡ false) }
{
    match call {
        MonitorsCall::MonitorEnter { of } => {
            enter(tables, setup, tid, *of)?;
            Ok(())
        }
        MonitorsCall::MonitorExit { of } => {
            exit(tables, setup, tid, *of);
            Ok(())
        }
    }
}
