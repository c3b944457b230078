//! What a call does, group by group.

ghost use Rattle.std.specs.Prelude.{◌≡◌, true, false, OnOk, OnErr};
ghost use Rattle.jg_rules.specs.Parts.{Parts, TablesStand};
ghost use Rattle.jg_rules.specs.Answers.{unnoticed};
ghost use Rattle.jg_rules.specs.Effects as effects;
ghost use Rattle.jg_rules.specs.NativeUse.{home_of, native_class};
ghost use Rattle.jg_rules.specs.Effects.{passed_on, done_by, warning};
ghost use Rattle.jg_guard.specs.Cleaning.{cleans_up};
ghost use Rattle.jg_guard.specs.Findings.{Finds, IsReady};
ghost use Rattle.jg_guard.specs.Tables as tables_of;
ghost use Rattle.jg_guard.specs.Tables.{rows_of, StillStand, IsAnswered, IsEffective, KeepsRoom};

use crate::collect::Findings;
use crate::forms::{is_effective, makes_global};
use crate::groups::arrays::perform_arrays;
use crate::groups::buffers::perform_buffers;
use crate::groups::exceptions::perform_exceptions;
use crate::groups::frames::perform_frames;
use crate::groups::monitors::perform_monitors;
use crate::groups::objects::perform_objects;
use crate::groups::refs::perform_refs;
use crate::groups::strings::perform_strings;
use crate::groups::vm::perform_vm;
use crate::settle::{make_room, settle, settle_global, throw_if, warn_if};
use crate::tables::Tables;
use jg_policy::Setup;
use jg_rules::{Answer, home_named};
use jg_words::{Call, Tid};
use std::alloc::{AllocError, Allocator};

/// Does what a passed call does: its own events, and then those of its answer. `findings` are what a
/// collection found. An `Err` leaves all as it stood.
pub(crate) fn perform<A: Allocator + Clone>(
    tables: &mut Tables<A>,
    setup: &Setup,
    findings: &Findings<A>,
    tid: Tid,
    call: &Call,
    given: &Answer,
) -> Result<(), AllocError>
    requires answered { IsAnswered setup.now (rows_of tables.old) tid call.now given.now findings.now }
    requires ready { IsReady tables.old.heap call.now findings.now }
    ensures stands { OnOk result ((p : Parts) → TablesStand setup.now (rows_of tables.old) p
        → given.now ≡ unnoticed setup.now p tid call.now → Finds setup.now p call.now findings.now
        → TablesStand setup.now (rows_of tables.new)
        (passed_on setup.now tid.0 call.now given.now.reply given.now.object p)) }
    ensures err { OnErr result (StillStand setup.now (rows_of tables.old) (rows_of tables.new)) }
    ensures wants { OnErr result (cleans_up call.now ≡ false) }
{
    if !is_effective(&given.reply.value) {
        throw_if(tables, tid, given)?;
        return Ok(());
    }
    if makes_global(&given.reply.value) {
        settle_global(tables, tid, given)?;
        return Ok(());
    }
    do_and_settle(tables, setup, findings, tid, call, given)
}

/// The number of the module that a warning names, where the call comes with one.
fn home_warned<A: Allocator + Clone>(
    tables: &Tables<A>,
    setup: &Setup,
    tid: Tid,
    call: &Call,
    warned: bool,
) -> Option<u32>
    ensures { (p : Parts) → TablesStand setup.now (rows_of tables.now) p
        → warning warned result ≡ warning warned (home_of setup.now (native_class setup.now p tid.0 call.now)) }
{
    if warned {
        home_named(&tables.view(setup), tid, call)
    } else {
        None
    }
}

fn do_and_settle<A: Allocator + Clone>(
    tables: &mut Tables<A>,
    setup: &Setup,
    findings: &Findings<A>,
    tid: Tid,
    call: &Call,
    given: &Answer,
) -> Result<(), AllocError>
    requires answered { IsAnswered setup.now (rows_of tables.old) tid call.now given.now findings.now }
    requires effective { effects.is_effective given.now.reply.value ≡ true }
    requires not_global { tables_of.makes_global given.now.reply.value ≡ false }
    requires ready { IsReady tables.old.heap call.now findings.now }
    ensures stands { OnOk result ((p : Parts) → TablesStand setup.now (rows_of tables.old) p
        → given.now ≡ unnoticed setup.now p tid call.now → Finds setup.now p call.now findings.now
        → TablesStand setup.now (rows_of tables.new)
        (passed_on setup.now tid.0 call.now given.now.reply given.now.object p)) }
    ensures err { OnErr result (StillStand setup.now (rows_of tables.old) (rows_of tables.new)) }
    ensures wants { OnErr result (cleans_up call.now ≡ false) }
{
    make_room(tables, tid, &given.reply)?;
    let home = home_warned(tables, setup, tid, call, given.reply.warned);
    do_call(tables, setup, findings, tid, call)?;
    settle(tables, tid, given);
    warn_if(tables, given.reply.warned, home);
    Ok(())
}

fn do_call<A: Allocator + Clone>(
    tables: &mut Tables<A>,
    setup: &Setup,
    findings: &Findings<A>,
    tid: Tid,
    call: &Call,
) -> Result<(), AllocError>
    requires effective { IsEffective setup.now (rows_of tables.old) tid call.now }
    requires ready { IsReady tables.old.heap call.now findings.now }
    ensures stands { OnOk result ((p : Parts) → TablesStand setup.now (rows_of tables.old) p
        → Finds setup.now p call.now findings.now
        → TablesStand setup.now (rows_of tables.new) (done_by setup.now tid.0 call.now p)) }
    ensures room { OnOk result (KeepsRoom tables.old tables.new tid.0 call.now) }
    ensures err { OnErr result (rows_of tables.new ≡ rows_of tables.old) }
    ensures wants { OnErr result (cleans_up call.now ≡ false) }
{
    match call {
        Call::Vm(call) => {
            perform_vm(tables, setup, findings, tid, call)?;
            Ok(())
        }
        Call::Refs(call) => {
            perform_refs(tables, setup, tid, call);
            Ok(())
        }
        Call::Frames(call) => {
            perform_frames(tables, setup, tid, call)?;
            Ok(())
        }
        Call::Exceptions(call) => {
            perform_exceptions(tables, setup, tid, call);
            Ok(())
        }
        Call::Objects(call) => {
            perform_objects(tables, setup, tid, call)?;
            Ok(())
        }
        Call::Strings(call) => {
            perform_strings(tables, setup, tid, call)?;
            Ok(())
        }
        Call::Arrays(call) => {
            perform_arrays(tables, setup, tid, call)?;
            Ok(())
        }
        Call::Monitors(call) => {
            perform_monitors(tables, setup, tid, call)?;
            Ok(())
        }
        Call::Buffers(call) => {
            perform_buffers(tables, setup, tid, call)?;
            Ok(())
        }
    }
}
