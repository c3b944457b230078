//! What the calls on the virtual machine answer and do: sessions, native methods, links and collections.

ghost use Rattle.std.specs.Prelude.{◌≡◌, ◌<◌, ◌≤◌, false, length, IfSome, OnOk, OnErr};
ghost use Rattle.std.specs.Option.{option_map};
ghost use Rattle.jg_words.specs.declared.call.Call.TheVariants.{Vm};
ghost use Rattle.jg_words.specs.declared.call.vm.VmCall.TheVariants.{AttachCurrentThread, RegisterNatives, UnregisterNatives, Collect};
ghost use Rattle.jg_words.specs.declared.reference.Kind.TheVariants.{Local};
ghost use Rattle.jg_words.specs.declared.value.Value.TheVariants.{Ok as Done};
ghost use Rattle.jg_table_threads.specs.Rows.{CanCount};
ghost use Rattle.jg_policy.specs.declared.access.Operation.TheVariants.{Load, Link};
ghost use Rattle.jg_policy.specs.Stated.{StatedSetup, class_count};
ghost use Rattle.jg_policy.specs.Classes.{class_named};
ghost use Rattle.jg_rules.specs.Parts.{Parts, TablesStand};
ghost use Rattle.jg_rules.specs.View.{ViewStands, rows_in};
ghost use Rattle.jg_rules.specs.Names as names_of;
ghost use Rattle.jg_rules.specs.Names.{pending, object_named as object_of};
ghost use Rattle.jg_rules.specs.Answers as answers;
ghost use Rattle.jg_rules.specs.Holding.{going};
ghost use Rattle.jg_rules.specs.Answers.{vm_answer, amount, handed, unless_pending, registered};
ghost use Rattle.jg_guard.specs.Cleaning.{cleans_up};
ghost use Rattle.jg_guard.specs.Findings.{Finds, IsReady};
ghost use Rattle.jg_guard.specs.Tables.{rows_of, IsDue, IsEffective, KeepsRoom};
ghost use Rattle.jg_rules.specs.Effects.{done_by};
ghost use Rattle.jg_guard.specs.Settled.{linked_on, unlinked_on};

use crate::collect::{Findings, collect};
use crate::forms::{admitted, handing_out, plain, throwing};
use crate::tables::Tables;
use jg_policy::{Operation, Setup};
use jg_rules::{Answer, View, class_meant, is_warned_use, native_meant, object_named};
use jg_words::{Kind, Name, ObjId, Ref, Thrown, Tid, Value, VmCall};
use std::alloc::{AllocError, Allocator};

/// The class object of a class, which has the class's number.
fn class_object(class: Option<u32>) -> Option<ObjId>
    ensures { option_map (λ o. o.0) result ≡ class }
{
    match class {
        None => None,
        Some(class) => Some(ObjId(u64::from(class))),
    }
}

fn answer_enter<A: Allocator + Clone>(view: &View<'_, A>, tid: Tid, class: &Name) -> Answer
    requires { CanCount view.now.threads.now tid.0 }
    ensures { (p : Parts) → ViewStands view.now p
        → result ≡ answers.admitted view.now.setup.now p Link (class_named view.now.setup.now class.now)
        (handed p tid Local (class_named view.now.setup.now class.now)) }
{
    let class = view.setup.class_named(class);
    let given = handing_out(view, tid, Kind::Local, class_object(class));
    admitted(given, is_warned_use(view, Operation::Link, class))
}

fn answer_leave<A: Allocator + Clone>(view: &View<'_, A>, tid: Tid, kept: Ref) -> Answer
    requires { CanCount view.now.threads.now tid.0 }
    ensures { (p : Parts) → ViewStands view.now p
        → result ≡ unless_pending (pending p tid.0) (handed p tid Local (object_of p tid.0 kept)) }
{
    match view.threads.pending(tid) {
        Some(_) => plain(Value::Null),
        None => handing_out(view, tid, Kind::Local, object_named(view, tid, kept)),
    }
}

fn answer_load<A: Allocator + Clone>(view: &View<'_, A>, class: &Name) -> Answer
    ensures { (p : Parts) → ViewStands view.now p → result ≡ answers.admitted view.now.setup.now p
        Load (class_named view.now.setup.now class.now) (answers.plain Done) }
{
    admitted(
        plain(Value::Ok),
        is_warned_use(view, Operation::Load, view.setup.class_named(class)),
    )
}

fn answer_register<A: Allocator + Clone>(
    view: &View<'_, A>,
    class: Option<u32>,
    method: &Name,
    signature: &Name,
) -> Answer
    requires { IfSome class (λ c. c < class_count view.now.setup.now) }
    ensures { (p : Parts) → ViewStands view.now p → result ≡ registered view.now.setup.now p class
        (names_of.native_meant view.now.setup.now class method.now signature.now) }
{
    match native_meant(view.setup, class, method, signature) {
        None => throwing(view, Thrown::NoSuchMethod),
        Some(_) => admitted(
            plain(Value::Ok),
            is_warned_use(view, Operation::Register, class),
        ),
    }
}

fn answer_env<A: Allocator + Clone>(view: &View<'_, A>, tid: Tid) -> Answer
    ensures { (p : Parts) → ViewStands view.now p
        → result ≡ answers.plain (answers.present_env tid (names_of.session p tid.0)) }
{
    match view.threads.env_of(tid) {
        None => plain(Value::Detached),
        Some(env) => plain(Value::Environment(env)),
    }
}

fn answer_collect<A: Allocator>(findings: &Findings<A>) -> Answer
    ensures { (setup : StatedSetup) (p : Parts) → Finds setup p (Vm Collect) findings.now
        → result ≡ amount (length (going setup p)) }
{
    plain(Value::Number(findings.unheld.len() as i64))
}

/// What a call of the group answers, where it breaks no rule. `findings` are what a collection found.
pub(crate) fn answer_vm<A: Allocator + Clone>(
    view: &View<'_, A>,
    findings: &Findings<A>,
    tid: Tid,
    call: &VmCall,
) -> Answer
    requires { IsDue view.now.setup.now (rows_in view.now) tid.0 (Vm call.now) }
    ensures { (p : Parts) → ViewStands view.now p → Finds view.now.setup.now p (Vm call.now) findings.now
        → result ≡ vm_answer view.now.setup.now p tid call.now }
{
    match call {
        VmCall::AttachCurrentThread => {
            plain(Value::Environment(view.threads.env_once_attached(tid)))
        }
        VmCall::DetachCurrentThread => plain(Value::Ok),
        VmCall::GetEnv => answer_env(view, tid),
        VmCall::NativeEnter { class, .. } => answer_enter(view, tid, class),
        VmCall::NativeLeave { kept } => answer_leave(view, tid, *kept),
        VmCall::LoadLibrary { class, .. } => answer_load(view, class),
        VmCall::RegisterNatives {
            class,
            method,
            signature,
        } => {
            let class = class_meant(view, tid, *class);
            answer_register(view, class, method, signature)
        }
        VmCall::UnregisterNatives { .. } => plain(Value::Ok),
        VmCall::Collect => answer_collect(findings),
    }
}

/// Links the class's native method, if there is one. An `Err` leaves all rows as they were.
fn link<A: Allocator + Clone>(
    tables: &mut Tables<A>,
    class: Option<u32>,
    native: Option<u32>,
) -> Result<(), AllocError>
    ensures stands { OnOk result ((setup : StatedSetup) (p : Parts) → TablesStand setup (rows_of tables.old) p
        → TablesStand setup (rows_of tables.new) (linked_on class native p)) }
    ensures warnings { tables.old.links.spare_warnings ≤ tables.new.links.spare_warnings }
    ensures locals { tables.new.locals ≡ tables.old.locals }
    ensures err { OnErr result (rows_of tables.new ≡ rows_of tables.old) }
{
    match class {
        None => Ok(()),
        Some(class) => match native {
            None => Ok(()),
            Some(native) => {
                tables.links.link(class, native)?;
                Ok(())
            }
        },
    }
}

fn register<A: Allocator + Clone>(
    tables: &mut Tables<A>,
    setup: &Setup,
    tid: Tid,
    class: Ref,
    method: &Name,
    signature: &Name,
) -> Result<(), AllocError>
    ensures stands { OnOk result ((p : Parts) → TablesStand setup.now (rows_of tables.old) p
        → TablesStand setup.now (rows_of tables.new)
        (done_by setup.now tid.0 (Vm (RegisterNatives class method.now signature.now)) p)) }
    ensures warnings { tables.old.links.spare_warnings ≤ tables.new.links.spare_warnings }
    ensures locals { tables.new.locals ≡ tables.old.locals }
    ensures err { OnErr result (rows_of tables.new ≡ rows_of tables.old) }
{
    let class = class_meant(&tables.view(setup), tid, class);
    let native = native_meant(setup, class, method, signature);
    link(tables, class, native)?;
    Ok(())
}

/// Unlinks all native methods of the class.
fn unlink<A: Allocator + Clone>(tables: &mut Tables<A>, class: Option<u32>)
    ensures stands { (setup : StatedSetup) (p : Parts) → TablesStand setup (rows_of tables.old) p
        → TablesStand setup (rows_of tables.new) (unlinked_on class p) }
    ensures warnings { tables.old.links.spare_warnings ≤ tables.new.links.spare_warnings }
    ensures locals { tables.new.locals ≡ tables.old.locals }
{
    if let Some(class) = class {
        tables.links.unlink_all(class);
    }
}

fn unregister<A: Allocator + Clone>(tables: &mut Tables<A>, setup: &Setup, tid: Tid, class: Ref)
    ensures stands { (p : Parts) → TablesStand setup.now (rows_of tables.old) p
        → TablesStand setup.now (rows_of tables.new) (done_by setup.now tid.0 (Vm (UnregisterNatives class)) p) }
    ensures warnings { tables.old.links.spare_warnings ≤ tables.new.links.spare_warnings }
    ensures locals { tables.new.locals ≡ tables.old.locals }
{
    let class = class_meant(&tables.view(setup), tid, class);
    unlink(tables, class);
}

/// Begins the thread's session, where it has none.
fn attach<A: Allocator + Clone>(
    tables: &mut Tables<A>,
    setup: &Setup,
    tid: Tid,
) -> Result<(), AllocError>
    requires { IsEffective setup.now (rows_of tables.old) tid (Vm AttachCurrentThread) }
    ensures stands { OnOk result ((p : Parts) → TablesStand setup.now (rows_of tables.old) p
        → TablesStand setup.now (rows_of tables.new) (done_by setup.now tid.0 (Vm AttachCurrentThread) p)) }
    ensures room { OnOk result (KeepsRoom tables.old tables.new tid.0 (Vm AttachCurrentThread)) }
    ensures err { OnErr result (rows_of tables.new ≡ rows_of tables.old) }
{
    if tables.threads.is_attached(tid) {
        tables.threads.attach(tid)?;
    } else {
        tables.locals.reserve_start(tid)?;
        tables.threads.attach(tid)?;
        match tables.locals.start_thread(tid) {
            Ok(()) => {}
            Err(_) => unreachable!(),
        }
    }
    Ok(())
}

/// Does what a passed call of the group does. An `Err` leaves all rows as they were.
pub(crate) fn perform_vm<A: Allocator + Clone>(
    tables: &mut Tables<A>,
    setup: &Setup,
    findings: &Findings<A>,
    tid: Tid,
    call: &VmCall,
) -> Result<(), AllocError>
    requires effective { IsEffective setup.now (rows_of tables.old) tid (Vm call.now) }
    requires ready { IsReady tables.old.heap (Vm call.now) findings.now }
    ensures stands { OnOk result ((p : Parts) → TablesStand setup.now (rows_of tables.old) p
        → Finds setup.now p (Vm call.now) findings.now
        → TablesStand setup.now (rows_of tables.new) (done_by setup.now tid.0 (Vm call.now) p)) }
    ensures room { OnOk result (KeepsRoom tables.old tables.new tid.0 (Vm call.now)) }
    ensures err { OnErr result (rows_of tables.new ≡ rows_of tables.old) }
    ensures wants { OnErr result (cleans_up (Vm call.now) ≡ false) }
{
    match call {
        VmCall::AttachCurrentThread => {
            attach(tables, setup, tid)?;
            Ok(())
        }
        VmCall::DetachCurrentThread => {
            tables.threads.detach(tid);
            tables.locals.drop_thread(tid);
            tables.monitors.release_all(tid);
            Ok(())
        }
        VmCall::GetEnv => Ok(()),
        VmCall::NativeEnter { .. } => {
            tables.locals.enter(tid)?;
            tables.threads.enter_native(tid);
            Ok(())
        }
        VmCall::NativeLeave { .. } => {
            tables.locals.leave(tid);
            tables.threads.leave_native(tid);
            Ok(())
        }
        VmCall::LoadLibrary { .. } => Ok(()),
        VmCall::RegisterNatives {
            class,
            method,
            signature,
        } => {
            register(tables, setup, tid, *class, method, signature)?;
            Ok(())
        }
        VmCall::UnregisterNatives { class } => {
            unregister(tables, setup, tid, *class);
            Ok(())
        }
        VmCall::Collect => {
            collect(tables, findings);
            Ok(())
        }
    }
}
