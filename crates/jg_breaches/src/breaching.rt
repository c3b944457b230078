//! In which way a call breaks a rule, by the tables as they are now.

ghost use Rattle.std.specs.Prelude.{◌≡◌};
ghost use Rattle.jg_words.specs.declared.call.vm.VmCall.TheVariants.{NativeEnter};
ghost use Rattle.jg_rules.specs.NativeUse.{native_use, vm_use};
ghost use Rattle.jg_rules.specs.Names.{pending};
ghost use Rattle.jg_rules.specs.Parts.{Parts};
ghost use Rattle.jg_rules.specs.View.{ViewStands};
ghost use Rattle.jg_breaches.specs.Breaches as breaches;

use crate::arguments::argument_breach;
use crate::breach::Breach;
use crate::buffers::bad_buffer_breach;
use crate::fields::bad_field_breach;
use crate::operands::operand_breach;
use jg_policy::{Operation, Setup};
use jg_rules::{View, class_asked, class_of, is_of_machine, is_wrong_caller, native_meant};
use jg_words::{Call, EnvId, Name, Rule, Tid, VmCall};
use std::alloc::Allocator;

fn env_breach(env: Option<EnvId>) -> Breach
    ensures { result ≡ breaches.of_env env }
{
    match env {
        None => Breach::Unbroken,
        Some(env) => Breach::EnvOfAnother { env },
    }
}

fn caller_breach(is_machines: bool) -> Breach
    ensures { result ≡ breaches.of_caller is_machines }
{
    if is_machines {
        Breach::OnlyForMachine
    } else {
        Breach::NotForMachine
    }
}

fn thread_breach(tid: Tid, env: Option<EnvId>, is_machines: bool) -> Breach
    ensures { result ≡ breaches.thread_breach tid.0 env is_machines }
{
    if is_wrong_caller(tid, is_machines) {
        caller_breach(is_machines)
    } else {
        env_breach(env)
    }
}

fn session_breach(env: Option<EnvId>) -> Breach
    ensures { result ≡ breaches.session_breach env }
{
    match env {
        None => Breach::NoEnv,
        Some(env) => Breach::NotPresent { env },
    }
}

fn pending_breach<A: Allocator + Clone>(view: &View<'_, A>, tid: Tid) -> Breach
    ensures { (p : Parts) → ViewStands view.now p → result
        ≡ breaches.pending_breach view.now.setup.now p (pending p tid.0) }
{
    match view.threads.pending(tid) {
        None => Breach::Unbroken,
        Some(exception) => Breach::ExceptionPending {
            class: class_of(view, exception),
        },
    }
}

fn frame_breach(call: &Call) -> Breach
    ensures { result ≡ breaches.frame_breach call.now }
{
    match call {
        Call::Vm(VmCall::DetachCurrentThread) => Breach::StillInNative,
        Call::Vm(VmCall::NativeLeave { .. }) => Breach::NotInNative,
        Call::Frames(_) => Breach::NoFrame,
        _ => Breach::Unbroken,
    }
}

/// Which use of native code the call is, where it names a class.
fn use_of_vm(call: &VmCall) -> Operation
    ensures { result ≡ vm_use call.now }
{
    match call {
        VmCall::LoadLibrary { .. } => Operation::Load,
        VmCall::RegisterNatives { .. } => Operation::Register,
        _ => Operation::Link,
    }
}

fn use_of(call: &Call) -> Operation
    ensures { result ≡ native_use call.now }
{
    match call {
        Call::Vm(call) => use_of_vm(call),
        _ => Operation::Link,
    }
}

fn access_breach(call: &Call, class: Option<u32>) -> Breach
    ensures { result ≡ breaches.access_breach call.now class }
{
    match class {
        None => Breach::Unbroken,
        Some(class) => Breach::AccessRefused {
            class,
            operation: use_of(call),
        },
    }
}

fn native_breach(class: Option<u32>, native: Option<u32>) -> Breach
    ensures { result ≡ breaches.native_breach class native }
{
    match class {
        None => Breach::Unbroken,
        Some(class) => match native {
            None => Breach::NoNative { class },
            Some(native) => Breach::NotLinked { class, native },
        },
    }
}

fn enter_breach(setup: &Setup, class: &Name, method: &Name, signature: &Name) -> Breach
    ensures { result ≡ breaches.vm_link_breach setup.now (NativeEnter class.now method.now signature.now) }
{
    let class = setup.class_named(class);
    native_breach(class, native_meant(setup, class, method, signature))
}

fn link_breach(setup: &Setup, call: &Call) -> Breach
    ensures { result ≡ breaches.link_breach setup.now call.now }
{
    match call {
        Call::Vm(
            VmCall::NativeEnter {
                class,
                method,
                signature,
            },
        ) => enter_breach(setup, class, method, signature),
        _ => Breach::Unbroken,
    }
}

/// In which way the call, of which this is the first broken rule, breaks it, as the tables are now.
/// Where a rule has several parts, the first that fails is told; of operands, the first from the
/// left. [`Breach::Unbroken`] where it doesn't break the rule.
pub fn breach_of<A: Allocator + Clone>(
    view: &View<'_, A>,
    tid: Tid,
    env: Option<EnvId>,
    call: &Call,
    rule: Rule,
) -> Breach
    ensures { (p : Parts) → ViewStands view.now p
        → result ≡ breaches.breach_of view.now.setup.now p tid env call.now rule }
{
    match rule {
        Rule::WrongThread => thread_breach(tid, env, is_of_machine(call)),
        Rule::Detached => session_breach(env),
        Rule::InCritical => Breach::InRegion,
        Rule::Pending => pending_breach(view, tid),
        Rule::BadField => bad_field_breach(view, tid, call),
        Rule::BadBuffer => bad_buffer_breach(view, tid, call),
        Rule::BadArgument => argument_breach(view, call),
        Rule::BadFrame => frame_breach(call),
        Rule::NoNativeAccess => access_breach(call, class_asked(view, tid, call)),
        Rule::NotLinked => link_breach(view.setup, call),
        Rule::ForeignLocal => operand_breach(view, tid, call, Rule::ForeignLocal),
        Rule::DeadReference => operand_breach(view, tid, call, Rule::DeadReference),
        Rule::WrongRefKind => operand_breach(view, tid, call, Rule::WrongRefKind),
        Rule::NullReference => operand_breach(view, tid, call, Rule::NullReference),
        Rule::WrongType => operand_breach(view, tid, call, Rule::WrongType),
        Rule::Pinned => operand_breach(view, tid, call, Rule::Pinned),
        Rule::NotOwner => operand_breach(view, tid, call, Rule::NotOwner),
    }
}
