//! In which way a call breaks a rule, as it is told.

ghost use Rattle.std.specs.Prelude.{◌≡◌, ◌++◌, OnOk, string_bytes};
ghost use Rattle.jg_text.specs.Words.{buf_text, env_id_text, ref_text, tid_text};
ghost use Rattle.jg_denial_text.specs.Breaches as breaches;

use crate::words::{
    lender_name, push_class, push_field_type, push_module, push_quoted, push_type, push_wanted,
    use_words,
};
use jg_breaches::{Argument, Breach};
use jg_policy::{Operation, Setup};
use jg_rules::ObjectType;
use jg_table_buffers::Family;
use jg_text::{push_buf, push_env, push_field, push_number, push_ref, push_signed, push_tid};
use jg_words::{BufId, Call, EnvId, FieldId, Kind, Primitive, Ref, Tid, VmCall};
use std::alloc::AllocError;

fn push_of_ref(out: &mut String, reference: Ref) -> Result<(), AllocError>
    ensures { OnOk result (string_bytes out.new ≡ string_bytes out.old ++ breaches.of_ref reference) }
{
    out.push_str(" of ")?;
    push_ref(out, reference)
}

fn push_of_buffer(out: &mut String, buffer: BufId) -> Result<(), AllocError>
    ensures { OnOk result (string_bytes out.new ≡ string_bytes out.old ++ breaches.of_buffer buffer) }
{
    out.push_str(" of ")?;
    push_buf(out, buffer)
}

fn push_env_id(out: &mut String, env: EnvId) -> Result<(), AllocError>
    ensures { OnOk result (string_bytes out.new ≡ string_bytes out.old ++ env_id_text env) }
{
    push_env(out, Some(env))
}

fn push_of_env(out: &mut String, env: EnvId) -> Result<(), AllocError>
    ensures { OnOk result (string_bytes out.new ≡ string_bytes out.old ++ breaches.of_env env) }
{
    out.push_str(" of ")?;
    push_env_id(out, env)
}

/// Of which operand the rule speaks, with ` of ` before it; nothing where it speaks of none.
pub fn push_subject(out: &mut String, breach: Breach) -> Result<(), AllocError>
    ensures { OnOk result (string_bytes out.new ≡ string_bytes out.old ++ breaches.subject_text breach) }
{
    match breach {
        Breach::EnvOfAnother { env } => push_of_env(out, env),
        Breach::NotPresent { env } => push_of_env(out, env),
        Breach::ForeignLocal { reference } => push_of_ref(out, reference),
        Breach::DeadReference { reference } => push_of_ref(out, reference),
        Breach::OtherKind { reference } => push_of_ref(out, reference),
        Breach::NoObject { reference } => push_of_ref(out, reference),
        Breach::OtherType { reference, .. } => push_of_ref(out, reference),
        Breach::NoField { reference, .. } => push_of_ref(out, reference),
        Breach::FieldOfOtherType { reference, .. } => push_of_ref(out, reference),
        Breach::FieldOfOtherClass { reference, .. } => push_of_ref(out, reference),
        Breach::NotOpen { buffer } => push_of_buffer(out, buffer),
        Breach::LentOtherwise { buffer, .. } => push_of_buffer(out, buffer),
        Breach::OfOtherObject { buffer, .. } => push_of_buffer(out, buffer),
        Breach::OfOtherThread { buffer } => push_of_buffer(out, buffer),
        Breach::OfString { buffer } => push_of_buffer(out, buffer),
        Breach::NoItem { buffer, .. } => push_of_buffer(out, buffer),
        Breach::PinnedReference { reference } => push_of_ref(out, reference),
        Breach::NotOwner { reference, .. } => push_of_ref(out, reference),
        _ => Ok(()),
    }
}

fn fun_name(call: &Call) -> &'static str
    ensures { result.now ≡ breaches.fun_text call.now }
{
    call.fun().name()
}

fn kind_word(kind: Kind) -> &'static str
    ensures { result.now ≡ breaches.kind_text kind }
{
    match kind {
        Kind::Local => "local",
        Kind::Global => "global",
        Kind::Weak => "weak global",
    }
}

fn push_kind_of(out: &mut String, reference: Ref) -> Result<(), AllocError>
    ensures { OnOk result (string_bytes out.new ≡ string_bytes out.old ++ breaches.kind_of_text reference) }
{
    match reference {
        Ref::Null => out.push_str("null"),
        Ref::To { kind, .. } => {
            out.push_str("a ")?;
            out.push_str(kind_word(kind))?;
            out.push_str(" reference")
        }
    }
}

fn push_env_of_another(out: &mut String, tid: Tid, env: EnvId) -> Result<(), AllocError>
    ensures { OnOk result (string_bytes out.new
        ≡ string_bytes out.old ++ breaches.env_of_another_text tid env) }
{
    push_env_id(out, env)?;
    out.push_str(" is an environment of ")?;
    push_tid(out, env.tid)?;
    out.push_str(", not of ")?;
    push_tid(out, tid)
}

fn push_not_present(out: &mut String, env: EnvId) -> Result<(), AllocError>
    ensures { OnOk result (string_bytes out.new ≡ string_bytes out.old ++ breaches.not_present_text env) }
{
    push_env_id(out, env)?;
    out.push_str(" is not the present environment of ")?;
    push_tid(out, env.tid)
}

fn push_pending(out: &mut String, setup: &Setup, tid: Tid, class: u32) -> Result<(), AllocError>
    ensures { OnOk result (string_bytes out.new
        ≡ string_bytes out.old ++ breaches.pending_text setup.now tid class) }
{
    push_tid(out, tid)?;
    out.push_str(" has an exception of ")?;
    push_class(out, setup, class)?;
    out.push_str(" pending")
}

fn push_foreign(out: &mut String, tid: Tid, reference: Ref) -> Result<(), AllocError>
    ensures { OnOk result (string_bytes out.new ≡ string_bytes out.old ++ breaches.foreign_text tid reference) }
{
    match reference {
        Ref::Null => Ok(()),
        Ref::To { maker, .. } => {
            push_ref(out, reference)?;
            out.push_str(" was handed to ")?;
            push_tid(out, maker)?;
            out.push_str(", not to ")?;
            push_tid(out, tid)
        }
    }
}

fn push_dead(out: &mut String, tid: Tid, reference: Ref) -> Result<(), AllocError>
    ensures { OnOk result (string_bytes out.new ≡ string_bytes out.old ++ breaches.dead_text tid reference) }
{
    push_ref(out, reference)?;
    out.push_str(" names nothing for ")?;
    push_tid(out, tid)
}

fn push_other_kind(out: &mut String, call: &Call, reference: Ref) -> Result<(), AllocError>
    ensures { OnOk result (string_bytes out.new
        ≡ string_bytes out.old ++ breaches.other_kind_text call.now reference) }
{
    push_ref(out, reference)?;
    out.push_str(" is ")?;
    push_kind_of(out, reference)?;
    out.push_str(", which ")?;
    out.push_str(fun_name(call))?;
    out.push_str(" does not delete")
}

fn push_no_object(out: &mut String, tid: Tid, reference: Ref) -> Result<(), AllocError>
    ensures { OnOk result (string_bytes out.new ≡ string_bytes out.old ++ breaches.no_object_text tid reference) }
{
    match reference {
        Ref::Null => out.push_str("null was handed in"),
        Ref::To { .. } => {
            push_ref(out, reference)?;
            out.push_str(" names no object for ")?;
            push_tid(out, tid)
        }
    }
}

fn push_other_type(
    out: &mut String,
    setup: &Setup,
    reference: Ref,
    wanted: ObjectType,
    class: u32,
) -> Result<(), AllocError>
    ensures { OnOk result (string_bytes out.new
        ≡ string_bytes out.old ++ breaches.other_type_text setup.now reference wanted class) }
{
    push_ref(out, reference)?;
    out.push_str(" names an object of ")?;
    push_class(out, setup, class)?;
    out.push_str(", and ")?;
    push_type(out, wanted)?;
    out.push_str(" is wanted")
}

fn push_no_field(out: &mut String, field: FieldId) -> Result<(), AllocError>
    ensures { OnOk result (string_bytes out.new ≡ string_bytes out.old ++ breaches.no_field_text field) }
{
    push_field(out, field)?;
    out.push_str(" is no field of the setup")
}

fn push_field_of_type(
    out: &mut String,
    setup: &Setup,
    call: &Call,
    field: FieldId,
    wanted: Option<Primitive>,
) -> Result<(), AllocError>
    ensures { OnOk result (string_bytes out.new
        ≡ string_bytes out.old ++ breaches.field_of_type_text setup.now call.now field wanted) }
{
    push_field(out, field)?;
    out.push_str(" is of type ")?;
    push_field_type(out, setup, field)?;
    out.push_str(", and ")?;
    out.push_str(fun_name(call))?;
    out.push_str(" takes one of ")?;
    push_wanted(out, wanted)
}

fn push_field_of_class(
    out: &mut String,
    setup: &Setup,
    reference: Ref,
    field: FieldId,
    class: u32,
) -> Result<(), AllocError>
    ensures { OnOk result (string_bytes out.new
        ≡ string_bytes out.old ++ breaches.field_of_class_text setup.now reference field class) }
{
    push_field(out, field)?;
    out.push_str(" is a field of ")?;
    push_class(out, setup, field.class)?;
    out.push_str(", and ")?;
    push_ref(out, reference)?;
    out.push_str(" names an object of ")?;
    push_class(out, setup, class)
}

fn push_after_buffer(out: &mut String, buffer: BufId, text: &'static str) -> Result<(), AllocError>
    ensures { OnOk result (string_bytes out.new ≡ string_bytes out.old ++ (buf_text buffer ++ text.now)) }
{
    push_buf(out, buffer)?;
    out.push_str(text)
}

fn push_lent_otherwise(
    out: &mut String,
    call: &Call,
    buffer: BufId,
    family: Family,
) -> Result<(), AllocError>
    ensures { OnOk result (string_bytes out.new
        ≡ string_bytes out.old ++ breaches.lent_otherwise_text call.now buffer family) }
{
    push_after_buffer(out, buffer, " was lent by ")?;
    out.push_str(lender_name(family))?;
    out.push_str(", which ")?;
    out.push_str(fun_name(call))?;
    out.push_str(" does not end")
}

fn push_other_object(
    out: &mut String,
    setup: &Setup,
    buffer: BufId,
    reference: Ref,
    class: u32,
) -> Result<(), AllocError>
    ensures { OnOk result (string_bytes out.new
        ≡ string_bytes out.old ++ breaches.other_object_text setup.now buffer reference class) }
{
    push_after_buffer(out, buffer, " is of another object than ")?;
    push_ref(out, reference)?;
    out.push_str(" names, of ")?;
    push_class(out, setup, class)
}

fn push_other_thread(out: &mut String, tid: Tid, buffer: BufId) -> Result<(), AllocError>
    ensures { OnOk result (string_bytes out.new ≡ string_bytes out.old ++ breaches.other_thread_text tid buffer) }
{
    push_after_buffer(out, buffer, " is a critical buffer of ")?;
    push_tid(out, buffer.maker)?;
    out.push_str(", not of ")?;
    push_tid(out, tid)
}

fn argument_word(argument: Argument) -> &'static str
    ensures { result.now ≡ breaches.argument_text argument }
{
    match argument {
        Argument::Capacity => "capacity ",
        Argument::Length => "length ",
        Argument::Mode => "mode ",
        Argument::Value => "value ",
    }
}

fn push_range(out: &mut String, value: i64, least: i64, most: i64) -> Result<(), AllocError>
    ensures { OnOk result (string_bytes out.new ≡ string_bytes out.old ++ breaches.range_text value least most) }
{
    push_signed(out, value)?;
    out.push_str(" is not from ")?;
    push_signed(out, least)?;
    out.push_str(" to ")?;
    push_signed(out, most)
}

fn push_out_of_range(
    out: &mut String,
    argument: Argument,
    value: i64,
    least: i64,
    most: i64,
) -> Result<(), AllocError>
    ensures { OnOk result (string_bytes out.new ≡ string_bytes out.old
        ++ (breaches.argument_text argument ++ breaches.range_text value least most)) }
{
    out.push_str(argument_word(argument))?;
    push_range(out, value, least, most)
}

fn push_item(
    out: &mut String,
    place: usize,
    value: i64,
    least: i64,
    most: i64,
) -> Result<(), AllocError>
    ensures { OnOk result (string_bytes out.new
        ≡ string_bytes out.old ++ breaches.item_text place value least most) }
{
    out.push_str("item ")?;
    push_number(out, place as u64)?;
    out.push_str(", ")?;
    push_range(out, value, least, most)
}

fn push_too_long(out: &mut String, length: i32) -> Result<(), AllocError>
    ensures { OnOk result (string_bytes out.new ≡ string_bytes out.old ++ breaches.too_long_text length) }
{
    out.push_str("a region of ")?;
    push_signed(out, i64::from(length))?;
    out.push_str(" items is longer than 1000")
}

fn push_class_named(out: &mut String, call: &Call) -> Result<(), AllocError>
    ensures { OnOk result (string_bytes out.new ≡ string_bytes out.old ++ breaches.class_named_text call.now) }
{
    match call {
        Call::Vm(VmCall::NativeEnter { class, .. }) => push_quoted(out, class.as_str().as_bytes()),
        Call::Vm(VmCall::LoadLibrary { class, .. }) => push_quoted(out, class.as_str().as_bytes()),
        _ => Ok(()),
    }
}

fn push_no_class(out: &mut String, call: &Call) -> Result<(), AllocError>
    ensures { OnOk result (string_bytes out.new ≡ string_bytes out.old ++ breaches.no_class_text call.now) }
{
    out.push_str("the setup has no class ")?;
    push_class_named(out, call)
}

fn push_no_item(out: &mut String, buffer: BufId, index: i32, length: u64) -> Result<(), AllocError>
    ensures { OnOk result (string_bytes out.new
        ≡ string_bytes out.old ++ breaches.no_item_text buffer index length) }
{
    push_after_buffer(out, buffer, " has ")?;
    push_number(out, length)?;
    out.push_str(" items, and none at ")?;
    push_signed(out, i64::from(index))
}

fn push_owner(out: &mut String, owner: Option<Tid>) -> Result<(), AllocError>
    ensures { OnOk result (string_bytes out.new ≡ string_bytes out.old ++ breaches.owner_text owner) }
{
    match owner {
        None => out.push_str("nobody"),
        Some(tid) => push_tid(out, tid),
    }
}

fn push_not_owner(
    out: &mut String,
    setup: &Setup,
    class: u32,
    owner: Option<Tid>,
) -> Result<(), AllocError>
    ensures { OnOk result (string_bytes out.new
        ≡ string_bytes out.old ++ breaches.not_owner_text setup.now class owner) }
{
    push_owner(out, owner)?;
    out.push_str(" owns the monitor of an object of ")?;
    push_class(out, setup, class)
}

fn push_after_tid(out: &mut String, tid: Tid, text: &'static str) -> Result<(), AllocError>
    ensures { OnOk result (string_bytes out.new ≡ string_bytes out.old ++ (tid_text tid ++ text.now)) }
{
    push_tid(out, tid)?;
    out.push_str(text)
}

fn push_after_fun(out: &mut String, call: &Call, text: &'static str) -> Result<(), AllocError>
    ensures { OnOk result (string_bytes out.new
        ≡ string_bytes out.old ++ (breaches.fun_text call.now ++ text.now)) }
{
    out.push_str(fun_name(call))?;
    out.push_str(text)
}

fn push_after_ref(out: &mut String, reference: Ref, text: &'static str) -> Result<(), AllocError>
    ensures { OnOk result (string_bytes out.new ≡ string_bytes out.old ++ (ref_text reference ++ text.now)) }
{
    push_ref(out, reference)?;
    out.push_str(text)
}

fn push_refused(
    out: &mut String,
    setup: &Setup,
    class: u32,
    operation: Operation,
) -> Result<(), AllocError>
    ensures { OnOk result (string_bytes out.new
        ≡ string_bytes out.old ++ breaches.refused_text setup.now class operation) }
{
    out.push_str("module ")?;
    push_module(out, setup, class)?;
    out.push_str(" of ")?;
    push_class(out, setup, class)?;
    out.push_str(" is not granted ")?;
    out.push_str(use_words(operation))?;
    out.push_str(", and illegal native access is denied")
}

fn push_native(out: &mut String, call: &Call) -> Result<(), AllocError>
    ensures { OnOk result (string_bytes out.new ≡ string_bytes out.old ++ breaches.native_text call.now) }
{
    match call {
        Call::Vm(
            VmCall::NativeEnter {
                method,
                signature,
                ..
            },
        ) => {
            push_quoted(out, method.as_str().as_bytes())?;
            out.push_str(" of type ")?;
            push_quoted(out, signature.as_str().as_bytes())
        }
        _ => Ok(()),
    }
}

fn push_no_native(
    out: &mut String,
    setup: &Setup,
    call: &Call,
    class: u32,
) -> Result<(), AllocError>
    ensures { OnOk result (string_bytes out.new
        ≡ string_bytes out.old ++ breaches.no_native_text setup.now call.now class) }
{
    push_class(out, setup, class)?;
    out.push_str(" has no native method ")?;
    push_native(out, call)
}

fn push_not_linked(
    out: &mut String,
    setup: &Setup,
    call: &Call,
    class: u32,
) -> Result<(), AllocError>
    ensures { OnOk result (string_bytes out.new
        ≡ string_bytes out.old ++ breaches.not_linked_text setup.now call.now class) }
{
    push_native(out, call)?;
    out.push_str(" of ")?;
    push_class(out, setup, class)?;
    out.push_str(" is not linked")
}

/// In which way the thread's call breaks the rule.
pub fn push_breach(
    out: &mut String,
    setup: &Setup,
    tid: Tid,
    call: &Call,
    breach: Breach,
) -> Result<(), AllocError>
    ensures { OnOk result (string_bytes out.new
        ≡ string_bytes out.old ++ breaches.breach_text setup.now tid call.now breach) }
{
    match breach {
        Breach::OnlyForMachine => {
            push_after_fun(out, call, " is the virtual machine's own, which is T0")
        }
        Breach::NotForMachine => {
            push_after_fun(out, call, " is no call of the virtual machine, which is T0")
        }
        Breach::EnvOfAnother { env } => push_env_of_another(out, tid, env),
        Breach::NoEnv => out.push_str("no environment was handed in"),
        Breach::NotPresent { env } => push_not_present(out, env),
        Breach::InRegion => push_after_tid(out, tid, " is in a critical region"),
        Breach::ExceptionPending { class } => push_pending(out, setup, tid, class),
        Breach::ForeignLocal { reference } => push_foreign(out, tid, reference),
        Breach::DeadReference { reference } => push_dead(out, tid, reference),
        Breach::OtherKind { reference } => push_other_kind(out, call, reference),
        Breach::NoObject { reference } => push_no_object(out, tid, reference),
        Breach::OtherType {
            reference,
            wanted,
            class,
        } => push_other_type(out, setup, reference, wanted, class),
        Breach::NoField { field, .. } => push_no_field(out, field),
        Breach::FieldOfOtherType { field, wanted, .. } => {
            push_field_of_type(out, setup, call, field, wanted)
        }
        Breach::FieldOfOtherClass {
            reference,
            field,
            class,
        } => push_field_of_class(out, setup, reference, field, class),
        Breach::NotOpen { buffer } => push_after_buffer(out, buffer, " is not open"),
        Breach::LentOtherwise { buffer, family } => push_lent_otherwise(out, call, buffer, family),
        Breach::OfOtherObject {
            buffer,
            reference,
            class,
        } => push_other_object(out, setup, buffer, reference, class),
        Breach::OfOtherThread { buffer } => push_other_thread(out, tid, buffer),
        Breach::OfString { buffer } => {
            push_after_buffer(out, buffer, " is a string's, which may not be written")
        }
        Breach::OutOfRange {
            argument,
            value,
            least,
            most,
        } => push_out_of_range(out, argument, value, least, most),
        Breach::ItemOutOfRange {
            place,
            value,
            least,
            most,
        } => push_item(out, place, value, least, most),
        Breach::TooLong { length } => push_too_long(out, length),
        Breach::NotModifiedUtf8 => out.push_str("the bytes are no modified UTF-8"),
        Breach::NoClass => push_no_class(out, call),
        Breach::NoItem {
            buffer,
            index,
            length,
        } => push_no_item(out, buffer, index, length),
        Breach::PinnedReference { reference } => {
            push_after_ref(out, reference, " has a critical buffer open")
        }
        Breach::NotOwner { class, owner, .. } => push_not_owner(out, setup, class, owner),
        Breach::NoFrame => push_after_tid(out, tid, " has no frame to pop"),
        Breach::NotInNative => push_after_tid(out, tid, " is in no native method"),
        Breach::StillInNative => push_after_tid(out, tid, " is in a native method"),
        Breach::AccessRefused { class, operation } => push_refused(out, setup, class, operation),
        Breach::NoNative { class } => push_no_native(out, setup, call, class),
        Breach::NotLinked { class, .. } => push_not_linked(out, setup, call, class),
        Breach::Unbroken => Ok(()),
    }
}
