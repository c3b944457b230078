//! The operands of the question that a call is, as its function's row takes them.

ghost use Rattle.std.specs.Prelude.{◌≡◌, ◌≤◌, ◌++◌, [], ◌∷◌, not, length, take, OnOk};
ghost use Rattle.std.specs.List.{list_all};
ghost use Rattle.std.specs.Option.{is_some};
ghost use Rattle.jg_words.specs.declared.object.Primitive.TheVariants.{Char};
ghost use Rattle.jg_table_heap.specs.Reading.{decoded};
ghost use Rattle.jg_rules.specs.Numbers.{is_value_of};
ghost use Rattle.jg_rules.specs.Parts.{Parts};
ghost use Rattle.jg_rules.specs.Rules.{field_of_another};
ghost use Rattle.jg_rules.specs.View.{ViewStands};
ghost use Rattle.jg_judge.specs.declared.argument.Argument.TheVariants.{Id, List as ListOf, Native};
ghost use Rattle.jg_judge.specs.Listed.{listed};
ghost use Rattle.jg_judge.specs.Written as written;
ghost use Rattle.jg_rules.specs.Names as names_of;

use crate::argument::Argument;
use Argument::{Buffer, Class, Number, Reference, Value};
use Arguments::{Empty, One, Three, Two};
use jg_rules::{View, all_fit, class_meant, is_field_of_another, native_meant};
use jg_table_heap::is_mutf8;
use jg_words::{
    ArraysCall, BuffersCall, Call, ExceptionsCall, FieldId, FramesCall, Items, MonitorsCall, Name,
    ObjectsCall, Primitive, Ref, RefsCall, StringsCall, Tid, VmCall,
};
use std::alloc::{AllocError, Allocator};

/// The operands of a call, of which there are three at the most.
#[derive(Clone, Copy)]
pub enum Arguments {
    Empty,
    One(Argument),
    Two(Argument, Argument),
    Three(Argument, Argument, Argument),
}

/// A native method of the class.
fn native_of<A: Allocator + Clone>(
    view: &View<'_, A>,
    class: Option<u32>,
    method: &Name,
    signature: &Name,
) -> Argument
    ensures { result ≡ Native (names_of.native_meant view.now.setup.now class method.now signature.now) }
{
    Argument::Native(native_meant(view.setup, class, method, signature))
}

/// Room for the operands of a call.
pub(crate) type Room = [Argument; 3];

/// Room that is empty: what stands in it isn't read.
pub(crate) const ROOM: Room = [Argument::Reference(Ref::Null); 3];

#[inline(always)]
fn one(out: &mut Room, first: Argument) -> usize
    ensures few { result ≤ 3 }
    ensures listed { take result out.new ≡ first ∷ [] }
{
    out[0] = first;
    1
}

#[inline(always)]
fn two(out: &mut Room, first: Argument, second: Argument) -> usize
    ensures few { result ≤ 3 }
    ensures listed { take result out.new ≡ first ∷ second ∷ [] }
{
    out[0] = first;
    out[1] = second;
    2
}

#[inline(always)]
fn three(out: &mut Room, first: Argument, second: Argument, third: Argument) -> usize
    ensures few { result ≤ 3 }
    ensures listed { take result out.new ≡ first ∷ second ∷ third ∷ [] }
{
    out[0] = first;
    out[1] = second;
    out[2] = third;
    3
}

#[inline(always)]
fn vm_arguments<A: Allocator + Clone>(
    view: &View<'_, A>,
    tid: Tid,
    call: &VmCall,
    out: &mut Room,
) -> usize
    ensures few { result ≤ 3 }
    ensures listed { (p : Parts) → ViewStands view.now p
        → take result out.new ≡ written.vm_arguments view.now.setup.now p tid.0 call.now }
{
    match call {
        VmCall::AttachCurrentThread => 0,
        VmCall::DetachCurrentThread => 0,
        VmCall::GetEnv => 0,
        VmCall::NativeEnter {
            class,
            method,
            signature,
        } => {
            let class = view.setup.class_named(class);
            let native = native_of(view, class, method, signature);
            two(out, Class(class), native)
        }
        VmCall::NativeLeave { kept } => one(out, Reference(*kept)),
        VmCall::LoadLibrary { class, .. } => {
            let class = view.setup.class_named(class);
            two(out, Class(class), Argument::Name)
        }
        VmCall::RegisterNatives {
            class,
            method,
            signature,
        } => {
            let native = native_of(view, class_meant(view, tid, *class), method, signature);
            two(out, Reference(*class), native)
        }
        VmCall::UnregisterNatives { class } => one(out, Reference(*class)),
        VmCall::Collect => 0,
    }
}

#[inline(always)]
fn refs_arguments(call: &RefsCall, out: &mut Room) -> usize
    ensures few { result ≤ 3 }
    ensures listed { take result out.new ≡ written.refs_arguments call.now }
{
    match call {
        RefsCall::NewLocalRef { of } => one(out, Reference(*of)),
        RefsCall::NewGlobalRef { of } => one(out, Reference(*of)),
        RefsCall::NewWeakGlobalRef { of } => one(out, Reference(*of)),
        RefsCall::DeleteLocalRef { of } => one(out, Reference(*of)),
        RefsCall::DeleteGlobalRef { of } => one(out, Reference(*of)),
        RefsCall::DeleteWeakGlobalRef { of } => one(out, Reference(*of)),
        RefsCall::IsSameObject { first, second } => two(out, Reference(*first), Reference(*second)),
        RefsCall::GetObjectRefType { of } => one(out, Reference(*of)),
    }
}

#[inline(always)]
fn frames_arguments(call: &FramesCall, out: &mut Room) -> usize
    ensures few { result ≤ 3 }
    ensures listed { take result out.new ≡ written.frames_arguments call.now }
{
    match call {
        FramesCall::PushLocalFrame { capacity } => one(out, Number(*capacity)),
        FramesCall::PopLocalFrame { kept } => one(out, Reference(*kept)),
        FramesCall::EnsureLocalCapacity { capacity } => one(out, Number(*capacity)),
    }
}

#[inline(always)]
fn exceptions_arguments(call: &ExceptionsCall, out: &mut Room) -> usize
    ensures few { result ≤ 3 }
    ensures listed { take result out.new ≡ written.exceptions_arguments call.now }
{
    match call {
        ExceptionsCall::Throw { exception } => one(out, Reference(*exception)),
        ExceptionsCall::ExceptionOccurred => 0,
        ExceptionsCall::ExceptionDescribe => 0,
        ExceptionsCall::ExceptionClear => 0,
        ExceptionsCall::ExceptionCheck => 0,
    }
}

/// The ID of a field, which fits where it is a field of the object's class and of the wanted type.
fn field_id<A: Allocator + Clone>(
    view: &View<'_, A>,
    tid: Tid,
    wanted: Option<Primitive>,
    object: Ref,
    field: FieldId,
) -> Argument
    ensures { (p : Parts) → ViewStands view.now p
        → result ≡ Id (not (field_of_another view.now.setup.now p tid.0 wanted object field)) }
{
    Argument::Id {
        fits: !is_field_of_another(view, tid, wanted, object, field),
    }
}

#[inline(always)]
fn objects_arguments<A: Allocator + Clone>(
    view: &View<'_, A>,
    tid: Tid,
    call: &ObjectsCall,
    out: &mut Room,
) -> usize
    ensures few { result ≤ 3 }
    ensures listed { (p : Parts) → ViewStands view.now p
        → take result out.new ≡ written.objects_arguments view.now.setup.now p tid.0 call.now }
{
    match call {
        ObjectsCall::FindClass { .. } => one(out, Argument::Name),
        ObjectsCall::GetObjectClass { object } => one(out, Reference(*object)),
        ObjectsCall::IsInstanceOf { object, class } => two(
            out,
            Reference(*object),
            Reference(*class),
        ),
        ObjectsCall::AllocObject { class } => one(out, Reference(*class)),
        ObjectsCall::GetFieldID { class, .. } => three(
            out,
            Reference(*class),
            Argument::Name,
            Argument::Name,
        ),
        ObjectsCall::GetField {
            primitive,
            object,
            field,
        } => {
            let id = field_id(view, tid, Some(*primitive), *object, *field);
            two(out, Reference(*object), id)
        }
        ObjectsCall::GetObjectField { object, field } => {
            let id = field_id(view, tid, None, *object, *field);
            two(out, Reference(*object), id)
        }
        ObjectsCall::SetField {
            primitive,
            object,
            field,
            value,
        } => {
            let id = field_id(view, tid, Some(*primitive), *object, *field);
            three(out, Reference(*object), id, Value(*value))
        }
        ObjectsCall::SetObjectField {
            object,
            field,
            value,
        } => {
            let id = field_id(view, tid, None, *object, *field);
            three(out, Reference(*object), id, Reference(*value))
        }
    }
}

/// A list of items, which fits where each is of the type.
fn items_of(element: Primitive, items: &Items) -> Argument
    ensures { result ≡ ListOf (length items.now) (list_all (is_value_of element) items.now) }
{
    let items = items.as_slice();
    Argument::List {
        count: items.len() as u64,
        fits: all_fit(element, items),
    }
}

/// A list of bytes, which fits where they spell a string in modified UTF-8.
fn bytes_of(bytes: &Items) -> Argument
    ensures { result ≡ ListOf (length bytes.now) (is_some (decoded bytes.now)) }
{
    let bytes = bytes.as_slice();
    Argument::List {
        count: bytes.len() as u64,
        fits: is_mutf8(bytes),
    }
}

#[inline(always)]
fn strings_arguments(call: &StringsCall, out: &mut Room) -> usize
    ensures few { result ≤ 3 }
    ensures listed { take result out.new ≡ written.strings_arguments call.now }
{
    match call {
        StringsCall::NewString { units } => one(out, items_of(Primitive::Char, units)),
        StringsCall::NewStringUTF { bytes } => one(out, bytes_of(bytes)),
        StringsCall::GetStringLength { string } => one(out, Reference(*string)),
        StringsCall::GetStringUTFLength { string } => one(out, Reference(*string)),
        StringsCall::GetStringRegion {
            string,
            start,
            length,
        } => three(out, Reference(*string), Number(*start), Number(*length)),
    }
}

#[inline(always)]
fn arrays_arguments(call: &ArraysCall, out: &mut Room) -> usize
    ensures few { result ≤ 3 }
    ensures listed { take result out.new ≡ written.arrays_arguments call.now }
{
    match call {
        ArraysCall::NewArray { length, .. } => one(out, Number(*length)),
        ArraysCall::GetArrayLength { array } => one(out, Reference(*array)),
        ArraysCall::GetArrayRegion {
            array,
            start,
            length,
            ..
        } => three(out, Reference(*array), Number(*start), Number(*length)),
        ArraysCall::SetArrayRegion {
            element,
            array,
            start,
            values,
        } => {
            let values = items_of(*element, values);
            three(out, Reference(*array), Number(*start), values)
        }
        ArraysCall::NewObjectArray {
            length,
            class,
            fill,
        } => three(out, Number(*length), Reference(*class), Reference(*fill)),
        ArraysCall::GetObjectArrayElement { array, index } => two(
            out,
            Reference(*array),
            Number(*index),
        ),
        ArraysCall::SetObjectArrayElement {
            array,
            index,
            value,
        } => three(out, Reference(*array), Number(*index), Reference(*value)),
    }
}

#[inline(always)]
fn monitors_arguments(call: &MonitorsCall, out: &mut Room) -> usize
    ensures few { result ≤ 3 }
    ensures listed { take result out.new ≡ written.monitors_arguments call.now }
{
    match call {
        MonitorsCall::MonitorEnter { of } => one(out, Reference(*of)),
        MonitorsCall::MonitorExit { of } => one(out, Reference(*of)),
    }
}

#[inline(always)]
fn buffers_arguments(call: &BuffersCall, out: &mut Room) -> usize
    ensures few { result ≤ 3 }
    ensures listed { take result out.new ≡ written.buffers_arguments call.now }
{
    match call {
        BuffersCall::GetArrayElements { array, .. } => one(out, Reference(*array)),
        BuffersCall::ReleaseArrayElements {
            array,
            buffer,
            mode,
            ..
        } => three(out, Reference(*array), Buffer(*buffer), Number(*mode)),
        BuffersCall::GetStringChars { string } => one(out, Reference(*string)),
        BuffersCall::ReleaseStringChars { string, buffer } => two(
            out,
            Reference(*string),
            Buffer(*buffer),
        ),
        BuffersCall::GetStringUTFChars { string } => one(out, Reference(*string)),
        BuffersCall::ReleaseStringUTFChars { string, buffer } => two(
            out,
            Reference(*string),
            Buffer(*buffer),
        ),
        BuffersCall::GetPrimitiveArrayCritical { array } => one(out, Reference(*array)),
        BuffersCall::ReleasePrimitiveArrayCritical {
            array,
            buffer,
            mode,
        } => three(out, Reference(*array), Buffer(*buffer), Number(*mode)),
        BuffersCall::GetStringCritical { string } => one(out, Reference(*string)),
        BuffersCall::ReleaseStringCritical { string, buffer } => two(
            out,
            Reference(*string),
            Buffer(*buffer),
        ),
        BuffersCall::BufferRead { buffer, index } => two(out, Buffer(*buffer), Number(*index)),
        BuffersCall::BufferWrite {
            buffer,
            index,
            value,
        } => three(out, Buffer(*buffer), Number(*index), Value(*value)),
    }
}

/// Puts the operands of the question that the call is into the room, and answers how many they are.
#[inline(always)]
pub(crate) fn list_arguments<A: Allocator + Clone>(
    view: &View<'_, A>,
    tid: Tid,
    call: &Call,
    out: &mut Room,
) -> usize
    ensures few { result ≤ 3 }
    ensures listed { (p : Parts) → ViewStands view.now p
        → take result out.new ≡ written.arguments_of view.now.setup.now p tid.0 call.now }
{
    match call {
        Call::Vm(call) => vm_arguments(view, tid, call, out),
        Call::Refs(call) => refs_arguments(call, out),
        Call::Frames(call) => frames_arguments(call, out),
        Call::Exceptions(call) => exceptions_arguments(call, out),
        Call::Objects(call) => objects_arguments(view, tid, call, out),
        Call::Strings(call) => strings_arguments(call, out),
        Call::Arrays(call) => arrays_arguments(call, out),
        Call::Monitors(call) => monitors_arguments(call, out),
        Call::Buffers(call) => buffers_arguments(call, out),
    }
}

/// The operands of the question that the call is.
pub fn arguments_of<A: Allocator + Clone>(view: &View<'_, A>, tid: Tid, call: &Call) -> Arguments
    ensures { (p : Parts) → ViewStands view.now p
        → listed result ≡ written.arguments_of view.now.setup.now p tid.0 call.now }
{
    let mut room = ROOM;
    match list_arguments(view, tid, call, &mut room) {
        0 => Empty,
        1 => One(room[0]),
        2 => Two(room[0], room[1]),
        _ => Three(room[0], room[1], room[2]),
    }
}

/// Adds the operands of the question that the call is, as the tables are now. Fails only for want of memory.
pub fn push_arguments<A: Allocator + Clone>(
    view: &View<'_, A>,
    tid: Tid,
    call: &Call,
    out: &mut Vec<Argument>,
) -> Result<(), AllocError>
    ensures { OnOk result ((p : Parts) → ViewStands view.now p
        → out.new.items ≡ out.old.items ++ written.arguments_of view.now.setup.now p tid.0 call.now) }
{
    let mut room = ROOM;
    let count = list_arguments(view, tid, call, &mut room);
    out.extend_from_slice(&room[..count])?;
    Ok(())
}
