//! Rule 12: which argument of a call breaks it, and what its bounds are.

ghost use Rattle.std.specs.Prelude.{◌≡◌, pos};
ghost use Rattle.std.specs.List.{find, position};
ghost use Rattle.jg_rules.specs.Parts.{Parts};
ghost use Rattle.jg_rules.specs.View.{ViewStands};
ghost use Rattle.jg_breaches.specs.Breaches as breaches;
ghost use Rattle.jg_breaches.specs.Breaches.{misfits};

use crate::breach::{Argument, Breach};
use jg_rules::{View, buffer_named, fits, is_place, item_type};
use jg_table_buffers::Info;
use jg_words::{
    ArraysCall, BufId, BuffersCall, Call, FramesCall, ObjectsCall, Primitive, StringsCall, VmCall,
};
use std::alloc::Allocator;

fn least_of(primitive: Primitive) -> i64
    ensures { result ≡ breaches.least_of primitive }
{
    match primitive {
        Primitive::Boolean => 0,
        Primitive::Byte => -0x80,
        Primitive::Char => 0,
        Primitive::Short => -0x8000,
        Primitive::Int => -0x8000_0000,
        Primitive::Long => i64::MIN,
    }
}

fn most_of(primitive: Primitive) -> i64
    ensures { result ≡ breaches.most_of primitive }
{
    match primitive {
        Primitive::Boolean => 1,
        Primitive::Byte => 0x7F,
        Primitive::Char => 0xFFFF,
        Primitive::Short => 0x7FFF,
        Primitive::Int => 0x7FFF_FFFF,
        Primitive::Long => i64::MAX,
    }
}

fn value_breach(primitive: Primitive, value: i64) -> Breach
    ensures { result ≡ breaches.value_breach primitive value }
{
    Breach::OutOfRange {
        argument: Argument::Value,
        value,
        least: least_of(primitive),
        most: most_of(primitive),
    }
}

fn within(argument: Argument, value: i32, most: i64) -> Breach
    ensures { result ≡ Breach.OutOfRange argument value (pos 0) most }
{
    Breach::OutOfRange {
        argument,
        value: i64::from(value),
        least: 0,
        most,
    }
}

/// The place of the first item that isn't of the type.
fn place_of_misfit(element: Primitive, items: &[i64]) -> Option<usize>
    ensures { result ≡ position (misfits element) items.now }
{
    items.iter().position(|item| !fits(element, *item))
}

/// The first item that isn't of the type.
fn first_misfit(element: Primitive, items: &[i64]) -> Option<i64>
    ensures { result ≡ find (misfits element) items.now }
{
    items.iter().copied().find(|item| !fits(element, *item))
}

fn items_breach(element: Primitive, items: &[i64]) -> Breach
    ensures { result ≡ breaches.items_breach element items.now }
{
    match place_of_misfit(element, items) {
        None => Breach::Unbroken,
        Some(place) => match first_misfit(element, items) {
            None => Breach::Unbroken,
            Some(value) => Breach::ItemOutOfRange {
                place,
                value,
                least: least_of(element),
                most: most_of(element),
            },
        },
    }
}

fn of_vm(call: &VmCall) -> Breach
    ensures { result ≡ breaches.vm_argument_breach call.now }
{
    match call {
        VmCall::AttachCurrentThread => Breach::Unbroken,
        VmCall::DetachCurrentThread => Breach::Unbroken,
        VmCall::GetEnv => Breach::Unbroken,
        VmCall::NativeEnter { .. } => Breach::NoClass,
        VmCall::NativeLeave { .. } => Breach::Unbroken,
        VmCall::LoadLibrary { .. } => Breach::NoClass,
        VmCall::RegisterNatives { .. } => Breach::Unbroken,
        VmCall::UnregisterNatives { .. } => Breach::Unbroken,
        VmCall::Collect => Breach::Unbroken,
    }
}

fn of_frames(call: &FramesCall) -> Breach
    ensures { result ≡ breaches.frames_argument_breach call.now }
{
    match call {
        FramesCall::PushLocalFrame { capacity } => within(Argument::Capacity, *capacity, 65_535),
        FramesCall::PopLocalFrame { .. } => Breach::Unbroken,
        FramesCall::EnsureLocalCapacity { capacity } => {
            within(Argument::Capacity, *capacity, 65_535)
        }
    }
}

fn of_objects(call: &ObjectsCall) -> Breach
    ensures { result ≡ breaches.objects_argument_breach call.now }
{
    match call {
        ObjectsCall::FindClass { .. } => Breach::Unbroken,
        ObjectsCall::GetObjectClass { .. } => Breach::Unbroken,
        ObjectsCall::IsInstanceOf { .. } => Breach::Unbroken,
        ObjectsCall::AllocObject { .. } => Breach::Unbroken,
        ObjectsCall::GetFieldID { .. } => Breach::Unbroken,
        ObjectsCall::GetField { .. } => Breach::Unbroken,
        ObjectsCall::GetObjectField { .. } => Breach::Unbroken,
        ObjectsCall::SetField {
            primitive,
            value,
            ..
        } => value_breach(*primitive, *value),
        ObjectsCall::SetObjectField { .. } => Breach::Unbroken,
    }
}

fn of_strings(call: &StringsCall) -> Breach
    ensures { result ≡ breaches.strings_argument_breach call.now }
{
    match call {
        StringsCall::NewString { units } => items_breach(Primitive::Char, units.as_slice()),
        StringsCall::NewStringUTF { .. } => Breach::NotModifiedUtf8,
        StringsCall::GetStringLength { .. } => Breach::Unbroken,
        StringsCall::GetStringUTFLength { .. } => Breach::Unbroken,
        StringsCall::GetStringRegion { length, .. } => Breach::TooLong { length: *length },
    }
}

fn of_arrays(call: &ArraysCall) -> Breach
    ensures { result ≡ breaches.arrays_argument_breach call.now }
{
    match call {
        ArraysCall::NewArray { length, .. } => within(Argument::Length, *length, 1_000_000),
        ArraysCall::GetArrayLength { .. } => Breach::Unbroken,
        ArraysCall::GetArrayRegion { length, .. } => Breach::TooLong { length: *length },
        ArraysCall::SetArrayRegion {
            element,
            values,
            ..
        } => items_breach(*element, values.as_slice()),
        ArraysCall::NewObjectArray { length, .. } => within(Argument::Length, *length, 1_000_000),
        ArraysCall::GetObjectArrayElement { .. } => Breach::Unbroken,
        ArraysCall::SetObjectArrayElement { .. } => Breach::Unbroken,
    }
}

fn index_breach(buffer: BufId, index: i32, found: Option<Info>) -> Breach
    ensures { result ≡ breaches.of_index buffer index found }
{
    match found {
        None => Breach::Unbroken,
        Some(info) => Breach::NoItem {
            buffer,
            index,
            length: info.length,
        },
    }
}

fn typed_breach(value: i64, element: Option<Primitive>) -> Breach
    ensures { result ≡ breaches.of_item_type value element }
{
    match element {
        None => Breach::Unbroken,
        Some(element) => value_breach(element, value),
    }
}

fn item_breach<A: Allocator + Clone>(
    view: &View<'_, A>,
    buffer: BufId,
    index: i32,
    value: i64,
    found: Option<Info>,
) -> Breach
    ensures { (p : Parts) → ViewStands view.now p
        → result ≡ breaches.of_item view.now.setup.now p buffer index value found }
{
    match found {
        None => Breach::Unbroken,
        Some(info) => {
            if is_place(index, info.length) {
                typed_breach(value, item_type(view, info))
            } else {
                Breach::NoItem {
                    buffer,
                    index,
                    length: info.length,
                }
            }
        }
    }
}

fn of_buffers<A: Allocator + Clone>(view: &View<'_, A>, call: &BuffersCall) -> Breach
    ensures { (p : Parts) → ViewStands view.now p
        → result ≡ breaches.buffers_argument_breach view.now.setup.now p call.now }
{
    match call {
        BuffersCall::GetArrayElements { .. } => Breach::Unbroken,
        BuffersCall::ReleaseArrayElements { mode, .. } => within(Argument::Mode, *mode, 2),
        BuffersCall::GetStringChars { .. } => Breach::Unbroken,
        BuffersCall::ReleaseStringChars { .. } => Breach::Unbroken,
        BuffersCall::GetStringUTFChars { .. } => Breach::Unbroken,
        BuffersCall::ReleaseStringUTFChars { .. } => Breach::Unbroken,
        BuffersCall::GetPrimitiveArrayCritical { .. } => Breach::Unbroken,
        BuffersCall::ReleasePrimitiveArrayCritical { mode, .. } => within(Argument::Mode, *mode, 2),
        BuffersCall::GetStringCritical { .. } => Breach::Unbroken,
        BuffersCall::ReleaseStringCritical { .. } => Breach::Unbroken,
        BuffersCall::BufferRead { buffer, index } => {
            index_breach(*buffer, *index, buffer_named(view, *buffer))
        }
        BuffersCall::BufferWrite {
            buffer,
            index,
            value,
        } => item_breach(view, *buffer, *index, *value, buffer_named(view, *buffer)),
    }
}

/// In which way a call breaks rule 12.
pub(crate) fn argument_breach<A: Allocator + Clone>(view: &View<'_, A>, call: &Call) -> Breach
    ensures { (p : Parts) → ViewStands view.now p
        → result ≡ breaches.argument_breach view.now.setup.now p call.now }
{
    match call {
        Call::Vm(call) => of_vm(call),
        Call::Refs(_) => Breach::Unbroken,
        Call::Frames(call) => of_frames(call),
        Call::Exceptions(_) => Breach::Unbroken,
        Call::Objects(call) => of_objects(call),
        Call::Strings(call) => of_strings(call),
        Call::Arrays(call) => of_arrays(call),
        Call::Monitors(_) => Breach::Unbroken,
        Call::Buffers(call) => of_buffers(view, call),
    }
}
