//! Rule 11: which part of it a call breaks.

ghost use Rattle.std.specs.Prelude.{◌≡◌, Some};
ghost use Rattle.jg_rules.specs.Parts.{Parts};
ghost use Rattle.jg_rules.specs.View.{ViewStands};
ghost use Rattle.jg_breaches.specs.Breaches as breaches;

use crate::breach::Breach;
use jg_rules::{
    View, buffer_named, class_of, is_anothers, is_of_array, is_of_family, is_of_object,
    object_named,
};
use jg_table_buffers::{Family, Info};
use jg_words::{BufId, BuffersCall, Call, ItemType, Ref, Tid};
use std::alloc::Allocator;

fn of_release<A: Allocator + Clone>(
    view: &View<'_, A>,
    tid: Tid,
    family: Family,
    reference: Ref,
    buffer: BufId,
    info: Info,
) -> Breach
    ensures { (p : Parts) → ViewStands view.now p → result
        ≡ breaches.of_release view.now.setup.now p tid.0 family reference buffer (Some info) }
{
    if !is_of_family(family, info) {
        Breach::LentOtherwise {
            buffer,
            family: info.family,
        }
    } else if !is_of_object(object_named(view, tid, reference), info) {
        Breach::OfOtherObject {
            buffer,
            reference,
            class: class_of(view, info.object),
        }
    } else if is_anothers(tid, info) {
        Breach::OfOtherThread { buffer }
    } else {
        Breach::Unbroken
    }
}

fn release_breach<A: Allocator + Clone>(
    view: &View<'_, A>,
    tid: Tid,
    family: Family,
    reference: Ref,
    buffer: BufId,
) -> Breach
    ensures { (p : Parts) → ViewStands view.now p → result
        ≡ breaches.release_breach view.now.setup.now p tid.0 family reference buffer }
{
    match buffer_named(view, buffer) {
        None => Breach::NotOpen { buffer },
        Some(info) => of_release(view, tid, family, reference, buffer, info),
    }
}

fn reading_breach(tid: Tid, buffer: BufId, found: Option<Info>) -> Breach
    ensures { result ≡ breaches.of_reading tid.0 buffer found }
{
    match found {
        None => Breach::NotOpen { buffer },
        Some(info) => {
            if is_anothers(tid, info) {
                Breach::OfOtherThread { buffer }
            } else {
                Breach::Unbroken
            }
        }
    }
}

fn writing_breach(tid: Tid, buffer: BufId, found: Option<Info>) -> Breach
    ensures { result ≡ breaches.of_writing tid.0 buffer found }
{
    match found {
        None => Breach::NotOpen { buffer },
        Some(info) => {
            if !is_of_array(info.family) {
                Breach::OfString { buffer }
            } else if is_anothers(tid, info) {
                Breach::OfOtherThread { buffer }
            } else {
                Breach::Unbroken
            }
        }
    }
}

fn buffers_breach<A: Allocator + Clone>(view: &View<'_, A>, tid: Tid, call: &BuffersCall) -> Breach
    ensures { (p : Parts) → ViewStands view.now p
        → result ≡ breaches.buffers_buffer_breach view.now.setup.now p tid.0 call.now }
{
    match call {
        BuffersCall::GetArrayElements { .. } => Breach::Unbroken,
        BuffersCall::ReleaseArrayElements {
            element,
            array,
            buffer,
            ..
        } => release_breach(
            view,
            tid,
            Family::Elements(ItemType::Of(*element)),
            *array,
            *buffer,
        ),
        BuffersCall::GetStringChars { .. } => Breach::Unbroken,
        BuffersCall::ReleaseStringChars { string, buffer } => {
            release_breach(view, tid, Family::Chars, *string, *buffer)
        }
        BuffersCall::GetStringUTFChars { .. } => Breach::Unbroken,
        BuffersCall::ReleaseStringUTFChars { string, buffer } => {
            release_breach(view, tid, Family::UtfChars, *string, *buffer)
        }
        BuffersCall::GetPrimitiveArrayCritical { .. } => Breach::Unbroken,
        BuffersCall::ReleasePrimitiveArrayCritical { array, buffer, .. } => {
            release_breach(view, tid, Family::ArrayCritical, *array, *buffer)
        }
        BuffersCall::GetStringCritical { .. } => Breach::Unbroken,
        BuffersCall::ReleaseStringCritical { string, buffer } => {
            release_breach(view, tid, Family::StringCritical, *string, *buffer)
        }
        BuffersCall::BufferRead { buffer, .. } => {
            reading_breach(tid, *buffer, buffer_named(view, *buffer))
        }
        BuffersCall::BufferWrite { buffer, .. } => {
            writing_breach(tid, *buffer, buffer_named(view, *buffer))
        }
    }
}

/// In which way a call breaks rule 11.
pub(crate) fn bad_buffer_breach<A: Allocator + Clone>(
    view: &View<'_, A>,
    tid: Tid,
    call: &Call,
) -> Breach
    ensures { (p : Parts) → ViewStands view.now p
        → result ≡ breaches.bad_buffer_breach view.now.setup.now p tid.0 call.now }
{
    match call {
        Call::Buffers(call) => buffers_breach(view, tid, call),
        _ => Breach::Unbroken,
    }
}
