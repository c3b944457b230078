//! What a call does of its own, as facts, by groups.

ghost use Rattle.std.specs.Prelude.{◌≡◌, ℕ, [], length, Some, IfOk, option_to_list};
ghost use Rattle.std.specs.Option.{unwrap_or};
ghost use Rattle.jg_words.specs.declared.thread.Tid.{Tid as TidOf};
ghost use Rattle.jg_words.specs.declared.call.Call.TheVariants.{Exceptions, Frames, Monitors, Refs, Vm};
ghost use Rattle.jg_words.specs.declared.call.vm.VmCall.TheVariants.{RegisterNatives};
ghost use Rattle.jg_table_heap.specs.Reading as reading;
ghost use Rattle.jg_policy.specs.Stated.{StatedSetup};
ghost use Rattle.jg_policy.specs.Classes.{class_at, fields_in};
ghost use Rattle.jg_rules.specs.Parts.{Parts};
ghost use Rattle.jg_rules.specs.View.{ViewStands};
ghost use Rattle.jg_rules.specs.Effects as effects;
ghost use Rattle.jg_core.specs.declared.fact.Fact.TheVariants.{Lend, Meet};
ghost use Rattle.jg_entry_facts_laws.specs.Entries as entries;
ghost use Rattle.jg_entry_facts.specs.declared.own.Own.TheVariants.{AtMost};
ghost use Rattle.jg_entry_facts.specs.Foreseen.{DoesOwn};

use jg_core::Fact;
use jg_policy::Setup;
use jg_rules::{View, class_meant, length_of, native_meant, the_object, units_of};
use jg_table_buffers::Family;
use jg_table_heap::{from_mutf8_items, mutf8_len, natural};
use jg_words::{
    ArraysCall, BufId, BuffersCall, Call, ExceptionsCall, FramesCall, ItemType, Items,
    MonitorsCall, Name, OBJECT_ARRAY_CLASS, ObjId, ObjectsCall, Ref, RefsCall, STRING_CLASS,
    StringsCall, Tid, VmCall,
};
use std::alloc::{AllocError, Allocator};

/// What a call does of its own.
#[derive(Clone, Copy)]
pub(crate) enum Own {
    /// This, if anything.
    AtMost(Option<Fact>),
    /// It leaves a native method, and what was pending stays so.
    Leaves(Option<ObjId>),
    /// It pops a frame.
    Pops,
    /// It lets objects go.
    Collects,
}

/// The number in 32 bits, as facts have it. No object that fits a machine's memory has so many items that it doesn't
/// fit.
fn narrow(number: u64) -> Result<u32, AllocError>
    ensures { IfOk result (λ narrowed. narrowed ≡ number) }
{
    match u32::try_from(number) {
        Ok(narrowed) => Ok(narrowed),
        Err(_) => Err(AllocError),
    }
}

fn beginning(is_attached: bool, tid: Tid) -> Option<Fact>
    ensures { option_to_list result ≡ entries.begin_facts is_attached tid }
{
    if is_attached {
        None
    } else {
        Some(Fact::Begin(tid))
    }
}

fn ending(is_attached: bool, tid: Tid) -> Option<Fact>
    ensures { option_to_list result ≡ entries.end_facts is_attached tid }
{
    if is_attached {
        Some(Fact::End(tid))
    } else {
        None
    }
}

fn linking(class: Option<u32>, native: Option<u32>) -> Option<Fact>
    ensures { option_to_list result ≡ entries.link_facts (effects.linking class native) }
{
    match class {
        None => None,
        Some(class) => match native {
            None => None,
            Some(native) => Some(Fact::Link { class, native }),
        },
    }
}

fn registering<A: Allocator + Clone>(
    view: &View<'_, A>,
    tid: Tid,
    class: Ref,
    method: &Name,
    signature: &Name,
) -> Option<Fact>
    ensures { (p : Parts) → ViewStands view.now p → option_to_list result ≡ entries.link_facts
        (effects.vm_links view.now.setup.now p tid.0 (RegisterNatives class method.now signature.now)) }
{
    let class = class_meant(view, tid, class);
    linking(class, native_meant(view.setup, class, method, signature))
}

fn unlinking(class: Option<u32>) -> Option<Fact>
    ensures { option_to_list result ≡ entries.link_facts (effects.unlinking class) }
{
    match class {
        None => None,
        Some(class) => Some(Fact::Unlink(class)),
    }
}

fn own_of_vm<A: Allocator + Clone>(view: &View<'_, A>, tid: Tid, call: &VmCall) -> Own
    ensures { (p : Parts) → ViewStands view.now p → DoesOwn view.now.setup.now p tid (Vm call.now) result }
{
    match call {
        VmCall::AttachCurrentThread => Own::AtMost(beginning(view.threads.is_attached(tid), tid)),
        VmCall::DetachCurrentThread => Own::AtMost(ending(view.threads.is_attached(tid), tid)),
        VmCall::GetEnv => Own::AtMost(None),
        VmCall::NativeEnter { .. } => Own::AtMost(Some(Fact::Enter(tid))),
        VmCall::NativeLeave { .. } => Own::Leaves(view.threads.pending(tid)),
        VmCall::LoadLibrary { .. } => Own::AtMost(None),
        VmCall::RegisterNatives {
            class,
            method,
            signature,
        } => Own::AtMost(registering(view, tid, *class, method, signature)),
        VmCall::UnregisterNatives { class } => {
            Own::AtMost(unlinking(class_meant(view, tid, *class)))
        }
        VmCall::Collect => Own::Collects,
    }
}

fn losing(reference: Ref) -> Option<Fact>
    ensures { option_to_list result ≡ entries.lost_facts reference }
{
    match reference {
        Ref::Null => None,
        Ref::To { .. } => Some(Fact::Lost(reference)),
    }
}

fn own_of_refs(call: &RefsCall) -> Option<Fact>
    ensures { (s : StatedSetup) (p : Parts) (t : TidOf) → DoesOwn s p t (Refs call.now) (AtMost result) }
{
    match call {
        RefsCall::NewLocalRef { .. } => None,
        RefsCall::NewGlobalRef { .. } => None,
        RefsCall::NewWeakGlobalRef { .. } => None,
        RefsCall::DeleteLocalRef { of } => losing(*of),
        RefsCall::DeleteGlobalRef { of } => losing(*of),
        RefsCall::DeleteWeakGlobalRef { of } => losing(*of),
        RefsCall::IsSameObject { .. } => None,
        RefsCall::GetObjectRefType { .. } => None,
    }
}

fn own_of_frames(tid: Tid, call: &FramesCall) -> Own
    ensures { (s : StatedSetup) (p : Parts) → DoesOwn s p tid (Frames call.now) result }
{
    match call {
        FramesCall::PushLocalFrame { capacity } => {
            let room = natural(*capacity);
            Own::AtMost(Some(Fact::Push { tid, room }))
        }
        FramesCall::PopLocalFrame { .. } => Own::Pops,
        FramesCall::EnsureLocalCapacity { capacity } => {
            let room = natural(*capacity);
            Own::AtMost(Some(Fact::Ensure { tid, room }))
        }
    }
}

fn own_of_exceptions(tid: Tid, call: &ExceptionsCall) -> Option<Fact>
    ensures { (s : StatedSetup) (p : Parts) → DoesOwn s p tid (Exceptions call.now) (AtMost result) }
{
    match call {
        ExceptionsCall::Throw { .. } => None,
        ExceptionsCall::ExceptionOccurred => None,
        ExceptionsCall::ExceptionDescribe => Some(Fact::Calm(tid)),
        ExceptionsCall::ExceptionClear => Some(Fact::Calm(tid)),
        ExceptionsCall::ExceptionCheck => None,
    }
}

/// An instance is made of the class whose class object this is.
fn making_instance(setup: &Setup, class: ObjId) -> Result<Option<Fact>, AllocError>
    ensures { IfOk result (λ fact. fact ≡ Some (Meet class.0 (length (fields_in (class_at setup.now class.0))))) }
{
    let class = narrow(class.0)?;
    Ok(Some(Fact::Meet {
        class,
        length: setup.field_count(class),
    }))
}

fn own_of_objects<A: Allocator + Clone>(
    view: &View<'_, A>,
    tid: Tid,
    call: &ObjectsCall,
) -> Result<Option<Fact>, AllocError>
    ensures { IfOk result (λ fact. (p : Parts) → ViewStands view.now p → option_to_list fact
        ≡ entries.object_facts (effects.objects_heap view.now.setup.now p tid.0 call.now)) }
{
    match call {
        ObjectsCall::FindClass { .. } => Ok(None),
        ObjectsCall::GetObjectClass { .. } => Ok(None),
        ObjectsCall::IsInstanceOf { .. } => Ok(None),
        ObjectsCall::AllocObject { class } => {
            let made = making_instance(view.setup, the_object(view, tid, *class))?;
            Ok(made)
        }
        ObjectsCall::GetFieldID { .. } => Ok(None),
        ObjectsCall::GetField { .. } => Ok(None),
        ObjectsCall::GetObjectField { .. } => Ok(None),
        ObjectsCall::SetField { .. } => Ok(None),
        ObjectsCall::SetObjectField { .. } => Ok(None),
    }
}

fn making_string(length: u64) -> Result<Option<Fact>, AllocError>
    ensures { IfOk result (λ fact. fact ≡ Some (Meet 2 length)) }
{
    let length = narrow(length)?;
    Ok(Some(Fact::Meet {
        class: STRING_CLASS,
        length,
    }))
}

/// How many units the bytes spell; none where they spell no string.
fn units_spelt<A: Allocator>(alloc: A, bytes: &Items) -> Result<u64, AllocError>
    ensures { IfOk result (λ count. count ≡ length (unwrap_or (reading.decoded bytes.now) [])) }
{
    match from_mutf8_items(alloc, bytes.as_slice())? {
        None => Ok(0),
        Some(units) => Ok(units.len() as u64),
    }
}

fn own_of_strings<A: Allocator>(alloc: A, call: &StringsCall) -> Result<Option<Fact>, AllocError>
    ensures { IfOk result (λ fact. option_to_list fact ≡ entries.object_facts (effects.strings_heap call.now)) }
{
    match call {
        StringsCall::NewString { units } => {
            let made = making_string(units.as_slice().len() as u64)?;
            Ok(made)
        }
        StringsCall::NewStringUTF { bytes } => {
            let made = making_string(units_spelt(alloc, bytes)?)?;
            Ok(made)
        }
        StringsCall::GetStringLength { .. } => Ok(None),
        StringsCall::GetStringUTFLength { .. } => Ok(None),
        StringsCall::GetStringRegion { .. } => Ok(None),
    }
}

fn own_of_arrays(call: &ArraysCall) -> Option<Fact>
    ensures { (p : Parts) (t : ℕ) → option_to_list result
        ≡ entries.object_facts (effects.arrays_heap p t call.now) }
{
    match call {
        ArraysCall::NewArray { element, length } => Some(Fact::Meet {
            class: element.array_class(),
            length: natural(*length),
        }),
        ArraysCall::GetArrayLength { .. } => None,
        ArraysCall::GetArrayRegion { .. } => None,
        ArraysCall::SetArrayRegion { .. } => None,
        ArraysCall::NewObjectArray { length, .. } => Some(Fact::Meet {
            class: OBJECT_ARRAY_CLASS,
            length: natural(*length),
        }),
        ArraysCall::GetObjectArrayElement { .. } => None,
        ArraysCall::SetObjectArrayElement { .. } => None,
    }
}

fn own_of_monitors<A: Allocator + Clone>(
    view: &View<'_, A>,
    tid: Tid,
    call: &MonitorsCall,
) -> Option<Fact>
    ensures { (p : Parts) → ViewStands view.now p
        → DoesOwn view.now.setup.now p tid (Monitors call.now) (AtMost result) }
{
    match call {
        MonitorsCall::MonitorEnter { of } => {
            let object = the_object(view, tid, *of);
            Some(Fact::Own { tid, object })
        }
        MonitorsCall::MonitorExit { of } => {
            let object = the_object(view, tid, *of);
            Some(Fact::Free { tid, object })
        }
    }
}

/// A copy or a pinned buffer of so many items is lent; a copy through no reference.
fn lending(
    tid: Tid,
    family: Family,
    object: ObjId,
    via: Ref,
    length: usize,
) -> Result<Option<Fact>, AllocError>
    ensures { IfOk result (λ fact. fact ≡ Some (Lend tid family object via length)) }
{
    let length = narrow(length as u64)?;
    Ok(Some(Fact::Lend {
        tid,
        family,
        object,
        via,
        length,
    }))
}

/// The buffer is given back, unless by `JNI_COMMIT`.
fn giving_back(mode: i32, buffer: BufId) -> Option<Fact>
    ensures { (t : TidOf) → option_to_list result ≡ entries.buffer_facts t (effects.closed_by mode buffer) }
{
    if natural(mode) == 1 {
        None
    } else {
        Some(Fact::Back(buffer))
    }
}

fn own_of_buffers<A: Allocator + Clone>(
    view: &View<'_, A>,
    tid: Tid,
    call: &BuffersCall,
) -> Result<Option<Fact>, AllocError>
    ensures { IfOk result (λ fact. (p : Parts) → ViewStands view.now p → option_to_list fact
        ≡ entries.buffer_facts tid (effects.buffers_buffers view.now.setup.now p tid.0 call.now)) }
{
    match call {
        BuffersCall::GetArrayElements { element, array } => {
            let object = the_object(view, tid, *array);
            let family = Family::Elements(ItemType::Of(*element));
            let lent = lending(tid, family, object, Ref::Null, length_of(view, object))?;
            Ok(lent)
        }
        BuffersCall::ReleaseArrayElements { buffer, mode, .. } => Ok(giving_back(*mode, *buffer)),
        BuffersCall::GetStringChars { string } => {
            let object = the_object(view, tid, *string);
            let length = units_of(view, object).len();
            let lent = lending(tid, Family::Chars, object, Ref::Null, length)?;
            Ok(lent)
        }
        BuffersCall::ReleaseStringChars { buffer, .. } => Ok(Some(Fact::Back(*buffer))),
        BuffersCall::GetStringUTFChars { string } => {
            let object = the_object(view, tid, *string);
            let length = mutf8_len(units_of(view, object));
            let lent = lending(tid, Family::UtfChars, object, Ref::Null, length)?;
            Ok(lent)
        }
        BuffersCall::ReleaseStringUTFChars { buffer, .. } => Ok(Some(Fact::Back(*buffer))),
        BuffersCall::GetPrimitiveArrayCritical { array } => {
            let object = the_object(view, tid, *array);
            let length = length_of(view, object);
            let lent = lending(tid, Family::ArrayCritical, object, *array, length)?;
            Ok(lent)
        }
        BuffersCall::ReleasePrimitiveArrayCritical { buffer, mode, .. } => {
            Ok(giving_back(*mode, *buffer))
        }
        BuffersCall::GetStringCritical { string } => {
            let object = the_object(view, tid, *string);
            let length = units_of(view, object).len();
            let lent = lending(tid, Family::StringCritical, object, *string, length)?;
            Ok(lent)
        }
        BuffersCall::ReleaseStringCritical { buffer, .. } => Ok(Some(Fact::Back(*buffer))),
        BuffersCall::BufferRead { .. } => Ok(None),
        BuffersCall::BufferWrite { .. } => Ok(None),
    }
}

/// What the call does of its own, by the tables before it. Fails only for want of memory.
pub(crate) fn own_of<A: Allocator + Clone>(
    view: &View<'_, A>,
    alloc: A,
    tid: Tid,
    call: &Call,
) -> Result<Own, AllocError>
    ensures { IfOk result (λ own. (p : Parts) → ViewStands view.now p
        → DoesOwn view.now.setup.now p tid call.now own) }
{
    match call {
        Call::Vm(call) => Ok(own_of_vm(view, tid, call)),
        Call::Refs(call) => Ok(Own::AtMost(own_of_refs(call))),
        Call::Frames(call) => Ok(own_of_frames(tid, call)),
        Call::Exceptions(call) => Ok(Own::AtMost(own_of_exceptions(tid, call))),
        Call::Objects(call) => Ok(Own::AtMost(own_of_objects(view, tid, call)?)),
        Call::Strings(call) => Ok(Own::AtMost(own_of_strings(alloc, call)?)),
        Call::Arrays(call) => Ok(Own::AtMost(own_of_arrays(call))),
        Call::Monitors(call) => Ok(Own::AtMost(own_of_monitors(view, tid, call))),
        Call::Buffers(call) => Ok(Own::AtMost(own_of_buffers(view, tid, call)?)),
    }
}
