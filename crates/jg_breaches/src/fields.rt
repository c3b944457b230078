//! Rule 10: which part of it a call breaks.

ghost use Rattle.std.specs.Prelude.{◌≡◌};
ghost use Rattle.std.specs.Option.{option_map};
ghost use Rattle.jg_rules.specs.Parts.{Parts};
ghost use Rattle.jg_rules.specs.View.{ViewStands};
ghost use Rattle.jg_breaches.specs.Breaches as breaches;

use crate::breach::Breach;
use jg_rules::{Named, View, class_of, is_field_of_type, look_up};
use jg_words::{Call, FieldId, ObjectsCall, Primitive, Ref, Tid};
use std::alloc::Allocator;

fn class_breach<A: Allocator + Clone>(
    view: &View<'_, A>,
    reference: Ref,
    field: FieldId,
    named: Named,
) -> Breach
    ensures { (p : Parts) → ViewStands view.now p
        → result ≡ breaches.field_class_breach view.now.setup.now p reference field named }
{
    match named {
        Named::Nothing => Breach::Unbroken,
        Named::Null => Breach::Unbroken,
        Named::Object(object) => {
            let class = class_of(view, object);
            if class == field.class {
                Breach::Unbroken
            } else {
                Breach::FieldOfOtherClass {
                    reference,
                    field,
                    class,
                }
            }
        }
    }
}

fn type_breach<A: Allocator + Clone>(
    view: &View<'_, A>,
    tid: Tid,
    wanted: Option<Primitive>,
    reference: Ref,
    field: FieldId,
    signature: Option<&str>,
) -> Breach
    ensures { (p : Parts) → ViewStands view.now p → result ≡ breaches.field_type_breach view.now.setup.now p tid.0
        wanted reference field (option_map (λ t. t.now) signature.entry) }
{
    match signature {
        None => Breach::NoField { reference, field },
        Some(signature) => {
            if is_field_of_type(wanted, signature) {
                class_breach(view, reference, field, look_up(view, tid, reference))
            } else {
                Breach::FieldOfOtherType {
                    reference,
                    field,
                    wanted,
                }
            }
        }
    }
}

fn field_breach<A: Allocator + Clone>(
    view: &View<'_, A>,
    tid: Tid,
    wanted: Option<Primitive>,
    reference: Ref,
    field: FieldId,
) -> Breach
    ensures { (p : Parts) → ViewStands view.now p
        → result ≡ breaches.field_breach view.now.setup.now p tid.0 wanted reference field }
{
    type_breach(
        view,
        tid,
        wanted,
        reference,
        field,
        view.setup.field_type(field),
    )
}

fn objects_breach<A: Allocator + Clone>(view: &View<'_, A>, tid: Tid, call: &ObjectsCall) -> Breach
    ensures { (p : Parts) → ViewStands view.now p
        → result ≡ breaches.objects_field_breach view.now.setup.now p tid.0 call.now }
{
    match call {
        ObjectsCall::FindClass { .. } => Breach::Unbroken,
        ObjectsCall::GetObjectClass { .. } => Breach::Unbroken,
        ObjectsCall::IsInstanceOf { .. } => Breach::Unbroken,
        ObjectsCall::AllocObject { .. } => Breach::Unbroken,
        ObjectsCall::GetFieldID { .. } => Breach::Unbroken,
        ObjectsCall::GetField {
            primitive,
            object,
            field,
        } => field_breach(view, tid, Some(*primitive), *object, *field),
        ObjectsCall::GetObjectField { object, field } => {
            field_breach(view, tid, None, *object, *field)
        }
        ObjectsCall::SetField {
            primitive,
            object,
            field,
            ..
        } => field_breach(view, tid, Some(*primitive), *object, *field),
        ObjectsCall::SetObjectField { object, field, .. } => {
            field_breach(view, tid, None, *object, *field)
        }
    }
}

/// In which way a call breaks rule 10.
pub(crate) fn bad_field_breach<A: Allocator + Clone>(
    view: &View<'_, A>,
    tid: Tid,
    call: &Call,
) -> Breach
    ensures { (p : Parts) → ViewStands view.now p
        → result ≡ breaches.bad_field_breach view.now.setup.now p tid.0 call.now }
{
    match call {
        Call::Objects(call) => objects_breach(view, tid, call),
        _ => Breach::Unbroken,
    }
}
