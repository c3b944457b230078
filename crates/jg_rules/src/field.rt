//! The fields that IDs name: of which class, and of which type.

ghost use Rattle.std.specs.Prelude.{◌≡◌};
ghost use Rattle.std.specs.Option.{option_map};
ghost use Rattle.jg_rules.specs.Parts.{Parts};
ghost use Rattle.jg_rules.specs.Rules.{field_of_another, is_field_type, is_stated_as, type_letter as letter_of};
ghost use Rattle.jg_rules.specs.Rules as rules_of;
ghost use Rattle.jg_rules.specs.View.{ViewTells};

use crate::named::{Named, look_up};
use crate::object::class_of;
use crate::store::Store;
use crate::view::View;
use jg_words::{FieldId, Primitive, Ref, Tid};
use std::alloc::Allocator;

/// The type of a field of the primitive type, as a setup spells it.
fn type_letter(primitive: Primitive) -> &'static str
    ensures { result.now ≡ letter_of primitive }
{
    match primitive {
        Primitive::Boolean => "Z",
        Primitive::Byte => "B",
        Primitive::Char => "C",
        Primitive::Short => "S",
        Primitive::Int => "I",
        Primitive::Long => "J",
    }
}

/// Whether a field of that type is of the primitive type, or of a class where none is wanted.
pub fn is_field_of_type(wanted: Option<Primitive>, signature: &str) -> bool
    ensures { result ≡ is_field_type wanted signature.now }
{
    match wanted {
        None => signature.as_bytes().first() == Some(&b'L'),
        Some(primitive) => signature == type_letter(primitive),
    }
}

/// Whether the setup states the field, and it is of the wanted type.
fn is_stated(wanted: Option<Primitive>, signature: Option<&str>) -> bool
    ensures { result ≡ is_stated_as wanted (option_map (λ t. t.now) signature.entry) }
{
    match signature {
        None => false,
        Some(signature) => is_field_of_type(wanted, signature),
    }
}

/// Whether the object that the reference names, if it names one, is of that class.
fn is_of_class<A: Allocator + Clone, S: Store>(
    view: &View<'_, A, S>,
    class: u32,
    named: Named,
) -> bool
    ensures { (p : Parts) → ViewTells S.Tells view.now p
        → result ≡ rules_of.is_of_class view.now.setup.now p class named }
{
    match named {
        Named::Nothing => true,
        Named::Null => true,
        Named::Object(object) => class_of(view, object) == class,
    }
}

/// Whether the ID isn't one of a field of the object's class and of the wanted type, as the setup states it. No class is
/// asked for where the reference names no object.
pub fn is_field_of_another<A: Allocator + Clone, S: Store>(
    view: &View<'_, A, S>,
    tid: Tid,
    wanted: Option<Primitive>,
    object: Ref,
    field: FieldId,
) -> bool
    ensures { (p : Parts) → ViewTells S.Tells view.now p
        → result ≡ field_of_another view.now.setup.now p tid.0 wanted object field }
{
    let is_right_type = is_stated(wanted, view.setup.field_type(field));
    !(is_right_type && is_of_class(view, field.class, look_up(view, tid, object)))
}
