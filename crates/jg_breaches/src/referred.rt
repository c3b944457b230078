//! The references among a call's operands that rules speak of, as the row of its function takes them.

ghost use Rattle.std.specs.Prelude.{◌≡◌};
ghost use Rattle.jg_rules.specs.Operands as operands;
ghost use Rattle.jg_breaches.specs.Referred as spec;

use jg_judge::Argument;
use jg_rows::{ObjectKind, Takes};
use jg_rules::{ObjectType, Operand};
use jg_words::{ItemType, Ref};

/// The type of the kind's objects. No call takes the last three.
fn type_of(kind: ObjectKind) -> ObjectType
    ensures { result ≡ spec.type_of kind }
{
    match kind {
        ObjectKind::AnyObject => ObjectType::AnyObject,
        ObjectKind::ClassObject => ObjectType::ClassObject,
        ObjectKind::PlainClass => ObjectType::PlainClass,
        ObjectKind::ThrowableObject => ObjectType::ThrowableObject,
        ObjectKind::StringObject => ObjectType::StringObject,
        ObjectKind::AnyArray => ObjectType::AnyArray,
        ObjectKind::PrimitiveArray => ObjectType::PrimitiveArray,
        ObjectKind::ArrayOf(ItemType::Of(element)) => ObjectType::ArrayOf(element),
        ObjectKind::ObjectArray => ObjectType::ObjectArray,
        ObjectKind::InstanceClass => ObjectType::ClassObject,
        ObjectKind::ArrayOf(ItemType::Float) => ObjectType::PrimitiveArray,
        ObjectKind::ArrayOf(ItemType::Double) => ObjectType::PrimitiveArray,
    }
}

/// An operand that must name an object of the type.
fn required(reference: Ref, object_type: ObjectType) -> Operand
    ensures { result ≡ operands.required reference object_type }
{
    Operand {
        reference,
        nullable: false,
        object_type,
    }
}

/// An operand that may be null.
fn optional(reference: Ref) -> Operand
    ensures { result ≡ operands.optional reference }
{
    Operand {
        reference,
        nullable: true,
        object_type: ObjectType::AnyObject,
    }
}

/// The reference that the operand is, where rules speak of it.
pub(crate) fn operand_in(takes: Takes, argument: Argument) -> Option<Operand>
    ensures { result ≡ spec.operand_in takes argument }
{
    let Argument::Reference(reference) = argument else {
        return None;
    };
    match takes {
        Takes::Reference(kind) => Some(required(reference, type_of(kind))),
        Takes::Nullable => Some(optional(reference)),
        _ => None,
    }
}
