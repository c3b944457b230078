//! The types that functions declare for their operands, and which objects are of them.

ghost use Rattle.std.specs.Prelude.{◌≡◌, ◌&&◌, nat_le};
ghost use Rattle.jg_rules.specs.Operands.{is_of, is_plain};
ghost use Rattle.jg_rules.specs.Parts.{Parts};
ghost use Rattle.jg_rules.specs.View.{ViewTells};

use crate::object::class_of;
use crate::store::Store;
use crate::view::View;
use jg_words::{CLASS_CLASS, OBJECT_ARRAY_CLASS, ObjId, Primitive, Ref, STRING_CLASS};
use std::alloc::Allocator;

/// The type that a function declares for an operand (JNI Specification, chapter 3, "Reference
/// Types"): `jobject`, `jclass`, `jthrowable`, `jstring`, `jarray` and its kin.
#[derive(Clone, Copy)]
pub enum ObjectType {
    AnyObject,
    ClassObject,
    /// The class object of a class whose instances AllocObject makes.
    PlainClass,
    ThrowableObject,
    StringObject,
    AnyArray,
    PrimitiveArray,
    ArrayOf(Primitive),
    ObjectArray,
}

/// A reference among a call's operands: one that must name an object of the type, or one that
/// may be null.
#[derive(Clone, Copy)]
pub struct Operand {
    pub reference: Ref,
    pub nullable: bool,
    pub object_type: ObjectType,
}

/// Whether it is the class object of a class with plain instances. It has its class's number.
fn is_plain_class<A: Allocator + Clone, S: Store>(view: &View<'_, A, S>, object: ObjId) -> bool
    ensures { result ≡ is_plain view.now.setup.now object.0 }
{
    object.0 == 0 || 10 <= object.0 && object.0 < u64::from(view.setup.class_count())
}

fn is_array_class(class: u32) -> bool
    ensures { result ≡ (nat_le 3 class && nat_le class 9) }
{
    3 <= class && class <= 9
}

fn is_primitive_array_class(class: u32) -> bool
    ensures { result ≡ (nat_le 4 class && nat_le class 9) }
{
    4 <= class && class <= 9
}

/// Whether the object is of the type.
pub fn is_object_of<A: Allocator + Clone, S: Store>(
    view: &View<'_, A, S>,
    object_type: ObjectType,
    object: ObjId,
) -> bool
    ensures { (p : Parts) → ViewTells S.Tells view.now p → result ≡ is_of view.now.setup.now p object_type object.0 }
{
    match object_type {
        ObjectType::AnyObject => true,
        ObjectType::ClassObject => class_of(view, object) == CLASS_CLASS,
        ObjectType::PlainClass => is_plain_class(view, object),
        ObjectType::ThrowableObject => view.setup.is_throwable(class_of(view, object)),
        ObjectType::StringObject => class_of(view, object) == STRING_CLASS,
        ObjectType::AnyArray => is_array_class(class_of(view, object)),
        ObjectType::PrimitiveArray => is_primitive_array_class(class_of(view, object)),
        ObjectType::ArrayOf(element) => class_of(view, object) == element.array_class(),
        ObjectType::ObjectArray => class_of(view, object) == OBJECT_ARRAY_CLASS,
    }
}
