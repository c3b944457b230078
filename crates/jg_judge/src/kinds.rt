//! What an object is, where it may be of a class that no setup states.

ghost use Rattle.std.specs.Prelude.{◌≡◌};
ghost use Rattle.jg_judge.specs.Kinds as kinds;
ghost use Rattle.jg_rules.specs.Parts.{Parts};
ghost use Rattle.jg_rules.specs.View.{ViewTells};

use jg_policy::Setup;
use jg_rows::ObjectKind;
use jg_rules::{ObjectType, Store, View, class_of, is_object_of};
use jg_words::{ItemType, ObjId};
use std::alloc::Allocator;

/// A kind of objects whose class no setup states. A machine meets an object of such a class by its kind.
#[derive(Clone, Copy)]
pub enum OwnKind {
    /// It is of none of the others.
    Object,
    /// It can be thrown.
    Throwable,
    /// It is the class object of a class that isn't one of arrays.
    Class,
    /// It is the class object of a class of arrays.
    ClassOfArrays,
    /// It is an array of float.
    Floats,
    /// It is an array of double.
    Doubles,
}

impl OwnKind {
    /// How far behind the classes of the setup the kind's class has its number.
    fn place(self) -> u32
        ensures { result ≡ kinds.own_place self }
    {
        match self {
            OwnKind::Object => 0,
            OwnKind::Throwable => 1,
            OwnKind::Class => 2,
            OwnKind::ClassOfArrays => 3,
            OwnKind::Floats => 4,
            OwnKind::Doubles => 5,
        }
    }

    /// The number of the kind's class, which stands behind those of the setup.
    pub fn class_in(self, setup: &Setup) -> u32
        ensures { result ≡ kinds.own_class setup.now self }
    {
        setup.class_count() + self.place()
    }
}

/// Whether the number is that of a class of the setup, or of a kind of objects whose class it doesn't state.
pub fn is_class(setup: &Setup, class: u32) -> bool
    ensures { result ≡ kinds.is_class setup.now class }
{
    class <= OwnKind::Doubles.class_in(setup)
}

/// Whether the object is of the kind.
fn is_own<A: Allocator + Clone, S: Store>(
    view: &View<'_, A, S>,
    kind: OwnKind,
    object: ObjId,
) -> bool
    ensures { (p : Parts) → ViewTells S.Tells view.now p
        → result ≡ kinds.is_own view.now.setup.now p kind object.0 }
{
    class_of(view, object) == kind.class_in(view.setup)
}

/// Whether it is the class object of a stated class that isn't one of arrays.
fn is_stated_instance<A: Allocator + Clone, S: Store>(view: &View<'_, A, S>, object: ObjId) -> bool
    ensures { (p : Parts) → ViewTells S.Tells view.now p
        → result ≡ kinds.is_stated_instance view.now.setup.now p object.0 }
{
    is_object_of(view, ObjectType::ClassObject, object) && !(3 <= object.0 && object.0 <= 9)
}

fn is_array_of<A: Allocator + Clone, S: Store>(
    view: &View<'_, A, S>,
    item: ItemType,
    object: ObjId,
) -> bool
    ensures { (p : Parts) → ViewTells S.Tells view.now p
        → result ≡ kinds.is_array_of view.now.setup.now p item object.0 }
{
    match item {
        ItemType::Of(element) => is_object_of(view, ObjectType::ArrayOf(element), object),
        ItemType::Float => is_own(view, OwnKind::Floats, object),
        ItemType::Double => is_own(view, OwnKind::Doubles, object),
    }
}

fn is_own_array<A: Allocator + Clone, S: Store>(view: &View<'_, A, S>, object: ObjId) -> bool
    ensures { (p : Parts) → ViewTells S.Tells view.now p
        → result ≡ kinds.is_own_array view.now.setup.now p object.0 }
{
    let class = class_of(view, object);
    class == OwnKind::Floats.class_in(view.setup) || class == OwnKind::Doubles.class_in(view.setup)
}

/// Whether the object is of the kind.
pub fn is_kind<A: Allocator + Clone, S: Store>(
    view: &View<'_, A, S>,
    kind: ObjectKind,
    object: ObjId,
) -> bool
    ensures { (p : Parts) → ViewTells S.Tells view.now p
        → result ≡ kinds.is_kind view.now.setup.now p kind object.0 }
{
    match kind {
        ObjectKind::AnyObject => true,
        ObjectKind::ClassObject => {
            is_object_of(view, ObjectType::ClassObject, object)
                || is_own(view, OwnKind::Class, object)
                || is_own(view, OwnKind::ClassOfArrays, object)
        }
        ObjectKind::PlainClass => {
            is_object_of(view, ObjectType::PlainClass, object)
                || is_own(view, OwnKind::Class, object)
        }
        ObjectKind::InstanceClass => {
            is_stated_instance(view, object) || is_own(view, OwnKind::Class, object)
        }
        ObjectKind::ThrowableObject => {
            is_object_of(view, ObjectType::ThrowableObject, object)
                || is_own(view, OwnKind::Throwable, object)
        }
        ObjectKind::StringObject => is_object_of(view, ObjectType::StringObject, object),
        ObjectKind::AnyArray => {
            is_object_of(view, ObjectType::AnyArray, object) || is_own_array(view, object)
        }
        ObjectKind::PrimitiveArray => {
            is_object_of(view, ObjectType::PrimitiveArray, object) || is_own_array(view, object)
        }
        ObjectKind::ArrayOf(item) => is_array_of(view, item, object),
        ObjectKind::ObjectArray => is_object_of(view, ObjectType::ObjectArray, object),
    }
}
