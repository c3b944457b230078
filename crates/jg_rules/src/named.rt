//! What operands name: objects, classes, fields and native methods.

ghost use Rattle.std.specs.Prelude.{◌≡◌, ◌<◌, IfSome};
ghost use Rattle.std.specs.Option.{option_map};
ghost use Rattle.jg_policy.specs.Stated.{class_count};
ghost use Rattle.jg_rules.specs.Parts.{Parts};
ghost use Rattle.jg_rules.specs.Names as names_of;
ghost use Rattle.jg_rules.specs.Names.{names, named_by_target, class_by};
ghost use Rattle.jg_rules.specs.View.{ViewTells};

use crate::store::Store;
use crate::view::View;
use jg_policy::Setup;
use jg_table_globals::Target;
use jg_words::{FieldId, Kind, Name, ObjId, Ref, Tid};
use std::alloc::Allocator;

/// What a reference names for a thread.
#[derive(Clone, Copy, PartialEq, Eq)]
pub enum Named {
    /// It was never made, has ended, or is another thread's local.
    Nothing,
    Null,
    Object(ObjId),
}

/// What a reference names for the thread, as the tables are now.
pub fn look_up<A: Allocator + Clone, S: Store>(
    view: &View<'_, A, S>,
    tid: Tid,
    reference: Ref,
) -> Named
    ensures { (p : Parts) → ViewTells S.Tells view.now p → result ≡ names p tid.0 reference }
{
    match reference {
        Ref::Null => Named::Null,
        Ref::To {
            kind: Kind::Local,
            maker,
            n,
        } if maker.0 == tid.0 => match view.locals.get(tid, n) {
            Some(object) => Named::Object(object),
            None => Named::Nothing,
        },
        Ref::To {
            kind: Kind::Local,
            ..
        } => Named::Nothing,
        Ref::To {
            kind: Kind::Global,
            ..
        } => named_by(view.globals.get(reference)),
        Ref::To {
            kind: Kind::Weak,
            ..
        } => named_by(view.globals.get(reference)),
    }
}

fn named_by(target: Option<Target>) -> Named
    ensures { result ≡ named_by_target target }
{
    match target {
        None => Named::Nothing,
        Some(Target::Object(object)) => Named::Object(object),
        Some(Target::Cleared) => Named::Null,
    }
}

/// The object that a reference names for the thread, if it names one.
pub fn object_named<A: Allocator + Clone, S: Store>(
    view: &View<'_, A, S>,
    tid: Tid,
    reference: Ref,
) -> Option<ObjId>
    ensures { (p : Parts) → ViewTells S.Tells view.now p
        → option_map (λ o. o.0) result ≡ names_of.object_named p tid.0 reference }
{
    match look_up(view, tid, reference) {
        Named::Nothing => None,
        Named::Null => None,
        Named::Object(object) => Some(object),
    }
}

/// The same for an operand that the rules have found to name one. Object 0 stands for none.
pub fn the_object<A: Allocator + Clone, S: Store>(
    view: &View<'_, A, S>,
    tid: Tid,
    reference: Ref,
) -> ObjId
    ensures { (p : Parts) → ViewTells S.Tells view.now p → result.0 ≡ names_of.the_object p tid.0 reference }
{
    match object_named(view, tid, reference) {
        None => ObjId(0),
        Some(object) => object,
    }
}

/// The class whose class object it is, if it is one: class objects have the numbers of their
/// classes.
fn class_by_object(setup: &Setup, object: ObjId) -> Option<u32>
    ensures told { result ≡ class_by setup.now object.0 }
    ensures within { IfSome result (λ class. class < class_count setup.now) }
{
    if object.0 < u64::from(setup.class_count()) {
        Some(object.0 as u32)
    } else {
        None
    }
}

/// The class whose class object the reference names for the thread, if it names one.
pub fn class_meant<A: Allocator + Clone, S: Store>(
    view: &View<'_, A, S>,
    tid: Tid,
    reference: Ref,
) -> Option<u32>
    ensures told { (p : Parts) → ViewTells S.Tells view.now p
        → result ≡ names_of.class_meant view.now.setup.now p tid.0 reference }
    ensures within { IfSome result (λ class. class < class_count view.now.setup.now) }
{
    match object_named(view, tid, reference) {
        None => None,
        Some(object) => class_by_object(view.setup, object),
    }
}

/// The number, from 1, of the class's native method of that name and type, if it has one.
pub fn native_meant(
    setup: &Setup,
    class: Option<u32>,
    method: &Name,
    signature: &Name,
) -> Option<u32>
    ensures { result ≡ names_of.native_meant setup.now class method.now signature.now }
{
    match class {
        None => None,
        Some(class) => setup.native_named(class, method, signature),
    }
}

/// The class's field of that name and type, if it has one.
pub fn field_meant(
    setup: &Setup,
    class: Option<u32>,
    field: &Name,
    signature: &Name,
) -> Option<FieldId>
    ensures { result ≡ names_of.field_meant setup.now class field.now signature.now }
{
    match class {
        None => None,
        Some(class) => match setup.field_named(class, field, signature) {
            None => None,
            Some(field) => Some(FieldId { class, field }),
        },
    }
}
