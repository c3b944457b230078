//! What the calls on objects answer, make and write: classes, instances and fields.

ghost use Rattle.std.specs.Prelude.{◌≡◌, Some, true, map, IfOk, OnOk, OnErr};
ghost use Rattle.jg_words.specs.declared.call.Call.TheVariants.{Objects};
ghost use Rattle.jg_words.specs.declared.call.objects.ObjectsCall.TheVariants.{GetField, GetObjectField, SetField, SetObjectField};
ghost use Rattle.jg_table_heap.specs.declared.object.Slot.TheVariants.{Number};
ghost use Rattle.jg_rules.specs.Parts.{Parts, TablesStand};
ghost use Rattle.jg_rules.specs.View.{ViewStands, rows_in};
ghost use Rattle.jg_rules.specs.Answers.{objects_answer, class_found};
ghost use Rattle.jg_rules.specs.Effects.{done_by};
ghost use Rattle.jg_guard.specs.Tables.{rows_of, IsDue, IsEffective, KeepsRoom};
ghost use Rattle.jg_policy.specs.Classes.{class_at, class_named, fields_in};
ghost use Rattle.jg_rules.specs.Effects.{first_value};
ghost use Rattle.jg_rules.specs.Answers as answers;
ghost use Rattle.jg_rules.specs.Operands.{is_plain};
ghost use Rattle.jg_rules.specs.Names as names_of;
ghost use Rattle.jg_rules.specs.Names.{object_named, the_object};
ghost use Rattle.jg_table_threads.specs.Rows.{CanCount};
ghost use Rattle.jg_policy.specs.Stated.{StatedMember};
ghost use Rattle.std.specs.Option.{option_map};

use crate::forms::{handing_out, plain, throwing};
use crate::tables::Tables;
use jg_policy::Setup;
use jg_rules::{
    Answer, View, class_meant, class_of, field_meant, field_of, object_named, slot_place_of,
    the_object,
};
use jg_table_heap::{Shape, Slot};
use jg_words::{FieldId, Kind, Name, ObjId, ObjectsCall, Primitive, Ref, Thrown, Tid, Value};
use std::alloc::{AllocError, Allocator};

fn found<A: Allocator + Clone>(view: &View<'_, A>, tid: Tid, name: &Name) -> Answer
    requires { CanCount view.now.threads.now tid.0 }
    ensures { (p : Parts) → ViewStands view.now p
        → result ≡ class_found view.now.setup.now p tid (class_named view.now.setup.now name.now) }
{
    match view.setup.class_named(name) {
        None => throwing(view, Thrown::NoClassDefFound),
        Some(class) => handing_out(view, tid, Kind::Local, Some(ObjId(u64::from(class)))),
    }
}

/// Whether null, or the object that the reference names, is an instance of the class.
fn is_instance<A: Allocator + Clone>(view: &View<'_, A>, tid: Tid, object: Ref, class: Ref) -> bool
    ensures { (p : Parts) → ViewStands view.now p → result
        ≡ answers.is_instance view.now.setup.now p (the_object p tid.0 class) (object_named p tid.0 object) }
{
    let class = the_object(view, tid, class);
    match object_named(view, tid, object) {
        None => true,
        Some(object) => class.0 == 0 || u64::from(class_of(view, object)) == class.0,
    }
}

fn named_field<A: Allocator + Clone>(
    view: &View<'_, A>,
    class: Option<u32>,
    field: &Name,
    signature: &Name,
) -> Answer
    ensures { (p : Parts) → ViewStands view.now p → result ≡ answers.field_found view.now.setup.now p
        (names_of.field_meant view.now.setup.now class field.now signature.now) }
{
    match field_meant(view.setup, class, field, signature) {
        None => throwing(view, Thrown::NoSuchField),
        Some(field) => plain(Value::Field(field)),
    }
}

fn answer_number<A: Allocator + Clone>(
    view: &View<'_, A>,
    tid: Tid,
    primitive: Primitive,
    object: Ref,
    field: FieldId,
) -> Answer
    requires { IsDue view.now.setup.now (rows_in view.now) tid.0 (Objects (GetField primitive object field)) }
    ensures { (p : Parts) → ViewStands view.now p
        → result ≡ objects_answer view.now.setup.now p tid (GetField primitive object field) }
{
    let _primitive = primitive;
    match field_of(view, the_object(view, tid, object), field) {
        Slot::Number(number) => plain(Value::Number(number)),
        Slot::Object(_) => plain(Value::Number(0)),
    }
}

fn answer_pointer<A: Allocator + Clone>(
    view: &View<'_, A>,
    tid: Tid,
    object: Ref,
    field: FieldId,
) -> Answer
    requires { IsDue view.now.setup.now (rows_in view.now) tid.0 (Objects (GetObjectField object field)) }
    ensures { (p : Parts) → ViewStands view.now p
        → result ≡ objects_answer view.now.setup.now p tid (GetObjectField object field) }
{
    match field_of(view, the_object(view, tid, object), field) {
        Slot::Number(_) => handing_out(view, tid, Kind::Local, None),
        Slot::Object(target) => handing_out(view, tid, Kind::Local, target),
    }
}

/// What a call of the group answers, where it breaks no rule.
pub(crate) fn answer_objects<A: Allocator + Clone>(
    view: &View<'_, A>,
    tid: Tid,
    call: &ObjectsCall,
) -> Answer
    requires { IsDue view.now.setup.now (rows_in view.now) tid.0 (Objects call.now) }
    ensures { (p : Parts) → ViewStands view.now p → result ≡ objects_answer view.now.setup.now p tid call.now }
{
    match call {
        ObjectsCall::FindClass { name } => found(view, tid, name),
        ObjectsCall::GetObjectClass { object } => {
            let class = class_of(view, the_object(view, tid, *object));
            handing_out(view, tid, Kind::Local, Some(ObjId(u64::from(class))))
        }
        ObjectsCall::IsInstanceOf { object, class } => {
            plain(Value::Truth(is_instance(view, tid, *object, *class)))
        }
        ObjectsCall::AllocObject { .. } => {
            handing_out(view, tid, Kind::Local, Some(ObjId(view.heap.len())))
        }
        ObjectsCall::GetFieldID {
            class,
            field,
            signature,
        } => named_field(view, class_meant(view, tid, *class), field, signature),
        ObjectsCall::GetField {
            primitive,
            object,
            field,
        } => answer_number(view, tid, *primitive, *object, *field),
        ObjectsCall::GetObjectField { object, field } => {
            answer_pointer(view, tid, *object, *field)
        }
        ObjectsCall::SetField { .. } => plain(Value::Ok),
        ObjectsCall::SetObjectField { .. } => plain(Value::Ok),
    }
}

/// The number of the class that the class object is of, where it has plain instances.
fn class_number(setup: &Setup, object: ObjId) -> u32
    ensures { is_plain setup.now object.0 ≡ true → result ≡ object.0 }
{
    if object.0 < u64::from(setup.class_count()) {
        object.0 as u32
    } else {
        0
    }
}

/// What a field of the type holds at first: 0, or null where it is a class.
fn first_slot(signature: Option<&str>) -> Slot
    ensures { (field : StatedMember) → option_map (λ t. t.now) signature.entry ≡ Some field.signature
        → result ≡ first_value field }
{
    match signature {
        None => Slot::Number(0),
        Some(signature) => {
            if signature.as_bytes().first() == Some(&b'L') {
                Slot::Object(None)
            } else {
                Slot::Number(0)
            }
        }
    }
}

/// The fields of a new object of the class.
fn first_slots<A: Allocator>(
    alloc: A,
    setup: &Setup,
    class: u32,
) -> Result<Vec<Slot, A>, AllocError>
    ensures { IfOk result (λ slots. slots.items ≡ map first_value (fields_in (class_at setup.now class))) }
{
    let mut slots = Vec::new(alloc);
    for i in 0..setup.field_count(class) {
        let signature = setup.field_type(FieldId {
            class,
            field: i + 1,
        });
        slots.push(first_slot(signature))?;
    }
    Ok(slots)
}

fn holding(value: i64) -> Slot
    ensures { result ≡ Number value }
{
    Slot::Number(value)
}

fn set_number<A: Allocator + Clone>(
    tables: &mut Tables<A>,
    setup: &Setup,
    tid: Tid,
    primitive: Primitive,
    object: Ref,
    field: FieldId,
    value: i64,
)
    requires { IsEffective setup.now (rows_of tables.old) tid (Objects (SetField primitive object field value)) }
    ensures stands { (p : Parts) → TablesStand setup.now (rows_of tables.old) p
        → TablesStand setup.now (rows_of tables.new)
        (done_by setup.now tid.0 (Objects (SetField primitive object field value)) p) }
    ensures room { KeepsRoom tables.old tables.new tid.0 (Objects (SetField primitive object field value)) }
{
    let _primitive = primitive;
    let object = the_object(&tables.view(setup), tid, object);
    tables
        .heap
        .set_field(object, slot_place_of(field), holding(value));
}

fn set_pointer<A: Allocator + Clone>(
    tables: &mut Tables<A>,
    setup: &Setup,
    tid: Tid,
    object: Ref,
    field: FieldId,
    value: Ref,
)
    requires { IsEffective setup.now (rows_of tables.old) tid (Objects (SetObjectField object field value)) }
    ensures stands { (p : Parts) → TablesStand setup.now (rows_of tables.old) p
        → TablesStand setup.now (rows_of tables.new)
        (done_by setup.now tid.0 (Objects (SetObjectField object field value)) p) }
    ensures room { KeepsRoom tables.old tables.new tid.0 (Objects (SetObjectField object field value)) }
{
    let object = the_object(&tables.view(setup), tid, object);
    let target = object_named(&tables.view(setup), tid, value);
    tables
        .heap
        .set_field(object, slot_place_of(field), Slot::Object(target));
}

/// Does what a call of the group does beside handing out a reference. An `Err` leaves all rows as
/// they were.
pub(crate) fn perform_objects<A: Allocator + Clone>(
    tables: &mut Tables<A>,
    setup: &Setup,
    tid: Tid,
    call: &ObjectsCall,
) -> Result<(), AllocError>
    requires { IsEffective setup.now (rows_of tables.old) tid (Objects call.now) }
    ensures stands { OnOk result ((p : Parts) → TablesStand setup.now (rows_of tables.old) p
        → TablesStand setup.now (rows_of tables.new) (done_by setup.now tid.0 (Objects call.now) p)) }
    ensures room { OnOk result (KeepsRoom tables.old tables.new tid.0 (Objects call.now)) }
    ensures err { OnErr result (rows_of tables.new ≡ rows_of tables.old) }
{
    match call {
        ObjectsCall::FindClass { .. } => Ok(()),
        ObjectsCall::GetObjectClass { .. } => Ok(()),
        ObjectsCall::IsInstanceOf { .. } => Ok(()),
        ObjectsCall::AllocObject { class } => {
            let class = class_number(setup, the_object(&tables.view(setup), tid, *class));
            let fields = first_slots(tables.alloc.clone()?, setup, class)?;
            tables.heap.alloc(Shape::Plain { class, fields })?;
            Ok(())
        }
        ObjectsCall::GetFieldID { .. } => Ok(()),
        ObjectsCall::GetField { .. } => Ok(()),
        ObjectsCall::GetObjectField { .. } => Ok(()),
        ObjectsCall::SetField {
            primitive,
            object,
            field,
            value,
        } => {
            set_number(tables, setup, tid, *primitive, *object, *field, *value);
            Ok(())
        }
        ObjectsCall::SetObjectField {
            object,
            field,
            value,
        } => {
            set_pointer(tables, setup, tid, *object, *field, *value);
            Ok(())
        }
    }
}
