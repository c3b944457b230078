//! What the calls on arrays answer, make and write.

ghost use Rattle.std.specs.Prelude.{◌≡◌, IfOk, OnOk, OnErr};
ghost use Rattle.jg_words.specs.declared.call.Call.TheVariants.{Arrays};
ghost use Rattle.jg_rules.specs.Parts.{Parts, TablesStand};
ghost use Rattle.jg_rules.specs.View.{ViewStands, rows_in};
ghost use Rattle.jg_rules.specs.Answers.{arrays_answer};
ghost use Rattle.jg_rules.specs.Effects.{done_by};
ghost use Rattle.jg_guard.specs.Tables.{rows_of, IsDue, IsEffective, KeepsRoom};
ghost use Rattle.jg_words.specs.declared.call.arrays.ArraysCall.TheVariants.{GetArrayRegion, SetArrayRegion, GetObjectArrayElement, SetObjectArrayElement};

use crate::forms::{handing_out, plain, throwing};
use crate::region::{is_outside, items_in};
use crate::tables::Tables;
use jg_policy::Setup;
use jg_rules::{Answer, View, items_of, length_of, object_named, slot_of, the_object};
use jg_table_heap::{Shape, Slot, natural};
use jg_words::{ArraysCall, Items, Kind, ObjId, Primitive, Ref, Thrown, Tid, Value};
use std::alloc::{AllocError, Allocator, Global};

fn answer_region<A: Allocator + Clone>(
    view: &View<'_, A>,
    lists: Global,
    tid: Tid,
    element: Primitive,
    array: Ref,
    start: i32,
    count: i32,
) -> Result<Answer, AllocError>
    requires { IsDue view.now.setup.now (rows_in view.now) tid.0 (Arrays (GetArrayRegion element array start count)) }
    ensures { IfOk result (λ given. (p : Parts) → ViewStands view.now p
        → given ≡ arrays_answer view.now.setup.now p tid (GetArrayRegion element array start count)) }
{
    let _element = element;
    let items = items_of(view, the_object(view, tid, array));
    if is_outside(start, i64::from(count), items.len()) {
        return Ok(throwing(view, Thrown::ArrayIndexOutOfBounds));
    }
    let from = natural(start) as usize;
    let list = items_in(lists, items, from, natural(count) as usize)?;
    Ok(plain(Value::List(list)))
}

fn answer_set_region<A: Allocator + Clone>(
    view: &View<'_, A>,
    tid: Tid,
    element: Primitive,
    array: Ref,
    start: i32,
    values: &Items,
) -> Answer
    ensures { (p : Parts) → ViewStands view.now p
        → result ≡ arrays_answer view.now.setup.now p tid (SetArrayRegion element array start values.now) }
{
    let _element = element;
    let length = length_of(view, the_object(view, tid, array));
    if is_outside(start, values.as_slice().len() as i64, length) {
        throwing(view, Thrown::ArrayIndexOutOfBounds)
    } else {
        plain(Value::Ok)
    }
}

fn answer_element<A: Allocator + Clone>(
    view: &View<'_, A>,
    tid: Tid,
    array: Ref,
    index: i32,
) -> Answer
    requires { IsDue view.now.setup.now (rows_in view.now) tid.0 (Arrays (GetObjectArrayElement array index)) }
    ensures { (p : Parts) → ViewStands view.now p
        → result ≡ arrays_answer view.now.setup.now p tid (GetObjectArrayElement array index) }
{
    let object = the_object(view, tid, array);
    if is_outside(index, 1, length_of(view, object)) {
        return throwing(view, Thrown::ArrayIndexOutOfBounds);
    }
    match slot_of(view, object, natural(index) as usize) {
        Slot::Number(_) => handing_out(view, tid, Kind::Local, None),
        Slot::Object(target) => handing_out(view, tid, Kind::Local, target),
    }
}

fn answer_set_element<A: Allocator + Clone>(
    view: &View<'_, A>,
    tid: Tid,
    array: Ref,
    index: i32,
    value: Ref,
) -> Answer
    ensures { (p : Parts) → ViewStands view.now p
        → result ≡ arrays_answer view.now.setup.now p tid (SetObjectArrayElement array index value) }
{
    let _value = value;
    if is_outside(index, 1, length_of(view, the_object(view, tid, array))) {
        throwing(view, Thrown::ArrayIndexOutOfBounds)
    } else {
        plain(Value::Ok)
    }
}

/// What a call of the group answers, where it breaks no rule.
pub(crate) fn answer_arrays<A: Allocator + Clone>(
    view: &View<'_, A>,
    lists: Global,
    tid: Tid,
    call: &ArraysCall,
) -> Result<Answer, AllocError>
    requires { IsDue view.now.setup.now (rows_in view.now) tid.0 (Arrays call.now) }
    ensures { IfOk result (λ given. (p : Parts) → ViewStands view.now p
        → given ≡ arrays_answer view.now.setup.now p tid call.now) }
{
    match call {
        ArraysCall::NewArray { .. } => {
            Ok(handing_out(view, tid, Kind::Local, Some(ObjId(view.heap.len()))))
        }
        ArraysCall::GetArrayLength { array } => {
            let length = length_of(view, the_object(view, tid, *array));
            Ok(plain(Value::Number(length as i64)))
        }
        ArraysCall::GetArrayRegion {
            element,
            array,
            start,
            length,
        } => {
            let given = answer_region(view, lists, tid, *element, *array, *start, *length)?;
            Ok(given)
        }
        ArraysCall::SetArrayRegion {
            element,
            array,
            start,
            values,
        } => Ok(answer_set_region(view, tid, *element, *array, *start, values)),
        ArraysCall::NewObjectArray { .. } => {
            Ok(handing_out(view, tid, Kind::Local, Some(ObjId(view.heap.len()))))
        }
        ArraysCall::GetObjectArrayElement { array, index } => {
            Ok(answer_element(view, tid, *array, *index))
        }
        ArraysCall::SetObjectArrayElement {
            array,
            index,
            value,
        } => Ok(answer_set_element(view, tid, *array, *index, *value)),
    }
}

fn set_region<A: Allocator + Clone>(
    tables: &mut Tables<A>,
    setup: &Setup,
    tid: Tid,
    element: Primitive,
    array: Ref,
    start: i32,
    values: &Items,
)
    requires { IsEffective setup.now (rows_of tables.old) tid (Arrays (SetArrayRegion element array start values.now)) }
    ensures stands { (p : Parts) → TablesStand setup.now (rows_of tables.old) p
        → TablesStand setup.now (rows_of tables.new)
        (done_by setup.now tid.0 (Arrays (SetArrayRegion element array start values.now)) p) }
    ensures room { KeepsRoom tables.old tables.new tid.0 (Arrays (SetArrayRegion element array start values.now)) }
{
    let _element = element;
    let object = the_object(&tables.view(setup), tid, array);
    tables
        .heap
        .set_region(object, natural(start) as usize, values.as_slice());
}

fn set_element<A: Allocator + Clone>(
    tables: &mut Tables<A>,
    setup: &Setup,
    tid: Tid,
    array: Ref,
    index: i32,
    value: Ref,
)
    requires { IsEffective setup.now (rows_of tables.old) tid (Arrays (SetObjectArrayElement array index value)) }
    ensures stands { (p : Parts) → TablesStand setup.now (rows_of tables.old) p
        → TablesStand setup.now (rows_of tables.new)
        (done_by setup.now tid.0 (Arrays (SetObjectArrayElement array index value)) p) }
    ensures room { KeepsRoom tables.old tables.new tid.0 (Arrays (SetObjectArrayElement array index value)) }
{
    let object = the_object(&tables.view(setup), tid, array);
    let target = object_named(&tables.view(setup), tid, value);
    tables
        .heap
        .set_element(object, natural(index) as usize, Slot::Object(target));
}

/// Does what a call of the group does beside handing out a reference. An `Err` leaves all rows as
/// they were.
pub(crate) fn perform_arrays<A: Allocator + Clone>(
    tables: &mut Tables<A>,
    setup: &Setup,
    tid: Tid,
    call: &ArraysCall,
) -> Result<(), AllocError>
    requires { IsEffective setup.now (rows_of tables.old) tid (Arrays call.now) }
    ensures stands { OnOk result ((p : Parts) → TablesStand setup.now (rows_of tables.old) p
        → TablesStand setup.now (rows_of tables.new) (done_by setup.now tid.0 (Arrays call.now) p)) }
    ensures room { OnOk result (KeepsRoom tables.old tables.new tid.0 (Arrays call.now)) }
    ensures err { OnErr result (rows_of tables.new ≡ rows_of tables.old) }
{
    match call {
        ArraysCall::NewArray { element, length } => {
            tables.heap.alloc(Shape::Numbers {
                element: *element,
                length: natural(*length),
            })?;
            Ok(())
        }
        ArraysCall::GetArrayLength { .. } => Ok(()),
        ArraysCall::GetArrayRegion { .. } => Ok(()),
        ArraysCall::SetArrayRegion {
            element,
            array,
            start,
            values,
        } => {
            set_region(tables, setup, tid, *element, *array, *start, values);
            Ok(())
        }
        ArraysCall::NewObjectArray { length, fill, .. } => {
            let first = object_named(&tables.view(setup), tid, *fill);
            tables.heap.alloc(Shape::Objects {
                length: natural(*length),
                first,
            })?;
            Ok(())
        }
        ArraysCall::GetObjectArrayElement { .. } => Ok(()),
        ArraysCall::SetObjectArrayElement {
            array,
            index,
            value,
        } => {
            set_element(tables, setup, tid, *array, *index, *value);
            Ok(())
        }
    }
}
