//! What the store holds of an object, by the definitions: an object that was never made counts as a
//! class object.

ghost use Rattle.std.specs.Prelude.{◌≡◌, ◌<◌, ◌≤◌, ◌^◌, length};
ghost use Rattle.jg_table_heap.specs.Making.{IsArrayClass, IsPrimitiveArray, HasFields};
ghost use Rattle.jg_table_heap.specs.Rows.{count_in, class_at, length_at};
ghost use Rattle.jg_rules.specs.Parts.{Parts};
ghost use Rattle.jg_rules.specs.Names as names_of;
ghost use Rattle.jg_rules.specs.Names.{slot_place};
ghost use Rattle.jg_rules.specs.Answers.{field_value};
ghost use Rattle.jg_rules.specs.View.{ViewStands, ViewTells};

use crate::store::Store;
use crate::view::View;
use jg_table_heap::Slot;
use jg_words::{FieldId, ObjId};
use std::alloc::Allocator;

/// The number of its class. An object that isn't there counts as a class object.
pub fn class_of<A: Allocator + Clone, S: Store>(view: &View<'_, A, S>, object: ObjId) -> u32
    ensures { (p : Parts) → ViewTells S.Tells view.now p → result ≡ names_of.class_of view.now.setup.now p object.0 }
{
    view.heap.class_there(object)
}

/// How many UTF-16 units a string has, items an array, fields any other object.
pub fn length_of<A: Allocator + Clone>(view: &View<'_, A>, object: ObjId) -> usize
    ensures told { (p : Parts) → ViewStands view.now p
        → result ≡ names_of.length_of view.now.setup.now p object.0 }
    ensures fits { result < 2 ^ 63 }
{
    if object.0 < view.heap.len() {
        view.heap.array_len(object)
    } else {
        0
    }
}

/// The UTF-16 units of a string; none of any other object.
pub fn units_of<'a, A: Allocator + Clone>(view: &View<'a, A>, object: ObjId) -> &'a [u16]
    ensures told { (p : Parts) → ViewStands view.now p
        → result.now ≡ names_of.units_of view.now.setup.now p object.0 }
    ensures fits { length result.now < 2 ^ 61 }
{
    if object.0 < view.heap.len() {
        view.heap.string(object)
    } else {
        &[]
    }
}

/// The items of an array of a primitive type.
pub fn items_of<'a, A: Allocator + Clone>(view: &View<'a, A>, object: ObjId) -> &'a [i64]
    requires made { object.0 < count_in view.now.heap.now }
    requires array { IsPrimitiveArray (class_at view.now.heap.now object.0) }
    ensures told { (p : Parts) → ViewStands view.now p
        → result.now ≡ names_of.items_of view.now.setup.now p object.0 }
    ensures len { (p : Parts) → ViewStands view.now p
        → length result.now ≡ names_of.length_of view.now.setup.now p object.0 }
{
    view.heap.items(object)
}

/// What an item of an array holds. Items count from 0.
pub fn slot_of<A: Allocator + Clone>(view: &View<'_, A>, object: ObjId, index: usize) -> Slot
    requires made { object.0 < count_in view.now.heap.now }
    requires array { IsArrayClass (class_at view.now.heap.now object.0) }
    requires within { index < length_at view.now.heap.now object.0 }
    ensures { (p : Parts) → ViewStands view.now p
        → result ≡ names_of.slot_of view.now.setup.now p object.0 index }
{
    view.heap.element(object, index)
}

/// The slot that a field has in each object of its class: fields count from 1, slots from 0.
pub fn slot_place_of(field: FieldId) -> usize
    requires { 1 ≤ field.field }
    ensures { result ≡ slot_place field }
{
    (field.field - 1) as usize
}

/// What a field of an object holds.
pub fn field_of<A: Allocator + Clone>(view: &View<'_, A>, object: ObjId, field: FieldId) -> Slot
    requires named { 1 ≤ field.field }
    requires made { object.0 < count_in view.now.heap.now }
    requires fields { HasFields (class_at view.now.heap.now object.0) }
    requires within { slot_place field < length_at view.now.heap.now object.0 }
    ensures { (p : Parts) → ViewStands view.now p → result ≡ field_value view.now.setup.now p object.0 field }
{
    view.heap.field(object, slot_place_of(field))
}
