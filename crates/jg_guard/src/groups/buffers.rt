//! What the calls on buffers answer and do: copies, pins, items, and what is written back.

ghost use Rattle.std.specs.Prelude.{◌≡◌, false, map, pos, slice_index_or, IfOk, OnOk, OnErr};
ghost use Rattle.jg_words.specs.declared.call.Call.TheVariants.{Buffers};
ghost use Rattle.jg_words.specs.declared.call.buffers.BuffersCall.TheVariants.{GetArrayElements, ReleaseArrayElements, GetStringChars, GetStringUTFChars, GetPrimitiveArrayCritical, GetStringCritical, BufferRead, BufferWrite};
ghost use Rattle.jg_policy.specs.Stated.{StatedSetup};
ghost use Rattle.jg_table_threads.specs.Rows.{CanCount};
ghost use Rattle.jg_table_heap.specs.Reading as reading;
ghost use Rattle.jg_rules.specs.Parts.{Parts, TablesStand};
ghost use Rattle.jg_rules.specs.View.{ViewStands, rows_in};
ghost use Rattle.jg_rules.specs.Names as names_of;
ghost use Rattle.jg_rules.specs.Buffers as buffers_of;
ghost use Rattle.jg_rules.specs.Answers.{lent, buffers_answer};
ghost use Rattle.jg_rules.specs.Effects.{done_by, closed, closed_by, copied_back};
ghost use Rattle.jg_guard.specs.Cleaning.{cleans_up};
ghost use Rattle.jg_guard.specs.Tables.{rows_of, IsDue, IsEffective, KeepsRoom};
ghost use Rattle.jg_guard.specs.Settled.{buffers_on, heap_on};

use crate::forms::plain;
use crate::tables::Tables;
use jg_policy::Setup;
use jg_rules::{Answer, View, buffer_named, slot_of, the_object, units_of};
use jg_table_buffers::Family;
use jg_table_heap::{Slot, natural, to_mutf8};
use jg_words::{BufId, BuffersCall, ItemType, ObjId, Primitive, Ref, Tid, Value};
use std::alloc::{AllocError, Allocator};

/// The answer of a call that lends the thread's next buffer.
fn lending<A: Allocator + Clone>(view: &View<'_, A>, tid: Tid) -> Answer
    requires { CanCount view.now.threads.now tid.0 }
    ensures { (p : Parts) → ViewStands view.now p → result ≡ lent p tid }
{
    let n = view.threads.next_buf(tid);
    plain(Value::Buffer(BufId { maker: tid, n }))
}

fn number_in(slot: Slot) -> i64
    ensures { result ≡ names_of.number_in slot }
{
    match slot {
        Slot::Number(value) => value,
        Slot::Object(_) => 0,
    }
}

/// An item of the buffer: of a copy its own, of a pinned one what the object has there now.
fn item_of<A: Allocator + Clone>(view: &View<'_, A>, tid: Tid, buffer: BufId, index: i32) -> i64
    requires { IsDue view.now.setup.now (rows_in view.now) tid.0 (Buffers (BufferRead buffer index)) }
    ensures { (p : Parts) → ViewStands view.now p → result ≡ buffers_of.item_read view.now.setup.now p buffer
        (reading.natural index) (buffers_of.buffer_named p buffer) }
{
    let _tid = tid;
    let place = natural(index);
    match buffer_named(view, buffer) {
        None => 0,
        Some(info) => match info.family {
            Family::Elements(_) => view.buffers.read(buffer, u64::from(place)),
            Family::Chars => view.buffers.read(buffer, u64::from(place)),
            Family::UtfChars => view.buffers.read(buffer, u64::from(place)),
            Family::ArrayCritical => number_in(slot_of(view, info.object, place as usize)),
            Family::StringCritical => unit_at(view, info.object, place as usize),
        },
    }
}

fn unit_at<A: Allocator + Clone>(view: &View<'_, A>, object: ObjId, index: usize) -> i64
    ensures { (p : Parts) → ViewStands view.now p
        → result ≡ pos (slice_index_or (names_of.units_of view.now.setup.now p object.0) index 0) }
{
    i64::from(units_of(view, object).get(index).copied().unwrap_or(0))
}

/// What a call of the group answers, where it breaks no rule.
pub(crate) fn answer_buffers<A: Allocator + Clone>(
    view: &View<'_, A>,
    tid: Tid,
    call: &BuffersCall,
) -> Answer
    requires { IsDue view.now.setup.now (rows_in view.now) tid.0 (Buffers call.now) }
    ensures { (p : Parts) → ViewStands view.now p
        → result ≡ buffers_answer view.now.setup.now p tid call.now }
{
    match call {
        BuffersCall::GetArrayElements { .. } => lending(view, tid),
        BuffersCall::ReleaseArrayElements { .. } => plain(Value::Ok),
        BuffersCall::GetStringChars { .. } => lending(view, tid),
        BuffersCall::ReleaseStringChars { .. } => plain(Value::Ok),
        BuffersCall::GetStringUTFChars { .. } => lending(view, tid),
        BuffersCall::ReleaseStringUTFChars { .. } => plain(Value::Ok),
        BuffersCall::GetPrimitiveArrayCritical { .. } => lending(view, tid),
        BuffersCall::ReleasePrimitiveArrayCritical { .. } => plain(Value::Ok),
        BuffersCall::GetStringCritical { .. } => lending(view, tid),
        BuffersCall::ReleaseStringCritical { .. } => plain(Value::Ok),
        BuffersCall::BufferRead { buffer, index } => {
            plain(Value::Number(item_of(view, tid, *buffer, *index)))
        }
        BuffersCall::BufferWrite { .. } => plain(Value::Ok),
    }
}

fn numbers_of_units<A: Allocator>(alloc: A, units: &[u16]) -> Result<Vec<i64, A>, AllocError>
    ensures { IfOk result (λ numbers. numbers.items ≡ map pos units.now) }
{
    let mut numbers = Vec::with_capacity(alloc, units.len())?;
    for unit in units {
        numbers.push(i64::from(*unit))?;
    }
    Ok(numbers)
}

fn numbers_of_bytes<A: Allocator>(alloc: A, bytes: &[u8]) -> Result<Vec<i64, A>, AllocError>
    ensures { IfOk result (λ numbers. numbers.items ≡ map pos bytes.now) }
{
    let mut numbers = Vec::with_capacity(alloc, bytes.len())?;
    for byte in bytes {
        numbers.push(i64::from(*byte))?;
    }
    Ok(numbers)
}

fn copy_items<A: Allocator + Clone>(
    tables: &mut Tables<A>,
    setup: &Setup,
    tid: Tid,
    element: Primitive,
    array: Ref,
) -> Result<(), AllocError>
    requires { IsDue setup.now (rows_of tables.old) tid.0 (Buffers (GetArrayElements element array)) }
    ensures stands { OnOk result ((p : Parts) → TablesStand setup.now (rows_of tables.old) p
        → TablesStand setup.now (rows_of tables.new)
        (done_by setup.now tid.0 (Buffers (GetArrayElements element array)) p)) }
    ensures locals { tables.new.locals ≡ tables.old.locals }
    ensures links { tables.new.links ≡ tables.old.links }
    ensures err { OnErr result (rows_of tables.new ≡ rows_of tables.old) }
{
    let object = the_object(&tables.view(setup), tid, array);
    let n = tables.threads.next_buf(tid);
    let items = tables.heap.items(object);
    tables.buffers.open_copy(
        tid,
        n,
        object,
        Family::Elements(ItemType::Of(element)),
        items,
    )?;
    Ok(())
}

fn copy_units<A: Allocator + Clone>(
    tables: &mut Tables<A>,
    setup: &Setup,
    tid: Tid,
    string: Ref,
) -> Result<(), AllocError>
    requires { IsDue setup.now (rows_of tables.old) tid.0 (Buffers (GetStringChars string)) }
    ensures stands { OnOk result ((p : Parts) → TablesStand setup.now (rows_of tables.old) p
        → TablesStand setup.now (rows_of tables.new) (done_by setup.now tid.0 (Buffers (GetStringChars string)) p)) }
    ensures locals { tables.new.locals ≡ tables.old.locals }
    ensures links { tables.new.links ≡ tables.old.links }
    ensures err { OnErr result (rows_of tables.new ≡ rows_of tables.old) }
{
    let object = the_object(&tables.view(setup), tid, string);
    let n = tables.threads.next_buf(tid);
    let items = numbers_of_units(tables.alloc.clone()?, tables.heap.string(object))?;
    tables
        .buffers
        .open_copy(tid, n, object, Family::Chars, &items)?;
    Ok(())
}

fn copy_bytes<A: Allocator + Clone>(
    tables: &mut Tables<A>,
    setup: &Setup,
    tid: Tid,
    string: Ref,
) -> Result<(), AllocError>
    requires { IsDue setup.now (rows_of tables.old) tid.0 (Buffers (GetStringUTFChars string)) }
    ensures stands { OnOk result ((p : Parts) → TablesStand setup.now (rows_of tables.old) p
        → TablesStand setup.now (rows_of tables.new)
        (done_by setup.now tid.0 (Buffers (GetStringUTFChars string)) p)) }
    ensures locals { tables.new.locals ≡ tables.old.locals }
    ensures links { tables.new.links ≡ tables.old.links }
    ensures err { OnErr result (rows_of tables.new ≡ rows_of tables.old) }
{
    let object = the_object(&tables.view(setup), tid, string);
    let n = tables.threads.next_buf(tid);
    let bytes = to_mutf8(tables.alloc.clone()?, tables.heap.string(object))?;
    let items = numbers_of_bytes(tables.alloc.clone()?, &bytes)?;
    tables
        .buffers
        .open_copy(tid, n, object, Family::UtfChars, &items)?;
    Ok(())
}

fn pin_array<A: Allocator + Clone>(
    tables: &mut Tables<A>,
    setup: &Setup,
    tid: Tid,
    array: Ref,
) -> Result<(), AllocError>
    requires { IsDue setup.now (rows_of tables.old) tid.0 (Buffers (GetPrimitiveArrayCritical array)) }
    ensures stands { OnOk result ((p : Parts) → TablesStand setup.now (rows_of tables.old) p
        → TablesStand setup.now (rows_of tables.new)
        (done_by setup.now tid.0 (Buffers (GetPrimitiveArrayCritical array)) p)) }
    ensures locals { tables.new.locals ≡ tables.old.locals }
    ensures links { tables.new.links ≡ tables.old.links }
    ensures err { OnErr result (rows_of tables.new ≡ rows_of tables.old) }
{
    let object = the_object(&tables.view(setup), tid, array);
    let n = tables.threads.next_buf(tid);
    let length = tables.heap.array_len(object) as u64;
    tables
        .buffers
        .open_pin(tid, n, object, Family::ArrayCritical, array, length)?;
    Ok(())
}

fn pin_string<A: Allocator + Clone>(
    tables: &mut Tables<A>,
    setup: &Setup,
    tid: Tid,
    string: Ref,
) -> Result<(), AllocError>
    requires { IsDue setup.now (rows_of tables.old) tid.0 (Buffers (GetStringCritical string)) }
    ensures stands { OnOk result ((p : Parts) → TablesStand setup.now (rows_of tables.old) p
        → TablesStand setup.now (rows_of tables.new)
        (done_by setup.now tid.0 (Buffers (GetStringCritical string)) p)) }
    ensures locals { tables.new.locals ≡ tables.old.locals }
    ensures links { tables.new.links ≡ tables.old.links }
    ensures err { OnErr result (rows_of tables.new ≡ rows_of tables.old) }
{
    let object = the_object(&tables.view(setup), tid, string);
    let n = tables.threads.next_buf(tid);
    let length = tables.heap.string(object).len() as u64;
    tables
        .buffers
        .open_pin(tid, n, object, Family::StringCritical, string, length)?;
    Ok(())
}

fn writes_back(mode: i32) -> bool
    ensures { result ≡ buffers_of.writes_back mode }
{
    0 <= mode && mode <= 1
}

fn is_commit(mode: i32) -> bool
    ensures { result ≡ buffers_of.is_commit mode }
{
    natural(mode) == 1
}

/// Writes the items of a copy back into its array, by mode 0 and by JNI_COMMIT.
fn copy_back<A: Allocator + Clone>(
    tables: &mut Tables<A>,
    setup: &Setup,
    tid: Tid,
    element: Primitive,
    array: Ref,
    buffer: BufId,
    mode: i32,
)
    requires { IsDue setup.now (rows_of tables.old) tid.0 (Buffers (ReleaseArrayElements element array buffer mode)) }
    ensures stands { (p : Parts) → TablesStand setup.now (rows_of tables.old) p
        → TablesStand setup.now (rows_of tables.new)
        (heap_on (copied_back p buffer mode) p) }
    ensures locals { tables.new.locals ≡ tables.old.locals }
    ensures links { tables.new.links ≡ tables.old.links }
{
    let _element = element;
    let (_tid, _array) = (tid, array);
    if !writes_back(mode) {
        return;
    }
    let found = buffer_named(&tables.view(setup), buffer);
    let Some(info) = found else { return };
    let items = tables.buffers.commit(buffer);
    tables.heap.set_region(info.object, 0, items);
}

fn close<A: Allocator + Clone>(tables: &mut Tables<A>, buffer: BufId)
    ensures stands { (s : StatedSetup) (p : Parts) → TablesStand s (rows_of tables.old) p
        → TablesStand s (rows_of tables.new) (buffers_on (closed buffer) p) }
    ensures locals { tables.new.locals ≡ tables.old.locals }
    ensures links { tables.new.links ≡ tables.old.links }
{
    tables.buffers.close(buffer);
}

/// Closes the buffer, unless the mode is JNI_COMMIT.
fn close_by<A: Allocator + Clone>(tables: &mut Tables<A>, mode: i32, buffer: BufId)
    ensures stands { (s : StatedSetup) (p : Parts) → TablesStand s (rows_of tables.old) p
        → TablesStand s (rows_of tables.new) (buffers_on (closed_by mode buffer) p) }
    ensures locals { tables.new.locals ≡ tables.old.locals }
    ensures links { tables.new.links ≡ tables.old.links }
{
    if !is_commit(mode) {
        close(tables, buffer);
    }
}

/// Writes an item: of a copy its own, of a pinned array the array's.
fn write<A: Allocator + Clone>(
    tables: &mut Tables<A>,
    setup: &Setup,
    tid: Tid,
    buffer: BufId,
    index: i32,
    value: i64,
)
    requires { IsDue setup.now (rows_of tables.old) tid.0 (Buffers (BufferWrite buffer index value)) }
    ensures stands { (p : Parts) → TablesStand setup.now (rows_of tables.old) p
        → TablesStand setup.now (rows_of tables.new)
        (done_by setup.now tid.0 (Buffers (BufferWrite buffer index value)) p) }
    ensures locals { tables.new.locals ≡ tables.old.locals }
    ensures links { tables.new.links ≡ tables.old.links }
{
    let _tid = tid;
    let place = natural(index);
    let found = buffer_named(&tables.view(setup), buffer);
    let Some(info) = found else { return };
    match info.family {
        Family::Elements(_) => tables.buffers.write(buffer, u64::from(place), value),
        Family::ArrayCritical => {
            tables
                .heap
                .set_element(info.object, place as usize, Slot::Number(value));
        }
        Family::Chars => unreachable!(),
        Family::UtfChars => unreachable!(),
        Family::StringCritical => unreachable!(),
    }
}

/// Does what a passed call of the group does. All that can be refused comes first: an `Err` leaves
/// all rows as they were.
pub(crate) fn perform_buffers<A: Allocator + Clone>(
    tables: &mut Tables<A>,
    setup: &Setup,
    tid: Tid,
    call: &BuffersCall,
) -> Result<(), AllocError>
    requires { IsEffective setup.now (rows_of tables.old) tid (Buffers call.now) }
    ensures stands { OnOk result ((p : Parts) → TablesStand setup.now (rows_of tables.old) p
        → TablesStand setup.now (rows_of tables.new) (done_by setup.now tid.0 (Buffers call.now) p)) }
    ensures room { OnOk result (KeepsRoom tables.old tables.new tid.0 (Buffers call.now)) }
    ensures err { OnErr result (rows_of tables.new ≡ rows_of tables.old) }
    ensures wants { OnErr result (cleans_up (Buffers call.now) ≡ false) }
{
    match call {
        BuffersCall::GetArrayElements { element, array } => {
            copy_items(tables, setup, tid, *element, *array)?;
        }
        BuffersCall::ReleaseArrayElements {
            element,
            array,
            buffer,
            mode,
        } => {
            copy_back(tables, setup, tid, *element, *array, *buffer, *mode);
            close_by(tables, *mode, *buffer);
        }
        BuffersCall::GetStringChars { string } => copy_units(tables, setup, tid, *string)?,
        BuffersCall::ReleaseStringChars { buffer, .. } => close(tables, *buffer),
        BuffersCall::GetStringUTFChars { string } => copy_bytes(tables, setup, tid, *string)?,
        BuffersCall::ReleaseStringUTFChars { buffer, .. } => close(tables, *buffer),
        BuffersCall::GetPrimitiveArrayCritical { array } => pin_array(tables, setup, tid, *array)?,
        BuffersCall::ReleasePrimitiveArrayCritical { buffer, mode, .. } => {
            close_by(tables, *mode, *buffer);
        }
        BuffersCall::GetStringCritical { string } => pin_string(tables, setup, tid, *string)?,
        BuffersCall::ReleaseStringCritical { buffer, .. } => close(tables, *buffer),
        BuffersCall::BufferRead { .. } => {}
        BuffersCall::BufferWrite {
            buffer,
            index,
            value,
        } => write(tables, setup, tid, *buffer, *index, *value),
    }
    Ok(())
}
