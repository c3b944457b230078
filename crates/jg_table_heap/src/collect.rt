//! The steps of a collection: objects are marked, those that go are listed, and they are let go.

ghost use Rattle.std.specs.Prelude.{◌≡◌, ℕ, ◌+◌, ◌-◌, ◌++◌, ◌<◌, ◌≤◌, ◌&&◌, All, false, not, ◌==◌, OnOk, length, slice_get, slice_index_or, nat_lt, map, filter, vec_len, vec_capacity};
ghost use Rattle.std.specs.List.{list_any, range_with_len};
ghost use Rattle.jg_table_heap.specs.declared.object.Slot.TheVariants.{Object as ToObject};
ghost use Rattle.jg_table_heap.specs.History.{holds};
ghost use Rattle.jg_table_heap.specs.Kept.{slots_of_body, row_of_body, slot_of_row_holds, unheld_in, marked_or_root, block_of, numbers_in, trues, AreWhole, LetsGo};
ghost use Rattle.jg_lists.specs.Marks.{Marks};

use crate::body::Body;
use crate::object::Slot;
use crate::roots::Roots;
use jg_lists::{Marking, ObjectMarks};
use jg_words::ObjId;
use std::alloc::{AllocError, Allocator};

/// Marks the object that is named, if one is.
fn mark_target<A: Allocator>(marks: &mut ObjectMarks<A>, target: Option<ObjId>)
    ensures { Marks (λ o. holds o (ToObject target)) (slice_get marks.old) (slice_get marks.new) }
{
    if let Some(target) = target {
        marks.set(target.0);
    }
}

/// Marks the object that a slot names, if it names one.
fn mark_slot<A: Allocator>(marks: &mut ObjectMarks<A>, slot: Slot)
    ensures { Marks (λ o. holds o slot) (slice_get marks.old) (slice_get marks.new) }
{
    if let Slot::Object(target) = slot {
        mark_target(marks, target);
    }
}

/// Marks the class objects.
pub(crate) fn mark_classes<A: Allocator>(marks: &mut ObjectMarks<A>, class_count: u64)
    ensures { Marks (λ o. nat_lt o class_count) (slice_get marks.old) (slice_get marks.new) }
{
    for object in 0..class_count {
        marks.set(object);
    }
}

/// Marks each object that a field names.
fn mark_fields<A: Allocator>(marks: &mut ObjectMarks<A>, slots: &[Slot])
    ensures { Marks (λ o. list_any (holds o) slots.now) (slice_get marks.old) (slice_get marks.new) }
{
    for slot in slots {
        mark_slot(marks, *slot);
    }
}

/// Marks each object that an array's item names.
fn mark_items<A: Allocator>(marks: &mut ObjectMarks<A>, items: &[Option<ObjId>])
    ensures { Marks (λ o. list_any (λ target. holds o (ToObject target)) items.now) (slice_get marks.old)
        (slice_get marks.new) }
{
    for target in items {
        mark_target(marks, *target);
    }
}

/// Marks each object that stands in a slot.
fn mark_slots<A: Allocator>(marks: &mut ObjectMarks<A>, body: &Body<A>)
    ensures { Marks (λ o. list_any (holds o) (slots_of_body body.now)) (slice_get marks.old) (slice_get marks.new) }
{
    match body {
        Body::Fields(instance) => mark_fields(marks, &instance.slots),
        Body::References(items) => mark_items(marks, items),
        Body::Numbers { .. } => {}
        Body::Class | Body::Units(_) => {}
    }
}

/// Marks each object that stands in a slot of one of these.
pub(crate) fn mark_pointed<A: Allocator>(
    marks: &mut ObjectMarks<A>,
    objects: &[Body<A>],
    pointing: &[u64],
)
    requires { All (λ p. p < length objects.now) pointing.now }
    ensures { Marks (λ o. list_any (slot_of_row_holds (map row_of_body objects.now) o) pointing.now)
        (slice_get marks.old) (slice_get marks.new) }
{
    for object in pointing {
        mark_slots(marks, &objects[*object as usize]);
    }
}

/// How many objects a block has. The processor compares so many marks at once.
pub(crate) const BLOCK: usize = 32;

/// How many objects a part of a block has. Those of a part are asked one by one.
const PART: usize = 8;

/// Whether the object is in being and isn't marked.
fn is_unheld<A: Allocator>(marks: &ObjectMarks<A>, there: &[bool], object: usize) -> bool
    requires { object < length there.now }
    ensures { result ≡ unheld_in there.now marks.now object }
{
    there[object] & !marks.is_set(object as u64)
}

/// Lists those of the objects from `first` on, before `end`, that are in being and aren't marked.
fn list_among<A: Allocator>(
    marks: &ObjectMarks<A>,
    there: &[bool],
    first: usize,
    end: usize,
    unheld: &mut Vec<u64, A>,
) -> Result<(), AllocError>
    requires order { first ≤ end }
    requires within { end ≤ length there.now }
    ensures { OnOk result (unheld.new.items
        ≡ unheld.old.items ++ filter (unheld_in there.now marks.now) (range_with_len first (end - first))) }
{
    if !marks.misses(first as u64, &there[first..end]) {
        return Ok(());
    }
    for object in first..end {
        if is_unheld(marks, there, object) {
            unheld.push(object as u64)?;
        }
    }
    Ok(())
}

/// Lists those of the objects of a block that are in being and aren't marked.
fn list_block<A: Allocator>(
    marks: &ObjectMarks<A>,
    there: &[bool],
    first: usize,
    unheld: &mut Vec<u64, A>,
) -> Result<(), AllocError>
    requires { first + 32 ≤ length there.now }
    ensures { OnOk result (unheld.new.items
        ≡ unheld.old.items ++ filter (unheld_in there.now marks.now) (block_of first)) }
{
    if !marks.misses(first as u64, &there[first..first + BLOCK]) {
        return Ok(());
    }
    for part in 0..BLOCK / PART {
        let at = first + part * PART;
        list_among(marks, there, at, at + PART, unheld)?;
    }
    Ok(())
}

/// Lists those of the objects of the blocks, and of those from `loose` on, that are in being and aren't
/// marked.
pub(crate) fn list_unheld<A: Allocator>(
    marks: &ObjectMarks<A>,
    there: &[bool],
    blocks: &[u64],
    loose: usize,
    unheld: &mut Vec<u64, A>,
) -> Result<(), AllocError>
    requires whole { AreWhole blocks.now (length there.now) }
    requires loose { loose ≤ length there.now }
    ensures { OnOk result (unheld.new.items
        ≡ filter (unheld_in there.now marks.now) (numbers_in blocks.now loose (length there.now))) }
{
    unheld.clear();
    for block in blocks {
        list_block(marks, there, *block as usize, unheld)?;
    }
    list_among(marks, there, loose, there.len(), unheld)
}

/// Lets go of each of the objects.
pub(crate) fn let_all_go(there: &mut [bool], unheld: &[u64])
    requires { All (λ p. p < length there.old) unheld.now }
    ensures { (o : ℕ) → slice_index_or there.new o false
        ≡ (slice_index_or there.old o false && not (list_any (λ p. p == o) unheld.now)) }
{
    for object in unheld {
        there[*object as usize] = false;
    }
}

/// Whether the object is in being, isn't marked, and isn't held by the roots.
fn is_let_go<A: Allocator, R: Roots>(
    there: &[bool],
    marks: &ObjectMarks<A>,
    roots: &R,
    object: usize,
) -> bool
    requires { object < length there.now }
    ensures { result
        ≡ (slice_index_or there.now object false && not (marked_or_root marks.now (R.is_root roots.now) object)) }
{
    let number = object as u64;
    there[object] && !(marks.is_set(number) || roots.holds(ObjId(number)))
}

/// Lets go of those of the objects from `first` on, before `end`, that are in being and that neither marks nor
/// roots hold, and answers how many went.
fn let_go_among<A: Allocator, R: Roots>(
    there: &mut [bool],
    marks: &ObjectMarks<A>,
    roots: &R,
    first: usize,
    end: usize,
) -> usize
    requires order { first ≤ end }
    requires within { end ≤ length there.old }
    ensures there { LetsGo (marked_or_root marks.now (R.is_root roots.now)) (range_with_len first (end - first))
        there.old there.new }
    ensures count { result + trues there.new ≡ trues there.old }
{
    let mut count = 0usize;
    for object in first..end {
        if is_let_go(there, marks, roots, object) {
            there[object] = false;
            count += 1;
        }
    }
    count
}

/// Lets go of those of the objects of the blocks, and of those from `loose` on, that are in being and that
/// neither marks nor roots hold, and answers how many went.
pub(crate) fn let_unheld_go<A: Allocator, R: Roots>(
    there: &mut [bool],
    marks: &ObjectMarks<A>,
    roots: &R,
    blocks: &[u64],
    loose: usize,
) -> usize
    requires whole { AreWhole blocks.now (length there.old) }
    requires loose { loose ≤ length there.old }
    ensures there { LetsGo (marked_or_root marks.now (R.is_root roots.now))
        (numbers_in blocks.now loose (length there.old)) there.old there.new }
    ensures count { result + trues there.new ≡ trues there.old }
{
    let end = there.len();
    let mut count = 0usize;
    for block in blocks {
        let first = *block as usize;
        count += let_go_among(there, marks, roots, first, first + BLOCK);
    }
    count + let_go_among(there, marks, roots, loose, end)
}

/// Keeps the numbers of those that are marked or held by the roots.
pub(crate) fn retain_held<A: Allocator, R: Roots>(
    numbers: &mut Vec<u64, A>,
    marks: &ObjectMarks<A>,
    roots: &R,
)
    ensures { numbers.new.items ≡ filter (marked_or_root marks.now (R.is_root roots.now)) numbers.old.items }
{
    numbers.retain(|object| marks.is_set(*object) || roots.holds(ObjId(*object)));
}

/// Keeps the numbers of those that are marked.
pub(crate) fn retain_marked<A: Allocator>(numbers: &mut Vec<u64, A>, marks: &ObjectMarks<A>)
    ensures { numbers.new.items ≡ filter (λ o. slice_index_or marks.now o false) numbers.old.items }
{
    numbers.retain(|object| marks.is_set(*object));
}

/// Puts the first of the loose objects into a block, if they fill one, and answers from where on they are
/// loose. There is room for a block.
pub(crate) fn fill_block<A: Allocator>(
    blocks: &mut Vec<u64, A>,
    loose: usize,
    count: usize,
) -> usize
    requires room { vec_len blocks.old < vec_capacity blocks.old }
    requires loose { loose ≤ count }
    ensures same { numbers_in blocks.new.items result count ≡ numbers_in blocks.old.items loose count }
    ensures whole { AreWhole blocks.old.items count → AreWhole blocks.new.items count }
    ensures loose { result ≤ count }
    ensures filled { 32 ≤ count - loose → result ≡ loose + 32 }
{
    if count - loose < BLOCK {
        return loose;
    }
    blocks.push_reserved(loose as u64);
    loose + BLOCK
}

/// Whether one of these is true.
fn some_true(flags: &[bool]) -> bool
    ensures { result ≡ list_any (λ flag. flag) flags.now }
{
    flags.iter().any(|flag| *flag)
}

/// Whether an object of the block is in being.
fn has_some(there: &[bool], block: u64) -> bool
    ensures { result ≡ list_any (λ o. slice_index_or there.now o false) (block_of block) }
{
    let first = block as usize;
    if first >= there.len() {
        return false;
    }
    let end = there.len().min(first + BLOCK);
    some_true(&there[first..end])
}

/// Keeps the blocks of which some object is in being, if more objects were let go since that was done than
/// blocks stand in the list. `stale` is how many were, and so is the answer.
pub(crate) fn close_up_if<A: Allocator>(
    blocks: &mut Vec<u64, A>,
    there: &[bool],
    stale: usize,
) -> usize
    requires { AreWhole blocks.old.items (length there.now) }
    ensures there { (loose : ℕ)
        → filter (λ o. slice_index_or there.now o false) (numbers_in blocks.new.items loose (length there.now))
        ≡ filter (λ o. slice_index_or there.now o false) (numbers_in blocks.old.items loose (length there.now)) }
    ensures whole { AreWhole blocks.new.items (length there.now) }
    ensures looked_over { length blocks.old.items + 8 < stale → result ≡ 0 }
{
    if stale > blocks.len() + 8 {
        blocks.retain(|block| has_some(there, *block));
        0
    } else {
        stale
    }
}
