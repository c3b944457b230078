//! One thread's list of locals, which ascends by number.

ghost use Rattle.std.specs.Prelude.{◌≡◌, ◌≤◌, ◌<◌, ◌+◌, ◌-◌, ◌/◌, ◌&&◌, ◌==◌, ◌||◌, ◌++◌, ◌∷◌, ◌↔◌, [], IsTrue, List, All, OnOk, OnErr, map, Some, None, true, false, not, if◌then◌else◌, filter, find, length, option_to_list, vec_len, vec_capacity};
ghost use Rattle.std.specs.Option.{is_some, option_map};
ghost use Rattle.jg_table_locals.specs.Seen.{Chain, is_before, is_live, dead_in, last, passes, stays, is_below, IsBelowAll, Sound, slot_ref};
ghost use Rattle.jg_table_locals.specs.declared.row.Frame.{Frame};

use crate::row::{Frame, LocalSlot};
use crate::slot_list::SlotList;
use jg_words::{Kind, Ref, Tid};
use std::alloc::{AllocError, Allocator};

/// The object of the live local `n`.
pub fn object_of<A: Allocator>(slots: &SlotList<A>, n: u64) -> Option<u64>
    requires { Chain is_before slots.now.items }
    ensures { result ≡ option_map (λ s. s.object) (find (λ s. s.n == n) (filter is_live slots.now.items)) }
{
    let i = slots.place_of(n)?;
    let slot = slots.as_slice()[i];
    if slot.live { Some(slot.object) } else { None }
}

/// Marks the local `n` dead, and answers it if it was live.
fn mark_dead<A: Allocator>(slots: &mut SlotList<A>, n: u64) -> Option<LocalSlot>
    requires { Chain is_before slots.old.items }
    ensures was { result ≡ find (λ s. s.n == n) (filter is_live slots.old.items) }
    ensures marked { filter is_live slots.new.items ≡ filter (λ s. not (s.n == n)) (filter is_live slots.old.items) }
    ensures sound { (frames : List Frame) → Sound slots.old.items frames → Sound slots.new.items frames }
    ensures rises { Chain is_before slots.new.items }
    ensures room { slots.old.room ≤ slots.new.room }
    ensures dead { dead_in slots.new.items ≤ dead_in slots.old.items + (if is_some result then 1 else 0) }
    ensures counted { length (filter is_live slots.old.items)
        ≡ length (filter is_live slots.new.items) + (if is_some result then 1 else 0) }
{
    match slots.place_of(n) {
        Some(i) => live_slot(slots.end(i)),
        None => None,
    }
}

fn live_slot(slot: LocalSlot) -> Option<LocalSlot>
    ensures { result ≡ if slot.live then Some slot else None }
{
    if slot.live { Some(slot) } else { None }
}

/// The newest slot, live or dead.
pub fn newest_slot(slots: &[LocalSlot]) -> Option<LocalSlot>
    ensures { result ≡ last slots.now }
{
    slots.last().copied()
}

fn is_below(slot: LocalSlot, frame: Frame) -> bool
    ensures { result ≡ is_below slot frame }
{
    slot.depth < frame.depth || slot.depth == frame.depth && slot.frame < frame.frame
}

/// Whether the newest slot, if any, is live and, where a frame is named, below it.
fn ends_well(slots: &[LocalSlot], from: Option<Frame>) -> bool
    ensures ends { result ≡ passes (stays from) (last slots.now) }
    ensures some { result ≡ false → 0 < length slots.now }
{
    let Some(slot) = newest_slot(slots) else {
        return true;
    };
    match from {
        None => slot.live,
        Some(frame) => slot.live && is_below(slot, frame),
    }
}

/// How many live slots that is: one or none.
fn live_count(slot: Option<LocalSlot>) -> usize
    ensures { result ≡ length (filter is_live (option_to_list slot)) }
{
    match slot {
        None => 0,
        Some(slot) => { if slot.live { 1 } else { 0 } }
    }
}

/// Cuts off the newest slots that are dead or, where a frame is named, not below it, and answers how many
/// of them were live.
pub fn cut<A: Allocator>(slots: &mut SlotList<A>, from: Option<Frame>) -> usize
    requires { Chain is_before slots.old.items }
    ensures live { filter is_live slots.new.items ≡ filter (stays from) slots.old.items }
    ensures below { IsBelowAll from slots.new.items }
    ensures sound { (frames : List Frame) → Sound slots.old.items frames → Sound slots.new.items frames }
    ensures ends { passes is_live (last slots.new.items) ≡ true }
    ensures room { slots.old.room ≤ slots.new.room }
    ensures dead { dead_in slots.new.items ≤ dead_in slots.old.items }
    ensures counted { length (filter is_live slots.old.items) ≡ length (filter is_live slots.new.items) + result }
{
    // No more are live than there are slots, which a `Vec` bounds.
    let _slots = slots.as_slice();
    let mut ended = 0usize;
    while !ends_well(slots.as_slice(), from) {
        ended += live_count(slots.pop());
    }
    ended
}

/// Ends the local `n`, and answers it if it was live.
pub fn end_local<A: Allocator>(slots: &mut SlotList<A>, n: u64) -> Option<LocalSlot>
    requires { Chain is_before slots.old.items }
    ensures was { result ≡ find (λ s. s.n == n) (filter is_live slots.old.items) }
    ensures live { filter is_live slots.new.items ≡ filter (λ s. not (s.n == n)) (filter is_live slots.old.items) }
    ensures sound { (frames : List Frame) → Sound slots.old.items frames → Sound slots.new.items frames }
    ensures ends { passes is_live (last slots.new.items) ≡ true }
    ensures room { slots.old.room ≤ slots.new.room }
    ensures dead { dead_in slots.new.items ≤ dead_in slots.old.items + (if is_some result then 1 else 0) }
    ensures counted { length (filter is_live slots.old.items)
        ≡ length (filter is_live slots.new.items) + (if is_some result then 1 else 0) }
{
    let was = mark_dead(slots, n);
    cut(slots, None);
    was
}

/// Closes the list up if more than a quarter of it and eight may be dead, so that a collection goes
/// over few slots in vain. `dead` is at least the number of the dead slots, and so is the answer.
pub fn close_up_if<A: Allocator>(slots: &mut SlotList<A>, dead: usize) -> usize
    ensures live { filter is_live slots.new.items ≡ filter is_live slots.old.items }
    ensures sound { (frames : List Frame) → Sound slots.old.items frames → Sound slots.new.items frames }
    ensures below { (frame : Frame) → IsBelowAll (Some frame) slots.old.items
        → IsBelowAll (Some frame) slots.new.items }
    ensures ends { passes is_live (last slots.old.items) ≡ true → passes is_live (last slots.new.items) ≡ true }
    ensures room { slots.old.room ≤ slots.new.room }
    ensures dead { dead_in slots.old.items ≤ dead → dead_in slots.new.items ≤ result }
    ensures few { result ≤ length slots.new.items / 4 + 8 }
    ensures kept { dead ≤ length slots.old.items / 4 + 8 → slots.new ≡ slots.old }
{
    let count = slots.as_slice().len();
    let dead = dead.min(count);
    if dead > count / 4 + 8 {
        slots.close_up();
        0
    } else {
        dead
    }
}

/// Whether `n` is above the number of each live local.
pub fn is_above_all(slots: &[LocalSlot], n: u64) -> bool
    requires rises { Chain is_before slots.now }
    requires ends { passes is_live (last slots.now) ≡ true }
    ensures { IsTrue result ↔ All (λ s. s.n < n) (filter is_live slots.now) }
{
    match newest_slot(slots) {
        None => true,
        Some(slot) => slot.n < n,
    }
}

/// The number of the first live local that names the object.
pub fn number_of(slots: &[LocalSlot], object: u64) -> Option<u64>
    ensures { result ≡ option_map (λ s. s.n) (find (λ s. s.object == object) (filter is_live slots.now)) }
{
    match slot_of(slots, object) {
        None => None,
        Some(slot) => Some(slot.n),
    }
}

fn slot_of(slots: &[LocalSlot], object: u64) -> Option<LocalSlot>
    ensures { result ≡ find (λ s. s.live && s.object == object) slots.now }
{
    slots
        .iter()
        .copied()
        .find(|slot| slot.live && slot.object == object)
}

/// Appends a reference to the slot's local, if the slot is live.
fn list_if_live<B: Allocator>(
    slot: &LocalSlot,
    tid: u16,
    refs: &mut Vec<Ref, B>,
) -> Result<(), AllocError>
    ensures ok { OnOk result (refs.new.items
        ≡ refs.old.items ++ map (slot_ref tid) (filter is_live (slot.now ∷ []))) }
    ensures full { OnErr result (vec_capacity refs.new ≤ vec_len refs.new) }
{
    if slot.live {
        refs.reserve(1)?;
        refs.push_reserved(Ref::To {
            kind: Kind::Local,
            maker: Tid(tid),
            n: slot.n,
        });
    }
    Ok(())
}

/// Appends a reference to each live local of the thread.
pub fn list_live<B: Allocator>(
    slots: &[LocalSlot],
    tid: u16,
    refs: &mut Vec<Ref, B>,
) -> Result<(), AllocError>
    ensures ok { OnOk result (refs.new.items ≡ refs.old.items ++ map (slot_ref tid) (filter is_live slots.now)) }
    ensures full { OnErr result (vec_capacity refs.new ≤ vec_len refs.new) }
{
    for slot in slots {
        list_if_live(slot, tid, refs)?;
    }
    Ok(())
}
