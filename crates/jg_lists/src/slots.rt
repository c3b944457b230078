//! The slots in which the place of a number's seat is searched for. The search for a number begins at its
//! home and goes on from slot to slot, until it comes to the number's place or to a free slot. It mostly
//! ends at once, since half of the slots are free, and numbers that follow one another have homes that do.
//! What a slot has is a guess: each search checks that the seat is the number's. So where the homes lie
//! matters for the time alone, and a slot may keep what counts no more.

ghost use Rattle.std.specs.Prelude.{◌≡◌, ◌≢◌, ℕ, ◌<◌, ◌≤◌, ◌+◌, ◌^◌, true, false, length, map, slice_index_or, IfSome, IfOk, OnErr, None};
ghost use Rattle.jg_lists.specs.ByNumber.{number_of};
ghost use Rattle.jg_lists.specs.Searches.{home, spot, following, Reaches, filled, Placed, Standing, Finds, Misses, MayStand, Moves, MovesLast, IsFree, Leaves};

use crate::by_number::Numbered;
use std::alloc::{AllocError, Allocator};

/// The fewest slots that a table has, once it has any.
const FEWEST: usize = 32;

/// Spreads the numbers over the slots: 2^64 by the golden ratio, whose multiples lie far apart.
const SPREAD: u64 = 0x9E37_79B9_7F4A_7C15;

/// What stands in a slot whose number has no seat any more: no place, and not free.
const GONE: u32 = u32::MAX;

/// Where the search for a number ended: at that slot, which has the place of that seat.
#[derive(Clone, Copy)]
pub struct Found {
    pub slot: usize,
    pub seat: usize,
}

/// Where the search for a number begins, of so many slots.
fn home(number: u64, count: usize) -> usize
    requires { 0 < count }
    ensures value { result ≡ home count number }
    ensures within { result < count }
{
    let shift = (count.leading_zeros() % 64 + 5) % 64;
    let block = (number / 16).wrapping_mul(SPREAD) >> shift;
    ((block << 4) | (number % 16)) as usize & (count - 1)
}

/// The slot that a search looks at after so many others.
fn spot(first: usize, step: usize, count: usize) -> usize
    requires first { first < count }
    requires step { step < count }
    ensures value { result ≡ spot count first step }
    ensures within { result < count }
{
    let rest = count - first;
    if step < rest {
        first + step
    } else {
        step - rest
    }
}

/// The slot after that one.
fn following(slot: usize, count: usize) -> usize
    requires { slot < count }
    ensures value { result ≡ following count slot }
    ensures within { result < count }
{
    let next = slot + 1;
    if next < count { next } else { 0 }
}

/// Whether that seat is there, and is the number's.
fn is_own<V, A: Allocator>(seats: &Vec<Numbered<V>, A>, seat: usize, number: u64) -> bool
    ensures yes { result ≡ true → (seat < length (map number_of seats.now.items))
        × (slice_index_or (map number_of seats.now.items) seat 0 ≡ number) }
    ensures no { result ≡ false → seat < length (map number_of seats.now.items)
        → slice_index_or (map number_of seats.now.items) seat 0 ≢ number }
{
    if seat < seats.len() {
        seats[seat].number == number
    } else {
        false
    }
}

/// Where the number's place stands, if it has a seat.
pub fn find_slot<V, A: Allocator>(
    slots: &Vec<u32, A>,
    seats: &Vec<Numbered<V>, A>,
    number: u64,
) -> Option<Found>
    ensures found { IfSome result (λ f. Finds slots.now.items (map number_of seats.now.items) number f.slot f.seat) }
    ensures none { result ≡ None → Misses slots.now.items (map number_of seats.now.items) number }
{
    let count = slots.len();
    if count == 0 {
        return None;
    }
    let first = home(number, count);
    for step in 0..count {
        let slot = spot(first, step, count);
        let place = slots[slot] as usize;
        if place == 0 {
            return None;
        }
        let seat = place - 1;
        if is_own(seats, seat, number) {
            return Some(Found { slot, seat });
        }
    }
    None
}

/// The first free slot that the search for the number comes to.
fn free_slot<A: Allocator>(slots: &Vec<u32, A>, number: u64) -> usize
    requires { filled slots.now.items < length slots.now.items }
    ensures { IsFree slots.now.items number result }
{
    let count = slots.len();
    let first = home(number, count);
    for step in 0..count {
        let slot = spot(first, step, count);
        if slots[slot] == 0 {
            return slot;
        }
    }
    0
}

/// Writes the place of the number's seat into the first free slot that the search for it comes to.
pub fn take_slot<A: Allocator>(slots: &mut Vec<u32, A>, number: u64, place: u32)
    requires { filled slots.old.items < length slots.old.items }
    ensures reaches { Reaches slots.new.items (home (length slots.new.items) number) place }
    ensures others { (first p : ℕ) → 1 ≤ p → Reaches slots.old.items first p → Reaches slots.new.items first p }
    ensures counted { filled slots.new.items ≤ filled slots.old.items + 1 }
    ensures many { length slots.new.items ≡ length slots.old.items }
{
    let slot = free_slot(slots, number);
    slots[slot] = place;
}

/// Makes each slot free.
fn free_all(slots: &mut [u32])
    ensures { filled slots.new ≡ 0 }
{
    for slot in 0..slots.len() {
        slots[slot] = 0;
    }
}

/// Writes the places of all seats anew.
fn list_anew<V, A: Allocator>(slots: &mut Vec<u32, A>, seats: &Vec<Numbered<V>, A>)
    requires fits { length seats.now.items < 2 ^ 32 }
    requires room { length seats.now.items < length slots.old.items }
    ensures found { (i : ℕ) → i < length (map number_of seats.now.items)
        → Reaches slots.new.items
        (home (length slots.new.items) (slice_index_or (map number_of seats.now.items) i 0)) (i + 1) }
    ensures counted { filled slots.new.items ≤ length seats.now.items }
    ensures many { length slots.new.items ≡ length slots.old.items }
{
    free_all(slots);
    for seat in 0..seats.len() {
        take_slot(slots, seats[seat].number, seat as u32 + 1);
    }
}

/// Sees to it that a slot more may be taken, and says how many may be so far. Where half of them may, the
/// places are written anew, without what is gone, and in twice as many slots if a third has places. Fails
/// for want of memory, and then leaves all unchanged.
pub fn make_room<V, A: Allocator>(
    slots: &mut Vec<u32, A>,
    used: usize,
    seats: &Vec<Numbered<V>, A>,
) -> Result<usize, AllocError>
    requires fits { length seats.now.items < 2 ^ 32 }
    requires counted { filled slots.old.items ≤ used }
    requires live { length seats.now.items ≤ used }
    requires room { used ≤ length slots.old.items }
    ensures placed { Placed slots.old.items (map number_of seats.now.items)
        → Placed slots.new.items (map number_of seats.now.items) }
    ensures counted { IfOk result (λ u. filled slots.new.items ≤ u) }
    ensures live { IfOk result (λ u. length seats.now.items ≤ u) }
    ensures room { IfOk result (λ u. u < length slots.new.items) }
    ensures err { OnErr result (slots.new.items ≡ slots.old.items) }
{
    let count = slots.len();
    if used < count / 2 {
        return Ok(used);
    }
    let live = seats.len();
    if live >= count / 3 {
        slots.resize((count * 2).max(FEWEST), 0)?;
    }
    list_anew(slots, seats);
    Ok(live)
}

/// What is left in the slot of a number that has no seat any more: nothing if the next slot is free, since
/// then no search goes past it.
fn mark_at<A: Allocator>(slots: &Vec<u32, A>, slot: usize) -> u32
    requires { slot < length slots.now.items }
    ensures { MayStand slots.now.items slot result }
{
    let next = following(slot, slots.len());
    if slots[next] == 0 { 0 } else { GONE }
}

/// Has the number find that place, if it is found.
fn move_place<V, A: Allocator>(
    slots: &mut Vec<u32, A>,
    seats: &Vec<Numbered<V>, A>,
    number: u64,
    place: u32,
)
    ensures moves { Moves slots.old.items slots.new.items (map number_of seats.now.items) number place }
    ensures counted { filled slots.new.items ≤ filled slots.old.items }
    ensures many { length slots.new.items ≡ length slots.old.items }
{
    if let Some(found) = find_slot(slots, seats, number) {
        slots[found.slot] = place;
    }
}

/// Has the number of the last seat find the place of that one, if it is another.
fn move_last<V, A: Allocator>(
    slots: &mut Vec<u32, A>,
    seats: &Vec<Numbered<V>, A>,
    seat: usize,
    place: u32,
)
    requires { seat < length seats.now.items }
    ensures moves { MovesLast slots.old.items slots.new.items (map number_of seats.now.items) seat place }
    ensures counted { filled slots.new.items ≤ filled slots.old.items }
    ensures many { length slots.new.items ≡ length slots.old.items }
{
    let last = seats.len() - 1;
    if seat == last {
        return;
    }
    move_place(slots, seats, seats[last].number, place);
}

/// Forgets the place of that seat, and has the number of the last seat find that one. Says how many slots
/// may be taken then, where so many may be before.
pub fn leave_slot<V, A: Allocator>(
    slots: &mut Vec<u32, A>,
    used: usize,
    seats: &Vec<Numbered<V>, A>,
    found: Found,
) -> usize
    requires standing { Standing slots.old.items (map number_of seats.now.items) used }
    requires found { Finds slots.old.items (map number_of seats.now.items)
        (slice_index_or (map number_of seats.now.items) found.seat 0) found.slot found.seat }
    ensures leaves { Leaves slots.new.items (map number_of seats.now.items) found.seat }
    ensures counted { filled slots.new.items ≤ result }
    ensures live { length seats.now.items ≤ result + 1 }
    ensures room { result ≤ length slots.new.items }
{
    let place = slots[found.slot];
    let mark = mark_at(slots, found.slot);
    slots[found.slot] = mark;
    move_last(slots, seats, found.seat, place);
    if mark == 0 { used - 1 } else { used }
}
