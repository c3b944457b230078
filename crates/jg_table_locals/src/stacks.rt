//! The stacks of all threads, by thread.

ghost use Rattle.std.specs.Prelude.{◌≡◌, ◌≤◌, ◌<◌, ◌+◌, ◌*◌, ◌^◌, ◌&&◌, ◌==◌, ◌++◌, ◌∷◌, ◌↔◌, ℕ, [], All, OnOk, OnErr, IsOk, IsSome, IsTrue, Some, false, not, filter, find, map, vec_len, vec_capacity};
ghost use Rattle.std.specs.Option.{option_map};
ghost use Rattle.std.specs.Map.{values_of};
ghost use Rattle.std.specs.List.{list_any};
ghost use Rattle.jg_lists.specs.ByThread.{IsOnce};
ghost use Rattle.jg_lists.specs.Marks.{Marks};
ghost use Rattle.jg_table_locals.specs.Rows.{local_ref};
ghost use Rattle.jg_table_locals.specs.Seen.{last, slot_made, room_set, held_in, is_full, IsNext, stack_at, slots_in, frames_in, room_seen, rows_seen, Changes, Counts};

use crate::row::Frame;
use crate::stack::Stack;
use jg_lists::{ByThread, Marking, Numbered};
use jg_words::Ref;
use std::alloc::{AllocError, Allocator};

/// The thread's newest frame.
pub fn top_at<A: Allocator>(stacks: &ByThread<Stack<A>, A>, tid: u16) -> Option<Frame>
    ensures { result ≡ last (frames_in (stack_at tid stacks.now)) }
{
    match stacks.get(tid) {
        None => None,
        Some(stack) => stack.top(),
    }
}

/// How many live locals were made in the thread's newest frame.
pub fn held_at<A: Allocator>(stacks: &ByThread<Stack<A>, A>, tid: u16) -> u64
    ensures held { result ≡ held_in (last (frames_in (stack_at tid stacks.now)))
        (slots_in (stack_at tid stacks.now)) }
    ensures small { result < 2 ^ 63 }
{
    match stacks.get(tid) {
        None => 0,
        Some(stack) => stack.held(),
    }
}

/// Whether the thread's newest frame holds more live locals than it has room for.
pub fn crowded_at<A: Allocator>(stacks: &ByThread<Stack<A>, A>, tid: u16) -> bool
    ensures { result ≡ is_full (λ n. n) (last (frames_in (stack_at tid stacks.now)))
        (held_in (last (frames_in (stack_at tid stacks.now))) (slots_in (stack_at tid stacks.now))) }
{
    match stacks.get(tid) {
        None => false,
        Some(stack) => stack.crowded(),
    }
}

/// Whether it holds more than ten times what it has room for.
pub fn outgrown_at<A: Allocator>(stacks: &ByThread<Stack<A>, A>, tid: u16) -> bool
    ensures { result ≡ is_full (λ n. 10 * n) (last (frames_in (stack_at tid stacks.now))) (held_in
        (last (frames_in (stack_at tid stacks.now))) (slots_in (stack_at tid stacks.now))) }
{
    match stacks.get(tid) {
        None => false,
        Some(stack) => stack.outgrown(),
    }
}

/// The object of the thread's live local `n`.
pub fn object_at<A: Allocator>(stacks: &ByThread<Stack<A>, A>, tid: u16, n: u64) -> Option<u64>
    ensures { result ≡ option_map (λ s. s.object) (find (λ s. s.n == n) (slots_in (stack_at tid stacks.now))) }
{
    match stacks.get(tid) {
        None => None,
        Some(stack) => stack.get(n),
    }
}

/// Whether `n` is above the number of each live local of the thread.
pub fn is_above_at<A: Allocator>(stacks: &ByThread<Stack<A>, A>, tid: u16, n: u64) -> bool
    ensures { IsTrue result ↔ All (λ s. s.n < n) (slots_in (stack_at tid stacks.now)) }
{
    match stacks.get(tid) {
        None => true,
        Some(stack) => stack.is_above(n),
    }
}

/// Makes local `n` in the thread's newest frame.
pub fn make_at<A: Allocator>(
    stacks: &mut ByThread<Stack<A>, A>,
    tid: u16,
    n: u64,
    object: u64,
) -> Result<(), AllocError>
    requires started { IsSome (last (frames_in (stack_at tid stacks.old))) }
    requires above { All (λ s. s.n < n) (slots_in (stack_at tid stacks.old)) }
    ensures ok { OnOk result ((top : Frame) → last (frames_in (stack_at tid stacks.old)) ≡ Some top
        → Changes tid stacks.old stacks.new (slots_in (stack_at tid stacks.old)
        ++ slot_made n object top ∷ []) (frames_in (stack_at tid stacks.old))) }
    ensures err { OnErr result (rows_seen stacks.new ≡ rows_seen stacks.old) }
    ensures room { 0 < (room_seen stacks.old tid).locals → IsOk result }
    ensures lowered { (room_seen stacks.old tid).locals ≤ (room_seen stacks.new tid).locals + 1 }
    ensures once { IsOnce stacks.old → IsOnce stacks.new }
    ensures made { OnOk result (Counts 1 0 stacks.old stacks.new) }
    ensures refused { OnErr result (Counts 0 0 stacks.old stacks.new) }
{
    match stacks.get_mut(tid) {
        None => Ok(()),
        Some(stack) => stack.make(n, object),
    }
}

/// Opens a frame of the thread, which has a stack.
pub fn open_at<A: Allocator>(
    stacks: &mut ByThread<Stack<A>, A>,
    tid: u16,
    frame: Frame,
) -> Result<(), AllocError>
    requires stack { IsSome (stack_at tid stacks.old) }
    requires next { IsNext (last (frames_in (stack_at tid stacks.old))) frame }
    ensures ok { OnOk result (Changes tid stacks.old stacks.new (slots_in (stack_at tid stacks.old))
        (frames_in (stack_at tid stacks.old) ++ frame ∷ [])) }
    ensures err { OnErr result (rows_seen stacks.new ≡ rows_seen stacks.old) }
    ensures room { (room_seen stacks.old tid).locals ≤ (room_seen stacks.new tid).locals }
    ensures has_room { 0 < (room_seen stacks.old tid).frames → IsOk result }
    ensures once { IsOnce stacks.old → IsOnce stacks.new }
    ensures counted { Counts 0 0 stacks.old stacks.new }
{
    match stacks.get_mut(tid) {
        None => Ok(()),
        Some(stack) => stack.open(frame),
    }
}

/// Gives the thread a stack, if it has none.
pub fn add_stack<A: Allocator + Clone>(
    stacks: &mut ByThread<Stack<A>, A>,
    alloc: &A,
    tid: u16,
) -> Result<(), AllocError>
    ensures ok { OnOk result (IsSome (stack_at tid stacks.new)) }
    ensures rows { rows_seen stacks.new ≡ rows_seen stacks.old }
    ensures had { IsSome (stack_at tid stacks.old) → IsOk result }
    ensures others { (t : ℕ) → slots_in (stack_at t stacks.new) ≡ slots_in (stack_at t stacks.old) }
    ensures frames { (t : ℕ) → frames_in (stack_at t stacks.new) ≡ frames_in (stack_at t stacks.old) }
    ensures room { (room_seen stacks.old tid).locals ≤ (room_seen stacks.new tid).locals }
    ensures starts { (room_seen stacks.old tid).frames ≤ (room_seen stacks.new tid).frames }
    ensures once { IsOnce stacks.old → IsOnce stacks.new }
    ensures counted { Counts 0 0 stacks.old stacks.new }
{
    if stacks.contains(tid) {
        return Ok(());
    }
    let stack = Stack::new(
        alloc.clone()?,
        alloc.clone()?,
        alloc.clone()?,
        alloc.clone()?,
        alloc.clone()?,
    );
    stacks.add(tid, stack)?;
    Ok(())
}

/// Makes room for one more local of the thread, which has a stack.
pub fn reserve_at<A: Allocator>(
    stacks: &mut ByThread<Stack<A>, A>,
    tid: u16,
) -> Result<(), AllocError>
    requires { IsSome (stack_at tid stacks.old) }
    ensures ok { OnOk result (0 < (room_seen stacks.new tid).locals) }
    ensures rows { rows_seen stacks.new ≡ rows_seen stacks.old }
    ensures starts { (room_seen stacks.old tid).frames ≤ (room_seen stacks.new tid).frames }
    ensures once { IsOnce stacks.old → IsOnce stacks.new }
    ensures counted { Counts 0 0 stacks.old stacks.new }
{
    match stacks.get_mut(tid) {
        None => Ok(()),
        Some(stack) => stack.reserve(),
    }
}

/// Makes room for one more frame of the thread, which has a stack.
pub fn reserve_frame_at<A: Allocator>(
    stacks: &mut ByThread<Stack<A>, A>,
    tid: u16,
) -> Result<(), AllocError>
    requires { IsSome (stack_at tid stacks.old) }
    ensures ok { OnOk result (0 < (room_seen stacks.new tid).frames) }
    ensures rows { rows_seen stacks.new ≡ rows_seen stacks.old }
    ensures room { (room_seen stacks.old tid).locals ≤ (room_seen stacks.new tid).locals }
    ensures once { IsOnce stacks.old → IsOnce stacks.new }
    ensures counted { Counts 0 0 stacks.old stacks.new }
{
    match stacks.get_mut(tid) {
        None => Ok(()),
        Some(stack) => stack.reserve_frame(),
    }
}

/// Ends the thread's local `n`, if it is live, and answers how many that were: one or none.
pub fn delete_at<A: Allocator>(stacks: &mut ByThread<Stack<A>, A>, tid: u16, n: u64) -> usize
    ensures changes { Changes tid stacks.old stacks.new
        (filter (λ s. not (s.n == n)) (slots_in (stack_at tid stacks.old)))
        (frames_in (stack_at tid stacks.old)) }
    ensures room { (room_seen stacks.old tid).locals ≤ (room_seen stacks.new tid).locals }
    ensures once { IsOnce stacks.old → IsOnce stacks.new }
    ensures counted { Counts 0 result stacks.old stacks.new }
{
    match stacks.get_mut(tid) {
        None => 0,
        Some(stack) => stack.delete(n),
    }
}

/// Sets the room of the thread's frame.
pub fn set_room_at<A: Allocator>(
    stacks: &mut ByThread<Stack<A>, A>,
    tid: u16,
    frame: Frame,
    room: u64,
)
    ensures changes { Changes tid stacks.old stacks.new (slots_in (stack_at tid stacks.old))
        (map (room_set room frame.depth frame.frame) (frames_in (stack_at tid stacks.old))) }
    ensures room { (room_seen stacks.old tid).locals ≤ (room_seen stacks.new tid).locals }
    ensures once { IsOnce stacks.old → IsOnce stacks.new }
    ensures counted { Counts 0 0 stacks.old stacks.new }
{
    if let Some(stack) = stacks.get_mut(tid) {
        stack.set_room(frame, room);
    }
}

/// Closes the thread's newest frame, with its locals, and answers how many those were.
pub fn pop_at<A: Allocator>(stacks: &mut ByThread<Stack<A>, A>, tid: u16, top: Frame) -> usize
    requires { last (frames_in (stack_at tid stacks.old)) ≡ Some top }
    ensures changes { Changes tid stacks.old stacks.new
        (filter (λ s. not (s.depth == top.depth && s.frame == top.frame)) (slots_in (stack_at tid stacks.old)))
        (filter (λ f. not (f.depth == top.depth && f.frame == top.frame))
        (frames_in (stack_at tid stacks.old))) }
    ensures room { (room_seen stacks.old tid).locals ≤ (room_seen stacks.new tid).locals }
    ensures once { IsOnce stacks.old → IsOnce stacks.new }
    ensures counted { Counts 0 result stacks.old stacks.new }
{
    match stacks.get_mut(tid) {
        None => 0,
        Some(stack) => stack.pop(top),
    }
}

/// Closes the thread's newest activation, with its frames and locals, and answers how many locals those
/// were.
pub fn leave_at<A: Allocator>(stacks: &mut ByThread<Stack<A>, A>, tid: u16, top: Frame) -> usize
    requires { last (frames_in (stack_at tid stacks.old)) ≡ Some top }
    ensures changes { Changes tid stacks.old stacks.new
        (filter (λ s. not (s.depth == top.depth)) (slots_in (stack_at tid stacks.old)))
        (filter (λ f. not (f.depth == top.depth)) (frames_in (stack_at tid stacks.old))) }
    ensures room { (room_seen stacks.old tid).locals ≤ (room_seen stacks.new tid).locals }
    ensures once { IsOnce stacks.old → IsOnce stacks.new }
    ensures counted { Counts 0 result stacks.old stacks.new }
{
    match stacks.get_mut(tid) {
        None => 0,
        Some(stack) => stack.leave(top),
    }
}

/// Ends all frames and locals of the thread, gives their memory back, and answers how many locals those were.
pub fn drop_at<A: Allocator>(stacks: &mut ByThread<Stack<A>, A>, tid: u16) -> usize
    ensures changes { Changes tid stacks.old stacks.new [] [] }
    ensures room { (room_seen stacks.new tid).locals ≡ 0 }
    ensures starts { (room_seen stacks.new tid).frames ≡ 0 }
    ensures once { IsOnce stacks.old → IsOnce stacks.new }
    ensures counted { Counts 0 result stacks.old stacks.new }
{
    match stacks.remove(tid) {
        None => 0,
        Some(stack) => stack.len(),
    }
}

/// The thread and the number of the first live local that names the object.
pub fn name_of<A: Allocator>(stacks: &ByThread<Stack<A>, A>, object: u64) -> Option<(u16, u64)>
    ensures { result ≡ option_map (λ row. (row.tid, row.n))
        (find (λ row. row.object == object) (rows_seen stacks.now).locals) }
{
    for seat in stacks.seats() {
        if let Some(n) = seat.value.number_of(object) {
            return Some((seat.number as u16, n));
        }
    }
    None
}

fn mark_seats<A: Allocator, M: Marking>(seats: &[Numbered<Stack<A>>], marks: &mut M)
    ensures { Marks (λ o. list_any (λ seat. list_any (λ s. s.object == o) seat.value.locals) seats.now)
        (M.mark_of marks.old) (M.mark_of marks.new) }
{
    for seat in seats {
        seat.value.mark_held(marks);
    }
}

/// Marks each object that a live local of some thread names.
pub fn mark_named_in<A: Allocator, M: Marking>(stacks: &ByThread<Stack<A>, A>, marks: &mut M)
    ensures { Marks (λ o. list_any (λ v. list_any (λ s. s.object == o) v.locals) (values_of stacks.now))
        (M.mark_of marks.old) (M.mark_of marks.new) }
{
    mark_seats(stacks.seats(), marks);
}

/// Appends a reference to each live local, thread by thread and then by number.
pub fn list_in<A: Allocator, B: Allocator>(
    stacks: &ByThread<Stack<A>, A>,
    refs: &mut Vec<Ref, B>,
) -> Result<(), AllocError>
    ensures ok { OnOk result (refs.new.items
        ≡ refs.old.items ++ map local_ref (rows_seen stacks.now).locals) }
    ensures full { OnErr result (vec_capacity refs.new ≤ vec_len refs.new) }
{
    for seat in stacks.seats() {
        seat.value.list(seat.number as u16, refs)?;
    }
    Ok(())
}
