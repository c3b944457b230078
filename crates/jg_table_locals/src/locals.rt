//! The table of local references and frames, of all threads.

ghost use Rattle.std.specs.Prelude.{◌≡◌, ℕ, ◌+◌, ◌<◌, ◌≤◌, ◌^◌, ◌↔◌, ◌++◌, List, [], ◌∷◌, OnOk, OnErr, IfSome, IsOk, IsNone, IsSome, IsTrue, All, length, map, vec_len, vec_capacity};
ghost use Rattle.std.specs.Option.{is_some, option_map};
ghost use Rattle.jg_table_locals.specs.History.{Event, by, Start, Make, Push, Ensure, Enter, Delete, Pop, Leave, End, acts_of, has_session, depth, frames, live, Holds, holds_object};
ghost use Rattle.jg_lists.specs.Marks.{Marks};
ghost use Rattle.jg_table_locals.specs.Room.{greater, crowded, outgrown};
ghost use Rattle.jg_table_locals.specs.Standing.{Stands};
ghost use Rattle.jg_table_locals.specs.Rows.{top, local_ref, HasFrame, pushed, entered, frame_number, depth_number, spare, spare_starts};
ghost use Rattle.jg_table_locals.specs.Seen.{frame_row};

use crate::row::Frame;
use crate::stack::Stack;
use crate::stacks::{
    add_stack, crowded_at, delete_at, drop_at, held_at, is_above_at, leave_at, list_in, make_at,
    mark_named_in, name_of, object_at, open_at, outgrown_at, pop_at, reserve_at, reserve_frame_at,
    set_room_at, top_at,
};
use jg_lists::{ByThread, Marking};
use jg_words::{Kind, ObjId, Ref, Tid};
use std::alloc::{AllocError, Allocator, Global};
use std::marker::Model;

/// For how many locals a native method has room that asks for no more.
const PROMISED: u64 = 16;

/// The live local references and the open frames of all threads. Contracts see the rows, and
/// beside them the room that `reserve` and `reserve_start` make.
#[derive(Drop)]
pub struct Locals<A: Allocator = Global> {
    stacks: ByThread<Stack<A>, A>,
    /// How many locals are live, of all threads.
    live: u128,
    alloc: A,
}

impl<A: Allocator> Model for Locals<A> {
    ghost use Rattle.jg_table_locals.specs.Rows.{Table};
    ghost use Rattle.jg_table_locals.specs.Seen.{rows_seen, rooms_seen, Tallied};

    ghost Value = { Table };

    ghost view = { λ a. record { rows = rows_seen a.stacks; room = rooms_seen a.stacks } };

    ghost invariant = { λ a. Tallied a.stacks a.live };
}

impl<A: Allocator + Clone> Locals<A> {
    /// No thread has a session. Takes no memory; two lists grow from the first two handles, and each
    /// thread's lists from a clone of the third.
    pub fn new(places: A, stacks: A, alloc: A) -> Locals<A>
        ensures stands { Stands result.rows [] }
        ensures rows { result.rows ≡ record { locals = []; frames = [] } }
    {
        Locals {
            stacks: ByThread::new(places, stacks),
            live: 0,
            alloc,
        }
    }

    /// Begins the session of a thread that has none, with an empty base frame at depth 0 that has
    /// room for 16 locals (chapter 5, `AttachCurrentThread`; chapter 4, "Local References"). Asks that
    /// it has none; the test is `has_session`. Fails only for want of memory, and then leaves all rows
    /// unchanged; after `reserve_start` it can't fail.
    pub fn start_thread(&mut self, tid: Tid) -> Result<(), AllocError>
        requires { IsNone (top tid.0 self.old.rows.frames) }
        ensures ok { OnOk result ((e : List Event) → Stands self.old.rows e
            → Stands self.new.rows (by tid.0 Start ∷ e)) }
        ensures err { OnErr result (self.new.rows ≡ self.old.rows) }
        ensures room { 0 < spare_starts self.old tid.0 → IsOk result }
    {
        add_stack(&mut self.stacks, &self.alloc, tid.0)?;
        open_at(
            &mut self.stacks,
            tid.0,
            Frame {
                depth: 0,
                frame: 0,
                room: PROMISED,
            },
        )
    }

    /// Makes local `n` for the object, in the thread's newest frame (chapter 2, "Global and Local
    /// References"). Asks that the thread has a session (`has_session`) and that `n` is above the
    /// number of each live local of the thread (`is_above`). Fails only for want of memory, and then
    /// leaves all rows unchanged; after `reserve` it can't fail.
    pub fn make(&mut self, tid: Tid, n: u64, object: ObjId) -> Result<(), AllocError>
        requires started { HasFrame tid.0 self.old.rows }
        requires above { All (λ row. row.tid ≡ tid.0 → row.n < n) self.old.rows.locals }
        ensures ok { OnOk result ((e : List Event) → Stands self.old.rows e
            → Stands self.new.rows (by tid.0 (Make n object.0) ∷ e)) }
        ensures err { OnErr result (self.new.rows ≡ self.old.rows) }
        ensures room { 0 < spare self.old tid.0 → IsOk result }
        ensures lowered { spare self.old tid.0 ≤ spare self.new tid.0 + 1 }
    {
        // No more are live than each stack's `Vec` holds, and a slice bounds the stacks.
        let _stacks = self.stacks.seats();
        make_at(&mut self.stacks, tid.0, n, object.0)?;
        self.live += 1;
        Ok(())
    }

    /// Makes room for one more local of the thread, so that the next `make` can't fail. Fails only
    /// for want of memory; no row changes either way.
    pub fn reserve(&mut self, tid: Tid) -> Result<(), AllocError>
        ensures ok { OnOk result (0 < spare self.new tid.0) }
        ensures rows { self.new.rows ≡ self.old.rows }
        ensures starts { spare_starts self.old tid.0 ≤ spare_starts self.new tid.0 }
    {
        add_stack(&mut self.stacks, &self.alloc, tid.0)?;
        reserve_at(&mut self.stacks, tid.0)
    }

    /// Makes room for the thread's base frame, so that the next `start_thread` can't fail. Fails only
    /// for want of memory; no row changes either way.
    pub fn reserve_start(&mut self, tid: Tid) -> Result<(), AllocError>
        ensures ok { OnOk result (0 < spare_starts self.new tid.0) }
        ensures rows { self.new.rows ≡ self.old.rows }
        ensures locals { spare self.old tid.0 ≤ spare self.new tid.0 }
    {
        add_stack(&mut self.stacks, &self.alloc, tid.0)?;
        reserve_frame_at(&mut self.stacks, tid.0)
    }

    /// Pushes a frame with room for so many locals (chapter 4, `PushLocalFrame`). Asks that the
    /// thread has a session (`has_session`) and that its frames can be counted (`pushed` below the
    /// greatest `u64`). Fails only for want of memory, and then leaves all rows unchanged.
    pub fn push(&mut self, tid: Tid, room: u32) -> Result<(), AllocError>
        requires started { HasFrame tid.0 self.old.rows }
        requires fits { pushed tid.0 self.old.rows < u64.MAX }
        ensures ok { OnOk result ((e : List Event) → Stands self.old.rows e
            → Stands self.new.rows (by tid.0 (Push room) ∷ e)) }
        ensures err { OnErr result (self.new.rows ≡ self.old.rows) }
        ensures room { spare self.old tid.0 ≤ spare self.new tid.0 }
    {
        let top = top_at(&self.stacks, tid.0).unwrap();
        open_at(
            &mut self.stacks,
            tid.0,
            Frame {
                depth: top.depth,
                frame: top.frame + 1,
                room: room as u64,
            },
        )
    }

    /// Enters a native method: a new activation, with an empty base frame that has room for 16
    /// locals (chapter 2, "Global and Local References"; chapter 4, "Local References"). Asks that the
    /// thread has a session (`has_session`) and that its depth can be counted (`depth` below the
    /// greatest `u64`). Fails only for want of memory, and then leaves all rows unchanged.
    pub fn enter(&mut self, tid: Tid) -> Result<(), AllocError>
        requires started { HasFrame tid.0 self.old.rows }
        requires fits { entered tid.0 self.old.rows < u64.MAX }
        ensures ok { OnOk result ((e : List Event) → Stands self.old.rows e
            → Stands self.new.rows (by tid.0 Enter ∷ e)) }
        ensures err { OnErr result (self.new.rows ≡ self.old.rows) }
        ensures room { spare self.old tid.0 ≤ spare self.new tid.0 }
    {
        let top = top_at(&self.stacks, tid.0).unwrap();
        open_at(
            &mut self.stacks,
            tid.0,
            Frame {
                depth: top.depth + 1,
                frame: 0,
                room: PROMISED,
            },
        )
    }

    /// Makes the room of the thread's newest frame at least `capacity` beside what the frame holds
    /// now (chapter 4, `EnsureLocalCapacity`). Asks that the thread has a session (`has_session`).
    /// Takes no memory.
    pub fn ensure(&mut self, tid: Tid, capacity: u32)
        requires { HasFrame tid.0 self.old.rows }
        ensures stands { (e : List Event) → Stands self.old.rows e
            → Stands self.new.rows (by tid.0 (Ensure capacity) ∷ e) }
        ensures room { spare self.old tid.0 ≤ spare self.new tid.0 }
    {
        let top = top_at(&self.stacks, tid.0).unwrap();
        let asked = capacity as u64 + held_at(&self.stacks, tid.0);
        set_room_at(&mut self.stacks, tid.0, top, greater(top.room, asked));
    }

    /// Ends the thread's local `n`, if it is live (chapter 4, `DeleteLocalRef`). Takes no memory, and
    /// asks for nothing.
    pub fn delete(&mut self, tid: Tid, n: u64)
        ensures stands { (e : List Event) → Stands self.old.rows e → Stands self.new.rows (by tid.0 (Delete n) ∷ e) }
        ensures room { spare self.old tid.0 ≤ spare self.new tid.0 }
    {
        let ended = delete_at(&mut self.stacks, tid.0, n);
        self.live -= ended as u128;
    }

    /// Pops the thread's newest frame, with the locals made in it (chapter 4, `PopLocalFrame`). Asks
    /// that a frame is pushed at the thread's depth; the test is `can_pop`. Takes no memory.
    pub fn pop(&mut self, tid: Tid)
        requires { 0 < pushed tid.0 self.old.rows }
        ensures stands { (e : List Event) → Stands self.old.rows e → Stands self.new.rows (by tid.0 Pop ∷ e) }
        ensures room { spare self.old tid.0 ≤ spare self.new tid.0 }
    {
        let top = top_at(&self.stacks, tid.0).unwrap();
        let ended = pop_at(&mut self.stacks, tid.0, top);
        self.live -= ended as u128;
    }

    /// Leaves the native method, with all frames and locals of its activation (chapter 2, "Global and
    /// Local References": freed when the native method returns). Asks that the thread is in a native
    /// method (`depth` above 0). Takes no memory.
    pub fn leave(&mut self, tid: Tid)
        requires { 0 < entered tid.0 self.old.rows }
        ensures stands { (e : List Event) → Stands self.old.rows e → Stands self.new.rows (by tid.0 Leave ∷ e) }
        ensures room { spare self.old tid.0 ≤ spare self.new tid.0 }
    {
        let top = top_at(&self.stacks, tid.0).unwrap();
        let ended = leave_at(&mut self.stacks, tid.0, top);
        self.live -= ended as u128;
    }

    /// Ends the thread's session, if it has one, with all its frames and locals (chapter 5,
    /// `DetachCurrentThread`). Takes no memory, and asks for nothing; the thread's memory is given back.
    pub fn drop_thread(&mut self, tid: Tid)
        ensures stands { (e : List Event) → Stands self.old.rows e → Stands self.new.rows (by tid.0 End ∷ e) }
        ensures locals { spare self.new tid.0 ≡ 0 }
        ensures frames { spare_starts self.new tid.0 ≡ 0 }
    {
        let ended = drop_at(&mut self.stacks, tid.0);
        self.live -= ended as u128;
    }

    /// How many local references are live, of all threads. Takes one step, however many there are.
    pub fn len(&self) -> u128
        ensures count { result ≡ length self.now.rows.locals }
        ensures few { result ≤ 2 ^ 126 }
    {
        // No more are live than each stack's `Vec` holds, and a slice bounds the stacks.
        let _stacks = self.stacks.seats();
        self.live
    }

    /// The object that the thread's local `n` names, where it is live. What other threads did
    /// makes no difference.
    pub fn get(&self, tid: Tid, n: u64) -> Option<ObjId>
        ensures live { (e : List Event) → Stands self.now.rows e
            → result ≡ option_map (λ o. record { 0 = o }) (live n (acts_of tid.0 e)) }
        ensures own_thread { (e f : List Event) → Stands self.now.rows e → acts_of tid.0 e ≡ acts_of tid.0 f
            → result ≡ option_map (λ o. record { 0 = o }) (live n (acts_of tid.0 f)) }
    {
        id_of(object_at(&self.stacks, tid.0, n))
    }

    /// Whether a frame was pushed at the thread's present depth and isn't popped. What other
    /// threads did makes no difference.
    pub fn can_pop(&self, tid: Tid) -> bool
        ensures rows { IsTrue result ↔ (0 < pushed tid.0 self.now.rows) }
        ensures frames { (e : List Event) → Stands self.now.rows e
            → IsTrue result ↔ (0 < frames (depth (acts_of tid.0 e)) (acts_of tid.0 e)) }
        ensures own_thread { (e f : List Event) → Stands self.now.rows e → acts_of tid.0 e ≡ acts_of tid.0 f
            → IsTrue result ↔ (0 < frames (depth (acts_of tid.0 f)) (acts_of tid.0 f)) }
    {
        frame_in(top_at(&self.stacks, tid.0)) > 0
    }

    /// Whether the thread's newest frame holds more live locals than it has room for (chapter 4,
    /// "Local References"). Takes no longer where it holds many. What other threads did makes no
    /// difference.
    pub fn crowded(&self, tid: Tid) -> bool
        ensures history { (e : List Event) → Stands self.now.rows e → result ≡ crowded (acts_of tid.0 e) }
        ensures own_thread { (e f : List Event) → Stands self.now.rows e → acts_of tid.0 e ≡ acts_of tid.0 f
            → result ≡ crowded (acts_of tid.0 f) }
    {
        crowded_at(&self.stacks, tid.0)
    }

    /// Whether it holds more than ten times what it has room for.
    pub fn outgrown(&self, tid: Tid) -> bool
        ensures { (e : List Event) → Stands self.now.rows e → result ≡ outgrown (acts_of tid.0 e) }
    {
        outgrown_at(&self.stacks, tid.0)
    }

    /// How many frames were pushed at the thread's present depth and aren't popped: 0 where the
    /// thread has no session.
    pub fn pushed(&self, tid: Tid) -> u64
        ensures rows { result ≡ pushed tid.0 self.now.rows }
        ensures history { (e : List Event) → Stands self.now.rows e
            → result ≡ frames (depth (acts_of tid.0 e)) (acts_of tid.0 e) }
    {
        frame_in(top_at(&self.stacks, tid.0))
    }

    /// How many native methods the thread has entered in its session and not left: 0 where it has
    /// no session.
    pub fn depth(&self, tid: Tid) -> u64
        ensures rows { result ≡ entered tid.0 self.now.rows }
        ensures history { (e : List Event) → Stands self.now.rows e → result ≡ depth (acts_of tid.0 e) }
    {
        depth_in(top_at(&self.stacks, tid.0))
    }

    /// Whether the thread has a session.
    pub fn has_session(&self, tid: Tid) -> bool
        ensures rows { result ≡ is_some (top tid.0 self.now.rows.frames) }
        ensures history { (e : List Event) → Stands self.now.rows e → result ≡ has_session (acts_of tid.0 e) }
    {
        top_at(&self.stacks, tid.0).is_some()
    }

    /// Whether `n` is above the number of each live local of the thread.
    pub fn is_above(&self, tid: Tid, n: u64) -> bool
        ensures rows { IsTrue result ↔ All (λ row. row.tid ≡ tid.0 → row.n < n) self.now.rows.locals }
        ensures history { (e : List Event) → Stands self.now.rows e
            → IsTrue result ↔ ((k : ℕ) → IsSome (live k (acts_of tid.0 e)) → k < n) }
    {
        is_above_at(&self.stacks, tid.0, n)
    }

    /// Whether a live local of some thread names the object.
    pub fn holds_object(&self, object: ObjId) -> bool
        ensures { (e : List Event) → Stands self.now.rows e → result ≡ holds_object e object.0 }
    {
        self.holder_of(object).is_some()
    }

    /// A live local reference that names the object, if there is one; of several any. Takes time by how many
    /// there are.
    pub fn holder_of(&self, object: ObjId) -> Option<Ref>
        ensures held { (e : List Event) → Stands self.now.rows e → is_some result ≡ holds_object e object.0 }
        ensures names { (e : List Event) → Stands self.now.rows e → IfSome result (Holds e object.0) }
    {
        match name_of(&self.stacks, object.0) {
            None => None,
            Some((tid, n)) => Some(Ref::To {
                kind: Kind::Local,
                maker: Tid(tid),
                n,
            }),
        }
    }

    /// Sets the mark of each object that a live local of some thread names and leaves the other
    /// marks. An object without a mark is passed over.
    pub fn mark_held<M: Marking>(&self, marks: &mut M)
        ensures { (e : List Event) → Stands self.now.rows e
            → Marks (holds_object e) (M.mark_of marks.old) (M.mark_of marks.new) }
    {
        mark_named_in(&self.stacks, marks);
    }

    /// Appends the live locals, thread by thread and then by number. Takes time by the locals and
    /// threads that the table keeps. Fails only for want of memory, where the list is full; it then holds a
    /// part of them.
    pub fn list<B: Allocator>(&self, refs: &mut Vec<Ref, B>) -> Result<(), AllocError>
        ensures ok { OnOk result (refs.new.items ≡ refs.old.items ++ map local_ref self.now.rows.locals) }
        ensures full { OnErr result (vec_capacity refs.new ≤ vec_len refs.new) }
    {
        list_in(&self.stacks, refs)
    }
}

fn greater(a: u64, b: u64) -> u64
    ensures { result ≡ greater a b }
{
    if a < b { b } else { a }
}

fn id_of(object: Option<u64>) -> Option<ObjId>
    ensures { result ≡ option_map (λ o. record { 0 = o }) object }
{
    match object {
        None => None,
        Some(object) => Some(ObjId(object)),
    }
}

fn frame_in(top: Option<Frame>) -> u64
    ensures { (t : ℕ) → result ≡ frame_number (option_map (frame_row t) top) }
{
    match top {
        None => 0,
        Some(top) => top.frame,
    }
}

fn depth_in(top: Option<Frame>) -> u64
    ensures { (t : ℕ) → result ≡ depth_number (option_map (frame_row t) top) }
{
    match top {
        None => 0,
        Some(top) => top.depth,
    }
}
