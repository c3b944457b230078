//! One thread's locals and open frames.

ghost use Rattle.std.specs.Prelude.{◌≡◌, ◌≤◌, ◌<◌, ◌+◌, ◌*◌, ◌^◌, ◌&&◌, ◌==◌, ◌++◌, ◌∷◌, ◌↔◌, [], All, OnOk, OnErr, IsOk, IsSome, IsTrue, Some, false, not, filter, find, length, map, vec_len, vec_capacity};
ghost use Rattle.std.specs.Option.{option_map};
ghost use Rattle.std.specs.List.{list_any};
ghost use Rattle.jg_lists.specs.Marks.{Marks};
ghost use Rattle.jg_table_locals.specs.Seen.{last, slot_made, slot_ref, room_set, held_in, is_full, IsNext};

use crate::frames::{close_from, count_gone, count_more, newest, newest_frame, set_room};
use crate::row::{Frame, LocalSlot, Opened};
use crate::slot_list::SlotList;
use crate::slots::{close_up_if, cut, end_local, is_above_all, list_live, number_of, object_of};
use jg_lists::Marking;
use jg_words::Ref;
use std::alloc::{AllocError, Allocator};
use std::marker::Model;

/// The locals and the open frames of one thread. A local that is deleted is marked dead; once
/// more than a quarter of the list and eight may be dead, it is closed up. Contracts see the live ones.
#[derive(Drop)]
pub struct Stack<A: Allocator> {
    slots: SlotList<A>,
    frames: Vec<Opened, A>,
    /// At least as many as are dead.
    dead: usize,
    /// How many are live.
    live: usize,
}

impl<A: Allocator> Model for Stack<A> {
    ghost use Rattle.std.specs.Prelude.{◌≡◌, ◌-◌, ◌≤◌, filter, length, map, vec_len, vec_capacity};
    ghost use Rattle.jg_table_locals.specs.Seen.{StackRows, dead_in, is_live, frame_of, Stacked};

    ghost Value = { StackRows };

    ghost view = { λ a. record {
      locals = filter is_live a.slots.items;
      frames = map frame_of a.frames.items;
      room = record {
        locals = a.slots.room;
        frames = vec_capacity a.frames - vec_len a.frames;
      };
    } };

    ghost invariant = { λ a. Stacked a.slots.items a.frames.items × (dead_in a.slots.items ≤ a.dead)
        × (a.live ≡ length (filter is_live a.slots.items)) };
}

impl<A: Allocator> Stack<A> {
    pub fn new(slots: A, objects: A, offsets: A, bases: A, frames: A) -> Stack<A>
        ensures locals { result.locals ≡ [] }
        ensures frames { result.frames ≡ [] }
    {
        Stack {
            slots: SlotList::new(slots, objects, offsets, bases),
            frames: Vec::new(frames),
            dead: 0,
            live: 0,
        }
    }

    /// The newest frame.
    pub fn top(&self) -> Option<Frame>
        ensures { result ≡ last self.now.frames }
    {
        newest_frame(&self.frames)
    }

    /// Opens a frame.
    pub fn open(&mut self, frame: Frame) -> Result<(), AllocError>
        requires { IsNext (last self.old.frames) frame }
        ensures ok { OnOk result (self.new.frames ≡ self.old.frames ++ frame ∷ []) }
        ensures err { OnErr result (self.new.frames ≡ self.old.frames) }
        ensures locals { self.new.locals ≡ self.old.locals }
        ensures room { self.old.room.locals ≤ self.new.room.locals }
        ensures has_room { 0 < self.old.room.frames → IsOk result }
    {
        self.frames.push(Opened { frame, held: 0 })?;
        Ok(())
    }

    /// Makes local `n` in the newest frame, which is there.
    pub fn make(&mut self, n: u64, object: u64) -> Result<(), AllocError>
        requires started { IsSome (last self.old.frames) }
        requires above { All (λ s. s.n < n) self.old.locals }
        ensures ok { OnOk result ((top : Frame) → last self.old.frames ≡ Some top
            → self.new.locals ≡ self.old.locals ++ slot_made n object top ∷ []) }
        ensures err { OnErr result (self.new.locals ≡ self.old.locals) }
        ensures frames { self.new.frames ≡ self.old.frames }
        ensures room { 0 < self.old.room.locals → IsOk result }
        ensures lowered { self.old.room.locals ≤ self.new.room.locals + 1 }
        ensures made { OnOk result ((length self.new.locals ≡ length self.old.locals + 1)
            × (length self.new.locals < 2 ^ 63)) }
    {
        let top = self.top().unwrap();
        self.slots.push(LocalSlot {
            n,
            object,
            depth: top.depth,
            frame: top.frame,
            live: true,
        })?;
        // A frame counts no more than all slots, which fit a `usize`.
        let _slots = self.slots.as_slice();
        count_more(&mut self.frames, top.depth, top.frame);
        self.live += 1;
        Ok(())
    }

    pub fn reserve(&mut self) -> Result<(), AllocError>
        ensures ok { OnOk result (0 < self.new.room.locals) }
        ensures locals { self.new.locals ≡ self.old.locals }
        ensures frames { self.new.frames ≡ self.old.frames }
        ensures starts { self.old.room.frames ≤ self.new.room.frames }
    {
        self.slots.reserve()
    }

    pub fn reserve_frame(&mut self) -> Result<(), AllocError>
        ensures ok { OnOk result (0 < self.new.room.frames) }
        ensures locals { self.new.locals ≡ self.old.locals }
        ensures frames { self.new.frames ≡ self.old.frames }
        ensures room { self.old.room.locals ≤ self.new.room.locals }
    {
        self.frames.try_reserve(1)
    }

    /// Ends the local `n`, if it is live, and answers how many that were: one or none.
    pub fn delete(&mut self, n: u64) -> usize
        ensures locals { self.new.locals ≡ filter (λ s. not (s.n == n)) self.old.locals }
        ensures frames { self.new.frames ≡ self.old.frames }
        ensures room { self.old.room.locals ≤ self.new.room.locals }
        ensures ended { length self.old.locals ≡ length self.new.locals + result }
    {
        // No more are dead than there are slots, which a `Vec` bounds.
        let _slots = self.slots.as_slice();
        let gone = end_local(&mut self.slots, n);
        count_gone(&mut self.frames, gone);
        let ended = gone.is_some() as usize;
        let dead = self.dead.saturating_add(ended);
        let dead = close_up_if(&mut self.slots, dead);
        self.dead = dead;
        self.live -= ended;
        ended
    }

    /// Closes the newest frame, with its locals, and answers how many those were.
    pub fn pop(&mut self, top: Frame) -> usize
        requires { last self.old.frames ≡ Some top }
        ensures locals { self.new.locals ≡ filter (λ s. not (s.depth == top.depth && s.frame == top.frame))
            self.old.locals }
        ensures frames { self.new.frames ≡ filter (λ f. not (f.depth == top.depth && f.frame == top.frame))
            self.old.frames }
        ensures room { self.old.room.locals ≤ self.new.room.locals }
        ensures ended { length self.old.locals ≡ length self.new.locals + result }
    {
        close_from(&mut self.frames, top);
        let ended = cut(&mut self.slots, Some(top));
        let dead = close_up_if(&mut self.slots, self.dead);
        self.dead = dead;
        self.live -= ended;
        ended
    }

    /// Closes the newest activation, with its frames and locals, and answers how many locals those were.
    pub fn leave(&mut self, top: Frame) -> usize
        requires { last self.old.frames ≡ Some top }
        ensures locals { self.new.locals ≡ filter (λ s. not (s.depth == top.depth)) self.old.locals }
        ensures frames { self.new.frames ≡ filter (λ f. not (f.depth == top.depth)) self.old.frames }
        ensures room { self.old.room.locals ≤ self.new.room.locals }
        ensures ended { length self.old.locals ≡ length self.new.locals + result }
    {
        let base = Frame {
            depth: top.depth,
            frame: 0,
            room: 0,
        };
        close_from(&mut self.frames, base);
        let ended = cut(&mut self.slots, Some(base));
        let dead = close_up_if(&mut self.slots, self.dead);
        self.dead = dead;
        self.live -= ended;
        ended
    }

    /// How many locals are live.
    pub fn len(&self) -> usize
        ensures { result ≡ length self.now.locals }
    {
        self.live
    }

    /// Sets the room of the frame.
    pub fn set_room(&mut self, frame: Frame, room: u64)
        ensures frames { self.new.frames ≡ map (room_set room frame.depth frame.frame) self.old.frames }
        ensures locals { self.new.locals ≡ self.old.locals }
        ensures room { self.old.room.locals ≤ self.new.room.locals }
    {
        set_room(&mut self.frames, frame.depth, frame.frame, room);
    }

    /// How many live locals were made in the newest frame.
    pub fn held(&self) -> u64
        ensures held { result ≡ held_in (last self.now.frames) self.now.locals }
        ensures small { result < 2 ^ 63 }
    {
        // A frame counts no more than all slots, which a `Vec` bounds.
        let _slots = self.slots.as_slice();
        match newest(&self.frames) {
            None => 0,
            Some(opened) => opened.held,
        }
    }

    /// Whether the newest frame holds more live locals than it has room for.
    pub fn crowded(&self) -> bool
        ensures { result ≡ is_full (λ n. n) (last self.now.frames) (held_in (last self.now.frames) self.now.locals) }
    {
        match self.top() {
            None => false,
            Some(top) => top.room < self.held(),
        }
    }

    /// Whether it holds more than ten times what it has room for.
    pub fn outgrown(&self) -> bool
        ensures { result ≡ is_full (λ n. 10 * n) (last self.now.frames)
            (held_in (last self.now.frames) self.now.locals) }
    {
        match self.top() {
            None => false,
            Some(top) => u128::from(top.room) * 10 < u128::from(self.held()),
        }
    }

    /// The object of the live local `n`.
    pub fn get(&self, n: u64) -> Option<u64>
        ensures { result ≡ option_map (λ s. s.object) (find (λ s. s.n == n) self.now.locals) }
    {
        object_of(&self.slots, n)
    }

    /// Whether `n` is above the number of each live local.
    pub fn is_above(&self, n: u64) -> bool
        ensures { IsTrue result ↔ All (λ s. s.n < n) self.now.locals }
    {
        is_above_all(self.slots.as_slice(), n)
    }

    /// The number of the first live local that names the object.
    pub fn number_of(&self, object: u64) -> Option<u64>
        ensures { result ≡ option_map (λ s. s.n) (find (λ s. s.object == object) self.now.locals) }
    {
        number_of(self.slots.as_slice(), object)
    }

    pub fn mark_held<M: Marking>(&self, marks: &mut M)
        ensures { Marks (λ o. list_any (λ s. s.object == o) self.now.locals) (M.mark_of marks.old)
            (M.mark_of marks.new) }
    {
        self.slots.mark_named(marks);
    }

    /// Appends a reference to each live local of the thread.
    pub fn list<B: Allocator>(&self, tid: u16, refs: &mut Vec<Ref, B>) -> Result<(), AllocError>
        ensures ok { OnOk result (refs.new.items ≡ refs.old.items ++ map (slot_ref tid) self.now.locals) }
        ensures full { OnErr result (vec_capacity refs.new ≤ vec_len refs.new) }
    {
        list_live(self.slots.as_slice(), tid, refs)
    }
}
