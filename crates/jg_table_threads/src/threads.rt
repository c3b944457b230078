//! The table of threads: sessions, native methods, pending exceptions and counts, by thread.

ghost use Rattle.std.specs.Prelude.{◌≡◌, ◌+◌, ◌-◌, ◌<◌, ◌^◌, ◌↔◌, List, [], ◌∷◌, false, true, if◌then◌else◌, None, Some, IfOk, IfSome, OnOk, OnErr, IsTrue};
ghost use Rattle.std.specs.Option.{is_some, option_map};
ghost use Rattle.jg_table_threads.specs.History.{Event, by, Attach, Detach, Enter, Leave, Raise, Calm, CountRef, CountBuffer, acts_of, attached, sessions, session, depth, pending, refs, buffers, is_pending};
ghost use Rattle.jg_table_threads.specs.Rows.{row_of, no_row, CanCount};
ghost use Rattle.jg_lists.specs.Marks.{Marks};
ghost use Rattle.jg_table_threads.specs.Standing.{Stands};

use crate::row::Row;
use crate::rows::RowTable;
use jg_lists::Marking;
use jg_words::{EnvId, ObjId, Tid};
use std::alloc::{AllocError, Allocator, Global};
use std::marker::Model;

/// What is kept of each thread that was ever attached. Contracts see the rows, by thread.
#[derive(Drop)]
pub struct Threads<A: Allocator = Global> {
    rows: RowTable<A>,
}

impl<A: Allocator> Model for Threads<A> {
    ghost use Rattle.std.specs.Prelude.{List, ℕ};
    ghost use Rattle.jg_table_threads.specs.Rows.{Row};

    ghost Value = { List (ℕ × Row) };

    ghost view = { λ a. a.rows };
}

impl<A: Allocator + Clone> Threads<A> {
    /// No thread did anything yet. Takes no memory; the two lists grow from the two handles.
    pub fn new(places: A, rows: A) -> Threads<A>
        ensures stands { Stands result [] }
        ensures rows { result ≡ [] }
    {
        Threads {
            rows: RowTable::new(places, rows),
        }
    }

    /// Attaches the thread: begins its next session, if it has none, and answers the environment
    /// of its session (chapter 5, `AttachCurrentThread`). Asks that it may have one session more; a test is
    /// `can_count`. Fails only for want of memory, at a thread that was never attached before, and
    /// then leaves all unchanged.
    pub fn attach(&mut self, tid: Tid) -> Result<EnvId, AllocError>
        requires { (row_of self.old tid.0).sessions < u64.MAX }
        ensures ok { OnOk result ((e : List Event) → Stands self.old e → Stands self.new (by tid.0 Attach ∷ e)) }
        ensures env { IfOk result (λ env. (e : List Event) → Stands self.old e
            → env ≡ record { tid = tid; session = sessions (Attach ∷ acts_of tid.0 e) }) }
        ensures row { OnOk result (row_of self.new tid.0 ≡ record (row_of self.old tid.0) {
          attached = true;
          sessions = (if (row_of self.old tid.0).attached then (row_of self.old tid.0).sessions
              else (row_of self.old tid.0).sessions + 1);
        }) }
        ensures err { OnErr result (self.new ≡ self.old) }
        ensures first { OnErr result (row_of self.old tid.0 ≡ no_row) }
    {
        let mut row = self.row(tid);
        if !row.attached {
            row.attached = true;
            row.sessions += 1;
            self.rows.put(tid.0, row)?;
        }
        Ok(EnvId {
            tid,
            session: row.sessions,
        })
    }

    /// Ends the thread's session, if it has one, with its native methods and its pending
    /// exception (chapter 5, `DetachCurrentThread`). Its numbers go on in the next session. Takes no
    /// memory, and asks for nothing.
    pub fn detach(&mut self, tid: Tid)
        ensures stands { (e : List Event) → Stands self.old e → Stands self.new (by tid.0 Detach ∷ e) }
        ensures row { row_of self.new tid.0 ≡ record (row_of self.old tid.0) {
          attached = false;
          depth = 0;
          pending = None;
        } }
    {
        let row = self.row(tid);
        self.rows.replace(
            tid.0,
            Row {
                attached: false,
                depth: 0,
                pending: None,
                ..row
            },
        );
    }

    /// The environment of the thread's session, if it has one (chapter 5, `GetEnv`).
    pub fn env_of(&self, tid: Tid) -> Option<EnvId>
        ensures { (e : List Event) → Stands self.now e
            → result ≡ option_map (λ n. record { tid = tid; session = n }) (session (acts_of tid.0 e)) }
    {
        let row = self.row(tid);
        if row.attached {
            Some(EnvId {
                tid,
                session: row.sessions,
            })
        } else {
            None
        }
    }

    /// The environment that `attach` would answer. Asks for what `attach` asks.
    pub fn env_once_attached(&self, tid: Tid) -> EnvId
        requires { (row_of self.now tid.0).sessions < u64.MAX }
        ensures { (e : List Event) → Stands self.now e
            → result ≡ record { tid = tid; session = sessions (Attach ∷ acts_of tid.0 e) } }
    {
        let row = self.row(tid);
        let session = if row.attached {
            row.sessions
        } else {
            row.sessions + 1
        };
        EnvId { tid, session }
    }

    /// Whether the thread has a session.
    pub fn is_attached(&self, tid: Tid) -> bool
        ensures rows { result ≡ (row_of self.now tid.0).attached }
        ensures history { (e : List Event) → Stands self.now e → result ≡ attached (acts_of tid.0 e) }
    {
        self.row(tid).attached
    }

    /// Whether each of the thread's counts is below the greatest `u64`: a test of what attaching, entering
    /// and handing out ask, each of one count.
    pub fn can_count(&self, tid: Tid) -> bool
        ensures { IsTrue result ↔ CanCount self.now tid.0 }
    {
        let row = self.row(tid);
        row.sessions < u64::MAX
            && row.refs < u64::MAX
            && row.buffers < u64::MAX
            && row.depth < u64::MAX
    }

    /// Enters a native method, called by the virtual machine in the thread's session (chapter 2,
    /// "Compiling, Loading and Linking Native Methods"). Asks that the thread is attached
    /// (`is_attached`) and may be in one native method more (`depth` below the greatest `u64`). Takes no
    /// memory.
    pub fn enter_native(&mut self, tid: Tid)
        requires seen { IsTrue (row_of self.old tid.0).attached }
        requires room { (row_of self.old tid.0).depth < u64.MAX }
        ensures stands { (e : List Event) → Stands self.old e → Stands self.new (by tid.0 Enter ∷ e) }
        ensures row { row_of self.new tid.0
            ≡ record (row_of self.old tid.0) { depth = (row_of self.old tid.0).depth + 1 } }
    {
        let mut row = self.row(tid);
        row.depth += 1;
        self.rows.replace_rest(tid.0, row);
    }

    /// Leaves the native method that the thread entered last. Asks that the thread is attached
    /// (`is_attached`) and in a native method (`depth` above 0). Takes no memory.
    pub fn leave_native(&mut self, tid: Tid)
        requires seen { IsTrue (row_of self.old tid.0).attached }
        requires inside { 0 < (row_of self.old tid.0).depth }
        ensures stands { (e : List Event) → Stands self.old e → Stands self.new (by tid.0 Leave ∷ e) }
        ensures row { row_of self.new tid.0
            ≡ record (row_of self.old tid.0) { depth = (row_of self.old tid.0).depth - 1 } }
    {
        let mut row = self.row(tid);
        row.depth -= 1;
        self.rows.replace_rest(tid.0, row);
    }

    /// How many native methods the thread has entered in its session and not left.
    pub fn depth(&self, tid: Tid) -> u64
        ensures rows { result ≡ (row_of self.now tid.0).depth }
        ensures history { (e : List Event) → Stands self.now e → result ≡ depth (acts_of tid.0 e) }
    {
        self.row(tid).depth
    }

    /// The exception that is pending in the thread, if there is one (chapter 4,
    /// `ExceptionOccurred`).
    pub fn pending(&self, tid: Tid) -> Option<ObjId>
        ensures rows { result ≡ option_map (λ o. record { 0 = o }) (row_of self.now tid.0).pending }
        ensures history { (e : List Event) → Stands self.now e
            → result ≡ option_map (λ o. record { 0 = o }) (pending (acts_of tid.0 e)) }
    {
        match self.row(tid).pending {
            None => None,
            Some(object) => Some(ObjId(object)),
        }
    }

    /// Makes the object the thread's pending exception, in place of any other (chapter 4, `Throw`).
    /// Asks that the thread is attached (`is_attached`). Takes no memory.
    pub fn set_pending(&mut self, tid: Tid, object: ObjId)
        requires { IsTrue (row_of self.old tid.0).attached }
        ensures stands { (e : List Event) → Stands self.old e → Stands self.new (by tid.0 (Raise object.0) ∷ e) }
        ensures row { row_of self.new tid.0 ≡ record (row_of self.old tid.0) { pending = Some object.0 } }
    {
        let mut row = self.row(tid);
        row.pending = Some(object.0);
        self.rows.replace(tid.0, row);
    }

    /// No exception is pending in the thread any more (chapter 4, `ExceptionClear`). Takes no memory,
    /// and asks for nothing.
    pub fn clear_pending(&mut self, tid: Tid)
        ensures stands { (e : List Event) → Stands self.old e → Stands self.new (by tid.0 Calm ∷ e) }
        ensures row { row_of self.new tid.0 ≡ record (row_of self.old tid.0) { pending = None } }
    {
        let mut row = self.row(tid);
        row.pending = None;
        self.rows.replace(tid.0, row);
    }

    /// Whether the object is some thread's pending exception.
    pub fn is_pending(&self, object: ObjId) -> bool
        ensures { (e : List Event) → Stands self.now e → result ≡ is_pending e object.0 }
    {
        self.pending_in(object).is_some()
    }

    /// A thread whose pending exception the object is, if there is one; of several any. Takes time by how
    /// many threads have a pending exception.
    pub fn pending_in(&self, object: ObjId) -> Option<Tid>
        ensures held { (e : List Event) → Stands self.now e → is_some result ≡ is_pending e object.0 }
        ensures names { (e : List Event) → Stands self.now e
            → IfSome result (λ t. pending (acts_of t.0 e) ≡ Some object.0) }
    {
        match self.rows.thread_of(object.0) {
            None => None,
            Some(tid) => Some(Tid(tid)),
        }
    }

    /// Sets the mark of each object that is pending in some thread and leaves the other marks. An
    /// object without a mark is passed over.
    pub fn mark_held<M: Marking>(&self, marks: &mut M)
        ensures { (e : List Event) → Stands self.now e
            → Marks (is_pending e) (M.mark_of marks.old) (M.mark_of marks.new) }
    {
        self.rows.mark_pending(marks);
    }

    /// The number of the next reference that the thread is handed out, from 1 over all its
    /// sessions. Asks that it may be handed out one more; a test is `can_count`.
    pub fn next_ref(&self, tid: Tid) -> u64
        requires { (row_of self.now tid.0).refs < u64.MAX }
        ensures rows { result ≡ (row_of self.now tid.0).refs + 1 }
        ensures history { (e : List Event) → Stands self.now e → result ≡ refs (acts_of tid.0 e) + 1 }
    {
        self.row(tid).refs + 1
    }

    /// Notes that the thread was handed out a reference. Asks that the thread is attached
    /// (`is_attached`) and may be handed out one more. Takes no memory.
    pub fn count_ref(&mut self, tid: Tid)
        requires seen { IsTrue (row_of self.old tid.0).attached }
        requires room { (row_of self.old tid.0).refs < u64.MAX }
        ensures stands { (e : List Event) → Stands self.old e → Stands self.new (by tid.0 CountRef ∷ e) }
        ensures row { row_of self.new tid.0
            ≡ record (row_of self.old tid.0) { refs = (row_of self.old tid.0).refs + 1 } }
    {
        let mut row = self.row(tid);
        row.refs += 1;
        self.rows.replace_rest(tid.0, row);
    }

    /// The number of the next buffer that the thread is handed out, from 1 over all its sessions.
    /// Asks that it may be handed out one more; a test is `can_count`.
    pub fn next_buf(&self, tid: Tid) -> u64
        requires { (row_of self.now tid.0).buffers < u64.MAX }
        ensures rows { result ≡ (row_of self.now tid.0).buffers + 1 }
        ensures history { (e : List Event) → Stands self.now e → result ≡ buffers (acts_of tid.0 e) + 1 }
    {
        self.row(tid).buffers + 1
    }

    /// Notes that the thread was handed out a buffer. Asks that the thread is attached
    /// (`is_attached`) and may be handed out one more. Takes no memory.
    pub fn count_buf(&mut self, tid: Tid)
        requires seen { IsTrue (row_of self.old tid.0).attached }
        requires room { (row_of self.old tid.0).buffers < u64.MAX }
        ensures stands { (e : List Event) → Stands self.old e → Stands self.new (by tid.0 CountBuffer ∷ e) }
        ensures row { row_of self.new tid.0
            ≡ record (row_of self.old tid.0) { buffers = (row_of self.old tid.0).buffers + 1 } }
    {
        let mut row = self.row(tid);
        row.buffers += 1;
        self.rows.replace_rest(tid.0, row);
    }

    fn row(&self, tid: Tid) -> Row
        ensures { result ≡ row_of self.now tid.0 }
    {
        self.rows.get(tid.0)
    }
}
