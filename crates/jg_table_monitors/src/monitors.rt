//! The table of owned monitors, by object and by owner.

ghost use Rattle.std.specs.Prelude.{◌≡◌, ℕ, ◌+◌, ◌<◌, List, [], ◌∷◌, ◌==◌, filter, None, Some, IfOk, OnErr, map, option_map};
ghost use Rattle.jg_table_monitors.specs.History.{Event, by, Enter, Exit, ReleaseAll, owner, owner_count, held, entering};
ghost use Rattle.jg_table_monitors.specs.Rows.{Ascends, is_of, owned_monitor, row_of, owner_in, count_in};
ghost use Rattle.jg_table_monitors.specs.Standing.{Stands};
ghost use Rattle.jg_lists.specs.Marks.{Marks};

use crate::entering::Entering;
use crate::held::ByOwner;
use crate::holdings::{lower, release, take};
use crate::owned::{ByObject, Found, Owned, list_all, look, mark_keys, raise_own};
use crate::owned_monitor::OwnedMonitor;
use jg_lists::{ByNumber, ByThread, Marking};
use jg_words::{ObjId, Tid};
use std::alloc::{AllocError, Allocator, Global};
use std::marker::Model;

/// The owned monitors, by object, each found in a step or a few. Takes memory for as many as were ever
/// owned at once. Contracts see the rows.
#[derive(Drop)]
pub struct Monitors<A: Allocator = Global> {
    owned: ByObject<A>,
    /// The objects by owner, for a release of all that one thread owns.
    held: ByOwner<A>,
    alloc: A,
}

impl<A: Allocator> Model for Monitors<A> {
    ghost use Rattle.std.specs.Prelude.{map};
    ghost use Rattle.jg_table_monitors.specs.Rows.{Rows};
    ghost use Rattle.jg_table_monitors.specs.Seen.{seen};
    ghost use Rattle.jg_table_monitors.specs.Keys.{Agree};

    ghost Value = { Rows };

    ghost view = { λ a. record { owned = map seen a.owned } };

    ghost invariant = { λ a. Agree a.owned a.held };
}

impl<A: Allocator + Copy> Monitors<A> {
    /// No monitor is owned. Takes no memory; the lists and maps grow from the handle.
    #[tactic(auto, unfolding(crate::specs::Keys::has))]
    pub fn new(alloc: A) -> Monitors<A>
        ensures stands { Stands result [] }
        ensures rows { result ≡ record { owned = [] } }
    {
        Monitors {
            owned: ByNumber::new(alloc, alloc),
            held: ByThread::new(alloc, alloc),
            alloc,
        }
    }
}

impl<A: Allocator + Clone> Monitors<A> {
    /// Enters the monitor of the object, once more where the thread owns it already (chapter 4,
    /// `MonitorEnter`). `Busy` where another thread owns it: nothing changes. Asks that its count can
    /// rise (`count` below the greatest `u64`). Fails for want of memory, and where 2^32 - 1 monitors are
    /// owned; both at a monitor that is free, and then leaves all unchanged.
    pub fn enter(&mut self, tid: Tid, object: ObjId) -> Result<Entering, AllocError>
        requires { count_in (row_of object.0 self.old) < u64.MAX }
        ensures row { IfOk result (λ answer. answer ≡ entering tid.0 (owner_in (row_of object.0 self.old))) }
        ensures stands { IfOk result (λ answer. (e : List Event) → Stands self.old e
            → answer ≡ entering tid.0 (owner e object.0)) }
        ensures entered { IfOk result (λ answer. answer ≡ Entering.Entered → (e : List Event) → Stands self.old e
            → Stands self.new (by tid.0 (Enter object.0) ∷ e)) }
        ensures busy { IfOk result (λ answer. answer ≡ Entering.Busy → self.new ≡ self.old) }
        ensures err { OnErr result (self.new ≡ self.old) }
        ensures free { OnErr result (owner_in (row_of object.0 self.old) ≡ None) }
    {
        match raise_own(&mut self.owned, tid.0, object.0) {
            Found::Own => Ok(Entering::Entered),
            Found::Others => Ok(Entering::Busy),
            Found::Free => {
                take(
                    &mut self.owned,
                    &mut self.held,
                    &self.alloc,
                    tid.0,
                    object.0,
                )?;
                Ok(Entering::Entered)
            }
        }
    }

    /// Exits the monitor of the object once; the owner's last exit frees it (chapter 4,
    /// `MonitorExit`). Asks that the thread owns it; the test is `owner`. Takes no memory.
    pub fn exit(&mut self, tid: Tid, object: ObjId)
        requires { owner_in (row_of object.0 self.old) ≡ Some tid.0 }
        ensures { (e : List Event) → Stands self.old e → Stands self.new (by tid.0 (Exit object.0) ∷ e) }
    {
        lower(&mut self.owned, &mut self.held, tid.0, object.0);
    }

    /// The thread that owns the monitor of the object.
    pub fn owner(&self, object: ObjId) -> Option<Tid>
        ensures row { result ≡ option_map (λ t. record { 0 = t }) (owner_in (row_of object.0 self.now)) }
        ensures stands { (e : List Event) → Stands self.now e
            → result ≡ option_map (λ t. record { 0 = t }) (owner e object.0) }
    {
        match look(&self.owned, object.0) {
            Some(owned) => Some(Tid(owned.tid)),
            None => None,
        }
    }

    /// How often the owner entered the monitor of the object and didn't exit it; 0 where it is free.
    pub fn count(&self, object: ObjId) -> u64
        ensures row { result ≡ count_in (row_of object.0 self.now) }
        ensures stands { (e : List Event) → Stands self.now e → result ≡ owner_count e object.0 }
    {
        match look(&self.owned, object.0) {
            Some(owned) => owned.count,
            None => 0,
        }
    }

    /// Releases all monitors that the thread owns, as its detachment does (chapter 5,
    /// `DetachCurrentThread`). Takes no memory, asks for nothing, and visits no other thread's.
    pub fn release_all(&mut self, tid: Tid)
        ensures { (e : List Event) → Stands self.old e → Stands self.new (by tid.0 ReleaseAll ∷ e) }
    {
        release(&mut self.owned, &mut self.held, tid.0);
    }

    /// Whether some thread owns the monitor of the object.
    pub fn held(&self, object: ObjId) -> bool
        ensures { (e : List Event) → Stands self.now e → result ≡ held e object.0 }
    {
        look(&self.owned, object.0).is_some()
    }

    /// Sets the mark of each object whose monitor is owned and leaves the other marks. An object
    /// without a mark is passed over.
    pub fn mark_held<M: Marking>(&self, marks: &mut M)
        ensures { (e : List Event) → Stands self.now e → Marks (held e) (M.mark_of marks.old) (M.mark_of marks.new) }
    {
        mark_keys(&self.owned, marks);
    }

    /// The owned monitors, ascending by object. Takes time by how many there are. Fails only for
    /// want of memory.
    pub fn list<B: Allocator>(&self, alloc: B) -> Result<Vec<OwnedMonitor, B>, AllocError>
        ensures rows { IfOk result (λ found. (o : ℕ) → filter (λ m. m.object.0 == o) found.items
            ≡ map owned_monitor (filter (is_of o) self.now.owned)) }
        ensures ascending { IfOk result (λ found. Ascends found.items) }
    {
        list_all(&self.owned, alloc)
    }
}
