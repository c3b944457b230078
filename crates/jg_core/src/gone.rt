//! What the collector let go.

ghost use Rattle.std.specs.Prelude.{◌≡◌, ◌<◌, ◌==◌, ◌&&◌, ◌++◌, if◌then◌else◌, true, false, ℕ, List, None, Some, IfSome, IfErr, OnOk, OnErr, length, map, slice_index_or};
ghost use Rattle.std.specs.List.{list_any};
ghost use Rattle.jg_table_globals.specs.History.{Clear, Event};
ghost use Rattle.jg_table_globals.specs.Standing.{Stands};
ghost use Rattle.jg_lists.specs.Marks.{Marks};
ghost use Rattle.jg_table_objects.specs.History.{is_listed};
ghost use Rattle.jg_table_objects.specs.Rows.{IsButMarks, mark_in};
ghost use Rattle.jg_rules.specs.Holding.{is_root};
ghost use Rattle.jg_rules.specs.Parts.{HoldersStand, Parts};
ghost use Rattle.jg_rules.specs.View.{rows_in};
ghost use Rattle.jg_core.specs.Facts.{first_held};
ghost use Rattle.jg_core.specs.Kernel.{Keeps};
ghost use Rattle.jg_core.specs.Gone.{first_unfit, gone_on, is_set, is_unset};
ghost use Rattle.jg_core.specs.Tables.{Stand, rows_of};

use crate::tables::Tables;
use jg_lists::Marking;
use jg_policy::Setup;
use jg_rules::{View, mark_roots};
use jg_table_globals::Globals;
use jg_table_objects::{Before, Marker, Objects};
use jg_words::{BufId, ObjId, Ref, Tid};
use std::alloc::Allocator;
use std::marker::Brand;
use std::mem;

/// Why a list of objects isn't gone. Nothing changed.
#[derive(Clone, Copy)]
pub struct StillHeld {
    /// The place in the list, from 0, of the first object that can't be gone once those before it are.
    pub place: usize,
    /// What keeps it.
    pub by: Holder,
}

/// What keeps an object from being gone.
#[derive(Clone, Copy)]
pub enum Holder {
    /// Nothing does: it isn't there, or stands in the list before.
    Nothing,
    /// It is a class object of the setup.
    Setup,
    /// A live local or global reference names it.
    Reference(Ref),
    /// It is pending in the thread.
    Pending(Tid),
    /// A critical buffer of it is open.
    Buffer(BufId),
    /// The thread owns its monitor.
    Monitor(Tid),
}

/// Sets the marks of what something holds. The store is lent apart from the view, to be marked in.
fn mark_in_store<B: Before, A: Allocator + Clone>(
    view: &View<'_, A, Objects<A>>,
    store: Objects<A>,
) -> Objects<A>
    requires { store ≡ B.before }
    ensures marks { (p : Parts) → HoldersStand (rows_in view.now) p
        → Marks (is_root p) (mark_in store) (mark_in result) }
    ensures same { IsButMarks B.before result }
{
    let mut marker: Marker<B, A> = Marker::new(store);
    mark_roots(view, &mut marker);
    marker.into_objects()
}

/// Sets the marks of what something holds, in one pass over what is held.
fn mark_held<A: Allocator + Copy>(tables: &mut Tables<A>, setup: &Setup)
    ensures marks { (p : Parts) → HoldersStand (rows_of tables.old) p
        → Marks (is_root p) (mark_in tables.old.objects) (mark_in tables.new.objects) }
    ensures same { IsButMarks tables.old.objects tables.new.objects }
    ensures rows { rows_of tables.new ≡ record (rows_of tables.old) { heap = tables.new.objects } }
{
    let none = Objects::new(tables.alloc, tables.alloc, 0);
    let store = mem::replace(&mut tables.objects, none);
    tables.objects = mark_in_store::<Brand, A>(&tables.view(setup), store);
}

/// Sets the object's mark, if it has one that isn't set; whether it had.
fn pass<A: Allocator>(store: &mut Objects<A>, object: ObjId) -> bool
    ensures result { result ≡ is_unset (mark_in store.old object.0) }
    ensures marks { (o : ℕ) → mark_in store.new o
        ≡ (if result && (object.0 == o) then Some true else mark_in store.old o) }
    ensures same { IsButMarks store.old store.new }
{
    if store.mark(object) == Some(false) {
        store.set(object.0);
        return true;
    }
    false
}

/// The place of the first object that has no mark or a set one, where each before it is marked, if there is one.
fn first_unfit<A: Allocator>(store: &mut Objects<A>, objects: &[ObjId]) -> Option<usize>
    ensures first { result ≡ first_unfit (mark_in store.old) objects.now }
    ensures within { IfSome result (λ place. place < length objects.now) }
    ensures set { result ≡ None → (o : ℕ) → mark_in store.new o
        ≡ (if is_listed objects.now o then Some true else mark_in store.old o) }
    ensures others { (o : ℕ) → is_listed objects.now o ≡ false → mark_in store.new o ≡ mark_in store.old o }
    ensures same { IsButMarks store.old store.new }
{
    for i in 0..objects.len() {
        if !pass(store, objects[i]) {
            return Some(i);
        }
    }
    None
}

/// Clears the weak references to what is marked, in one pass over them.
fn clear_marked<A: Allocator>(store: &Objects<A>, globals: &mut Globals<A>)
    ensures { (g : List Event) (gone : List ℕ) → Stands globals.old g
        → ((o : ℕ) → is_set (mark_in store.now o) ≡ list_any (λ x. x == o) gone)
        → Stands globals.new (map (λ o. Clear o) gone ++ g) }
{
    globals.clear_weak_where(
        |object: ObjId| -> bool
            ensures { result ≡ is_set (mark_in store.entry.now object.0) }
        { store.mark(object) == Some(true) },
    );
}

/// What keeps the object from being gone, if anything does; of several any.
fn holder_of<A: Allocator + Clone>(tables: &Tables<A>, setup: &Setup, object: ObjId) -> Holder
    ensures { (p : Parts) → HoldersStand (rows_of tables.now) p → Keeps setup.now p object.0 result }
{
    if object.0 < u64::from(setup.class_count()) {
        return Holder::Setup;
    }
    if let Some(reference) = tables.locals.holder_of(object) {
        return Holder::Reference(reference);
    }
    if let Some(reference) = tables.globals.holder_of(object) {
        return Holder::Reference(reference);
    }
    if let Some(tid) = tables.threads.pending_in(object) {
        return Holder::Pending(tid);
    }
    if let Some(buffer) = tables.buffers.pin_of(object) {
        return Holder::Buffer(buffer);
    }
    match tables.monitors.owner(object) {
        Some(tid) => Holder::Monitor(tid),
        None => Holder::Nothing,
    }
}

/// Lets the objects go, all or none. No object has a mark, before and after. Takes no memory, and time by the list and
/// by what is held.
pub(crate) fn let_all_go<A: Allocator + Copy>(
    tables: &mut Tables<A>,
    setup: &Setup,
    objects: &[ObjId],
) -> Result<(), StillHeld>
    requires stands { (p : Parts) × Stand setup.now (rows_of tables.old) p }
    requires unmarked { (o : ℕ) → mark_in tables.old.objects o ≡ None }
    ensures ok { OnOk result ((p : Parts) → Stand setup.now (rows_of tables.old) p
        → Stand setup.now (rows_of tables.new) (gone_on objects.now p)) }
    ensures all { OnOk result ((p : Parts) → Stand setup.now (rows_of tables.old) p
        → first_held setup.now p objects.now ≡ None) }
    ensures err { OnErr result ((p : Parts) → Stand setup.now (rows_of tables.old) p
        → Stand setup.now (rows_of tables.new) p) }
    ensures place { IfErr result (λ held. (p : Parts) → Stand setup.now (rows_of tables.old) p
        → first_held setup.now p objects.now ≡ Some held.place) }
    ensures by { IfErr result (λ held. (p : Parts) → Stand setup.now (rows_of tables.old) p
        → Keeps setup.now p (slice_index_or objects.now held.place (record { 0 = 0 })).0 held.by) }
    ensures unmarked { (o : ℕ) → mark_in tables.new.objects o ≡ None }
{
    tables.objects.give_marks(objects);
    mark_held(tables, setup);
    match first_unfit(&mut tables.objects, objects) {
        None => {
            clear_marked(&tables.objects, &mut tables.globals);
            tables.objects.go(objects);
            Ok(())
        }
        Some(place) => {
            tables.objects.take_marks(objects);
            let by = holder_of(tables, setup, objects[place]);
            Err(StillHeld { place, by })
        }
    }
}
