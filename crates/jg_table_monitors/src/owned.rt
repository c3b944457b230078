//! The owner and the count of each owned monitor, by object: one is entered, exited or freed.

ghost use Rattle.std.specs.Prelude.{◌≡◌, ℕ, ◌==◌, ◌<◌, not, if◌then◌else◌, filter, None, IfOk, map};
ghost use Rattle.std.specs.List.{list_any};
ghost use Rattle.std.specs.Map.{keys_of};
ghost use Rattle.std.specs.Option.{is_some};
ghost use Rattle.jg_lists.specs.ByThread.{at, IsOnce};
ghost use Rattle.jg_lists.specs.Marks.{Marks};
ghost use Rattle.jg_table_monitors.specs.Rows.{Ascends, is_of, owned_monitor};
ghost use Rattle.jg_table_monitors.specs.Seen.{count_kept, finds, raised, lowered, seen};

use crate::owned_monitor::OwnedMonitor;
use jg_lists::{ByNumber, Marking};
use jg_words::{ObjId, Tid};
use std::alloc::{AllocError, Allocator};

/// The owner of a monitor, and how often it entered it and didn't exit: at least once.
#[derive(Clone, Copy)]
pub struct Owned {
    pub tid: u16,
    pub count: u64,
}

/// The owners, by object.
pub type ByObject<A> = ByNumber<Owned, A>;

pub fn look<A: Allocator>(map: &ByObject<A>, object: u64) -> Option<Owned>
    ensures { result ≡ at object map.now }
{
    map.get(object).copied()
}

/// What a thread finds that would enter a monitor.
#[derive(Clone, Copy)]
pub enum Found {
    Free,
    Own,
    Others,
}

/// Raises the count of the object's monitor by one where the thread owns it, and changes nothing
/// else. Takes no memory.
pub fn raise_own<A: Allocator>(map: &mut ByObject<A>, tid: u16, object: u64) -> Found
    requires { count_kept (at object map.old) < u64.MAX }
    ensures found { result ≡ finds tid (at object map.old) }
    ensures raised { (q : ℕ) → at q map.new
        ≡ (if object == q then raised tid (at q map.old) else at q map.old) }
    ensures once { IsOnce map.new }
    ensures free { result ≡ Found.Free → map.new ≡ map.old }
    ensures others { result ≡ Found.Others → map.new ≡ map.old }
{
    let Some(owned) = map.get(object).copied() else {
        return Found::Free;
    };
    if owned.tid != tid {
        return Found::Others;
    }
    map.set(
        object,
        Owned {
            count: owned.count + 1,
            ..owned
        },
    );
    Found::Own
}

/// Lowers the count of the object's monitor by one, and frees it at 0. Answers whether it is free
/// then. Takes no memory.
pub fn lower_count<A: Allocator>(map: &mut ByObject<A>, object: u64) -> bool
    ensures free { result ≡ not (is_some (lowered (at object map.old))) }
    ensures lowered { (q : ℕ) → at q map.new
        ≡ (if object == q then lowered (at q map.old) else at q map.old) }
    ensures once { IsOnce map.new }
{
    if let Some(owned) = look(map, object) {
        if owned.count > 1 {
            map.set(
                object,
                Owned {
                    count: owned.count - 1,
                    ..owned
                },
            );
            return false;
        }
    }
    map.remove(object);
    true
}

/// Frees the object's monitor. Takes no memory.
pub fn free<A: Allocator>(map: &mut ByObject<A>, object: u64)
    ensures freed { (q : ℕ) → at q map.new ≡ (if object == q then None else at q map.old) }
    ensures once { IsOnce map.new }
{
    map.remove(object);
}

pub fn mark_keys<A: Allocator, M: Marking>(map: &ByObject<A>, marks: &mut M)
    ensures { Marks (λ o. list_any (λ k. k == o) (keys_of map.now)) (M.mark_of marks.old) (M.mark_of marks.new) }
{
    for seat in map.seats() {
        marks.set(seat.number);
    }
}

/// The owned monitors, ascending by object.
pub fn list_all<A: Allocator, B: Allocator>(
    owned: &ByObject<A>,
    alloc: B,
) -> Result<Vec<OwnedMonitor, B>, AllocError>
    ensures rows { IfOk result (λ found. (o : ℕ) → filter (λ m. m.object.0 == o) found.items
        ≡ map owned_monitor (filter (is_of o) (map seen owned.now))) }
    ensures ascending { IfOk result (λ found. Ascends found.items) }
{
    let mut found = Vec::new(alloc);
    for seat in owned.seats() {
        found.push(OwnedMonitor {
            object: ObjId(seat.number),
            owner: Tid(seat.value.tid),
            count: seat.value.count,
        })?;
    }
    found.sort_unstable_by_key(|monitor| monitor.object.0);
    Ok(found)
}
