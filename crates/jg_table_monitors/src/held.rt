//! The objects whose monitors each thread owns.

ghost use Rattle.std.specs.Prelude.{◌≡◌, ℕ, ◌==◌, ◌||◌, ◌&&◌, if◌then◌else◌, not, None, OnOk, OnErr, IsSome};
ghost use Rattle.jg_lists.specs.ByThread.{at, IsOnce};
ghost use Rattle.jg_table_monitors.specs.Keys.{has, same_pair, freed};

use crate::owned::{ByObject, free};
use jg_lists::ByThread;
use std::alloc::{AllocError, Allocator};
use std::collections::HashSet;
use std::hash::{BuildHasherDefault, FoldHasher};

/// The objects whose monitors a thread owns.
pub type Objects<A> = HashSet<u64, BuildHasherDefault<FoldHasher>, A>;

/// The same of each thread that owned one in its session.
pub type ByOwner<A> = ByThread<Objects<A>, A>;

/// Makes a set for the thread, if it has none.
#[tactic(auto, unfolding(crate::specs::Keys::has))]
fn open<A: Allocator + Clone>(held: &mut ByOwner<A>, alloc: &A, tid: u16) -> Result<(), AllocError>
    ensures some { OnOk result (IsSome (at tid held.new)) }
    ensures same { (q : ℕ × ℕ) → has held.new q ≡ has held.old q }
{
    if held.contains(tid) {
        return Ok(());
    }
    let objects = HashSet::new(alloc.clone()?);
    held.add(tid, objects)?;
    Ok(())
}

/// Puts the object into the thread's set, which is there.
#[tactic(auto, unfolding(crate::specs::Keys::has))]
fn put<A: Allocator + Clone>(held: &mut ByOwner<A>, tid: u16, object: u64) -> Result<(), AllocError>
    requires { IsSome (at tid held.old) }
    ensures held { OnOk result ((q : ℕ × ℕ) → has held.new q ≡ (same_pair (tid, object) q || has held.old q)) }
    ensures err { OnErr result ((q : ℕ × ℕ) → has held.new q ≡ has held.old q) }
{
    match held.get_mut(tid) {
        None => Ok(()),
        Some(objects) => {
            objects.insert(object)?;
            Ok(())
        }
    }
}

/// Notes that the thread owns the object's monitor.
pub fn hold<A: Allocator + Clone>(
    held: &mut ByOwner<A>,
    alloc: &A,
    tid: u16,
    object: u64,
) -> Result<(), AllocError>
    ensures held { OnOk result ((q : ℕ × ℕ) → has held.new q ≡ (same_pair (tid, object) q || has held.old q)) }
    ensures err { OnErr result ((q : ℕ × ℕ) → has held.new q ≡ has held.old q) }
{
    open(held, alloc, tid)?;
    put(held, tid, object)?;
    Ok(())
}

/// Notes that the thread doesn't own the object's monitor. Takes no memory.
#[tactic(auto, unfolding(crate::specs::Keys::has))]
pub fn let_go<A: Allocator>(held: &mut ByOwner<A>, tid: u16, object: u64)
    ensures { (q : ℕ × ℕ) → has held.new q ≡ (not (same_pair (tid, object) q) && has held.old q) }
{
    if let Some(objects) = held.get_mut(tid) {
        objects.remove(&object);
    }
}

/// Frees the monitors of the objects.
fn free_all<A: Allocator>(owned: &mut ByObject<A>, objects: &Objects<A>)
    ensures freed { (q : ℕ) → at q owned.new ≡ freed objects.now.keys q (at q owned.old) }
    ensures once { IsOnce owned.old → IsOnce owned.new }
{
    for object in objects.iter() {
        free(owned, *object);
    }
}

/// Frees the thread's monitors, and gives the memory of its set back.
#[tactic(auto, unfolding(crate::specs::Keys::has))]
pub fn free_held<A: Allocator + Clone>(owned: &mut ByObject<A>, held: &mut ByOwner<A>, tid: u16)
    ensures freed { (q : ℕ) → at q owned.new
        ≡ (if has held.old (tid, q) then None else at q owned.old) }
    ensures once { IsOnce owned.old → IsOnce owned.new }
    ensures held { (q : ℕ × ℕ) → has held.new q ≡ (not (tid == q.0) && has held.old q) }
{
    if let Some(objects) = held.remove(tid) {
        free_all(owned, &objects);
    }
}
