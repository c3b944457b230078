//! The owned monitors by object, and what each thread owns, changed together.

ghost use Rattle.std.specs.Prelude.{◌≡◌, ℕ, ◌==◌, true, not, if◌then◌else◌, None, Some, OnOk, OnErr};
ghost use Rattle.jg_lists.specs.ByThread.{at, IsOnce};
ghost use Rattle.std.proofs.lemmas.Map.Entries.{option_filter};
ghost use Rattle.jg_table_monitors.specs.Keys.{Agree, is_owned_by};
ghost use Rattle.jg_table_monitors.specs.Seen.{lowered};

use crate::held::{ByOwner, free_held, hold, let_go};
use crate::owned::{ByObject, Owned, lower_count};
use std::alloc::{AllocError, Allocator};

/// Gives a monitor that is free its owner, who entered it once.
pub fn take<A: Allocator + Clone>(
    owned: &mut ByObject<A>,
    held: &mut ByOwner<A>,
    alloc: &A,
    tid: u16,
    object: u64,
) -> Result<(), AllocError>
    requires agree { Agree owned.old held.old }
    requires free { at object owned.old ≡ None }
    ensures taken { OnOk result ((q : ℕ) → at q owned.new
        ≡ (if object == q then Some (record { tid = tid; count = 1 }) else at q owned.old)) }
    ensures once { OnOk result (IsOnce owned.new) }
    ensures err { OnErr result (owned.new ≡ owned.old) }
    ensures agree { Agree owned.new held.new }
{
    let Ok(()) = hold(held, alloc, tid, object) else {
        return Err(AllocError);
    };
    let Ok(()) = owned.add(object, Owned { tid, count: 1 }) else {
        let_go(held, tid, object);
        return Err(AllocError);
    };
    Ok(())
}

/// Lowers the count of the thread's monitor by one, and frees it at 0. Takes no memory.
pub fn lower<A: Allocator>(owned: &mut ByObject<A>, held: &mut ByOwner<A>, tid: u16, object: u64)
    requires agree { Agree owned.old held.old }
    requires mine { is_owned_by tid (at object owned.old) ≡ true }
    ensures lowered { (q : ℕ) → at q owned.new
        ≡ (if object == q then lowered (at q owned.old) else at q owned.old) }
    ensures once { IsOnce owned.new }
    ensures agree { Agree owned.new held.new }
{
    if lower_count(owned, object) {
        let_go(held, tid, object);
    }
}

/// Frees the thread's monitors. Takes no memory, and visits no other thread's.
pub fn release<A: Allocator + Clone>(owned: &mut ByObject<A>, held: &mut ByOwner<A>, tid: u16)
    requires agree { Agree owned.old held.old }
    ensures released { (q : ℕ) → at q owned.new
        ≡ option_filter (λ w. not (w.tid == tid)) (at q owned.old) }
    ensures once { IsOnce owned.new }
    ensures agree { Agree owned.new held.new }
{
    // A table tells with its seats that no object is there twice.
    let _owned = owned.seats();
    free_held(owned, held, tid);
}
