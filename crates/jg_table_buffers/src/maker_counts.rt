//! How many pinned buffers of each thread are open, by the thread's number.

ghost use Rattle.std.specs.Prelude.{◌≡◌, ℕ, ◌+◌, ◌-◌, ◌<◌, ◌==◌, OnOk, if◌then◌else◌, length, slice_index_or};

use jg_lists::widen;
use std::alloc::{AllocError, Allocator};

/// Makes room for one more of the thread's. Fails for want of memory, and at the greatest count of all;
/// each count stays as it was.
pub fn widen_counts<A: Allocator>(makers: &mut Vec<usize, A>, tid: u16) -> Result<(), AllocError>
    ensures same { (t : ℕ) → slice_index_or makers.new.items t 0 ≡ slice_index_or makers.old.items t 0 }
    ensures room { OnOk result (tid < length makers.new.items) }
    ensures fits { OnOk result (slice_index_or makers.new.items tid 0 < usize.MAX) }
{
    widen(makers, tid as usize, 0)?;
    if makers[tid as usize] == usize::MAX {
        return Err(AllocError);
    }
    Ok(())
}

/// One more of the thread's.
pub fn raise_count<A: Allocator>(makers: &mut Vec<usize, A>, tid: u16)
    requires room { tid < length makers.old.items }
    requires fits { slice_index_or makers.old.items tid 0 < usize.MAX }
    ensures { (t : ℕ) → slice_index_or makers.new.items t 0
        ≡ (if tid == t then slice_index_or makers.old.items tid 0 + 1
        else slice_index_or makers.old.items t 0) }
{
    makers[tid as usize] += 1;
}

/// One less of the thread's, if there is one.
pub fn lower_count<A: Allocator>(makers: &mut Vec<usize, A>, tid: u16)
    ensures { (t : ℕ) → slice_index_or makers.new.items t 0
        ≡ (if tid == t then slice_index_or makers.old.items tid 0 - 1
        else slice_index_or makers.old.items t 0) }
{
    if let Some(count) = makers.get_mut(tid as usize) {
        *count = count.saturating_sub(1);
    }
}
