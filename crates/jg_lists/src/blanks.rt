//! Lists in which what was never written is blank: the places of seats, and counts.

ghost use Rattle.std.specs.Prelude.{◌≡◌, ℕ, ◌+◌, ◌<◌, ◌≤◌, max, OnOk, length, slice_index_or};

use std::alloc::{AllocError, Allocator};

/// What stands at the index, or the blank past the end.
pub fn number_at<T: Copy, A: Allocator>(items: &Vec<T, A>, index: usize, blank: T) -> T
    ensures { result ≡ slice_index_or items.now.items index blank }
{
    match items.get(index) {
        Some(item) => *item,
        None => blank,
    }
}

/// Makes the list reach beyond the index, with blanks where nothing stood. Fails for want of memory, and for
/// the greatest index of all; what is there stays as it was.
pub fn widen<T: Copy, A: Allocator>(
    items: &mut Vec<T, A>,
    index: usize,
    blank: T,
) -> Result<(), AllocError>
    ensures ok { OnOk result (index < length items.new.items) }
    ensures same { (n : ℕ) → slice_index_or items.new.items n blank ≡ slice_index_or items.old.items n blank }
    ensures few { length items.new.items ≤ max (length items.old.items) (index + 1) }
{
    if items.len() <= index {
        let Some(count) = index.checked_add(1) else {
            return Err(AllocError);
        };
        items.resize(count, blank)?;
    }
    Ok(())
}
