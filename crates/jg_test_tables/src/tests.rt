//! Tests by table: growths that are refused, great sizes, and memory that follows what is there. And tests of lines,
//! setups and the command line, and a run of `jg_example_core`.

mod blocks;
mod buffers;
mod globals;
mod heap;
mod links;
mod locals;
mod monitors;
mod numbers;
mod objects;
mod own_machine;
mod refused;
mod threads;
mod told;
mod witness;
mod words;

use linked_list_allocator::LocalHeap;
use std::alloc::AllocError;

/// A table that holds more and more.
trait Growing {
    /// Makes what is the `n`th of its kind. Fails only for want of memory, and then may be called again.
    fn grow(&mut self, n: u16) -> Result<(), AllocError>;
}

/// Whether the table grows 65,535 times.
fn grows_for_all<T: Growing>(table: &mut T) -> bool {
    for n in 0..u16::MAX {
        if table.grow(n).is_err() {
            return false;
        }
    }
    true
}

/// Grows the table until that is refused, while a block of so many bytes takes up its heap; then the block is given
/// back. Whether the same growth is made now.
fn goes_on<'a, T: Growing>(
    table: &mut T,
    block: &mut Vec<u8, &'a LocalHeap>,
    bytes: usize,
) -> bool {
    if block.try_reserve(bytes).is_err() {
        return false;
    }
    for n in 0..5000u16 {
        if table.grow(n).is_err() {
            block.shrink_to_fit();
            return table.grow(n).is_ok();
        }
    }
    false
}
