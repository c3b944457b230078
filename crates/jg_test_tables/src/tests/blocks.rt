//! Tests of the blocks of the journal: blocks that are refused.

use super::{Growing, goes_on};
use jg_blocks::Blocks;
use linked_list_allocator::LocalHeap;
use std::alloc::AllocError;
use std::test::Fail;

impl<'a> Growing for Blocks<u64, &'a LocalHeap> {
    fn grow(&mut self, n: u16) -> Result<(), AllocError> {
        self.reserve(1)?;
        self.push(n as u64);
        Ok(())
    }
}

#[test]
fn refused_block(rt: HostRuntime) -> Result<(), Fail> {
    let heap = LocalHeap::new(rt.alloc(), 24_000)?;
    let mut items = Blocks::new(&heap, &heap);
    let mut block = Vec::new(&heap);
    assert!(rt; goes_on(&mut items, &mut block, 12_000));
    Ok(())
}
