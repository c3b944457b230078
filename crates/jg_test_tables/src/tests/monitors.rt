//! Tests of the table of monitors: many threads, and refused growths.

use super::{Growing, goes_on, grows_for_all};
use jg_table_monitors::Monitors;
use jg_words::{ObjId, Tid};
use linked_list_allocator::LocalHeap;
use std::alloc::{AllocError, Allocator};
use std::test::Fail;

impl<A: Allocator + Clone> Growing for Monitors<A> {
    /// A thread enters a monitor of its own, whose count can rise.
    fn grow(&mut self, n: u16) -> Result<(), AllocError> {
        let own = ObjId(n as u64);
        if self.count(own) == u64::MAX {
            return Err(AllocError);
        }
        self.enter(Tid(n), own)?;
        Ok(())
    }
}

/// 65,535 threads enter a monitor each, twice, and none is refused.
#[test]
fn many_threads(rt: HostRuntime) {
    let mut table = Monitors::new(rt.alloc());
    assert!(rt; grows_for_all(&mut table));
    assert!(rt; grows_for_all(&mut table));
}

#[test]
fn refused_growth(rt: HostRuntime) -> Result<(), Fail> {
    let heap = LocalHeap::new(rt.alloc(), 16000)?;
    let mut table = Monitors::new(&heap);
    let mut block = Vec::new(&heap);
    assert!(rt; goes_on(&mut table, &mut block, 12000));
    Ok(())
}
