//! Tests of the table of threads: many threads, and refused attachments.

use super::{Growing, goes_on, grows_for_all};
use jg_table_threads::Threads;
use jg_words::Tid;
use linked_list_allocator::LocalHeap;
use std::alloc::{AllocError, Allocator};
use std::test::Fail;

impl<A: Allocator + Clone> Growing for Threads<A> {
    /// A thread is attached, whose numbers can rise.
    fn grow(&mut self, n: u16) -> Result<(), AllocError> {
        if !self.can_count(Tid(n)) {
            return Err(AllocError);
        }
        self.attach(Tid(n))?;
        Ok(())
    }
}

/// 65,535 threads are attached, and no attachment is refused.
#[test]
fn many_threads(rt: HostRuntime) {
    let mut threads = Threads::new(rt.alloc(), rt.alloc());
    assert!(rt; grows_for_all(&mut threads));
}

#[test]
fn refused_attachment(rt: HostRuntime) -> Result<(), Fail> {
    let heap = LocalHeap::new(rt.alloc(), 8000)?;
    let mut threads = Threads::new(&heap, &heap);
    let mut block = Vec::new(&heap);
    assert!(rt; goes_on(&mut threads, &mut block, 6000));
    Ok(())
}
