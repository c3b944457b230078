//! Tests of links and warnings: refused growths.

use super::{Growing, goes_on};
use jg_policy::Links;
use linked_list_allocator::LocalHeap;
use std::alloc::AllocError;
use std::test::Fail;

impl<'a> Growing for Links<&'a LocalHeap> {
    fn grow(&mut self, n: u16) -> Result<(), AllocError> {
        let number = n as u32 + 1;
        self.reserve()?;
        self.link(15, number)?;
        self.warn(number)
    }
}

#[test]
fn refused_growth(rt: HostRuntime) -> Result<(), Fail> {
    let heap = LocalHeap::new(rt.alloc(), 16000)?;
    let mut links = Links::new(&heap, &heap);
    let mut block = Vec::new(&heap);
    assert!(rt; goes_on(&mut links, &mut block, 8000));
    Ok(())
}
