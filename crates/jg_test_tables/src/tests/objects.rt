//! Tests of the core's store of objects: refused growths, and the memory that it takes.

use super::{Growing, goes_on};
use jg_table_objects::Objects;
use jg_words::ObjId;
use linked_list_allocator::LocalHeap;
use std::alloc::{AllocError, Allocator};
use std::test::Fail;

/// Meets an object, whose number can rise.
fn meet<A: Allocator>(table: &mut Objects<A>, length: u32) -> Result<ObjId, AllocError> {
    if table.len() >= 1 << 63 {
        return Err(AllocError);
    }
    table.meet(12, length)
}

impl<'a> Growing for Objects<&'a LocalHeap> {
    fn grow(&mut self, n: u16) -> Result<(), AllocError> {
        meet(self, n as u32)?;
        Ok(())
    }
}

#[test]
fn refused_growth(rt: HostRuntime) -> Result<(), Fail> {
    let heap = LocalHeap::new(rt.alloc(), 16000)?;
    let mut table = Objects::new(&heap, &heap, 2);
    let mut block = Vec::new(&heap);
    assert!(rt; goes_on(&mut table, &mut block, 12000));
    Ok(())
}

/// Meets so many objects, and lets each go once ten later ones are there.
fn churn<A: Allocator>(table: &mut Objects<A>, count: u32) -> Result<(), AllocError> {
    for n in 0..count {
        let object = meet(table, n)?;
        if let Some(old) = object.0.checked_sub(10) {
            table.go(&[ObjId(old)]);
        }
    }
    Ok(())
}

/// Memory follows what is there: 100,000 objects, of which ten are there at a time, fit in 2,000 bytes.
#[test]
fn little_memory(rt: HostRuntime) -> Result<(), Fail> {
    let heap = LocalHeap::new(rt.alloc(), 2000)?;
    let mut table = Objects::new(&heap, &heap, 0);
    assert!(rt; churn(&mut table, 100_000).is_ok());
    Ok(())
}
