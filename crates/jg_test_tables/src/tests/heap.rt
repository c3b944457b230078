//! Tests of the store of objects: makings that are refused, and great sizes.

use super::{Growing, goes_on};
use jg_lists::ObjectMarks;
use jg_table_heap::{Heap, Shape, Slot, from_mutf8, from_mutf8_items, to_mutf8};
use jg_words::Primitive;
use linked_list_allocator::LocalHeap;
use std::alloc::{AllocError, Global};
use std::test::Fail;

#[test]
fn a_store_that_finds_no_room_is_refused(rt: HostRuntime) -> Result<(), Fail> {
    let small = LocalHeap::new(rt.alloc(), 512)?;
    assert!(rt; Heap::new(&small, 1015).is_err());
    assert_eq!(rt; small.used(), 0);
    let large = LocalHeap::new(rt.alloc(), 1 << 18)?;
    assert!(rt; Heap::new(&large, 1015).is_ok());
    Ok(())
}

impl<'a> Growing for Heap<&'a LocalHeap> {
    fn grow(&mut self, _n: u16) -> Result<(), AllocError> {
        let (element, length) = (Primitive::Int, 5);
        self.alloc(Shape::Numbers { element, length })?;
        Ok(())
    }
}

fn goes_on_in(room: &LocalHeap) -> bool {
    let Ok(mut heap) = Heap::new(room, 15) else {
        return false;
    };
    let mut block = Vec::new(room);
    goes_on(&mut heap, &mut block, 49152)
}

/// A refused making leaves nothing behind, whatever room there is for its parts.
#[test]
fn a_refused_making_changes_nothing(rt: HostRuntime) -> Result<(), Fail> {
    for step in 0..40usize {
        let room = LocalHeap::new(rt.alloc(), 57000 + step * 48)?;
        assert!(rt; goes_on_in(&room), "{step}");
        assert_eq!(rt; room.used(), 0);
    }
    Ok(())
}

fn refused_spellings(small: &LocalHeap, units: &[u16], bytes: &[u8], items: &[i64]) -> [bool; 3] {
    [
        to_mutf8(small, units).is_err(),
        from_mutf8(small, bytes).is_err(),
        from_mutf8_items(small, items).is_err(),
    ]
}

#[test]
fn a_refused_spelling_leaves_nothing(rt: HostRuntime) -> Result<(), Fail> {
    let small = LocalHeap::new(rt.alloc(), 64)?;
    let units = vec![in rt.alloc(); 65u16; 300]?;
    let bytes = vec![in rt.alloc(); 65u8; 300]?;
    let items = vec![in rt.alloc(); 65i64; 300]?;
    assert_eq!(rt;
        refused_spellings(&small, &units, &bytes, &items),
        [true; 3]
    );
    assert_eq!(rt; small.used(), 0);
    Ok(())
}

/// The greatest length that the machine gives an array. A function, so that no proof computes a
/// list of so many items.
fn largest() -> usize {
    1_000_000
}

fn make_fields(alloc: Global, heap: &mut Heap) -> Result<(), AllocError> {
    let fields = vec![in alloc; Slot::Object(None); largest()]?;
    heap.alloc(Shape::Plain { class: 15, fields })?;
    Ok(())
}

/// Units that are spelt in three bytes each, and read again.
fn respelt(alloc: Global) -> Result<Option<Vec<u16>>, AllocError> {
    let units = vec![in alloc; 65535u16; largest()]?;
    let bytes = to_mutf8(alloc, &units)?;
    from_mutf8(alloc, &bytes)
}

fn make_text(alloc: Global, heap: &mut Heap) -> Result<(), AllocError> {
    match respelt(alloc)? {
        Some(units) if units.len() < 1 << 61 => {
            heap.alloc(Shape::Text(units))?;
            Ok(())
        }
        _ => Err(AllocError),
    }
}

fn read_items(alloc: Global) -> Result<(), AllocError> {
    let items = vec![in alloc; 127i64; largest()]?;
    match from_mutf8_items(alloc, &items)? {
        Some(_) => Ok(()),
        None => Err(AllocError),
    }
}

fn make_many(heap: &mut Heap) -> Result<(), AllocError> {
    for _ in 0..100_000u32 {
        let (element, length) = (Primitive::Byte, 1);
        heap.alloc(Shape::Numbers { element, length })?;
    }
    Ok(())
}

fn find_many(alloc: Global, heap: &Heap) -> Result<(), AllocError> {
    let mut marks = ObjectMarks::new(alloc);
    let mut unheld = Vec::new(alloc);
    marks.start(100_017)?;
    heap.find_unheld(&mut marks, &mut unheld)
}

/// An object of a million fields, a text of a million units, one that is read from a million bytes; and a hundred
/// thousand arrays that nothing holds.
#[test]
fn great_sizes(rt: HostRuntime) -> Result<(), Fail> {
    let mut heap = Heap::new(rt.alloc(), 15)?;
    assert!(rt; make_fields(rt.alloc(), &mut heap).is_ok(), "fields");
    assert!(rt; make_text(rt.alloc(), &mut heap).is_ok(), "a text");
    assert!(rt; read_items(rt.alloc()).is_ok(), "bytes");
    assert!(rt; make_many(&mut heap).is_ok(), "arrays");
    assert!(rt; find_many(rt.alloc(), &heap).is_ok(), "what nothing holds");
    Ok(())
}
