//! Tests of the table of global and weak references: many makers, and refused growths.

ghost use Rattle.std.specs.Prelude.{ℕ};
ghost use Rattle.jg_table_globals.specs.Rows.{IsAbove};

use jg_table_globals::Globals;
use jg_words::{ObjId, Tid};
use linked_list_allocator::LocalHeap;
use std::alloc::AllocError;
use std::test::Fail;

const T1: Tid = Tid(1);

const TEXT: ObjId = ObjId(15);

/// A global reference of each of 65,535 threads.
fn make_for_all(table: &mut Globals) -> Result<(), AllocError>
    requires { (k i : ℕ) → IsAbove k i table.old }
{
    for t in 0..u16::MAX {
        table.make_strong(Tid(t), 1, ObjId(t as u64))?;
    }
    Ok(())
}

/// 65,535 threads make a global reference each, and none is refused.
#[test]
fn many_makers(rt: HostRuntime) {
    let mut table = Globals::new(rt.alloc(), rt.alloc());
    assert!(rt; make_for_all(&mut table).is_ok());
}

/// Whether a reference of each kind is refused while a block takes up the heap, and both are made after that.
fn goes_on<'a>(table: &mut Globals<&'a LocalHeap>, block: &mut Vec<u8, &'a LocalHeap>) -> bool
    requires { (k i : ℕ) → IsAbove k i table.old }
{
    let taken = block.try_reserve(4064).is_ok();
    let strong = table.make_strong(T1, 1, TEXT).is_err();
    let weak = table.make_weak(T1, 2, TEXT).is_err();
    block.shrink_to_fit();
    let strong_again = table.make_strong(T1, 3, TEXT).is_ok();
    let weak_again = table.make_weak(T1, 4, TEXT).is_ok();
    taken && strong && weak && strong_again && weak_again
}

#[test]
fn refused_growth(rt: HostRuntime) -> Result<(), Fail> {
    let heap = LocalHeap::new(rt.alloc(), 4096)?;
    let mut table = Globals::new(&heap, &heap);
    let mut block = Vec::new(&heap);
    assert!(rt; goes_on(&mut table, &mut block));
    Ok(())
}
