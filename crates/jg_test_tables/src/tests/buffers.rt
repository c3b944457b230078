//! Tests of the table of buffers: refused growths.

ghost use Rattle.std.specs.Prelude.{◌≡◌, ℕ, false};
ghost use Rattle.jg_table_buffers.specs.History.{is_null};
ghost use Rattle.jg_table_buffers.specs.Rows.{IsAbove};

use jg_table_buffers::{Buffers, Family};
use jg_words::{ItemType, Kind, ObjId, Primitive, Ref, Tid};
use linked_list_allocator::LocalHeap;
use std::test::Fail;

const T1: Tid = Tid(1);

const ARRAY: ObjId = ObjId(15);

const INTS: Family = Family::Elements(ItemType::Of(Primitive::Int));

fn global(maker: Tid, n: u64) -> Ref
    ensures { is_null result ≡ false }
{
    Ref::To {
        kind: Kind::Global,
        maker,
        n,
    }
}

/// Whether a buffer of each kind is refused while a block takes up the heap, and both are opened after that.
fn goes_on<'a>(table: &mut Buffers<&'a LocalHeap>, block: &mut Vec<u8, &'a LocalHeap>) -> bool
    requires { (k i : ℕ) → IsAbove k i table.old }
{
    let pin = Family::ArrayCritical;
    let taken = block.try_reserve(16352).is_ok();
    let copy = table.open_copy(T1, 1, ARRAY, INTS, &[1, 2]).is_err();
    let pinned = table.open_pin(T1, 2, ARRAY, pin, global(T1, 1), 2).is_err();
    block.shrink_to_fit();
    let copy_again = table.open_copy(T1, 3, ARRAY, INTS, &[1, 2]).is_ok();
    let pinned_again = table.open_pin(T1, 4, ARRAY, pin, global(T1, 1), 2).is_ok();
    taken && copy && pinned && copy_again && pinned_again
}

#[test]
fn refused_growth(rt: HostRuntime) -> Result<(), Fail> {
    let heap = LocalHeap::new(rt.alloc(), 16384)?;
    let mut table = Buffers::new(&heap, &heap, &heap, &heap, &heap);
    let mut block = Vec::new(&heap);
    assert!(rt; goes_on(&mut table, &mut block));
    Ok(())
}
