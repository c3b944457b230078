//! Values by a maker and a number, as advice keeps them.

ghost use Rattle.std.specs.Prelude.{◌≡◌, ◌==◌, if◌then◌else◌, None, OnOk, Some};
ghost use Rattle.std.specs.Map.{lookup};
ghost use Rattle.jg_lists.specs.ByMaker.{Name, same_name, named, IsThereOnce};

use jg_lists::by_maker::{ByMaker, add, remove, take_any};
use std::alloc::{AllocError, Global};

/// Gives the name this value, in the place of any that it has.
pub(crate) fn put<V: Drop>(
    tables: &mut ByMaker<V, Global>,
    alloc: Global,
    name: (u16, u64),
    value: V,
) -> Result<(), AllocError>
    ensures found { OnOk result ((q : Name) → lookup (same_name q) (named tables.new)
        ≡ (if same_name name q then Some value else lookup (same_name q) (named tables.old))) }
    ensures once { OnOk result ((q : Name) → IsThereOnce q (named tables.old) → IsThereOnce q (named tables.new)) }
{
    let _old = remove(tables, name);
    add(tables, &alloc, name, value)
}

/// Takes all of the maker's values away. Takes no memory, and time by how many these are.
pub(crate) fn clear<V: Drop>(tables: &mut ByMaker<V, Global>, maker: u16)
    ensures found { (q : Name) → lookup (same_name q) (named tables.new)
        ≡ (if maker == q.0 then None else lookup (same_name q) (named tables.old)) }
    ensures once { (q : Name) → IsThereOnce q (named tables.old) → IsThereOnce q (named tables.new) }
{
    while let Some(_value) = take_any(tables, maker) {}
}
