//! Open copies: what is kept of each, and their items read and written.

ghost use Rattle.std.specs.Prelude.{◌≡◌, ◌<◌, ℕ, pos, false, if◌then◌else◌, length, slice_index_or};
ghost use Rattle.jg_table_buffers.specs.History.{is_critical};
ghost use Rattle.jg_table_buffers.specs.Seen.{copy_family, copy_at, copy_item_set, listed};
ghost use Rattle.indexmap.specs.IndexMap.{get, IsUnique};
ghost use Rattle.jg_lists.specs.ByMaker.{same_name};

use crate::family::Family;
use indexmap::IndexMap;
use jg_words::ItemType;
use std::alloc::Allocator;
use std::hash::{BuildHasherDefault, FoldHasher};

/// The families that copy.
#[derive(Clone, Copy)]
pub enum CopyKind {
    Elements(ItemType),
    Chars,
    UtfChars,
}

/// An open copy: its object, its family, and what is kept of its items as they are now.
#[derive(Drop)]
pub struct Copied<I> {
    pub object: u64,
    pub kind: CopyKind,
    pub items: I,
}

/// The open copies, by thread and number.
pub type Copies<A, I> = IndexMap<(u16, u64), Copied<I>, BuildHasherDefault<FoldHasher>, A>;

pub fn copy_kind(family: Family) -> CopyKind
    requires { is_critical family ≡ false }
    ensures { copy_family result ≡ family }
{
    match family {
        Family::Elements(item) => CopyKind::Elements(item),
        Family::Chars => CopyKind::Chars,
        Family::UtfChars => CopyKind::UtfChars,
        Family::ArrayCritical => unreachable!(),
        Family::StringCritical => unreachable!(),
    }
}

pub fn family_of_copy(kind: CopyKind) -> Family
    ensures { result ≡ copy_family kind }
{
    match kind {
        CopyKind::Elements(item) => Family::Elements(item),
        CopyKind::Chars => Family::Chars,
        CopyKind::UtfChars => Family::UtfChars,
    }
}

/// Writes an item of the copy, if it is there.
pub fn set_item<A: Allocator>(
    map: &mut Copies<A, Vec<i64, A>>,
    key: (u16, u64),
    index: usize,
    value: i64,
)
    ensures unique { IsUnique same_name map.new }
    ensures set { (q : ℕ × ℕ) → copy_at listed q (get same_name map.new q)
        ≡ (if same_name key q then copy_item_set index value (copy_at listed q (get same_name map.old q))
        else copy_at listed q (get same_name map.old q)) }
{
    if let Some(copy) = map.get_mut(&key) {
        if index < copy.items.len() {
            copy.items[index] = value;
        }
    }
}

pub fn item_at(items: &[i64], index: usize) -> i64
    requires { index < length items.now }
    ensures { result ≡ slice_index_or items.now index (pos 0) }
{
    items[index]
}
