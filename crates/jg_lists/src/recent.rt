//! Where a map was looked into last, so that the same key needs no second hash.

ghost use Rattle.std.specs.Prelude.{◌≡◌, Some, option_copied};
ghost use Rattle.indexmap.specs.IndexMap.{get};

use indexmap::IndexMap;
use std::alloc::Allocator;
use std::cell::Cell;
use std::hash::{BuildHasherDefault, FoldHasher, Hash};

/// Where the last look-up in a map found its key, so that one who asks for the same key again needs no
/// hash: a call's operand is asked for by its judge, its answer and its change. It is a guess, which each
/// look-up checks, so no clause says anything of it.
#[derive(Drop)]
pub struct Recent {
    place: Cell<usize>,
}

impl Recent {
    /// A guess at the first place.
    pub fn new() -> Recent {
        Recent {
            place: Cell::new(0),
        }
    }

    /// The value of the key.
    pub fn find<'m, K: Eq + Hash, V, A: Allocator>(
        &self,
        map: &'m IndexMap<K, V, BuildHasherDefault<FoldHasher>, A>,
        key: &K,
    ) -> Option<&'m V>
        ensures { option_copied result ≡ get K.eq map.now key.now }
    {
        if let Some((other, value)) = map.get_index(self.place.get()) {
            if other == key {
                return Some(value);
            }
        }
        if map.is_empty() {
            return None;
        }
        let (place, _, value) = map.get_full(key)?;
        self.place.set(place);
        Some(value)
    }
}
