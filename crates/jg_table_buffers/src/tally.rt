//! A count for each key of a map.

ghost use Rattle.std.specs.Prelude.{◌≡◌, ◌+◌, ◌-◌, ◌<◌, ◌≤◌, OnOk, IsSome, None, if◌then◌else◌};
ghost use Rattle.indexmap.specs.IndexMap.{get};
ghost use Rattle.jg_table_buffers.specs.Seen.{count_at};

use indexmap::IndexMap;
use std::alloc::{AllocError, Allocator};
use std::hash::{BuildHasherDefault, FoldHasher, Hash};

/// How many there are of each key.
pub type Tally<K, A> = IndexMap<K, u64, BuildHasherDefault<FoldHasher>, A>;

/// How many there are of the key.
pub fn count_of<K: Eq + Hash, A: Allocator>(map: &Tally<K, A>, key: &K) -> u64
    ensures { result ≡ count_at (get K.eq map.now key.now) }
{
    // Mostly no buffer is pinned, and then nothing need be hashed.
    if map.is_empty() {
        return 0;
    }
    match map.get(key) {
        Some(count) => *count,
        None => 0,
    }
}

/// Makes room for one more of the key. Fails for want of memory, and at the greatest count of all. A
/// count of 0 may be there from then on.
pub fn make_room<K: Eq + Hash + Drop, A: Allocator + Clone>(
    map: &mut Tally<K, A>,
    key: K,
) -> Result<(), AllocError>
    ensures same { (q : K) → count_at (get K.eq map.new q) ≡ count_at (get K.eq map.old q) }
    ensures room { OnOk result (IsSome (get K.eq map.new key)) }
    ensures fits { OnOk result (count_at (get K.eq map.new key) < u64.MAX) }
{
    match map.get(&key) {
        None => {
            map.insert(key, 0)?;
            Ok(())
        }
        Some(count) => {
            if *count == u64::MAX {
                return Err(AllocError);
            }
            Ok(())
        }
    }
}

/// One more of the key.
pub fn raise<K: Eq + Hash, A: Allocator>(map: &mut Tally<K, A>, key: &K)
    requires room { IsSome (get K.eq map.old key.now) }
    requires fits { count_at (get K.eq map.old key.now) < u64.MAX }
    ensures { (q : K) → count_at (get K.eq map.new q)
        ≡ (if K.eq key.now q then count_at (get K.eq map.old key.now) + 1
        else count_at (get K.eq map.old q)) }
{
    if let Some(count) = map.get_mut(key) {
        *count += 1;
    }
}

/// One less of the key, which is forgotten at 0.
pub fn lower<K: Eq + Hash + Drop, A: Allocator>(map: &mut Tally<K, A>, key: &K)
    ensures count { (q : K) → count_at (get K.eq map.new q)
        ≡ (if K.eq key.now q then count_at (get K.eq map.old key.now) - 1
        else count_at (get K.eq map.old q)) }
    ensures forgotten { count_at (get K.eq map.old key.now) ≤ 1 → get K.eq map.new key.now ≡ None }
{
    if let Some(count) = map.get_mut(key) {
        if *count > 1 {
            *count -= 1;
            return;
        }
    }
    map.swap_remove(key);
}
