//! The names that are kept, by the machine's words.

ghost use Rattle.std.specs.Prelude.{◌≡◌, ◌<◌, ℕ, None, OnOk, nat_eq};
ghost use Rattle.std.specs.HashMap.{spare};
ghost use Rattle.jg_table_objects.specs.Standing.{Tells};
ghost use Rattle.jg_rules.specs.Parts.{Parts};
ghost use Rattle.jg_rules.specs.View.{ViewTells};
ghost use Rattle.jg_witness.specs.Standing.{AreSwept, name_at};

use crate::being::is_in_being;
use jg_rules::View;
use jg_table_objects::Objects;
use jg_words::Ref;
use std::alloc::{AllocError, Allocator};
use std::collections::HashMap;
use std::hash::{BuildHasherDefault, FoldHasher};

/// The names by word: for each the newest that the word was handed out for.
pub(crate) type Names<A> = HashMap<u64, Ref, BuildHasherDefault<FoldHasher>, A>;

/// As few names as this are never swept.
const FEWEST: usize = 16;

/// When names are swept.
#[derive(Clone, Copy)]
pub(crate) struct Sweeping {
    /// How many names may be kept that aren't in being.
    pub(crate) fewest: usize,
    /// How many names there may be before those that aren't in being are taken out.
    pub(crate) most: usize,
}

/// The name that is kept for the word.
pub(crate) fn find<A: Allocator>(names: &Names<A>, word: u64) -> Option<Ref>
    ensures { result ≡ name_at word names.now.entries }
{
    names.get(&word).copied()
}

/// Takes out the names whose references aren't in being.
fn sweep<A: Allocator + Clone>(names: &mut Names<A>, view: &View<'_, A, Objects<A>>)
    ensures { (p : Parts) → ViewTells Tells view.now p → AreSwept p names.old.entries names.new.entries }
{
    names.retain(|_, name| is_in_being(view, *name));
}

/// How many names there may be until the next sweep, where so many are in being: twice as many, so that a sweep looks
/// at no more than twice what was added since the last one. But the fewest are never swept.
fn next_most(fewest: usize, live: usize) -> usize {
    live.saturating_mul(2).max(fewest).max(FEWEST)
}

/// Makes room for one more name. Before there are more than `most`, those of references that aren't in being any more
/// are taken out.
pub(crate) fn make_room<A: Allocator + Clone>(
    names: &mut Names<A>,
    sweeping: &mut Sweeping,
    view: &View<'_, A, Objects<A>>,
) -> Result<(), AllocError>
    ensures swept { (p : Parts) → ViewTells Tells view.now p → AreSwept p names.old.entries names.new.entries }
    ensures room { OnOk result (0 < spare names.new) }
{
    if names.len() >= sweeping.most {
        sweep(names, view);
        sweeping.most = next_most(sweeping.fewest, names.len());
        names.shrink_to(sweeping.most);
    }
    names.try_reserve(1)
}
