//! What a journal denied.

ghost use Rattle.std.specs.Prelude.{◌≡◌, IfOk};
ghost use Rattle.jg_guarded.specs.Denied.{denials_in};

use jg_guard::Guard;
use jg_words::{Outcome, Rule};
use std::alloc::{AllocError, Allocator};

/// One denial of a journal.
#[derive(Clone, Copy, PartialEq, Eq)]
pub struct Denial {
    /// The place of its entry in the journal, the oldest entry at 0.
    pub place: usize,
    /// The first rule that the call broke.
    pub rule: Rule,
}

/// The denials of the guard's journal, the oldest first, in a list from `alloc`. Fails only for
/// want of memory.
pub fn denials<A: Allocator + Clone, B: Allocator>(
    guard: &Guard<A>,
    alloc: B,
) -> Result<Vec<Denial, B>, AllocError>
    ensures { IfOk result (λ list. list.items ≡ denials_in guard.now.journal) }
{
    let mut list = Vec::new(alloc);
    for place in 0..guard.journal_len() {
        let Some(entry) = guard.journal_entry(place) else {
            unreachable!()
        };
        if let Some(rule) = entry.rule() {
            list.push(Denial { place, rule })?;
        }
    }
    Ok(list)
}
