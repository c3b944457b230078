//! Why calls of a journal were denied: of one call, and of the first ones and of the newest one as text.

ghost use Rattle.std.specs.Prelude.{◌≡◌, ◌<◌, ◌≤◌, IfOk, IfSome, OnOk, flat_map, length, map, string_bytes};
ghost use Rattle.jg_explain.specs.Explained.{IsExplained, IsFront, IsNewestAt, IsOneIf, cause_at, denial_of, watches_of};
ghost use Rattle.jg_explain.specs.Texts.{IsNewestTold, explanations_text};

use crate::denials::{Denials, denials_of, push_if_denied};
use crate::following::watch_each;
use crate::replaying::{replay_entry, replaying_guard};
use crate::texts::push_explanations;
use crate::watching::{Watch, watch_until};
use jg_breaches::Breach;
use jg_guard::{Guard, NoMemory};
use jg_words::Rule;
use std::alloc::{Allocator, Global};

/// Why a call was denied: the rule, in which way the call broke it, and what is known, just before the
/// call, of each condition of the rule that comes and goes.
#[derive(Drop)]
pub struct Explanation {
    pub rule: Rule,
    pub breach: Breach,
    pub watches: Vec<Watch>,
}

/// Makes the calls of the journal's first `end` entries again.
fn go_to<A: Allocator + Clone, B: Allocator + Clone>(
    guard: &Guard<A>,
    again: &mut Guard<B>,
    end: usize,
) -> Result<(), NoMemory>
    requires front { IsFront guard.now again.old 0 }
    requires within { end ≤ length guard.now.journal }
    ensures { OnOk result (IsFront guard.now again.new end) }
{
    for at in 0..end {
        replay_entry(guard, again, at)?;
    }
    Ok(())
}

/// The denial at that place, with its watches, which know nothing yet; none where no call was denied
/// there.
fn denial_at<A: Allocator + Clone>(
    guard: &Guard<A>,
    alloc: Global,
    place: usize,
) -> Result<Denials, NoMemory>
    requires { place ≤ length guard.now.journal }
    ensures denials { IfOk result (λ found. found.denials.items
        ≡ map denial_of (cause_at guard.now.setup guard.now.journal place)) }
    ensures watches { IfOk result (λ found. found.watches.items
        ≡ flat_map watches_of (cause_at guard.now.setup guard.now.journal place)) }
{
    let mut again = replaying_guard(guard, alloc)?;
    go_to(guard, &mut again, place)?;
    let mut found = Denials {
        denials: Vec::new(alloc),
        watches: Vec::new(alloc),
    };
    push_if_denied(guard, &again, &mut found, alloc, place)?;
    Ok(found)
}

/// Why the call at that place of the guard's journal was denied: none where it was not, or where the
/// journal has no such place, which count from 0. The journal's calls are made twice again up to
/// there. Fails only for want of memory.
pub fn explain<A: Allocator + Clone>(
    guard: &Guard<A>,
    alloc: Global,
    place: usize,
) -> Result<Option<Explanation>, NoMemory>
    ensures { IfOk result (IsExplained guard.now.setup guard.now.journal place) }
{
    if place >= guard.journal_len() {
        return Ok(None);
    }
    let Denials {
        denials,
        mut watches,
    } = denial_at(guard, alloc, place)?;
    let Some(denial) = denials.get(0) else {
        return Ok(None);
    };
    let mut again = replaying_guard(guard, alloc)?;
    watch_until(guard, &mut again, &mut watches, place)?;
    Ok(Some(Explanation {
        rule: denial.rule,
        breach: denial.breach,
        watches,
    }))
}

/// Why the first `most` calls of the guard's journal that were denied were denied: an explanation
/// after the other, in the form that `docs/EXPLAINING.md` describes. The journal's calls are made
/// twice again, each time by a guard of the same setup, up to the last of these denials and no
/// further. Fails only for want of memory.
pub fn explain_first<A: Allocator + Clone>(
    guard: &Guard<A>,
    alloc: Global,
    most: usize,
) -> Result<String, NoMemory>
    ensures { IfOk result (λ text. string_bytes text
        ≡ explanations_text guard.now.setup guard.now.journal most) }
{
    let mut again = replaying_guard(guard, alloc)?;
    let Denials { denials, watches } = denials_of(guard, &mut again, alloc, most)?;
    let end = again.journal_len();
    drop(again);
    let watches = watch_each(guard, watches, end, alloc)?;
    let mut text = String::new(alloc);
    match push_explanations(&mut text, guard, &denials, &watches) {
        Ok(()) => Ok(text),
        Err(_) => Err(NoMemory),
    }
}

/// Whether the call at that place was denied.
fn is_denied<A: Allocator + Clone>(guard: &Guard<A>, place: usize) -> bool
    ensures { IsOneIf result (cause_at guard.now.setup guard.now.journal place) }
{
    let Some(entry) = guard.journal_entry(place) else {
        return false;
    };
    match entry.rule() {
        None => false,
        Some(_) => true,
    }
}

/// The place of the newest call that was denied; none where no call was.
fn newest_denied<A: Allocator + Clone>(guard: &Guard<A>) -> Option<usize>
    ensures below { IfSome result (λ place. place < length guard.now.journal) }
    ensures newest { IsNewestAt guard.now.setup guard.now.journal result }
{
    for place in (0..guard.journal_len()).rev() {
        if is_denied(guard, place) {
            return Some(place);
        }
    }
    None
}

/// Why the newest call of the guard's journal that was denied was denied: one explanation, in the form
/// that `docs/EXPLAINING.md` describes; none where no call was denied. The journal's calls are made
/// again, by guards of the same setup, up to this denial and no further. Fails only for want of memory.
pub fn explain_newest<A: Allocator + Clone>(
    guard: &Guard<A>,
    alloc: Global,
) -> Result<Option<String>, NoMemory>
    ensures { IfOk result (IsNewestTold guard.now.setup guard.now.journal) }
{
    let Some(place) = newest_denied(guard) else {
        return Ok(None);
    };
    let Denials { denials, watches } = denial_at(guard, alloc, place)?;
    let watches = watch_each(guard, watches, place, alloc)?;
    let mut text = String::new(alloc);
    match push_explanations(&mut text, guard, &denials, &watches) {
        Ok(()) => Ok(Some(text)),
        Err(_) => Err(NoMemory),
    }
}
