//! Advice on the calls that a guard takes.

ghost use Rattle.std.specs.Prelude.{◌≡◌, ◌⊎◌, [], false, IfOk, IfSome, List, None, OnErr, string_bytes, true};
ghost use Rattle.std.specs.Option.{is_some};
ghost use Rattle.jg_policy.specs.Stated.{StatedSetup};
ghost use Rattle.jg_program.specs.declared.reporting.Reporting.{Reporting as ReportingOf};
ghost use Rattle.jg_program.specs.Advising.{is_advised, SaysAdvice, StandsBeside};
ghost use Rattle.jg_words.specs.Entry.{Entry};

use crate::reporting::Reporting;
use jg_guard::{Guard, NoMemory};
use jg_guard_advice::{GuardAdviser, advise_on_journal};
use std::alloc::{AllocError, Global};

/// What stands beside a guard that took no call yet, where advice is asked for. Fails for want of memory.
fn guard_adviser_of(alloc: Global, reporting: Reporting) -> Result<Option<GuardAdviser>, AllocError>
    ensures stands { IfOk result (λ beside. (s : StatedSetup) → StandsBeside reporting beside s []) }
    ensures refused { OnErr result (is_advised reporting ≡ true) }
{
    match reporting.advising() {
        None => Ok(None),
        Some((most, all)) => Ok(Some(GuardAdviser::new(alloc, alloc, most, all)?)),
    }
}

/// The same, or nothing where memory runs out for it; and whether it didn't.
pub fn begin_advising(alloc: Global, reporting: Reporting) -> (Option<GuardAdviser>, bool)
    ensures stands { result.1 ≡ true → (s : StatedSetup) → StandsBeside reporting result.0 s [] }
    ensures refused { result.1 ≡ false → is_advised reporting ≡ true }
{
    match guard_adviser_of(alloc, reporting) {
        Ok(beside) => (beside, true),
        Err(_) => (None, false),
    }
}

/// The advice on all calls of the guard beside which that stood; `None` where memory ran out for it. Without advice it
/// is empty.
pub fn advice_of(alloc: Global, beside: Option<GuardAdviser>, begun: bool) -> Option<String>
    ensures said { IfSome result (λ text. (begun ≡ true) × ((r : ReportingOf) (s : StatedSetup) (h : List Entry)
        → StandsBeside r beside s h → SaysAdvice r s h (string_bytes text))) }
    ensures lost { result ≡ None → (begun ≡ false) ⊎ (is_some beside ≡ true) }
{
    if !begun {
        return None;
    }
    match beside {
        None => Some(String::new(alloc)),
        Some(beside) => beside.into_text(),
    }
}

/// A log that was told the guard's journal, where advice is asked for. Fails for want of memory.
fn log_on(
    alloc: Global,
    reporting: Reporting,
    guard: &Guard,
) -> Result<Option<GuardAdviser>, NoMemory>
    ensures stands { IfOk result (λ beside. StandsBeside reporting beside guard.now.setup guard.now.journal) }
    ensures refused { OnErr result (is_advised reporting ≡ true) }
{
    match reporting.advising() {
        None => Ok(None),
        Some((most, all)) => Ok(Some(advise_on_journal(guard, alloc, most, all)?)),
    }
}

/// The advice on the guard's journal, where that is asked for; `None` where memory ran out for it.
pub fn advice_on(alloc: Global, reporting: Reporting, guard: &Guard) -> Option<String>
    ensures said { IfSome result (λ text. SaysAdvice reporting guard.now.setup guard.now.journal
        (string_bytes text)) }
    ensures lost { result ≡ None → is_advised reporting ≡ true }
{
    match log_on(alloc, reporting, guard) {
        Ok(beside) => advice_of(alloc, beside, true),
        Err(_) => None,
    }
}
