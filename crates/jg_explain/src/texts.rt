//! What is told of a denial, as text.

ghost use Rattle.std.specs.Prelude.{◌≡◌, ◌<◌, ◌+◌, ◌^◌, ◌++◌, List, true, false, None, codes, flat_map, map, OnOk, string_bytes};
ghost use Rattle.jg_explain.specs.Explained.{Cause, all_known, denial_of};
ghost use Rattle.jg_explain.specs.Texts as texts;

use crate::denials::Denial;
use crate::watching::Watch;
use jg_breaches::{Breach, Condition, Turns};
use jg_denial_text::{
    begun, ended, push_breach, push_denial, push_moment, push_rule, push_subject,
};
use jg_guard::Guard;
use jg_policy::Setup;
use jg_text::push_buf;
use jg_words::Entry;
use std::alloc::{AllocError, Allocator};

fn push_at<A: Allocator + Clone>(
    out: &mut String,
    guard: &Guard<A>,
    place: usize,
) -> Result<(), AllocError>
    ensures { OnOk result (string_bytes out.new ≡ string_bytes out.old ++ texts.moment_at guard.now.journal place) }
{
    let length = guard.journal_len();
    match guard.journal_entry(place) {
        None => Ok(()),
        Some(entry) => {
            if place >= length {
                unreachable!()
            }
            push_moment(out, place as u64 + 1, entry)
        }
    }
}

/// Those words, and behind them at which line, by which call.
pub(crate) fn push_told_at<A: Allocator + Clone>(
    out: &mut String,
    guard: &Guard<A>,
    told: &str,
    place: usize,
) -> Result<(), AllocError>
    ensures { OnOk result (string_bytes out.new
        ≡ string_bytes out.old ++ (told.now ++ texts.moment_at guard.now.journal place)) }
{
    out.push_str(told)?;
    push_at(out, guard, place)
}

fn push_begun_before<A: Allocator + Clone>(
    out: &mut String,
    guard: &Guard<A>,
    condition: Condition,
    place: Option<usize>,
) -> Result<(), AllocError>
    ensures { OnOk result (string_bytes out.new
        ≡ string_bytes out.old ++ texts.begun_before guard.now.journal condition place) }
{
    match place {
        None => Ok(()),
        Some(place) => {
            push_told_at(out, guard, begun(condition), place)?;
            out.push_str("; ")
        }
    }
}

fn push_over<A: Allocator + Clone>(
    out: &mut String,
    guard: &Guard<A>,
    condition: Condition,
    earlier: Option<usize>,
    place: usize,
) -> Result<(), AllocError>
    ensures { OnOk result (string_bytes out.new ≡ string_bytes out.old
        ++ (texts.begun_before guard.now.journal condition earlier
        ++ texts.ended_at guard.now.journal condition place)) }
{
    push_begun_before(out, guard, condition, earlier)?;
    push_told_at(out, guard, ended(condition), place)
}

fn push_never(out: &mut String, condition: Condition) -> Result<(), AllocError>
    ensures { OnOk result (string_bytes out.new ≡ string_bytes out.old ++ texts.never_text condition) }
{
    out.push_str("never ")?;
    out.push_str(begun(condition))
}

fn push_buffer_lead(out: &mut String, condition: Condition) -> Result<(), AllocError>
    ensures { OnOk result (string_bytes out.new ≡ string_bytes out.old ++ texts.buffer_lead condition) }
{
    match condition {
        Condition::IsOpen { buffer } => {
            push_buf(out, buffer)?;
            out.push_str(" ")
        }
        _ => Ok(()),
    }
}

/// What stands before it: the buffer, where there may be several.
fn push_lead(out: &mut String, breach: Breach, condition: Condition) -> Result<(), AllocError>
    ensures { OnOk result (string_bytes out.new ≡ string_bytes out.old ++ texts.lead_text breach condition) }
{
    match breach {
        Breach::InRegion => push_buffer_lead(out, condition),
        Breach::PinnedReference { .. } => push_buffer_lead(out, condition),
        _ => Ok(()),
    }
}

fn push_indent(out: &mut String, breach: Breach, condition: Condition) -> Result<(), AllocError>
    ensures { OnOk result (string_bytes out.new
        ≡ string_bytes out.old ++ (codes "  " ++ texts.lead_text breach condition)) }
{
    out.push_str("  ")?;
    push_lead(out, breach, condition)
}

fn push_held<A: Allocator + Clone>(
    out: &mut String,
    guard: &Guard<A>,
    breach: Breach,
    condition: Condition,
    latest: Option<usize>,
) -> Result<(), AllocError>
    ensures { OnOk result (string_bytes out.new ≡ string_bytes out.old ++ texts.since_text guard.now.journal
        (texts.lead_text breach condition) condition true latest None) }
{
    match latest {
        None => Ok(()),
        Some(place) => {
            push_indent(out, breach, condition)?;
            push_told_at(out, guard, begun(condition), place)?;
            out.push_str("\n")
        }
    }
}

fn push_not_held<A: Allocator + Clone>(
    out: &mut String,
    guard: &Guard<A>,
    breach: Breach,
    condition: Condition,
    turns: Turns,
) -> Result<(), AllocError>
    ensures { OnOk result (string_bytes out.new ≡ string_bytes out.old ++ texts.since_text guard.now.journal
        (texts.lead_text breach condition) condition false turns.latest turns.earlier) }
{
    push_indent(out, breach, condition)?;
    match turns.latest {
        None => push_never(out, condition)?,
        Some(place) => push_over(out, guard, condition, turns.earlier, place)?,
    }
    out.push_str("\n")
}

fn push_watch<A: Allocator + Clone>(
    out: &mut String,
    guard: &Guard<A>,
    breach: Breach,
    watch: Watch,
) -> Result<(), AllocError>
    ensures { OnOk result (string_bytes out.new
        ≡ string_bytes out.old ++ texts.watch_text guard.now.journal breach watch) }
{
    if watch.holds {
        push_held(out, guard, breach, watch.condition, watch.turns.latest)
    } else {
        push_not_held(out, guard, breach, watch.condition, watch.turns)
    }
}

fn push_watches<A: Allocator + Clone>(
    out: &mut String,
    guard: &Guard<A>,
    breach: Breach,
    watches: &[Watch],
) -> Result<(), AllocError>
    ensures { OnOk result (string_bytes out.new
        ≡ string_bytes out.old ++ flat_map (texts.watch_text guard.now.journal breach) watches.now) }
{
    for watch in watches {
        push_watch(out, guard, breach, *watch)?;
    }
    Ok(())
}

fn push_found(
    out: &mut String,
    setup: &Setup,
    breach: Breach,
    entry: &Entry,
) -> Result<(), AllocError>
    ensures { OnOk result (string_bytes out.new
        ≡ string_bytes out.old ++ texts.found_text setup.now breach entry.now) }
{
    push_subject(out, breach)?;
    out.push_str(": ")?;
    push_breach(out, setup, entry.tid(), entry.call(), breach)?;
    out.push_str("\n")
}

/// What is told of one denial of the guard's journal, whose watches these are.
fn push_explanation<A: Allocator + Clone>(
    out: &mut String,
    guard: &Guard<A>,
    denial: Denial,
    watches: &[Watch],
) -> Result<(), AllocError>
    ensures { OnOk result (string_bytes out.new ≡ string_bytes out.old ++ texts.explanation_text guard.now.setup
        guard.now.journal denial.place denial.rule denial.breach watches.now) }
{
    let length = guard.journal_len();
    match guard.journal_entry(denial.place) {
        None => Ok(()),
        Some(entry) => {
            if denial.place >= length {
                unreachable!()
            }
            push_denial(out, denial.place as u64 + 1, denial.rule)?;
            push_found(out, guard.view().setup, denial.breach, entry)?;
            push_watches(out, guard, denial.breach, watches)?;
            push_rule(out, denial.rule)
        }
    }
}

/// What is told of denials of the guard's journal, one after the other. The watches of one follow
/// those of the one before it.
pub(crate) fn push_explanations<A: Allocator + Clone>(
    out: &mut String,
    guard: &Guard<A>,
    denials: &[Denial],
    watches: &[Watch],
) -> Result<(), AllocError>
    ensures { (told : List Cause) → denials.now ≡ map denial_of told
        → watches.now ≡ flat_map (all_known guard.now.setup guard.now.journal) told
        → OnOk result (string_bytes out.new
        ≡ string_bytes out.old ++ flat_map (texts.cause_text guard.now.setup guard.now.journal) told) }
{
    let mut rest = watches;
    for i in 0..denials.len() {
        let Some(denial) = denials.get(i) else {
            unreachable!()
        };
        let (own, later) = rest.split_at(denial.asked.min(rest.len()));
        push_explanation(out, guard, *denial, own)?;
        rest = later;
    }
    Ok(())
}
