//! How many calls there were, how many of them each rule denied, and how much there was at most at once.

ghost use Rattle.std.specs.Prelude.{◌≡◌, ◌++◌, ◌∷◌, [], codes, flat_map, OnOk, string_bytes};
ghost use Rattle.std.specs.Fmt.{decimal};
ghost use Rattle.jg_program.specs.Summary.{AddsSummary, calls_line, counts_line, deny_line, peaks_line, questions_line, record_summary, rule_line, watched_line};

use itoa::Buffer;
use jg_guard::{Guard, Peaks};
use jg_text::push_number;
use jg_watch::Watch;
use jg_words::Rule;
use std::alloc::AllocError;

/// The rules, in the order of their numbers.
const RULES: [Rule; 17] = [
    Rule::WrongThread,
    Rule::Detached,
    Rule::InCritical,
    Rule::Pending,
    Rule::ForeignLocal,
    Rule::DeadReference,
    Rule::WrongRefKind,
    Rule::NullReference,
    Rule::WrongType,
    Rule::BadField,
    Rule::BadBuffer,
    Rule::BadArgument,
    Rule::Pinned,
    Rule::NotOwner,
    Rule::BadFrame,
    Rule::NoNativeAccess,
    Rule::NotLinked,
];

/// How many calls or questions there were, and how many of them passed and were denied.
fn push_counts(out: &mut String, calls: u128, passed: u64, denied: u64) -> Result<(), AllocError>
    ensures { OnOk result (string_bytes out.new ≡ string_bytes out.old ++ counts_line calls passed denied) }
{
    out.push_str("calls ")?;
    push_count(out, calls)?;
    out.push_str(", passed ")?;
    push_number(out, passed)?;
    out.push_str(", denied ")?;
    push_number(out, denied)?;
    out.push_str("\n")
}

fn push_calls(out: &mut String, guard: &Guard) -> Result<(), AllocError>
    ensures { OnOk result (string_bytes out.new ≡ string_bytes out.old ++ calls_line guard.now.journal) }
{
    let calls = guard.journal_len() as u64;
    let passed = u64::from(guard.passed());
    push_counts(out, u128::from(calls), passed, calls.saturating_sub(passed))
}

/// A line of the rule, if it denied a call or a question.
fn push_rule(out: &mut String, rule: Rule, denied: u64) -> Result<(), AllocError>
    ensures { OnOk result (string_bytes out.new ≡ string_bytes out.old ++ deny_line rule denied) }
{
    if denied == 0 {
        return Ok(());
    }
    out.push_str("deny ")?;
    push_number(out, u64::from(rule.number()))?;
    out.push_str(" ")?;
    out.push_str(rule.name())?;
    out.push_str(" ")?;
    push_number(out, denied)?;
    out.push_str("\n")
}

fn push_rules(out: &mut String, guard: &Guard, rules: &[Rule]) -> Result<(), AllocError>
    ensures { OnOk result (string_bytes out.new
        ≡ string_bytes out.old ++ flat_map (rule_line guard.now.journal) rules.now) }
{
    for rule in rules {
        push_rule(out, *rule, u64::from(guard.denied_by(*rule)))?;
    }
    Ok(())
}

fn push_count(out: &mut String, count: u128) -> Result<(), AllocError>
    ensures { OnOk result (string_bytes out.new ≡ string_bytes out.old ++ decimal count) }
{
    let mut buffer = Buffer::new();
    out.push_str(buffer.format(count))
}

fn push_references(out: &mut String, peaks: Peaks) -> Result<(), AllocError>
    ensures { OnOk result (string_bytes out.new
        ≡ string_bytes out.old ++ codes "most at once: references " ++ decimal peaks.references) }
{
    out.push_str("most at once: references ")?;
    push_count(out, peaks.references)
}

fn push_buffers(out: &mut String, peaks: Peaks) -> Result<(), AllocError>
    ensures { OnOk result (string_bytes out.new
        ≡ string_bytes out.old ++ codes ", buffers " ++ decimal peaks.buffers ++ 10 ∷ []) }
{
    out.push_str(", buffers ")?;
    push_count(out, peaks.buffers)?;
    out.push_str("\n")
}

fn push_peaks(out: &mut String, peaks: Peaks) -> Result<(), AllocError>
    ensures { OnOk result (string_bytes out.new ≡ string_bytes out.old ++ peaks_line peaks) }
{
    push_references(out, peaks)?;
    out.push_str(", objects ")?;
    push_number(out, peaks.objects)?;
    push_buffers(out, peaks)
}

/// Adds how many calls the guard's journal has, how many of them passed and were denied, a line for each
/// rule that denied some, and how much there was at most at once. Fails only for want of memory.
pub fn push_summary(out: &mut String, guard: &Guard) -> Result<(), AllocError>
    ensures { OnOk result (AddsSummary guard.now.setup guard.now.journal (string_bytes out.old)
        (string_bytes out.new)) }
{
    push_calls(out, guard)?;
    push_rules(out, guard, &RULES)?;
    push_peaks(out, guard.peaks())
}

fn push_questions(out: &mut String, watch: &Watch) -> Result<(), AllocError>
    ensures { OnOk result (string_bytes out.new ≡ string_bytes out.old ++ questions_line watch.now) }
{
    let (passed, denied) = (watch.passed(), watch.denied());
    push_counts(out, u128::from(passed) + u128::from(denied), passed, denied)
}

fn push_watched(out: &mut String, watch: &Watch, rules: &[Rule]) -> Result<(), AllocError>
    ensures { OnOk result (string_bytes out.new
        ≡ string_bytes out.old ++ flat_map (watched_line watch.now) rules.now) }
{
    for rule in rules {
        push_rule(out, *rule, watch.denied_by(*rule))?;
    }
    Ok(())
}

/// Adds how many questions of a record passed and were denied, and a line for each rule that denied some. Fails only
/// for want of memory.
pub fn push_record_summary(out: &mut String, watch: &Watch) -> Result<(), AllocError>
    ensures { OnOk result (string_bytes out.new ≡ string_bytes out.old ++ record_summary watch.now) }
{
    push_questions(out, watch)?;
    push_watched(out, watch, &RULES)
}
