//! What there is to tell of where the program stops: of the faulty line of a script, the line at which a journal
//! differs, or the words after the program's name. It is told with explanations only.

ghost use Rattle.std.specs.Prelude.{◌≡◌, ◌++◌, [], true, Err, List, ℕ, IfOk, OnErr, OnOk, string_bytes};
ghost use Rattle.jg_program.specs.declared.stop.ProgramStop.TheVariants.{Run};
ghost use Rattle.jg_program.specs.About.{IsAbout, IsAboutScript, IsDifferenceText};
ghost use Rattle.jg_program.specs.Reported.{EndsTelling, IsToldIf};

use crate::stop::{ProgramEnd, ProgramStop, Status, quietly, saying};
use jg_args::{ArgsFault, refused_word};
use jg_denial_text::push_quoted;
use jg_fault_text::push_line_fault;
use jg_guard::Guard;
use jg_script::{Difference, Replayed, RunFault, ScriptFault, outcome_in, read_call};
use jg_text::{front_of_call, push_answer, push_number};
use std::alloc::{AllocError, Global};

/// What was done when the program stopped.
#[derive(Clone, Copy)]
pub enum About<'a> {
    /// Nothing of which there is more to tell.
    Nothing,
    /// A script was answered. The bytes are its faulty line, where it stopped at one.
    Script(&'a [u8]),
    /// A journal was tested, and is this. The bytes are the line at which it differs, if it does.
    Journal(Replayed, &'a [u8]),
}

/// What stands behind the call in the line of the guard's newest entry.
fn push_expected(alloc: Global, guard: &Guard, out: &mut String) -> Result<(), AllocError> {
    let Some(newest) = guard.journal_len().checked_sub(1) else {
        return Ok(());
    };
    let Some(entry) = guard.journal_entry(newest) else {
        return Ok(());
    };
    let mut answer = String::new(alloc);
    push_answer(&mut answer, entry)?;
    let text = answer.as_bytes();
    let text = text.strip_prefix(b" = ").unwrap_or(text);
    push_quoted(out, text.strip_suffix(b"\n").unwrap_or(text))
}

/// The outcome of the guard's newest entry, and the one that the line has.
fn push_outcomes(
    alloc: Global,
    guard: &Guard,
    line: &[u8],
    out: &mut String,
) -> Result<(), AllocError> {
    out.push_str("expected '")?;
    push_expected(alloc, guard, out)?;
    out.push_str("', found '")?;
    push_quoted(out, outcome_in(line).unwrap_or(&[]))?;
    out.push_str("'\n")
}

/// Why the line begins with no call and ` = `: the first fault of what stands in front of the ` = `, or of
/// the whole line.
fn push_no_call(alloc: Global, line: &[u8], out: &mut String) -> Result<(), AllocError> {
    let front = front_of_call(line).unwrap_or(line);
    match read_call(alloc, front) {
        Ok(_) => out.push_str("no ' = ' behind the call\n"),
        Err(ScriptFault::NoMemory) => Err(AllocError),
        Err(fault) => {
            let name = format!(in alloc; "{fault}: ")?;
            out.push_str(name.as_str())?;
            push_line_fault(out, front, fault)
        }
    }
}

fn words_of(
    alloc: Global,
    guard: &Guard,
    how: Difference,
    line: &[u8],
) -> Result<String, AllocError> {
    let mut words = String::new(alloc);
    match how {
        Difference::NoLineFeed => words.push_str("no line feed\n")?,
        Difference::NoCall => push_no_call(alloc, line, &mut words)?,
        Difference::OtherOutcome => push_outcomes(alloc, guard, line, &mut words)?,
    }
    Ok(words)
}

/// How line number `number` of a journal differs.
fn push_difference(
    alloc: Global,
    guard: &Guard,
    number: u64,
    how: Difference,
    line: &[u8],
    out: &mut String,
) -> Result<(), AllocError>
    ensures { OnOk result ((text : List ℕ) × IsDifferenceText number text
        × (string_bytes out.new ≡ string_bytes out.old ++ text)) }
{
    let words = words_of(alloc, guard, how, line)?;
    out.push_str("line ")?;
    push_number(out, number)?;
    out.push_str(": ")?;
    out.push_str(words.as_str())
}

/// Adds where in the faulty line of a script the fault stands, where the work ended at one.
fn push_about_script(
    line: &[u8],
    ended: Result<Status, ProgramStop>,
    out: &mut String,
) -> Result<(), AllocError>
    ensures { OnOk result ((text : List ℕ) × IsAboutScript line.now ended text
        × (string_bytes out.new ≡ string_bytes out.old ++ text)) }
{
    match ended {
        Err(ProgramStop::Run(RunFault::Script { fault, .. })) => push_line_fault(out, line, fault),
        _ => Ok(()),
    }
}

/// Adds what there is to tell of where the work of this guard stopped, where it ended so.
pub fn push_about(
    alloc: Global,
    guard: &Guard,
    about: About<'_>,
    ended: Result<Status, ProgramStop>,
    out: &mut String,
) -> Result<(), AllocError>
    ensures { OnOk result ((text : List ℕ) × IsAbout about.entry ended text
        × (string_bytes out.new ≡ string_bytes out.old ++ text)) }
{
    match about {
        About::Nothing => Ok(()),
        About::Script(line) => push_about_script(line, ended, out),
        About::Journal(Replayed::Legal, _) => Ok(()),
        About::Journal(Replayed::Differs { line: number, how }, line) => {
            push_difference(alloc, guard, number, how, line, out)
        }
    }
}

/// Where in its line a file of scripts has this fault; nothing without explanations.
fn script_fault_text(
    alloc: Global,
    explained: bool,
    line: &[u8],
    fault: RunFault,
) -> Result<String, AllocError>
    ensures told { IfOk result (λ text. IsToldIf explained (IsAboutScript line.now (Err (Run fault)))
        (string_bytes text)) }
    ensures refused { OnErr result (explained ≡ true) }
{
    let mut text = String::new(alloc);
    if explained {
        push_about_script(line, Err(ProgramStop::Run(fault)), &mut text)?;
    }
    Ok(text)
}

/// How the program ends where a file of scripts wasn't read to its end, for this fault; `line` is the line that is
/// refused, if one is.
pub fn end_unread(alloc: Global, explained: bool, line: &[u8], fault: RunFault) -> ProgramEnd
    ensures { EndsTelling explained (IsAboutScript line.now (Err (Run fault))) (Run fault) result }
{
    saying(
        ProgramStop::Run(fault),
        script_fault_text(alloc, explained, line, fault),
    )
}

/// The word at which the words are refused; empty where explanations aren't asked for.
fn refused_at(alloc: Global, words: &[&str]) -> Result<String, AllocError> {
    let mut said = String::new(alloc);
    if let Some(place) = refused_word(alloc, words)? {
        if place < words.len() {
            push_word(&mut said, place, words[place])?;
        }
    }
    Ok(said)
}

fn push_word(out: &mut String, place: usize, word: &str) -> Result<(), AllocError> {
    out.push_str("word ")?;
    push_number(out, (place as u64).saturating_add(1))?;
    out.push_str(": ")?;
    push_quoted(out, word.as_bytes())?;
    out.push_str("\n")
}

/// How the program ends where the words after its name have this fault.
pub fn end_refused(alloc: Global, words: &[&str], fault: ArgsFault) -> ProgramEnd {
    let stop = ProgramStop::Arguments(fault);
    match fault {
        ArgsFault::Refused => saying(stop, refused_at(alloc, words)),
        _ => quietly(alloc, Err(stop)),
    }
}
