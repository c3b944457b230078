//! Journals: their scripts are answered by them, they are read back as legal, altered they are not, their records are
//! answered alike, and a core beside a guard judges their calls alike.

use crate::devices::{Passes, Taking};
use crate::headings::Heading;
use crate::parts::{Case, Part, find_part};
use crate::runs::{
    Difference, Ended, Given, LEGAL, feeds, first_of, give, is_whole, other_end, run_with,
};
use crate::tables::Came;
use jg_test_beside::other_beside;
use std::alloc::{AllocError, Global};
use std::io;
use std::sync::Wait;
use std::thread::Threads;

/// The path of the setup that a journal is under.
const SETUP: &str = "app.toml";

/// The setup where a case has none: `jg` takes it where no `--setup` is given.
const CLOSED: &str = "version = 1\nillegal_native_access = \"deny\"\n";

/// A journal, and the case that it is of.
#[derive(Clone, Copy)]
struct Row<'a> {
    case: Case<'a>,
    text: &'a str,
}

/// Runs the program with this word, and with the setup that the case has.
fn run_row<T: Threads + Wait + Sync>(
    rt: &T,
    alloc: Global,
    row: Row<'_>,
    word: &str,
    given: Given<'_>,
) -> io::Result<Ended> {
    match find_part(row.case.parts, Heading::File, SETUP) {
        Some(_) => run_with(rt, alloc, &[word, "--setup=app.toml"], given),
        None => run_with(rt, alloc, &[word], given),
    }
}

/// The call of a journal's line. A name may be `=`, so the last mark is the one before the outcome.
fn call_of(line: &str) -> &str {
    match line.rsplit_once(" = ") {
        Some((call, _)) => call,
        None => line,
    }
}

fn push_line(text: &mut Vec<u8>, line: &str) -> Result<(), AllocError> {
    text.extend_from_slice(line.as_bytes())?;
    text.push(b'\n')?;
    Ok(())
}

/// The script of a journal's text.
fn script_of(alloc: Global, text: &str) -> Result<Vec<u8>, AllocError> {
    let mut script = Vec::new(alloc);
    for line in text.lines() {
        push_line(&mut script, call_of(line))?;
    }
    Ok(script)
}

/// What isn't so where the script is answered by the journal.
fn other_answers<T: Threads + Wait + Sync>(
    rt: &T,
    alloc: Global,
    row: Row<'_>,
    script: &[u8],
) -> io::Result<Difference> {
    let ended = run_row(rt, alloc, row, "check", give(row.case, script))?;
    let nothing = b"".as_slice();
    Ok(other_end(&ended, 0, Some(row.text.as_bytes()), Some(nothing)))
}

/// Whether the text, read as a journal, is found to be legal, or not to be from this line on.
fn is_found<T: Threads + Wait + Sync>(
    rt: &T,
    alloc: Global,
    row: Row<'_>,
    text: &[u8],
    line: Option<usize>,
) -> io::Result<bool> {
    let ended = run_row(rt, alloc, row, "verify", give(row.case, text))?;
    let nothing = Some(b"".as_slice());
    let Some(line) = line else {
        return Ok(other_end(&ended, 0, Some(LEGAL), nothing).is_none());
    };
    let wanted = format!(in alloc; "differs at line {line}\n")?;
    Ok(other_end(&ended, 1, Some(wanted.as_bytes()), nothing).is_none())
}

/// The text with another outcome in one line, which `at` counts from 0.
fn altered(alloc: Global, text: &str, at: usize) -> Result<Vec<u8>, AllocError> {
    let mut changed = Vec::new(alloc);
    for (place, line) in text.lines().enumerate() {
        if place == at {
            changed.extend_from_slice(call_of(line).as_bytes())?;
            let outcome = if line.ends_with(" = ok") {
                " = null"
            } else {
                " = ok"
            };
            push_line(&mut changed, outcome)?;
        } else {
            push_line(&mut changed, line)?;
        }
    }
    Ok(changed)
}

/// What isn't so where each outcome is altered in turn.
fn other_altered<T: Threads + Wait + Sync>(
    rt: &T,
    alloc: Global,
    row: Row<'_>,
) -> io::Result<Difference> {
    for at in 0..row.text.lines().count() {
        let changed = altered(alloc, row.text, at)?;
        if !is_found(rt, alloc, row, &changed, Some(at.saturating_add(1)))? {
            return Ok(Some("an altered outcome isn't found"));
        }
    }
    Ok(None)
}

/// What isn't so where the text is read back as it is, and without its last line feed.
fn other_read<T: Threads + Wait + Sync>(
    rt: &T,
    alloc: Global,
    row: Row<'_>,
) -> io::Result<Difference> {
    let text = row.text.as_bytes();
    if !is_found(rt, alloc, row, text, None)? {
        return Ok(Some("the journal isn't found to be legal"));
    }
    match text {
        [] => Ok(None),
        [cut @ .., _feed] => {
            let last = row.text.lines().count();
            if is_found(rt, alloc, row, cut, Some(last))? {
                Ok(None)
            } else {
                Ok(Some("a lacking line feed isn't found"))
            }
        }
    }
}

/// The outcome of an entry as the answer to a question.
fn verdict_in(line: &str) -> &str {
    match line.rsplit_once(" = ") {
        Some((_, outcome)) if outcome.starts_with("deny ") => outcome,
        _ => "passed",
    }
}

/// The answer to the record's line, if that is a question: its second field is an environment then.
fn answer_in(line: &str) -> Option<&str> {
    let (_thread, rest) = line.split_once(" ")?;
    let (_event, answer) = rest.rsplit_once(" = ")?;
    if rest.starts_with("-") || rest.starts_with("E") {
        Some(answer)
    } else {
        None
    }
}

/// Whether the answers are the verdicts on the journal's calls.
fn are_verdicts(answered: &[u8], journal: &str) -> bool {
    let Ok(text) = str::from_utf8(answered) else {
        return false;
    };
    let mut left = journal.lines();
    for line in text.lines() {
        if let Some(answer) = answer_in(line) {
            match left.next() {
                Some(entry) if answer == verdict_in(entry) => {}
                _ => return false,
            }
        }
    }
    left.next().is_none()
}

/// What isn't so where the record of the journal is answered by the verdicts on its calls.
fn other_record<T: Threads + Wait + Sync>(
    rt: &T,
    alloc: Global,
    row: Row<'_>,
) -> io::Result<Difference> {
    let journal = give(row.case, row.text.as_bytes());
    let told = run_row(rt, alloc, row, "facts", journal)?;
    let answered = run_row(rt, alloc, row, "watch", give(row.case, &told.out))?;
    let nothing = Some(b"".as_slice());
    if other_end(&told, 0, None, nothing).is_some() {
        Ok(Some("the journal has no record"))
    } else if other_end(&answered, 0, None, nothing).is_some() {
        Ok(Some("its record isn't answered"))
    } else if !are_verdicts(&answered.out, row.text) {
        Ok(Some("its record is answered otherwise"))
    } else {
        Ok(None)
    }
}

/// These are the first lines of the text, so many.
fn is_front(written: &[u8], text: &str, lines: usize) -> bool {
    text.as_bytes().starts_with(written) && is_whole(written) && feeds(written) == lines
}

/// Whether the run ended with this status, wrote so many first lines of the text, and said this.
fn is_end(ended: &Ended, status: u8, text: &str, lines: usize, said: &str) -> bool {
    ended.status == status
        && is_front(&ended.out, text, lines)
        && ended.err.as_slice() == said.as_bytes()
}

/// Cut into these two parts the script is answered up to the front's last whole line. What is left of a line is
/// answered where it lacks but the line feed, and is a fault of its line elsewhere.
fn is_answer_to_cut(
    alloc: Global,
    ended: &Ended,
    text: &str,
    front: &[u8],
    rest: &[u8],
) -> Result<bool, AllocError> {
    let lines = feeds(front);
    let next = lines.saturating_add(1);
    if is_whole(front) {
        return Ok(is_end(ended, 0, text, lines, ""));
    }
    if rest.starts_with(b"\n".as_slice()) {
        return Ok(is_end(ended, 0, text, next, ""));
    }
    let said = format!(in alloc; "line {next}: ")?;
    Ok(
        ended.status == 2
            && is_front(&ended.out, text, lines)
            && ended.err.starts_with(said.as_bytes()),
    )
}

/// What isn't so where the script is cut after each byte.
fn other_cut<T: Threads + Wait + Sync>(
    rt: &T,
    alloc: Global,
    row: Row<'_>,
    script: &[u8],
) -> io::Result<Difference> {
    for at in 0..script.len() {
        let (front, rest) = script.split_at(at);
        let ended = run_row(rt, alloc, row, "check", give(row.case, front))?;
        if !is_answer_to_cut(alloc, &ended, row.text, front, rest)? {
            return Ok(Some("a cut script is answered otherwise"));
        }
    }
    Ok(None)
}

/// How many reads of so many bytes find the end of the script.
fn reads_of(script: &[u8], most: usize) -> usize {
    script.len().div_ceil(most.max(1)).saturating_add(2)
}

/// So many reads of at most `most` bytes each, and then a failure: the lines that were read whole are answered, and
/// the next one is named.
fn is_answer_to_reads(
    alloc: Global,
    ended: &Ended,
    script: &[u8],
    text: &str,
    reads: Passes,
) -> Result<bool, AllocError> {
    let read = reads.calls.saturating_mul(reads.most).min(script.len());
    let (front, _) = script.split_at(read);
    let lines = feeds(front);
    if reads.calls >= reads_of(script, reads.most) {
        return Ok(is_end(ended, 0, text, lines, ""));
    }
    let line = lines.saturating_add(1);
    let said = format!(in alloc; "line {line}: read failed\n")?;
    Ok(is_end(ended, 4, text, lines, &said))
}

/// What isn't so where each read fails in turn.
fn other_unread<T: Threads + Wait + Sync>(
    rt: &T,
    alloc: Global,
    row: Row<'_>,
    script: &[u8],
    most: usize,
) -> io::Result<Difference> {
    for calls in 0..=reads_of(script, most) {
        let reads = Passes {
            calls,
            most,
            ..Passes::ALL
        };
        let given = Given {
            reads,
            ..give(row.case, script)
        };
        let ended = run_row(rt, alloc, row, "check", given)?;
        if !is_answer_to_reads(alloc, &ended, script, row.text, reads)? {
            return Ok(Some("a failing read is answered otherwise"));
        }
    }
    Ok(None)
}

/// Whether a front of the text is written, and the line that isn't written in full is named.
fn is_answer_to_writes(alloc: Global, ended: &Ended, text: &str) -> Result<bool, AllocError> {
    if ended.out.as_slice() == text.as_bytes() {
        return Ok(ended.status == 0 && ended.err.is_empty());
    }
    let line = feeds(&ended.out).saturating_add(1);
    let said = format!(in alloc; "line {line}: write failed\n")?;
    let is_told = ended.status == 4 && ended.err.as_slice() == said.as_bytes();
    Ok(is_told && text.as_bytes().starts_with(&ended.out))
}

/// How many bytes of the text are written by so many writes; nothing where it is answered otherwise.
fn written_by<T: Threads + Wait + Sync>(
    rt: &T,
    alloc: Global,
    row: Row<'_>,
    script: &[u8],
    writes: Passes,
) -> io::Result<Option<usize>> {
    let given = Given {
        out: Taking {
            passes: writes,
            ..Taking::ALL
        },
        ..give(row.case, script)
    };
    let ended = run_row(rt, alloc, row, "check", given)?;
    if is_answer_to_writes(alloc, &ended, row.text)? {
        Ok(Some(ended.out.len()))
    } else {
        Ok(None)
    }
}

/// What isn't so where each write fails in turn: each one more writes 1 to `most` bytes more, until all is written.
fn other_unwritten<T: Threads + Wait + Sync>(
    rt: &T,
    alloc: Global,
    row: Row<'_>,
    script: &[u8],
    most: usize,
) -> io::Result<Difference> {
    let mut before = 0usize;
    for calls in 0..=row.text.len() {
        let writes = Passes {
            calls,
            most,
            ..Passes::ALL
        };
        let Some(written) = written_by(rt, alloc, row, script, writes)? else {
            return Ok(Some("a failing write is answered otherwise"));
        };
        let grows = before < written && written <= before.saturating_add(most);
        if calls > 0 && !grows {
            return Ok(Some("a write more writes too little or too much"));
        }
        if written == row.text.len() {
            return Ok(None);
        }
        before = written;
    }
    Ok(Some("it isn't written whole"))
}

/// The text with the byte at this place altered to `#`.
fn with_a_hash(alloc: Global, text: &[u8], at: usize) -> Result<Vec<u8>, AllocError> {
    let mut altered = Vec::new(alloc);
    for (place, byte) in text.iter().enumerate() {
        altered.push(if place == at { b'#' } else { *byte })?;
    }
    Ok(altered)
}

/// What isn't so where each byte is altered in turn: it is found in the line in which it stands.
fn other_byte<T: Threads + Wait + Sync>(
    rt: &T,
    alloc: Global,
    row: Row<'_>,
) -> io::Result<Difference> {
    let text = row.text.as_bytes();
    for at in 0..text.len() {
        let altered = with_a_hash(alloc, text, at)?;
        let (before, _) = text.split_at(at);
        let line = feeds(before).saturating_add(1);
        if !is_found(rt, alloc, row, &altered, Some(line))? {
            return Ok(Some("an altered byte isn't found in its line"));
        }
    }
    Ok(None)
}

/// What isn't so where the devices fail and the text is altered at each byte, if that is asked for.
fn other_at_each_byte<T: Threads + Wait + Sync>(
    rt: &T,
    alloc: Global,
    row: Row<'_>,
    script: &[u8],
) -> io::Result<Difference> {
    if !row.case.has(Heading::EachByte) {
        return Ok(None);
    }
    let found = [
        other_cut(rt, alloc, row, script)?,
        other_unread(rt, alloc, row, script, 1)?,
        other_unread(rt, alloc, row, script, 5)?,
        other_unwritten(rt, alloc, row, script, 1)?,
        other_unwritten(rt, alloc, row, script, 5)?,
        other_byte(rt, alloc, row)?,
    ];
    Ok(first_of(&found))
}

/// What isn't so where a core stands beside a guard that makes the journal's calls.
fn other_core(alloc: Global, row: Row<'_>) -> Result<Came, AllocError> {
    let setup = match find_part(row.case.parts, Heading::File, SETUP) {
        Some(file) => str::from_utf8(file.bytes).unwrap_or(""),
        None => CLOSED,
    };
    Ok(match other_beside(alloc, setup, row.text)? {
        Some(other) => Came::in_line(other.what, other.line),
        None => Came::of(None),
    })
}

/// What isn't so of the journal.
fn other_in<T: Threads + Wait + Sync>(
    rt: &T,
    alloc: Global,
    row: Row<'_>,
    script: &[u8],
) -> io::Result<Came> {
    let found = [
        other_answers(rt, alloc, row, script)?,
        other_read(rt, alloc, row)?,
        other_altered(rt, alloc, row)?,
        other_record(rt, alloc, row)?,
        other_at_each_byte(rt, alloc, row, script)?,
    ];
    let difference = first_of(&found);
    if difference.is_some() {
        return Ok(Came::of(difference));
    }
    Ok(other_core(alloc, row)?)
}

/// The same under the setup of this text.
fn other_under<T: Threads + Wait + Sync>(
    rt: &T,
    alloc: Global,
    row: Row<'_>,
    script: &[u8],
    setup: &[u8],
) -> io::Result<Came> {
    let file = Part {
        line: row.case.line,
        heading: Heading::File,
        name: SETUP,
        bytes: setup,
        text: "",
        number: 0,
    };
    let parts = [file];
    let case = Case {
        name: row.case.name,
        line: row.case.line,
        parts: &parts,
    };
    let text = row.text;
    other_in(rt, alloc, Row { case, text }, script)
}

/// The same under the text of version 2 that its setup is migrated to.
fn other_migrated<T: Threads + Wait + Sync>(
    rt: &T,
    alloc: Global,
    row: Row<'_>,
    script: &[u8],
) -> io::Result<Came> {
    let words = ["migrate", "--setup=app.toml"];
    let migrated = run_with(rt, alloc, &words, give(row.case, b"".as_slice()))?;
    match str::from_utf8(&migrated.out) {
        Ok(setup) if setup.contains("version = 2\n") => {
            other_under(rt, alloc, row, script, setup.as_bytes())
        }
        _ => Ok(Came::of(Some("its setup isn't migrated"))),
    }
}

/// What comes of the case, which is a journal of this text. It is tried under the setup that it has, and under the
/// migrated one if that is asked for.
pub fn try_journal<T: Threads + Wait + Sync>(
    rt: &T,
    alloc: Global,
    case: Case<'_>,
    text: &str,
) -> io::Result<Came> {
    let row = Row { case, text };
    let script = script_of(alloc, text)?;
    let came = other_in(rt, alloc, row, &script)?;
    if came.difference.is_some() || !case.has(Heading::Migrated) {
        return Ok(came);
    }
    other_migrated(rt, alloc, row, &script)
}
