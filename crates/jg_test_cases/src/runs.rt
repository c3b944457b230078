//! Runs of the program, and whether each ends as its case states.

use crate::devices::{Behind, Passes, Shelf, Sink, SinkWriter, Source, Taking};
use crate::headings::Heading;
use crate::parts::Case;
use jg_program::{Status, run};
use std::alloc::{AllocError, Global};
use std::io;
use std::io::BufReader;
use std::sync::Wait;
use std::thread::Threads;

/// What isn't as a case states; nothing where all is.
pub type Difference = Option<&'static str>;

/// How much is read at once.
const BUFFER: usize = 64;

/// What `jg verify` writes of a journal that is legal.
pub const LEGAL: &[u8] = b"legal\n";

/// How a run ended, what was written, and what was said.
#[derive(Drop)]
pub struct Ended {
    pub status: u8,
    pub out: Vec<u8>,
    pub err: Vec<u8>,
}

/// What a run is given.
#[derive(Clone, Copy)]
pub struct Given<'a> {
    pub files: Shelf<'a>,
    pub input: &'a [u8],
    pub reads: Passes,
    pub out: Taking,
    pub err: Taking,
}

/// The case's files, and this input, with devices that don't fail.
pub fn give<'a>(case: Case<'a>, input: &'a [u8]) -> Given<'a> {
    Given {
        files: Shelf { parts: case.parts },
        input,
        reads: Passes::ALL,
        out: Taking::ALL,
        err: Taking::ALL,
    }
}

/// Runs the program with these words.
pub fn run_with<T: Threads + Wait + Sync>(
    rt: &T,
    alloc: Global,
    words: &[&str],
    given: Given<'_>,
) -> io::Result<Ended> {
    let source = Source {
        bytes: given.input,
        behind: Behind::Ends,
        passes: given.reads,
    };
    let reader = BufReader::with_capacity(alloc, BUFFER, source)?;
    let mut out = Sink::new(alloc, given.out);
    let mut err = Sink::new(alloc, given.err);
    let writer = SinkWriter { sink: &mut out };
    let mut said = SinkWriter { sink: &mut err };
    let status: Status = run(rt, alloc, words, &given.files, reader, writer, &mut said);
    Ok(Ended {
        status: status as u8,
        out: out.bytes,
        err: err.bytes,
    })
}

/// Appends the words of a text, a line each.
fn push_words<'a>(words: &mut Vec<&'a str>, text: &'a str) -> Result<(), AllocError> {
    for word in text.lines() {
        words.push(word)?;
    }
    Ok(())
}

/// Runs the program with the words of a text, a line each.
pub fn run_text<T: Threads + Wait + Sync>(
    rt: &T,
    alloc: Global,
    text: &str,
    given: Given<'_>,
) -> io::Result<Ended> {
    let mut words = Vec::new(alloc);
    push_words(&mut words, text)?;
    run_with(rt, alloc, &words, given)
}

/// Whether something other than what is wanted was found; all is right where nothing is wanted.
fn is_other(found: &[u8], wanted: Option<&[u8]>) -> bool {
    match wanted {
        Some(text) => text != found,
        None => false,
    }
}

/// What isn't so of the end of a run that is to write and to say this.
pub fn other_end(
    ended: &Ended,
    status: usize,
    out: Option<&[u8]>,
    err: Option<&[u8]>,
) -> Difference {
    if ended.status as usize != status {
        Some("it ends with another status")
    } else if is_other(&ended.out, out) {
        Some("it writes another text")
    } else if is_other(&ended.err, err) {
        Some("it says another text")
    } else {
        None
    }
}

/// The first of the differences that is one.
pub fn first_of(found: &[Difference]) -> Difference {
    for difference in found {
        if difference.is_some() {
            return *difference;
        }
    }
    None
}

/// What a case that is run is given.
fn devices_of(case: Case<'_>) -> Given<'_> {
    let most = case.number(Heading::Most).unwrap_or(usize::MAX).max(1);
    let reads = Passes {
        calls: case.number(Heading::Reads).unwrap_or(usize::MAX),
        most,
        is_interrupted: case.has(Heading::ReadInterrupted),
    };
    let writes = Passes {
        calls: case.number(Heading::Writes).unwrap_or(usize::MAX),
        most,
        is_interrupted: case.has(Heading::WriteInterrupted),
    };
    let out = Taking {
        passes: writes,
        is_stuck: case.has(Heading::Stuck),
        is_full: case.has(Heading::Full),
    };
    let err = if case.has(Heading::Unheard) {
        Taking::NONE
    } else {
        Taking::ALL
    };
    let input = case.bytes(Heading::Input).unwrap_or(b"".as_slice());
    Given {
        reads,
        out,
        err,
        ..give(case, input)
    }
}

/// Whether each line of the other text stands within this one.
fn has_each(text: &str, wanted: Option<&str>) -> bool {
    for line in wanted.unwrap_or("").lines() {
        if !text.contains(line) {
            return false;
        }
    }
    true
}

/// Whether these are the lines of the text but for those that say what a rule says and what helps.
fn are_without_rules(text: &str, wanted: Option<&str>) -> bool {
    let Some(wanted) = wanted else {
        return true;
    };
    let mut left = wanted.lines();
    for line in text.lines() {
        let is_left_out = line.starts_with("  rule: ") || line.starts_with("  help: ");
        if !is_left_out && left.next() != Some(line) {
            return false;
        }
    }
    left.next().is_none()
}

/// Whether the line is of this thread.
fn is_of(line: &str, thread: &str) -> bool {
    match line.split_once(" ") {
        Some((front, _)) => front == thread,
        None => false,
    }
}

/// Whether these are the thread's lines of the text.
fn are_lines_of(text: &str, thread: &str, wanted: &str) -> bool {
    let mut left = wanted.lines();
    for line in text.lines() {
        if is_of(line, thread) && left.next() != Some(line) {
            return false;
        }
    }
    left.next().is_none()
}

/// Whether the lines of each thread are those that the case states.
fn are_lines(case: Case<'_>, text: &str) -> bool {
    for part in case.parts {
        if part.heading.is_same(Heading::Lines) && !are_lines_of(text, part.name, part.text) {
            return false;
        }
    }
    true
}

/// Whether the text has as many lines as the case states.
fn is_as_long(case: Case<'_>, text: &str) -> bool {
    match case.number(Heading::OutLines) {
        Some(count) => text.lines().count() == count,
        None => true,
    }
}

/// What isn't so of parts of what was written.
fn other_out(case: Case<'_>, out: &[u8]) -> Difference {
    let Ok(text) = str::from_utf8(out) else {
        return Some("it writes no text");
    };
    if !has_each(text, case.text(Heading::OutHas)) {
        Some("it doesn't write all that it must")
    } else if !are_lines(case, text) {
        Some("a thread has other lines")
    } else if !is_as_long(case, text) {
        Some("it writes another number of lines")
    } else {
        None
    }
}

/// What isn't so of parts of what was said.
fn other_err(case: Case<'_>, err: &[u8]) -> Difference {
    let Ok(text) = str::from_utf8(err) else {
        return Some("it says no text");
    };
    if !text.starts_with(case.text(Heading::ErrBegins).unwrap_or("")) {
        Some("it says another text at first")
    } else if !has_each(text, case.text(Heading::ErrHas)) {
        Some("it doesn't say all that it must")
    } else if !are_without_rules(text, case.text(Heading::ErrWithoutRules)) {
        Some("it says another text, the rules left out")
    } else {
        None
    }
}

/// What isn't so where the program reads back what it wrote by these words: it must be legal, and this be said.
fn other_back<T: Threads + Wait + Sync>(
    rt: &T,
    alloc: Global,
    case: Case<'_>,
    words: Option<&str>,
    out: &[u8],
    err: &[u8],
) -> io::Result<Difference> {
    let Some(words) = words else {
        return Ok(None);
    };
    let ended = run_text(rt, alloc, words, give(case, out))?;
    match other_end(&ended, 0, Some(LEGAL), Some(err)) {
        None => Ok(None),
        Some(_) => Ok(Some("it is read back otherwise")),
    }
}

/// The first lines of a text, so many.
fn front_of(text: &[u8], lines: usize) -> &[u8] {
    let mut left = lines;
    for (place, byte) in text.iter().enumerate() {
        if left == 0 {
            return text.get(..place).unwrap_or(text);
        }
        if *byte == b'\n' {
            left = left.saturating_sub(1);
        }
    }
    text
}

/// How many line feeds there are.
pub fn feeds(bytes: &[u8]) -> usize {
    bytes.iter().filter(|byte| **byte == b'\n').count()
}

/// Nothing, or something that ends with a line feed.
pub fn is_whole(bytes: &[u8]) -> bool {
    bytes.is_empty() || bytes.ends_with(b"\n".as_slice())
}

/// Whether the record, cut off behind these bytes, is answered as far as its last whole line.
fn is_cut_off<T: Threads + Wait + Sync>(
    rt: &T,
    alloc: Global,
    case: Case<'_>,
    words: &str,
    front: &[u8],
    out: &[u8],
) -> io::Result<bool> {
    let ended = run_text(rt, alloc, words, give(case, front))?;
    let lines = feeds(front);
    let line = lines.saturating_add(1);
    let said = if is_whole(front) {
        String::new(alloc)
    } else {
        format!(in alloc; "line {line}: cut off\n")?
    };
    let written = front_of(out, lines);
    Ok(other_end(&ended, 0, Some(written), Some(said.as_bytes())).is_none())
}

/// What isn't so where the record that is read is cut off behind each byte in turn.
fn other_cuts<T: Threads + Wait + Sync>(
    rt: &T,
    alloc: Global,
    case: Case<'_>,
    words: &str,
) -> io::Result<Difference> {
    if !case.has(Heading::EachCut) {
        return Ok(None);
    }
    let input = case.bytes(Heading::Input).unwrap_or(b"".as_slice());
    let out = case.bytes(Heading::Out).unwrap_or(b"".as_slice());
    for place in 0..input.len() {
        let (front, _) = input.split_at(place);
        if !is_cut_off(rt, alloc, case, words, front, out)? {
            return Ok(Some("a cut record is answered otherwise"));
        }
    }
    Ok(None)
}

/// What isn't so of a case that is run as it states.
pub fn other_run<T: Threads + Wait + Sync>(
    rt: &T,
    alloc: Global,
    case: Case<'_>,
) -> io::Result<Difference> {
    let words = case.text(Heading::Words).unwrap_or("");
    let ended = run_text(rt, alloc, words, devices_of(case))?;
    let (out, err) = (case.bytes(Heading::Out), case.bytes(Heading::Err));
    let (legal, alike) = (case.text(Heading::Legal), case.text(Heading::LegalAlike));
    let nothing = b"".as_slice();
    Ok(first_of(&[
        other_end(&ended, case.status(), out, err),
        other_out(case, &ended.out),
        other_err(case, &ended.err),
        other_back(rt, alloc, case, legal, &ended.out, nothing)?,
        other_back(rt, alloc, case, alike, &ended.out, &ended.err)?,
        other_cuts(rt, alloc, case, words)?,
    ]))
}
