//! A file of cases is read: each case with its parts, or the first line that refuses it.

use crate::devices::Behind;
use crate::ends::Own;
use crate::headings::{Form, Heading, Kind};
use crate::parts::{Case, Part, find_part};
use std::alloc::{AllocError, Global};

/// What stands before a case's name.
const CASE_MARK: &[u8] = b"=== ";

/// What stands before a part's heading.
const PART_MARK: &[u8] = b"--- ";

/// The name that ends a file of cases.
const END: &str = "end";

/// Why a file of cases isn't tried.
#[derive(Clone, Copy)]
pub enum FileFault {
    NoMemory,
    /// What is wrong, and in which line.
    At { line: usize, what: &'static str },
}

impl From<AllocError> for FileFault {
    fn from(_: AllocError) -> FileFault {
        FileFault::NoMemory
    }
}

/// A line that is a mark, and where it stands.
#[derive(Clone, Copy)]
struct Mark<'a> {
    line: usize,
    text: &'a [u8],
    /// The place of its first byte.
    start: usize,
    /// The place behind its line feed.
    end: usize,
}

/// The marks of a file, and how many lines it has.
#[derive(Drop)]
struct Marks<'a> {
    list: Vec<Mark<'a>>,
    lines: usize,
}

/// The name of a case, its line, and which of the file's parts is its first.
#[derive(Clone, Copy)]
struct Head<'a> {
    name: &'a str,
    line: usize,
    first: usize,
}

/// The cases of a file.
#[derive(Drop)]
pub struct Cases<'a> {
    heads: Vec<Head<'a>>,
    parts: Vec<Part<'a>>,
    is_ended: bool,
}

impl<'a> Cases<'a> {
    /// How many there are.
    pub fn len(&self) -> usize {
        self.heads.len()
    }

    /// The case at this place.
    pub fn at_place(&self, place: usize) -> Option<Case<'_>> {
        let head = self.heads.get(place)?;
        let last = match self.heads.get(place.saturating_add(1)) {
            Some(next) => next.first,
            None => self.parts.len(),
        };
        Some(Case {
            name: head.name,
            line: head.line,
            parts: self.parts.get(head.first..last)?,
        })
    }
}

fn is_mark(line: &[u8]) -> bool {
    line.starts_with(CASE_MARK) || line.starts_with(PART_MARK)
}

fn marks_of<'a>(alloc: Global, bytes: &'a [u8]) -> Result<Marks<'a>, AllocError> {
    let mut list = Vec::new(alloc);
    let (mut start, mut lines) = (0usize, 0usize);
    for text in bytes.split(|byte| *byte == b'\n') {
        lines = lines.saturating_add(1);
        let end = start.saturating_add(text.len()).saturating_add(1);
        if is_mark(text) {
            list.push(Mark {
                line: lines,
                text,
                start,
                end,
            })?;
        }
        start = end;
    }
    Ok(Marks { list, lines })
}

/// What stands between the mark at this place and the line feed before the next one.
fn bytes_behind<'a>(bytes: &'a [u8], marks: &[Mark<'a>], place: usize, mark: Mark<'a>) -> &'a [u8] {
    let last = match marks.get(place.saturating_add(1)) {
        Some(next) => next.start.saturating_sub(1),
        None => bytes.len(),
    };
    bytes.get(mark.end..last).unwrap_or(b"".as_slice())
}

fn refused<T>(line: usize, what: &'static str) -> Result<T, FileFault> {
    Err(FileFault::At { line, what })
}

fn text_in(line: usize, bytes: &[u8]) -> Result<&str, FileFault> {
    match str::from_utf8(bytes) {
        Ok(text) => Ok(text),
        Err(_) => refused(line, "bytes that are no text"),
    }
}

fn number_in(line: usize, bytes: &[u8]) -> Result<usize, FileFault> {
    match text_in(line, bytes)?.trim().parse::<usize>() {
        Ok(number) => Ok(number),
        Err(_) => refused(line, "no number"),
    }
}

/// The text and the number of a part of this form.
fn values_in(line: usize, form: Form, bytes: &[u8]) -> Result<(&str, usize), FileFault> {
    match form {
        Form::Bytes => Ok(("", 0)),
        Form::Text => Ok((text_in(line, bytes)?, 0)),
        Form::Number => Ok(("", number_in(line, bytes)?)),
        Form::Status => match number_in(line, bytes)? {
            status @ 0..=255 => Ok(("", status)),
            _ => refused(line, "no exit status"),
        },
        Form::Nothing if bytes.is_empty() => Ok(("", 0)),
        Form::Nothing => refused(line, "a text under a heading that has none"),
        Form::Behind => match Behind::read(text_in(line, bytes)?) {
            Some(_) => Ok((text_in(line, bytes)?, 0)),
            None => refused(line, "nothing that a file can do"),
        },
        Form::Own => match Own::read(text_in(line, bytes)?) {
            Some(_) => Ok((text_in(line, bytes)?, 0)),
            None => refused(line, "nothing that is tried by itself"),
        },
        Form::Rows if bytes.starts_with(b"> ".as_slice()) => Ok(("", 0)),
        Form::Rows => refused(line, "a table that begins with no row"),
    }
}

/// The part of this heading, with the bytes behind it.
fn part_in<'a>(line: usize, heading: &'a [u8], bytes: &'a [u8]) -> Result<Part<'a>, FileFault> {
    let Some((heading, name)) = Heading::read(text_in(line, heading)?) else {
        return refused(line, "an unknown part");
    };
    let (text, number) = values_in(line, heading.form(), bytes)?;
    Ok(Part {
        line,
        heading,
        name,
        bytes,
        text,
        number,
    })
}

/// Takes a case's name, behind which the first part stands at once.
fn take_name<'a>(
    cases: &mut Cases<'a>,
    line: usize,
    name: &'a [u8],
    bytes: &'a [u8],
) -> Result<(), FileFault> {
    let name = text_in(line, name)?;
    if name == END {
        cases.is_ended = true;
    }
    if !bytes.is_empty() {
        return refused(line, "lines behind it that are of no part");
    }
    if cases.is_ended {
        return Ok(());
    }
    let first = cases.parts.len();
    match cases.heads.push(Head { name, line, first }) {
        Ok(()) => Ok(()),
        Err(_) => Err(FileFault::NoMemory),
    }
}

/// Takes a mark, with the bytes behind it.
fn take_mark<'a>(cases: &mut Cases<'a>, mark: Mark<'a>, bytes: &'a [u8]) -> Result<(), FileFault> {
    let line = mark.line;
    if cases.is_ended {
        return refused(line, "something stands behind the end");
    }
    if let Some(name) = mark.text.strip_prefix(CASE_MARK) {
        return take_name(cases, line, name, bytes);
    }
    if cases.heads.is_empty() {
        return refused(line, "a part before the first case");
    }
    let heading = mark.text.strip_prefix(PART_MARK).unwrap_or(mark.text);
    let part = part_in(line, heading, bytes)?;
    match cases.parts.push(part) {
        Ok(()) => Ok(()),
        Err(_) => Err(FileFault::NoMemory),
    }
}

/// Whether the case states each part once, and none that its kind hasn't.
fn check_case(case: Case<'_>) -> Result<(), FileFault> {
    let kind = case.kind();
    for (place, part) in case.parts.iter().enumerate() {
        let before = case.parts.get(..place).unwrap_or(case.parts);
        if find_part(before, part.heading, part.name).is_some() {
            return refused(part.line, "a part that stood before in this case");
        }
        if !part.heading.may_stand_in(kind) {
            return refused(part.line, "a part that such a case hasn't");
        }
        if part.heading.is_of_a_file()
            && find_part(case.parts, Heading::File, part.name).is_none()
        {
            return refused(part.line, "a part of a file that the case hasn't");
        }
    }
    match kind {
        Kind::Run | Kind::Table if !case.has(Heading::Words) => {
            refused(case.line, "a case without words")
        }
        _ => Ok(()),
    }
}

/// Takes all marks of a file.
fn take_marks<'a>(
    cases: &mut Cases<'a>,
    bytes: &'a [u8],
    marks: &Marks<'a>,
) -> Result<(), FileFault> {
    for (place, mark) in marks.list.iter().enumerate() {
        take_mark(cases, *mark, bytes_behind(bytes, &marks.list, place, *mark))?;
    }
    if cases.is_ended {
        Ok(())
    } else {
        refused(marks.lines, "no end")
    }
}

fn check_cases(cases: &Cases<'_>) -> Result<(), FileFault> {
    for place in 0..cases.len() {
        if let Some(case) = cases.at_place(place) {
            check_case(case)?;
        }
    }
    Ok(())
}

/// Reads the cases of a file.
pub fn read_cases<'a>(alloc: Global, bytes: &'a [u8]) -> Result<Cases<'a>, FileFault> {
    let marks = marks_of(alloc, bytes)?;
    let mut cases = Cases {
        heads: Vec::new(alloc),
        parts: Vec::new(alloc),
        is_ended: false,
    };
    take_marks(&mut cases, bytes, &marks)?;
    check_cases(&cases)?;
    Ok(cases)
}
