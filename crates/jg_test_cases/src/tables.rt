//! Tables of lines: the program is run for each row, on the row's lines, and must say what the row states.

use crate::headings::Heading;
use crate::parts::Case;
use crate::runs::{Difference, give, other_end, run_text};
use std::alloc::{AllocError, Global};
use std::io;
use std::sync::Wait;
use std::thread::Threads;

/// Where a case isn't as it states, from 1.
#[derive(Clone, Copy)]
pub enum Place {
    Row(u64),
    /// A line of its journal.
    Line(u64),
}

/// What came of a case: what isn't as it states, where, and how many rows were tried.
#[derive(Clone, Copy)]
pub struct Came {
    pub difference: Difference,
    pub place: Place,
    pub rows: u64,
}

impl Came {
    /// What came of a case before its first row.
    pub const NONE: Came = Came {
        difference: None,
        place: Place::Row(0),
        rows: 0,
    };

    /// What came of a case that is one row.
    pub fn of(difference: Difference) -> Came {
        Came {
            difference,
            place: Place::Row(1),
            rows: 1,
        }
    }

    /// What came of a journal, of which this isn't so in that line.
    pub fn in_line(what: &'static str, line: u64) -> Came {
        Came {
            difference: Some(what),
            place: Place::Line(line),
            rows: 1,
        }
    }

    /// Counts a row.
    pub fn count(&mut self, difference: Difference) {
        self.rows = self.rows.saturating_add(1);
        if self.difference.is_none() && difference.is_some() {
            self.difference = difference;
            self.place = Place::Row(self.rows);
        }
    }
}

/// A row that is read line by line: its input, and what must be said of it.
#[derive(Drop)]
struct Row {
    input: Vec<u8>,
    said: Vec<u8>,
}

fn push_line(text: &mut Vec<u8>, line: &[u8]) -> Result<(), AllocError> {
    text.extend_from_slice(line)?;
    text.push(b'\n')?;
    Ok(())
}

/// Empties the row, but for the lines that stand before each row's own.
fn begin_row(row: &mut Row, case: Case<'_>) -> Result<(), AllocError> {
    row.input.clear();
    row.said.clear();
    let before = case.bytes(Heading::Before).unwrap_or(b"".as_slice());
    row.input.extend_from_slice(before)
}

/// Takes a line of the table: one that must be said, or one of the input.
fn take_line(row: &mut Row, line: &[u8]) -> Result<(), AllocError> {
    if let Some(said) = line.strip_prefix(b"= ".as_slice()) {
        return push_line(&mut row.said, said);
    }
    let input = line.strip_prefix(b"> ".as_slice()).unwrap_or(line);
    push_line(&mut row.input, input)
}

/// What isn't so of a row.
fn other_row<T: Threads + Wait + Sync>(
    rt: &T,
    alloc: Global,
    case: Case<'_>,
    row: &Row,
) -> io::Result<Difference> {
    let words = case.text(Heading::Words).unwrap_or("");
    let ended = run_text(rt, alloc, words, give(case, &row.input))?;
    let out = case.bytes(Heading::Out);
    Ok(other_end(&ended, case.status(), out, Some(&row.said)))
}

/// Tries the row, which is read whole, and begins the next one.
fn end_row<T: Threads + Wait + Sync>(
    rt: &T,
    alloc: Global,
    case: Case<'_>,
    row: &mut Row,
    came: &mut Came,
) -> io::Result<()> {
    came.count(other_row(rt, alloc, case, row)?);
    begin_row(row, case)?;
    Ok(())
}

/// Tries all rows; `row` is room for one of them, and is begun.
fn try_rows<T: Threads + Wait + Sync>(
    rt: &T,
    alloc: Global,
    case: Case<'_>,
    table: &[u8],
    row: &mut Row,
    came: &mut Came,
) -> io::Result<()> {
    for (place, line) in table.split(|byte| *byte == b'\n').enumerate() {
        if place > 0 && line.starts_with(b"> ".as_slice()) {
            end_row(rt, alloc, case, row, came)?;
        }
        take_line(row, line)?;
    }
    end_row(rt, alloc, case, row, came)
}

/// What comes of a case that is a table.
pub fn try_table<T: Threads + Wait + Sync>(
    rt: &T,
    alloc: Global,
    case: Case<'_>,
    table: &[u8],
) -> io::Result<Came> {
    let mut row = Row {
        input: Vec::new(alloc),
        said: Vec::new(alloc),
    };
    let mut came = Came::NONE;
    begin_row(&mut row, case)?;
    try_rows(rt, alloc, case, table, &mut row, &mut came)?;
    Ok(came)
}
