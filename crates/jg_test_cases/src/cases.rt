//! Files of cases: each case is tried, and what comes out otherwise is told.

use crate::ends::other_own;
use crate::functions::try_functions;
use crate::headings::{Heading, Kind};
use crate::journals::try_journal;
use crate::parts::Case;
use crate::reading::{Cases, FileFault, read_cases};
use crate::runs::other_run;
use crate::tables::{Came, Place, try_table};
use jg_program::Files;
use std::alloc::{AllocError, Global};
use std::collections::HashSet;
use std::io;
use std::io::ErrorKind;
use std::sync::Wait;
use std::thread::Threads;

/// How many cases and rows there were, how many cases came out otherwise, and how many files were refused.
#[derive(Clone, Copy)]
pub struct Tally {
    pub cases: u64,
    pub rows: u64,
    pub others: u64,
    pub refused: u64,
}

impl Tally {
    pub const NONE: Tally = Tally {
        cases: 0,
        rows: 0,
        others: 0,
        refused: 0,
    };

    /// Whether cases were tried, and all came out as they state.
    pub fn is_good(self) -> bool {
        self.cases > 0 && self.others == 0 && self.refused == 0
    }

    /// Counts a file that is refused.
    pub fn refuse(&mut self) {
        self.refused = self.refused.saturating_add(1);
    }

    fn count(&mut self, came: Came) {
        self.cases = self.cases.saturating_add(1);
        self.rows = self.rows.saturating_add(came.rows);
        if came.difference.is_some() {
            self.others = self.others.saturating_add(1);
        }
    }
}

/// What comes of the case.
fn try_case<T: Threads + Wait + Sync + Files>(
    rt: &T,
    alloc: Global,
    case: Case<'_>,
) -> io::Result<Came> {
    match case.kind() {
        Kind::Run => Ok(Came::of(other_run(rt, alloc, case)?)),
        Kind::Table => {
            let table = case.bytes(Heading::Rows).unwrap_or(b"".as_slice());
            try_table(rt, alloc, case, table)
        }
        Kind::Journal => {
            let text = case.text(Heading::Journal).unwrap_or("");
            try_journal(rt, alloc, case, text)
        }
        Kind::Own => {
            let text = case.text(Heading::Own).unwrap_or("");
            Ok(Came::of(other_own(rt, alloc, text)?))
        }
        Kind::Functions => Ok(try_functions(case.text(Heading::Functions).unwrap_or(""))),
    }
}

/// Counts a file that is refused, and tells why.
fn refuse_file(
    path: &str,
    line: usize,
    what: &str,
    tally: &mut Tally,
    out: &mut String,
) -> io::Result<()> {
    tally.refuse();
    writeln!(out, "{path}: line {line}: refused: {what}")?;
    Ok(())
}

/// Tells what isn't as the case states.
fn tell_other(out: &mut String, path: &str, case: Case<'_>, came: Came) -> Result<(), AllocError> {
    let Some(difference) = came.difference else {
        return Ok(());
    };
    let (line, name) = (case.line, case.name);
    let (of, number) = match came.place {
        Place::Row(row) => ("row", row),
        Place::Line(line) => ("line", line),
    };
    writeln!(
        out,
        "{path}: line {line}: {name}: {difference}, in {of} {number}"
    )
}

/// Notes the names of the cases; answers the line of one that is noted already.
fn note_names(
    alloc: Global,
    cases: &Cases<'_>,
    names: &mut HashSet<String>,
) -> Result<Option<usize>, AllocError> {
    for place in 0..cases.len() {
        if let Some(case) = cases.at_place(place) {
            let name = String::from_str(alloc, case.name)?;
            if !names.insert(name)? {
                return Ok(Some(case.line));
            }
        }
    }
    Ok(None)
}

/// Tries the cases of a file.
fn try_cases<T: Threads + Wait + Sync + Files>(
    rt: &T,
    alloc: Global,
    path: &str,
    cases: &Cases<'_>,
    tally: &mut Tally,
    out: &mut String,
) -> io::Result<()> {
    for place in 0..cases.len() {
        if let Some(case) = cases.at_place(place) {
            let came = try_case(rt, alloc, case)?;
            tally.count(came);
            tell_other(out, path, case, came)?;
        }
    }
    Ok(())
}

/// Tries the cases of a file, if none has a name that stood before.
fn try_named<T: Threads + Wait + Sync + Files>(
    rt: &T,
    alloc: Global,
    path: &str,
    cases: &Cases<'_>,
    names: &mut HashSet<String>,
    tally: &mut Tally,
    out: &mut String,
) -> io::Result<()> {
    match note_names(alloc, cases, names)? {
        None => try_cases(rt, alloc, path, cases, tally, out),
        Some(line) => {
            let what = "a case whose name stood before";
            refuse_file(path, line, what, tally, out)
        }
    }
}

/// Tries the cases of a file of these bytes, and writes to `out` what is to be told of it. `names` has the names of all
/// cases before.
pub fn try_file<T: Threads + Wait + Sync + Files>(
    rt: &T,
    alloc: Global,
    path: &str,
    bytes: &[u8],
    names: &mut HashSet<String>,
    tally: &mut Tally,
    out: &mut String,
) -> io::Result<()> {
    match read_cases(alloc, bytes) {
        Ok(cases) => try_named(rt, alloc, path, &cases, names, tally, out),
        Err(FileFault::NoMemory) => Err(io::Error::from(ErrorKind::OutOfMemory)),
        Err(FileFault::At { line, what }) => refuse_file(path, line, what, tally, out),
    }
}
