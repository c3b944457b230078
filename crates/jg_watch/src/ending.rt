//! How a record ends, and the line of each fault on standard error.

ghost use Rattle.std.specs.Prelude.{◌≡◌};
ghost use Rattle.jg_watch.specs.Ends.{ended_line, stop_line};

use jg_record::RecordFault;
use thiserror::Error;

/// How far a record was answered, where nothing is wrong with its text. Lines count from 1.
#[derive(Clone, Copy)]
pub enum Ended {
    /// All of its lines were answered, so many.
    All { lines: u64 },
    /// This line, its last, has no line feed: the run broke off. It isn't answered.
    CutOff { line: u64 },
    /// The line tells another answer than the core's, or one where there is none.
    Differs { line: u64 },
    /// The fact of the line can't be.
    Impossible { line: u64 },
}

/// Why a record isn't answered to its end. Lines count from 1.
#[derive(Clone, Copy, Debug, PartialEq, Eq, Error)]
pub enum Stop {
    /// The line says no event.
    #[error("line {line}: {fault}")]
    Faulty { line: u64, fault: RecordFault },
    /// The core was told 2^60 facts that made something, or no more lines can be counted.
    #[error("line {line}: limit")]
    Limit { line: u64 },
    /// Memory ran out at the line.
    #[error("line {line}: no memory")]
    NoMemory { line: u64 },
    /// The reader failed before the line's end.
    #[error("line {line}: read failed")]
    Read { line: u64 },
    /// The writer failed before what is written of the line was.
    #[error("line {line}: write failed")]
    Write { line: u64 },
}

impl Ended {
    /// The number of the line that it ended at, or of the last one.
    pub fn line(self) -> u64
        ensures { result ≡ ended_line self }
    {
        match self {
            Ended::All { lines } => lines,
            Ended::CutOff { line } | Ended::Differs { line } | Ended::Impossible { line } => line,
        }
    }
}

impl Stop {
    /// The number of the line that it stopped at.
    pub fn line(self) -> u64
        ensures { result ≡ stop_line self }
    {
        match self {
            Stop::Faulty { line, .. }
            | Stop::Limit { line }
            | Stop::NoMemory { line }
            | Stop::Read { line }
            | Stop::Write { line } => line,
        }
    }
}
