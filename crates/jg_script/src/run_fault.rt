//! Why a script or a journal isn't read to its end, and the line of each such fault on standard error.

use jg_text::ScriptFault;
use thiserror::Error;

/// Why a script wasn't answered to its end. Lines count from 1.
#[derive(Clone, Copy, Debug, PartialEq, Eq, Error)]
pub enum RunFault {
    /// The line isn't a call. No line before it is such.
    #[error("line {line}: {fault}")]
    Script { line: u64, fault: ScriptFault },
    /// The line is a call, and the journal has as many entries as its limit allows.
    #[error("line {line}: limit")]
    Limit { line: u64 },
    /// Memory ran out at the line.
    #[error("line {line}: no memory")]
    NoMemory { line: u64 },
    /// The reader failed before the line's end.
    #[error("line {line}: read failed")]
    Read { line: u64 },
    /// The writer failed before the line's answer was written.
    #[error("line {line}: write failed")]
    Write { line: u64 },
}
