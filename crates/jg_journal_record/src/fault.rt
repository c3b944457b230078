//! Why a record isn't written to its end.

use jg_record::Unwritten;
use thiserror::Error;

/// Why the record of a journal isn't written to its end. Lines are the journal's, and count from 1.
#[derive(Clone, Copy, Debug, PartialEq, Eq, Error)]
pub enum RetellFault {
    /// What the line's entry is can't be had as text.
    #[error("line {line}: {why}")]
    Unwritten { line: u64, why: Unwritten },
    /// The writer failed before all of it was written.
    #[error("line {line}: write failed")]
    Write { line: u64 },
}
