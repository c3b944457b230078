//! Why an event isn't written.

use thiserror::Error;

/// Why an event isn't written. Each prints as its name.
#[derive(Clone, Copy, Debug, PartialEq, Eq, Error)]
pub enum Unwritten {
    /// No text spells it: its function isn't in the table or doesn't take these operands, its class is neither one of
    /// the setup nor of a kind that can be met, or no object is gone. Of a single object that is gone
    /// [`Event::Gone`](crate::Event::Gone) tells, and not a fact.
    #[error("NoText")]
    NoText,
    /// Its text has more than 65,536 bytes.
    #[error("TooLong")]
    TooLong,
    /// Memory ran out.
    #[error("NoMemory")]
    NoMemory,
}
