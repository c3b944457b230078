//! What can be wrong with a line of a record.

use thiserror::Error;

/// Why a line of a record is no event. Each prints as its name.
#[derive(Clone, Copy, Debug, PartialEq, Eq, Error)]
pub enum RecordFault {
    /// The line has more than 65,536 bytes.
    #[error("LineTooLong")]
    LineTooLong,
    /// A byte of the event isn't from 0x20 to 0x7E.
    #[error("NotAscii")]
    NotAscii,
    /// The first field is no thread.
    #[error("NoThread")]
    NoThread,
    /// The second field is neither an environment or `-` nor a fact's word, or there is none.
    #[error("NoEvent")]
    NoEvent,
    /// The third field of a question is no function of the table, or there is none.
    #[error("UnknownFunction")]
    UnknownFunction,
    /// There are more or fewer fields after it than the function, or the fact, has operands.
    #[error("WrongCount")]
    WrongCount,
    /// A field after it isn't an operand of the kind that stands there.
    #[error("BadOperand")]
    BadOperand,
    /// Memory ran out. This comes in the place of any answer, and says nothing of the line.
    #[error("NoMemory")]
    NoMemory,
}
