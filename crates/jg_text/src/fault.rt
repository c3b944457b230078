//! Why a line isn't a call, or can't be read.

use thiserror::Error;

/// Why a line isn't a call. Each prints as its name.
#[derive(Clone, Copy, Debug, PartialEq, Eq, Error)]
pub enum ScriptFault {
    /// The first field is no thread.
    #[error("NoThread")]
    NoThread,
    /// The second field is no environment and isn't `-`, or there is none.
    #[error("NoEnv")]
    NoEnv,
    /// The third field is no function's name, or there is none.
    #[error("UnknownFunction")]
    UnknownFunction,
    /// A field after it isn't an operand of the kind that stands there.
    #[error("BadOperand")]
    BadOperand,
    /// There are more or fewer fields after it than the function has operands.
    #[error("WrongCount")]
    WrongCount,
    /// The line has more than 65,536 bytes.
    #[error("LineTooLong")]
    LineTooLong,
    /// A byte of it isn't from 0x20 to 0x7E.
    #[error("NotAscii")]
    NotAscii,
    /// Memory ran out. This comes in the place of any answer, and says nothing of the line.
    #[error("NoMemory")]
    NoMemory,
    /// The line is a call, of one thread more than a file of scripts may have. No line has this of
    /// itself: it comes only where the scripts of several threads are read.
    #[error("TooManyThreads")]
    TooManyThreads,
}
