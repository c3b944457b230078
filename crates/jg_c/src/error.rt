//! Why a call did nothing, by the numbers of jg.h.

ghost use Rattle.std.specs.Prelude.{◌≡◌, ◌≢◌};
ghost use Rattle.jg_c.specs.Errors as errors;

use crate::numbers::{
    BAD_MODE, BAD_NAME, BAD_OPERAND, BAD_TYPE, DUPLICATE, FULL, IMPOSSIBLE, LINE_TOO_LONG, MISSING,
    NO_ENV, NO_MEMORY, NO_THREAD, NOT_ASCII, NOT_TOML, SETUP_VERSION, TOO_MANY, UNKNOWN_FUNCTION,
    UNKNOWN_KEY, WRONG_COUNT,
};
use jg_core::Untold;
use jg_policy::SetupFault;
use jg_text::ScriptFault;

pub(crate) const DONE: i32 = 0;

/// The number of what a core refuses a fact for.
pub(crate) fn of_untold(why: Untold) -> i32
    ensures is { result ≡ errors.of_untold why }
    ensures numbers { (result ≢ errors.closed) × (result ≢ errors.done) }
{
    match why {
        Untold::Impossible => IMPOSSIBLE,
        Untold::Full => FULL,
        Untold::NoMemory => NO_MEMORY,
    }
}

/// The number of a fault of a setup text.
pub(crate) fn of_setup_fault(fault: SetupFault) -> i32
    ensures { result ≡ errors.of_setup_fault fault }
{
    match fault {
        SetupFault::NotToml => NOT_TOML,
        SetupFault::BadVersion => SETUP_VERSION,
        SetupFault::UnknownKey => UNKNOWN_KEY,
        SetupFault::Missing => MISSING,
        SetupFault::BadType => BAD_TYPE,
        SetupFault::BadMode => BAD_MODE,
        SetupFault::BadName => BAD_NAME,
        SetupFault::Duplicate => DUPLICATE,
        SetupFault::TooMany => TOO_MANY,
        SetupFault::NoMemory => NO_MEMORY,
    }
}

/// The number of a fault of a line of a script. No single line has one thread too many.
pub(crate) fn of_script_fault(fault: ScriptFault) -> i32
    ensures is { result ≡ errors.of_script_fault fault }
    ensures numbers { (result ≢ errors.closed) × (result ≢ errors.limit) × (result ≢ errors.unwritten) }
{
    match fault {
        ScriptFault::LineTooLong => LINE_TOO_LONG,
        ScriptFault::NotAscii => NOT_ASCII,
        ScriptFault::NoThread => NO_THREAD,
        ScriptFault::NoEnv => NO_ENV,
        ScriptFault::UnknownFunction => UNKNOWN_FUNCTION,
        ScriptFault::WrongCount => WRONG_COUNT,
        ScriptFault::BadOperand => BAD_OPERAND,
        ScriptFault::TooManyThreads => -71,
        ScriptFault::NoMemory => NO_MEMORY,
    }
}
