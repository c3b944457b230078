//! Errors by their numbers.

ghost use Rattle.std.specs.Prelude.{◌≡◌, option_map};
ghost use Rattle.jg_c.specs.ErrorNames as specs;
ghost use Rattle.jg_c.specs.ErrorNames.{TellsError};

use crate::copying::copy_out;
use crate::numbers::{
    BAD_FACT, BAD_MODE, BAD_NAME, BAD_OPERAND, BAD_THREAD, BAD_TICKET, BAD_TYPE, BAD_VALUE,
    BAD_VERSION, CLOSED, DUPLICATE, FULL, IMPOSSIBLE, IS_OPEN, LIMIT, LINE_TOO_LONG, MISFIT,
    MISSING, NO_ENV, NO_FUNCTION, NO_MEMORY, NO_NAME, NO_RULE, NO_TEXT, NO_THREAD, NOT_ASCII,
    NOT_TOML, NULL_POINTER, SETUP_VERSION, TOO_MANY, UNKNOWN_FUNCTION, UNKNOWN_KEY, UNWRITTEN,
    WRONG_COUNT,
};

/// The name of the error of this number, as jg.h has it without `JG_`.
fn error_name(number: i32) -> Option<&'static str>
    ensures { specs.error_name number ≡ option_map (λ name. name.now) result }
{
    match number {
        CLOSED => Some("CLOSED"),
        IS_OPEN => Some("IS_OPEN"),
        BAD_VERSION => Some("BAD_VERSION"),
        NO_MEMORY => Some("NO_MEMORY"),
        BAD_THREAD => Some("BAD_THREAD"),
        BAD_VALUE => Some("BAD_VALUE"),
        NO_FUNCTION => Some("NO_FUNCTION"),
        MISFIT => Some("MISFIT"),
        BAD_FACT => Some("BAD_FACT"),
        IMPOSSIBLE => Some("IMPOSSIBLE"),
        FULL => Some("FULL"),
        BAD_TICKET => Some("BAD_TICKET"),
        LIMIT => Some("LIMIT"),
        NO_TEXT => Some("NO_TEXT"),
        NO_RULE => Some("NO_RULE"),
        UNWRITTEN => Some("UNWRITTEN"),
        NO_NAME => Some("NO_NAME"),
        NULL_POINTER => Some("NULL_POINTER"),
        NOT_TOML => Some("NOT_TOML"),
        SETUP_VERSION => Some("SETUP_VERSION"),
        UNKNOWN_KEY => Some("UNKNOWN_KEY"),
        MISSING => Some("MISSING"),
        BAD_TYPE => Some("BAD_TYPE"),
        BAD_MODE => Some("BAD_MODE"),
        BAD_NAME => Some("BAD_NAME"),
        DUPLICATE => Some("DUPLICATE"),
        TOO_MANY => Some("TOO_MANY"),
        LINE_TOO_LONG => Some("LINE_TOO_LONG"),
        NOT_ASCII => Some("NOT_ASCII"),
        NO_THREAD => Some("NO_THREAD"),
        NO_ENV => Some("NO_ENV"),
        UNKNOWN_FUNCTION => Some("UNKNOWN_FUNCTION"),
        WRONG_COUNT => Some("WRONG_COUNT"),
        BAD_OPERAND => Some("BAD_OPERAND"),
        _ => None,
    }
}

/// Writes the name of the error of this number, and answers how long it is.
#[unsafe(no_mangle)]
pub extern "C" fn jg_error_name(number: i32, text: &mut [u8]) -> i64
    ensures { TellsError (specs.error_name number) text.old text.new result }
{
    match error_name(number) {
        Some(name) => copy_out(name.as_bytes(), text),
        None => i64::from(BAD_VALUE),
    }
}
