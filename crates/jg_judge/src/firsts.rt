//! The first operand of a sort.

ghost use Rattle.std.specs.Prelude.{◌≡◌};
ghost use Rattle.jg_judge.specs.Asked as asked;
ghost use Rattle.jg_judge.specs.Broken as rules;

use crate::argument::Argument;
use jg_words::{BufId, Ref};

/// The first operand that is a reference; null where none is.
pub fn first_reference(arguments: &[Argument]) -> Ref
    ensures { result ≡ asked.first_reference arguments.now }
{
    let mut rest = arguments;
    while let Some((argument, later)) = rest.split_first() {
        if let Argument::Reference(reference) = *argument {
            return reference;
        }
        rest = later;
    }
    Ref::Null
}

/// The first operand that is a buffer, where one is.
pub fn first_buffer(arguments: &[Argument]) -> Option<BufId>
    ensures { result ≡ asked.first_buffer arguments.now }
{
    let mut rest = arguments;
    while let Some((argument, later)) = rest.split_first() {
        if let Argument::Buffer(buffer) = *argument {
            return Some(buffer);
        }
        rest = later;
    }
    None
}

/// The first operand that is a number; 0 where none is.
pub fn first_number(arguments: &[Argument]) -> i32
    ensures { result ≡ asked.first_number arguments.now }
{
    let mut rest = arguments;
    while let Some((argument, later)) = rest.split_first() {
        if let Argument::Number(number) = *argument {
            return number;
        }
        rest = later;
    }
    0
}

fn native_in(argument: Argument) -> Option<u32>
    ensures { result ≡ rules.native_in argument }
{
    match argument {
        Argument::Native(native) => native,
        _ => None,
    }
}

/// The native method that the second operand names.
pub fn native_by_name(arguments: &[Argument]) -> Option<u32>
    ensures { result ≡ rules.native_by_name arguments.now }
{
    match arguments.get(1) {
        None => None,
        Some(argument) => native_in(*argument),
    }
}
