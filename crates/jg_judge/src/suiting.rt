//! Whether a question has the operands of its function.

ghost use Rattle.std.specs.Prelude.{◌≡◌};
ghost use Rattle.jg_judge.specs.Asked as asked;
ghost use Rattle.jg_judge.specs.Suits as spec;

use crate::argument::Argument;
use jg_rows::Takes;

pub fn takes_reference(takes: Takes) -> bool
    ensures { result ≡ spec.takes_reference takes }
{
    match takes {
        Takes::Reference(_) => true,
        Takes::Nullable => true,
        Takes::Unjudged => true,
        Takes::Arguments => true,
        _ => false,
    }
}

pub fn takes_buffer(takes: Takes) -> bool
    ensures { result ≡ spec.takes_buffer takes }
{
    match takes {
        Takes::Buffer(_) => true,
        Takes::Readable => true,
        Takes::Writable => true,
        _ => false,
    }
}

pub fn takes_number(takes: Takes) -> bool
    ensures { result ≡ spec.takes_number takes }
{
    match takes {
        Takes::Number => true,
        Takes::Capacity => true,
        Takes::Length => true,
        Takes::Count => true,
        Takes::Mode => true,
        Takes::Place => true,
        _ => false,
    }
}

pub fn takes_value(takes: Takes) -> bool
    ensures { result ≡ spec.takes_value takes }
{
    match takes {
        Takes::Number => true,
        Takes::Item => true,
        Takes::Value(_) => true,
        _ => false,
    }
}

pub fn takes_id(takes: Takes) -> bool
    ensures { result ≡ spec.takes_id takes }
{
    match takes {
        Takes::Field(_, _) => true,
        Takes::AnyField => true,
        Takes::Method(_, _) => true,
        Takes::Constructor => true,
        Takes::AnyMethod => true,
        _ => false,
    }
}

pub fn takes_class(takes: Takes) -> bool
    ensures { result ≡ spec.takes_class takes }
{
    match takes {
        Takes::ClassName => true,
        _ => false,
    }
}

pub fn takes_native(takes: Takes) -> bool
    ensures { result ≡ spec.takes_native takes }
{
    match takes {
        Takes::NativeName => true,
        _ => false,
    }
}

pub fn takes_name(takes: Takes) -> bool
    ensures { result ≡ spec.takes_name takes }
{
    match takes {
        Takes::Name => true,
        _ => false,
    }
}

pub fn takes_list(takes: Takes) -> bool
    ensures { result ≡ spec.takes_list takes }
{
    match takes {
        Takes::Items(_) => true,
        Takes::Utf8 => true,
        _ => false,
    }
}

fn suits_one(takes: Takes, argument: Argument) -> bool
    ensures { result ≡ spec.suits_one takes argument }
{
    match argument {
        Argument::Reference(_) => takes_reference(takes),
        Argument::Buffer(_) => takes_buffer(takes),
        Argument::Number(_) => takes_number(takes),
        Argument::Value(_) => takes_value(takes),
        Argument::Id { .. } => takes_id(takes),
        Argument::Class(_) => takes_class(takes),
        Argument::Native(_) => takes_native(takes),
        Argument::Name => takes_name(takes),
        Argument::List { .. } => takes_list(takes),
    }
}

/// Whether it may stand for any number of operands.
pub fn is_last(takes: Takes) -> bool
    ensures { result ≡ asked.is_last takes }
{
    match takes {
        Takes::Arguments => true,
        _ => false,
    }
}

/// Whether there may be no operand more.
pub fn are_none(takes: &[Takes]) -> bool
    ensures { result ≡ spec.are_none takes.now }
{
    match takes.first() {
        None => true,
        Some(take) => is_last(*take),
    }
}

/// Whether there are as many operands as the row says, each of its sort. A method's arguments may be any number of
/// references.
pub fn suits(takes: &[Takes], arguments: &[Argument]) -> bool
    ensures { result ≡ spec.suits takes.now arguments.now }
{
    let mut wanted = takes;
    let mut rest = arguments;
    while let Some((argument, later)) = rest.split_first() {
        let Some((take, more)) = wanted.split_first() else {
            return false;
        };
        if !suits_one(*take, *argument) {
            return false;
        }
        if !is_last(*take) {
            wanted = more;
        }
        rest = later;
    }
    are_none(wanted)
}
