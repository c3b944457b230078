//! Questions, written.

ghost use Rattle.std.specs.Prelude.{◌≡◌, ◌<◌, ◌^◌, ◌++◌, ◌∷◌, OnOk, map, slice_get, string_bytes};
ghost use Rattle.std.specs.List.{AllByRecursion};
ghost use Rattle.jg_text.specs.Words.{FitsEnv, env_text};
ghost use Rattle.jg_rows.specs.ByName.{name_at};
ghost use Rattle.jg_rows.specs.Table.{functions};
ghost use Rattle.jg_record.specs.Texts as texts;
ghost use Rattle.jg_record.specs.Texts.{FitsArgument, appended, argument_text};
ghost use Rattle.jg_record.specs.Words.{list_text};

use crate::operands::{Sort, sort_of};
use crate::push;
use jg_judge::{Argument, are_none, is_last};
use jg_rows::{Takes, row_of};
use jg_words::EnvId;
use std::alloc::AllocError;

/// Whether more than 32 bits are needed for the number.
fn is_long(v: i64) -> bool
    ensures { result ≡ texts.is_long v }
{
    v < -0x8000_0000 || v > 0x7fff_ffff
}

/// Whether the operand is of the sort.
fn is_sort(sort: Sort, argument: Argument) -> bool
    ensures { result ≡ texts.is_sort sort argument }
{
    match argument {
        Argument::Reference(_) => sort == Sort::Reference,
        Argument::Buffer(_) => sort == Sort::Buffer,
        Argument::Number(_) => sort == Sort::Bounded || sort == Sort::Number,
        Argument::Value(v) => sort == Sort::Value || (sort == Sort::Number && is_long(v)),
        Argument::Id { .. } => sort == Sort::Id,
        Argument::Class(_) => sort == Sort::Class,
        Argument::Native(_) => sort == Sort::Native,
        Argument::Name => sort == Sort::Name,
        Argument::List { .. } => sort == Sort::List,
    }
}

/// Whether the operands are those that a function takes that takes these.
fn are_sorted(takes: &[Takes], arguments: &[Argument]) -> bool
    ensures { result ≡ texts.are_sorted takes.now arguments.now }
{
    let mut wanted = takes;
    let mut rest = arguments;
    while let Some((argument, later)) = rest.split_first() {
        let Some((take, more)) = wanted.split_first() else {
            return false;
        };
        if !is_sort(sort_of(*take), *argument) {
            return false;
        }
        if !is_last(*take) {
            wanted = more;
        }
        rest = later;
    }
    are_none(wanted)
}

/// Whether the table has a function at this place, and it takes the operands.
pub fn suits_row(function: u16, arguments: &[Argument]) -> bool
    ensures { result ≡ texts.suits_row (slice_get functions function) arguments.now }
{
    match row_of(usize::from(function)) {
        None => false,
        Some(row) => are_sorted(row.takes, arguments),
    }
}

/// Writes a space and how long a list is, and whether it fits.
fn push_list(out: &mut String, count: u64, fits: bool) -> Result<(), AllocError>
    ensures written { OnOk result (string_bytes out.new ≡ string_bytes out.old ++ 32 ∷ list_text count fits) }
    ensures fits { OnOk result (count < 2 ^ 64) }
{
    push::number(out, count)?;
    if fits { Ok(()) } else { out.push('!') }
}

/// Adds a space and the operand, as a question spells it.
pub fn push_argument(out: &mut String, argument: Argument) -> Result<(), AllocError>
    ensures written { OnOk result (string_bytes out.new ≡ string_bytes out.old ++ 32 ∷ argument_text argument) }
    ensures fits { OnOk result (FitsArgument argument) }
{
    match argument {
        Argument::Reference(reference) => push::reference(out, reference),
        Argument::Buffer(buffer) => push::buffer(out, buffer),
        Argument::Number(n) => push::small_signed(out, n),
        Argument::Value(v) => push::signed(out, v),
        Argument::Id { fits: true } => push::word(out, "id"),
        Argument::Id { fits: false } => push::word(out, "id!"),
        Argument::Class(class) => push::stated(out, class),
        Argument::Native(native) => push::stated(out, native),
        Argument::Name => push::word(out, "?"),
        Argument::List { count, fits } => push_list(out, count, fits),
    }
}

/// Writes the operands, each behind a space.
fn push_arguments(out: &mut String, arguments: &[Argument]) -> Result<(), AllocError>
    ensures written { OnOk result (string_bytes out.new
        ≡ appended (string_bytes out.old) (map argument_text arguments.now)) }
    ensures fits { OnOk result (AllByRecursion FitsArgument arguments.now) }
{
    let mut rest = arguments;
    while let Some((argument, later)) = rest.split_first() {
        push_argument(out, *argument)?;
        rest = later;
    }
    Ok(())
}

/// Writes a space and the function's name, or nothing where the table has none at this place.
fn push_function(out: &mut String, function: u16) -> Result<(), AllocError>
    ensures { OnOk result (string_bytes out.new ≡ string_bytes out.old ++ 32 ∷ name_at function) }
{
    match row_of(usize::from(function)) {
        None => push::word(out, ""),
        Some(row) => push::word(out, row.name),
    }
}

/// Writes what a question asks, behind its thread.
pub fn push_question(
    out: &mut String,
    env: Option<EnvId>,
    function: u16,
    arguments: &[Argument],
) -> Result<(), AllocError>
    ensures written { OnOk result (string_bytes out.new ≡ appended (string_bytes out.old)
        (env_text env ∷ name_at function ∷ map argument_text arguments.now)) }
    ensures fits { OnOk result (FitsEnv env × AllByRecursion FitsArgument arguments.now) }
{
    push::environment(out, env)?;
    push_function(out, function)?;
    push_arguments(out, arguments)
}
