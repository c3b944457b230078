//! The operands of a question, as C holds them.

ghost use Rattle.std.specs.Prelude.{◌≡◌, ℕ, Option};
ghost use Rattle.jg_c.specs.declared.value.JgValue.{JgValue};
ghost use Rattle.jg_c.specs.Operands as operands;

use crate::numbers::{BUFFER, CLASS, ID, LIST, NAME, NATIVE, NULL, NUMBER, WEAK, WIDE, WORD};
use crate::value::JgValue;
use jg_judge::Argument;
use jg_witness::Operand;

/// Whether it fits or is stated: 1 where it does, 0 where not.
fn flag_of(detail: u32) -> Option<bool>
    ensures { result ≡ operands.flag_of detail }
{
    match detail {
        0 => Some(false),
        1 => Some(true),
        _ => None,
    }
}

/// The number of a class or of a native method, or none where the setup states no such one.
fn stated_of(detail: u32, number: u64) -> Option<Option<u32>>
    ensures { result ≡ operands.stated_of detail number }
{
    if !flag_of(detail)? {
        return Some(None);
    }
    match u32::try_from(number) {
        Ok(number) => Some(Some(number)),
        Err(_) => None,
    }
}

#[inline(always)]
fn number_of(number: u64) -> Option<i32>
    ensures { result ≡ operands.number_of number }
{
    match i32::try_from(number.cast_signed()) {
        Ok(number) => Some(number),
        Err(_) => None,
    }
}

/// The operand that the value is, if it is one. A list of more than `most` items doesn't fit.
#[inline(always)]
pub(crate) fn operand_of(most: u64, value: JgValue) -> Option<Argument>
    ensures { result ≡ operands.operand_of most value }
{
    match value.kind {
        NULL..=WEAK => Some(Argument::Reference(value.reference()?)),
        BUFFER => Some(Argument::Buffer(value.buffer()?)),
        NUMBER => Some(Argument::Number(number_of(value.number)?)),
        WIDE => Some(Argument::Value(value.number.cast_signed())),
        ID => Some(Argument::Id {
            fits: flag_of(value.detail)?,
        }),
        CLASS => Some(Argument::Class(stated_of(value.detail, value.number)?)),
        NATIVE => Some(Argument::Native(stated_of(value.detail, value.number)?)),
        NAME => Some(Argument::Name),
        LIST => Some(Argument::List {
            count: value.number,
            fits: flag_of(value.detail)? && value.number <= most,
        }),
        _ => None,
    }
}

/// The operand of a question to a witness that the value is, if it is one: a word, or what a core takes.
#[inline(always)]
fn word_operand_of(most: u64, value: JgValue) -> Option<Operand>
    ensures { result ≡ operands.word_operand_of most value }
{
    if value.kind == WORD {
        return Some(Operand::Word(value.number));
    }
    Some(Operand::Other(operand_of(most, value)?))
}

/// What a value of a question is read as: an operand for a core, or for a witness.
pub(crate) trait Reading: Copy {
    ghost reading: { ℕ → JgValue → Option Self };

    /// Reads the value, if it is an operand. A list of more than `most` items doesn't fit.
    fn read(most: u64, value: JgValue) -> Option<Self>
        ensures { result ≡ reading most value };
}

impl Reading for Argument {
    ghost reading = { operands.operand_of };

    #[inline(always)]
    fn read(most: u64, value: JgValue) -> Option<Argument> {
        operand_of(most, value)
    }
}

impl Reading for Operand {
    ghost reading = { operands.word_operand_of };

    #[inline(always)]
    fn read(most: u64, value: JgValue) -> Option<Operand> {
        word_operand_of(most, value)
    }
}
