//! Where in a line its fault stands.

ghost use Rattle.std.specs.Prelude.{◌≡◌, ◌≢◌, ◌<◌, ◌≤◌, ◌^◌, ◌==◌, ◌+◌, length, map, take, drop, slice_get, Some, IfSome, IfNone, IsTrue, ◌↔◌};
ghost use Rattle.std.specs.List.{slice_split};
ghost use Rattle.std.specs.Option.{option_copied};
ghost use Rattle.std.specs.Int.{IsInRange};
ghost use Rattle.jg_words.specs.Name.{IsName};
ghost use Rattle.jg_words.specs.Fun.{name_of};
ghost use Rattle.jg_words.specs.declared.fun.Fun.{Fun as FunOf};
ghost use Rattle.jg_text.specs.Kinds.{Numbers};
ghost use Rattle.jg_text.specs.Words.{SpellsOperand, SpellOperands};
ghost use Rattle.jg_text.specs.Faults.{fields, HasFault};
ghost use Rattle.jg_text.specs.declared.fault.ScriptFault.TheVariants.{NotAscii, WrongCount, BadOperand};
ghost use Rattle.jg_text.specs.Pieces.{rest_fields, AreNumbers};
ghost use Rattle.jg_text.specs.Places as places;
ghost use Rattle.jg_text.specs.Places.{kind_meant, before_field, IsBeforeOdd, IsFirstBad, StandsAt, HasNoPlace};

use crate::begun::cut_fields;
use crate::fault::ScriptFault;
use crate::list::{first_number, inside};
use crate::number::{count_of, signed_number, small_signed_number};
use crate::operand::{cut, next_field};
use crate::takes::{OperandKind, operands_of};
use crate::word::{read_buf, read_field, read_ref};
use jg_words::{Fun, MAX_ITEMS, MAX_NAME};

/// A place in a line.
#[derive(Clone, Copy)]
pub struct Place {
    /// The number of the field, from 1.
    pub field: usize,
    /// The number of the byte in the line, from 1: behind the last field, that of the byte with which
    /// one more would begin.
    pub column: usize,
}

/// How many bytes stand before the field behind so many, or before the place where it would begin.
fn bytes_before(line: &[u8], before: usize) -> usize
    ensures counted { result ≡ length (before_field line.now before) }
    ensures few { result ≤ length line.now + 1 }
{
    if before == 0 {
        return 0;
    }
    match cut_fields(line, before) {
        Some((front, _)) => front.len() + 1,
        None => line.len() + 1,
    }
}

/// The place of the field behind so many.
fn field_place(line: &[u8], before: usize) -> Place
    requires { before + 1 < 2 ^ 64 }
    ensures { result ≡ places.field_place line.now before }
{
    Place {
        field: before + 1,
        column: bytes_before(line, before) + 1,
    }
}

/// The byte is from 0x20 to 0x7E.
fn is_visible(byte: u8) -> bool
    ensures { IsTrue result ↔ IsInRange 32 126 byte }
{
    0x20 <= byte && byte <= 0x7e
}

/// How many bytes stand before the first that isn't from 0x20 to 0x7E, where there is one.
fn before_odd(line: &[u8]) -> usize
    ensures within { result ≤ length line.now }
    ensures odd { HasFault NotAscii line.now → IsBeforeOdd line.now (take result line.now) }
{
    for i in 0..line.len() {
        if !is_visible(line[i]) {
            return i;
        }
    }
    line.len()
}

/// The place of the first byte that isn't from 0x20 to 0x7E.
fn odd_place(line: &[u8]) -> Place
    ensures { StandsAt NotAscii line.now result }
{
    let (before, _) = line.split_at(before_odd(line));
    Place {
        field: count_of(b' ', before) + 1,
        column: before.len() + 1,
    }
}

/// The function that the third field names, and what stands behind it.
fn named_function(line: &[u8]) -> Option<(Fun, Option<&[u8]>)>
    ensures name { IfSome result (λ r. slice_get (fields line.now) 2 ≡ Some (name_of r.0)) }
    ensures rest { IfSome result (λ r. drop 3 (fields line.now) ≡ rest_fields (option_copied r.1)) }
    ensures none { IfNone result ((f : FunOf) → slice_get (fields line.now) 2 ≢ Some (name_of f)) }
{
    let (_, rest) = cut(line);
    let (_, rest) = cut(rest?);
    let (name, rest) = cut(rest?);
    let fun = Fun::of_bytes(name)?;
    Some((fun, rest))
}

/// The function that the third field of the line names, whatever stands in the others.
pub fn function_of(line: &[u8]) -> Option<Fun>
    ensures some { IfSome result (λ f. slice_get (fields line.now) 2 ≡ Some (name_of f)) }
    ensures none { IfNone result ((f : FunOf) → slice_get (fields line.now) 2 ≢ Some (name_of f)) }
{
    let (fun, _) = named_function(line)?;
    Some(fun)
}

/// The place of the first field that the function doesn't take, or of the first that it lacks.
fn count_place(line: &[u8]) -> Place
    ensures { StandsAt WrongCount line.now result }
{
    let Some(fun) = function_of(line) else {
        return field_place(line, 2);
    };
    field_place(
        line,
        (count_of(b' ', line) + 1).min(operands_of(fun).len() + 3),
    )
}

/// The numbers between the commas of a text that isn't empty are numbers of 64 bits.
fn are_numbers(text: &[u8]) -> bool
    ensures { IsTrue result ↔ AreNumbers (slice_split (λ b. b == 44) text.now) }
{
    let mut left = Some(text);
    while let Some(rest) = left {
        let Some((_, behind)) = first_number(rest) else {
            return false;
        };
        left = behind;
    }
    true
}

/// The text spells a list.
fn is_items(text: &[u8]) -> bool
    ensures { IsTrue result ↔ SpellsOperand Numbers text.now }
{
    let Some(inner) = inside(text) else {
        return false;
    };
    if inner.is_empty() {
        return true;
    }
    if count_of(b',', inner) >= MAX_ITEMS {
        return false;
    }
    are_numbers(inner)
}

/// The text is a name.
fn is_name(text: &[u8]) -> bool
    ensures { IsTrue result ↔ IsName text.now }
{
    text.len() >= 1 && text.len() <= MAX_NAME && text.iter().all(|b| *b >= 0x21 && *b <= 0x7e)
}

/// The text spells an operand of the kind.
fn is_spelt(kind: OperandKind, text: &[u8]) -> bool
    ensures { IsTrue result ↔ SpellsOperand (kind_meant kind) text.now }
{
    match kind {
        OperandKind::Reference => read_ref(text).is_some(),
        OperandKind::Number => small_signed_number(text).is_some(),
        OperandKind::LongNumber => signed_number(text).is_some(),
        OperandKind::Numbers => is_items(text),
        OperandKind::Name => is_name(text),
        OperandKind::Field => read_field(text).is_some(),
        OperandKind::Buffer => read_buf(text).is_some(),
    }
}

/// How many of the fields left spell operands of these kinds, up to the first that doesn't.
fn first_bad(kinds: &[OperandKind], rest: Option<&[u8]>) -> usize
    ensures few { result ≤ length kinds.now }
    ensures bad { length (rest_fields (option_copied rest.entry)) ≡ length kinds.now
        → ¬ SpellOperands (map kind_meant kinds.now) (rest_fields (option_copied rest.entry))
        → IsFirstBad (map kind_meant kinds.now) (rest_fields (option_copied rest.entry)) result }
{
    let [kind, kinds @ ..] = kinds else {
        return 0;
    };
    let Some((text, rest)) = next_field(rest) else {
        return 0;
    };
    if is_spelt(*kind, text) {
        first_bad(kinds, rest) + 1
    } else {
        0
    }
}

/// The place of the first operand that is none of the kind that stands there.
fn operand_place(line: &[u8]) -> Place
    ensures { StandsAt BadOperand line.now result }
{
    let Some((fun, rest)) = named_function(line) else {
        return field_place(line, 2);
    };
    field_place(line, first_bad(operands_of(fun), rest) + 3)
}

/// Where in the line the fault stands. A line that is too long and want of memory have no place. Of a
/// line that hasn't the fault it may be any place.
pub fn place_of(line: &[u8], fault: ScriptFault) -> Option<Place>
    ensures some { IfSome result (StandsAt fault line.now) }
    ensures none { IfNone result (HasNoPlace fault) }
{
    match fault {
        ScriptFault::LineTooLong | ScriptFault::NoMemory => None,
        ScriptFault::NotAscii => Some(odd_place(line)),
        ScriptFault::NoThread | ScriptFault::TooManyThreads => Some(field_place(line, 0)),
        ScriptFault::NoEnv => Some(field_place(line, 1)),
        ScriptFault::UnknownFunction => Some(field_place(line, 2)),
        ScriptFault::WrongCount => Some(count_place(line)),
        ScriptFault::BadOperand => Some(operand_place(line)),
    }
}
