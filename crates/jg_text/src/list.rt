//! Lists of numbers, which take memory.

ghost use Rattle.std.specs.Prelude.{◌≡◌, ◌≤◌, ◌++◌, ◌∷◌, ◌==◌, [], length, map, drop, IfOk, IfErr, IfSome, IfNone, OnOk, MatchOption, All, FitsSigned, string_bytes};
ghost use Rattle.std.specs.List.{slice_split, join_with_byte};
ghost use Rattle.std.specs.Option.{option_copied};
ghost use Rattle.std.specs.Int.{w64};
ghost use Rattle.std.specs.Fmt.{signed_decimal};
ghost use Rattle.jg_text.specs.Words.{items_text, FitsItems};
ghost use Rattle.jg_text.specs.Kinds.{Numbers};
ghost use Rattle.jg_text.specs.Pieces.{IsKindFault, IsBadNumber, IsBracketed, IsFirstNumber, StartsNoNumber, after_commas};

use crate::digits::{push_signed, put_before, write_signed};
use crate::fault::ScriptFault;
use crate::number::{count_of, cut_at, leading_signed, signed_number};
use jg_words::Items;
use std::alloc::{AllocError, Global};
use std::str;

/// Room for 12 items of 21 bytes at most, which are written to the list's text at once.
const BLOCK: usize = 256;

/// What stands between `[` and `]`.
pub(crate) fn inside(text: &[u8]) -> Option<&[u8]>
    ensures { MatchOption result (¬ IsBracketed text.now) (λ inner. text.now ≡ 91 ∷ inner.now ++ 93 ∷ []) }
{
    match text {
        [b'[', inner @ .., b']'] => Some(inner),
        _ => None,
    }
}

/// The first of the numbers between commas, and what stands behind its comma.
fn first_long_number(text: &[u8]) -> Option<(i64, Option<&[u8]>)>
    ensures some { IfSome result (λ r. IsFirstNumber text.now r.0 (option_copied r.1)) }
    ensures none { IfNone result (StartsNoNumber text.now) }
{
    match cut_at(b',', text) {
        Some((front, back)) => match signed_number(front) {
            Some(n) => Some((n, Some(back))),
            None => None,
        },
        None => match signed_number(text) {
            Some(n) => Some((n, None)),
            None => None,
        },
    }
}

/// The same, in one pass where the number is short.
pub(crate) fn first_number(text: &[u8]) -> Option<(i64, Option<&[u8]>)>
    ensures some { IfSome result (λ r. IsFirstNumber text.now r.0 (option_copied r.1)) }
    ensures none { IfNone result (StartsNoNumber text.now) }
{
    let Some((n, rest)) = leading_signed(text) else {
        return first_long_number(text);
    };
    match rest {
        [] => Some((n, None)),
        [b',', back @ ..] => Some((n, Some(back))),
        _ => first_long_number(text),
    }
}

/// The numbers between the commas of a text that isn't empty.
fn read_numbers(alloc: Global, text: &[u8]) -> Result<Vec<i64>, ScriptFault>
    ensures ok { IfOk result (λ items. (slice_split (λ b. b == 44) text.now ≡ map signed_decimal items.items)
        × All (λ z. FitsSigned w64 z) items.items) }
    ensures err { IfErr result (IsBadNumber (slice_split (λ b. b == 44) text.now)) }
{
    let Ok(mut items) = Vec::with_capacity(alloc, count_of(b',', text) + 1) else {
        return Err(ScriptFault::NoMemory);
    };
    let mut left = Some(text);
    while let Some(rest) = left {
        let Some((item, behind)) = first_number(rest) else {
            return Err(ScriptFault::BadOperand);
        };
        let Ok(()) = items.push(item) else {
            return Err(ScriptFault::NoMemory);
        };
        left = behind;
    }
    Ok(items)
}

/// The list that the text spells.
pub fn read_items(alloc: Global, text: &[u8]) -> Result<Items, ScriptFault>
    ensures ok { IfOk result (λ items. (text.now ≡ items_text items) × FitsItems items) }
    ensures err { IfErr result (IsKindFault Numbers text.now) }
{
    let Some(inner) = inside(text) else {
        return Err(ScriptFault::BadOperand);
    };
    if inner.is_empty() {
        return match Items::new(Vec::new(alloc)) {
            Ok(items) => Ok(items),
            Err(_) => Err(ScriptFault::BadOperand),
        };
    }
    let numbers = match read_numbers(alloc, inner) {
        Ok(numbers) => numbers,
        Err(fault) => return Err(fault),
    };
    match Items::new(numbers) {
        Ok(items) => Ok(items),
        Err(_) => Err(ScriptFault::BadOperand),
    }
}

/// Writes the items at the end of the buffer, each after a comma, and tells where they begin.
fn write_items(buffer: &mut [u8; BLOCK], items: &[i64]) -> usize
    requires { length items.now ≤ 12 }
    ensures within { result ≤ 256 }
    ensures written { drop result buffer.new ≡ after_commas items.now }
    ensures fits { All (λ z. FitsSigned w64 z) items.now }
{
    let mut start = BLOCK;
    let mut left = items.len();
    while left > 0 {
        left -= 1;
        let item = write_signed(buffer, start, items[left]);
        start = put_before(buffer, item, b',');
    }
    start
}

/// Writes the items, each after a comma.
fn push_block(out: &mut String, buffer: &mut [u8; BLOCK], items: &[i64]) -> Result<(), AllocError>
    requires { length items.now ≤ 12 }
    ensures written { OnOk result (string_bytes out.new ≡ string_bytes out.old ++ after_commas items.now) }
    ensures fits { All (λ z. FitsSigned w64 z) items.now }
{
    let start = write_items(buffer, items);
    let (_, bytes) = buffer.split_at(start);
    // SAFETY: commas, digits and minus signs, as the callee asks and `rt` checks.
    out.push_str(unsafe { str::from_utf8_unchecked(bytes) })
}

/// Writes the items, each after a comma.
fn push_after_commas(out: &mut String, items: &[i64]) -> Result<(), AllocError>
    ensures written { OnOk result (string_bytes out.new ≡ string_bytes out.old ++ after_commas items.now) }
    ensures fits { OnOk result (All (λ z. FitsSigned w64 z) items.now) }
{
    let mut buffer = [0; BLOCK];
    let mut rest = items;
    while !rest.is_empty() {
        let (block, more) = rest.split_at(rest.len().min(12));
        push_block(out, &mut buffer, block)?;
        rest = more;
    }
    Ok(())
}

/// Writes the items with commas between them.
fn push_inside(out: &mut String, items: &[i64]) -> Result<(), AllocError>
    ensures written { OnOk result (string_bytes out.new
        ≡ string_bytes out.old ++ join_with_byte 44 (map signed_decimal items.now)) }
    ensures fits { OnOk result (All (λ z. FitsSigned w64 z) items.now) }
{
    match items {
        [first, rest @ ..] => {
            push_signed(out, *first)?;
            push_after_commas(out, rest)?;
            Ok(())
        }
        _ => Ok(()),
    }
}

/// Writes the list's spelling.
pub fn push_items(out: &mut String, items: &[i64]) -> Result<(), AllocError>
    ensures written { OnOk result (string_bytes out.new ≡ string_bytes out.old ++ items_text items.now) }
    ensures fits { OnOk result (All (λ z. FitsSigned w64 z) items.now) }
{
    out.push('[')?;
    push_inside(out, items)?;
    out.push(']')
}
