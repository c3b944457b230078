//! Decimal numbers in their one spelling: no leading zero, no plus, and no minus before 0.

ghost use Rattle.std.specs.Prelude.{◌≡◌, ◌≢◌, ℕ, ℤ, ◌<◌, ◌≤◌, ◌^◌, ◌++◌, ◌∷◌, ◌==◌, false, IfSome, IfNone, All, FitsSigned, IsTrue, ◌↔◌, MatchOption, length, slice_index, count_by};
ghost use Rattle.std.specs.Int.{w32, w64};
ghost use Rattle.std.specs.Fmt.{decimal, signed_decimal};
ghost use Rattle.jg_text.specs.Words.{dotted_text};
ghost use Rattle.jg_text.specs.Pieces.{IsPlain};

use memchr::memchr;
use std::str;

/// Neither a plus stands in front nor a leading zero.
fn is_plain(text: &[u8]) -> bool
    ensures { IsTrue result ↔ IsPlain text.now }
{
    text.is_empty() || text[0] != b'+' && (text[0] != b'0' || text.len() == 1)
}

/// The number in front, of at most 18 digits, and what stands behind it.
#[inline(always)]
pub fn leading(text: &[u8]) -> Option<(u64, &[u8])>
    ensures spelt { IfSome result (λ r. text.now ≡ decimal r.0 ++ r.1.now) }
    ensures short { IfSome result (λ r. r.0 < 10 ^ 18) }
{
    let mut n = 0;
    let mut count = 0;
    while count < text.len() && count < 18 && b'0' <= text[count] && text[count] <= b'9' {
        n = n * 10 + u64::from(text[count] - b'0');
        count += 1;
    }
    let (digits, rest) = text.split_at(count);
    if digits.is_empty() || !is_plain(digits) {
        return None;
    }
    Some((n, rest))
}

/// The number of at most 64 bits that a text of any length spells.
fn long_number(text: &[u8]) -> Option<u64>
    ensures some { IfSome result (λ n. text.now ≡ decimal n) }
    ensures fits { IfSome result (λ n. n < 2 ^ 64) }
    ensures none { IfNone result ((n : ℕ) → n < 2 ^ 64 → text.now ≢ decimal n) }
{
    if !is_plain(text) {
        return None;
    }
    let Ok(text) = str::from_utf8(text) else {
        return None;
    };
    match text.parse::<u64>() {
        Ok(n) => Some(n),
        Err(_) => None,
    }
}

/// The number of at most 64 bits that the text spells.
pub fn read_number(text: &[u8]) -> Option<u64>
    ensures some { IfSome result (λ n. text.now ≡ decimal n) }
    ensures fits { IfSome result (λ n. n < 2 ^ 64) }
    ensures none { IfNone result ((n : ℕ) → n < 2 ^ 64 → text.now ≢ decimal n) }
{
    match leading(text) {
        Some((n, [])) => Some(n),
        _ => long_number(text),
    }
}

/// The number of at most 16 bits that the text spells.
pub fn small_number(text: &[u8]) -> Option<u16>
    ensures some { IfSome result (λ n. text.now ≡ decimal n) }
    ensures none { IfNone result ((n : ℕ) → n < 2 ^ 16 → text.now ≢ decimal n) }
{
    match read_number(text) {
        Some(n) if n < 0x1_0000 => Some(n as u16),
        _ => None,
    }
}

/// How often the byte stands in a text so short that a byte holds the count, which goes over many
/// bytes at once.
fn count_short(byte: u8, text: &[u8]) -> u8
    requires { length text.now ≤ 255 }
    ensures { result ≡ count_by (λ b. b == byte) text.now }
{
    let mut count = 0;
    for i in 0..text.len() {
        if text[i] == byte {
            count += 1;
        }
    }
    count
}

/// How often the byte stands in the text.
pub fn count_of(byte: u8, text: &[u8]) -> usize
    ensures counted { result ≡ count_by (λ b. b == byte) text.now }
    ensures few { result ≤ length text.now }
{
    let mut count = 0;
    let mut rest = text;
    while !rest.is_empty() {
        let (front, back) = rest.split_at(rest.len().min(255));
        count += usize::from(count_short(byte, front));
        rest = back;
    }
    count
}

/// What stands before the first such byte, and what stands after it.
pub fn cut_at(byte: u8, text: &[u8]) -> Option<(&[u8], &[u8])>
    ensures some { IfSome result (λ parts. (text.now ≡ parts.0.now ++ byte ∷ parts.1.now)
        × All (λ b. (b == byte) ≡ false) parts.0.now) }
    ensures none { IfNone result (All (λ b. (b == byte) ≡ false) text.now) }
{
    let i = memchr(byte, text)?;
    Some((&text[..i], &text[i + 1..]))
}

/// The two numbers in front, of at most 18 digits, with a full stop between them, and what stands
/// behind them.
#[inline(always)]
pub fn leading_dotted(text: &[u8]) -> Option<(u64, u64, &[u8])>
    ensures spelt { IfSome result (λ r. text.now ≡ dotted_text r.0 r.1 ++ r.2.now) }
    ensures fits { IfSome result (λ r. (r.0 < 2 ^ 64) × (r.1 < 2 ^ 64)) }
{
    let (a, [b'.', back @ ..]) = leading(text)? else {
        return None;
    };
    let (b, rest) = leading(back)?;
    Some((a, b, rest))
}

/// The two numbers of at most 18 digits that the text spells, with a full stop between them.
#[inline(always)]
fn two_short_numbers(text: &[u8]) -> Option<(u64, u64)>
    ensures some { IfSome result (λ r. text.now ≡ dotted_text r.0 r.1) }
    ensures fits { IfSome result (λ r. (r.0 < 2 ^ 64) × (r.1 < 2 ^ 64)) }
{
    match leading_dotted(text)? {
        (a, b, []) => Some((a, b)),
        _ => None,
    }
}

/// The two numbers that the text spells, of 64 bits at most, with a full stop between them.
fn two_long_numbers(text: &[u8]) -> Option<(u64, u64)>
    ensures some { IfSome result (λ r. text.now ≡ dotted_text r.0 r.1) }
    ensures fits { IfSome result (λ r. (r.0 < 2 ^ 64) × (r.1 < 2 ^ 64)) }
    ensures none { IfNone result ((a b : ℕ) → a < 2 ^ 64 → b < 2 ^ 64 → text.now ≢ dotted_text a b) }
{
    let Some((front, back)) = cut_at(b'.', text) else {
        return None;
    };
    let Some(a) = read_number(front) else {
        return None;
    };
    match read_number(back) {
        Some(b) => Some((a, b)),
        None => None,
    }
}

/// The two numbers that the text spells, of 64 bits at most, with a full stop between them.
#[inline(always)]
fn two_numbers(text: &[u8]) -> Option<(u64, u64)>
    ensures some { IfSome result (λ r. text.now ≡ dotted_text r.0 r.1) }
    ensures fits { IfSome result (λ r. (r.0 < 2 ^ 64) × (r.1 < 2 ^ 64)) }
    ensures none { IfNone result ((a b : ℕ) → a < 2 ^ 64 → b < 2 ^ 64 → text.now ≢ dotted_text a b) }
{
    match two_short_numbers(text) {
        Some(numbers) => Some(numbers),
        None => two_long_numbers(text),
    }
}

/// The two numbers that the text spells, of 16 and 64 bits at most, with a full stop between them.
#[inline(always)]
pub fn dotted(text: &[u8]) -> Option<(u16, u64)>
    ensures some { IfSome result (λ r. text.now ≡ dotted_text r.0 r.1) }
    ensures none { IfNone result ((a b : ℕ) → a < 2 ^ 16 → b < 2 ^ 64 → text.now ≢ dotted_text a b) }
{
    match two_numbers(text) {
        Some((a, b)) if a < 0x1_0000 => Some((a as u16, b)),
        _ => None,
    }
}

/// The two numbers that the text spells, of 32 bits at most, with a full stop between them.
pub fn small_dotted(text: &[u8]) -> Option<(u32, u32)>
    ensures some { IfSome result (λ r. text.now ≡ dotted_text r.0 r.1) }
    ensures none { IfNone result ((a b : ℕ) → a < 2 ^ 32 → b < 2 ^ 32 → text.now ≢ dotted_text a b) }
{
    match two_numbers(text) {
        Some((a, b)) if a < 0x1_0000_0000 && b < 0x1_0000_0000 => Some((a as u32, b as u32)),
        _ => None,
    }
}

/// What stands behind a minus in front, where there is one.
fn behind_minus(text: &[u8]) -> Option<&[u8]>
    ensures { MatchOption result (¬ ((0 < length text.now) × (slice_index text.now 0 ≡ 45)))
        (λ back. text.now ≡ 45 ∷ back.now) }
{
    match text {
        [b'-', back @ ..] => Some(back),
        _ => None,
    }
}

/// The number in front, of at most 18 digits, with a minus where it is below 0, and what stands
/// behind it.
pub fn leading_signed(text: &[u8]) -> Option<(i64, &[u8])>
    ensures spelt { IfSome result (λ r. text.now ≡ signed_decimal r.0 ++ r.1.now) }
    ensures fits { IfSome result (λ r. FitsSigned w64 r.0) }
{
    match behind_minus(text) {
        Some(back) => match leading(back)? {
            (0, _) => None,
            (n, rest) => Some((-(n as i64), rest)),
        },
        None => {
            let (n, rest) = leading(text)?;
            Some((n as i64, rest))
        }
    }
}

/// The number of 64 bits that the text spells, with a minus where it is below 0.
pub fn signed_number(text: &[u8]) -> Option<i64>
    ensures some { IfSome result (λ z. text.now ≡ signed_decimal z) }
    ensures fits { IfSome result (λ z. FitsSigned w64 z) }
    ensures none { IfNone result ((z : ℤ) → FitsSigned w64 z → text.now ≢ signed_decimal z) }
{
    match behind_minus(text) {
        Some(back) => negative(back),
        None => match read_number(text) {
            Some(n) if n < 0x8000_0000_0000_0000 => Some(n as i64),
            _ => None,
        },
    }
}

/// The number below 0 whose spelling behind the minus is the text.
fn negative(text: &[u8]) -> Option<i64>
    ensures some { IfSome result (λ z. 45 ∷ text.now ≡ signed_decimal z) }
    ensures fits { IfSome result (λ z. FitsSigned w64 z) }
    ensures none { IfNone result ((z : ℤ) → FitsSigned w64 z → 45 ∷ text.now ≢ signed_decimal z) }
{
    match read_number(text) {
        Some(n) if n == 0x8000_0000_0000_0000 => Some(i64::MIN),
        Some(n) if n != 0 && n < 0x8000_0000_0000_0000 => Some(-(n as i64)),
        _ => None,
    }
}

/// The number of 32 bits that the text spells, with a minus where it is below 0.
pub fn small_signed_number(text: &[u8]) -> Option<i32>
    ensures some { IfSome result (λ z. text.now ≡ signed_decimal z) }
    ensures none { IfNone result ((z : ℤ) → FitsSigned w32 z → text.now ≢ signed_decimal z) }
{
    match signed_number(text) {
        Some(z) if -0x8000_0000 <= z && z <= 0x7fff_ffff => Some(z as i32),
        _ => None,
    }
}
