//! Numbers as decimal digits.

ghost use Rattle.std.specs.Prelude.{◌≡◌, ◌+◌, ◌<◌, ◌≤◌, ◌++◌, ◌∷◌, length, drop, OnOk, string_bytes};
ghost use Rattle.std.specs.Fmt.{decimal, signed_decimal};
ghost use Rattle.jg_text.specs.Words.{dotted_text};

use itoa::{Buffer, write_digits};
use std::alloc::AllocError;
use std::str;

/// Room for a letter, two numbers of 20 digits at most and the full stop between them.
const LETTERED: usize = 42;

/// Writes the number.
pub fn push_number(out: &mut String, n: u64) -> Result<(), AllocError>
    ensures { OnOk result (string_bytes out.new ≡ string_bytes out.old ++ decimal n) }
{
    let mut buffer = Buffer::new();
    out.push_str(buffer.format(n))
}

/// Writes the number, with a minus where it is below 0.
pub fn push_signed(out: &mut String, n: i64) -> Result<(), AllocError>
    ensures { OnOk result (string_bytes out.new ≡ string_bytes out.old ++ signed_decimal n) }
{
    let mut digits = Buffer::new();
    out.push_str(digits.format(n))
}

/// Puts the byte before the place, and tells where it stands.
pub fn put_before(buffer: &mut [u8], end: usize, byte: u8) -> usize
    requires { (0 < end) × (end ≤ length buffer.old) }
    ensures place { result + 1 ≡ end }
    ensures written { drop result buffer.new ≡ byte ∷ drop end buffer.old }
{
    let place = end - 1;
    buffer[place] = byte;
    place
}

/// Writes the number before the place, with a minus where it is below 0, and tells where it begins.
pub fn write_signed(buffer: &mut [u8], end: usize, n: i64) -> usize
    requires { (20 ≤ end) × (end ≤ length buffer.old) }
    ensures within { result ≤ end }
    ensures room { end ≤ result + 20 }
    ensures written { drop result buffer.new ≡ signed_decimal n ++ drop end buffer.old }
{
    let digits = write_digits(n.unsigned_abs(), buffer, end);
    if n < 0 {
        put_before(buffer, digits, b'-')
    } else {
        digits
    }
}

/// Writes the letter and two numbers with a full stop between them at the end of the buffer, and
/// tells where they begin.
fn write_lettered(buffer: &mut [u8; LETTERED], letter: u8, a: u64, b: u64) -> usize
    ensures within { result ≤ 42 }
    ensures written { drop result buffer.new ≡ letter ∷ dotted_text a b }
{
    let second = write_digits(b, buffer, LETTERED);
    let stop = put_before(buffer, second, b'.');
    let first = write_digits(a, buffer, stop);
    put_before(buffer, first, letter)
}

/// Writes the letter and two numbers with a full stop between them.
pub fn push_lettered(out: &mut String, letter: u8, a: u64, b: u64) -> Result<(), AllocError>
    requires { letter < 128 }
    ensures { OnOk result (string_bytes out.new ≡ string_bytes out.old ++ letter ∷ dotted_text a b) }
{
    let mut buffer = [0; LETTERED];
    let start = write_lettered(&mut buffer, letter, a, b);
    let (_, bytes) = buffer.split_at(start);
    // SAFETY: a letter, digits and a full stop, as the callee asks and `rt` checks.
    out.push_str(unsafe { str::from_utf8_unchecked(bytes) })
}
