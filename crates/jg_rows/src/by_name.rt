//! The functions, found by the bytes of their names.

ghost use Rattle.std.specs.Prelude.{◌≡◌, ◌<◌, ◌≢◌, ℕ, IfSome, IfNone};
ghost use Rattle.std.specs.Str.{bytes_eq};
ghost use Rattle.jg_rows.specs.ByName.{IsByName, name_at, name_number};

use crate::table::row_of;

/// How far the slots of names are moved whose number has this remainder. So no two functions have one slot.
const SHIFTS: [u16; 64] = [
    3, 0, 55, 20, 64, 67, 0, 4, 5, 0, 9, 14, 54, 21, 91, 4, 11, 42, 16, 42, 38, 2, 138, 28, 3, 92,
    17, 2, 94, 0, 22, 45, 1, 0, 0, 5, 17, 49, 0, 0, 0, 13, 1, 21, 5, 45, 182, 149, 61, 7, 149, 0,
    39, 22, 5, 96, 1, 23, 22, 41, 42, 100, 36, 4,
];

/// The place in the table of the function that has this slot. Slots that none has say 0.
const PLACES: [u16; 256] = [
    159, 59, 241, 0, 105, 198, 0, 142, 122, 48, 119, 80, 141, 85, 57, 135, 209, 215, 34, 108, 165,
    157, 156, 235, 224, 0, 211, 239, 208, 69, 89, 200, 33, 87, 88, 160, 190, 114, 148, 212, 171,
    150, 60, 237, 82, 21, 40, 26, 183, 0, 83, 5, 151, 93, 45, 116, 192, 128, 101, 16, 173, 113,
    130, 25, 111, 20, 170, 223, 3, 158, 213, 169, 47, 197, 210, 92, 196, 52, 163, 129, 53, 51, 50,
    127, 1, 140, 14, 7, 30, 0, 174, 76, 161, 137, 186, 201, 154, 39, 146, 68, 100, 77, 234, 86, 22,
    102, 179, 0, 31, 29, 0, 221, 35, 91, 134, 67, 162, 195, 43, 205, 168, 153, 232, 222, 175, 147,
    117, 184, 62, 79, 55, 78, 18, 2, 112, 166, 12, 36, 145, 54, 194, 28, 75, 56, 191, 61, 230, 90,
    206, 4, 218, 10, 121, 104, 103, 144, 97, 13, 6, 139, 225, 8, 58, 23, 138, 123, 236, 193, 199,
    46, 220, 37, 233, 41, 131, 115, 126, 98, 27, 84, 207, 110, 149, 0, 72, 38, 229, 242, 178, 219,
    204, 0, 96, 238, 109, 217, 32, 203, 0, 188, 73, 94, 74, 17, 70, 9, 167, 106, 63, 19, 71, 227,
    0, 66, 120, 185, 132, 24, 49, 182, 177, 180, 99, 228, 214, 0, 176, 15, 44, 118, 42, 164, 152,
    81, 0, 107, 172, 133, 189, 240, 0, 231, 95, 202, 124, 187, 11, 216, 143, 181, 136, 65, 226,
    155, 125, 64,
];

/// The number of a name: its bytes, as digits to the base 51, below 65,536.
fn number_of(text: &[u8]) -> usize
    ensures is { result ≡ name_number 0 text.now }
    ensures within { result < 65536 }
{
    let mut number = 0;
    let mut rest = text;
    while let Some((byte, tail)) = rest.split_first() {
        number = (number * 51 + usize::from(*byte)) % 65_536;
        rest = tail;
    }
    number
}

/// The place that stands in the slot of the name.
fn place_in(shifts: &[u16; 64], places: &[u16; 256], text: &[u8]) -> u16
    requires table { IsByName shifts.now places.now }
    ensures { (place : ℕ) → place < 243 → name_at place ≡ text.now → result ≡ place }
{
    let number = number_of(text);
    let shift = usize::from(shifts[number % 64]);
    places[(number / 64 + shift) % 256]
}

/// Whether the function at this place has the name.
fn is_named(place: u16, text: &[u8]) -> bool
    ensures { result ≡ bytes_eq (name_at place) text.now }
{
    match row_of(usize::from(place)) {
        None => text.is_empty(),
        Some(row) => row.name.as_bytes() == text,
    }
}

/// The place in the table of the function whose name these bytes spell, if there is one.
pub fn place_of(text: &[u8]) -> Option<u16>
    ensures some { IfSome result (λ place. name_at place ≡ text.now) }
    ensures one { IfSome result (λ place. (other : ℕ) → other < 243 → name_at other ≡ text.now → place ≡ other) }
    ensures none { IfNone result ((place : ℕ) → place < 243 → name_at place ≢ text.now) }
{
    let place = place_in(&SHIFTS, &PLACES, text);
    if is_named(place, text) {
        Some(place)
    } else {
        None
    }
}
