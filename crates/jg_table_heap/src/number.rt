//! The number that an operand gives.

ghost use Rattle.std.specs.Prelude.{◌≡◌};
ghost use Rattle.jg_table_heap.specs.Reading as reading;

/// The number, 0 below 0: a length, an index, a room or a mode, once judged.
pub fn natural(number: i32) -> u32
    ensures { result ≡ reading.natural number }
{
    if number < 0 { 0 } else { number as u32 }
}
