//! How many calls passed, and how many each rule denied.

ghost use Rattle.std.specs.Prelude.{◌≡◌, ◌<◌, ◌+◌, slice_index_or, slice_set};

/// At 0 the calls that passed, and at each rule's number those that it denied.
pub(crate) type Tally = [u32; 18];

/// Counts one more at that number.
pub(crate) fn count(tally: &mut Tally, number: u8)
    requires number { number < 18 }
    requires fits { slice_index_or tally.old number 0 < 4294967295 }
    ensures { tally.new ≡ slice_set tally.old number (slice_index_or tally.old number 0 + 1) }
{
    tally[number as usize] += 1;
}
