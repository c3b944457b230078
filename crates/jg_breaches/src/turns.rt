//! At which entries of a journal a condition turned.

ghost use Rattle.std.specs.Prelude.{◌≡◌};
ghost use Rattle.jg_breaches.specs.Turns.{turned, same};

/// The place of the latest entry at which a condition came to hold or to hold no more, and of the one at
/// which it turned before that, if it did. An entry's place is the number of entries before it.
#[derive(Clone, Copy, PartialEq, Eq)]
pub struct Turns {
    pub latest: Option<usize>,
    pub earlier: Option<usize>,
}

/// One entry more, at that place, before and after which the condition held or not.
pub fn turn(turns: Turns, was: bool, is: bool, place: usize) -> Turns
    ensures { result ≡ turned (same was is) place turns }
{
    if was == is {
        turns
    } else {
        Turns {
            latest: Some(place),
            earlier: turns.latest,
        }
    }
}
