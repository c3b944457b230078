//! What is so of all turns, whatever is asked, and of the turns of references. Each is the contract of
//! a function that does nothing.

ghost use Rattle.jg_breaches.specs.Laws.{EndsOnce, LatestTurned, MadeByItsAnswer, NeverTurned, TurnedOnce};

/// The latest turn is the entry that turned the answer last, and the earlier one the latest of those
/// before it.
pub fn latest_turned()
    ensures { LatestTurned }
{}

/// Without a turn the answer has ever been the same.
pub fn never_turned()
    ensures { NeverTurned }
{}

/// What turned once is not what it was at the beginning.
pub fn turned_once()
    ensures { TurnedOnce }
{}

/// The entry at which a reference comes to name something is the one that handed it out.
pub fn made_by_its_answer()
    ensures { MadeByItsAnswer }
{}

/// A reference ends once.
pub fn ends_once()
    ensures { EndsOnce }
{}
