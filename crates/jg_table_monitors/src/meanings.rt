//! What the definitions on monitors mean, each as the contract of a function that does nothing.

ghost use Rattle.jg_table_monitors.specs.Laws.{OneOwner, OwnerMeans, HeldMeans, CountMeans, SinceMeans, RowsTell, CountIsBounded};

/// In every history of a table an object has at most one owner.
pub fn one_owner()
    ensures { OneOwner }
{}

/// In every history of a table the owner is the thread whose count is above 0.
pub fn owner_means()
    ensures { OwnerMeans }
{}

/// A monitor is held exactly where some thread entered it more often than it exited it.
pub fn held_means()
    ensures { HeldMeans }
{}

/// In every history of a table a count is the entries minus the exits since the thread last
/// released all.
pub fn count_means()
    ensures { CountMeans }
{}

/// What a thread did since it last released all: nothing after its newest release is left out, and
/// nothing before it counts.
pub fn since_means()
    ensures { SinceMeans }
{}

/// Who knows the events knows the owner and the count that the conditions of entering and exiting
/// speak of.
pub fn rows_tell()
    ensures { RowsTell }
{}

/// A count is at most the number of events, so who bounds these bounds the counts.
pub fn count_is_bounded()
    ensures { CountIsBounded }
{}
