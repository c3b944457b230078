//! What the definitions over a history mean. Each of these functions does nothing: its contract
//! is a law that callers may cite.

ghost use Rattle.jg_table_heap.specs.Laws.{HeldMeans, PointsMeans, ValuePasses, RegionWritten, RegionSpares, RegionKeeps, GoneMeans, StaysGone, ClassesStay, GoingMeans, LatestWrite, FirstValue, MadeAs, MadeStays, ClassesAre, RootsMean, GoingIsBounded, RowsMean, DecodedMeans, SpellingIsUnique};

/// An object is held exactly where it is a class object, a root holds it, or it stands in a slot
/// of an object that isn't gone.
pub fn held_means()
    ensures { HeldMeans }
{}

/// An object points at another exactly where some slot of it holds that one.
pub fn points_means()
    ensures { PointsMeans }
{}

/// An object is gone exactly where some collection found it made and not held.
pub fn gone_means()
    ensures { GoneMeans }
{}

/// What is gone stays gone.
pub fn gone_stays_gone()
    ensures { StaysGone }
{}

/// Class objects never go.
pub fn class_objects_stay()
    ensures { ClassesStay }
{}

/// Those that go at a collection are those that are gone after it and weren't before.
pub fn going_means()
    ensures { GoingMeans }
{}

/// A slot holds what the latest write wrote, and what it was made with before any. So it holds
/// what passes a test where its first value and all that was written into it do.
pub fn value_means()
    ensures latest { LatestWrite }
    ensures first { FirstValue }
    ensures passes { ValuePasses }
{}

/// The writing of a region writes each number into its slot, leaves the other slots, and makes and
/// ends no object.
pub fn region_means()
    ensures written { RegionWritten }
    ensures spares { RegionSpares }
    ensures keeps { RegionKeeps }
{}

/// What an object was made as is what its making says, and stays so over later events.
pub fn making_means()
    ensures made { MadeAs }
    ensures stays { MadeStays }
    ensures classes { ClassesAre }
{}

/// The list of the objects that a test holds has exactly those.
pub fn roots_mean()
    ensures { RootsMean }
{}

/// No more objects go at a collection than there are.
pub fn going_is_bounded()
    ensures { GoingIsBounded }
{}

/// What rows that stand for a history say of it: how many objects there are, and the class and
/// the length of each.
pub fn rows_mean()
    ensures { RowsMean }
{}

/// The definition of modified UTF-8 that computes finds exactly the units that the items spell.
pub fn decoded_means()
    ensures { DecodedMeans }
{}

/// Bytes spell one list of units alone.
pub fn spelling_is_unique()
    ensures { SpellingIsUnique }
{}
