//! What the definitions on global and weak references mean, each as the contract of a function that
//! does nothing.

ghost use Rattle.jg_table_globals.specs.Laws.{StrongMeans, WeakMeans, ClearedMeans, HoldsMeans, DeletedStaysDeleted, ClearedStaysCleared, NewNumberIsAbove};

/// A global reference is live, for an object, exactly where some event made it for that object and
/// none made or deleted it later.
pub fn strong_means()
    ensures { StrongMeans }
{}

/// A weak reference is live, for an object, exactly where some event made it for that object and
/// since then none made, deleted or cleared it; it is cleared exactly where its object was cleared
/// since.
pub fn weak_means()
    ensures live { WeakMeans }
    ensures cleared { ClearedMeans }
{}

/// An object is held by global references exactly where some global reference in being names it.
pub fn holds_means()
    ensures { HoldsMeans }
{}

/// Where no number is handed out twice, a reference that was deleted is never in being again.
pub fn deleted_stays_deleted()
    ensures { DeletedStaysDeleted }
{}

/// Where no number is handed out twice, a cleared weak reference never names an object again.
pub fn cleared_stays_cleared()
    ensures { ClearedStaysCleared }
{}

/// Who counts the numbers that a maker was given has what the making of a reference asks.
pub fn new_number_is_above()
    ensures { NewNumberIsAbove }
{}
