//! What the definitions on buffers mean, and what rows that stand tell, each as the contract of a function that does
//! nothing.

ghost use Rattle.jg_table_buffers.specs.Laws.{OpenMeans, WrittenMeans, UnwrittenMeans, CriticalMeans, PinnedMeans, PinnedObjectMeans, ClosedStaysClosed, NewNumberIsAbove};

/// A buffer is open exactly where some event opened it and none closed it later.
pub fn open_means()
    ensures { OpenMeans }
{}

/// An item of a copy is what was written there last, and the one at the making where none was.
pub fn content_means()
    ensures written { WrittenMeans }
    ensures unwritten { UnwrittenMeans }
{}

/// A thread is in a critical region exactly where some critical buffer that it was lent is open.
pub fn critical_means()
    ensures { CriticalMeans }
{}

/// A reference is pinned exactly where some critical buffer that was opened through it is open, an
/// object where some critical buffer of it is.
pub fn pinned_means()
    ensures reference { PinnedMeans }
    ensures object { PinnedObjectMeans }
{}

/// Where no number is handed out twice, a closed buffer is never open again.
pub fn closed_stays_closed()
    ensures { ClosedStaysClosed }
{}

/// Who counts the numbers that a thread's buffers were given has what the opening of a buffer asks.
pub fn new_number_is_above()
    ensures { NewNumberIsAbove }
{}
