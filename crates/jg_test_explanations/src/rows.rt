//! Worked rows: short histories in which one call is denied, with the rule, in which way the call broke it,
//! and at which entries that came to be so. Each is the contract of a function that does nothing.

ghost use Rattle.jg_test_explanations.specs.Rows as rows;

/// Another thread's environment.
pub fn anothers_environment()
    ensures { rows.anothers_environment }
{}

/// A thread that was never attached.
pub fn never_attached()
    ensures { rows.never_attached }
{}

/// One that was detached.
pub fn detached()
    ensures { rows.detached }
{}

/// A critical region: of two critical buffers the one that is open still.
pub fn in_region()
    ensures { rows.in_region }
{}

/// A pending exception.
pub fn thrown()
    ensures { rows.thrown }
{}

/// Another thread's local reference.
pub fn anothers_local()
    ensures { rows.anothers_local }
{}

/// A local reference that was deleted.
pub fn deleted()
    ensures { rows.deleted }
{}

/// One whose frame was popped.
pub fn popped()
    ensures { rows.popped }
{}

/// One that was never made.
pub fn never_made()
    ensures { rows.never_made }
{}

/// One of a session that ended.
pub fn session_ended()
    ensures { rows.session_ended }
{}

/// A global reference where a local one is deleted.
pub fn other_kind()
    ensures { rows.other_kind }
{}

/// Null.
pub fn null()
    ensures { rows.null }
{}

/// A weak reference that a collection cleared.
pub fn cleared()
    ensures { rows.cleared }
{}

/// An array where a string is wanted.
pub fn other_type()
    ensures { rows.other_type }
{}

/// A field of another class.
pub fn other_class()
    ensures { rows.other_class }
{}

/// A buffer that was released.
pub fn released()
    ensures { rows.released }
{}

/// A capacity below 0.
pub fn out_of_range()
    ensures { rows.out_of_range }
{}

/// A reference with an open critical buffer.
pub fn pinned()
    ensures { rows.pinned }
{}

/// A monitor that another thread owns.
pub fn owned()
    ensures { rows.owned }
{}

/// A monitor that nobody owns any more.
pub fn exited()
    ensures { rows.exited }
{}

/// A frame that was popped before.
pub fn popped_twice()
    ensures { rows.popped_twice }
{}

/// A library that a class of a module loads to which nothing is granted.
pub fn refused()
    ensures { rows.refused }
{}

/// A native method that was unlinked.
pub fn unlinked()
    ensures { rows.unlinked }
{}
