//! What every legal history has, each as the contract of a function that does nothing. A guard's
//! journal can be any legal history within its limit, so each is a law of the guard.
#![tactic(auto)]

ghost use Rattle.jg_laws.specs.Laws.{ReferencesCounted, NoReferenceTwice, NoReferenceRevived, DeniedEntriesDoNothing, OneHistoryForTheCalls, DepthsAgree, FieldsAreStated, ClassesAreStated, EnteredWasLinked, OneOwner, StaysGone, LiveIsNotGone, BuffersFit, PinsAreLive, TouchesLive, TouchesNothingGone};

/// The number of a reference that was handed out is below the number of its maker's next one.
pub fn references_are_counted()
    ensures { ReferencesCounted }
{}

/// A reference that is handed out was not handed out before.
pub fn no_reference_twice()
    ensures { NoReferenceTwice }
{}

/// A reference that named an object, and then named nothing, never names an object again.
pub fn no_reference_revived()
    ensures { NoReferenceRevived }
{}

/// A legal history without its denied entries is legal.
pub fn denied_entries_do_nothing()
    ensures { DeniedEntriesDoNothing }
{}

/// For each list of threads, environments and calls there is exactly one legal history.
pub fn one_history_for_the_calls()
    ensures { OneHistoryForTheCalls }
{}

/// The tables of threads and of locals agree on who has a session, and on each thread's depth.
pub fn depths_agree()
    ensures { DepthsAgree }
{}

/// An object of a class of the setup has the fields that the setup states for the class.
pub fn fields_are_stated()
    ensures { FieldsAreStated }
{}

/// Each object is of a class that the setup states.
pub fn classes_are_stated()
    ensures { ClassesAreStated }
{}

/// A native method that was entered was linked then, and its class was not refused native access.
pub fn entered_was_linked()
    ensures { EnteredWasLinked }
{}

/// An object's monitor has one owner at the most.
pub fn one_owner()
    ensures { OneOwner }
{}

/// What went at a collection stays gone.
pub fn gone_stays_gone()
    ensures { StaysGone }
{}

/// An object that a live reference names isn't gone.
pub fn live_is_not_gone()
    ensures { LiveIsNotGone }
{}

/// An open buffer has as many items as its object, which is of the type that its function asks for.
pub fn buffers_fit()
    ensures { BuffersFit }
{}

/// The reference through which an open critical buffer was made names the buffer's object for the
/// thread that it was lent to.
pub fn pins_are_live()
    ensures { PinsAreLive }
{}

/// What a call that passed touches is named by a live reference: by an operand of the call, or by
/// the reference through which an open critical buffer of the same thread was made. To touch an
/// object is to name it by an operand, to write into it, to open a critical buffer of it, or to
/// release, read or write one that is open.
pub fn touches_are_live()
    ensures { TouchesLive }
{}

/// What went at a collection is touched by no call that passes.
pub fn nothing_gone_is_touched()
    ensures { TouchesNothingGone }
{}
