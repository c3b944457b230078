//! What holds whatever a machine told, each as the contract of a function that does nothing.

ghost use Rattle.jg_core.specs.Asking.{AskedAsCalls, ToldAsCalls};
ghost use Rattle.jg_core.specs.Laws.{ClassesStated, GoneStaysGone, HeldIsHere, LiveIsHere, NoReferenceRevived, NoReferenceTwice, OneOwner, ReferencesCounted};

/// The number of a reference that was handed out is below the number of its thread's next one.
pub fn references_are_counted()
    ensures { ReferencesCounted }
{}

/// A reference that is handed out was not handed out before.
pub fn no_reference_twice()
    ensures { NoReferenceTwice }
{}

/// A reference that named an object, and then named nothing, never names an object again.
pub fn no_reference_revived()
    ensures { NoReferenceRevived }
{}

/// An object's monitor has one owner at the most.
pub fn one_owner()
    ensures { OneOwner }
{}

/// An object that a live reference names is there.
pub fn live_is_here()
    ensures { LiveIsHere }
{}

/// An object that a live strong reference, a pending exception, a critical buffer or a monitor's owner holds is there.
pub fn held_is_here()
    ensures { HeldIsHere }
{}

/// An object that is gone stays gone.
pub fn gone_stays_gone()
    ensures { GoneStaysGone }
{}

/// Where each object that was met is of a class of the setup, each object is, as questions of the 95 calls want it.
pub fn classes_are_stated()
    ensures { ClassesStated }
{}

/// What is told of a call's question that returned is what the call implies.
pub fn questions_are_told_as_calls()
    ensures { ToldAsCalls }
{}

/// A call's question is answered by the verdict on the call.
pub fn questions_are_judged_as_calls()
    ensures { AskedAsCalls }
{}
