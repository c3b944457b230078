//! What the definitions promise, each as the contract of a function that does nothing.

ghost use Rattle.jg_judge.specs.Written.{CallsSuit, JudgedAsWritten};

/// The verdict on the question that a call is, under the written machine's bounds, is the verdict on the call.
pub fn judged_as_written()
    ensures { JudgedAsWritten }
{}

/// The operands of the question that a call is are those of its function.
pub fn calls_suit()
    ensures { CallsSuit }
{}
