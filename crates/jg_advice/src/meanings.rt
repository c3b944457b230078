//! What the definitions mean, as the contract of a function that does nothing.

ghost use Rattle.jg_advice.specs.Laws.{WithinThrowsNothing};

/// In the written machine no call throws whose part lies within what is known of its string or array.
pub fn within_throws_nothing()
    ensures { WithinThrowsNothing }
{}
