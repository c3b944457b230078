//! What the definitions promise, as the contract of a function that does nothing.

ghost use Rattle.jg_watch.specs.Laws.{SpeltIsJudged};

/// A question that a text spells passes or is denied: it is of a function of the table, and its operands suit that.
pub fn spelt_is_judged()
    ensures { SpeltIsJudged }
{}
