//! What the texts of records say, and that a record is answered as its journal was. Each law is the contract of a
//! function that does nothing.
#![tactic(auto)]

ghost use Rattle.jg_record_laws.specs.Laws.{AnsweredAsJudged, AnsweredWhole, IsCutOnce, IsFaultless, IsSpeltOnce, WatchedWhole};

/// A text spells one event at most, with the operands of a question and the objects that are gone.
pub fn spelt_at_most_once()
    ensures { IsSpeltOnce }
{}

/// A text that spells an event has no fault, but that it may be too long.
pub fn spelt_has_no_fault()
    ensures { IsFaultless }
{}

/// A line is cut in one way into its event, the answer that it tells and its note.
pub fn cut_in_one_way()
    ensures { IsCutOnce }
{}

/// The record of a legal history is answered by the verdicts on its entries, in order. So `jg check | jg facts |
/// jg watch` answers what `jg check` answers.
pub fn answered_as_judged()
    ensures { AnsweredAsJudged }
{}

/// No line of the record of a legal history can't be, and none tells another answer.
pub fn answered_whole()
    ensures { AnsweredWhole }
{}

/// Who watches the record of a legal history comes to its end, unless memory, a device or the counts end it before.
pub fn watched_whole()
    ensures { WatchedWhole }
{}
