//! What the definitions promise, as the contract of a function that does nothing.

ghost use Rattle.jg_journal_record.specs.Laws.{RecordsTellFacts};

/// The record of a history tells the facts of its entries, oldest first, and no others.
pub fn records_tell_facts()
    ensures { RecordsTellFacts }
{}
