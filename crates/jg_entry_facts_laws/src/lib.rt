//! The entries of the written machine are facts: to judge by facts is to judge by entries, and the ticket of a call's
//! question tells the facts of its entry. Each law is the contract of a function that does nothing.
#![tactic(auto)]

ghost use Rattle.jg_entry_facts_laws.specs.Laws.{FactsReadAlike, FactsCouldBe, AlikeIsJudgedAlike, JudgedAlike, AskedAlike, TicketsTellFacts};

/// A legal history and the facts that its entries are leave parts that read the same: sessions, native methods,
/// frames, locals and what is pending, what references name, open buffers but for their items, monitors, the objects
/// that are there with their classes and lengths, linked methods and warned modules.
pub fn facts_read_alike()
    ensures { FactsReadAlike }
{}

/// Each fact of a legal history could be when it was told.
pub fn facts_could_be()
    ensures { FactsCouldBe }
{}

/// Parts that read the same judge each call the same, whatever else their events say.
pub fn alike_is_judged_alike()
    ensures { AlikeIsJudgedAlike }
{}

/// After the facts of a legal history each call breaks the rule first that it breaks first after the history.
pub fn judged_alike()
    ensures { JudgedAlike }
{}

/// After the facts of a legal history a call's question is answered by the verdict on the call after the history.
pub fn asked_alike()
    ensures { AskedAlike }
{}

/// After the facts of a legal history a call that breaks no rule is handed a ticket, and with what the machine says of
/// the call the ticket tells the facts of its entry: one or none, besides those that are told by themselves. Those are
/// the objects that are made, a native method's class, an exception that stays pending, and warnings.
pub fn tickets_tell_facts()
    ensures { TicketsTellFacts }
{}
