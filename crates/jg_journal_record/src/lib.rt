//! A journal in, its record out: each entry as the question that its call is, and the facts that a virtual machine
//! would have told that answered so.
#![tactic(auto)]

mod entry;
mod fault;
mod journal;
mod lines;
mod promises;
mod writing;

pub use fault::RetellFault;
pub use journal::retell_journal;
pub use promises::records_tell_facts;
pub use writing::retell;
