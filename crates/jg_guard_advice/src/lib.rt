//! Advice beside a guard: each call that the guard takes is told to a log, as the question and the facts that its
//! entry is.
#![tactic(auto)]

mod advising;
mod moments;
mod replaying;

pub use advising::GuardAdviser;
pub use replaying::advise_on_journal;
