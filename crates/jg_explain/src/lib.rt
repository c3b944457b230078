//! Why the calls of a guard's journal were denied: in which way each broke its rule, what the rule asks
//! of the journal, and at which entries the answer turned. A second guard goes over the journal again
//! and is asked, so nothing is told that the tables don't say; not at each entry, but where what it answers
//! tells of the others.
#![tactic(auto)]

mod denials;
mod explaining;
mod following;
mod left;
mod replaying;
mod steady;
mod suspects;
mod texts;
mod traces;
mod watching;

pub use denials::Denial;
pub use explaining::{Explanation, explain, explain_first, explain_newest};
pub use left::explain_leaks;
pub use replaying::{replay_entry, replaying_guard};
pub use watching::{Watch, watch_all};
