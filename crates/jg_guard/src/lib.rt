//! The guard: it judges a call, does it or denies it, and journals it. Its type keeps that the
//! journal is a legal history and that each table stands for it.
#![tactic(auto)]

mod answer;
mod collect;
mod forms;
mod groups;
mod guard;
mod peaks;
mod perform;
mod region;
mod settle;
mod tables;
mod tally;

pub use guard::{Guard, NoMemory, Refusal};
pub use jg_leaks::Leaks;
pub use jg_table_monitors::OwnedMonitor;
pub use peaks::Peaks;
