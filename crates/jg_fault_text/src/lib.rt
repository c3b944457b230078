//! Faults in words: where in a line of a script or in a setup the fault stands, what stands there, and what is wanted.
#![tactic(auto)]

mod line;
mod names;
mod pieces;
mod setup;

pub use line::push_line_fault;
pub use setup::push_setup_fault;
