//! What is left behind: the references that live, the buffers that are open, the monitors that are owned.
#![tactic(auto)]

mod listing;

pub use listing::{Leaks, list_left};
