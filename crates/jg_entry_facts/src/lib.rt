//! The facts that a journal's entry is: what a virtual machine would have told that answered so. A caller foresees them
//! before the guard makes the call, and tells them after it.
#![tactic(auto)]

mod foreseen;
mod going;
mod own;
mod passing;

pub use foreseen::Foreseen;
