//! A box, or nothing, as one pointer, in which C can keep it.
#![tactic(auto)]

mod parts;
mod slot;

pub use slot::Slot;
