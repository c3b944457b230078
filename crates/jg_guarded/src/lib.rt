//! For those who embed the guard: a virtual machine of the caller's own behind it, to which just
//! the calls that break no rule are handed, and the denials of a journal.
#![tactic(auto)]

mod denial;
mod machine;
mod through;

pub use denial::{Denial, denials};
pub use machine::Machine;
pub use through::let_through;
