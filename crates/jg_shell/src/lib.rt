//! One guard for many threads. The guard lies under a lock, beside a book that counts its entries;
//! workers play the lines of a script, each in a thread of its own, and keep a receipt of each call
//! that was journaled; and in the end the receipts are compared with the journal.
#![tactic(auto)]

mod account;
mod compare;
mod gate;
mod held;
mod receipt;
mod settle;
mod shared;
mod threads;
mod worker;

pub use account::Stop;
pub use gate::{Gate, Meeting, OpenGate};
pub use held::Held;
pub use jg_script::{Line, Lines, Scripts};
pub use receipt::Receipt;
pub use settle::{FinishFault, Finished, finish};
pub use shared::SharedGuard;
pub use std::sync::ledger::Share;
pub use threads::play;
pub use worker::Worker;
