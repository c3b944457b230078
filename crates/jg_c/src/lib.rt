//! The core, the witness, the guard and the adviser for C.
#![tactic(auto)]

mod advice;
mod advisers;
mod advising;
mod asking;
mod copying;
mod error;
mod error_name;
mod fact;
mod fact_numbers;
mod given;
mod going;
mod guard;
mod handle;
mod held;
mod leaks;
mod lines;
mod names;
mod numbers;
mod opening;
mod operand;
mod question;
mod session;
mod setup_fault;
mod telling;
mod texts;
mod ticket;
mod utf8;
mod value;
mod verdict;
mod word_asking;
mod word_opening;
mod word_telling;

pub use advice::{JgAdvice, JgSpot};
pub use fact::JgFact;
pub use handle::Handle;
pub use held::JgHeld;
pub use opening::JgBounds;
pub use session::{AdviserSession, CoreSession, Session, WitnessSession};
pub use ticket::JgTicket;
pub use value::JgValue;
pub use verdict::JgVerdict;
