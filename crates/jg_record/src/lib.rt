//! A line of a record: what a machine told a core, or asked it, and what the core answered.
#![tactic(auto)]

mod cut;
mod event;
mod facts;
mod fault;
mod operands;
mod push;
mod read;
mod reply;
mod unwritten;
mod verb;
mod word;
mod write;
mod write_fact;
mod write_question;

pub use cut::{Parts, cut_line};
pub use event::{Event, Lists};
pub use fault::RecordFault;
pub use read::read_event;
pub use reply::{Reply, push_answer};
pub use unwritten::Unwritten;
pub use write::push_event;
pub use write_question::push_argument;
