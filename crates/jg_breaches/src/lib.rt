//! Why a call was denied: in which way it breaks the rule, and which of the rule's questions come
//! and go from one entry of a journal to the next. The definitions stand in specs/; the code asks the
//! tables as they are now.
#![tactic(auto)]

mod arguments;
mod breach;
mod breaching;
mod buffers;
mod cause;
mod condition;
mod fields;
mod holding;
mod meanings;
mod operands;
mod referred;
mod turns;

pub use breach::{Argument, Breach};
pub use breaching::breach_of;
pub use cause::conditions_of;
pub use condition::Condition;
pub use holding::holds;
pub use meanings::{ends_once, latest_turned, made_by_its_answer, never_turned, turned_once};
pub use turns::{Turns, turn};
