//! Questions to a machine's guard by the table of functions: which rule a call breaks first, by the row of its function
//! and its operands. A call of the written machine is such a question.
#![tactic(auto)]

mod argument;
mod call;
mod faults;
mod firsts;
mod function;
mod judge;
mod kinds;
mod operands;
mod pass;
mod promises;
mod question;
mod suiting;

pub use argument::{Argument, Bounds};
pub use call::verdict_on_call;
pub use firsts::{first_buffer, first_number, first_reference, native_by_name};
pub use function::function_of;
pub use judge::Broken;
pub use kinds::{OwnKind, is_class, is_kind};
pub use operands::{Arguments, arguments_of, push_arguments};
pub use promises::{calls_suit, judged_as_written};
pub use question::{Verdict, verdict_on};
pub use suiting::{are_none, is_last, suits};
