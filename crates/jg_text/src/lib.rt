//! Calls and journal entries as lines of text: one call a line, one entry a line, and one
//! spelling of each.
#![tactic(auto)]

mod begun;
mod digits;
mod fault;
mod first;
mod groups;
mod list;
mod meanings;
mod name;
mod number;
mod operand;
mod place;
mod read;
mod takes;
mod word;
mod write;

pub use begun::{front_of_call, read_begun};
pub use digits::{push_number, push_signed};
pub use fault::ScriptFault;
pub use first::{first_env, first_tid};
pub use meanings::{
    begins_with_one_call, call_is_short, entry_is_one_line, spelt_at_most_once, spelt_has_no_fault,
};
pub use number::{read_number, signed_number, small_signed_number};
pub use operand::{cut, next_field};
pub use place::{Place, function_of, place_of};
pub use read::{MAX_LINE, count_fields, is_printable, read_call};
pub use takes::{OperandKind, operands_of};
pub use word::{push_buf, push_env, push_field, push_ref, push_tid, read_buf, read_ref};
pub use write::{push_answer, push_entry, write_entry};
