//! Modified UTF-8, the spelling of strings in bytes (JNI Specification, chapter 3, "Modified UTF-8
//! Strings"): each UTF-16 unit has one spelling of one to three bytes, also a surrogate, and 0 has
//! one of two.

mod forms;
mod read;
mod spell;

pub use read::{are_mutf8, from_mutf8, from_mutf8_items, is_mutf8};
pub use spell::{mutf8_len, to_mutf8};
