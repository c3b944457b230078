//! The words of the command line of `jg`. The crate stands alone, since what it calls takes
//! minutes to check.
#![tactic(auto)]

mod asked;
mod refused;
mod words;

pub use asked::{Advising, ArgsFault, Asked, MAX_NUMBER, Task};
pub use refused::refused_word;
pub use words::{help_text, read_words};
