//! A witness between a virtual machine and the core. The machine hands out words, which are handles; the core judges
//! names. The witness is told which word the machine handed out for which name, tells the core what that says of older
//! names, and asks the core about words. Chapters are the JNI Specification's.
#![tactic(auto)]

mod being;
mod named;
mod operand;
mod promises;
mod reading;
mod table;
mod witness;

pub use operand::Operand;
pub use promises::{
    handed_means, lapsed_means_nothing, nameless_is_dead, no_word_revived, words_answered_apart,
    words_pass_still,
};
pub use witness::Witness;
