//! Why a call was denied, in words: what the rule says and what helps, in which way the call breaks it,
//! and at which entries that came to be so.
//!
//! Each `push_..` writes its text behind what `out` holds. Where memory is refused it answers `AllocError`, and a front
//! of the text may stand there.
#![tactic(auto)]

mod breaches;
mod moments;
mod sentences;
mod words;

pub use breaches::{push_breach, push_subject};
pub use moments::{begun, ended, push_moment};
pub use sentences::{help, push_denial, push_rule, sentence};
pub use words::push_quoted;
