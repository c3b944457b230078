//! Advice: calls that break no rule, and are likely wrong. It is told of questions that passed and of facts.
#![tactic(auto)]

mod advice;
mod adviser;
mod buffers;
mod calls;
mod doing;
mod facts;
mod functions;
mod log;
mod meanings;
mod monitors;
mod parts;
mod regions;
mod report;
mod tables;
mod texts;

pub use advice::{Advice, Kind, Source};
pub use adviser::Adviser;
pub use functions::is_find_class;
pub use log::AdviceLog;
pub use meanings::within_throws_nothing;
pub use parts::Lengths;
pub use report::Advices;
pub use texts::{help, kind_word, sentence, verb};
