//! What the program `jg` does, over any words, files, reader and writers. It is a library, so that
//! each of its wrong bodies is tried without the program around it.
#![tactic(auto)]

mod about;
mod advising;
mod files;
mod journal;
mod journal_record;
mod migrating;
mod playing;
mod program;
mod reporting;
mod setup_file;
mod stop;
mod summary;
mod terms;
mod watch_report;
mod watching;

pub use files::Files;
pub use program::run;
pub use stop::{ProgramEnd, ProgramStop, Said, Status, say, say_ending};
