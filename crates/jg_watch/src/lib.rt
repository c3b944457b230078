//! A record is watched: each of its lines is asked or told a core, and written with the core's answer.
#![tactic(auto)]

mod advising;
mod ending;
mod event;
mod explanations;
mod line;
mod promises;
mod run;
mod telling;
mod watch;

pub use ending::{Ended, Stop};
pub use explanations::Explanations;
pub use promises::spelt_is_judged;
pub use run::watch_lines;
pub use watch::{Shown, Watch};
