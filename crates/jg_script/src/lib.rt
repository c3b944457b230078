//! Scripts in, journals out: each line of a script is a call, answered by the line of its entry.
#![tactic(auto)]

mod answer;
mod beside;
mod journal;
mod leaks;
mod outcome;
mod replay;
mod run;
mod run_fault;
mod scripts;

pub use beside::{Alone, Beside};
pub use jg_lines::{DeviceFailed, Faulty, HandsOn, Watched, write_text};
pub use jg_text::{MAX_LINE, ScriptFault, read_call, write_entry};
pub use journal::write_journal;
pub use leaks::write_leaks;
pub use outcome::outcome_in;
pub use replay::{Difference, Replayed, Verdict, replay_beside, replay_journal, verify};
pub use run::{check, check_beside, check_lines};
pub use run_fault::RunFault;
pub use scripts::{Line, Lines, MAX_LINES, MAX_THREADS, Scripts, read_script_lines, read_scripts};
