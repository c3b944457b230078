//! Lines from a reader, and texts to a writer, each of which keeps whether it failed.
#![tactic(auto)]

mod faulty;
mod handing;
mod line;
mod piece;
mod watched;

pub use faulty::Faulty;
pub use handing::HandsOn;
pub use line::{Taken, hand_over, next_line, write_text};
pub use piece::LineFault;
pub use watched::{DeviceFailed, Watched};
