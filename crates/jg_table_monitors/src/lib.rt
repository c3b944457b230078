//! Monitors: which thread owns the monitor of an object, and how often it entered it (JNI
//! Specification, chapter 4, "Monitor Operations"). Chapters in the documentation of calls are the
//! JNI Specification's.
#![tactic(auto)]

mod entering;
mod held;
mod holdings;
mod meanings;
mod monitors;
mod owned;
mod owned_monitor;

pub use entering::Entering;
pub use meanings::{
    count_is_bounded, count_means, held_means, one_owner, owner_means, rows_tell, since_means,
};
pub use monitors::Monitors;
pub use owned_monitor::OwnedMonitor;
