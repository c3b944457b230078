//! Global and weak global references: which are in being, what each names, and which are cleared
//! (JNI Specification, chapter 2, "Global and Local References", and chapter 4, "Global
//! References" and "Weak Global References"). Chapters in the documentation of calls are the JNI
//! Specification's.
#![tactic(auto)]

mod globals;
mod meanings;
mod sweep;
mod target;
mod visits;

pub use globals::Globals;
pub use meanings::{
    cleared_stays_cleared, deleted_stays_deleted, holds_means, new_number_is_above, strong_means,
    weak_means,
};
pub use target::Target;
