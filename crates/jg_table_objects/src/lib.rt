//! The objects of a virtual machine that are there: the class and the length of each, and nothing else. An
//! object that is gone leaves nothing. Chapters in the documentation of calls are the JNI Specification's.
#![tactic(auto)]

mod kept;
mod marker;
mod meanings;
mod objects;
mod store;

pub use marker::{Before, Marker};
pub use meanings::{marks_keep, told_means, went_means};
pub use objects::Objects;
