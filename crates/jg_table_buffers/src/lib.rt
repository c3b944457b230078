//! Buffers that native code was lent: copies of the items of an array or a string, and pinned ones,
//! which open a critical region (JNI Specification, chapter 4, "String Operations" and "Array
//! Operations").
#![tactic(auto)]

mod buffers;
mod copied;
mod family;
mod info;
mod items;
mod maker_counts;
mod meanings;
mod pinned;
mod tally;
mod visits;

pub use buffers::Buffers;
pub use family::Family;
pub use info::Info;
pub use items::{Items, Unseen};
pub use meanings::{
    closed_stays_closed, content_means, critical_means, new_number_is_above, open_means,
    pinned_means,
};
