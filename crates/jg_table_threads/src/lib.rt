//! Sessions of threads, the native methods that they are in, their pending exceptions, and the
//! numbers of what they were handed out (JNI Specification, chapter 5, "Attaching to the VM", and
//! chapter 2, "Java Exceptions"). Chapters in the documentation of calls are the JNI
//! Specification's.
#![tactic(auto)]

mod meanings;
mod row;
mod rows;
mod threads;

pub use meanings::{
    attached_means, handed_out_numbers_never_fall, is_pending_means, leaves_at_most_enters,
    no_row_means, pending_means, session_means, sessions_never_fall,
};
pub use row::Row;
pub use threads::Threads;
