//! The table of all functions: the 232 of the JNI (JNI Specification, chapter 4), the five of the invocation interface
//! (chapter 5), and this guard's own six.
#![tactic(auto)]

mod by_name;
mod row;
mod table;

pub use by_name::place_of;
pub use row::{
    Effect, Member, ObjectKind, Passes, Row, Runs, Section, Since, Takes, Throws, ValueType,
};
pub use table::row_of;
