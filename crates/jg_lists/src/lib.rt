//! What several tables share: the marks of objects, values by number, by thread, and by maker and
//! number, lists that are blank until they are written, what threads did, and where a map was looked into
//! last.
#![tactic(auto)]

mod blanks;
pub mod by_maker;
mod by_number;
mod by_place;
mod by_thread;
mod marking;
mod object_marks;
mod recent;
mod slots;

pub use blanks::{number_at, widen};
pub use by_number::{ByNumber, Numbered};
pub use by_thread::ByThread;
pub use marking::Marking;
pub use object_marks::ObjectMarks;
pub use recent::Recent;
