//! A core beside a guard, for `jg_test_cases`: it is asked about each call and told what came of it, and must judge as
//! the guard does and have what the guard has. And what `bench/core` times of both. Nothing is proved here but that the
//! functions are safe.
#![tactic(auto)]

mod asking;
mod beside;
mod telling;

pub use asking::ask;
pub use beside::{Other, other_beside};
