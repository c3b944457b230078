//! The object machine's store: objects in the order of their making, class objects first, each
//! with its class, its units, items or fields, and whether it is gone.
#![tactic(auto)]

mod body;
mod collect;
mod heap;
mod instance;
pub mod meanings;
mod mutf8;
mod number;
mod object;
mod roots;

pub use heap::Heap;
pub use mutf8::{are_mutf8, from_mutf8, from_mutf8_items, is_mutf8, mutf8_len, to_mutf8};
pub use number::natural;
pub use object::{Shape, Slot};
pub use roots::Roots;
