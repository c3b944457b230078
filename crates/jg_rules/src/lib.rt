//! Which rule a call breaks first, what it answers where it breaks none, and which histories are
//! legal. The definitions stand in specs/; the code reads the tables as they are now.
#![tactic(auto)]

mod access;
mod answer;
mod buffer;
mod caller;
mod field;
mod holding;
mod monitor;
mod named;
mod number;
mod object;
mod operand;
mod reference;
mod store;
mod view;

pub use access::{class_asked, home_named, is_refused_to, is_warned_use};
pub use answer::Answer;
pub use buffer::{
    buffer_named, is_anothers, is_mode, is_of_array, is_of_family, is_of_object, is_place,
    is_readable, is_releasable, is_writable, item_type,
};
pub use caller::{is_of_machine, is_wrong_caller};
pub use field::{is_field_of_another, is_field_of_type};
pub use holding::{is_root, mark_roots};
pub use monitor::is_not_the_owner;
pub use named::{Named, class_meant, field_meant, look_up, native_meant, object_named, the_object};
pub use number::{all_fit, fits};
pub use object::{class_of, field_of, items_of, length_of, slot_of, slot_place_of, units_of};
pub use operand::{ObjectType, Operand, is_object_of};
pub use reference::{is_foreign_local, is_of_another_kind};
pub use store::Store;
pub use view::View;
