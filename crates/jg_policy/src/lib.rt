//! The setup of a guard: its classes, and which uses of native code its modules are granted. A
//! setup is read from a text, and written as one; `docs/FORMATS.md` describes both versions.
#![tactic(auto)]

mod access;
mod base;
mod class;
mod fault;
mod first_fault;
mod grant;
mod limits;
mod links;
mod meanings;
mod mode;
mod names;
mod setup;
mod tree;
mod written;

pub use access::{Access, Operation};
pub use fault::SetupFault;
pub use links::Links;
pub use meanings::{
    class_numbers_tell_names, field_numbers_tell_names, linked_means, module_numbers_tell_names,
    native_numbers_tell_names, only_classes_have_modules, text_states_one_setup, warned_means,
};
pub use mode::Mode;
pub use names::Spelling;
pub use setup::Setup;
