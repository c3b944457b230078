//! Worked rows: short histories, each with what becomes of every call, taken from the JNI
//! Specification and from what this guard promises beside it. Each row is the contract of a
//! function that does nothing: the definitions of `jg_rules`, which every contract of the guard
//! is about, give exactly the outcomes and objects that the row states; and the journal of its calls
//! is the text that stands beside it, which the cases of `jg_test_cases` run too (`tests/documents` compares the two).
#![tactic(auto)]

pub mod access;
pub mod arrays;
pub mod buffer_items;
pub mod buffers;
pub mod collections;
pub mod critical_regions;
pub mod exceptions;
pub mod frames;
pub mod globals;
pub mod grants;
pub mod natives;
pub mod object_fields;
pub mod objects;
pub mod owners;
pub mod references;
pub mod releases;
pub mod room;
pub mod rules;
pub mod sessions;
pub mod setups;
pub mod strings;
