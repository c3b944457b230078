//! For each group of calls: what a call answers, and what it does.

pub(crate) mod arrays;
pub(crate) mod buffers;
pub(crate) mod exceptions;
pub(crate) mod frames;
pub(crate) mod monitors;
pub(crate) mod objects;
pub(crate) mod refs;
pub(crate) mod strings;
pub(crate) mod vm;
