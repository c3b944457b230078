//! An owned monitor, as the table tells it.

use jg_words::{ObjId, Tid};

/// An owned monitor: its object, the thread that owns it, and how often that thread entered it and
/// didn't exit it, at least 1.
#[derive(Clone, Copy, PartialEq, Eq)]
pub struct OwnedMonitor {
    pub object: ObjId,
    pub owner: Tid,
    pub count: u64,
}
