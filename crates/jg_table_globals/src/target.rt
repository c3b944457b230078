//! What a global or weak global reference names.

use jg_words::ObjId;

/// What a global or weak global reference in being names: its object, or nothing any more, where
/// it is a weak reference whose object was collected.
#[derive(Clone, Copy, Debug, PartialEq, Eq)]
pub enum Target {
    Object(ObjId),
    Cleared,
}
