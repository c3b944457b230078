//! What an open buffer is, as the table tells it.

use crate::family::Family;
use jg_words::{ObjId, Ref, Tid};

/// What an open buffer is: the thread that it was lent to, the object that it is of, its family,
/// the reference through which a pinned one was opened (null for a copy), and its length in items.
#[derive(Clone, Copy)]
pub struct Info {
    pub maker: Tid,
    pub object: ObjId,
    pub family: Family,
    pub via: Ref,
    pub length: u64,
}
