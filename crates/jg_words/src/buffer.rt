//! What names a buffer that native code was lent.

use crate::thread::Tid;

/// A buffer that native code was lent. `n` counts the buffers that `maker` was lent over all its
/// sessions, from 1.
#[derive(Clone, Copy, PartialEq, Eq)]
pub struct BufId {
    pub maker: Tid,
    pub n: u64,
}
