//! What names a reference, and the three kinds.

use crate::thread::Tid;

/// The kind of a reference (JNI Specification, chapter 2, "Global and Local References", and
/// chapter 4, "Weak Global References").
#[derive(Clone, Copy, PartialEq, Eq)]
pub enum Kind {
    Local,
    Global,
    Weak,
}

/// A reference as native code holds it: `NULL`, or a name that a thread was given. `n` counts
/// the references of all three kinds that `maker` was handed out over all its sessions, from 1.
#[derive(Clone, Copy, PartialEq, Eq)]
pub enum Ref {
    Null,
    To { kind: Kind, maker: Tid, n: u64 },
}
