//! The conditions whose turning explains a denial.

use jg_words::{BufId, EnvId, ObjId, Ref, Tid};

/// A yes-or-no question about a journal whose answer may change from one entry to the next.
#[derive(Clone, Copy, PartialEq, Eq)]
pub enum Condition {
    /// The thread is attached.
    IsAttached { tid: Tid },
    /// The environment is that of its thread's present session.
    IsPresent { env: EnvId },
    /// The thread has a pending exception.
    HasPending { tid: Tid },
    /// The reference names something for the thread: an object, or null.
    Names { tid: Tid, reference: Ref },
    /// The reference names an object for the thread.
    NamesObject { tid: Tid, reference: Ref },
    /// The buffer is open.
    IsOpen { buffer: BufId },
    /// The thread owns the object's monitor.
    Owns { tid: Tid, object: ObjId },
    /// Some thread owns the object's monitor.
    IsOwned { object: ObjId },
    /// The thread has a frame that it pushed at its present depth and may pop.
    HasFrame { tid: Tid },
    /// The thread is inside a native method.
    InNative { tid: Tid },
    /// The class's native method, by its number from 1, is linked.
    IsLinked { class: u32, native: u32 },
}
