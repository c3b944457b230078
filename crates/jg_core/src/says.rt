//! What a machine says of a call, and what the core answers.

use jg_words::{BufId, EnvId, ObjId, Ref};

/// What a virtual machine says of a call that returned: only what the core can't know.
#[derive(Clone, Copy)]
pub enum Says {
    /// It was done.
    Done,
    /// It answered null.
    Null,
    /// It answered a reference to this object, which was met before.
    Object(ObjId),
    /// It lent a buffer of so many items.
    Items(u32),
    /// It threw this object, which was met before.
    Threw(ObjId),
}

/// What the core answers: the name that it has for what a call or a fact handed out.
#[derive(Clone, Copy, PartialEq, Eq)]
pub enum Given {
    Nothing,
    Reference(Ref),
    Buffer(BufId),
    /// The environment of the thread that was attached.
    Environment(EnvId),
    /// The object that was met.
    Object(ObjId),
}
