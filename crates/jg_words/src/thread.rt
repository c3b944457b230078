//! What names a thread, and its environments.

/// A thread's number: 1 to 65,535, and 0 for the virtual machine itself.
#[derive(Clone, Copy, Debug, PartialEq, Eq, PartialOrd, Ord, Hash)]
pub struct Tid(pub u16);

/// A `JNIEnv` (JNI Specification, chapter 5): the thread that it belongs to, and the number of
/// that thread's session, from 1 over all its attachments.
#[derive(Clone, Copy, Debug, PartialEq, Eq)]
pub struct EnvId {
    pub tid: Tid,
    pub session: u64,
}
