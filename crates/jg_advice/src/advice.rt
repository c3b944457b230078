//! What is advised.

use jg_words::Tid;

/// Something that is legal, and likely wrong.
#[derive(Clone, Copy, PartialEq, Eq)]
pub enum Kind {
    /// A call was made after one that may have thrown, and nobody asked whether it did (JNI Specification, chapter 2,
    /// "Exceptions and Error Codes").
    Unchecked,
    /// What was written to a copy was thrown away by `JNI_ABORT` (chapter 4, `Release<PrimitiveType>ArrayElements`).
    WritesLost,
    /// A buffer was released by `JNI_COMMIT` alone, and is still open.
    CommittedAndKept,
    /// A critical region in which many calls were made, or the collector ran (chapter 4,
    /// `GetPrimitiveArrayCritical`).
    LongRegion,
    /// A thread's session ended while it owned a monitor (chapter 5, `DetachCurrentThread`).
    MonitorAtDetachment,
    /// FindClass of `Lname;`, or of a name with dots (chapter 4, `FindClass`).
    DescriptorForName,
    /// A frame holds more than ten times the local references that it has room for (chapter 4, "Local References").
    Growing,
}

/// A line, counted from 1, with its thread and the function that this called there, by its place in the table, where it
/// called one.
#[derive(Clone, Copy)]
pub struct Source {
    pub line: u64,
    pub tid: Tid,
    pub function: Option<u16>,
}

/// What is advised, of a call that passed or of a fact.
#[derive(Clone, Copy)]
pub struct Advice {
    pub kind: Kind,
    /// The thread that it is about.
    pub tid: Tid,
    /// The line at which it is told, counted from 1; `None` at the end.
    pub line: Option<u64>,
    /// The function that it is about, by its place in the table. `None` where it came of no call.
    pub function: Option<u16>,
    /// The earlier call that made it so, where there is one.
    pub source: Option<Source>,
}
