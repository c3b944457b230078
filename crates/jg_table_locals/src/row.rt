//! A local and a frame, as a thread's stack keeps them.

/// A local as a thread's stack keeps it: its number and object, the depth and the number of open
/// frames just after its making, and whether it is live. A dead one stays until the list is
/// closed up or cut.
#[derive(Clone, Copy)]
pub struct LocalSlot {
    pub n: u64,
    pub object: u64,
    pub depth: u64,
    pub frame: u64,
    pub live: bool,
}

/// An open frame: `frame` is 0 for what an activation began with, and those pushed in it count
/// from 1; `room` is for how many locals it has room.
#[derive(Clone, Copy, PartialEq, Eq)]
pub struct Frame {
    pub depth: u64,
    pub frame: u64,
    pub room: u64,
}

/// A frame as a thread's stack keeps it, with how many live locals were made in it.
#[derive(Clone, Copy)]
pub struct Opened {
    pub frame: Frame,
    pub held: u64,
}
