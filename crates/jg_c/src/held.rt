//! What keeps an object from being gone, as numbers.

ghost use Rattle.std.specs.Prelude.{◌≡◌, Some};
ghost use Rattle.jg_c.specs.Holders.{holder_of};

use crate::numbers::{BY_BUFFER, BY_MONITOR, BY_NOTHING, BY_PENDING, BY_REFERENCE, BY_SETUP};
use crate::value::{JgValue, of_buffer, of_reference};
use jg_core::{Holder, StillHeld};

/// Why a list of objects isn't gone. It is `jg_held` in jg.h.
#[repr(C)]
#[derive(Clone, Copy)]
pub struct JgHeld {
    /// The place in the list, counted from 0, of the first object that can't be gone.
    pub place: u64,
    /// What keeps it.
    pub by: u32,
    /// The thread in which it is pending, or that owns its monitor; else 0.
    pub thread: u32,
    /// The reference that names it, or the critical buffer of it that is open; else nothing.
    pub name: JgValue,
}

/// The numbers of what keeps the object at this place.
pub(crate) fn of_held(held: StillHeld) -> JgHeld
    ensures place { result.place ≡ held.place }
    ensures by { holder_of result ≡ Some held.by }
{
    let (by, thread, name) = match held.by {
        Holder::Nothing => (BY_NOTHING, 0, JgValue::NOTHING),
        Holder::Setup => (BY_SETUP, 0, JgValue::NOTHING),
        Holder::Reference(reference) => (BY_REFERENCE, 0, of_reference(reference)),
        Holder::Pending(tid) => (BY_PENDING, u32::from(tid.0), JgValue::NOTHING),
        Holder::Buffer(buffer) => (BY_BUFFER, 0, of_buffer(buffer)),
        Holder::Monitor(tid) => (BY_MONITOR, u32::from(tid.0), JgValue::NOTHING),
    };
    JgHeld {
        place: held.place as u64,
        by,
        thread,
        name,
    }
}
