//! The pointer that C holds.

ghost use Rattle.std.specs.Prelude.{Option};
ghost use Rattle.jg_c.specs.declared.session.Session.{Session};

mod lends;

use std::marker::Model;

/// What C holds: null, or a pointer that owns a session. In C it is `struct { void *at; }`.
#[repr(C)]
pub struct Handle {
    at: *mut u8,
    pub ghost value: { Option Session },
}

impl Model for Handle {
    ghost use Rattle.jg_slot.specs.Held.{held};
    ghost use Rattle.jg_c.specs.contracts.session.Session.{the_row};

    ghost also_owns = { λ h. held the_row h.at h.value };
}

// It may go to another thread.
unsafe impl Send for Handle {}
