//! Native access (JEP 472).
ghost use Rattle.std.specs.Prelude.{◌≡◌};
ghost use Rattle.jg_policy.specs.NativeAccess.{access_by};

use crate::mode::Mode;

/// A use of native code: a class loads a library, or a native method of it is registered or
/// called.
#[derive(Clone, Copy)]
pub enum Operation {
    Load,
    Register,
    Link,
}

/// What is done with a use of native code.
#[derive(Clone, Copy)]
pub enum Access {
    Allowed,
    /// Allowed, and the first use by its module is warned of.
    AllowedWithWarning,
    Refused,
}

impl Access {
    /// What is done with a use by a module that isn't granted it.
    pub(crate) fn by(mode: Mode) -> Access
        ensures { result ≡ access_by mode }
    {
        match mode {
            Mode::Allow => Access::Allowed,
            Mode::Warn => Access::AllowedWithWarning,
            Mode::Deny => Access::Refused,
        }
    }
}
