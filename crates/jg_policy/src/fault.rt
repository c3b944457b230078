//! Why a setup text is refused.
use thiserror::Error;

/// The first fault of a setup text. The order of the variants, `NoMemory` apart, is the order in
/// which faults are answered. Each prints as its name, but `NoMemory` as `no memory`.
#[derive(Clone, Copy, Debug, PartialEq, Eq, Error)]
pub enum SetupFault {
    /// The text is no TOML document.
    #[error("NotToml")]
    NotToml,
    /// `version` is an integer other than 1 and 2.
    #[error("BadVersion")]
    BadVersion,
    /// A table has a key that its kind of table doesn't have.
    #[error("UnknownKey")]
    UnknownKey,
    /// A table lacks a key that it must have.
    #[error("Missing")]
    Missing,
    /// A value is of another TOML type than its key asks for.
    #[error("BadType")]
    BadType,
    /// `illegal_native_access` is a text, but no mode, or an item of a grant's `operations` is a
    /// text, but no operation.
    #[error("BadMode")]
    BadMode,
    /// A name or a type isn't spelt as such.
    #[error("BadName")]
    BadName,
    /// A class, or a field or native method of a class, is stated twice.
    #[error("Duplicate")]
    Duplicate,
    /// There are too many classes, grants or enabled modules, or members of a class.
    #[error("TooMany")]
    TooMany,
    /// Memory ran out; it may come in the place of any answer.
    #[error("no memory")]
    NoMemory,
}

impl SetupFault {
    ghost use Rattle.std.specs.Prelude.{◌≡◌};
    ghost use Rattle.jg_policy.specs.Faults.{rank, earlier};

    // The place in the order in which faults are answered.
    fn rank(self) -> u8
        ensures { result ≡ rank self }
    {
        match self {
            SetupFault::NotToml => 0,
            SetupFault::BadVersion => 1,
            SetupFault::UnknownKey => 2,
            SetupFault::Missing => 3,
            SetupFault::BadType => 4,
            SetupFault::BadMode => 5,
            SetupFault::BadName => 6,
            SetupFault::Duplicate => 7,
            SetupFault::TooMany => 8,
            SetupFault::NoMemory => 9,
        }
    }

    pub(crate) fn earlier(a: Option<SetupFault>, b: Option<SetupFault>) -> Option<SetupFault>
        ensures { result ≡ earlier a b }
    {
        match (a, b) {
            (None, b) => b,
            (Some(f), None) => Some(f),
            (Some(f), Some(g)) => {
                if f.rank() <= g.rank() {
                    Some(f)
                } else {
                    Some(g)
                }
            }
        }
    }
}
