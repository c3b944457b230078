//! What is done with native access by a module that isn't granted it.
ghost use Rattle.std.specs.Prelude.{◌≡◌};

/// The value of `illegal_native_access`, as of the option of JEP 472.
#[derive(Clone, Copy)]
pub enum Mode {
    Allow,
    Warn,
    Deny,
}

impl Mode {
    ghost use Rattle.jg_policy.specs.Stated.{mode_named};
    ghost use Rattle.jg_policy.specs.Written.{mode_word};

    /// The mode that a word names.
    pub(crate) fn named(text: &str) -> Option<Mode>
        ensures { result ≡ mode_named text.now }
    {
        match text {
            "allow" => Some(Mode::Allow),
            "warn" => Some(Mode::Warn),
            "deny" => Some(Mode::Deny),
            _ => None,
        }
    }

    /// The word that names the mode.
    pub(crate) fn word(self) -> &'static str
        ensures { result.now ≡ mode_word self }
    {
        match self {
            Mode::Allow => "allow",
            Mode::Warn => "warn",
            Mode::Deny => "deny",
        }
    }
}
