//! The functions on exceptions: their names, and which may be called with an exception pending.

ghost use Rattle.std.specs.Prelude.{◌≡◌};
ghost use Rattle.jg_words.specs.Fun.{exceptions_name};

/// Exceptions (JNI Specification, chapter 4, "Exceptions").
#[derive(Clone, Copy, PartialEq, Eq)]
pub enum ExceptionsFun {
    Throw,
    ExceptionOccurred,
    ExceptionDescribe,
    ExceptionClear,
    ExceptionCheck,
}

impl ExceptionsFun {
    /// Its name.
    pub fn name(self) -> &'static str
        ensures { result.now ≡ exceptions_name self }
    {
        match self {
            ExceptionsFun::Throw => "Throw",
            ExceptionsFun::ExceptionOccurred => "ExceptionOccurred",
            ExceptionsFun::ExceptionDescribe => "ExceptionDescribe",
            ExceptionsFun::ExceptionClear => "ExceptionClear",
            ExceptionsFun::ExceptionCheck => "ExceptionCheck",
        }
    }
}
