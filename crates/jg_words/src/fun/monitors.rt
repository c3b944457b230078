//! The functions on monitors: their names, and which may be called with an exception pending.

ghost use Rattle.std.specs.Prelude.{◌≡◌};
ghost use Rattle.jg_words.specs.Fun.{monitors_name};

/// Monitors (JNI Specification, chapter 4, "Monitor Operations").
#[derive(Clone, Copy, PartialEq, Eq)]
pub enum MonitorsFun {
    MonitorEnter,
    MonitorExit,
}

impl MonitorsFun {
    /// Its name.
    pub fn name(self) -> &'static str
        ensures { result.now ≡ monitors_name self }
    {
        match self {
            MonitorsFun::MonitorEnter => "MonitorEnter",
            MonitorsFun::MonitorExit => "MonitorExit",
        }
    }
}
