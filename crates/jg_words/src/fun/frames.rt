//! The functions on frames: their names, and which may be called with an exception pending.

ghost use Rattle.std.specs.Prelude.{◌≡◌};
ghost use Rattle.jg_words.specs.Fun.{frames_name};

/// Frames of local references (JNI Specification, chapter 4, "Local References").
#[derive(Clone, Copy, PartialEq, Eq)]
pub enum FramesFun {
    PushLocalFrame,
    PopLocalFrame,
    EnsureLocalCapacity,
}

impl FramesFun {
    /// Its name.
    pub fn name(self) -> &'static str
        ensures { result.now ≡ frames_name self }
    {
        match self {
            FramesFun::PushLocalFrame => "PushLocalFrame",
            FramesFun::PopLocalFrame => "PopLocalFrame",
            FramesFun::EnsureLocalCapacity => "EnsureLocalCapacity",
        }
    }
}
