//! Calls on frames of local references, with their operands.

ghost use Rattle.std.specs.Prelude.{◌≡◌};
ghost use Rattle.jg_words.specs.Call.{frames_fun};

use crate::fun::frames::FramesFun;
use crate::reference::Ref;

/// Frames of local references (JNI Specification, chapter 4, "Local References"). `kept` is
/// JNI's `result`: its object gets a reference in the frame below.
#[derive(PartialEq, Eq, Drop)]
pub enum FramesCall {
    PushLocalFrame { capacity: i32 },
    PopLocalFrame { kept: Ref },
    EnsureLocalCapacity { capacity: i32 },
}

impl FramesCall {
    /// Its function.
    pub fn fun(&self) -> FramesFun
        ensures { result ≡ frames_fun self.now }
    {
        match self {
            FramesCall::PushLocalFrame { .. } => FramesFun::PushLocalFrame,
            FramesCall::PopLocalFrame { .. } => FramesFun::PopLocalFrame,
            FramesCall::EnsureLocalCapacity { .. } => FramesFun::EnsureLocalCapacity,
        }
    }

    /// An equal call.
    pub fn copy(&self) -> FramesCall
        ensures { result ≡ self.now }
    {
        match self {
            FramesCall::PushLocalFrame { capacity } => FramesCall::PushLocalFrame {
                capacity: *capacity,
            },
            FramesCall::PopLocalFrame { kept } => FramesCall::PopLocalFrame { kept: *kept },
            FramesCall::EnsureLocalCapacity { capacity } => FramesCall::EnsureLocalCapacity {
                capacity: *capacity,
            },
        }
    }
}
