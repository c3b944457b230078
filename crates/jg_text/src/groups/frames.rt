//! The operands of calls of this group: frames of local references.

ghost use Rattle.std.specs.Prelude.{◌≡◌, ◌++◌, map, IfOk, IfErr, OnOk, string_bytes};
ghost use Rattle.std.specs.List.{AllByRecursion};
ghost use Rattle.std.specs.Option.{option_copied};
ghost use Rattle.jg_words.specs.Call.{frames_fun};
ghost use Rattle.jg_text.specs.Words.{text_of, FitsWord};
ghost use Rattle.jg_text.specs.Operands.{frames_kinds, frames_operands};
ghost use Rattle.jg_text.specs.Pieces.{rest_fields, after_spaces, IsOperandFault};

use crate::fault::ScriptFault;
use crate::operand::{read_one, write_one};
use jg_words::{FramesCall, FramesFun};
use std::alloc::{AllocError, Global};

/// The call of the function whose operands the fields left spell.
pub fn read(alloc: Global, fun: FramesFun, rest: Option<&[u8]>) -> Result<FramesCall, ScriptFault>
    ensures fits { IfOk result (λ c. AllByRecursion FitsWord (frames_operands c)) }
    ensures fun { IfOk result (λ c. frames_fun c ≡ fun) }
    ensures texts { IfOk result (λ c. map text_of (frames_operands c) ≡ rest_fields (option_copied rest.entry)) }
    ensures fault { IfErr result (IsOperandFault (frames_kinds fun) (rest_fields (option_copied rest.entry))) }
{
    match fun {
        FramesFun::PushLocalFrame => {
            let capacity = read_one(alloc, rest)?;
            Ok(FramesCall::PushLocalFrame { capacity })
        }
        FramesFun::PopLocalFrame => {
            let kept = read_one(alloc, rest)?;
            Ok(FramesCall::PopLocalFrame { kept })
        }
        FramesFun::EnsureLocalCapacity => {
            let capacity = read_one(alloc, rest)?;
            Ok(FramesCall::EnsureLocalCapacity { capacity })
        }
    }
}

/// Writes the call's operands, each after a space.
pub fn write(out: &mut String, call: &FramesCall) -> Result<(), AllocError>
    ensures { OnOk result (string_bytes out.new ≡ string_bytes out.old
        ++ after_spaces (map text_of (frames_operands call.now))) }
{
    match call {
        FramesCall::PushLocalFrame { capacity } => write_one(out, capacity),
        FramesCall::PopLocalFrame { kept } => write_one(out, kept),
        FramesCall::EnsureLocalCapacity { capacity } => write_one(out, capacity),
    }
}
