//! The operands of calls of this group: buffers.

ghost use Rattle.std.specs.Prelude.{◌≡◌, ◌++◌, map, IfOk, IfErr, OnOk, string_bytes};
ghost use Rattle.std.specs.List.{AllByRecursion};
ghost use Rattle.std.specs.Option.{option_copied};
ghost use Rattle.jg_words.specs.Call.{buffers_fun};
ghost use Rattle.jg_text.specs.Words.{text_of, FitsWord};
ghost use Rattle.jg_text.specs.Operands.{buffers_kinds, buffers_operands};
ghost use Rattle.jg_text.specs.Pieces.{rest_fields, after_spaces, IsOperandFault};

use crate::fault::ScriptFault;
use crate::operand::{read_one, read_three, read_two, write_one, write_three, write_two};
use jg_words::{BuffersCall, BuffersFun};
use std::alloc::{AllocError, Global};

/// The call of the function whose operands the fields left spell.
pub fn read(alloc: Global, fun: BuffersFun, rest: Option<&[u8]>) -> Result<BuffersCall, ScriptFault>
    ensures fits { IfOk result (λ c. AllByRecursion FitsWord (buffers_operands c)) }
    ensures fun { IfOk result (λ c. buffers_fun c ≡ fun) }
    ensures texts { IfOk result (λ c. map text_of (buffers_operands c) ≡ rest_fields (option_copied rest.entry)) }
    ensures fault { IfErr result (IsOperandFault (buffers_kinds fun) (rest_fields (option_copied rest.entry))) }
{
    match fun {
        BuffersFun::GetArrayElements(element) => {
            let array = read_one(alloc, rest)?;
            Ok(BuffersCall::GetArrayElements { element, array })
        }
        BuffersFun::ReleaseArrayElements(element) => {
            let (array, buffer, mode) = read_three(alloc, rest)?;
            Ok(BuffersCall::ReleaseArrayElements {
                element,
                array,
                buffer,
                mode,
            })
        }
        BuffersFun::GetStringChars => {
            let string = read_one(alloc, rest)?;
            Ok(BuffersCall::GetStringChars { string })
        }
        BuffersFun::ReleaseStringChars => {
            let (string, buffer) = read_two(alloc, rest)?;
            Ok(BuffersCall::ReleaseStringChars { string, buffer })
        }
        BuffersFun::GetStringUTFChars => {
            let string = read_one(alloc, rest)?;
            Ok(BuffersCall::GetStringUTFChars { string })
        }
        BuffersFun::ReleaseStringUTFChars => {
            let (string, buffer) = read_two(alloc, rest)?;
            Ok(BuffersCall::ReleaseStringUTFChars { string, buffer })
        }
        BuffersFun::GetPrimitiveArrayCritical => {
            let array = read_one(alloc, rest)?;
            Ok(BuffersCall::GetPrimitiveArrayCritical { array })
        }
        BuffersFun::ReleasePrimitiveArrayCritical => {
            let (array, buffer, mode) = read_three(alloc, rest)?;
            Ok(BuffersCall::ReleasePrimitiveArrayCritical {
                array,
                buffer,
                mode,
            })
        }
        BuffersFun::GetStringCritical => {
            let string = read_one(alloc, rest)?;
            Ok(BuffersCall::GetStringCritical { string })
        }
        BuffersFun::ReleaseStringCritical => {
            let (string, buffer) = read_two(alloc, rest)?;
            Ok(BuffersCall::ReleaseStringCritical { string, buffer })
        }
        BuffersFun::BufferRead => {
            let (buffer, index) = read_two(alloc, rest)?;
            Ok(BuffersCall::BufferRead { buffer, index })
        }
        BuffersFun::BufferWrite => {
            let (buffer, index, value) = read_three(alloc, rest)?;
            Ok(BuffersCall::BufferWrite {
                buffer,
                index,
                value,
            })
        }
    }
}

/// Writes the call's operands, each after a space.
pub fn write(out: &mut String, call: &BuffersCall) -> Result<(), AllocError>
    ensures { OnOk result (string_bytes out.new ≡ string_bytes out.old
        ++ after_spaces (map text_of (buffers_operands call.now))) }
{
    match call {
        BuffersCall::GetArrayElements { array, .. } => write_one(out, array),
        BuffersCall::ReleaseArrayElements {
            array,
            buffer,
            mode,
            ..
        } => write_three(out, array, buffer, mode),
        BuffersCall::GetStringChars { string } => write_one(out, string),
        BuffersCall::ReleaseStringChars { string, buffer } => write_two(out, string, buffer),
        BuffersCall::GetStringUTFChars { string } => write_one(out, string),
        BuffersCall::ReleaseStringUTFChars { string, buffer } => write_two(out, string, buffer),
        BuffersCall::GetPrimitiveArrayCritical { array } => write_one(out, array),
        BuffersCall::ReleasePrimitiveArrayCritical {
            array,
            buffer,
            mode,
        } => write_three(out, array, buffer, mode),
        BuffersCall::GetStringCritical { string } => write_one(out, string),
        BuffersCall::ReleaseStringCritical { string, buffer } => write_two(out, string, buffer),
        BuffersCall::BufferRead { buffer, index } => write_two(out, buffer, index),
        BuffersCall::BufferWrite {
            buffer,
            index,
            value,
        } => write_three(out, buffer, index, value),
    }
}
