//! The operands of calls of this group: arrays.

ghost use Rattle.std.specs.Prelude.{◌≡◌, ◌++◌, length, map, IfOk, IfErr, OnOk, string_bytes};
ghost use Rattle.std.specs.List.{AllByRecursion};
ghost use Rattle.std.specs.Option.{option_copied};
ghost use Rattle.jg_words.specs.Call.{arrays_fun};
ghost use Rattle.jg_text.specs.Words.{text_of, FitsWord};
ghost use Rattle.jg_text.specs.Operands.{arrays_kinds, arrays_operands};
ghost use Rattle.jg_text.specs.Pieces.{rest_fields, after_spaces, IsOperandFault};

use crate::fault::ScriptFault;
use crate::operand::{read_one, read_three, read_two, write_one, write_three, write_two};
use jg_words::{ArraysCall, ArraysFun};
use std::alloc::{AllocError, Global};

/// The call of the function whose operands the fields left spell.
pub fn read(alloc: Global, fun: ArraysFun, rest: Option<&[u8]>) -> Result<ArraysCall, ScriptFault>
    ensures fits { IfOk result (λ c. AllByRecursion FitsWord (arrays_operands c)) }
    ensures fun { IfOk result (λ c. arrays_fun c ≡ fun) }
    ensures texts { IfOk result (λ c. map text_of (arrays_operands c) ≡ rest_fields (option_copied rest.entry)) }
    ensures fault { IfErr result (IsOperandFault (arrays_kinds fun) (rest_fields (option_copied rest.entry))) }
{
    match fun {
        ArraysFun::NewArray(element) => {
            let length = read_one(alloc, rest)?;
            Ok(ArraysCall::NewArray { element, length })
        }
        ArraysFun::GetArrayLength => {
            let array = read_one(alloc, rest)?;
            Ok(ArraysCall::GetArrayLength { array })
        }
        ArraysFun::GetArrayRegion(element) => {
            let (array, start, length) = read_three(alloc, rest)?;
            Ok(ArraysCall::GetArrayRegion {
                element,
                array,
                start,
                length,
            })
        }
        ArraysFun::SetArrayRegion(element) => {
            let (array, start, values) = read_three(alloc, rest)?;
            Ok(ArraysCall::SetArrayRegion {
                element,
                array,
                start,
                values,
            })
        }
        ArraysFun::NewObjectArray => {
            let (length, class, fill) = read_three(alloc, rest)?;
            Ok(ArraysCall::NewObjectArray {
                length,
                class,
                fill,
            })
        }
        ArraysFun::GetObjectArrayElement => {
            let (array, index) = read_two(alloc, rest)?;
            Ok(ArraysCall::GetObjectArrayElement { array, index })
        }
        ArraysFun::SetObjectArrayElement => {
            let (array, index, value) = read_three(alloc, rest)?;
            Ok(ArraysCall::SetObjectArrayElement {
                array,
                index,
                value,
            })
        }
    }
}

/// Writes the call's operands, each after a space.
pub fn write(out: &mut String, call: &ArraysCall) -> Result<(), AllocError>
    ensures { OnOk result (string_bytes out.new ≡ string_bytes out.old
        ++ after_spaces (map text_of (arrays_operands call.now))) }
{
    match call {
        ArraysCall::NewArray { length, .. } => write_one(out, length),
        ArraysCall::GetArrayLength { array } => write_one(out, array),
        ArraysCall::GetArrayRegion {
            array,
            start,
            length,
            ..
        } => write_three(out, array, start, length),
        ArraysCall::SetArrayRegion {
            array,
            start,
            values,
            ..
        } => write_three(out, array, start, values),
        ArraysCall::NewObjectArray {
            length,
            class,
            fill,
        } => write_three(out, length, class, fill),
        ArraysCall::GetObjectArrayElement { array, index } => write_two(out, array, index),
        ArraysCall::SetObjectArrayElement {
            array,
            index,
            value,
        } => write_three(out, array, index, value),
    }
}
