//! The operands of calls of this group: strings.

ghost use Rattle.std.specs.Prelude.{◌≡◌, ◌++◌, length, map, IfOk, IfErr, OnOk, string_bytes};
ghost use Rattle.std.specs.List.{AllByRecursion};
ghost use Rattle.std.specs.Option.{option_copied};
ghost use Rattle.jg_words.specs.Call.{strings_fun};
ghost use Rattle.jg_text.specs.Words.{text_of, FitsWord};
ghost use Rattle.jg_text.specs.Operands.{strings_kinds, strings_operands};
ghost use Rattle.jg_text.specs.Pieces.{rest_fields, after_spaces, IsOperandFault};

use crate::fault::ScriptFault;
use crate::operand::{read_one, read_three, write_one, write_three};
use jg_words::{StringsCall, StringsFun};
use std::alloc::{AllocError, Global};

/// The call of the function whose operands the fields left spell.
pub fn read(alloc: Global, fun: StringsFun, rest: Option<&[u8]>) -> Result<StringsCall, ScriptFault>
    ensures fits { IfOk result (λ c. AllByRecursion FitsWord (strings_operands c)) }
    ensures fun { IfOk result (λ c. strings_fun c ≡ fun) }
    ensures texts { IfOk result (λ c. map text_of (strings_operands c) ≡ rest_fields (option_copied rest.entry)) }
    ensures fault { IfErr result (IsOperandFault (strings_kinds fun) (rest_fields (option_copied rest.entry))) }
{
    match fun {
        StringsFun::NewString => {
            let units = read_one(alloc, rest)?;
            Ok(StringsCall::NewString { units })
        }
        StringsFun::NewStringUTF => {
            let bytes = read_one(alloc, rest)?;
            Ok(StringsCall::NewStringUTF { bytes })
        }
        StringsFun::GetStringLength => {
            let string = read_one(alloc, rest)?;
            Ok(StringsCall::GetStringLength { string })
        }
        StringsFun::GetStringUTFLength => {
            let string = read_one(alloc, rest)?;
            Ok(StringsCall::GetStringUTFLength { string })
        }
        StringsFun::GetStringRegion => {
            let (string, start, length) = read_three(alloc, rest)?;
            Ok(StringsCall::GetStringRegion {
                string,
                start,
                length,
            })
        }
    }
}

/// Writes the call's operands, each after a space.
pub fn write(out: &mut String, call: &StringsCall) -> Result<(), AllocError>
    ensures { OnOk result (string_bytes out.new ≡ string_bytes out.old
        ++ after_spaces (map text_of (strings_operands call.now))) }
{
    match call {
        StringsCall::NewString { units } => write_one(out, units),
        StringsCall::NewStringUTF { bytes } => write_one(out, bytes),
        StringsCall::GetStringLength { string } => write_one(out, string),
        StringsCall::GetStringUTFLength { string } => write_one(out, string),
        StringsCall::GetStringRegion {
            string,
            start,
            length,
        } => write_three(out, string, start, length),
    }
}
