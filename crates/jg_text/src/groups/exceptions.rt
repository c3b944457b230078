//! The operands of calls of this group: exceptions.

ghost use Rattle.std.specs.Prelude.{◌≡◌, ◌++◌, map, IfOk, IfErr, OnOk, string_bytes};
ghost use Rattle.std.specs.List.{AllByRecursion};
ghost use Rattle.std.specs.Option.{option_copied};
ghost use Rattle.jg_words.specs.Call.{exceptions_fun};
ghost use Rattle.jg_text.specs.Words.{text_of, FitsWord};
ghost use Rattle.jg_text.specs.Operands.{exceptions_kinds, exceptions_operands};
ghost use Rattle.jg_text.specs.Pieces.{rest_fields, after_spaces, IsOperandFault};

use crate::fault::ScriptFault;
use crate::operand::{read_none, read_one, write_one};
use jg_words::{ExceptionsCall, ExceptionsFun};
use std::alloc::{AllocError, Global};

/// The call of the function whose operands the fields left spell.
pub fn read(
    alloc: Global,
    fun: ExceptionsFun,
    rest: Option<&[u8]>,
) -> Result<ExceptionsCall, ScriptFault>
    ensures fits { IfOk result (λ c. AllByRecursion FitsWord (exceptions_operands c)) }
    ensures fun { IfOk result (λ c. exceptions_fun c ≡ fun) }
    ensures texts { IfOk result (λ c. map text_of (exceptions_operands c) ≡ rest_fields (option_copied rest.entry)) }
    ensures fault { IfErr result (IsOperandFault (exceptions_kinds fun) (rest_fields (option_copied rest.entry))) }
{
    match fun {
        ExceptionsFun::Throw => {
            let exception = read_one(alloc, rest)?;
            Ok(ExceptionsCall::Throw { exception })
        }
        ExceptionsFun::ExceptionOccurred => {
            read_none(rest)?;
            Ok(ExceptionsCall::ExceptionOccurred)
        }
        ExceptionsFun::ExceptionDescribe => {
            read_none(rest)?;
            Ok(ExceptionsCall::ExceptionDescribe)
        }
        ExceptionsFun::ExceptionClear => {
            read_none(rest)?;
            Ok(ExceptionsCall::ExceptionClear)
        }
        ExceptionsFun::ExceptionCheck => {
            read_none(rest)?;
            Ok(ExceptionsCall::ExceptionCheck)
        }
    }
}

/// Writes the call's operands, each after a space.
pub fn write(out: &mut String, call: &ExceptionsCall) -> Result<(), AllocError>
    ensures { OnOk result (string_bytes out.new ≡ string_bytes out.old
        ++ after_spaces (map text_of (exceptions_operands call.now))) }
{
    match call {
        ExceptionsCall::Throw { exception } => write_one(out, exception),
        ExceptionsCall::ExceptionOccurred => Ok(()),
        ExceptionsCall::ExceptionDescribe => Ok(()),
        ExceptionsCall::ExceptionClear => Ok(()),
        ExceptionsCall::ExceptionCheck => Ok(()),
    }
}
