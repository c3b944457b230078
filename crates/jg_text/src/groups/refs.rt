//! The operands of calls of this group: references.

ghost use Rattle.std.specs.Prelude.{◌≡◌, ◌++◌, map, IfOk, IfErr, OnOk, string_bytes};
ghost use Rattle.std.specs.List.{AllByRecursion};
ghost use Rattle.std.specs.Option.{option_copied};
ghost use Rattle.jg_words.specs.Call.{refs_fun};
ghost use Rattle.jg_text.specs.Words.{text_of, FitsWord};
ghost use Rattle.jg_text.specs.Operands.{refs_kinds, refs_operands};
ghost use Rattle.jg_text.specs.Pieces.{rest_fields, after_spaces, IsOperandFault};

use crate::fault::ScriptFault;
use crate::operand::{read_one, read_two, write_one, write_two};
use jg_words::{RefsCall, RefsFun};
use std::alloc::{AllocError, Global};

/// The call of the function whose operands the fields left spell.
pub fn read(alloc: Global, fun: RefsFun, rest: Option<&[u8]>) -> Result<RefsCall, ScriptFault>
    ensures fits { IfOk result (λ c. AllByRecursion FitsWord (refs_operands c)) }
    ensures fun { IfOk result (λ c. refs_fun c ≡ fun) }
    ensures texts { IfOk result (λ c. map text_of (refs_operands c) ≡ rest_fields (option_copied rest.entry)) }
    ensures fault { IfErr result (IsOperandFault (refs_kinds fun) (rest_fields (option_copied rest.entry))) }
{
    match fun {
        RefsFun::NewLocalRef => {
            let of = read_one(alloc, rest)?;
            Ok(RefsCall::NewLocalRef { of })
        }
        RefsFun::NewGlobalRef => {
            let of = read_one(alloc, rest)?;
            Ok(RefsCall::NewGlobalRef { of })
        }
        RefsFun::NewWeakGlobalRef => {
            let of = read_one(alloc, rest)?;
            Ok(RefsCall::NewWeakGlobalRef { of })
        }
        RefsFun::DeleteLocalRef => {
            let of = read_one(alloc, rest)?;
            Ok(RefsCall::DeleteLocalRef { of })
        }
        RefsFun::DeleteGlobalRef => {
            let of = read_one(alloc, rest)?;
            Ok(RefsCall::DeleteGlobalRef { of })
        }
        RefsFun::DeleteWeakGlobalRef => {
            let of = read_one(alloc, rest)?;
            Ok(RefsCall::DeleteWeakGlobalRef { of })
        }
        RefsFun::IsSameObject => {
            let (first, second) = read_two(alloc, rest)?;
            Ok(RefsCall::IsSameObject { first, second })
        }
        RefsFun::GetObjectRefType => {
            let of = read_one(alloc, rest)?;
            Ok(RefsCall::GetObjectRefType { of })
        }
    }
}

/// Writes the call's operands, each after a space.
pub fn write(out: &mut String, call: &RefsCall) -> Result<(), AllocError>
    ensures { OnOk result (string_bytes out.new ≡ string_bytes out.old
        ++ after_spaces (map text_of (refs_operands call.now))) }
{
    match call {
        RefsCall::NewLocalRef { of } => write_one(out, of),
        RefsCall::NewGlobalRef { of } => write_one(out, of),
        RefsCall::NewWeakGlobalRef { of } => write_one(out, of),
        RefsCall::DeleteLocalRef { of } => write_one(out, of),
        RefsCall::DeleteGlobalRef { of } => write_one(out, of),
        RefsCall::DeleteWeakGlobalRef { of } => write_one(out, of),
        RefsCall::IsSameObject { first, second } => write_two(out, first, second),
        RefsCall::GetObjectRefType { of } => write_one(out, of),
    }
}
