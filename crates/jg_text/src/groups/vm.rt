//! The operands of calls of this group: attachment, environments, native methods and the
//! collector.

ghost use Rattle.std.specs.Prelude.{◌≡◌, ◌++◌, map, IfOk, IfErr, OnOk, string_bytes};
ghost use Rattle.std.specs.List.{AllByRecursion};
ghost use Rattle.std.specs.Option.{option_copied};
ghost use Rattle.jg_words.specs.Call.{vm_fun};
ghost use Rattle.jg_text.specs.Words.{text_of, FitsWord};
ghost use Rattle.jg_text.specs.Operands.{vm_kinds, vm_operands};
ghost use Rattle.jg_text.specs.Pieces.{rest_fields, after_spaces, IsOperandFault};

use crate::fault::ScriptFault;
use crate::operand::{
    read_none, read_one, read_three, read_two, write_one, write_three, write_two,
};
use jg_words::{VmCall, VmFun};
use std::alloc::{AllocError, Global};

/// The call of the function whose operands the fields left spell.
pub fn read(alloc: Global, fun: VmFun, rest: Option<&[u8]>) -> Result<VmCall, ScriptFault>
    ensures fits { IfOk result (λ c. AllByRecursion FitsWord (vm_operands c)) }
    ensures fun { IfOk result (λ c. vm_fun c ≡ fun) }
    ensures texts { IfOk result (λ c. map text_of (vm_operands c) ≡ rest_fields (option_copied rest.entry)) }
    ensures fault { IfErr result (IsOperandFault (vm_kinds fun) (rest_fields (option_copied rest.entry))) }
{
    match fun {
        VmFun::AttachCurrentThread => {
            read_none(rest)?;
            Ok(VmCall::AttachCurrentThread)
        }
        VmFun::DetachCurrentThread => {
            read_none(rest)?;
            Ok(VmCall::DetachCurrentThread)
        }
        VmFun::GetEnv => {
            read_none(rest)?;
            Ok(VmCall::GetEnv)
        }
        VmFun::NativeEnter => {
            let (class, method, signature) = read_three(alloc, rest)?;
            Ok(VmCall::NativeEnter {
                class,
                method,
                signature,
            })
        }
        VmFun::NativeLeave => {
            let kept = read_one(alloc, rest)?;
            Ok(VmCall::NativeLeave { kept })
        }
        VmFun::LoadLibrary => {
            let (class, library) = read_two(alloc, rest)?;
            Ok(VmCall::LoadLibrary { class, library })
        }
        VmFun::RegisterNatives => {
            let (class, method, signature) = read_three(alloc, rest)?;
            Ok(VmCall::RegisterNatives {
                class,
                method,
                signature,
            })
        }
        VmFun::UnregisterNatives => {
            let class = read_one(alloc, rest)?;
            Ok(VmCall::UnregisterNatives { class })
        }
        VmFun::Collect => {
            read_none(rest)?;
            Ok(VmCall::Collect)
        }
    }
}

/// Writes the call's operands, each after a space.
pub fn write(out: &mut String, call: &VmCall) -> Result<(), AllocError>
    ensures { OnOk result (string_bytes out.new ≡ string_bytes out.old
        ++ after_spaces (map text_of (vm_operands call.now))) }
{
    match call {
        VmCall::AttachCurrentThread => Ok(()),
        VmCall::DetachCurrentThread => Ok(()),
        VmCall::GetEnv => Ok(()),
        VmCall::NativeEnter {
            class,
            method,
            signature,
        } => write_three(out, class, method, signature),
        VmCall::NativeLeave { kept } => write_one(out, kept),
        VmCall::LoadLibrary { class, library } => write_two(out, class, library),
        VmCall::RegisterNatives {
            class,
            method,
            signature,
        } => write_three(out, class, method, signature),
        VmCall::UnregisterNatives { class } => write_one(out, class),
        VmCall::Collect => Ok(()),
    }
}
