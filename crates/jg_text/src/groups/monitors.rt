//! The operands of calls of this group: monitors.

ghost use Rattle.std.specs.Prelude.{◌≡◌, ◌++◌, map, IfOk, IfErr, OnOk, string_bytes};
ghost use Rattle.std.specs.List.{AllByRecursion};
ghost use Rattle.std.specs.Option.{option_copied};
ghost use Rattle.jg_words.specs.Call.{monitors_fun};
ghost use Rattle.jg_text.specs.Words.{text_of, FitsWord};
ghost use Rattle.jg_text.specs.Operands.{monitors_kinds, monitors_operands};
ghost use Rattle.jg_text.specs.Pieces.{rest_fields, after_spaces, IsOperandFault};

use crate::fault::ScriptFault;
use crate::operand::{read_one, write_one};
use jg_words::{MonitorsCall, MonitorsFun};
use std::alloc::{AllocError, Global};

/// The call of the function whose operands the fields left spell.
pub fn read(
    alloc: Global,
    fun: MonitorsFun,
    rest: Option<&[u8]>,
) -> Result<MonitorsCall, ScriptFault>
    ensures fits { IfOk result (λ c. AllByRecursion FitsWord (monitors_operands c)) }
    ensures fun { IfOk result (λ c. monitors_fun c ≡ fun) }
    ensures texts { IfOk result (λ c. map text_of (monitors_operands c) ≡ rest_fields (option_copied rest.entry)) }
    ensures fault { IfErr result (IsOperandFault (monitors_kinds fun) (rest_fields (option_copied rest.entry))) }
{
    match fun {
        MonitorsFun::MonitorEnter => {
            let of = read_one(alloc, rest)?;
            Ok(MonitorsCall::MonitorEnter { of })
        }
        MonitorsFun::MonitorExit => {
            let of = read_one(alloc, rest)?;
            Ok(MonitorsCall::MonitorExit { of })
        }
    }
}

/// Writes the call's operands, each after a space.
pub fn write(out: &mut String, call: &MonitorsCall) -> Result<(), AllocError>
    ensures { OnOk result (string_bytes out.new ≡ string_bytes out.old
        ++ after_spaces (map text_of (monitors_operands call.now))) }
{
    match call {
        MonitorsCall::MonitorEnter { of } => write_one(out, of),
        MonitorsCall::MonitorExit { of } => write_one(out, of),
    }
}
