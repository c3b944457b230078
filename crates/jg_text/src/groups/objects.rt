//! The operands of calls of this group: classes, objects and their fields.

ghost use Rattle.std.specs.Prelude.{◌≡◌, ◌++◌, map, IfOk, IfErr, OnOk, string_bytes};
ghost use Rattle.std.specs.List.{AllByRecursion};
ghost use Rattle.std.specs.Option.{option_copied};
ghost use Rattle.jg_words.specs.Call.{objects_fun};
ghost use Rattle.jg_text.specs.Words.{text_of, FitsWord};
ghost use Rattle.jg_text.specs.Operands.{objects_kinds, objects_operands};
ghost use Rattle.jg_text.specs.Pieces.{rest_fields, after_spaces, IsOperandFault};

use crate::fault::ScriptFault;
use crate::operand::{read_one, read_three, read_two, write_one, write_three, write_two};
use jg_words::{ObjectsCall, ObjectsFun};
use std::alloc::{AllocError, Global};

/// The call of the function whose operands the fields left spell.
pub fn read(alloc: Global, fun: ObjectsFun, rest: Option<&[u8]>) -> Result<ObjectsCall, ScriptFault>
    ensures fits { IfOk result (λ c. AllByRecursion FitsWord (objects_operands c)) }
    ensures fun { IfOk result (λ c. objects_fun c ≡ fun) }
    ensures texts { IfOk result (λ c. map text_of (objects_operands c) ≡ rest_fields (option_copied rest.entry)) }
    ensures fault { IfErr result (IsOperandFault (objects_kinds fun) (rest_fields (option_copied rest.entry))) }
{
    match fun {
        ObjectsFun::FindClass => {
            let name = read_one(alloc, rest)?;
            Ok(ObjectsCall::FindClass { name })
        }
        ObjectsFun::GetObjectClass => {
            let object = read_one(alloc, rest)?;
            Ok(ObjectsCall::GetObjectClass { object })
        }
        ObjectsFun::IsInstanceOf => {
            let (object, class) = read_two(alloc, rest)?;
            Ok(ObjectsCall::IsInstanceOf { object, class })
        }
        ObjectsFun::AllocObject => {
            let class = read_one(alloc, rest)?;
            Ok(ObjectsCall::AllocObject { class })
        }
        ObjectsFun::GetFieldID => {
            let (class, field, signature) = read_three(alloc, rest)?;
            Ok(ObjectsCall::GetFieldID {
                class,
                field,
                signature,
            })
        }
        ObjectsFun::GetField(primitive) => {
            let (object, field) = read_two(alloc, rest)?;
            Ok(ObjectsCall::GetField {
                primitive,
                object,
                field,
            })
        }
        ObjectsFun::GetObjectField => {
            let (object, field) = read_two(alloc, rest)?;
            Ok(ObjectsCall::GetObjectField { object, field })
        }
        ObjectsFun::SetField(primitive) => {
            let (object, field, value) = read_three(alloc, rest)?;
            Ok(ObjectsCall::SetField {
                primitive,
                object,
                field,
                value,
            })
        }
        ObjectsFun::SetObjectField => {
            let (object, field, value) = read_three(alloc, rest)?;
            Ok(ObjectsCall::SetObjectField {
                object,
                field,
                value,
            })
        }
    }
}

/// Writes the call's operands, each after a space.
pub fn write(out: &mut String, call: &ObjectsCall) -> Result<(), AllocError>
    ensures { OnOk result (string_bytes out.new ≡ string_bytes out.old
        ++ after_spaces (map text_of (objects_operands call.now))) }
{
    match call {
        ObjectsCall::FindClass { name } => write_one(out, name),
        ObjectsCall::GetObjectClass { object } => write_one(out, object),
        ObjectsCall::IsInstanceOf { object, class } => write_two(out, object, class),
        ObjectsCall::AllocObject { class } => write_one(out, class),
        ObjectsCall::GetFieldID {
            class,
            field,
            signature,
        } => write_three(out, class, field, signature),
        ObjectsCall::GetField { object, field, .. } => write_two(out, object, field),
        ObjectsCall::GetObjectField { object, field } => write_two(out, object, field),
        ObjectsCall::SetField {
            object,
            field,
            value,
            ..
        } => write_three(out, object, field, value),
        ObjectsCall::SetObjectField {
            object,
            field,
            value,
        } => write_three(out, object, field, value),
    }
}
