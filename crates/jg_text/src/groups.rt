//! The operands of a call, by the call's group: reading and writing them.

ghost use Rattle.std.specs.Prelude.{◌≡◌, ◌++◌, IfOk, IfErr, OnOk, string_bytes};
ghost use Rattle.std.specs.Option.{option_copied};
ghost use Rattle.jg_text.specs.Operands.{operand_kinds, operand_texts};
ghost use Rattle.jg_text.specs.Pieces.{SpellCall};
ghost use Rattle.jg_text.specs.Pieces.{rest_fields, after_spaces, IsOperandFault};

mod arrays;
mod buffers;
mod exceptions;
mod frames;
mod monitors;
mod objects;
mod refs;
mod strings;
mod vm;

use crate::fault::ScriptFault;
use jg_words::{Call, Fun};
use std::alloc::{AllocError, Global};

/// The call of the function whose operands these fields are.
pub fn read(alloc: Global, fun: Fun, rest: Option<&[u8]>) -> Result<Call, ScriptFault>
    ensures spelt { IfOk result (SpellCall fun (rest_fields (option_copied rest.entry))) }
    ensures fault { IfErr result (IsOperandFault (operand_kinds fun) (rest_fields (option_copied rest.entry))) }
{
    match fun {
        Fun::Vm(fun) => vm::read(alloc, fun, rest).map(Call::Vm),
        Fun::Refs(fun) => refs::read(alloc, fun, rest).map(Call::Refs),
        Fun::Frames(fun) => frames::read(alloc, fun, rest).map(Call::Frames),
        Fun::Exceptions(fun) => exceptions::read(alloc, fun, rest).map(Call::Exceptions),
        Fun::Objects(fun) => objects::read(alloc, fun, rest).map(Call::Objects),
        Fun::Strings(fun) => strings::read(alloc, fun, rest).map(Call::Strings),
        Fun::Arrays(fun) => arrays::read(alloc, fun, rest).map(Call::Arrays),
        Fun::Monitors(fun) => monitors::read(alloc, fun, rest).map(Call::Monitors),
        Fun::Buffers(fun) => buffers::read(alloc, fun, rest).map(Call::Buffers),
    }
}

/// The operands, each after a space.
pub fn write(out: &mut String, call: &Call) -> Result<(), AllocError>
    ensures { OnOk result (string_bytes out.new ≡ string_bytes out.old ++ after_spaces (operand_texts call.now)) }
{
    match call {
        Call::Vm(call) => vm::write(out, call),
        Call::Refs(call) => refs::write(out, call),
        Call::Frames(call) => frames::write(out, call),
        Call::Exceptions(call) => exceptions::write(out, call),
        Call::Objects(call) => objects::write(out, call),
        Call::Strings(call) => strings::write(out, call),
        Call::Arrays(call) => arrays::write(out, call),
        Call::Monitors(call) => monitors::write(out, call),
        Call::Buffers(call) => buffers::write(out, call),
    }
}
