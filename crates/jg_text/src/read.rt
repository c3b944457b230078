//! A line of a script.

ghost use Rattle.std.specs.Prelude.{◌≡◌, ◌<◌, ◌≤◌, length, IfOk, IfErr, OnOk, IsTrue, ◌↔◌, All};
ghost use Rattle.std.specs.Int.{IsInRange};
ghost use Rattle.std.specs.Option.{option_copied};
ghost use Rattle.std.specs.Str.{IsUtf8};
ghost use Rattle.jg_text.specs.Spelling.{Spells};
ghost use Rattle.jg_text.specs.Faults.{fields, NamesFirstFault};
ghost use Rattle.jg_text.specs.Pieces.{rest_fields};

use crate::fault::ScriptFault;
use crate::first::{first_env, first_tid};
use crate::groups;
use crate::number::count_of;
use crate::operand::cut;
use crate::takes::arity;
use jg_words::{Call, EnvId, Fun, Tid};
use std::alloc::Global;

/// The most bytes that a line has, without its line feed.
pub const MAX_LINE: usize = 65_536;

/// Whether each byte is from 0x20 to 0x7E.
pub fn is_printable(line: &[u8]) -> bool
    ensures { IsTrue result ↔ All (λ b. IsInRange 32 126 b) line.now }
{
    // No way out of the loop and no number wider than a byte, so that it goes over many bytes at once.
    let mut others = 0u8;
    for i in 0..line.len() {
        if line[i] < 0x20 || line[i] > 0x7e {
            others = 1;
        }
    }
    others == 0
}

/// How many fields are left, where something is left.
pub fn count_fields(rest: Option<&[u8]>) -> usize
    ensures { result ≡ length (rest_fields (option_copied rest.entry)) }
{
    match rest {
        None => 0,
        Some(text) => count_of(b' ', text) + 1,
    }
}

/// The same as `read_call`, for a line that isn't too long. The fault is the first only where each
/// byte is printable.
fn read_fields(alloc: Global, line: &[u8]) -> Result<(Tid, Option<EnvId>, Call), ScriptFault>
    requires { length line.now ≤ 65536 }
    ensures spelt { IfOk result (λ r. Spells line.now r.0 r.1 r.2) }
    ensures fault { IfErr result (λ f. All (λ b. IsInRange 32 126 b) line.now → NamesFirstFault line.now f) }
{
    let Some((tid, rest)) = first_tid(line) else {
        return Err(ScriptFault::NoThread);
    };
    let Some(rest) = rest else {
        return Err(ScriptFault::NoEnv);
    };
    let Some((env, rest)) = first_env(rest) else {
        return Err(ScriptFault::NoEnv);
    };
    let Some(rest) = rest else {
        return Err(ScriptFault::UnknownFunction);
    };
    let (name, rest) = cut(rest);
    let Some(fun) = Fun::of_bytes(name) else {
        return Err(ScriptFault::UnknownFunction);
    };
    match groups::read(alloc, fun, rest) {
        Ok(call) => Ok((tid, env, call)),
        Err(_) if count_fields(rest) != arity(fun) => Err(ScriptFault::WrongCount),
        Err(fault) => Err(fault),
    }
}

/// The thread, the environment and the call that a line spells: fields with single spaces
/// between them, each in its one spelling. Else the fault is the first that the line has of
/// `LineTooLong`, `NotAscii`, `NoThread`, `NoEnv`, `UnknownFunction`, `WrongCount` and
/// `BadOperand`; or `NoMemory`, in the place of any answer. The line is handed in without its
/// line feed; one that spells a call is text.
pub fn read_call(alloc: Global, line: &[u8]) -> Result<(Tid, Option<EnvId>, Call), ScriptFault>
    ensures spelt { IfOk result (λ r. Spells line.now r.0 r.1 r.2) }
    ensures text { OnOk result (IsUtf8 line.now) }
    ensures fault { IfErr result (NamesFirstFault line.now) }
{
    if line.len() > MAX_LINE {
        return Err(ScriptFault::LineTooLong);
    }
    // What spells a call is printable, so the bytes are looked through only where nothing is spelt.
    match read_fields(alloc, line) {
        Ok(spelt) => Ok(spelt),
        Err(fault) if is_printable(line) => Err(fault),
        Err(_) => Err(ScriptFault::NotAscii),
    }
}
