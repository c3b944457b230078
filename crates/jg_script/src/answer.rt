//! One line is answered.

ghost use Rattle.std.specs.Prelude.{◌≡◌, ◌<◌, ◌≤◌, Some, length, slice_get, IfErr, OnOk};
ghost use Rattle.std.specs.Str.{IsUtf8};
ghost use Rattle.jg_rules.specs.Legal.{Legal};
ghost use Rattle.jg_text.specs.Journal.{call_line, entry_text};
ghost use Rattle.jg_script.specs.Answered.{Answers, KeepsFaulty};
ghost use Rattle.jg_guard.specs.Guard.{next_entry};
ghost use Rattle.jg_script.specs.Entries.{Took, FailsCall};
ghost use Rattle.jg_script.specs.Checked.{WriterFails};

use crate::beside::Beside;
use crate::run_fault::RunFault;
use jg_guard::Guard;
use jg_lines::{Watched, write_text};
use jg_text::{ScriptFault, push_answer, read_call};
use jg_words::Entry;
use std::alloc::{AllocError, Allocator, Global};
use std::io::Write;
use std::mem;

/// The line of the newest entry's call becomes that of the entry, with its line feed.
#[inline(always)]
fn complete<A: Allocator + Clone>(
    alloc: Global,
    guard: &Guard<A>,
    text: &mut Vec<u8>,
) -> Result<(), AllocError>
    requires some { 0 < length guard.now.journal }
    requires text { IsUtf8 text.old.items }
    ensures { OnOk result ((e : Entry) → slice_get guard.now.journal 0 ≡ Some e → text.old.items ≡ call_line e
        → text.new.items ≡ entry_text e) }
{
    let bytes = mem::replace(text, Vec::new(alloc));
    // SAFETY: it is text, as the caller says and `rt` checks.
    let mut line = unsafe { String::from_utf8_unchecked(bytes) };
    let pushed = push_answer(&mut line, guard.newest());
    *text = line.into_bytes();
    pushed
}

/// Answers line number `line` of a script: the guard takes its call, and its entry is written. The
/// line becomes the entry's.
#[inline(always)]
pub fn answer_line<A: Allocator + Clone, B: Beside<A>, W: Write>(
    alloc: Global,
    guard: &mut Guard<A>,
    beside: &mut B,
    writer: &mut Watched<W>,
    text: &mut Vec<u8>,
    line: u64,
) -> Result<(), RunFault>
    requires { length guard.old.journal ≤ guard.old.limit }
    ensures answers { Answers (W.contents writer.old.device) (W.contents writer.new.device) guard.old guard.new
        text.old.items line result }
    ensures kept { KeepsFaulty text.old.items text.new.items result }
    ensures legal { Legal guard.old.setup guard.old.journal → Legal guard.new.setup guard.new.journal }
    ensures setup { guard.new.setup ≡ guard.old.setup }
    ensures limit { guard.new.limit ≡ guard.old.limit }
    ensures device { WriterFails writer.old.failed writer.new.failed result }
    ensures follows { (first : B) → B.follows first beside.old guard.old.setup guard.old.journal
        → B.follows first beside.new guard.new.setup guard.new.journal }
{
    let (tid, env, call) = match read_call(alloc, text) {
        Ok(spelt) => spelt,
        Err(ScriptFault::NoMemory) => return Err(RunFault::NoMemory { line }),
        Err(fault) => return Err(RunFault::Script { line, fault }),
    };
    if let Err(fault) = beside.take_call(guard, tid, env, call, line) {
        return Err(fault);
    }
    let Ok(()) = complete(alloc, guard, text) else {
        return Err(RunFault::NoMemory { line });
    };
    match write_text(writer, text) {
        Ok(()) => Ok(()),
        Err(_) => Err(RunFault::Write { line }),
    }
}
