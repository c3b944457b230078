//! A script is answered line by line.

ghost use Rattle.std.specs.Prelude.{◌≡◌, []};
ghost use Rattle.jg_rules.specs.Legal.{Legal};
ghost use Rattle.jg_script.specs.Checked.{Checks, HoldsFaulty, Reads, IsScript, ReaderFails, WriterFails};

use crate::answer::answer_line;
use crate::beside::{Alone, Beside};
use crate::run_fault::RunFault;
use jg_guard::Guard;
use jg_lines::{LineFault, Taken, Watched, hand_over, next_line};
use jg_text::{MAX_LINE, ScriptFault};
use std::alloc::{Allocator, Global};
use std::io::{BufRead, Write};

/// Answers the lines of a script as `check_lines` does, with that beside the guard.
pub fn check_beside<A: Allocator + Clone, B: Beside<A>, R: BufRead, W: Write>(
    alloc: Global,
    guard: &mut Guard<A>,
    beside: &mut B,
    reader: &mut Watched<R>,
    writer: &mut Watched<W>,
    text: &mut Vec<u8>,
) -> Result<u64, RunFault>
    requires { guard.old.journal ≡ [] }
    ensures checks { Checks (R.remaining reader.old.device) (R.remaining reader.new.device)
        (W.contents writer.old.device) (W.contents writer.new.device) guard.old.limit guard.new.journal result }
    ensures faulty { HoldsFaulty (R.remaining reader.old.device) guard.new.journal text.new.items result }
    ensures reads { Reads (R.remaining reader.old.device) (R.remaining reader.new.device) guard.new.journal result }
    ensures legal { Legal guard.new.setup guard.new.journal }
    ensures script { IsScript guard.new.journal }
    ensures setup { guard.new.setup ≡ guard.old.setup }
    ensures limit { guard.new.limit ≡ guard.old.limit }
    ensures reader { ReaderFails reader.old.failed reader.new.failed result }
    ensures writer { WriterFails writer.old.failed writer.new.failed result }
    ensures follows { (first : B) → B.follows first beside.old guard.old.setup []
        → B.follows first beside.new guard.new.setup guard.new.journal }
{
    let limit = u64::from(guard.limit());
    for line in 1..limit + 2 {
        hand_over(reader, writer);
        let taken = match next_line(reader, text) {
            Ok(taken) => taken,
            Err(LineFault::Read) => return Err(RunFault::Read { line }),
            Err(LineFault::NoMemory) => return Err(RunFault::NoMemory { line }),
        };
        match taken {
            Taken::Nothing => return Ok(line - 1),
            Taken::TooLong => {
                return Err(RunFault::Script {
                    line,
                    fault: ScriptFault::LineTooLong,
                });
            }
            Taken::Line => {
                if let Err(fault) = answer_line(alloc, guard, beside, writer, text, line) {
                    return Err(fault);
                }
            }
            Taken::LastLine => {
                return match answer_line(alloc, guard, beside, writer, text, line) {
                    Ok(()) => Ok(line),
                    Err(fault) => Err(fault),
                };
            }
        }
    }
    unreachable!()
}

/// Answers the lines of a script as `check` does. `text` is room for a line: what it held is lost. After
/// `Script` it holds the faulty line, without its line feed, unless that is too long.
pub fn check_lines<A: Allocator + Clone, R: BufRead, W: Write>(
    alloc: Global,
    guard: &mut Guard<A>,
    reader: &mut Watched<R>,
    writer: &mut Watched<W>,
    text: &mut Vec<u8>,
) -> Result<u64, RunFault>
    requires { guard.old.journal ≡ [] }
    ensures checks { Checks (R.remaining reader.old.device) (R.remaining reader.new.device)
        (W.contents writer.old.device) (W.contents writer.new.device) guard.old.limit guard.new.journal result }
    ensures faulty { HoldsFaulty (R.remaining reader.old.device) guard.new.journal text.new.items result }
    ensures reads { Reads (R.remaining reader.old.device) (R.remaining reader.new.device) guard.new.journal result }
    ensures legal { Legal guard.new.setup guard.new.journal }
    ensures script { IsScript guard.new.journal }
    ensures setup { guard.new.setup ≡ guard.old.setup }
    ensures limit { guard.new.limit ≡ guard.old.limit }
    ensures reader { ReaderFails reader.old.failed reader.new.failed result }
    ensures writer { WriterFails writer.old.failed writer.new.failed result }
{
    check_beside(alloc, guard, &mut Alone, reader, writer, text)
}

/// Answers the lines of a script, each before the next is read, and gives their number. The guard's
/// journal is empty before (`Guard::journal_len`). What was written before a fault stays written, and
/// what the guard took stays in its journal. Nothing is read after the first faulty line, so at most
/// the limit and one line more are read. `Read` and `Write` come only where the device failed, which
/// is then marked so; `NoMemory` may come at any line.
pub fn check<A: Allocator + Clone, R: BufRead, W: Write>(
    alloc: Global,
    guard: &mut Guard<A>,
    reader: &mut Watched<R>,
    writer: &mut Watched<W>,
) -> Result<u64, RunFault>
    requires { guard.old.journal ≡ [] }
    ensures checks { Checks (R.remaining reader.old.device) (R.remaining reader.new.device)
        (W.contents writer.old.device) (W.contents writer.new.device) guard.old.limit guard.new.journal result }
    ensures reads { Reads (R.remaining reader.old.device) (R.remaining reader.new.device) guard.new.journal result }
    ensures legal { Legal guard.new.setup guard.new.journal }
    ensures script { IsScript guard.new.journal }
    ensures setup { guard.new.setup ≡ guard.old.setup }
    ensures limit { guard.new.limit ≡ guard.old.limit }
    ensures reader { ReaderFails reader.old.failed reader.new.failed result }
    ensures writer { WriterFails writer.old.failed writer.new.failed result }
{
    let Ok(mut text) = Vec::with_capacity(alloc, MAX_LINE + 1) else {
        return Err(RunFault::NoMemory { line: 1 });
    };
    check_lines(alloc, guard, reader, writer, &mut text)
}
