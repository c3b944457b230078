//! The record of a journal is written, and it is said where the journal differs.

ghost use Rattle.std.specs.Prelude.{◌≡◌, [], IsOk};
ghost use Rattle.jg_program.specs.Ended.{IsHandedOn};
ghost use Rattle.jg_program.specs.Retold.{EndsFacts, RetellsLines, SaysRead, TellsLines, fault_told};

use crate::journal::{end_without_guard, status_of, write_difference};
use crate::stop::{ProgramEnd, ProgramStop, quietly};
use crate::terms::Streams;
use jg_guard::Guard;
use jg_journal_record::{RetellFault, retell_journal};
use jg_policy::Setup;
use jg_record::Unwritten;
use jg_script::{HandsOn, Replayed, RunFault, Verdict, Watched};
use std::alloc::Global;
use std::io::{BufRead, Write};

/// The fault as the program tells it. The lines of an entry have a text that isn't too long; had they none, the limit
/// would be told.
fn run_fault(fault: RetellFault) -> RunFault
    ensures { result ≡ fault_told fault }
{
    match fault {
        RetellFault::Unwritten { line, why } => match why {
            Unwritten::NoMemory => RunFault::NoMemory { line },
            Unwritten::NoText | Unwritten::TooLong => RunFault::Limit { line },
        },
        RetellFault::Write { line } => RunFault::Write { line },
    }
}

/// Says where the journal that was read differs, if it does. A failure counts as a failed write of that line.
fn say<W: Write>(
    out: &mut Watched<W>,
    read: Result<Replayed, RunFault>,
) -> Result<Replayed, ProgramStop>
    ensures said { SaysRead read (W.contents out.old.device) (W.contents out.new.device) result }
    ensures handed_on { IsOk read → IsHandedOn (Unit {0}) out.new.failed result }
{
    let replayed = match read {
        Ok(replayed) => replayed,
        Err(fault) => return Err(ProgramStop::Run(fault)),
    };
    match replayed.verdict() {
        Verdict::Legal => Ok(replayed),
        Verdict::Differs(line) => match write_difference(out, line) {
            Ok(()) => Ok(replayed),
            Err(_) => Err(ProgramStop::Run(RunFault::Write { line })),
        },
    }
}

/// Writes the record of the journal that the reader holds, by a guard that has taken no call, and says where the
/// journal differs.
fn tell_lines<R: BufRead, W: HandsOn>(
    alloc: Global,
    guard: &mut Guard,
    streams: &mut Streams<R, W>,
) -> Result<Replayed, ProgramStop>
    requires { guard.old.journal ≡ [] }
    ensures tells { TellsLines (R.remaining streams.old.reader.device) (R.remaining streams.new.reader.device)
        (W.contents streams.old.out.device) (W.contents streams.new.out.device) guard.old.setup guard.old.limit
        guard.new.journal result }
    ensures handed_on { IsHandedOn (Unit {0}) streams.new.out.failed result }
{
    let mut text = Vec::new(alloc);
    let (reader, out) = (&mut streams.reader, &mut streams.out);
    match retell_journal(alloc, guard, reader, out, &mut text) {
        Ok(read) => say(out, read),
        Err(fault) => Err(ProgramStop::Run(run_fault(fault))),
    }
}

/// The same, and hands on what is still buffered, also where it ends by a fault. A failure of that counts as a failed
/// write of the last line whose call was made again, or of line 1 where none was.
fn retell_lines<R: BufRead, W: HandsOn>(
    alloc: Global,
    guard: &mut Guard,
    streams: &mut Streams<R, W>,
) -> Result<Replayed, ProgramStop>
    requires { guard.old.journal ≡ [] }
    ensures retells { RetellsLines (R.remaining streams.old.reader.device) (R.remaining streams.new.reader.device)
        (W.contents streams.old.out.device) (W.contents streams.new.out.device) guard.old.setup guard.old.limit
        guard.new.journal result }
    ensures handed_on { IsHandedOn (W.holds_nothing streams.new.out.device) streams.new.out.failed result }
{
    let told = tell_lines(alloc, guard, streams);
    match streams.out.flush() {
        Ok(()) => told,
        Err(_) => Err(ProgramStop::Run(RunFault::Write {
            line: guard.journal_len().max(1) as u64,
        })),
    }
}

/// Writes the record of the journal that the reader holds, under this setup, and says where the journal differs.
pub fn retell_record<R: BufRead, W: HandsOn>(
    alloc: Global,
    limit: u32,
    setup: Setup,
    streams: &mut Streams<R, W>,
) -> ProgramEnd
    ensures ends { EndsFacts setup (R.remaining streams.old.reader.device) (R.remaining streams.new.reader.device)
        (W.contents streams.old.out.device) (W.contents streams.new.out.device) limit result }
    ensures handed_on { IsHandedOn (W.holds_nothing streams.new.out.device) streams.new.out.failed result.ended }
{
    let Ok(mut guard) = Guard::new(alloc, alloc, setup, limit) else {
        return end_without_guard(alloc, &mut streams.out);
    };
    match retell_lines(alloc, &mut guard, streams) {
        Ok(replayed) => quietly(alloc, Ok(status_of(replayed.verdict()))),
        Err(stop) => quietly(alloc, Err(stop)),
    }
}
