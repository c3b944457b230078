//! A journal is tested, and it is said what it is.

ghost use Rattle.std.specs.Prelude.{◌≡◌, ◌⊎◌, [], true, IfErr, OnErr, OnOk};
ghost use Rattle.std.specs.Fmt.{decimal};
ghost use Rattle.std.specs.Io.KnownBytes.{Appends, Keeps};
ghost use Rattle.jg_rules.specs.Legal.{Legal};
ghost use Rattle.jg_script.specs.declared.run_fault.RunFault.TheVariants.{NoMemory, Write};
ghost use Rattle.jg_program.specs.declared.stop.ProgramStop.{ProgramStop as StopOf};
ghost use Rattle.jg_program.specs.declared.stop.ProgramStop.TheVariants.{Run};
ghost use Rattle.jg_program.specs.declared.reporting.Reporting.{Reporting as ReportingOf};
ghost use Rattle.jg_program.specs.Advising.{StandsBeside};
ghost use Rattle.jg_program.specs.Ended.{EndsJournal, IsHandedOn, TestsLines};
ghost use Rattle.jg_program.specs.Verdicts.{difference_text, verdict_status, verdict_text};
ghost use Rattle.jg_program.specs.Reported.{EndsQuietly};

use crate::about::About;
use crate::advising::{advice_of, begin_advising};
use crate::reporting::report;
use crate::stop::{ProgramEnd, ProgramStop, Status, quietly};
use crate::terms::{Streams, Terms};
use itoa::Buffer;
use jg_guard::Guard;
use jg_guard_advice::GuardAdviser;
use jg_policy::Setup;
use jg_script::{
    DeviceFailed, HandsOn, Replayed, RunFault, Verdict, Watched, replay_beside, write_text,
};
use std::alloc::Global;
use std::io;
use std::io::BufRead;

pub fn write_number<W: io::Write>(out: &mut Watched<W>, n: u64) -> Result<(), DeviceFailed>
    ensures written { OnOk result (Appends (W.contents out.old.device) (W.contents out.new.device) (decimal n)) }
    ensures failed { OnErr result (out.new.failed ≡ true) }
{
    let mut digits = Buffer::new();
    write_text(out, digits.format(n).as_bytes())
}

/// Writes at which line a journal, or a record, differs.
pub fn write_difference<W: io::Write>(out: &mut Watched<W>, line: u64) -> Result<(), DeviceFailed>
    ensures written { OnOk result (Appends (W.contents out.old.device) (W.contents out.new.device)
        (difference_text line)) }
    ensures failed { OnErr result (out.new.failed ≡ true) }
{
    write_text(out, b"differs at line ")?;
    write_number(out, line)?;
    write_text(out, b"\n")
}

/// Writes what a journal is.
fn write_verdict<W: io::Write>(out: &mut Watched<W>, verdict: Verdict) -> Result<(), DeviceFailed>
    ensures written { OnOk result (Appends (W.contents out.old.device) (W.contents out.new.device)
        (verdict_text verdict)) }
    ensures failed { OnErr result (out.new.failed ≡ true) }
{
    match verdict {
        Verdict::Legal => write_text(out, b"legal\n"),
        Verdict::Differs(line) => write_difference(out, line),
    }
}

pub fn status_of(verdict: Verdict) -> Status
    ensures { result ≡ verdict_status verdict }
{
    match verdict {
        Verdict::Legal => Status::Done,
        Verdict::Differs(_) => Status::Differs,
    }
}

/// Says what a journal is.
fn say<W: io::Write>(out: &mut Watched<W>, verdict: Verdict) -> Result<(), ProgramStop>
    ensures said { OnOk result (Appends (W.contents out.old.device) (W.contents out.new.device)
        (verdict_text verdict)) }
    ensures failed { IfErr result (λ stop. (stop ≡ Run (Write 1)) × (out.new.failed ≡ true)) }
{
    match write_verdict(out, verdict) {
        Ok(()) => Ok(()),
        Err(_) => Err(ProgramStop::Run(RunFault::Write { line: 1 })),
    }
}

/// Tests the journal that the reader holds, by a guard that has taken no call, and says what it is.
/// `line` is room for one of its lines, and holds the one at which it differs. What is still buffered is
/// handed on before it ends; a failure of that counts as a failed write of line 1.
fn test_lines<R: BufRead, W: HandsOn>(
    alloc: Global,
    guard: &mut Guard,
    beside: &mut Option<GuardAdviser>,
    streams: &mut Streams<R, W>,
    line: &mut Vec<u8>,
) -> Result<Replayed, ProgramStop>
    requires { guard.old.journal ≡ [] }
    ensures tests { TestsLines (R.remaining streams.old.reader.device) (R.remaining streams.new.reader.device)
        (W.contents streams.old.out.device) (W.contents streams.new.out.device) guard.old.setup guard.old.limit
        guard.new.journal line.new.items result }
    ensures legal { Legal guard.new.setup guard.new.journal }
    ensures setup { guard.new.setup ≡ guard.old.setup }
    ensures handed_on { IsHandedOn (W.holds_nothing streams.new.out.device) streams.new.out.failed result }
    ensures beside { (r : ReportingOf) → StandsBeside r beside.old guard.old.setup []
        → StandsBeside r beside.new guard.new.setup guard.new.journal }
{
    let (reader, out) = (&mut streams.reader, &mut streams.out);
    let said = match replay_beside(alloc, guard, beside, reader, line) {
        Ok(replayed) => match say(out, replayed.verdict()) {
            Ok(()) => Ok(replayed),
            Err(stop) => Err(stop),
        },
        Err(fault) => Err(ProgramStop::Run(fault)),
    };
    match out.flush() {
        Ok(()) => said,
        Err(_) => Err(ProgramStop::Run(RunFault::Write { line: 1 })),
    }
}

/// Ends where memory ran out for the guard.
pub fn end_without_guard<W: HandsOn>(alloc: Global, out: &mut Watched<W>) -> ProgramEnd
    ensures ends { (stop : StopOf) × ((stop ≡ Run (NoMemory 1)) ⊎ (stop ≡ Run (Write 1))) × EndsQuietly stop result }
    ensures kept { Keeps (W.contents out.old.device) (W.contents out.new.device) }
    ensures handed_on { IsHandedOn (W.holds_nothing out.new.device) out.new.failed result.ended }
{
    match out.flush() {
        Ok(()) => quietly(alloc, Err(ProgramStop::Run(RunFault::NoMemory { line: 1 }))),
        Err(_) => quietly(alloc, Err(ProgramStop::Run(RunFault::Write { line: 1 }))),
    }
}

/// Tests the journal that the reader holds, under this setup, and says what it is.
pub fn test_journal<R: BufRead, W: HandsOn>(
    alloc: Global,
    terms: Terms,
    setup: Setup,
    streams: &mut Streams<R, W>,
) -> ProgramEnd
    ensures ends { EndsJournal terms.reporting setup (R.remaining streams.old.reader.device)
        (R.remaining streams.new.reader.device) (W.contents streams.old.out.device)
        (W.contents streams.new.out.device) terms.limit result }
    ensures handed_on { IsHandedOn (W.holds_nothing streams.new.out.device) streams.new.out.failed result.ended }
{
    let Ok(mut guard) = Guard::new(alloc, alloc, setup, terms.limit) else {
        return end_without_guard(alloc, &mut streams.out);
    };
    let mut line = Vec::new(alloc);
    let reporting = terms.reporting;
    let (mut beside, begun) = begin_advising(alloc, reporting);
    let tested = test_lines(alloc, &mut guard, &mut beside, streams, &mut line);
    let advised = advice_of(alloc, beside, begun);
    match tested {
        Ok(replayed) => {
            let status = status_of(replayed.verdict());
            report(
                alloc,
                reporting,
                &guard,
                About::Journal(replayed, &line),
                Ok(status),
                advised,
            )
        }
        Err(stop) => report(alloc, reporting, &guard, About::Nothing, Err(stop), advised),
    }
}
