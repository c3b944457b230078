//! The scripts of a file are played, each thread's by a worker, and the journal is written.

ghost use Rattle.std.specs.Prelude.{◌≡◌, ◌≢◌, ◌≤◌, [], Result};
ghost use Rattle.std.specs.IoError.{error_kind};
ghost use Rattle.std.specs.declared.io.ErrorKind.TheVariants.{OutOfMemory};
ghost use Rattle.jg_script.specs.declared.run_fault.RunFault.TheVariants.{NoMemory, Read};
ghost use Rattle.jg_program.specs.declared.stop.ProgramStop.TheVariants.{Run};
ghost use Rattle.jg_program.specs.declared.stop.Status.{Status as StatusOf};
ghost use Rattle.jg_program.specs.declared.stop.ProgramStop.{ProgramStop as StopOf};
ghost use Rattle.jg_program.specs.Ended.{IsHandedOn};
ghost use Rattle.jg_shell.specs.declared.settle.FinishFault.TheVariants.{Differs};
ghost use Rattle.jg_shell.specs.Work.{AreApart};
ghost use Rattle.jg_program.specs.Plays.{AreReceipts, EndsPlay, HandsOut, PlaysOut, ReadsFile, Settles, SettlesBy, TellsDifference, first_stop_of};
ghost use Rattle.jg_program.specs.Reported.{Reports};

use crate::about::{About, end_unread};
use crate::advising::advice_on;
use crate::reporting::{Reporting, report};
use crate::stop::{ProgramEnd, ProgramStop, Status, quietly};
use crate::terms::Terms;
use jg_guard::Guard;
use jg_policy::{Setup, SetupFault};
use jg_script::{HandsOn, RunFault, Scripts, Watched, read_script_lines, write_journal};
use jg_shell::{FinishFault, Finished, Meeting, SharedGuard, Worker, finish, play};
use jg_words::Tid;
use std::alloc::Global;
use std::io;
use std::io::{BufReader, ErrorKind, Read};
use std::marker::Brand;
use std::sync::Wait;
use std::sync::ledger::{Blank, Ledger};
use std::thread::Threads;

/// The most bytes of a file of scripts that are read at once.
const BUFFER: usize = 65_536;

/// How often a worker looks whether all others have come, before it begins without them.
const LOOKS: u32 = 10_000;

/// What ends the program where a file of scripts can't be opened.
pub fn script_stop_of(error: &io::Error) -> ProgramStop
    ensures memory { error_kind error.now ≡ OutOfMemory → result ≡ Run (NoMemory 1) }
    ensures unread { error_kind error.now ≢ OutOfMemory → result ≡ Run (Read 1) }
{
    match error.kind() {
        ErrorKind::OutOfMemory => ProgramStop::Run(RunFault::NoMemory { line: 1 }),
        _ => ProgramStop::Run(RunFault::Read { line: 1 }),
    }
}

/// Why the first worker that stopped did so.
fn first_stop<L: Ledger>(workers: &[Worker<L>]) -> Option<jg_shell::Stop>
    ensures { result ≡ first_stop_of workers.now }
{
    for worker in workers {
        if let Some(stop) = worker.stopped() {
            return Some(stop);
        }
    }
    None
}

/// Writes the guard's journal, and hands on what is still buffered; a failure of that counts as a
/// failed write of the last line.
fn hand_out<W: HandsOn>(
    alloc: Global,
    guard: &Guard,
    out: &mut Watched<W>,
) -> Result<(), ProgramStop>
    ensures written { HandsOut (W.contents out.old.device) (W.contents out.new.device) guard.now result }
    ensures handed_on { IsHandedOn (W.holds_nothing out.new.device) out.new.failed result }
{
    let written = write_journal(alloc, guard, out);
    let Ok(()) = out.flush() else {
        let line = guard.journal_len().max(1) as u64;
        return Err(ProgramStop::Run(RunFault::Write { line }));
    };
    match written {
        Ok(()) => Ok(()),
        Err(fault) => Err(ProgramStop::Run(fault)),
    }
}

/// Writes the journal of a play whose journal is just what its threads were told.
fn hand_out_told<L: Ledger, W: HandsOn>(
    alloc: Global,
    finished: &Finished<L>,
    out: &mut Watched<W>,
) -> Result<Status, ProgramStop>
    requires { AreReceipts finished.now.guard finished.now.workers.items }
    ensures settles { SettlesBy finished.now.guard finished.now.workers.items (W.contents out.old.device)
        (W.contents out.new.device) result }
    ensures handed_on { IsHandedOn (W.holds_nothing out.new.device) out.new.failed result }
{
    if let Err(stop) = hand_out(alloc, &finished.guard, out) {
        return Err(stop);
    }
    match first_stop(finished.workers.as_slice()) {
        Some(stop) => Err(ProgramStop::Worker(stop)),
        None => Ok(Status::Done),
    }
}

/// Ends a play whose journal is just what its threads were told.
fn end_told<L: Ledger, W: HandsOn>(
    alloc: Global,
    reporting: Reporting,
    finished: Finished<L>,
    out: &mut Watched<W>,
) -> ProgramEnd
    requires { AreReceipts finished.guard finished.workers.items }
    ensures settles { Settles reporting finished.workers.items (W.contents out.old.device)
        (W.contents out.new.device) result }
    ensures handed_on { IsHandedOn (W.holds_nothing out.new.device) out.new.failed result.ended }
{
    let ended = hand_out_told(alloc, &finished, out);
    let advised = advice_on(alloc, reporting, &finished.guard);
    report(
        alloc,
        reporting,
        &finished.guard,
        About::Nothing,
        ended,
        advised,
    )
}

/// The thread and the place of the first difference, and what is handed back.
fn parts_of<L: Ledger>(fault: FinishFault<L>) -> (Tid, usize, Finished<L>)
    ensures { fault ≡ Differs result.0 result.1 result.2 }
{
    let FinishFault::Differs { tid, place, back } = fault;
    (tid, place, back)
}

/// Writes the journal of a play whose journal isn't what its threads were told: it is the first
/// difference that is handed in, of this thread at this place.
fn hand_out_different<L: Ledger, W: HandsOn>(
    alloc: Global,
    tid: Tid,
    place: usize,
    back: &Finished<L>,
    out: &mut Watched<W>,
) -> Result<Status, ProgramStop>
    ensures tells { TellsDifference tid place back.now.guard (W.contents out.old.device) (W.contents out.new.device)
        result }
    ensures handed_on { IsHandedOn (W.holds_nothing out.new.device) out.new.failed result }
{
    if let Err(stop) = hand_out(alloc, &back.guard, out) {
        return Err(stop);
    }
    Err(ProgramStop::Mismatch {
        thread: tid.0,
        place: place as u64,
    })
}

/// Ends such a play.
fn end_different<L: Ledger, W: HandsOn>(
    alloc: Global,
    reporting: Reporting,
    tid: Tid,
    place: usize,
    back: Finished<L>,
    out: &mut Watched<W>,
) -> ProgramEnd
    ensures tells { (ended : Result StatusOf StopOf) × TellsDifference tid place back.guard (W.contents out.old.device)
        (W.contents out.new.device) ended
        × Reports (λ about. about ≡ []) reporting back.guard.setup back.guard.journal ended result }
    ensures handed_on { IsHandedOn (W.holds_nothing out.new.device) out.new.failed result.ended }
{
    let ended = hand_out_different(alloc, tid, place, &back, out);
    let advised = advice_on(alloc, reporting, &back.guard);
    report(
        alloc,
        reporting,
        &back.guard,
        About::Nothing,
        ended,
        advised,
    )
}

/// Takes the guard out of its lock once its workers have run, and writes its journal.
fn settle_play<L: Ledger, W: HandsOn>(
    alloc: Global,
    reporting: Reporting,
    shared: SharedGuard<L>,
    workers: Vec<Worker<L>>,
    out: &mut Watched<W>,
) -> ProgramEnd
    requires { AreApart workers.items }
    ensures settles { Settles reporting workers.items (W.contents out.old.device) (W.contents out.new.device) result }
    ensures handed_on { IsHandedOn (W.holds_nothing out.new.device) out.new.failed result.ended }
{
    match finish(shared, workers) {
        Ok(finished) => end_told(alloc, reporting, finished, out),
        Err(fault) => {
            let (tid, place, back) = parts_of(fault);
            end_different(alloc, reporting, tid, place, back, out)
        }
    }
}

/// Plays the scripts under this setup by a thread each, which begin together, and writes the journal. The shares of the
/// ledger `L` count the calls.
fn play_scripts<L: Ledger + Send + Sync, T: Threads + Wait + Sync, W: HandsOn>(
    rt: &T,
    alloc: Global,
    terms: Terms,
    blank: Blank,
    setup: Setup,
    scripts: Scripts,
    out: &mut Watched<W>,
) -> ProgramEnd
    requires name { blank.name ≡ L.name }
    requires parts { blank.parts ≡ L.parts }
    requires enough { 64 ≤ blank.parts }
    requires turns { 1 ≤ terms.turns }
    ensures plays { PlaysOut terms.reporting terms.turns scripts (W.contents out.old.device)
        (W.contents out.new.device) result }
    ensures handed_on { IsHandedOn (W.holds_nothing out.new.device) out.new.failed result.ended }
{
    let Ok((shared, mut workers)) = SharedGuard::<L>::new(alloc, setup, terms.limit, scripts, blank)
    else {
        return quietly(alloc, Err(ProgramStop::Setup(SetupFault::NoMemory)));
    };
    let gate = Meeting::new(workers.len(), LOOKS);
    play(rt, &shared, workers.as_mut_slice(), terms.turns, &gate);
    settle_play(alloc, terms.reporting, shared, workers, out)
}

/// The scripts of a file. `line` is room for one of its lines, and holds the one that is refused at the end, if there
/// is one.
fn scripts_in<F: Read + Drop>(
    alloc: Global,
    file: F,
    line: &mut Vec<u8>,
) -> Result<Scripts, RunFault>
    ensures { ReadsFile (F.remaining file) line.new.items result }
{
    let Ok(reader) = BufReader::with_capacity(alloc, BUFFER, file) else {
        return Err(RunFault::NoMemory { line: 1 });
    };
    read_script_lines(alloc, &mut Watched::new(reader), line)
}

/// Plays the scripts of the file under this setup, and writes the journal.
pub fn play_file<T: Threads + Wait + Sync, F: Read + Drop, W: HandsOn>(
    rt: &T,
    alloc: Global,
    terms: Terms,
    setup: Setup,
    file: F,
    out: &mut Watched<W>,
) -> ProgramEnd
    requires { 1 ≤ terms.turns }
    ensures ends { EndsPlay terms.reporting terms.turns (F.remaining file) (W.contents out.old.device)
        (W.contents out.new.device) result }
{
    let mut line = Vec::new(alloc);
    match scripts_in(alloc, file, &mut line) {
        Ok(scripts) => {
            let blank = Blank::new(64);
            play_scripts::<Brand, _, _>(rt, alloc, terms, blank, setup, scripts, out)
        }
        Err(fault) => end_unread(alloc, terms.reporting.explain > 0, &line, fault),
    }
}
