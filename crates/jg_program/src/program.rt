//! What the program does, over any words, reader and writers.

ghost use Rattle.std.specs.Prelude.{IfOk, IfSome, ◌≡◌, ◌≤◌, []};
ghost use Rattle.jg_rules.specs.Legal.{Legal};
ghost use Rattle.jg_program.specs.declared.stop.Status.TheVariants.{Done};
ghost use Rattle.jg_program.specs.declared.reporting.Reporting.{Reporting as ReportingOf};
ghost use Rattle.jg_program.specs.Advising.{StandsBeside};
ghost use Rattle.jg_program.specs.Ended.{AnswersLines, EndsClosed, EndsScript, EndsUnder, IsHandedOn};

use crate::about::{About, end_refused};
use crate::advising::{advice_of, begin_advising};
use crate::files::Files;
use crate::journal::test_journal;
use crate::journal_record::retell_record;
use crate::migrating::migrate;
use crate::playing::{play_file, script_stop_of};
use crate::reporting::{Reporting, report};
use crate::setup_file::{setup_of, stop_of};
use crate::stop::{ProgramEnd, ProgramStop, Status, quietly, say_ending};
use crate::terms::{Streams, Terms};
use crate::watching::answer_record;
use jg_args::{ArgsFault, Asked, Task, help_text, read_words};
use jg_guard::Guard;
use jg_guard_advice::GuardAdviser;
use jg_policy::{Setup, SetupFault};
use jg_script::{HandsOn, RunFault, Watched, check_beside};
use jg_watch::Shown;
use std::alloc::Global;
use std::io::{BufRead, Read, Write};
use std::mem::forget;
use std::sync::Wait;
use std::thread::Threads;

/// The path that stands for standard input.
const STANDARD_INPUT: &str = "-";

/// What is done with the bytes on standard input.
#[derive(Clone, Copy)]
pub enum Job {
    /// They are a script, which is answered.
    Check,
    /// They are a journal, which is tested.
    Verify,
    /// They are a record, which is answered, and of which so much is shown.
    Watch(Shown),
    /// They are a journal, whose record is written.
    Facts,
}

/// Answers the lines of a script, by a guard that has taken no call; `line` is room for one of them, and
/// holds the faulty one at the end, if there is one. What is still buffered is handed on before it
/// ends, also where it ends by a fault; a failure of that counts as a failed write of the last line
/// that the guard took.
fn answer_lines<R: BufRead, W: HandsOn>(
    alloc: Global,
    guard: &mut Guard,
    beside: &mut Option<GuardAdviser>,
    streams: &mut Streams<R, W>,
    line: &mut Vec<u8>,
) -> Result<Status, ProgramStop>
    requires { guard.old.journal ≡ [] }
    ensures answers { AnswersLines (R.remaining streams.old.reader.device) (R.remaining streams.new.reader.device)
        (W.contents streams.old.out.device) (W.contents streams.new.out.device) guard.old.limit guard.new.journal
        line.new.items result }
    ensures legal { Legal guard.new.setup guard.new.journal }
    ensures setup { guard.new.setup ≡ guard.old.setup }
    ensures handed_on { IsHandedOn (W.holds_nothing streams.new.out.device) streams.new.out.failed result }
    ensures beside { (r : ReportingOf) → StandsBeside r beside.old guard.old.setup []
        → StandsBeside r beside.new guard.new.setup guard.new.journal }
{
    let (reader, out) = (&mut streams.reader, &mut streams.out);
    let checked = check_beside(alloc, guard, beside, reader, out, line);
    let Ok(()) = out.flush() else {
        let line = guard.journal_len().max(1) as u64;
        return Err(ProgramStop::Run(RunFault::Write { line }));
    };
    match checked {
        Ok(_) => Ok(Status::Done),
        Err(fault) => Err(ProgramStop::Run(fault)),
    }
}

/// Answers the script that the reader holds, under this setup. It owns the guard, and `answer_lines` borrows it, so
/// that no way out of that one drops a guard.
fn answer_script<R: BufRead, W: HandsOn>(
    alloc: Global,
    terms: Terms,
    setup: Setup,
    streams: &mut Streams<R, W>,
) -> ProgramEnd
    ensures ends { EndsScript terms.reporting setup (R.remaining streams.old.reader.device)
        (R.remaining streams.new.reader.device) (W.contents streams.old.out.device)
        (W.contents streams.new.out.device) terms.limit result }
    ensures handed_on { IsHandedOn (W.holds_nothing streams.new.out.device) streams.new.out.failed result.ended }
{
    let Ok(mut guard) = Guard::new(alloc, alloc, setup, terms.limit) else {
        return quietly(alloc, Err(ProgramStop::Setup(SetupFault::NoMemory)));
    };
    let mut line = Vec::new(alloc);
    let (mut beside, begun) = begin_advising(alloc, terms.reporting);
    let ended = answer_lines(alloc, &mut guard, &mut beside, streams, &mut line);
    let advised = advice_of(alloc, beside, begun);
    let ending = report(
        alloc,
        terms.reporting,
        &guard,
        About::Script(&line),
        ended,
        advised,
    );
    // Nothing but the ending's text comes after it: the system takes the journal back at once, and
    // not entry by entry.
    forget(guard);
    ending
}

/// Does the job with the bytes of the reader, under the setup that the given file states, of which the system told the
/// length, or under the closed one where none is given. The file is read and closed before the reader's first byte.
fn work<F: Read + Drop, R: BufRead, W: HandsOn>(
    alloc: Global,
    job: Job,
    terms: Terms,
    given: Option<(F, u64)>,
    streams: &mut Streams<R, W>,
) -> ProgramEnd
    ensures closed { given ≡ None → EndsClosed job terms.reporting (R.remaining streams.old.reader.device)
        (R.remaining streams.new.reader.device) (W.contents streams.old.out.device)
        (W.contents streams.new.out.device) terms.limit result }
    ensures under { IfSome given (λ file. EndsUnder job terms.reporting (F.remaining file.0) file.1
        (R.remaining streams.old.reader.device) (R.remaining streams.new.reader.device)
        (W.contents streams.old.out.device) (W.contents streams.new.out.device) terms.limit result) }
    ensures handed_on { IsHandedOn (W.holds_nothing streams.new.out.device) streams.new.out.failed result.ended }
{
    let setup = match setup_of(alloc, terms.reporting.explain > 0, given) {
        Ok(setup) => setup,
        Err(refused) => return refused,
    };
    match job {
        Job::Check => answer_script(alloc, terms, setup, streams),
        Job::Verify => test_journal(alloc, terms, setup, streams),
        Job::Watch(shown) => answer_record(alloc, terms.reporting, shown, setup, streams),
        Job::Facts => retell_record(alloc, terms.limit, setup, streams),
    }
}

/// Writes the help or the version, whichever the words ask for.
fn print_help<W: HandsOn>(alloc: Global, words: &[&str], out: &mut W) -> Result<Status, ProgramStop>
    ensures { IfOk result (λ status. (status ≡ Done) × W.holds_nothing out.new) }
{
    let Ok(text) = help_text(alloc, words) else {
        return Err(ProgramStop::NO_MEMORY);
    };
    let Ok(()) = out.write_all(text.as_bytes()) else {
        return Err(ProgramStop::Run(RunFault::Write { line: 1 }));
    };
    match out.hand_on() {
        Ok(()) => Ok(Status::Done),
        Err(_) => Err(ProgramStop::Run(RunFault::Write { line: 1 })),
    }
}

/// The file of the setup that is asked for, opened, and how long the system says that it is, or `None` where none is
/// asked for; or how the program ends where it can't be opened. No contract says what a path opens.
fn setup_at<S: Files>(
    alloc: Global,
    asked: Asked<'_>,
    files: &S,
) -> Result<Option<(S::File, u64)>, ProgramEnd> {
    let Some(path) = asked.setup else {
        return Ok(None);
    };
    match files.open(path) {
        Ok((file, told)) => Ok(Some((file, told))),
        Err(error) => Err(quietly(alloc, Err(stop_of(&error)))),
    }
}

/// Plays the scripts of the file at this path, or of standard input. The setup is read first.
fn serve_play<T: Threads + Wait + Sync, S: Files, R: BufRead + Drop, W: HandsOn + Drop>(
    rt: &T,
    alloc: Global,
    path: &str,
    asked: Asked<'_>,
    files: &S,
    reader: R,
    out: W,
) -> ProgramEnd
    requires { 1 ≤ asked.turns }
{
    let given = match setup_at(alloc, asked, files) {
        Ok(given) => given,
        Err(ending) => return ending,
    };
    let setup = match setup_of(alloc, asked.explain > 0, given) {
        Ok(setup) => setup,
        Err(ending) => return ending,
    };
    let (terms, mut out) = (terms_of(asked), Watched::new(out));
    if path == STANDARD_INPUT {
        return play_file(rt, alloc, terms, setup, reader, &mut out);
    }
    match files.open(path) {
        Ok((file, _)) => play_file(rt, alloc, terms, setup, file, &mut out),
        Err(error) => quietly(alloc, Err(script_stop_of(&error))),
    }
}

/// Writes the setup of the file at this path as a text of version 2.
fn serve_migration<S: Files, W: HandsOn + Drop>(
    alloc: Global,
    path: &str,
    files: &S,
    out: W,
) -> ProgramEnd {
    match files.open(path) {
        Ok((mut file, told)) => {
            let mut out = Watched::new(out);
            quietly(alloc, migrate(alloc, &mut file, told, &mut out))
        }
        Err(error) => quietly(alloc, Err(stop_of(&error))),
    }
}

fn shown_of(asked: Asked<'_>) -> Shown {
    if asked.denials {
        Shown::Denials
    } else {
        Shown::All
    }
}

fn terms_of(asked: Asked<'_>) -> Terms
    ensures { result.turns ≡ asked.entry.turns }
{
    Terms {
        reporting: Reporting {
            explain: asked.explain,
            advice: asked.advice,
            region: asked.region,
            strict: asked.strict,
            leaks: asked.leaks,
            summary: asked.summary,
        },
        limit: asked.limit,
        turns: asked.turns,
    }
}

/// How the program ends where the words ask for nothing to be done: for the help or the version, or they are refused.
fn end_without_task<W: HandsOn>(
    alloc: Global,
    words: &[&str],
    fault: ArgsFault,
    out: &mut W,
) -> ProgramEnd {
    match fault {
        ArgsFault::Help => quietly(alloc, print_help(alloc, words, out)),
        fault => end_refused(alloc, words, fault),
    }
}

/// Runs the program on the words after its name, with the files that they may name. The threads of
/// a play are made by `rt`.
pub fn run<T: Threads + Wait + Sync, S: Files, R: BufRead + Drop, W: HandsOn + Drop, E: Write>(
    rt: &T,
    alloc: Global,
    words: &[&str],
    files: &S,
    reader: R,
    mut out: W,
    err: &mut E,
) -> Status {
    let asked = match read_words(alloc, words) {
        Ok(asked) => asked,
        Err(fault) => return say_ending(end_without_task(alloc, words, fault, &mut out), err),
    };
    let job = match asked.task {
        Task::Check => Job::Check,
        Task::Verify => Job::Verify,
        Task::Watch => Job::Watch(shown_of(asked)),
        Task::Facts => Job::Facts,
        Task::Play(path) => {
            return say_ending(serve_play(rt, alloc, path, asked, files, reader, out), err);
        }
        Task::Migrate(path) => return say_ending(serve_migration(alloc, path, files, out), err),
    };
    let ending = match setup_at(alloc, asked, files) {
        Ok(given) => {
            let mut streams = Streams::new(reader, out);
            work(alloc, job, terms_of(asked), given, &mut streams)
        }
        Err(ending) => ending,
    };
    say_ending(ending, err)
}
