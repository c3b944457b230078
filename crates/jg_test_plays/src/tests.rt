//! Tests of plays: workers in threads of their own, some of which a gate holds back.

ghost use Rattle.std.specs.Prelude.{◌≡◌, ◌≤◌};

mod busy;
mod limits;
mod meetings;
mod orders;
mod refused;
mod schedule;

use jg_guard::Guard;
use jg_policy::Setup;
use jg_script::{Scripts, Watched, read_scripts, write_journal};
use jg_shell::{FinishFault, Finished, Gate, SharedGuard, Stop, finish, play};
use jg_test_rows::setups::CLOSED;
use schedule::{Hold, Schedule};
use std::alloc::Global;
use std::marker::Brand;
use std::sync::Wait;
use std::sync::ledger::{Blank, Ledger};
use std::test::Fail;
use std::thread::Threads;

/// How many calls a worker was told of, and why it stopped before the end of its lines.
#[derive(Clone, Copy)]
struct Ended {
    receipts: usize,
    stopped: Option<Stop>,
}

/// What came of a play: the journal, and each worker, threads ascending.
#[derive(Drop)]
struct Played {
    journal: String,
    workers: Vec<Ended>,
}

/// The text of the guard's journal. The writer has room for a short one before, so that it doesn't fail.
fn journal_of(alloc: Global, guard: &Guard) -> Result<String, Fail> {
    let mut writer = Watched::new(Vec::with_capacity(alloc, 65_536)?);
    write_journal(alloc, guard, &mut writer)?;
    match String::from_utf8(writer.into_inner()) {
        Ok(text) => Ok(text),
        Err(_) => Err(Fail::from("the journal is no text")),
    }
}

fn told<L: Ledger>(alloc: Global, finished: &Finished<L>) -> Result<Played, Fail> {
    let mut workers = Vec::new(alloc);
    for worker in &finished.workers {
        workers.push(Ended {
            receipts: worker.receipts().len(),
            stopped: worker.stopped(),
        })?;
    }
    let journal = journal_of(alloc, &finished.guard)?;
    Ok(Played { journal, workers })
}

/// What came of a play whose journal agrees with the receipts.
fn agreed<L: Ledger>(
    alloc: Global,
    answer: Result<Finished<L>, FinishFault<L>>,
) -> Result<Played, Fail> {
    match answer {
        Ok(finished) => told(alloc, &finished),
        Err(_) => Err(Fail::from("the receipts differ from the journal")),
    }
}

/// Plays the scripts by a thread each.
fn finished<L: Ledger + Send + Sync, T: Threads + Wait + Sync, G: Gate>(
    rt: &T,
    alloc: Global,
    blank: Blank,
    setup: Setup,
    limit: u32,
    turns: u32,
    scripts: Scripts,
    gate: &G,
) -> Result<Played, Fail>
    requires name { blank.name ≡ L.name }
    requires parts { blank.parts ≡ L.parts }
    requires enough { 64 ≤ blank.parts }
    requires turns { 1 ≤ turns }
{
    let (shared, mut workers) = SharedGuard::<L>::new(alloc, setup, limit, scripts, blank)?;
    play(rt, &shared, workers.as_mut_slice(), turns, gate);
    agreed(alloc, finish(shared, workers))
}

/// Plays the script at this gate.
fn play_at<T: Threads + Wait + Sync, G: Gate>(
    rt: &T,
    alloc: Global,
    script: &str,
    limit: u32,
    turns: u32,
    gate: &G,
) -> Result<Played, Fail> {
    let scripts = read_scripts(alloc, &mut Watched::new(script.as_bytes()))?;
    let setup = Setup::read(alloc, CLOSED)?;
    let blank = Blank::new(64);
    let turns = turns.max(1);
    finished::<Brand, _, _>(rt, alloc, blank, setup, limit, turns, scripts, gate)
}

/// Plays the script, in which these lines are held back. Fails where an event that a line waits for doesn't come.
fn held<T: Threads + Wait + Sync>(
    rt: &T,
    alloc: Global,
    script: &str,
    limit: u32,
    holds: &[Hold],
) -> Result<Played, Fail> {
    let gate = Schedule::new(alloc, holds)?;
    let played = play_at(rt, alloc, script, limit, 1, &gate)?;
    if gate.has_given_up() {
        Err(Fail::from("the schedule gives up"))
    } else {
        Ok(played)
    }
}
