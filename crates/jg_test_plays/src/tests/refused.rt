//! Calls for many threads: each does what it does, or says that memory ran out. Here nothing is refused;
//! `tests/refused --tests` runs these tests over memory that refuses one request after the other.

ghost use Rattle.std.specs.Prelude.{◌≡◌, ◌≤◌};

use super::{Ended, play_at};
use jg_policy::Setup;
use jg_script::{Scripts, Watched, read_scripts};
use jg_shell::{OpenGate, SharedGuard, Stop};
use jg_test_rows::setups::CLOSED;
use std::alloc::Global;
use std::marker::Brand;
use std::sync::ledger::{Blank, Ledger};
use std::test::Fail;

const SCRIPT: &str = "T1 - AttachCurrentThread
T2 - AttachCurrentThread
T1 E1.1 NewString [1]
T2 E2.1 NewString [2]
";

/// Whether a guard is made, with a worker for each of two threads; or memory runs out.
fn is_made<L: Ledger>(alloc: Global, setup: Setup, scripts: Scripts, blank: Blank) -> bool
    requires name { blank.name ≡ L.name }
    requires parts { blank.parts ≡ L.parts }
    requires enough { 64 ≤ blank.parts }
{
    match SharedGuard::<L>::new(alloc, setup, 100, scripts, blank) {
        Ok((_shared, workers)) => workers.len() == 2,
        Err(_) => true,
    }
}

/// The same with the scripts of both threads.
fn is_made_of_scripts(alloc: Global) -> Result<bool, Fail> {
    let scripts = read_scripts(alloc, &mut Watched::new(SCRIPT.as_bytes()))?;
    let setup = Setup::read(alloc, CLOSED)?;
    let blank = Blank::new(64);
    Ok(is_made::<Brand>(alloc, setup, scripts, blank))
}

#[test]
fn a_guard_is_shared_or_refused_for_want_of_memory(rt: HostRuntime) -> Result<(), Fail> {
    assert!(rt; is_made_of_scripts(rt.alloc())?);
    Ok(())
}

/// Whether the worker was told of both of its lines, or was stopped for want of memory before that.
fn has_ended(worker: &Ended) -> bool {
    match worker.stopped {
        None => worker.receipts == 2,
        Some(stop) => worker.receipts < 2 && stop == Stop::NoMemory,
    }
}

/// The receipts are the journal, also where a growth of the play is refused.
#[test]
fn a_play_ends_or_is_stopped_for_want_of_memory(rt: HostRuntime) -> Result<(), Fail> {
    let told = play_at(&rt, rt.alloc(), SCRIPT, 100, 1, &OpenGate)?;
    assert!(rt; told.workers.len() == 2 && told.workers.iter().all(has_ended));
    Ok(())
}
