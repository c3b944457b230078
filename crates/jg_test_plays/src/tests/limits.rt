//! A limit that several threads meet, in several orders of their calls.

use super::schedule::{Event, Hold};
use super::{Ended, Played, held};
use jg_shell::Stop;
use std::test::Fail;

const SCRIPT: &str = "T1 - AttachCurrentThread
T1 E1.1 ExceptionCheck
T1 E1.1 ExceptionCheck
T2 - AttachCurrentThread
T2 E2.1 ExceptionCheck
T2 E2.1 ExceptionCheck
T3 - AttachCurrentThread
T3 E3.1 ExceptionCheck
T3 E3.1 ExceptionCheck
T4 - AttachCurrentThread
T4 E4.1 ExceptionCheck
T4 E4.1 ExceptionCheck
";

/// One thread after another.
const IN_TURN: [Hold; 3] = [
    Hold(2, 1, Event::Receipt(1, 3)),
    Hold(3, 1, Event::Receipt(2, 2)),
    Hold(4, 1, Event::Receipt(2, 2)),
];

/// All come to their second line before the first makes a call more, and the others go on after that.
const MEETING: [Hold; 6] = [
    Hold(1, 2, Event::Before(2, 2)),
    Hold(1, 2, Event::Before(3, 2)),
    Hold(1, 2, Event::Before(4, 2)),
    Hold(2, 2, Event::Receipt(1, 2)),
    Hold(3, 2, Event::Receipt(1, 2)),
    Hold(4, 2, Event::Receipt(1, 2)),
];

/// Whether the limit stopped the worker just where it was told of fewer calls than it has lines.
fn has_stopped(worker: &Ended) -> bool {
    match worker.stopped {
        None => worker.receipts == 3,
        Some(stop) => worker.receipts < 3 && stop == Stop::Limit,
    }
}

/// Whether five calls were made, and the limit stopped each worker that has lines left. Of the first workers is known
/// how many calls they were told of.
fn is_met(played: &Played, wanted: &[usize]) -> bool {
    let mut workers = played.workers.iter().zip(wanted);
    played.journal.lines().count() == 5
        && played.workers.iter().all(has_stopped)
        && workers.all(|(worker, count)| worker.receipts == *count)
}

#[test]
fn limit_of_five(rt: HostRuntime) -> Result<(), Fail> {
    let schedules: [(&str, &[Hold], &[usize]); 3] = [
        ("any order", &[], &[]),
        ("one after another", &IN_TURN, &[3, 2, 0, 0]),
        ("all at once", &MEETING, &[2, 1, 1, 1]),
    ];
    for (name, holds, wanted) in schedules {
        let played = held(&rt, rt.alloc(), SCRIPT, 5, holds)?;
        assert!(rt; is_met(&played, wanted), "in {name}");
    }
    Ok(())
}
