//! Workers in threads of their own: how they meet, and many of them.

use super::play_at;
use jg_shell::{Gate, Meeting, OpenGate, Receipt};
use jg_words::Tid;
use std::alloc::{AllocError, Global};
use std::sync::atomic::{AtomicUsize, Ordering};
use std::test::Fail;

/// A meeting that counts who has come to it, and who got past it before all had.
#[derive(Drop)]
struct Counted {
    meeting: Meeting,
    come: AtomicUsize,
    early: AtomicUsize,
}

impl Counted {
    fn new(looks: u32) -> Counted {
        Counted {
            meeting: Meeting::new(WORKERS, looks),
            come: AtomicUsize::new(0),
            early: AtomicUsize::new(0),
        }
    }

    /// How many got past before all had come.
    fn early(&self) -> usize {
        self.early.load(Ordering::SeqCst)
    }
}

impl Gate for Counted {
    fn before(&self, tid: Tid, line: usize, turn: u32) {
        if line == 1 && turn == 1 {
            self.come.fetch_add(1, Ordering::SeqCst);
        }
        self.meeting.before(tid, line, turn);
        if line == 1 && self.come.load(Ordering::SeqCst) < WORKERS {
            self.early.fetch_add(1, Ordering::SeqCst);
        }
    }

    fn after(&self, receipt: &Receipt) {
        self.meeting.after(receipt);
    }
}

const WORKERS: usize = 6;

const SIX: &str = "T1 - AttachCurrentThread
T2 - AttachCurrentThread
T3 - AttachCurrentThread
T4 - AttachCurrentThread
T5 - AttachCurrentThread
T6 - AttachCurrentThread
T1 E1.1 NewString [1]
T2 E2.1 NewString [2]
";

/// Workers begin at once: none gets past its first line without the others.
#[test]
fn workers_meet(rt: HostRuntime) -> Result<(), Fail> {
    let gate = Counted::new(10_000_000);
    let met = play_at(&rt, rt.alloc(), SIX, 100, 3, &gate)?;
    assert_eq!(rt; met.journal.lines().count(), 8);
    assert_eq!(rt; (gate.early(), gate.meeting.gone_on()), (0, 0));
    Ok(())
}

/// At a meeting where nobody looks, each goes on at once, and the play has an end.
#[test]
fn workers_go_on_without_each_other(rt: HostRuntime) -> Result<(), Fail> {
    let gate = Counted::new(0);
    let met = play_at(&rt, rt.alloc(), SIX, 100, 3, &gate)?;
    assert_eq!(rt; met.journal.lines().count(), 8);
    assert_eq!(rt; gate.meeting.gone_on(), WORKERS);
    Ok(())
}

/// A line for each of 64 threads, which asks for its environment.
fn a_line_each(alloc: Global) -> Result<String, AllocError> {
    let mut text = String::new(alloc);
    for number in 1..65 {
        let line = format!(in alloc; "T{number} - GetEnv\n")?;
        text.push_str(&line)?;
    }
    Ok(text)
}

fn a_thousand_lines_each(alloc: Global) -> Result<String, AllocError> {
    let lines = a_line_each(alloc)?;
    let mut text = String::new(alloc);
    for _ in 0..1000u32 {
        text.push_str(&lines)?;
    }
    Ok(text)
}

#[test]
fn sixty_four_workers_play_a_thousand_lines_each(rt: HostRuntime) -> Result<(), Fail> {
    let script = a_thousand_lines_each(rt.alloc())?;
    let all = play_at(&rt, rt.alloc(), &script, 100_000, 3, &OpenGate)?;
    assert_eq!(rt; all.journal.lines().count(), 64_000);
    Ok(())
}

const TWO: &str = "T1 - AttachCurrentThread
T2 - AttachCurrentThread
T1 E1.1 NewString [1]
T2 E2.1 NewString [2]
";

#[test]
fn two_workers_agree_two_hundred_times(rt: HostRuntime) -> Result<(), Fail> {
    for time in 0..200u32 {
        let each = play_at(&rt, rt.alloc(), TWO, 100, 3, &OpenGate)?;
        assert!(rt; each.journal.lines().count() == 4, "at {time}");
    }
    Ok(())
}
