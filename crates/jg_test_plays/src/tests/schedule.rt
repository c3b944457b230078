//! Schedules: which line of which thread waits for what.

use jg_shell::{Gate, Receipt};
use jg_words::Tid;
use std::alloc::{AllocError, Global};
use std::sync::atomic::{AtomicBool, AtomicUsize, Ordering};
use std::thread;

/// How often a schedule looks before it gives up. After each look it yields.
const LOOKS: u32 = 10_000_000;

/// The highest thread of which a schedule keeps how far it came.
const LAST_THREAD: u16 = 4;

/// What a line waits for. Threads are named by their numbers.
#[derive(Clone, Copy)]
pub(super) enum Event {
    /// The thread was told of so many calls.
    Receipt(u16, usize),
    /// The thread has come to this line of its script, which counts from 1.
    Before(u16, usize),
}

/// A thread, a line of its script, from 1, and the event for which the line's call waits. A line may
/// wait for more than one.
#[derive(Clone, Copy)]
pub(super) struct Hold(pub(super) u16, pub(super) usize, pub(super) Event);

/// How far a thread has come: how many calls it was told of, and which line it came to last.
#[derive(Drop)]
struct Progress {
    receipts: AtomicUsize,
    line: AtomicUsize,
}

/// A gate at which lines wait as a table says. Where an event doesn't come, it gives up, and then no
/// line waits any longer.
#[derive(Drop)]
pub(super) struct Schedule<'a> {
    holds: &'a [Hold],
    // By the numbers of the threads.
    progress: Vec<Progress>,
    // The turns above 1 that it was told of, a digit each.
    turns: AtomicUsize,
    gave_up: AtomicBool,
}

impl<'a> Schedule<'a> {
    pub(super) fn new(alloc: Global, holds: &'a [Hold]) -> Result<Schedule<'a>, AllocError> {
        let mut progress = Vec::new(alloc);
        for _ in 0..=LAST_THREAD {
            progress.push(Progress {
                receipts: AtomicUsize::new(0),
                line: AtomicUsize::new(0),
            })?;
        }
        Ok(Schedule {
            holds,
            progress,
            turns: AtomicUsize::new(0),
            gave_up: AtomicBool::new(false),
        })
    }

    pub(super) fn has_given_up(&self) -> bool {
        self.gave_up.load(Ordering::SeqCst)
    }

    pub(super) fn turns(&self) -> usize {
        self.turns.load(Ordering::SeqCst)
    }

    fn of(&self, tid: u16) -> Option<&Progress> {
        self.progress.get(usize::from(tid))
    }

    fn has_come(&self, event: Event) -> bool {
        let (tid, wanted) = match event {
            Event::Receipt(tid, count) => (tid, count),
            Event::Before(tid, line) => (tid, line),
        };
        let Some(progress) = self.of(tid) else {
            return false;
        };
        let reached = match event {
            Event::Receipt(..) => progress.receipts.load(Ordering::SeqCst),
            Event::Before(..) => progress.line.load(Ordering::SeqCst),
        };
        reached >= wanted
    }

    fn wait_for(&self, event: Event) {
        for _ in 0..LOOKS {
            if self.has_come(event) || self.has_given_up() {
                return;
            }
            thread::yield_now();
        }
        self.gave_up.store(true, Ordering::SeqCst);
    }
}

impl Gate for Schedule<'_> {
    fn before(&self, tid: Tid, line: usize, turn: u32) {
        if turn > 1 {
            let turns = self.turns.load(Ordering::SeqCst).wrapping_mul(10);
            let turn = usize::try_from(turn).unwrap_or(0);
            self.turns.store(turns.wrapping_add(turn), Ordering::SeqCst);
        }
        if let Some(progress) = self.of(tid.0) {
            progress.line.store(line, Ordering::SeqCst);
        }
        for Hold(held, place, event) in self.holds {
            if *held == tid.0 && *place == line {
                self.wait_for(*event);
            }
        }
    }

    fn after(&self, receipt: &Receipt) {
        if let Some(progress) = self.of(receipt.tid.0) {
            progress.receipts.fetch_add(1, Ordering::SeqCst);
        }
    }
}
