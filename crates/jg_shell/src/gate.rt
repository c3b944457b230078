//! What stands before and after each call of a worker.

use crate::receipt::Receipt;
use jg_words::Tid;
use std::sync::atomic::{AtomicUsize, Ordering};
use std::thread;

/// What a worker does around each of its calls, outside the lock.
pub trait Gate: Sync {
    /// Is called in the worker's thread before each call is made. Its line in the worker's script
    /// counts from 1; so does the turn, which is above 1 only where a MonitorEnter that was busy is
    /// made again.
    fn before(&self, tid: Tid, line: usize, turn: u32);

    /// Is called in the worker's thread after a call was journaled, with its receipt; not after a
    /// refusal.
    fn after(&self, receipt: &Receipt);
}

/// A gate that does nothing.
#[derive(Clone, Copy)]
pub struct OpenGate;

impl Gate for OpenGate {
    fn before(&self, _tid: Tid, _line: usize, _turn: u32) {}

    fn after(&self, _receipt: &Receipt) {}
}

/// A gate at which workers begin together: none makes its first call before all have come, nor its
/// second before all have made their first, so that their calls take turns. Before a busy MonitorEnter is
/// made again, it lets other threads go on.
#[derive(Drop)]
pub struct Meeting {
    workers: usize,
    looks: u32,
    come: AtomicUsize,
    /// How many calls were made, up to the number of the workers.
    made: AtomicUsize,
    gone_on: AtomicUsize,
}

impl Meeting {
    /// A meeting of so many workers. A worker looks at most `looks` times whether all have come, or have
    /// made a call, and yields after each look. Then it goes on without the others: one whose thread
    /// couldn't be made runs after another one, and comes too late.
    pub fn new(workers: usize, looks: u32) -> Meeting {
        Meeting {
            workers,
            looks,
            come: AtomicUsize::new(0),
            made: AtomicUsize::new(0),
            gone_on: AtomicUsize::new(0),
        }
    }

    /// How many workers made their first call without the others.
    pub fn gone_on(&self) -> usize {
        self.gone_on.load(Ordering::SeqCst)
    }

    /// Whether the count comes to that of the workers within so many looks.
    fn is_reached(&self, count: &AtomicUsize) -> bool {
        for _ in 0..self.looks {
            if count.load(Ordering::SeqCst) >= self.workers {
                return true;
            }
            thread::yield_now();
        }
        false
    }

    fn meet(&self) {
        self.come.fetch_add(1, Ordering::SeqCst);
        if !self.is_reached(&self.come) {
            self.gone_on.fetch_add(1, Ordering::SeqCst);
        }
    }
}

impl Gate for Meeting {
    fn before(&self, _tid: Tid, line: usize, turn: u32) {
        if turn > 1 {
            thread::yield_now();
        } else if line == 1 {
            self.meet();
        } else if line == 2 {
            let _in_time = self.is_reached(&self.made);
        }
    }

    fn after(&self, _receipt: &Receipt) {
        if self.made.load(Ordering::SeqCst) < self.workers {
            self.made.fetch_add(1, Ordering::SeqCst);
        }
    }
}
