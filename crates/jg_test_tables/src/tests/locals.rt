//! Tests of the table of local references: many frames, many threads, and refused growths.

use super::{Growing, goes_on};
use jg_table_locals::Locals;
use jg_words::{ObjId, Tid};
use linked_list_allocator::LocalHeap;
use std::alloc::{AllocError, Allocator};
use std::test::Fail;

const T: Tid = Tid(1);

/// Starts the thread's session, if it has none.
fn start<A: Allocator + Clone>(locals: &mut Locals<A>, tid: Tid) -> Result<(), AllocError> {
    if locals.has_session(tid) {
        return Ok(());
    }
    locals.start_thread(tid)
}

/// Makes a local of a thread that has a session, above its others.
fn make<A: Allocator + Clone>(locals: &mut Locals<A>, tid: Tid, n: u64) -> Result<(), AllocError> {
    if locals.has_session(tid) && locals.is_above(tid, n) {
        locals.make(tid, n, ObjId(n))
    } else {
        Err(AllocError)
    }
}

fn push<A: Allocator + Clone>(locals: &mut Locals<A>) -> Result<(), AllocError> {
    if locals.has_session(T) && locals.pushed(T) < u64::MAX {
        locals.push(T, 1)
    } else {
        Err(AllocError)
    }
}

fn enter<A: Allocator + Clone>(locals: &mut Locals<A>) -> Result<(), AllocError> {
    if locals.has_session(T) && locals.depth(T) < u64::MAX {
        locals.enter(T)
    } else {
        Err(AllocError)
    }
}

/// A session and a local of each of 65,535 threads; and 100,000 locals more of one of them, a hundred in each frame.
fn fill(locals: &mut Locals) -> Result<(), AllocError> {
    for t in 0..u16::MAX {
        start(locals, Tid(t))?;
        make(locals, Tid(t), 1)?;
    }
    for n in 2..100_002u64 {
        if n % 100 == 2 {
            push(locals)?;
        }
        make(locals, T, n)?;
    }
    Ok(())
}

/// 65,535 threads have a session, and one of them a thousand frames, and no local is refused.
#[test]
fn many_threads_and_frames(rt: HostRuntime) {
    let mut locals = Locals::new(rt.alloc(), rt.alloc(), rt.alloc());
    assert!(rt; fill(&mut locals).is_ok());
}

/// A call that may be refused for want of memory.
#[derive(Clone, Copy)]
enum Growth {
    Start,
    Make,
    Reserve,
    ReserveStart,
    Push,
    Enter,
}

/// A table that grows by calls of one kind.
#[derive(Drop)]
struct Grown<'a> {
    locals: Locals<&'a LocalHeap>,
    growth: Growth,
}

impl Growing for Grown<'_> {
    fn grow(&mut self, n: u16) -> Result<(), AllocError> {
        let locals = &mut self.locals;
        start(locals, T)?;
        match self.growth {
            Growth::Start => start(locals, Tid(n)),
            Growth::Make => make(locals, T, n as u64),
            Growth::Reserve => {
                locals.reserve(T)?;
                make(locals, T, n as u64)
            }
            Growth::ReserveStart => {
                locals.reserve_start(Tid(n))?;
                start(locals, Tid(n))
            }
            Growth::Push => push(locals),
            Growth::Enter => enter(locals),
        }
    }
}

const GROWTHS: [(&str, Growth); 6] = [
    ("start", Growth::Start),
    ("make", Growth::Make),
    ("reserve", Growth::Reserve),
    ("reserve_start", Growth::ReserveStart),
    ("push", Growth::Push),
    ("enter", Growth::Enter),
];

#[test]
fn refused_growth(rt: HostRuntime) -> Result<(), Fail> {
    for (name, growth) in GROWTHS {
        let heap = LocalHeap::new(rt.alloc(), 16000)?;
        let locals = Locals::new(&heap, &heap, &heap);
        let mut grown = Grown { locals, growth };
        let mut block = Vec::new(&heap);
        assert!(rt; goes_on(&mut grown, &mut block, 12000), "{name}");
    }
    Ok(())
}
