//! Scripts and journals that are read over a heap with too little memory, and the making of a guard there.

use super::growths::{SETUP, make};
use super::guarded;
use crate::tests::repeated;
use jg_guard::Guard;
use jg_policy::Setup;
use jg_script::{RunFault, Verdict, Watched, check, verify};
use jg_test_rows::setups::CLOSED;
use linked_list_allocator::LocalHeap;
use std::alloc::{Allocator, Global};
use std::test::Fail;

/// What `check` answers to the script with a guard over `tables`. There is room for what it writes.
pub(super) fn answers_over<A: Allocator + Copy>(
    tables: A,
    alloc: Global,
    script: &str,
) -> Result<Result<u64, RunFault>, Fail> {
    let mut writer = Watched::new(Vec::with_capacity(alloc, 50_000)?);
    let mut guard = guarded(tables, alloc, CLOSED, 10_000)?;
    let mut reader = Watched::new(script.as_bytes());
    Ok(check(alloc, &mut guard, &mut reader, &mut writer))
}

/// What `verify` answers to the text with a guard over `tables`.
pub(super) fn verdict_over<A: Allocator + Copy>(
    tables: A,
    alloc: Global,
    text: &str,
) -> Result<Result<Verdict, RunFault>, Fail> {
    let setup = Setup::read(alloc, CLOSED)?;
    let mut reader = Watched::new(text.as_bytes());
    Ok(verify(alloc, tables, setup, 10_000, &mut reader))
}

fn first_block_in(heap: &LocalHeap, alloc: Global) -> Result<usize, Fail> {
    let mut guard = guarded(heap, alloc, CLOSED, 1)?;
    let before = heap.used();
    make(&mut guard, alloc, "T1 - GetEnv", 1, 1)?;
    Ok(heap.used().saturating_sub(before))
}

/// How many bytes of a heap a guard takes for its first block of entries.
fn first_block(alloc: Global) -> Result<usize, Fail> {
    let heap = LocalHeap::new(alloc, 1_000_000)?;
    first_block_in(&heap, alloc)
}

/// With room for one block of the journal and not for two the line past it is refused, of a script and of a journal.
#[test]
fn a_refused_growth_names_its_line(rt: HostRuntime) -> Result<(), Fail> {
    let block = first_block(rt.alloc())?;
    let heap = LocalHeap::new(rt.alloc(), block.saturating_add(block / 2))?;
    let script = repeated(rt.alloc(), "T1 - GetEnv\n", 1500)?;
    let answers = answers_over(&heap, rt.alloc(), &script)?;
    let journal = repeated(rt.alloc(), "T1 - GetEnv = detached\n", 1500)?;
    let verdict = verdict_over(&heap, rt.alloc(), &journal)?;
    assert_eq!(rt; answers, Err(RunFault::NoMemory { line: 1025 }));
    assert_eq!(rt; verdict, Err(RunFault::NoMemory { line: 1025 }));
    Ok(())
}

/// As many strings as a session's frame has room for: those past it would come with a notice.
const SIXTEEN_STRINGS: &str = "T1 - AttachCurrentThread = E1.1
T1 E1.1 NewString [72,105] = L1.1
T1 E1.1 NewString [72,105] = L1.2
T1 E1.1 NewString [72,105] = L1.3
T1 E1.1 NewString [72,105] = L1.4
T1 E1.1 NewString [72,105] = L1.5
T1 E1.1 NewString [72,105] = L1.6
T1 E1.1 NewString [72,105] = L1.7
T1 E1.1 NewString [72,105] = L1.8
T1 E1.1 NewString [72,105] = L1.9
T1 E1.1 NewString [72,105] = L1.10
T1 E1.1 NewString [72,105] = L1.11
T1 E1.1 NewString [72,105] = L1.12
T1 E1.1 NewString [72,105] = L1.13
T1 E1.1 NewString [72,105] = L1.14
T1 E1.1 NewString [72,105] = L1.15
T1 E1.1 NewString [72,105] = L1.16
";

/// The line at which a reading over so many bytes is refused; none where it is done.
fn refused_line(alloc: Global, bytes: usize) -> Result<Option<u64>, Fail> {
    let heap = LocalHeap::new(alloc, bytes)?;
    match verdict_over(&heap, alloc, SIXTEEN_STRINGS)? {
        Ok(Verdict::Legal) => Ok(None),
        Err(RunFault::NoMemory { line }) => Ok(Some(line)),
        _ => Err(Fail::from("the reading ends otherwise")),
    }
}

/// Over heaps of growing sizes a reading ends for want of memory at no earlier line, and is done at
/// last.
#[test]
fn every_growth_of_a_reading_is_refused_in_turn(rt: HostRuntime) -> Result<(), Fail> {
    let block = first_block(rt.alloc())?;
    let (mut last, mut done) = (0u64, false);
    for room in 0..1000usize {
        let bytes = block.saturating_add(room.saturating_mul(16));
        let refused = refused_line(rt.alloc(), bytes)?;
        let line = refused.unwrap_or(last);
        assert!(rt; line >= last && !(done && refused.is_some()), "at {room}");
        last = line;
        done = refused.is_none();
    }
    assert!(rt; done && last > 1, "refused at {last} at last");
    Ok(())
}

fn is_made(heap: &LocalHeap, alloc: Global) -> Result<bool, Fail> {
    let setup = Setup::read(alloc, SETUP)?;
    Ok(Guard::new(heap, alloc, setup, 10).is_ok())
}

/// Over heaps of growing sizes the making of a guard is refused until there is room, and never later.
/// Either way nothing stays in use.
#[test]
fn a_guard_is_refused_until_there_is_room(rt: HostRuntime) -> Result<(), Fail> {
    let mut refused = 0usize;
    for more in 0..500usize {
        let heap = LocalHeap::new(rt.alloc(), more.saturating_mul(16))?;
        let made = is_made(&heap, rt.alloc())?;
        refused = refused.saturating_add(usize::from(!made));
        let is_first = made || refused == more.saturating_add(1);
        assert!(rt; is_first && heap.used() == 0, "with {more} times 16 bytes");
    }
    assert!(rt; 0 < refused && refused < 500, "refused {refused} times");
    Ok(())
}
