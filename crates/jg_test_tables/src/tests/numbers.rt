//! Tests of values by number, whose memory follows what is there at once.

use jg_lists::ByNumber;
use linked_list_allocator::LocalHeap;
use std::alloc::{AllocError, Allocator};
use std::test::Fail;

/// Which numbers have a value in turn, how many of them at a time, and the bytes that suffice for these.
struct Turns {
    name: &'static str,
    bytes: usize,
    count: u64,
    held: u64,
    first: u64,
    stride: u64,
}

impl Turns {
    fn number(&self, turn: u64) -> u64 {
        self.first.wrapping_add(turn.wrapping_mul(self.stride))
    }
}

/// Gives each number a value, and takes that of the number `held` turns before it out.
fn churn<A: Allocator>(table: &mut ByNumber<u64, A>, turns: &Turns) -> Result<(), AllocError> {
    for turn in 0..turns.count {
        let number = turns.number(turn);
        if !table.contains(number) {
            table.add(number, turn)?;
        }
        if let Some(old) = turn.checked_sub(turns.held) {
            table.remove(turns.number(old));
        }
    }
    Ok(())
}

const TURNS: [Turns; 3] = [
    Turns {
        name: "ten at a time",
        bytes: 2000,
        count: 40_000,
        held: 10,
        first: 0,
        stride: 1,
    },
    Turns {
        name: "none between two turns",
        bytes: 600,
        count: 10_000,
        held: 0,
        first: 0,
        stride: 1,
    },
    Turns {
        name: "numbers that are far apart, the greatest first",
        bytes: 600,
        count: 10_000,
        held: 3,
        first: u64::MAX,
        stride: 1 << 40,
    },
];

/// Memory follows what is there at once, whatever was there before, and whatever its numbers are.
#[test]
fn little_memory(rt: HostRuntime) -> Result<(), Fail> {
    for turns in &TURNS {
        let heap = LocalHeap::new(rt.alloc(), turns.bytes)?;
        let mut table = ByNumber::new(&heap, &heap);
        assert!(rt; churn(&mut table, turns).is_ok(), "{}", turns.name);
    }
    Ok(())
}

/// Adds numbers until one is refused, and takes all out again. They are such that many searches go past slots of
/// others. How many there were.
fn fill_and_empty<A: Allocator>(table: &mut ByNumber<u64, A>) -> u64 {
    let mut count = 0;
    for turn in 0..5000u64 {
        let number = turn.wrapping_mul(4096);
        if table.contains(number) || table.add(number, turn).is_err() {
            break;
        }
        count = turn + 1;
    }
    for turn in 0..count {
        table.remove(turn.wrapping_mul(4096));
    }
    count
}

/// What is removed after a refusal makes room again.
#[test]
fn refused_add(rt: HostRuntime) -> Result<(), Fail> {
    let heap = LocalHeap::new(rt.alloc(), 20_000)?;
    let mut table = ByNumber::new(&heap, &heap);
    let count = fill_and_empty(&mut table);
    assert!(rt; count > 200 && count < 5000);
    assert_eq!(rt; fill_and_empty(&mut table), count);
    Ok(())
}
