//! Every order of the lines of two and of three workers.

use super::held;
use super::schedule::{Event, Hold};
use std::alloc::{AllocError, Global};
use std::sync::Wait;
use std::test::Fail;
use std::thread::Threads;

/// A global reference of the first thread, which the second uses and deletes.
const GLOBAL: &str = "T1 - AttachCurrentThread
T1 E1.1 NewString [72,105]
T1 E1.1 NewGlobalRef L1.1
T1 E1.1 GetStringLength G1.2
T2 - AttachCurrentThread
T2 E2.1 NewLocalRef G1.2
T2 E2.1 GetStringLength L2.1
T2 E2.1 DeleteGlobalRef G1.2
";

/// The monitor of a class.
const MONITOR: &str = "T1 - AttachCurrentThread
T1 E1.1 FindClass java/lang/String
T1 E1.1 MonitorEnter L1.1
T1 E1.1 MonitorExit L1.1
T2 - AttachCurrentThread
T2 E2.1 FindClass java/lang/String
T2 E2.1 MonitorEnter L2.1
T2 E2.1 MonitorExit L2.1
";

/// A copy of an array of the first thread, which the second writes and reads.
const COPY: &str = "T1 - AttachCurrentThread
T1 E1.1 NewIntArray 2
T1 E1.1 GetIntArrayElements L1.1
T1 E1.1 ReleaseIntArrayElements L1.1 B1.1 0
T2 - AttachCurrentThread
T2 - BufferWrite B1.1 0 7
T2 - BufferRead B1.1 0
T2 - BufferRead B1.1 1
";

/// The calls of the worked row `pin_through_global`: the second thread deletes the reference behind a pin, twice.
const PINNED: &str = "T1 - AttachCurrentThread
T1 E1.1 NewIntArray 2
T1 E1.1 NewGlobalRef L1.1
T1 E1.1 GetPrimitiveArrayCritical G1.2
T1 E1.1 ReleasePrimitiveArrayCritical G1.2 B1.1 0
T1 E1.1 GetArrayLength G1.2
T2 - AttachCurrentThread
T2 E2.1 DeleteGlobalRef G1.2
T2 E2.1 DeleteGlobalRef G1.2
";

/// A monitor that three threads ask for, and none leaves.
const ASKED: &str = "T1 - AttachCurrentThread
T1 E1.1 NewString []
T1 E1.1 NewGlobalRef L1.1
T1 E1.1 MonitorEnter G1.2
T2 - AttachCurrentThread
T2 E2.1 MonitorEnter G1.2
T3 - AttachCurrentThread
T3 E3.1 MonitorEnter G1.2
";

/// How often the thread stands in the order.
fn count_of(order: &[u16], tid: u16) -> usize {
    order.iter().filter(|other| **other == tid).count()
}

/// Each line waits for the receipt of the one before it in the order, which names the threads of the
/// lines.
fn one_by_one(alloc: Global, order: &[u16]) -> Result<Vec<Hold>, AllocError> {
    let mut holds = Vec::new(alloc);
    for place in 1..order.len() {
        let (earlier, later) = order.split_at(place);
        if let (Some(last), Some(tid)) = (earlier.last(), later.first()) {
            let line = count_of(earlier, *tid).saturating_add(1);
            let receipts = count_of(earlier, *last);
            holds.push(Hold(*tid, line, Event::Receipt(*last, receipts)))?;
        }
    }
    Ok(holds)
}

/// The digits of the number, to this base, as an order of threads from 1 on; longer where it has more digits.
fn order_of(alloc: Global, number: u16, base: u16, length: usize) -> Result<Vec<u16>, AllocError> {
    let base = base.max(1);
    let mut order = Vec::new(alloc);
    let mut rest = number;
    for _ in 0..length {
        order.push((rest % base).saturating_add(1))?;
        rest /= base;
    }
    if rest > 0 {
        order.push(0)?;
    }
    Ok(order)
}

/// Whether so many lines of each thread stand in the order, and no more than so many lines.
fn is_whole(counts: &[usize], order: &[u16], length: usize) -> bool {
    let mut counts = (1..).zip(counts);
    order.len() == length && counts.all(|(tid, count)| count_of(order, tid) == *count)
}

/// Whether the lines of the journal are of the threads in this order.
fn is_in_order(journal: &str, order: &[u16]) -> bool {
    let mut lines = journal.lines().zip(order);
    journal.lines().count() == order.len()
        && lines.all(|(line, tid)| match tid {
            1 => line.starts_with("T1 "),
            2 => line.starts_with("T2 "),
            _ => line.starts_with("T3 "),
        })
}

/// Whether the text stands in the journal of a play of the script in this order.
fn is_with<T: Threads + Wait + Sync>(
    rt: &T,
    alloc: Global,
    script: &str,
    order: &[u16],
    text: &str,
) -> Result<bool, Fail> {
    let holds = one_by_one(alloc, order)?;
    let played = held(rt, alloc, script, 100, &holds)?;
    if is_in_order(&played.journal, order) {
        Ok(played.journal.contains(text))
    } else {
        Err(Fail::from("the journal is in another order"))
    }
}

/// How many orders of so many lines of each thread there are, and in how many of them the journal has this text.
fn orders_with<T: Threads + Wait + Sync>(
    rt: &T,
    alloc: Global,
    script: &str,
    counts: &[usize],
    text: &str,
) -> Result<(usize, usize), Fail> {
    let base = u16::try_from(counts.len()).unwrap_or(u16::MAX);
    let length = script.lines().count();
    let (mut orders, mut with) = (0usize, 0usize);
    for number in 0..7000u16 {
        let order = order_of(alloc, number, base, length)?;
        if is_whole(counts, &order, length) {
            orders = orders.saturating_add(1);
            let found = is_with(rt, alloc, script, &order, text)?;
            with = with.saturating_add(usize::from(found));
        }
    }
    Ok((orders, with))
}

/// Each order is played by workers, and each line comes at its place. Of the 70 orders of four lines and four, the
/// reference is live whenever it is used in 13, the monitor is free whenever it is asked for in 30, 15 for each thread
/// that has it first, and the copy is lent whenever it is used in 4. Of the 84 of six lines and three, the first
/// deletion comes within the pin in 15, and the second after one that came too early in 6. Of the 420 of three threads,
/// the others ask before the reference is made in 90.
#[test]
fn every_order_of_lines(rt: HostRuntime) -> Result<(), Fail> {
    let scripts: [(&str, &[usize], &str, usize, usize); 5] = [
        (GLOBAL, &[4, 4], " = deny ", 70, 57),
        (MONITOR, &[4, 4], " = busy\n", 70, 40),
        (COPY, &[4, 4], " = deny ", 70, 66),
        (PINNED, &[6, 3], " = deny 13 Pinned\n", 84, 21),
        (ASKED, &[4, 2, 2], " = busy\n", 420, 330),
    ];
    for (script, counts, text, orders, with) in scripts {
        let found = orders_with(&rt, rt.alloc(), script, counts, text)?;
        assert_eq!(rt; found, (orders, with), "of{text}");
    }
    Ok(())
}
