//! Calls over a heap that has too little left: each growth is refused in turn, and later the call is answered. That a
//! refused call changes nothing, and what it is answered later, the contract of `Guard::call` says.

use super::guarded;
use jg_guard::Guard;
use jg_script::read_call;
use linked_list_allocator::LocalHeap;
use std::alloc::{AllocError, Allocator, Global};
use std::test::Fail;

/// Local 1.1 is to name its first class. The use of both modules is warned of.
pub(super) const SETUP: &str = "version = 1
illegal_native_access = \"warn\"
[[class]]
name = \"lib/Tool\"
module = \"lib\"
natives = [{ name = \"go\", type = \"()V\" }, { name = \"stop\", type = \"()V\" }]
[[class]]
name = \"other/Tool\"
module = \"other\"
";

const OPENING: &str = "T1 - AttachCurrentThread
T1 E1.1 FindClass lib/Tool
T1 E1.1 RegisterNatives L1.1 go ()V
";

const ARRAY: &str = "T1 E1.1 NewIntArray 3";

const STRING: &str = "T1 E1.1 NewString [72,105]";

/// With a copy of the array, which differs from it.
const COPIED_ARRAY: &str = "T1 E1.1 NewIntArray 3
T1 E1.1 GetIntArrayElements L1.2
T1 - BufferWrite B1.1 0 7";

/// With the array pinned.
const PINNED_ARRAY: &str = "T1 E1.1 NewIntArray 3
T1 E1.1 GetPrimitiveArrayCritical L1.2";

/// References of each kind, of which one is deleted, buffers and monitors.
const LEAVING: &str = "T2 - AttachCurrentThread
T2 E2.1 NewString [72,105]
T2 E2.1 NewGlobalRef L2.1
T2 E2.1 NewWeakGlobalRef L2.1
T2 E2.1 DeleteLocalRef L2.1
T2 E2.1 GetStringChars G2.2
T2 E2.1 GetStringCritical G2.2
T1 E1.1 MonitorEnter G2.2
T1 E1.1 MonitorEnter L1.1";

/// In place of a call: the guard is to list what is left behind.
const LISTING: &str = "list";

/// What is there before, a call that is made up to five times, and the call whose growths are refused in turn.
const GROWING: [(&str, &str, &str); 20] = [
    ("", STRING, STRING),
    (
        "",
        "T1 E1.1 NewLocalRef L1.1",
        "T1 E1.1 NewStringUTF [72,105]",
    ),
    ("", ARRAY, ARRAY),
    (
        "",
        "T1 E1.1 NewLocalRef L1.1",
        "T1 E1.1 NewObjectArray 3 L1.1 L1.1",
    ),
    ("", "T1 E1.1 AllocObject L1.1", "T1 E1.1 AllocObject L1.1"),
    (
        "",
        "T1 E1.1 NewLocalRef L1.1",
        "T1 E1.1 GetObjectClass L1.1",
    ),
    ("", "T1 E1.1 PushLocalFrame 1", "T1 E1.1 PushLocalFrame 1"),
    (
        "",
        "T1 E1.1 NativeEnter lib/Tool go ()V",
        "T1 E1.1 NativeEnter lib/Tool go ()V",
    ),
    (
        "",
        "T1 E1.1 NativeEnter lib/Tool go ()V",
        "T1 E1.1 NativeLeave L1.2",
    ),
    ("", "T1 E1.1 NewLocalRef L1.1", "T2 - AttachCurrentThread"),
    ("", "T1 E1.1 NewGlobalRef L1.1", "T1 E1.1 NewGlobalRef L1.1"),
    (
        "",
        "T1 E1.1 NewWeakGlobalRef L1.1",
        "T1 E1.1 NewWeakGlobalRef L1.1",
    ),
    ("", "T1 E1.1 NewLocalRef L1.1", "T1 E1.1 MonitorEnter L1.1"),
    ("", "T1 E1.1 AllocObject L1.1", "T0 - Collect"),
    (
        ARRAY,
        "T1 E1.1 GetIntArrayElements L1.2",
        "T1 E1.1 GetIntArrayElements L1.2",
    ),
    (
        STRING,
        "T1 E1.1 GetStringChars L1.2",
        "T1 E1.1 GetStringChars L1.2",
    ),
    (
        STRING,
        "T1 E1.1 GetStringUTFChars L1.2",
        "T1 E1.1 GetStringUTFChars L1.2",
    ),
    (
        ARRAY,
        "T1 E1.1 GetPrimitiveArrayCritical L1.2",
        "T1 E1.1 GetPrimitiveArrayCritical L1.2",
    ),
    (
        STRING,
        "T1 E1.1 GetStringCritical L1.2",
        "T1 E1.1 GetStringCritical L1.2",
    ),
    (LEAVING, "T1 E1.1 NewLocalRef L1.1", LISTING),
];

/// What is there before, a call that is made up to five times, and one that finds the journal's block full.
const JOURNALED: [(&str, &str, &str); 21] = [
    (
        COPIED_ARRAY,
        "T1 E1.1 GetIntArrayElements L1.2",
        "T1 E1.1 ReleaseIntArrayElements L1.2 B1.1 0",
    ),
    (
        COPIED_ARRAY,
        "T1 E1.1 GetIntArrayElements L1.2",
        "T1 E1.1 ReleaseIntArrayElements L1.2 B1.1 1",
    ),
    (
        COPIED_ARRAY,
        "T1 E1.1 GetIntArrayElements L1.2",
        "T1 E1.1 ReleaseIntArrayElements L1.2 B1.1 2",
    ),
    (
        PINNED_ARRAY,
        "T1 E1.1 GetPrimitiveArrayCritical L1.2",
        "T1 E1.1 ReleasePrimitiveArrayCritical L1.2 B1.1 0",
    ),
    (
        PINNED_ARRAY,
        "T1 E1.1 GetPrimitiveArrayCritical L1.2",
        "T1 E1.1 ReleasePrimitiveArrayCritical L1.2 B1.1 1",
    ),
    (
        PINNED_ARRAY,
        "T1 E1.1 GetPrimitiveArrayCritical L1.2",
        "T1 E1.1 ReleasePrimitiveArrayCritical L1.2 B1.1 2",
    ),
    (
        "T1 E1.1 NewString [72,105]\nT1 E1.1 GetStringChars L1.2",
        "T1 E1.1 GetStringChars L1.2",
        "T1 E1.1 ReleaseStringChars L1.2 B1.1",
    ),
    (
        "T1 E1.1 NewString [72,105]\nT1 E1.1 GetStringUTFChars L1.2",
        "T1 E1.1 GetStringUTFChars L1.2",
        "T1 E1.1 ReleaseStringUTFChars L1.2 B1.1",
    ),
    (
        "T1 E1.1 NewString [72,105]\nT1 E1.1 GetStringCritical L1.2",
        "T1 E1.1 GetStringCritical L1.2",
        "T1 E1.1 ReleaseStringCritical L1.2 B1.1",
    ),
    (
        COPIED_ARRAY,
        "T1 - BufferRead B1.1 0",
        "T1 - BufferRead B1.1 0",
    ),
    (
        COPIED_ARRAY,
        "T1 - BufferRead B1.1 0",
        "T1 - BufferWrite B1.1 1 8",
    ),
    (
        PINNED_ARRAY,
        "T1 - BufferRead B1.1 0",
        "T1 - BufferRead B1.1 0",
    ),
    (
        PINNED_ARRAY,
        "T1 - BufferRead B1.1 0",
        "T1 - BufferWrite B1.1 1 8",
    ),
    (
        COPIED_ARRAY,
        "T1 E1.1 GetIntArrayRegion L1.2 0 3",
        "T1 E1.1 ReleaseIntArrayElements L1.2 B1.1 0",
    ),
    (
        COPIED_ARRAY,
        "T1 E1.1 GetIntArrayRegion L1.2 0 3",
        "T1 E1.1 ReleaseIntArrayElements L1.2 B1.1 1",
    ),
    (
        COPIED_ARRAY,
        "T1 - BufferRead B1.1 0",
        "T1 - BufferWrite B1.1 0 8",
    ),
    (
        PINNED_ARRAY,
        "T1 - BufferRead B1.1 0",
        "T1 - BufferWrite B1.1 0 8",
    ),
    ("", "T1 E1.1 ExceptionCheck", "T1 E1.1 FindClass no/Such"),
    (
        "T1 E1.1 PushLocalFrame 1",
        "T1 E1.1 GetObjectRefType L1.1",
        "T1 E1.1 PopLocalFrame L1.1",
    ),
    (
        "",
        "T1 E1.1 GetObjectRefType L1.1",
        "T1 E1.1 RegisterNatives L1.1 stop ()V",
    ),
    (
        "",
        "T1 E1.1 GetObjectRefType L1.1",
        "T1 E1.1 LoadLibrary other/Tool tool",
    ),
];

/// A call that takes memory. Before it come the first calls of `opening`, all of `further`, and one that is made so
/// often, which takes up what the tables have in reserve. The journal has room for the call, or its block is full.
#[derive(Clone, Copy)]
pub(super) struct Growth<'a> {
    pub(super) setup: &'a str,
    pub(super) full: bool,
    pub(super) opening: &'a str,
    pub(super) first: usize,
    pub(super) further: &'a str,
    pub(super) earlier: &'a str,
    pub(super) times: usize,
    pub(super) call: &'a str,
}

/// Makes the call of the line, behind which its outcome may stand, or lists what is left. Says whether memory was
/// enough.
pub(super) fn goes_through<A: Allocator + Clone>(
    guard: &mut Guard<A>,
    alloc: Global,
    line: &str,
) -> Result<bool, Fail> {
    if line == LISTING {
        return Ok(guard.leaks().is_ok());
    }
    let line = line.split_once(" = ").map_or(line, |(call, _)| call);
    let (tid, env, call) = read_call(alloc, line.as_bytes())?;
    Ok(guard.call(tid, env, call).is_ok())
}

/// Makes the calls of the first lines so often. There is memory for them.
pub(super) fn make<A: Allocator + Clone>(
    guard: &mut Guard<A>,
    alloc: Global,
    lines: &str,
    first: usize,
    times: usize,
) -> Result<(), Fail> {
    for _ in 0..times {
        for line in lines.lines().take(first) {
            if !goes_through(guard, alloc, line)? {
                return Err(Fail::from("memory ran out"));
            }
        }
    }
    Ok(())
}

/// Makes room for entries, and the calls before the one that grows. A full block has 1,024 entries.
fn open<A: Allocator + Clone>(
    guard: &mut Guard<A>,
    alloc: Global,
    growth: Growth<'_>,
) -> Result<(), Fail> {
    if guard.reserve(100).is_err() {
        return Err(Fail::from("memory ran out"));
    }
    make(guard, alloc, growth.opening, growth.first, 1)?;
    make(guard, alloc, growth.further, usize::MAX, 1)?;
    make(guard, alloc, growth.earlier, 1, growth.times)?;
    let entries = if growth.full { 1024usize } else { 0 };
    let left = entries.saturating_sub(guard.journal_len());
    make(guard, alloc, "T9 - GetEnv", 1, left)
}

/// Memory of a heap that can be given back.
type Kept<'a> = Vec<Vec<u8, &'a LocalHeap>>;

/// Takes all that a heap has left.
fn exhaust<'a>(heap: &'a LocalHeap, kept: &mut Kept<'a>) -> Result<(), AllocError> {
    for size in [65_536usize, 4_096, 256, 16, 1] {
        for _ in 0..100_000u32 {
            match Vec::with_capacity(heap, size) {
                Ok(block) => kept.push(block)?,
                Err(_) => break,
            }
        }
    }
    Ok(())
}

/// Takes all that a heap has left but so many bytes in one piece.
fn leave<'a>(heap: &'a LocalHeap, room: usize, kept: &mut Kept<'a>) -> Result<(), AllocError> {
    let left: Vec<u8, &'a LocalHeap> = Vec::with_capacity(heap, room)?;
    exhaust(heap, kept)?;
    drop(left);
    Ok(())
}

/// Whether the call is refused. Then it is answered once what is kept is given back.
fn is_refused_once(
    guard: &mut Guard<&LocalHeap>,
    kept: &mut Kept<'_>,
    alloc: Global,
    line: &str,
) -> Result<bool, Fail> {
    let answered = goes_through(guard, alloc, line)?;
    kept.clear();
    make(guard, alloc, line, 1, usize::from(!answered))?;
    Ok(!answered)
}

/// The same after the calls that come before, with so many bytes left of the heap.
fn is_refused_with<'a>(
    guard: &mut Guard<&'a LocalHeap>,
    heap: &'a LocalHeap,
    room: usize,
    alloc: Global,
    growth: Growth<'_>,
) -> Result<bool, Fail> {
    open(guard, alloc, growth)?;
    let mut kept = Vec::new(alloc);
    leave(heap, room, &mut kept)?;
    is_refused_once(guard, &mut kept, alloc, growth.call)
}

fn is_refused(
    heap: &LocalHeap,
    room: usize,
    alloc: Global,
    growth: Growth<'_>,
) -> Result<bool, Fail> {
    let mut guard = guarded(heap, alloc, growth.setup, 10_000)?;
    is_refused_with(&mut guard, heap, room, alloc, growth)
}

/// How often the call is refused. Where the journal's block is full there is room for what a call takes, and not for
/// another block. Else a heap has nothing left for it, and then 16 bytes more each time, up to where it is answered.
pub(super) fn refusals(heap: &LocalHeap, alloc: Global, growth: Growth<'_>) -> Result<usize, Fail> {
    if growth.full {
        return Ok(usize::from(is_refused(heap, 100_000, alloc, growth)?));
    }
    for more in 0..1000usize {
        if !is_refused(heap, more.saturating_mul(16), alloc, growth)? {
            return Ok(more);
        }
    }
    Err(Fail::from("never answered"))
}

/// The same after up to five of the earlier calls.
fn refusals_of<'a>(
    heap: &LocalHeap,
    alloc: Global,
    full: bool,
    further: &'a str,
    earlier: &'a str,
    call: &'a str,
) -> Result<usize, Fail> {
    let mut count = 0usize;
    for times in 0..6usize {
        let growth = Growth {
            setup: SETUP,
            full,
            opening: OPENING,
            first: 3,
            further,
            earlier,
            times,
            call,
        };
        count = count.saturating_add(refusals(heap, alloc, growth)?);
    }
    Ok(count)
}

/// A refused call is answered later.
#[test]
fn every_growth_is_refused_in_turn(rt: HostRuntime) -> Result<(), Fail> {
    let heap = LocalHeap::new(rt.alloc(), 1_000_000)?;
    for (further, earlier, call) in GROWING {
        let count = refusals_of(&heap, rt.alloc(), false, further, earlier, call)?;
        assert!(rt; count > 0, "`{call}` is never refused");
    }
    Ok(())
}

#[test]
fn a_full_block_refuses_each_call(rt: HostRuntime) -> Result<(), Fail> {
    let heap = LocalHeap::new(rt.alloc(), 1_000_000)?;
    for (further, earlier, call) in JOURNALED {
        let count = refusals_of(&heap, rt.alloc(), true, further, earlier, call)?;
        assert!(rt; count == 6, "`{call}` is refused {count} times");
    }
    Ok(())
}
