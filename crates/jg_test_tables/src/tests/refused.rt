//! Calls that take memory from `Global`. Here nothing is refused, and each answers right. `tests/refused --tests` runs
//! these tests over memory that refuses one request after the other: then each answers right, or says that memory ran
//! out, by which the test ends.

use jg_policy::{Setup, SetupFault};
use jg_text::{ScriptFault, read_call, write_entry};
use jg_words::{Entry, Rule};
use std::alloc::{AllocError, Global};
use std::test::Fail;

const CLASSES: &str = "version = 1
illegal_native_access = \"warn\"
enable_native_access = [\"app\"]
[[class]]
name = \"app/Main\"
module = \"app\"
fields = [{ name = \"count\", type = \"I\" }, { name = \"next\", type = \"Lapp/Main;\" }]
natives = [{ name = \"run\", type = \"()V\" }]
[[class]]
name = \"lib/Tool\"
module = \"lib\"
throwable = true
";

const GRANTS: &str = "version = 2
illegal_native_access = \"deny\"
[[grant]]
module = \"app\"
operations = [\"register\", \"link\"]
";

const TWICE: &str = "version = 1
illegal_native_access = \"deny\"
[[class]]
name = \"app/Main\"
module = \"app\"
[[class]]
name = \"app/Main\"
module = \"lib\"
";

/// Texts of setups, and how many classes there are in all, or the fault.
const SETUPS: [(&str, Result<u32, SetupFault>); 6] = [
    ("version = 1\nillegal_native_access = \"deny\"\n", Ok(15)),
    (CLASSES, Ok(17)),
    (GRANTS, Ok(15)),
    ("version = 1\n", Err(SetupFault::Missing)),
    ("version = [", Err(SetupFault::NotToml)),
    (TWICE, Err(SetupFault::Duplicate)),
];

/// How many classes there are in the setup of the text.
fn class_count(alloc: Global, text: &str) -> Result<u32, SetupFault> {
    Ok(Setup::read(alloc, text)?.class_count())
}

/// The place of the first of the texts that isn't read so.
fn other_setup(alloc: Global) -> Result<Option<usize>, AllocError> {
    for (place, (text, want)) in SETUPS.iter().enumerate() {
        let count = class_count(alloc, *text);
        if count == Err(SetupFault::NoMemory) {
            return Err(AllocError);
        }
        if count != *want {
            return Ok(Some(place));
        }
    }
    Ok(None)
}

#[test]
fn setups_are_read_or_refused_for_want_of_memory(rt: HostRuntime) -> Result<(), Fail> {
    assert_eq!(rt; other_setup(rt.alloc())?, None);
    Ok(())
}

/// The text of version 2 of the setup of a text.
fn migrated(alloc: Global, text: &str) -> Result<String, SetupFault> {
    Setup::read(alloc, text)?.to_version_2(alloc)
}

/// Whether the text that the setup is written as is written so again.
fn is_written(alloc: Global, text: &str) -> Result<bool, SetupFault> {
    let once = migrated(alloc, text)?;
    let again = migrated(alloc, once.as_str())?;
    Ok(once.as_str() == again.as_str())
}

#[test]
fn setups_are_written_or_refused_for_want_of_memory(rt: HostRuntime) -> Result<(), Fail> {
    assert!(rt; is_written(rt.alloc(), CLASSES)?, "classes");
    assert!(rt; is_written(rt.alloc(), GRANTS)?, "grants");
    Ok(())
}

/// Lines whose operands take memory, and lines that are no calls, with their fault.
const LINES: [(&str, Option<ScriptFault>); 10] = [
    ("T1 E1.1 NewString [72,105]", None),
    ("T1 E1.1 NewStringUTF [72,105]", None),
    ("T1 E1.1 FindClass app/Main", None),
    ("T1 E1.1 GetFieldID L1.1 next Lapp/Main;", None),
    ("T1 E1.1 RegisterNatives L1.1 run ()V", None),
    ("T1 E1.1 NativeEnter app/Main run ()V", None),
    (
        "T1 E1.1 SetLongArrayRegion L1.1 0 [-9223372036854775808,9223372036854775807,0,-9223372036854775808,1]",
        None,
    ),
    ("T1 E1.1 NewString [72,105", Some(ScriptFault::BadOperand)),
    (
        "T1 E1.1 NativeEnter app/Main run",
        Some(ScriptFault::WrongCount),
    ),
    ("T1 E1.1 FindClass ", Some(ScriptFault::BadOperand)),
];

/// The text of an entry by which a copy of the line's call is denied.
fn denied(alloc: Global, line: &str) -> Result<String, ScriptFault> {
    let (tid, env, call) = read_call(alloc, line.as_bytes())?;
    let Ok(copy) = call.try_copy() else {
        return Err(ScriptFault::NoMemory);
    };
    match write_entry(alloc, &Entry::denied(tid, env, copy, Rule::Detached)) {
        Ok(text) => Ok(text),
        Err(_) => Err(ScriptFault::NoMemory),
    }
}

/// Whether the line is read as a call, which is written as the line again, or has this fault.
fn comes_back(alloc: Global, line: &str, want: Option<ScriptFault>) -> Result<bool, AllocError> {
    match denied(alloc, line) {
        Ok(text) => {
            let back = text.as_str().strip_suffix(" = deny 2 Detached\n");
            Ok(want.is_none() && back == Some(line))
        }
        Err(ScriptFault::NoMemory) => Err(AllocError),
        Err(fault) => Ok(want == Some(fault)),
    }
}

/// The place of the first of the lines that comes out otherwise.
fn other_line(alloc: Global) -> Result<Option<usize>, AllocError> {
    for (place, (line, want)) in LINES.iter().enumerate() {
        if !comes_back(alloc, *line, *want)? {
            return Ok(Some(place));
        }
    }
    Ok(None)
}

#[test]
fn lines_are_read_copied_and_written_or_refused_for_want_of_memory(
    rt: HostRuntime,
) -> Result<(), Fail> {
    assert_eq!(rt; other_line(rt.alloc())?, None);
    Ok(())
}
