//! Tests of what is told of a fault that a line or a setup hasn't, and where memory was wanted.

use jg_fault_text::{push_line_fault, push_setup_fault};
use jg_policy::SetupFault;
use jg_text::ScriptFault;
use std::alloc::{AllocError, Global};
use std::test::Fail;

const CLOSED: &str = "version = 1\nillegal_native_access = \"deny\"\n";

/// Faults that this setup hasn't.
const OF_SETUPS: [SetupFault; 3] = [
    SetupFault::NotToml,
    SetupFault::Duplicate,
    SetupFault::NoMemory,
];

/// What no line has of itself, and faults of lines that aren't looked at.
const OF_LINES: [(&[u8], ScriptFault); 4] = [
    (b"T1 - GetEnv", ScriptFault::TooManyThreads),
    (b"T1 - \xff", ScriptFault::NotAscii),
    (b"T1", ScriptFault::LineTooLong),
    (b"T1", ScriptFault::NoMemory),
];

/// What is told of all these. Want of memory tells nothing.
const TOLD: &str = "line 3, column 1: a TOML document ends here
no place of this setup
field 1, column 1: T1 is one thread more than a file of scripts may have
field 3, column 6: a byte \\xFF; each byte of a line is from 0x20 to 0x7E
more than 65536 bytes
";

fn push_all(out: &mut String, alloc: Global) -> Result<(), AllocError> {
    for fault in OF_SETUPS {
        push_setup_fault(out, alloc, CLOSED.as_bytes(), fault)?;
    }
    for (line, fault) in OF_LINES {
        push_line_fault(out, line, fault)?;
    }
    Ok(())
}

#[test]
fn something_is_told_of_all_bytes(rt: HostRuntime) -> Result<(), Fail> {
    let mut out = String::new(rt.alloc());
    push_all(&mut out, rt.alloc())?;
    assert_eq!(rt; out.as_str(), TOLD);
    Ok(())
}
