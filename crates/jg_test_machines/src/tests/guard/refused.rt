//! Calls that take memory from `Global`: each is answered, or says that memory ran out. Here nothing
//! is refused; `tests/refused --tests` runs the tests whose names end with `for_want_of_memory` over
//! memory that refuses one request after the other.

use super::growths::goes_through;
use super::readings::{answers_over, verdict_over};
use super::{FIRST_PATH, guarded};
use jg_guard::Guard;
use jg_script::{RunFault, Verdict, Watched, read_scripts, write_journal};
use jg_test_rows::setups::CLOSED;
use jg_test_rows::{arrays, buffer_items, strings};
use std::alloc::Global;
use std::test::Fail;

/// Rows with lists among their answers.
const ROWS: [(&str, &str); 3] = [
    (
        "a_throw_changes_nothing_else",
        arrays::A_THROW_CHANGES_NOTHING_ELSE,
    ),
    ("edges_of_copies", buffer_items::EDGES_OF_COPIES),
    ("modified_utf8", strings::MODIFIED_UTF8),
];

/// Whether each call of the text is answered, when it is made again at the latest, and the journal is written, or
/// memory runs out for that.
fn is_journaled(guard: &mut Guard, alloc: Global, text: &str) -> Result<bool, Fail> {
    let mut writer = Watched::new(Vec::with_capacity(alloc, text.len())?);
    for line in text.lines() {
        if !goes_through(guard, alloc, line)? && !goes_through(guard, alloc, line)? {
            return Ok(false);
        }
    }
    let done = write_journal(alloc, guard, &mut writer);
    Ok(matches!(done, Ok(()) | Err(RunFault::NoMemory { .. })))
}

fn is_journaled_anew(alloc: Global, text: &str) -> Result<bool, Fail> {
    let mut guard = guarded(alloc, alloc, CLOSED, 100)?;
    is_journaled(&mut guard, alloc, text)
}

#[test]
fn calls_are_answered_or_refused_for_want_of_memory(rt: HostRuntime) -> Result<(), Fail> {
    for (name, text) in ROWS {
        assert!(rt; is_journaled_anew(rt.alloc(), text)?, "in {name}");
    }
    Ok(())
}

#[test]
fn a_script_is_answered_or_refused_for_want_of_memory(rt: HostRuntime) -> Result<(), Fail> {
    let done = answers_over(rt.alloc(), rt.alloc(), FIRST_PATH)?;
    assert!(rt; matches!(done, Ok(_) | Err(RunFault::NoMemory { .. })));
    Ok(())
}

#[test]
fn a_journal_is_read_back_or_refused_for_want_of_memory(rt: HostRuntime) -> Result<(), Fail> {
    let done = verdict_over(rt.alloc(), rt.alloc(), strings::FIRST_PATH)?;
    assert!(rt; matches!(done, Ok(Verdict::Legal) | Err(RunFault::NoMemory { .. })));
    Ok(())
}

const TWO_SCRIPTS: &str = "T2 - AttachCurrentThread
T1 - AttachCurrentThread
T2 E2.1 NewString [72,105]
T1 E1.1 FindClass app/Main
T1 - DetachCurrentThread
T2 - DetachCurrentThread
";

#[test]
fn scripts_are_read_or_refused_for_want_of_memory(rt: HostRuntime) {
    let mut reader = Watched::new(TWO_SCRIPTS.as_bytes());
    let done = read_scripts(rt.alloc(), &mut reader);
    assert!(rt; matches!(done, Ok(_) | Err(RunFault::NoMemory { .. })));
}
