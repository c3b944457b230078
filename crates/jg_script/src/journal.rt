//! A guard's journal is written.

ghost use Rattle.jg_script.specs.Checked.{WriterFails};
ghost use Rattle.jg_script.specs.Written.{WritesJournal, WritesLine};

use crate::run_fault::RunFault;
use jg_guard::Guard;
use jg_lines::{Watched, write_text};
use jg_text::push_entry;
use jg_words::Entry;
use std::alloc::{Allocator, Global};
use std::io::Write;

/// Writes the entry's line, which is line number `line`. It is made in `out`.
fn write_line<W: Write>(
    out: &mut String,
    writer: &mut Watched<W>,
    entry: &Entry,
    line: u64,
) -> Result<(), RunFault>
    ensures writes { WritesLine (W.contents writer.old.device) (W.contents writer.new.device) entry.now line result }
    ensures device { WriterFails writer.old.failed writer.new.failed result }
{
    out.clear();
    if push_entry(out, entry).is_err() {
        return Err(RunFault::NoMemory { line });
    }
    match write_text(writer, out.as_bytes()) {
        Ok(()) => Ok(()),
        Err(_) => Err(RunFault::Write { line }),
    }
}

/// Writes the text of the guard's journal: the line of each entry, the oldest first, each with its
/// line feed. A fault names the entry's line, from 1: before it just the lines above are written,
/// and of it a front at most. `Write` comes only where the device failed, which is then marked so;
/// beside it only `NoMemory` is answered.
pub fn write_journal<A: Allocator + Clone, W: Write>(
    alloc: Global,
    guard: &Guard<A>,
    writer: &mut Watched<W>,
) -> Result<(), RunFault>
    ensures writes { WritesJournal (W.contents writer.old.device) (W.contents writer.new.device) guard.now.journal
        result }
    ensures device { WriterFails writer.old.failed writer.new.failed result }
{
    let mut out = String::new(alloc);
    for place in 0..guard.journal_len() {
        let Some(entry) = guard.journal_entry(place) else {
            unreachable!()
        };
        if let Err(fault) = write_line(&mut out, writer, entry, place as u64 + 1) {
            return Err(fault);
        }
    }
    Ok(())
}
