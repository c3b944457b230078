//! A journal is read, and its record is written.

ghost use Rattle.std.specs.Prelude.{◌≡◌, ℕ, [], IfErr, IfOk};
ghost use Rattle.jg_rules.specs.Legal.{Legal};
ghost use Rattle.jg_script.specs.Checked.{ReaderFails};
ghost use Rattle.jg_journal_record.specs.Retold as retold;
ghost use Rattle.jg_journal_record.specs.Retold.{RetellsJournal, Stops, WriterFails};

use crate::fault::RetellFault;
use crate::writing::retell;
use jg_guard::Guard;
use jg_lines::Watched;
use jg_script::{Replayed, RunFault, replay_journal};
use std::alloc::{Allocator, Global};
use std::io::{BufRead, Write};

/// How many entries are of the lines that don't differ, of so many that were made.
fn entries_alike(replayed: &Result<Replayed, RunFault>, made: usize) -> usize
    ensures { result ≡ retold.entries_alike replayed.now made }
{
    let line = match replayed {
        Ok(Replayed::Legal) => return made,
        Ok(Replayed::Differs { line, .. }) => *line,
        Err(RunFault::Script { line, .. }) => *line,
        Err(RunFault::Limit { line }) => *line,
        Err(RunFault::NoMemory { line }) => *line,
        Err(RunFault::Read { line }) => *line,
        Err(RunFault::Write { line }) => *line,
    };
    made.min(line.saturating_sub(1) as usize)
}

/// Reads a journal as [`replay_journal`] does, and then writes the record of the lines that don't differ, as [`retell`]
/// does. What the reading answered comes back where the record was written. The guard's journal is empty before. `text`
/// is room for a line: what it held is lost.
pub fn retell_journal<A: Allocator + Clone, R: BufRead, W: Write>(
    alloc: Global,
    guard: &mut Guard<A>,
    reader: &mut Watched<R>,
    writer: &mut Watched<W>,
    text: &mut Vec<u8>,
) -> Result<Result<Replayed, RunFault>, RetellFault>
    requires { guard.old.journal ≡ [] }
    ensures retells { IfOk result (RetellsJournal (R.remaining reader.old.device) (R.remaining reader.new.device)
        guard.old.setup guard.old.limit (W.contents writer.old.device) (W.contents writer.new.device)) }
    ensures stops { IfErr result (λ fault. (count : ℕ) × Stops guard.new.setup guard.new.journal count
        (W.contents writer.old.device) (W.contents writer.new.device) fault) }
    ensures legal { Legal guard.new.setup guard.new.journal }
    ensures setup { guard.new.setup ≡ guard.old.setup }
    ensures reader { IfOk result (ReaderFails reader.old.failed reader.new.failed) }
    ensures writer { WriterFails writer.old.failed writer.new.failed result }
{
    let replayed = replay_journal(alloc, guard, reader, text);
    let count = entries_alike(&replayed, guard.journal_len());
    if let Err(fault) = retell(alloc, guard, count, writer) {
        return Err(fault);
    }
    Ok(replayed)
}
