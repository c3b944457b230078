//! A journal is read line by line, and its calls are made again.

ghost use Rattle.std.specs.Prelude.{◌≡◌, ◌<◌, ◌++◌, ◌∷◌, [], length, IsTrue, ◌↔◌};
ghost use Rattle.jg_rules.specs.Legal.{Legal};
ghost use Rattle.jg_script.specs.Checked.{ReaderFails};
ghost use Rattle.jg_script.specs.Entries.{ReplaysLine, IsPast};
ghost use Rattle.jg_script.specs.Replayed.{verdict_of, ReplaysJournal, Verifies};

use crate::beside::{Alone, Beside};
use crate::run_fault::RunFault;
use jg_guard::Guard;
use jg_lines::{LineFault, Taken, Watched, next_line};
use jg_policy::Setup;
use jg_text::{MAX_LINE, push_entry, read_begun};
use std::alloc::{Allocator, Global};
use std::io::BufRead;

/// What a journal's text is.
#[derive(Clone, Copy, Debug, PartialEq, Eq)]
pub enum Verdict {
    /// That of a legal history.
    Legal,
    /// Such a text up to this line, and no longer with it. Lines count from 1.
    Differs(u64),
}

/// How a line differs from each line with which the text of a legal history goes on.
#[derive(Clone, Copy)]
pub enum Difference {
    /// It is the last line, and has no line feed.
    NoLineFeed,
    /// It doesn't begin with a call and ` = `.
    NoCall,
    /// It begins with a call and ` = `, and goes on otherwise than with that call's outcome.
    OtherOutcome,
}

/// What a journal's text is, and how it differs.
#[derive(Clone, Copy)]
pub enum Replayed {
    /// That of a legal history.
    Legal,
    /// Such a text up to this line, and no longer with it. Lines count from 1.
    Differs { line: u64, how: Difference },
}

impl Replayed {
    /// What the text is, without how it differs.
    pub fn verdict(self) -> Verdict
        ensures { result ≡ verdict_of self }
    {
        match self {
            Replayed::Legal => Verdict::Legal,
            Replayed::Differs { line, .. } => Verdict::Differs(line),
        }
    }
}

/// The entry's line is the text and a line feed.
fn is_line_of(entry: &[u8], text: &[u8]) -> bool
    ensures { IsTrue result ↔ (entry.now ≡ text.now ++ 10 ∷ []) }
{
    match entry.split_last() {
        Some((b'\n', front)) => front == text,
        _ => false,
    }
}

/// How line number `line`, without its line feed, differs from those of the entries with which the
/// guard's journal stays legal; `None` where it is one of them. The guard takes the call with which the
/// line begins.
fn replay_line<A: Allocator + Clone, B: Beside<A>>(
    alloc: Global,
    guard: &mut Guard<A>,
    beside: &mut B,
    out: &mut String,
    text: &[u8],
    line: u64,
) -> Result<Option<Difference>, RunFault>
    requires { length guard.old.journal < guard.old.limit }
    ensures replays { ReplaysLine guard.old guard.new text.now line result }
    ensures legal { Legal guard.old.setup guard.old.journal → Legal guard.new.setup guard.new.journal }
    ensures setup { guard.new.setup ≡ guard.old.setup }
    ensures limit { guard.new.limit ≡ guard.old.limit }
    ensures follows { (first : B) → B.follows first beside.old guard.old.setup guard.old.journal
        → B.follows first beside.new guard.new.setup guard.new.journal }
{
    let Ok(begun) = read_begun(alloc, text) else {
        return Err(RunFault::NoMemory { line });
    };
    let Some((tid, env, call)) = begun else {
        return Ok(Some(Difference::NoCall));
    };
    if let Err(fault) = beside.take_call(guard, tid, env, call, line) {
        return Err(fault);
    }
    out.clear();
    let Ok(()) = push_entry(out, guard.newest()) else {
        return Err(RunFault::NoMemory { line });
    };
    if is_line_of(out.as_bytes(), text) {
        Ok(None)
    } else {
        Ok(Some(Difference::OtherOutcome))
    }
}

/// A line past the limit, or as much of it as a line may have.
fn past_limit(alloc: Global, text: &[u8], line: u64) -> Result<Replayed, RunFault>
    ensures { IsPast text.now line result }
{
    match read_begun(alloc, text) {
        Ok(Some(_)) => Err(RunFault::Limit { line }),
        Ok(None) => {
            let how = Difference::NoCall;
            Ok(Replayed::Differs { line, how })
        }
        Err(_) => Err(RunFault::NoMemory { line }),
    }
}

/// Replays a journal as `replay_journal` does, with that beside the guard.
pub fn replay_beside<A: Allocator + Clone, B: Beside<A>, R: BufRead>(
    alloc: Global,
    guard: &mut Guard<A>,
    beside: &mut B,
    reader: &mut Watched<R>,
    text: &mut Vec<u8>,
) -> Result<Replayed, RunFault>
    requires { guard.old.journal ≡ [] }
    ensures replays { ReplaysJournal (R.remaining reader.old.device) (R.remaining reader.new.device) guard.old.setup
        guard.old.limit guard.new.journal text.new.items result }
    ensures legal { Legal guard.new.setup guard.new.journal }
    ensures setup { guard.new.setup ≡ guard.old.setup }
    ensures limit { guard.new.limit ≡ guard.old.limit }
    ensures reader { ReaderFails reader.old.failed reader.new.failed result }
    ensures follows { (first : B) → B.follows first beside.old guard.old.setup []
        → B.follows first beside.new guard.new.setup guard.new.journal }
{
    let mut out = String::new(alloc);
    let limit = u64::from(guard.limit());
    for line in 1..limit + 2 {
        let taken = match next_line(reader, text) {
            Ok(taken) => taken,
            Err(LineFault::Read) => return Err(RunFault::Read { line }),
            Err(LineFault::NoMemory) => return Err(RunFault::NoMemory { line }),
        };
        if let Taken::Nothing = taken {
            return Ok(Replayed::Legal);
        }
        if line > limit {
            return past_limit(alloc, text, line);
        }
        if let Taken::LastLine = taken {
            let how = Difference::NoLineFeed;
            return Ok(Replayed::Differs { line, how });
        }
        match replay_line(alloc, guard, beside, &mut out, text, line) {
            Ok(None) => {}
            Ok(Some(how)) => return Ok(Replayed::Differs { line, how }),
            Err(fault) => return Err(fault),
        }
    }
    unreachable!()
}

/// Replays a journal as `verify` does, with a guard of the caller's, and says how the text differs. The
/// guard's journal is empty before (`Guard::journal_len`). It takes the call of each line before the next
/// line is read, and has the entries of the lines that don't differ afterwards. With `OtherOutcome` the
/// entry of the differing line's call is in front of these, and with `NoMemory` it may be. `text` is room
/// for a line: what it held is lost. Where a line differs, `text` holds it, without its line feed, or the
/// first 65,537 bytes of a longer one.
pub fn replay_journal<A: Allocator + Clone, R: BufRead>(
    alloc: Global,
    guard: &mut Guard<A>,
    reader: &mut Watched<R>,
    text: &mut Vec<u8>,
) -> Result<Replayed, RunFault>
    requires { guard.old.journal ≡ [] }
    ensures replays { ReplaysJournal (R.remaining reader.old.device) (R.remaining reader.new.device) guard.old.setup
        guard.old.limit guard.new.journal text.new.items result }
    ensures legal { Legal guard.new.setup guard.new.journal }
    ensures setup { guard.new.setup ≡ guard.old.setup }
    ensures limit { guard.new.limit ≡ guard.old.limit }
    ensures reader { ReaderFails reader.old.failed reader.new.failed result }
{
    replay_beside(alloc, guard, &mut Alone, reader, text)
}

/// The verdict on a journal that this guard replays.
fn verdict_by<A: Allocator + Clone, R: BufRead>(
    alloc: Global,
    guard: &mut Guard<A>,
    reader: &mut Watched<R>,
    text: &mut Vec<u8>,
) -> Result<Verdict, RunFault>
    requires { guard.old.journal ≡ [] }
    ensures verifies { Verifies (R.remaining reader.old.device) (R.remaining reader.new.device) guard.old.setup
        guard.old.limit result }
    ensures reader { ReaderFails reader.old.failed reader.new.failed result }
{
    match replay_journal(alloc, guard, reader, text) {
        Ok(replayed) => Ok(replayed.verdict()),
        Err(fault) => Err(fault),
    }
}

/// Whether a reader holds the text of a legal history of at most `limit` entries, and else which
/// line is the first that differs. A line past the limit that begins with a call and ` = ` is
/// `Limit`, whatever follows. At most one line more than the limit is read, and nothing after the
/// line at which the answer is known. `Script` and `Write` aren't answered. The tables and the
/// journal of the guard that makes the calls again stand in `tables`.
pub fn verify<A: Allocator + Copy, R: BufRead>(
    alloc: Global,
    tables: A,
    setup: Setup,
    limit: u32,
    reader: &mut Watched<R>,
) -> Result<Verdict, RunFault>
    ensures verifies { Verifies (R.remaining reader.old.device) (R.remaining reader.new.device) setup limit result }
    ensures reader { ReaderFails reader.old.failed reader.new.failed result }
{
    let Ok(mut text) = Vec::with_capacity(alloc, MAX_LINE + 1) else {
        return Err(RunFault::NoMemory { line: 1 });
    };
    let Ok(mut guard) = Guard::new(tables, alloc, setup, limit) else {
        return Err(RunFault::NoMemory { line: 1 });
    };
    verdict_by(alloc, &mut guard, reader, &mut text)
}
