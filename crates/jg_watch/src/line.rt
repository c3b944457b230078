//! One line of a record is answered.

ghost use Rattle.std.specs.Prelude.{◌≡◌, ◌++◌, ◌∷◌, ◌↔◌, ◌⊎◌, [], IsTrue, None, OnOk};
ghost use Rattle.std.specs.Option.{option_copied};
ghost use Rattle.jg_record.specs.Replies.{reply_text};
ghost use Rattle.jg_watch.specs.Lines.{answer_of, behind, comment_text, is_comment, is_shown, line_text, shown_text};
ghost use Rattle.jg_watch.specs.Ends.{WriterFails};
ghost use Rattle.jg_watch.specs.Steps.{AnswersLine, IsNoRead, WritesLine, WritesReply};
ghost use Rattle.jg_watch.specs.Told.{Stands, Told};

use crate::ending::{Ended, Stop};
use crate::event::{Replied, answer_event, unasked};
use crate::watch::{Shown, Watch};
use jg_core::Untold;
use jg_lines::{Watched, write_text};
use jg_record::{Lists, Parts, RecordFault, Reply, cut_line, push_answer, read_event};
use std::alloc::{AllocError, Allocator, Global};
use std::io::Write;

/// Room for what is read and written of a line. It goes from line to line, so that a line asks for no memory that an
/// earlier one had.
#[derive(Drop)]
pub struct Room {
    pub(crate) lists: Lists,
    answer: String,
    out: Vec<u8>,
}

impl Room {
    /// Room that takes no memory yet.
    pub fn new(alloc: Global) -> Room {
        Room {
            lists: Lists {
                arguments: Vec::new(alloc),
                objects: Vec::new(alloc),
            },
            answer: String::new(alloc),
            out: Vec::new(alloc),
        }
    }
}

fn is_comment(line: &[u8]) -> bool
    ensures { result ≡ is_comment line.now }
{
    match line.first() {
        None => false,
        Some(byte) => *byte == b'#',
    }
}

fn is_shown(shown: Shown, reply: Reply) -> bool
    ensures { result ≡ is_shown shown reply }
{
    match shown {
        Shown::All => true,
        Shown::Denials => match reply {
            Reply::Denied(_) => true,
            _ => false,
        },
    }
}

/// The text of a reply, where there is one.
fn answer_of(reply: Reply, text: &[u8]) -> Option<&[u8]>
    requires { text.now ≡ reply_text reply }
    ensures { option_copied result ≡ answer_of reply }
{
    match reply {
        Reply::Nothing => None,
        _ => Some(text),
    }
}

/// Whether the line tells no answer, or this one.
fn agrees(told: Option<&[u8]>, answer: Option<&[u8]>) -> bool
    ensures { IsTrue result
        ↔ ((option_copied told.entry ≡ None) ⊎ (option_copied told.entry ≡ option_copied answer.entry)) }
{
    match (told, answer) {
        (None, _) => true,
        (Some(_), None) => false,
        (Some(told), Some(answer)) => told == answer,
    }
}

/// Adds what stands behind a mark between two spaces, if anything does.
fn push_behind(out: &mut Vec<u8>, mark: u8, text: Option<&[u8]>) -> Result<(), AllocError>
    ensures { OnOk result (out.new.items ≡ out.old.items ++ behind mark (option_copied text.entry)) }
{
    let Some(text) = text else {
        return Ok(());
    };
    out.extend_from_slice(&[b' ', mark, b' '])?;
    out.extend_from_slice(text)
}

/// The line of the event with this answer and this note, with its line feed. What the list held is lost.
fn make_line(
    out: &mut Vec<u8>,
    event: &[u8],
    answer: Option<&[u8]>,
    note: Option<&[u8]>,
) -> Result<(), AllocError>
    ensures { OnOk result (out.new.items
        ≡ line_text event.now (option_copied answer.entry) (option_copied note.entry)) }
{
    out.clear();
    out.extend_from_slice(event)?;
    push_behind(out, b'=', answer)?;
    push_behind(out, b'@', note)?;
    out.push(b'\n')?;
    Ok(())
}

/// The line of a comment, with its line feed. What the list held is lost.
fn make_comment(out: &mut Vec<u8>, text: &[u8]) -> Result<(), AllocError>
    ensures { OnOk result (out.new.items ≡ text.now ++ 10 ∷ []) }
{
    out.clear();
    out.extend_from_slice(text)?;
    out.push(b'\n')?;
    Ok(())
}

/// Writes what is shown of line number `line`.
fn write_line<W: Write>(writer: &mut Watched<W>, text: &[u8], line: u64) -> Result<(), Stop>
    ensures written { WritesLine text.now (W.contents writer.old.device) (W.contents writer.new.device) line result }
    ensures device { WriterFails writer.old.failed writer.new.failed result }
{
    match write_text(writer, text) {
        Ok(()) => Ok(()),
        Err(_) => Err(Stop::Write { line }),
    }
}

/// Compares the reply with the answer that line number `line` tells, and writes what is shown of the line; `false`
/// where the line tells another answer, and nothing is written.
fn write_reply<W: Write>(
    writer: &mut Watched<W>,
    shown: Shown,
    parts: Parts<'_>,
    reply: Reply,
    answer: &mut String,
    out: &mut Vec<u8>,
    line: u64,
) -> Result<bool, Stop>
    ensures written { WritesReply (option_copied parts.entry.answer) reply
        (shown_text shown parts.entry.event.now (option_copied parts.entry.note) reply)
        (W.contents writer.old.device) (W.contents writer.new.device) line result }
    ensures device { WriterFails writer.old.failed writer.new.failed result }
{
    answer.clear();
    let Ok(()) = push_answer(answer, reply) else {
        return Err(Stop::NoMemory { line });
    };
    let answer = answer_of(reply, answer.as_bytes());
    if !agrees(parts.answer, answer) {
        return Ok(false);
    }
    if !is_shown(shown, reply) {
        return Ok(true);
    }
    let Ok(()) = make_line(out, parts.event, answer, parts.note) else {
        return Err(Stop::NoMemory { line });
    };
    match write_line(writer, out, line) {
        Ok(()) => Ok(true),
        Err(stop) => Err(stop),
    }
}

/// Writes a comment, where all is shown.
fn write_comment<W: Write>(
    writer: &mut Watched<W>,
    shown: Shown,
    text: &[u8],
    out: &mut Vec<u8>,
    line: u64,
) -> Result<(), Stop>
    ensures written { WritesLine (comment_text shown text.now) (W.contents writer.old.device)
        (W.contents writer.new.device) line result }
    ensures device { WriterFails writer.old.failed writer.new.failed result }
{
    match shown {
        Shown::Denials => Ok(()),
        Shown::All => match make_comment(out, text) {
            Ok(()) => write_line(writer, out, line),
            Err(_) => Err(Stop::NoMemory { line }),
        },
    }
}

/// What a line did.
#[derive(Clone, Copy)]
pub enum Step {
    /// It was answered so; a comment is answered nothing.
    Answered(Replied),
    /// The record ends there.
    Ended(Ended),
}

/// Answers line number `line` of a record.
pub fn answer_line<A: Allocator + Copy, W: Write>(
    watch: &mut Watch<A>,
    writer: &mut Watched<W>,
    shown: Shown,
    text: &[u8],
    room: &mut Room,
    line: u64,
) -> Result<Step, Stop>
    ensures answers { (told : Told) → Stands watch.old told → AnswersLine watch.old.core.setup shown told watch.new
        room.new.lists.arguments.items room.new.lists.objects.items text.now (W.contents writer.old.device)
        (W.contents writer.new.device) line result }
    ensures setup { watch.new.core.setup ≡ watch.old.core.setup }
    ensures tally { watch.new.tally ≡ watch.old.tally }
    ensures denied { watch.new.denied ≡ watch.old.denied }
    ensures unread { IsNoRead result }
    ensures device { WriterFails writer.old.failed writer.new.failed result }
{
    if is_comment(text) {
        return match write_comment(writer, shown, text, &mut room.out, line) {
            Ok(()) => Ok(Step::Answered(unasked(None, Reply::Nothing))),
            Err(stop) => Err(stop),
        };
    }
    let parts = cut_line(text);
    let event = match read_event(watch.core.setup(), parts.event, &mut room.lists) {
        Ok(event) => event,
        Err(RecordFault::NoMemory) => return Err(Stop::NoMemory { line }),
        Err(fault) => return Err(Stop::Faulty { line, fault }),
    };
    let answered = match answer_event(watch, event, &room.lists) {
        Ok(answered) => answered,
        Err(Untold::Impossible) => return Ok(Step::Ended(Ended::Impossible { line })),
        Err(Untold::Full) => return Err(Stop::Limit { line }),
        Err(Untold::NoMemory) => return Err(Stop::NoMemory { line }),
    };
    let (answer, out) = (&mut room.answer, &mut room.out);
    match write_reply(writer, shown, parts, answered.reply, answer, out, line) {
        Ok(true) => Ok(Step::Answered(answered)),
        Ok(false) => Ok(Step::Ended(Ended::Differs { line })),
        Err(stop) => Err(stop),
    }
}
