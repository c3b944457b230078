//! One line of a reader, and one text to a writer.

ghost use Rattle.std.specs.Prelude.{◌≡◌, ℕ, ◌<◌, length, take, IfOk, IfErr, OnOk, OnErr, true};
ghost use Rattle.std.specs.Io.KnownBytes.{Appends, Keeps};
ghost use Rattle.jg_lines.specs.Devices.{TakesLine, TakesFront, IsOneLine, FailsLine, Takes, TakesBytes};

use crate::piece::{LineFault, Piece};
use crate::watched::{DeviceFailed, Watched};
use jg_text::MAX_LINE;
use std::io::{BufRead, Write};

/// How a line ended: at a line feed, at the end of all, or not within 65,536 bytes.
#[derive(Clone, Copy)]
enum LineEnd {
    Feed,
    End,
    Long,
}

/// Takes the next line into the buffer.
#[inline(always)]
fn read_line<R: BufRead>(reader: &mut Watched<R>, line: &mut Vec<u8>) -> Result<LineEnd, LineFault>
    ensures taken { IfOk result (TakesLine (R.remaining reader.old.device) (R.remaining reader.new.device)
        line.new.items) }
    ensures front { TakesFront (R.remaining reader.old.device) (R.remaining reader.new.device) }
    ensures clean { OnOk result (IsOneLine line.new.items) }
    ensures sound { OnOk result (reader.new.failed ≡ reader.old.failed) }
    ensures fault { IfErr result (FailsLine reader.old.failed reader.new.failed) }
{
    line.clear();
    while line.len() <= MAX_LINE {
        match reader.take_piece(MAX_LINE + 1 - line.len(), line) {
            Err(fault) => return Err(fault),
            Ok(Piece::Feed { .. }) => return Ok(LineEnd::Feed),
            Ok(Piece::More) => {}
            Ok(Piece::Nothing) => match reader.read_byte() {
                Err(_) => return Err(LineFault::Read),
                Ok(None) => return Ok(LineEnd::End),
                Ok(Some(b'\n')) => return Ok(LineEnd::Feed),
                Ok(Some(byte)) => {
                    if line.push(byte).is_err() {
                        return Err(LineFault::NoMemory);
                    }
                }
            },
        }
    }
    Ok(LineEnd::Long)
}

/// What was taken: a line with its line feed, a last line without one, nothing since the reader is
/// at its end, or the beginning of a line that is too long.
#[derive(Clone, Copy)]
pub enum Taken {
    Line,
    LastLine,
    Nothing,
    TooLong,
}

/// Takes the next line into the buffer, without its line feed.
#[inline(always)]
pub fn next_line<R: BufRead>(
    reader: &mut Watched<R>,
    line: &mut Vec<u8>,
) -> Result<Taken, LineFault>
    ensures bytes { IfOk result (TakesBytes (R.remaining reader.old.device) (R.remaining reader.new.device)
        line.new.items) }
    ensures front { TakesFront (R.remaining reader.old.device) (R.remaining reader.new.device) }
    ensures clean { OnOk result (IsOneLine line.new.items) }
    ensures taken { IfOk result (Takes (R.remaining reader.old.device) (R.remaining reader.new.device) line.new.items) }
    ensures sound { OnOk result (reader.new.failed ≡ reader.old.failed) }
    ensures fault { IfErr result (FailsLine reader.old.failed reader.new.failed) }
{
    match read_line(reader, line) {
        Ok(LineEnd::Feed) => Ok(Taken::Line),
        Ok(LineEnd::End) => {
            if line.is_empty() {
                Ok(Taken::Nothing)
            } else {
                Ok(Taken::LastLine)
            }
        }
        Ok(LineEnd::Long) => Ok(Taken::TooLong),
        Err(fault) => Err(fault),
    }
}

/// Writes all of the bytes, by single writes. Where the device fails, a front of them is written.
#[inline(always)]
pub fn write_text<W: Write>(writer: &mut Watched<W>, text: &[u8]) -> Result<(), DeviceFailed>
    ensures written { OnOk result (Appends (W.contents writer.old.device) (W.contents writer.new.device) text.now) }
    ensures front { OnErr result ((k : ℕ) × (k < length text.now)
        × Appends (W.contents writer.old.device) (W.contents writer.new.device) (take k text.now)) }
    ensures sound { OnOk result (writer.new.failed ≡ writer.old.failed) }
    ensures failed { OnErr result (writer.new.failed ≡ true) }
{
    let mut done = 0;
    while done < text.len() {
        let (_, rest) = text.split_at(done);
        match writer.write_some(rest) {
            Ok(n) => done += n,
            Err(failed) => return Err(failed),
        }
    }
    Ok(())
}

/// Hands on what was answered, unless the next line is there already: whoever sends a line and waits
/// has its answer before more is asked for.
pub fn hand_over<R: BufRead, W: Write>(reader: &Watched<R>, writer: &mut Watched<W>)
    ensures kept { Keeps (W.contents writer.old.device) (W.contents writer.new.device) }
    ensures failed { writer.new.failed ≡ writer.old.failed }
{
    if !reader.shows_line() {
        writer.pass_on();
    }
}
