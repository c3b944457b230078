//! A piece of a line, of what a buffered device shows.

ghost use Rattle.std.specs.Prelude.{◌≡◌, ◌<◌, ◌≤◌, length, IfOk, OnErr};
ghost use Rattle.std.specs.Io.KnownBytes.{Keeps};
ghost use Rattle.jg_lines.specs.Devices.{TakesPiece};

use memchr::{memchr, memrchr};
use std::io::BufRead;

/// Why a line can't be had.
#[derive(Clone, Copy)]
pub enum LineFault {
    NoMemory,
    Read,
}

/// How a piece ended: at a line feed, after which the device shows so many bytes `ahead` up to its last
/// line feed, or within its line. `Nothing` is no piece, since the device shows nothing.
#[derive(Clone, Copy)]
pub enum Piece {
    Feed { ahead: usize },
    More,
    Nothing,
}

/// What is left, behind so many bytes, of the bytes that lie before the last line feed, with it. That
/// is looked for once for all lines that the device shows, from the end.
#[inline(always)]
fn ahead_of(shown: &[u8], taken: usize, ahead: usize) -> usize
    requires { taken ≤ length shown.now }
{
    if taken < ahead {
        return ahead - taken;
    }
    match memrchr(b'\n', &shown[taken..]) {
        Some(last) => last + 1,
        None => 0,
    }
}

/// Takes all up to the next line feed that one look at the device shows, and at most `room` bytes.
/// They go to the line's end, without the line feed. `ahead` is how many bytes it is known to show up to
/// its last line feed, 0 where that isn't known. Where memory runs out nothing is taken.
#[inline(always)]
pub fn take_piece<B: BufRead>(
    device: &mut B,
    room: usize,
    ahead: usize,
    line: &mut Vec<u8>,
) -> Result<Piece, LineFault>
    requires { 0 < room }
    ensures taken { IfOk result (TakesPiece (B.remaining device.old) (B.remaining device.new) line.old.items
        line.new.items room) }
    ensures kept { OnErr result (Keeps (B.remaining device.old) (B.remaining device.new)
        × (line.new.items ≡ line.old.items)) }
{
    let Ok(shown) = device.fill_buf() else {
        return Err(LineFault::Read);
    };
    if shown.is_empty() {
        return Ok(Piece::Nothing);
    }
    let most = shown.len().min(room);
    match memchr(b'\n', &shown[..most]) {
        Some(i) => {
            if line.extend_from_slice(&shown[..i]).is_err() {
                return Err(LineFault::NoMemory);
            }
            let ahead = ahead_of(shown, i + 1, ahead);
            device.consume(i + 1);
            Ok(Piece::Feed { ahead })
        }
        None => {
            if line.extend_from_slice(&shown[..most]).is_err() {
                return Err(LineFault::NoMemory);
            }
            device.consume(most);
            Ok(Piece::More)
        }
    }
}
