//! Readers and writers that keep whether they failed.

ghost use Rattle.std.specs.Prelude.{◌≡◌, true, false, length, take, ◌<◌, ◌≤◌, IfOk, IfErr, OnOk, OnErr, MatchOption, ◌∷◌, []};
ghost use Rattle.std.specs.Io.KnownBytes.{Keeps, Consumes, Appends, IsAtEnd};
ghost use Rattle.jg_lines.specs.Devices.{TakesPiece, FailsLine};

use crate::handing::HandsOn;
use crate::piece::{LineFault, Piece, take_piece};
use std::io::{BufRead, Read, Write};
use std::marker::Model;

/// A reader or a writer, and whether it has failed: by an error, or by a write that took no byte.
/// Contracts see both.
#[derive(Drop)]
pub struct Watched<D> {
    device: D,
    failed: bool,
    /// How many bytes a reader is known to show up to a line feed, its last one: while there are any,
    /// the next line can be had without waiting.
    ahead: usize,
}

impl<D> Model for Watched<D> {
    ghost use Rattle.jg_lines.specs.Seen.{Seen};

    ghost Value = { Seen D };

    ghost view = { λ w. record { device = w.device; failed = w.failed } };
}

/// The device failed in this very call, and is marked so.
#[derive(Clone, Copy)]
pub struct DeviceFailed;

impl<D> Watched<D> {
    /// The device, which hasn't failed.
    pub fn new(device: D) -> Self
        ensures device { result.device ≡ device }
        ensures fresh { result.failed ≡ false }
    {
        Watched {
            device,
            failed: false,
            ahead: 0,
        }
    }

    /// The device itself.
    pub fn into_inner(self) -> D
        ensures { result ≡ self.device }
    {
        let Watched { device, .. } = self;
        device
    }

    /// Whether it has failed.
    pub fn has_failed(&self) -> bool
        ensures { result ≡ self.now.failed }
    {
        self.failed
    }
}

impl<R: BufRead> Watched<R> {
    /// Whether the next line can be had without waiting for the device, as far as is known.
    #[inline(always)]
    pub fn shows_line(&self) -> bool {
        self.ahead > 0
    }

    /// Takes a piece of a line: all up to the next line feed that one look at the device shows, and
    /// at most `room` bytes. They go to the line's end, without the line feed. After an error the
    /// reader is marked as failed.
    #[inline(always)]
    pub fn take_piece(&mut self, room: usize, line: &mut Vec<u8>) -> Result<Piece, LineFault>
        requires { 0 < room }
        ensures taken { IfOk result (TakesPiece (R.remaining self.old.device) (R.remaining self.new.device)
            line.old.items line.new.items room) }
        ensures kept { OnErr result (Keeps (R.remaining self.old.device) (R.remaining self.new.device)
            × (line.new.items ≡ line.old.items)) }
        ensures sound { OnOk result (self.new.failed ≡ self.old.failed) }
        ensures fault { IfErr result (FailsLine self.old.failed self.new.failed) }
    {
        let ahead = self.ahead;
        self.ahead = 0;
        match take_piece(&mut self.device, room, ahead, line) {
            Ok(piece) => {
                if let Piece::Feed { ahead } = piece {
                    self.ahead = ahead;
                }
                Ok(piece)
            }
            Err(LineFault::NoMemory) => Err(LineFault::NoMemory),
            Err(LineFault::Read) => {
                self.failed = true;
                Err(LineFault::Read)
            }
        }
    }
}

impl<R: Read> Watched<R> {
    /// The next byte, or `None` at the end. After an error the reader is marked as failed.
    pub fn read_byte(&mut self) -> Result<Option<u8>, DeviceFailed>
        ensures next { IfOk result (λ next. MatchOption next
            (Keeps (R.remaining self.old.device) (R.remaining self.new.device) × IsAtEnd (R.remaining self.new.device))
            (λ byte. Consumes (R.remaining self.old.device) (R.remaining self.new.device) (byte ∷ []))) }
        ensures kept { OnErr result (Keeps (R.remaining self.old.device) (R.remaining self.new.device)) }
        ensures sound { OnOk result (self.new.failed ≡ self.old.failed) }
        ensures failed { OnErr result (self.new.failed ≡ true) }
    {
        let mut buffer = [0u8];
        match self.device.read(&mut buffer) {
            Ok(0) => Ok(None),
            Ok(_) => Ok(Some(buffer[0])),
            Err(_) => {
                self.failed = true;
                Err(DeviceFailed)
            }
        }
    }
}

impl<W: Write> Watched<W> {
    /// Writes some of the bytes, at least one, and answers how many. After an error, or where no
    /// byte was taken, the writer is marked as failed.
    #[inline(always)]
    pub fn write_some(&mut self, bytes: &[u8]) -> Result<usize, DeviceFailed>
        requires { 0 < length bytes.now }
        ensures some { IfOk result (λ n. (0 < n) × (n ≤ length bytes.now)) }
        ensures written { IfOk result (λ n. Appends (W.contents self.old.device) (W.contents self.new.device)
            (take n bytes.now)) }
        ensures kept { OnErr result (Keeps (W.contents self.old.device) (W.contents self.new.device)) }
        ensures sound { OnOk result (self.new.failed ≡ self.old.failed) }
        ensures failed { OnErr result (self.new.failed ≡ true) }
    {
        match self.device.write(bytes) {
            Ok(0) | Err(_) => {
                self.failed = true;
                Err(DeviceFailed)
            }
            Ok(n) => Ok(n),
        }
    }
}

impl<W: Write> Watched<W> {
    /// Hands on what the device itself holds back, if it can. A failure marks nothing: what couldn't
    /// be handed on is still held, and the next write or flush fails.
    pub fn pass_on(&mut self)
        ensures kept { Keeps (W.contents self.old.device) (W.contents self.new.device) }
        ensures failed { self.new.failed ≡ self.old.failed }
    {
        let _ = self.device.flush();
    }
}

impl<W: HandsOn> Watched<W> {
    /// Hands on what the device itself holds back: afterwards it holds nothing, or the writer is
    /// marked as failed.
    pub fn flush(&mut self) -> Result<(), DeviceFailed>
        ensures reached { OnOk result (W.holds_nothing self.new.device) }
        ensures kept { Keeps (W.contents self.old.device) (W.contents self.new.device) }
        ensures sound { OnOk result (self.new.failed ≡ self.old.failed) }
        ensures failed { OnErr result (self.new.failed ≡ true) }
    {
        match self.device.hand_on() {
            Ok(()) => Ok(()),
            Err(_) => {
                self.failed = true;
                Err(DeviceFailed)
            }
        }
    }
}
