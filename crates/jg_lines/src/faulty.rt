//! A device that fails at a chosen call.

ghost use Rattle.std.specs.Prelude.{◌≡◌, ◌<◌};

use std::io;
use std::io::{ErrorKind, Read, Write};
use std::marker::Model;

/// A reader and a writer over memory that passes so many calls, of at most so many bytes each, and
/// fails every later one. What is written comes after the bytes that it was made with, and can be
/// read. It shows what a failing device leaves.
#[derive(Drop)]
pub struct Faulty {
    bytes: Vec<u8>,
    read: usize,
    passes: u32,
    most: usize,
}

impl Model for Faulty {
    ghost use Rattle.std.specs.Prelude.{◌<◌, ◌≤◌, length, drop};
    ghost use Rattle.jg_lines.specs.Seen.{Passing};

    ghost Value = { Passing };

    ghost view = { λ f. record {
      bytes = f.bytes.items;
      unread = drop f.read f.bytes.items;
      passes = f.passes;
      most = f.most;
    } };

    ghost invariant = { λ f. (f.read ≤ length f.bytes.items) × (0 < f.most) };
}

impl Faulty {
    /// A device that holds these bytes and passes that many calls. A call takes or gives at most
    /// `most` bytes, which is 1 or more.
    pub fn new(bytes: Vec<u8>, passes: u32, most: usize) -> Faulty
        requires { 0 < most }
        ensures bytes { result.bytes ≡ bytes.items }
        ensures unread { result.unread ≡ bytes.items }
        ensures passes { result.passes ≡ passes }
        ensures most { result.most ≡ most }
    {
        Faulty {
            bytes,
            read: 0,
            passes,
            most,
        }
    }

    /// All bytes that it holds, those that were read among them.
    pub fn into_bytes(self) -> Vec<u8>
        ensures { result.items ≡ self.bytes }
    {
        self.bytes
    }
}

impl Read for Faulty {
    ghost use Rattle.std.specs.Prelude.{◌≡◌, ◌<◌, ◌≤◌, ◌+◌, length, min, IfOk, IsOk, IsErr, OnOk, OnErr, Some};
    ghost use Rattle.std.specs.Io.{ReadsAtMost};
    ghost use Rattle.std.specs.Io.KnownBytes.{ReadConsumes};

    ghost remaining = { λ f. Some f.unread };

    fn read(&mut self, buf: &mut [u8]) -> io::Result<usize>
        ensures bound { ReadsAtMost result buf.new }
        ensures unread { ReadConsumes (Some self.old.unread) (Some self.new.unread) result buf.new }
        ensures fails { self.old.passes ≡ 0 → IsErr result }
        ensures gives { 0 < self.old.passes → IsOk result }
        ensures passes { OnOk result (self.new.passes + 1 ≡ self.old.passes) }
        ensures unpassed { OnErr result (self.new.passes ≡ self.old.passes) }
        ensures many { IfOk result (λ n. n ≡ min (length buf.new) (min self.old.most (length self.old.unread))) }
        ensures most { self.new.most ≡ self.old.most }
        ensures bytes { self.new.bytes ≡ self.old.bytes }
    {
        if self.passes == 0 {
            return Err(io::Error::from(ErrorKind::Other));
        }
        let n = buf.len().min(self.most).min(self.bytes.len() - self.read);
        buf[..n].copy_from_slice(&self.bytes[self.read..self.read + n]);
        self.read += n;
        self.passes -= 1;
        Ok(n)
    }
}

impl Write for Faulty {
    ghost use Rattle.std.specs.Prelude.{◌≡◌, ◌≤◌, ◌+◌, length, min, IfOk, IsErr, OnOk, OnErr, Some};
    ghost use Rattle.std.specs.Io.{WritesAtMost};
    ghost use Rattle.std.specs.Io.KnownBytes.{WriteAppends};

    ghost contents = { λ f. Some f.bytes };

    fn write(&mut self, buf: &[u8]) -> io::Result<usize>
        ensures bound { WritesAtMost result buf.now }
        ensures bytes { WriteAppends (Some self.old.bytes) (Some self.new.bytes) result buf.now }
        ensures fails { self.old.passes ≡ 0 → IsErr result }
        ensures passes { OnOk result (self.new.passes + 1 ≡ self.old.passes) }
        ensures unpassed { OnErr result (self.new.passes ≡ self.old.passes) }
        ensures many { IfOk result (λ n. n ≡ min (length buf.now) self.old.most) }
        ensures most { self.new.most ≡ self.old.most }
    {
        if self.passes == 0 {
            return Err(io::Error::from(ErrorKind::Other));
        }
        let n = buf.len().min(self.most);
        self.bytes.extend_from_slice(&buf[..n])?;
        self.passes -= 1;
        Ok(n)
    }

    fn flush(&mut self) -> io::Result<()> {
        Ok(())
    }
}
