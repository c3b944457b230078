//! The devices of a run: readers and writers that fail, stop or repeat as a case states, and the files of a case.

use crate::headings::Heading;
use crate::parts::{Part, find_part};
use jg_program::Files;
use jg_script::HandsOn;
use std::alloc::Global;
use std::io;
use std::io::{ErrorKind, Read, Write};

/// How many calls a device passes before it fails, of how many bytes each at the most, and whether its first call is
/// interrupted.
#[derive(Clone, Copy)]
pub struct Passes {
    pub calls: usize,
    pub most: usize,
    pub is_interrupted: bool,
}

impl Passes {
    /// All calls.
    pub const ALL: Passes = Passes {
        calls: usize::MAX,
        most: usize::MAX,
        is_interrupted: false,
    };

    /// No call.
    pub const NONE: Passes = Passes {
        calls: 0,
        most: usize::MAX,
        is_interrupted: false,
    };

    /// Passes a call, or fails.
    fn pass(&mut self) -> io::Result<()> {
        if self.is_interrupted {
            self.is_interrupted = false;
            return Err(io::Error::from(ErrorKind::Interrupted));
        }
        if self.calls == 0 {
            return Err(io::Error::from(ErrorKind::BrokenPipe));
        }
        self.calls -= 1;
        Ok(())
    }
}

/// What a reader does behind its bytes.
#[derive(Clone, Copy)]
pub enum Behind {
    Ends,
    Fails(ErrorKind),
    /// It gives this byte, so many times.
    Repeats(u8, usize),
}

impl Behind {
    /// What is written so: `fails`, `no memory`, `repeats BYTE`, or `repeats BYTE TIMES`.
    pub fn read(text: &str) -> Option<Behind> {
        match text {
            "fails" => return Some(Behind::Fails(ErrorKind::BrokenPipe)),
            "no memory" => return Some(Behind::Fails(ErrorKind::OutOfMemory)),
            _ => {}
        }
        let rest = text.strip_prefix("repeats ")?;
        let (byte, times) = match rest.split_once(" ") {
            Some((byte, times)) => (byte, times.parse::<usize>().ok()?),
            None => (rest, usize::MAX),
        };
        Some(Behind::Repeats(byte.parse::<u8>().ok()?, times))
    }
}

/// A reader of these bytes.
#[derive(Clone, Copy)]
pub struct Source<'a> {
    pub bytes: &'a [u8],
    pub behind: Behind,
    pub passes: Passes,
}

impl Read for Source<'_> {
    fn read(&mut self, buf: &mut [u8]) -> io::Result<usize> {
        self.passes.pass()?;
        if !self.bytes.is_empty() {
            let n = buf.len().min(self.passes.most).min(self.bytes.len());
            let (front, rest) = self.bytes.split_at(n);
            buf[..n].copy_from_slice(front);
            self.bytes = rest;
            return Ok(n);
        }
        match self.behind {
            Behind::Ends => Ok(0),
            Behind::Fails(kind) => Err(io::Error::from(kind)),
            Behind::Repeats(byte, left) => {
                let n = buf.len().min(left);
                buf[..n].fill(byte);
                self.behind = Behind::Repeats(byte, left - n);
                Ok(n)
            }
        }
    }
}

/// What a writer does with what it is given.
#[derive(Clone, Copy)]
pub struct Taking {
    pub passes: Passes,
    /// Whether it fails when it is to hand on what it has.
    pub is_stuck: bool,
    /// Whether it takes no byte, and calls that no failure.
    pub is_full: bool,
}

impl Taking {
    /// It takes all.
    pub const ALL: Taking = Taking {
        passes: Passes::ALL,
        is_stuck: false,
        is_full: false,
    };

    /// Each call fails.
    pub const NONE: Taking = Taking {
        passes: Passes::NONE,
        is_stuck: true,
        is_full: false,
    };
}

/// What was written, and what more can be.
#[derive(Drop)]
pub struct Sink {
    pub bytes: Vec<u8>,
    pub taking: Taking,
}

impl Sink {
    pub fn new(alloc: Global, taking: Taking) -> Sink {
        Sink {
            bytes: Vec::new(alloc),
            taking,
        }
    }
}

/// A writer into such a sink.
#[derive(Drop)]
pub struct SinkWriter<'a> {
    pub sink: &'a mut Sink,
}

impl Write for SinkWriter<'_> {
    fn write(&mut self, buf: &[u8]) -> io::Result<usize> {
        self.sink.taking.passes.pass()?;
        if self.sink.taking.is_full {
            return Ok(0);
        }
        let n = buf.len().min(self.sink.taking.passes.most);
        self.sink.bytes.extend_from_slice(&buf[..n])?;
        Ok(n)
    }

    fn flush(&mut self) -> io::Result<()> {
        match self.sink.taking.is_stuck {
            true => Err(io::Error::from(ErrorKind::BrokenPipe)),
            false => Ok(()),
        }
    }
}

impl HandsOn for SinkWriter<'_> {
    ghost holds_nothing = { λ _. Unit {0} };

    fn hand_on(&mut self) -> io::Result<()> {
        self.flush()
    }
}

/// The files that a case has.
#[derive(Clone, Copy)]
pub struct Shelf<'a> {
    pub parts: &'a [Part<'a>],
}

impl<'a> Shelf<'a> {
    /// The length that is told for a file.
    fn told(self, path: &str, bytes: &[u8]) -> u64 {
        match find_part(self.parts, Heading::Told, path) {
            Some(told) => told.number as u64,
            None => bytes.len() as u64,
        }
    }

    /// What the file does behind its bytes.
    fn behind(self, path: &str) -> Behind {
        match find_part(self.parts, Heading::Then, path) {
            Some(then) => Behind::read(then.text).unwrap_or(Behind::Ends),
            None => Behind::Ends,
        }
    }
}

impl<'a> Files for Shelf<'a> {
    type File = Source<'a>;

    fn open(&self, path: &str) -> io::Result<(Source<'a>, u64)> {
        let Some(file) = find_part(self.parts, Heading::File, path) else {
            return Err(io::Error::from(ErrorKind::NotFound));
        };
        let source = Source {
            bytes: file.bytes,
            behind: self.behind(path),
            passes: Passes::ALL,
        };
        Ok((source, self.told(path, file.bytes)))
    }
}
