//! A sender that waits for each answer before it sends the next line.

use crate::runs::Difference;
use jg_program::{Files, Status, run};
use std::alloc::Global;
use std::cell::Cell;
use std::io;
use std::io::{BufReader, BufWriter, ErrorKind, Read, Write};
use std::sync::Wait;
use std::thread::Threads;

/// Somebody who hands out a text in pieces of so many bytes, and hands out no more as long as a line of it isn't
/// answered.
#[derive(Drop)]
struct Asking<'a> {
    text: &'a [u8],
    most: usize,
    asked: u32,
    answered: &'a Cell<u32>,
}

impl Read for Asking<'_> {
    fn read(&mut self, buf: &mut [u8]) -> io::Result<usize> {
        if self.answered.get() != self.asked {
            return Err(io::Error::from(ErrorKind::Other));
        }
        let n = buf.len().min(self.most).min(self.text.len());
        let (given, rest) = self.text.split_at(n);
        buf[..n].copy_from_slice(given);
        self.text = rest;
        self.asked = self.asked.saturating_add(lines_in(given));
        Ok(n)
    }
}

/// What reaches them: so many lines.
#[derive(Drop)]
struct Hearing<'a> {
    answered: &'a Cell<u32>,
}

impl Write for Hearing<'_> {
    fn write(&mut self, buf: &[u8]) -> io::Result<usize> {
        let heard = self.answered.get().saturating_add(lines_in(buf));
        self.answered.set(heard);
        Ok(buf.len())
    }

    fn flush(&mut self) -> io::Result<()> {
        Ok(())
    }
}

fn lines_in(bytes: &[u8]) -> u32 {
    let mut count = 0u32;
    for byte in bytes {
        if *byte == b'\n' {
            count = count.saturating_add(1);
        }
    }
    count
}

/// A script, and a record, of six lines each, of which each line is answered by one.
const TEXTS: [(&str, &str); 2] = [
    (
        "check",
        "T1 - AttachCurrentThread
T1 E1.1 NewString [72,105]
T1 E1.1 GetStringLength L1.1
T1 E1.1 DeleteLocalRef L1.1
T1 E1.1 GetStringLength L1.1
T1 - DetachCurrentThread
",
    ),
    (
        "watch",
        "T1 begins
T1 enters
T0 met object 12
T1 got local O15
T1 E1.1 DeleteLocalRef L1.1
T1 lost L1.1
",
    ),
];

/// How much is read at once, and how many bytes there are at once to read.
const PIECES: [(usize, usize); 7] = [
    (100, 1),
    (100, 7),
    (100, 25),
    (100, 26),
    (100, 60),
    (100, 1000),
    (0, 1000),
];

/// Whether the command answers all six lines of the text, each before more is read. Its answers are buffered.
fn converses<T: Threads + Wait + Sync + Files>(
    rt: &T,
    alloc: Global,
    command: &str,
    text: &str,
    room: usize,
    most: usize,
) -> io::Result<bool> {
    let answered = Cell::new(0u32);
    let asking = Asking {
        text: text.as_bytes(),
        most,
        asked: 0,
        answered: &answered,
    };
    let hearing = Hearing {
        answered: &answered,
    };
    let reader = BufReader::with_capacity(alloc, room, asking)?;
    let writer = BufWriter::with_capacity(alloc, 1000, hearing)?;
    let mut err = Vec::new(alloc);
    let status = run(rt, alloc, &[command], rt, reader, writer, &mut err);
    Ok(status as u8 == Status::Done as u8 && answered.get() == 6)
}

/// What isn't so where a sender waits: it has its answer before more is read, also where the answers are buffered, and
/// wherever reads cut the lines. A reader without room shows nothing before it is read.
pub fn other_waiting<T: Threads + Wait + Sync + Files>(
    rt: &T,
    alloc: Global,
) -> io::Result<Difference> {
    for (command, text) in TEXTS {
        for (room, most) in PIECES {
            if !converses(rt, alloc, command, text, room, most)? {
                return Ok(Some("a sender waits for an answer that comes only after more is read"));
            }
        }
    }
    Ok(None)
}
