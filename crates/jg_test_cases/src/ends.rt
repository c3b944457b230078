//! What no run of a case shows of the program: each way to stop and what is said behind it, when a setup's file is
//! closed, when answers are handed on, and files of the system.

use crate::devices::{Sink, SinkWriter, Taking};
use crate::runs::{Difference, Ended, other_end};
use crate::waiting::other_waiting;
use jg_policy::SetupFault;
use jg_program::{Files, ProgramEnd, ProgramStop, Said, Status, run, say, say_ending};
use jg_script::RunFault;
use jg_shell::Stop;
use std::alloc::{AllocError, Global};
use std::cell::Cell;
use std::io;
use std::io::{BufReader, ErrorKind, Read};
use std::sync::Wait;
use std::thread::Threads;

/// What a case may try of the program by itself.
#[derive(Drop)]
pub enum Own {
    Stops,
    Endings,
    Closing,
    Waiting,
    SystemFiles,
}

impl Own {
    /// What is written so.
    pub fn read(text: &str) -> Option<Own> {
        match text {
            "stops" => Some(Own::Stops),
            "endings" => Some(Own::Endings),
            "closing" => Some(Own::Closing),
            "waiting" => Some(Own::Waiting),
            "system files" => Some(Own::SystemFiles),
            _ => None,
        }
    }
}

/// Ways to end before the work is done, each with its status and its text.
const STOPS: [(ProgramStop, Status, &str); 13] = [
    (ProgramStop::REFUSED, Status::Faulty, "arguments refused\n"),
    (
        ProgramStop::NO_MEMORY,
        Status::Exhausted,
        "arguments: no memory\n",
    ),
    (
        ProgramStop::Setup(SetupFault::NoMemory),
        Status::Exhausted,
        "setup: no memory\n",
    ),
    (
        ProgramStop::Setup(SetupFault::BadVersion),
        Status::Faulty,
        "setup: BadVersion\n",
    ),
    (
        ProgramStop::SetupRead,
        Status::Device,
        "setup: read failed\n",
    ),
    (
        ProgramStop::Run(RunFault::Limit { line: 4 }),
        Status::Exhausted,
        "line 4: limit\n",
    ),
    (
        ProgramStop::Run(RunFault::NoMemory { line: 5 }),
        Status::Exhausted,
        "line 5: no memory\n",
    ),
    (
        ProgramStop::Run(RunFault::Read { line: 6 }),
        Status::Device,
        "line 6: read failed\n",
    ),
    (
        ProgramStop::Run(RunFault::Write { line: 7 }),
        Status::Device,
        "line 7: write failed\n",
    ),
    (ProgramStop::Leaks, Status::Exhausted, "leaks: no memory\n"),
    (
        ProgramStop::Mismatch {
            thread: 1,
            place: 3,
        },
        Status::Differs,
        "differs at T1 place 3\n",
    ),
    (
        ProgramStop::Worker(Stop::Limit),
        Status::Exhausted,
        "limit\n",
    ),
    (
        ProgramStop::Worker(Stop::NoMemory),
        Status::Exhausted,
        "no memory\n",
    ),
];

/// What isn't so of the ways to stop.
fn other_stop(alloc: Global) -> Difference {
    for (stop, status, text) in STOPS {
        let mut err = Vec::new(alloc);
        if say(stop, &mut err) as u8 != status as u8 {
            return Some("a way to stop has another status");
        }
        if err.as_slice() != text.as_bytes() {
            return Some("a way to stop has another text");
        }
    }
    None
}

/// What is said behind the way to stop.
#[derive(Clone, Copy)]
enum Also {
    Text,
    Short,
    NoMemory,
    CutOff,
}

/// What may be said behind a way to stop, and its text.
const ALSO: [(Also, &str); 4] = [
    (Also::Text, "left\n"),
    (Also::Short, "left\nsummary: no memory\n"),
    (Also::NoMemory, "explain: no memory\n"),
    (Also::CutOff, "line 9: cut off\nleft\n"),
];

fn said_of(alloc: Global, also: Also) -> Result<Said, AllocError> {
    let text = String::from_str(alloc, "left\n")?;
    Ok(match also {
        Also::Text => Said::Text(text),
        Also::Short => Said::Short(text),
        Also::NoMemory => Said::NoMemory,
        Also::CutOff => Said::CutOff { line: 9, text },
    })
}

/// What isn't so of what is said behind a way to stop: its line comes first.
fn other_ending(alloc: Global) -> io::Result<Difference> {
    for (also, text) in ALSO {
        let mut wanted = String::from_str(alloc, "leaks: no memory\n")?;
        wanted.push_str(text)?;
        let ending = ProgramEnd {
            ended: Err(ProgramStop::Leaks),
            said: said_of(alloc, also)?,
        };
        let mut err = Vec::new(alloc);
        if say_ending(ending, &mut err) as u8 != Status::Exhausted as u8 {
            return Ok(Some("what is said behind a way to stop changes the status"));
        }
        if err.as_slice() != wanted.as_bytes() {
            return Ok(Some("what is said behind a way to stop has another text"));
        }
    }
    Ok(None)
}

const CLOSED: &str = "version = 1\nillegal_native_access = \"deny\"\n";

const SCRIPT: &str = "T1 - AttachCurrentThread
T1 E1.1 FindClass app/Main
";

const NOT_FOUND: &str = "T1 - AttachCurrentThread = E1.1
T1 E1.1 FindClass app/Main = throw java/lang/NoClassDefFoundError
";

/// A setup's file, which notes when it is closed.
#[derive(Drop)]
struct Noting<'a> {
    closed: &'a Cell<bool>,
}

/// The same, open.
struct NotingOpen<'a> {
    bytes: &'a [u8],
    closed: &'a Cell<bool>,
}

impl Drop for NotingOpen<'_> {
    fn drop(self) {
        let NotingOpen { bytes: _, closed } = self;
        closed.set(true);
    }
}

impl Read for NotingOpen<'_> {
    fn read(&mut self, buf: &mut [u8]) -> io::Result<usize> {
        self.bytes.read(buf)
    }
}

impl<'a> Files for Noting<'a> {
    type File = NotingOpen<'a>;

    fn open(&self, _path: &str) -> io::Result<(NotingOpen<'a>, u64)> {
        let open = NotingOpen {
            bytes: CLOSED.as_bytes(),
            closed: self.closed,
        };
        Ok((open, 0))
    }
}

/// A reader that can be read once the setup's file is closed, and fails before.
#[derive(Drop)]
struct AfterClosing<'a> {
    bytes: &'a [u8],
    closed: &'a Cell<bool>,
}

impl Read for AfterClosing<'_> {
    fn read(&mut self, buf: &mut [u8]) -> io::Result<usize> {
        if self.closed.get() {
            self.bytes.read(buf)
        } else {
            Err(io::Error::from(ErrorKind::BrokenPipe))
        }
    }
}

/// What isn't so where the setup's file is closed before the script's first byte: its number could be that of a
/// standard input that was closed.
fn other_closing<T: Threads + Wait + Sync>(rt: &T, alloc: Global) -> io::Result<Difference> {
    let closed = Cell::new(false);
    let noting = Noting { closed: &closed };
    let bytes = SCRIPT.as_bytes();
    let closed = &closed;
    let reader = BufReader::new(alloc, AfterClosing { bytes, closed })?;
    let words = ["--setup", "app.toml"];
    let (mut out, mut err) = (Sink::new(alloc, Taking::ALL), Vec::new(alloc));
    let writer = SinkWriter { sink: &mut out };
    let status = run(rt, alloc, &words, &noting, reader, writer, &mut err);
    let ended = Ended {
        status: status as u8,
        out: out.bytes,
        err,
    };
    Ok(other_end(&ended, 0, Some(NOT_FOUND.as_bytes()), Some(b"")))
}

/// Opens a file, and reads its first bytes.
fn first_bytes<F: Files>(files: &F, path: &str) -> io::Result<usize> {
    let (mut file, _) = files.open(path)?;
    let mut bytes = [0; 16];
    file.read(&mut bytes)
}

/// What isn't so of the system's files: what isn't there can't be read, and neither can a folder.
fn other_file<F: Files>(files: &F) -> Difference {
    for path in ["no/such/file", "/"] {
        if first_bytes(files, path).is_ok() {
            return Some("what is no file is read");
        }
    }
    None
}

/// What isn't so of what the text says to try.
pub fn other_own<T: Threads + Wait + Sync + Files>(
    rt: &T,
    alloc: Global,
    text: &str,
) -> io::Result<Difference> {
    match Own::read(text) {
        Some(Own::Stops) => Ok(other_stop(alloc)),
        Some(Own::Endings) => other_ending(alloc),
        Some(Own::Closing) => other_closing(rt, alloc),
        Some(Own::Waiting) => other_waiting(rt, alloc),
        Some(Own::SystemFiles) => Ok(other_file(rt)),
        None => Ok(Some("nothing of that name is tried")),
    }
}
