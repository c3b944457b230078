//! How the program ends.

ghost use Rattle.std.specs.Prelude.{◌≡◌, [], Err, IfOk, OnErr, string_bytes};
ghost use Rattle.jg_program.specs.declared.stop.Said.TheVariants.{NoMemory};
ghost use Rattle.jg_program.specs.Reported.{said_text};
ghost use Rattle.jg_program.specs.Statuses.{ended_status, status_of, status_of_record, status_of_run, status_of_setup, status_of_words};

use jg_args::ArgsFault;
use jg_policy::SetupFault;
use jg_script::RunFault;
use std::alloc::{AllocError, Global};
use std::io::Write;
use thiserror::Error;

/// The status that the program ends with.
#[derive(Clone, Copy, Debug, PartialEq, Eq)]
pub enum Status {
    /// All was done.
    Done = 0,
    /// The journal that was tested is none of a legal history; or after a play, journal and receipts
    /// differ; or a record tells another answer than the core's, or what can't be.
    Differs = 1,
    /// The script, the setup or the arguments are faulty.
    Faulty = 2,
    /// The limit was met, or memory ran out.
    Exhausted = 3,
    /// A device failed.
    Device = 4,
    /// All was done, and a call was denied, where that is to be told by the status.
    Denied = 5,
}

/// Why the program ends before its work is done. Each prints as its line on standard error.
#[derive(Clone, Copy, Debug, PartialEq, Eq, Error)]
pub enum ProgramStop {
    #[error("{0}")]
    Arguments(ArgsFault),
    /// The setup is faulty, or memory ran out before the script was begun.
    #[error("setup: {0}")]
    Setup(SetupFault),
    /// The setup file can't be opened or read.
    #[error("setup: read failed")]
    SetupRead,
    #[error("{0}")]
    Run(RunFault),
    /// A record isn't answered to its end.
    #[error("{0}")]
    Record(jg_watch::Stop),
    /// Memory ran out for what is left behind, after the script was answered.
    #[error("leaks: no memory")]
    Leaks,
    /// Memory ran out for the summary, after the script was answered.
    #[error("summary: no memory")]
    Summary,
    /// Memory ran out for what is explained, after all else was done.
    #[error("explain: no memory")]
    Explain,
    /// After a play, the receipt or the entry of this thread at this place of the journal, from 0, is
    /// the first that has no equal on the other side.
    #[error("differs at T{thread} place {place}")]
    Mismatch { thread: u16, place: u64 },
    /// A worker stopped before the end of its script.
    #[error("{0}")]
    Worker(jg_shell::Stop),
}

impl ProgramStop {
    /// The words are no command line, or ask for what the program can't do.
    pub const REFUSED: ProgramStop = ProgramStop::Arguments(ArgsFault::Refused);

    /// Memory ran out before the words were read, or for the text that they ask for.
    pub const NO_MEMORY: ProgramStop = ProgramStop::Arguments(ArgsFault::NoMemory);

    /// The status that it ends with.
    pub fn status(self) -> Status
        ensures { result ≡ status_of self }
    {
        match self {
            ProgramStop::Arguments(fault) => status_of_words(fault),
            ProgramStop::Setup(fault) => status_of_setup(fault),
            ProgramStop::SetupRead => Status::Device,
            ProgramStop::Run(fault) => status_of_run(fault),
            ProgramStop::Record(stop) => status_of_record(stop),
            ProgramStop::Leaks => Status::Exhausted,
            ProgramStop::Summary => Status::Exhausted,
            ProgramStop::Explain => Status::Exhausted,
            ProgramStop::Mismatch { .. } => Status::Differs,
            ProgramStop::Worker(_) => Status::Exhausted,
        }
    }
}

fn status_of_words(fault: ArgsFault) -> Status
    ensures { result ≡ status_of_words fault }
{
    match fault {
        ArgsFault::Help => Status::Done,
        ArgsFault::Refused => Status::Faulty,
        ArgsFault::NoMemory => Status::Exhausted,
    }
}

fn status_of_setup(fault: SetupFault) -> Status
    ensures { result ≡ status_of_setup fault }
{
    match fault {
        SetupFault::NoMemory => Status::Exhausted,
        SetupFault::NotToml
        | SetupFault::BadVersion
        | SetupFault::UnknownKey
        | SetupFault::Missing
        | SetupFault::BadType
        | SetupFault::BadMode
        | SetupFault::BadName
        | SetupFault::Duplicate
        | SetupFault::TooMany => Status::Faulty,
    }
}

fn status_of_run(fault: RunFault) -> Status
    ensures { result ≡ status_of_run fault }
{
    match fault {
        RunFault::Script { .. } => Status::Faulty,
        RunFault::Limit { .. } | RunFault::NoMemory { .. } => Status::Exhausted,
        RunFault::Read { .. } | RunFault::Write { .. } => Status::Device,
    }
}

fn status_of_record(stop: jg_watch::Stop) -> Status
    ensures { result ≡ status_of_record stop }
{
    match stop {
        jg_watch::Stop::Faulty { .. } => Status::Faulty,
        jg_watch::Stop::Limit { .. } | jg_watch::Stop::NoMemory { .. } => Status::Exhausted,
        jg_watch::Stop::Read { .. } | jg_watch::Stop::Write { .. } => Status::Device,
    }
}

/// What is said on standard error, behind the line that says why the program ends, if it has one.
#[derive(Drop)]
pub enum Said {
    Text(String),
    /// The same, behind which memory ran out for the summary.
    Short(String),
    /// Memory ran out for it.
    NoMemory,
    /// The last line of a record has no line feed; and what is said behind that.
    CutOff { line: u64, text: String },
}

/// How the program ends: with this status, or for this reason; and what is said then.
#[derive(Drop)]
pub struct ProgramEnd {
    pub ended: Result<Status, ProgramStop>,
    pub said: Said,
}

/// The ending with nothing to say.
pub fn quietly(alloc: Global, ended: Result<Status, ProgramStop>) -> ProgramEnd
    ensures ended { result.ended ≡ ended }
    ensures said { said_text result.said ≡ [] }
{
    ProgramEnd {
        ended,
        said: Said::Text(String::new(alloc)),
    }
}

/// The ending by this, with what is told of it; or memory ran out for that.
pub fn saying(stop: ProgramStop, told: Result<String, AllocError>) -> ProgramEnd
    ensures ended { result.ended ≡ Err stop }
    ensures said { IfOk told (λ text. said_text result.said ≡ string_bytes text) }
    ensures memory { OnErr told (result.said ≡ NoMemory) }
{
    let said = match told {
        Ok(text) => Said::Text(text),
        Err(_) => Said::NoMemory,
    };
    ProgramEnd {
        ended: Err(stop),
        said,
    }
}

/// Says why the program ends. A failed write of that changes nothing.
pub fn say<E: Write>(stop: ProgramStop, err: &mut E) -> Status
    ensures { result ≡ status_of stop }
{
    let _ = writeln!(err, "{stop}");
    stop.status()
}

/// Says on standard error how the program ends, and gives its status. A failed write changes nothing.
pub fn say_ending<E: Write>(ending: ProgramEnd, err: &mut E) -> Status
    ensures { result ≡ ended_status ending.ended }
{
    let status = match ending.ended {
        Ok(status) => status,
        Err(stop) => say(stop, err),
    };
    match ending.said {
        Said::Text(text) => {
            let _ = err.write_all(text.as_bytes());
        }
        Said::Short(text) => {
            let _ = err.write_all(text.as_bytes());
            let _ = writeln!(err, "{}", ProgramStop::Summary);
        }
        Said::NoMemory => {
            let _ = writeln!(err, "{}", ProgramStop::Explain);
        }
        Said::CutOff { line, text } => {
            let _ = writeln!(err, "line {line}: cut off");
            let _ = err.write_all(text.as_bytes());
        }
    }
    status
}
