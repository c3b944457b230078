//! The program `jg`: under a setup, it answers a script on standard input with its journal on standard output, tests a
//! journal, plays the scripts of several threads, or answers a record.
#![tactic(auto)]

use jg_program::{ProgramStop, run, say};
use std::env;
use std::io::{BufReader, BufWriter, ErrorKind};
use std::process::ExitCode;

/// The most bytes that are read, and that are written, at once.
const BUFFER: usize = 65_536;

/// The words after the program's name.
fn words_of(rt: &HostRuntime) -> Result<Vec<String>, ProgramStop> {
    let args = match env::args(rt) {
        Ok(args) => args,
        Err(error) if error.kind() == ErrorKind::OutOfMemory => return Err(ProgramStop::NO_MEMORY),
        Err(_) => return Err(ProgramStop::REFUSED),
    };
    match args.skip(1).collect::<Vec<String>>(rt.alloc()) {
        Ok(words) => Ok(words),
        Err(_) => Err(ProgramStop::NO_MEMORY),
    }
}

/// Ends before the program has run.
fn end(rt: &HostRuntime, stop: ProgramStop) -> ExitCode {
    ExitCode::from(say(stop, &mut rt.stderr()) as u8)
}

/// Runs the program on its words and the standard streams, which are buffered.
fn main(rt: HostRuntime) -> ExitCode {
    let alloc = rt.alloc();
    let owned = match words_of(&rt) {
        Ok(owned) => owned,
        Err(stop) => return end(&rt, stop),
    };
    let mut words = Vec::new(alloc);
    for word in &owned {
        let Ok(()) = words.push(word.as_str()) else {
            return end(&rt, ProgramStop::NO_MEMORY);
        };
    }
    let Ok(reader) = BufReader::with_capacity(alloc, BUFFER, rt.stdin()) else {
        return end(&rt, ProgramStop::NO_MEMORY);
    };
    let Ok(out) = BufWriter::with_capacity(alloc, BUFFER, rt.stdout()) else {
        return end(&rt, ProgramStop::NO_MEMORY);
    };
    let status = run(&rt, alloc, &words, &rt, reader, out, &mut rt.stderr());
    ExitCode::from(status as u8)
}
