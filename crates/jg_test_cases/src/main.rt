//! Runs the program `jg` on cases that are written in files, and tells which of them come out otherwise than they
//! state. `data/README` says how a case is written.
//!
//! Its words are the paths of the files. Before them `ask WHAT COUNT LIVE` may stand: what `bench/core` times.
#![tactic(auto)]

mod cases;
mod devices;
mod ends;
mod functions;
mod headings;
mod journals;
mod parts;
mod reading;
mod runs;
mod tables;
mod waiting;

use crate::cases::{Tally, try_file};
use jg_program::Files;
use jg_test_beside::ask;
use std::collections::HashSet;
use std::process::ExitCode;
use std::sync::Wait;
use std::thread::Threads;
use std::{env, fs, io};

/// Tries the cases of the file at this path, and tells what comes out otherwise.
fn try_path<T: Threads + Wait + Sync + Files>(
    rt: &HostRuntime,
    threads: &T,
    path: &str,
    names: &mut HashSet<String>,
    tally: &mut Tally,
) -> io::Result<()> {
    let Ok(bytes) = fs::read(rt, path) else {
        tally.refuse();
        return println!(rt; "{path}: refused: it can't be read");
    };
    let mut told = String::new(rt.alloc());
    try_file(threads, rt.alloc(), path, &bytes, names, tally, &mut told)?;
    rt.print(told.as_str())
}

/// Tries the cases of each file at these paths, and tells how many there were. Answers whether all came out as they
/// state.
fn try_paths<T: Threads + Wait + Sync + Files>(
    rt: &HostRuntime,
    threads: &T,
    paths: &[String],
) -> io::Result<bool> {
    let mut tally = Tally::NONE;
    let mut names = HashSet::new(rt.alloc());
    for path in paths {
        try_path(rt, threads, path.as_str(), &mut names, &mut tally)?;
    }
    let (cases, rows, others) = (tally.cases, tally.rows, tally.others);
    println!(rt; "{cases} cases, {rows} rows, {others} come out otherwise")?;
    Ok(tally.is_good())
}

/// Does what the words behind `ask` say, and answers whether it was done. Then tries the cases at the paths behind
/// them, if there are any.
fn ask_and_try<T: Threads + Wait + Sync + Files>(
    rt: &HostRuntime,
    threads: &T,
    words: &[String],
) -> io::Result<bool> {
    let [what, count, live, paths @ ..] = words else {
        return Ok(false);
    };
    match ask(rt.alloc(), what.as_str(), count.as_str(), live.as_str()) {
        None => Ok(false),
        Some(()) if paths.is_empty() => Ok(true),
        Some(()) => try_paths(rt, threads, paths),
    }
}

/// Does what the words say, and answers whether all was well.
fn start<T: Threads + Wait + Sync + Files>(rt: &HostRuntime, threads: &T) -> io::Result<bool> {
    let words = env::args(rt)?.skip(1).collect::<Vec<String>>(rt.alloc())?;
    match words.as_slice() {
        [first, rest @ ..] if first.as_str() == "ask" => ask_and_try(rt, threads, rest),
        paths => try_paths(rt, threads, paths),
    }
}

fn main(rt: HostRuntime) -> ExitCode {
    match start(&rt, &rt) {
        Ok(true) => ExitCode::from(0),
        _ => ExitCode::from(1),
    }
}
