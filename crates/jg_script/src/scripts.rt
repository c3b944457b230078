//! The scripts of several threads, which stand in one file, a line for each call.

ghost use Rattle.std.specs.Prelude.{◌≡◌, ◌<◌, ◌≤◌, [], ◌∷◌, length, vec_len, IfOk, IfErr, OnOk};
ghost use Rattle.jg_script.specs.Checked.{ReaderFails};
ghost use Rattle.jg_script.specs.ScriptFile.{Ascend, HoldsRefused, ReadsScripts};
ghost use Rattle.jg_script.specs.Threads.{IsAt, IsGap, Adds, NotAdded, TakesLine};

use crate::run_fault::RunFault;
use jg_lines::{LineFault, Taken, Watched, next_line};
use jg_text::{ScriptFault, read_call};
use jg_words::{Call, EnvId, Tid};
use std::alloc::{AllocError, Global};
use std::io::BufRead;
use std::marker::Model;

/// The most lines that a file of scripts has.
pub const MAX_LINES: u64 = 1_000_000;

/// The most threads that the lines of such a file are of.
pub const MAX_THREADS: usize = 64;

/// A line of a thread's script: the environment that is handed in, if one is, and the call.
#[derive(Drop)]
pub struct Line {
    pub env: Option<EnvId>,
    pub call: Call,
}

/// The script of one thread: its lines, in their order.
#[derive(Drop)]
pub struct Lines {
    pub tid: Tid,
    pub calls: Vec<Line>,
}

/// The scripts of at most 64 threads, the threads ascending. Contracts see the list.
#[derive(Drop)]
pub struct Scripts {
    threads: Vec<Lines>,
}

impl Model for Scripts {
    ghost use Rattle.std.specs.Prelude.{◌≤◌, List, vec_len};
    ghost use Rattle.jg_script.specs.declared.scripts.Lines.{Lines};
    ghost use Rattle.jg_script.specs.ScriptFile.{Ascend};

    ghost Value = { List Lines };

    ghost view = { λ s. s.threads.items };

    ghost invariant = { λ s. (vec_len s.threads ≤ 64) × Ascend s.threads.items };
}

impl Scripts {
    /// The script of each thread that has one, which isn't empty, the threads ascending.
    pub fn into_lines(self) -> Vec<Lines>
        ensures items { result.items ≡ self }
        ensures few { vec_len result ≤ 64 }
        ensures ascend { Ascend result.items }
    {
        let Scripts { threads } = self;
        threads
    }
}

/// The place of the thread's script, or else the place where it would stand.
fn search(threads: &[Lines], tid: Tid) -> Result<usize, usize>
    requires { Ascend threads.now }
    ensures found { IfOk result (IsAt threads.now tid.0) }
    ensures absent { IfErr result (IsGap threads.now tid.0) }
{
    threads.binary_search_by_key(&tid.0, |lines| lines.tid.0)
}

/// A script of one line.
fn begin(alloc: Global, tid: Tid, line: Line) -> Result<Lines, AllocError>
    ensures { IfOk result (λ script. (script.tid ≡ tid) × (script.calls.items ≡ line ∷ [])) }
{
    let mut calls = Vec::new(alloc);
    calls.push(line)?;
    Ok(Lines { tid, calls })
}

/// Adds line number `number` of the file to its thread's script, or begins that.
fn add(
    alloc: Global,
    threads: &mut Vec<Lines>,
    tid: Tid,
    line: Line,
    number: u64,
) -> Result<(), RunFault>
    requires ascend { Ascend threads.old.items }
    requires few { length threads.old.items ≤ 64 }
    ensures ok { OnOk result (Adds tid.0 line threads.old.items threads.new.items) }
    ensures err { IfErr result (NotAdded threads.old.items tid.0 number) }
{
    match search(threads, tid) {
        Ok(place) => {
            let Ok(()) = threads[place].calls.push(line) else {
                return Err(RunFault::NoMemory { line: number });
            };
            Ok(())
        }
        Err(place) => {
            if threads.len() == MAX_THREADS {
                return Err(RunFault::Script {
                    line: number,
                    fault: ScriptFault::TooManyThreads,
                });
            }
            let Ok(script) = begin(alloc, tid, line) else {
                return Err(RunFault::NoMemory { line: number });
            };
            let Ok(()) = threads.insert(place, script) else {
                return Err(RunFault::NoMemory { line: number });
            };
            Ok(())
        }
    }
}

/// Takes line number `number` of the file, without its line feed, into its thread's script.
fn take_line(
    alloc: Global,
    threads: &mut Vec<Lines>,
    text: &[u8],
    number: u64,
) -> Result<(), RunFault>
    requires ascend { Ascend threads.old.items }
    requires few { length threads.old.items ≤ 64 }
    ensures { TakesLine text.now number threads.old.items threads.new.items result }
{
    let (tid, env, call) = match read_call(alloc, text) {
        Ok(spelt) => spelt,
        Err(ScriptFault::NoMemory) => return Err(RunFault::NoMemory { line: number }),
        Err(fault) => {
            return Err(RunFault::Script {
                line: number,
                fault,
            });
        }
    };
    if number > MAX_LINES {
        return Err(RunFault::Limit { line: number });
    }
    add(alloc, threads, tid, Line { env, call }, number)
}

/// Reads the scripts of a file as `read_scripts` does. `text` is room for a line: what it held is lost. After
/// `Script` it holds the line that is refused, without its line feed, unless that is too long.
pub fn read_script_lines<R: BufRead>(
    alloc: Global,
    reader: &mut Watched<R>,
    text: &mut Vec<u8>,
) -> Result<Scripts, RunFault>
    ensures reads { ReadsScripts (R.remaining reader.old.device) (R.remaining reader.new.device) result }
    ensures refused { HoldsRefused (R.remaining reader.old.device) text.new.items result }
    ensures reader { ReaderFails reader.old.failed reader.new.failed result }
{
    let mut threads = Vec::new(alloc);
    for line in 1..MAX_LINES + 2 {
        let taken = match next_line(reader, text) {
            Ok(taken) => taken,
            Err(LineFault::Read) => return Err(RunFault::Read { line }),
            Err(LineFault::NoMemory) => return Err(RunFault::NoMemory { line }),
        };
        match taken {
            Taken::Nothing => return Ok(Scripts { threads }),
            Taken::TooLong => {
                return Err(RunFault::Script {
                    line,
                    fault: ScriptFault::LineTooLong,
                });
            }
            Taken::Line => {
                if let Err(fault) = take_line(alloc, &mut threads, text, line) {
                    return Err(fault);
                }
            }
            Taken::LastLine => {
                return match take_line(alloc, &mut threads, text, line) {
                    Ok(()) => Ok(Scripts { threads }),
                    Err(fault) => Err(fault),
                };
            }
        }
    }
    unreachable!()
}

/// Reads the scripts of several threads, which stand in one file: a line for each call, the lines
/// of a thread in their order. At most 1,000,000 lines of at most 64 threads are taken: a call on a
/// line after these is `Limit`, and one of a 65th thread `TooManyThreads`. Nothing is read after the
/// first line that is refused. `Read` comes only where the device failed, which is then marked so;
/// `NoMemory` may come at any line; `Write` isn't answered.
pub fn read_scripts<R: BufRead>(alloc: Global, reader: &mut Watched<R>) -> Result<Scripts, RunFault>
    ensures reads { ReadsScripts (R.remaining reader.old.device) (R.remaining reader.new.device) result }
    ensures reader { ReaderFails reader.old.failed reader.new.failed result }
{
    let mut text = Vec::new(alloc);
    read_script_lines(alloc, reader, &mut text)
}
