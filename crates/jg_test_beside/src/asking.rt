//! Asks questions, makes calls or tells facts many times over, for `bench/core` and `bench/embed` to time and to count.

mod asked;
mod prepared;
mod told;

use crate::asking::asked::{Kind, asked, asked_from_outside, called, denied};
use crate::asking::prepared::{prepare_core, prepare_guard, read_setup};
use crate::asking::told::{Pair, fill, let_go, pairs, sessions, strings};
use jg_core::Core;
use jg_guard::Guard;
use std::alloc::Global;

/// How many calls the guard's journal has at the most.
const LIMIT: u32 = 10_000_000;

/// Makes calls of that kind so many times.
fn call(alloc: Global, kind: &str, count: u64) -> Option<()> {
    let kind = Kind::named(kind)?;
    let mut guard = Guard::new(alloc, alloc, read_setup(alloc)?, LIMIT).ok()?;
    prepare_guard(alloc, &mut guard)?;
    called(&mut guard, &kind, count)
}

/// Asks the core or tells it so many times what is named so.
fn use_core(alloc: Global, core: &mut Core, mode: &str, kind: &str, count: u64) -> Option<()> {
    match mode {
        "ask" => asked(core, &Kind::named(kind)?, count),
        "denied" => denied(core, &Kind::named(kind)?, count),
        "outside" => asked_from_outside(alloc, core, count),
        "tell" => pairs(core, &Pair::named(kind)?, count),
        "gone" => let_go(alloc, core, count),
        "strings" => strings(alloc, core, count),
        "sessions" => sessions(core, count),
        _ => None,
    }
}

/// The same of a core beside which so many of each sort are live.
fn use_filled(
    alloc: Global,
    core: &mut Core,
    (mode, kind): (&str, &str),
    count: u64,
    live: u64,
) -> Option<()> {
    prepare_core(core)?;
    fill(core, live)?;
    use_core(alloc, core, mode, kind, count)
}

/// Does what is asked for, a mode and a kind with a hyphen between them, so many times, and with so many of each sort
/// live beside it. `None` where the words aren't these, a call was denied, a fact refused, or memory ran out.
pub fn ask(alloc: Global, what: &str, count: &str, live: &str) -> Option<()> {
    let (mode, kind) = what.split_once('-')?;
    let count = count.parse::<u64>().ok()?;
    let live = live.parse::<u64>().ok()?;
    if mode == "call" {
        return call(alloc, kind, count);
    }
    let mut core = Core::new(alloc, read_setup(alloc)?);
    use_filled(alloc, &mut core, (mode, kind), count, live)
}
