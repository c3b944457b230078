//! Facts, each with the one that undoes it.

use crate::asking::prepared::{STRING, TEXT, THREAD};
use jg_core::{Core, Fact};
use jg_table_buffers::Family;
use jg_words::{Kind, Ref, Tid};
use std::alloc::Global;

/// Which two facts.
#[derive(Drop)]
pub enum Pair {
    /// A local is handed, and lost.
    Local,
    Global,
    Buffer,
    Monitor,
    Object,
    Frame,
    Native,
    Pending,
}

impl Pair {
    pub fn named(name: &str) -> Option<Pair> {
        match name {
            "local" => Some(Pair::Local),
            "global" => Some(Pair::Global),
            "buffer" => Some(Pair::Buffer),
            "monitor" => Some(Pair::Monitor),
            "object" => Some(Pair::Object),
            "frame" => Some(Pair::Frame),
            "native" => Some(Pair::Native),
            "pending" => Some(Pair::Pending),
            _ => None,
        }
    }
}

fn told(core: &mut Core, fact: Fact) -> Option<()> {
    core.tell(fact).ok()?;
    Some(())
}

fn handed(core: &mut Core, kind: Kind) -> Option<()> {
    let reference = core.hand(THREAD, kind, TEXT).ok()?;
    told(core, Fact::Lost(reference))
}

/// Tells a fact, and the one that undoes it.
fn told_both(core: &mut Core, fact: Fact, undoing: Fact) -> Option<()> {
    told(core, fact)?;
    told(core, undoing)
}

fn tell_both(core: &mut Core, pair: &Pair) -> Option<()> {
    let (tid, object, kept) = (THREAD, TEXT, None);
    match pair {
        Pair::Local => handed(core, Kind::Local),
        Pair::Global => handed(core, Kind::Global),
        Pair::Buffer => {
            let buffer = core.lend(tid, Family::Chars, object, Ref::Null, 1).ok()?;
            told(core, Fact::Back(buffer))
        }
        Pair::Monitor => told_both(core, Fact::Own { tid, object }, Fact::Free { tid, object }),
        Pair::Object => {
            let object = core.meet(STRING, 1).ok()?;
            core.gone(&[object]).ok()
        }
        Pair::Frame => told_both(core, Fact::Push { tid, room: 16 }, Fact::Pop { tid, kept }),
        Pair::Native => told_both(core, Fact::Enter(tid), Fact::Leave { tid, kept }),
        Pair::Pending => told_both(core, Fact::Raise { tid, object }, Fact::Calm(tid)),
    }
}

/// Tells the two facts so many times.
pub fn pairs(core: &mut Core, of: &Pair, count: u64) -> Option<()> {
    for _ in 0..count {
        tell_both(core, of)?;
    }
    Some(())
}

/// Makes so many of each sort: objects, locals, globals, weak references, copies and owned monitors.
pub fn fill(core: &mut Core, live: u64) -> Option<()> {
    for _ in 0..live {
        let object = core.meet(STRING, 1).ok()?;
        core.hand(THREAD, Kind::Local, object).ok()?;
        core.hand(THREAD, Kind::Global, object).ok()?;
        core.hand(THREAD, Kind::Weak, object).ok()?;
        core.lend(THREAD, Family::Chars, object, Ref::Null, 1).ok()?;
        told(
            core,
            Fact::Own {
                tid: THREAD,
                object,
            },
        )?;
    }
    Some(())
}

/// Meets so many objects, and lets them go together.
pub fn let_go(alloc: Global, core: &mut Core, count: u64) -> Option<()> {
    let mut objects = Vec::new(alloc);
    for _ in 0..count {
        objects.push(core.meet(STRING, 1).ok()?).ok()?;
    }
    core.gone(objects.as_slice()).ok()
}

/// Meets, hands, loses and lets go so many strings, a thousand at a time.
pub fn strings(alloc: Global, core: &mut Core, count: u64) -> Option<()> {
    for _ in 0..count / 1000 {
        let mut objects = Vec::new(alloc);
        for _ in 0..1000 {
            let object = core.meet(STRING, 1).ok()?;
            let reference = core.hand(THREAD, Kind::Local, object).ok()?;
            told(core, Fact::Lost(reference))?;
            objects.push(object).ok()?;
        }
        core.gone(objects.as_slice()).ok()?;
    }
    Some(())
}

/// Begins and ends so many sessions, of 60,000 threads in turn.
pub fn sessions(core: &mut Core, count: u64) -> Option<()> {
    for n in 0..count {
        let tid = Tid((n % 60_000) as u16 + 2);
        told(core, Fact::Begin(tid))?;
        let reference = core.hand(tid, Kind::Local, TEXT).ok()?;
        told(core, Fact::Own { tid, object: TEXT })?;
        told(core, Fact::Lost(reference))?;
        told(core, Fact::End(tid))?;
    }
    Some(())
}
