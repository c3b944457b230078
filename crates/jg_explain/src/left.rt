//! What a journal leaves behind, and since when.

ghost use Rattle.std.specs.Prelude.{◌≡◌, ◌++◌, IfOk, OnOk, flat_map, map, string_bytes};
ghost use Rattle.jg_explain.specs.Left as left;

use crate::following::watch_each;
use crate::texts::push_told_at;
use crate::watching::Watch;
use jg_breaches::{Condition, Turns};
use jg_denial_text::begun;
use jg_guard::{Guard, Leaks, NoMemory};
use jg_table_monitors::OwnedMonitor;
use jg_text::{push_buf, push_number, push_ref, push_tid};
use jg_words::{BufId, Ref, Tid};
use std::alloc::{AllocError, Allocator, Global};

/// Something that is left behind.
#[derive(Clone, Copy)]
pub(crate) enum Left {
    Reference(Ref),
    Buffer(BufId),
    Monitor(OwnedMonitor),
}

fn push_refs(all: &mut Vec<Left>, refs: &[Ref]) -> Result<(), AllocError>
    ensures { OnOk result (all.new.items ≡ all.old.items ++ map (λ r. Left.Reference r) refs.now) }
{
    for reference in refs {
        all.push(Left::Reference(*reference))?;
    }
    Ok(())
}

fn push_buffers(all: &mut Vec<Left>, buffers: &[BufId]) -> Result<(), AllocError>
    ensures { OnOk result (all.new.items ≡ all.old.items ++ map (λ b. Left.Buffer b) buffers.now) }
{
    for buffer in buffers {
        all.push(Left::Buffer(*buffer))?;
    }
    Ok(())
}

fn push_monitors(all: &mut Vec<Left>, monitors: &[OwnedMonitor]) -> Result<(), AllocError>
    ensures { OnOk result (all.new.items ≡ all.old.items ++ map (λ m. Left.Monitor m) monitors.now) }
{
    for monitor in monitors {
        all.push(Left::Monitor(*monitor))?;
    }
    Ok(())
}

/// All of it in one list.
fn all_left<A: Allocator>(leaks: &Leaks<A>, alloc: Global) -> Result<Vec<Left>, AllocError>
    ensures { IfOk result (λ all. all.items
        ≡ left.all_left leaks.now.refs.items leaks.now.buffers.items leaks.now.monitors.items) }
{
    let mut all = Vec::new(alloc);
    push_refs(&mut all, &leaks.refs)?;
    push_buffers(&mut all, &leaks.buffers)?;
    push_monitors(&mut all, &leaks.monitors)?;
    Ok(all)
}

fn maker_of(reference: Ref) -> Tid
    ensures { result ≡ left.maker_of reference }
{
    match reference {
        Ref::Null => Tid(0),
        Ref::To { maker, .. } => maker,
    }
}

/// What came to be so when it came to be there.
fn presence(thing: Left) -> Condition
    ensures { result ≡ left.presence thing }
{
    match thing {
        Left::Reference(reference) => Condition::Names {
            tid: maker_of(reference),
            reference,
        },
        Left::Buffer(buffer) => Condition::IsOpen { buffer },
        Left::Monitor(monitor) => Condition::Owns {
            tid: monitor.owner,
            object: monitor.object,
        },
    }
}

fn watches_of(all: &[Left], place: usize, alloc: Global) -> Result<Vec<Watch>, AllocError>
    ensures { IfOk result (λ watches. watches.items ≡ map (left.watch_of place) all.now) }
{
    let mut watches = Vec::new(alloc);
    for thing in all {
        watches.push(Watch {
            place,
            condition: presence(*thing),
            holds: false,
            turns: Turns {
                latest: None,
                earlier: None,
            },
        })?;
    }
    Ok(watches)
}

fn push_monitor(out: &mut String, monitor: OwnedMonitor) -> Result<(), AllocError>
    ensures { OnOk result (string_bytes out.new ≡ string_bytes out.old ++ left.left_text (Left.Monitor monitor)) }
{
    out.push_str("M")?;
    push_number(out, monitor.object.0)?;
    out.push_str(" ")?;
    push_tid(out, monitor.owner)?;
    out.push_str(" ")?;
    push_number(out, monitor.count)
}

fn push_thing(out: &mut String, thing: Left) -> Result<(), AllocError>
    ensures { OnOk result (string_bytes out.new ≡ string_bytes out.old ++ left.left_text thing) }
{
    match thing {
        Left::Reference(reference) => push_ref(out, reference),
        Left::Buffer(buffer) => push_buf(out, buffer),
        Left::Monitor(monitor) => push_monitor(out, monitor),
    }
}

fn push_since<A: Allocator + Clone>(
    out: &mut String,
    guard: &Guard<A>,
    watch: Watch,
) -> Result<(), AllocError>
    ensures { OnOk result (string_bytes out.new ≡ string_bytes out.old
        ++ left.since_when guard.now.journal watch.condition watch.turns.latest) }
{
    match watch.turns.latest {
        None => Ok(()),
        Some(place) => {
            out.push_str(": ")?;
            push_told_at(out, guard, begun(watch.condition), place)
        }
    }
}

fn push_line<A: Allocator + Clone>(
    out: &mut String,
    guard: &Guard<A>,
    thing: Left,
    watch: Watch,
) -> Result<(), AllocError>
    ensures { OnOk result (string_bytes out.new
        ≡ string_bytes out.old ++ left.left_line guard.now.journal thing watch) }
{
    out.push_str("leak ")?;
    push_thing(out, thing)?;
    push_since(out, guard, watch)?;
    out.push_str("\n")
}

/// A line for each, of which the watches are known.
fn push_lines<A: Allocator + Clone>(
    out: &mut String,
    guard: &Guard<A>,
    all: &[Left],
    watches: &[Watch],
) -> Result<(), AllocError>
    requires { watches.now ≡ map (left.known_left guard.now.setup guard.now.journal) all.now }
    ensures { OnOk result (string_bytes out.new ≡ string_bytes out.old
        ++ flat_map (left.explained_left guard.now.setup guard.now.journal) all.now) }
{
    for i in 0..all.len() {
        if i >= watches.len() {
            unreachable!()
        }
        push_line(out, guard, all[i], watches[i])?;
    }
    Ok(())
}

/// What the guard's journal leaves behind, a line for each in the order of `Leaks`, with the entry
/// since which it is there: `leak L1.1: made at line 3 by T1 NewString` for a reference, `leak B1.1:
/// lent at line 4 by T1 GetStringChars` for a buffer, and `leak M15 T1 1: entered at line 11 by T1
/// MonitorEnter` for a monitor, with its object, its owner, how often that entered it, and the entry
/// since which it owns it. The journal's calls are made once more. Fails only for want of memory.
pub fn explain_leaks<A: Allocator + Clone, B: Allocator>(
    guard: &Guard<A>,
    alloc: Global,
    leaks: &Leaks<B>,
) -> Result<String, NoMemory>
    ensures { IfOk result (λ text. string_bytes text ≡ left.all_left_text guard.now.setup guard.now.journal
        leaks.now.refs.items leaks.now.buffers.items leaks.now.monitors.items) }
{
    let end = guard.journal_len();
    let Ok(all) = all_left(leaks, alloc) else {
        return Err(NoMemory);
    };
    let Ok(watches) = watches_of(&all, end, alloc) else {
        return Err(NoMemory);
    };
    let watches = watch_each(guard, watches, end, alloc)?;
    let mut text = String::new(alloc);
    match push_lines(&mut text, guard, &all, &watches) {
        Ok(()) => Ok(text),
        Err(_) => Err(NoMemory),
    }
}
