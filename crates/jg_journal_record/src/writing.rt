//! The record of a guard's journal.

ghost use Rattle.std.specs.Prelude.{◌≡◌, ◌+◌, ◌<◌, ◌≤◌, ℕ, List, [], length, IfErr, OnOk, Option, string_bytes};
ghost use Rattle.jg_rules.specs.Effects.{parts};
ghost use Rattle.jg_explain.specs.Explained.{IsFront, as_it_was};
ghost use Rattle.jg_journal_record.specs.Retold.{Stops, StopsAt, StopsBefore, StopsIn, WriterFails, WritesBounds, WritesEntry, WritesRecord};

use crate::entry::{Room, push_entry};
use crate::fault::RetellFault;
use crate::lines::push_line;
use jg_explain::replaying_guard;
use jg_guard::Guard;
use jg_judge::Bounds;
use jg_lines::{Watched, write_text};
use jg_policy::Setup;
use jg_record::{Event, Lists, Unwritten};
use jg_words::{Entry, Tid};
use std::alloc::{Allocator, Global};
use std::io::Write;

/// The thread that stands for the virtual machine.
const MACHINE: Tid = Tid(0);

/// Writes the line of the bounds. It is made in `out`, which is empty.
fn write_bounds<W: Write>(
    alloc: Global,
    out: &mut String,
    setup: &Setup,
    writer: &mut Watched<W>,
) -> Result<(), RetellFault>
    requires { string_bytes out.old ≡ [] }
    ensures written { OnOk result (WritesBounds setup.now (W.contents writer.old.device)
        (W.contents writer.new.device)) }
    ensures stops { IfErr result (StopsBefore setup.now (W.contents writer.old.device)
        (W.contents writer.new.device)) }
    ensures device { WriterFails writer.old.failed writer.new.failed result }
{
    let lists = Lists {
        arguments: Vec::new(alloc),
        objects: Vec::new(alloc),
    };
    if let Err(why) = push_line(out, setup, MACHINE, &Event::Bounds(Bounds::WRITTEN), &lists) {
        return Err(RetellFault::Unwritten { line: 1, why });
    }
    match write_text(writer, out.as_bytes()) {
        Ok(()) => Ok(()),
        Err(_) => Err(RetellFault::Write { line: 1 }),
    }
}

/// Writes the lines of the entry at that place of the guard's journal, from 0. They are made in `out`.
fn write_entry<A: Allocator + Clone, W: Write>(
    out: &mut String,
    room: &mut Room,
    guard: &Guard<A>,
    again: &mut Guard,
    writer: &mut Watched<W>,
    place: usize,
    entry: &Entry,
) -> Result<(), RetellFault>
    requires below { place < length guard.now.journal }
    requires front { IsFront guard.now again.old place }
    ensures written { OnOk result (WritesEntry guard.now.setup
        (parts guard.now.setup (as_it_was place guard.now.journal)) entry.now
        (W.contents writer.old.device) (W.contents writer.new.device)) }
    ensures front { OnOk result (IsFront guard.now again.new (place + 1)) }
    ensures stops { IfErr result (StopsAt guard.now.setup
        (parts guard.now.setup (as_it_was place guard.now.journal)) entry.now (place + 1)
        (W.contents writer.old.device) (W.contents writer.new.device)) }
    ensures device { WriterFails writer.old.failed writer.new.failed result }
{
    // There are no more entries than a `usize` counts, so that the line's number fits.
    let _entries = guard.journal_len();
    let line = place as u64 + 1;
    out.clear();
    if let Err(why) = push_entry(out, room, guard, again, place, entry) {
        return Err(RetellFault::Unwritten { line, why });
    }
    match write_text(writer, out.as_bytes()) {
        Ok(()) => Ok(()),
        Err(_) => Err(RetellFault::Write { line }),
    }
}

/// Writes the lines of the first `count` entries of the guard's journal.
fn write_entries<A: Allocator + Clone, W: Write>(
    out: &mut String,
    room: &mut Room,
    guard: &Guard<A>,
    count: usize,
    again: &mut Guard,
    writer: &mut Watched<W>,
) -> Result<(), RetellFault>
    requires within { count ≤ length guard.now.journal }
    requires front { IsFront guard.now again.old 0 }
    ensures written { OnOk result ((bytes : Option (List ℕ))
        → WritesRecord guard.now.setup [] bytes (W.contents writer.old.device)
        → WritesRecord guard.now.setup (as_it_was count guard.now.journal) bytes (W.contents writer.new.device)) }
    ensures stops { IfErr result (λ fault. (bytes : Option (List ℕ))
        → WritesRecord guard.now.setup [] bytes (W.contents writer.old.device)
        → StopsIn guard.now.setup guard.now.journal count bytes (W.contents writer.new.device) fault) }
    ensures device { WriterFails writer.old.failed writer.new.failed result }
{
    for place in 0..count {
        let Some(entry) = guard.journal_entry(place) else {
            unreachable!()
        };
        if let Err(fault) = write_entry(out, room, guard, again, writer, place, entry) {
            return Err(fault);
        }
    }
    Ok(())
}

/// Writes the record by a guard that made no call yet.
fn retell_by<A: Allocator + Clone, W: Write>(
    alloc: Global,
    guard: &Guard<A>,
    count: usize,
    again: &mut Guard,
    writer: &mut Watched<W>,
) -> Result<(), RetellFault>
    requires within { count ≤ length guard.now.journal }
    requires front { IsFront guard.now again.old 0 }
    ensures written { OnOk result (WritesRecord guard.now.setup (as_it_was count guard.now.journal)
        (W.contents writer.old.device) (W.contents writer.new.device)) }
    ensures stops { IfErr result (Stops guard.now.setup guard.now.journal count (W.contents writer.old.device)
        (W.contents writer.new.device)) }
    ensures device { WriterFails writer.old.failed writer.new.failed result }
{
    let mut out = String::new(alloc);
    if let Err(fault) = write_bounds(alloc, &mut out, guard.view().setup, writer) {
        return Err(fault);
    }
    let mut room = Room::new(alloc);
    write_entries(&mut out, &mut room, guard, count, again, writer)
}

/// Writes the record of the first `count` entries of the guard's journal, behind the bounds that it judges by. The
/// calls are made again in a guard of its own, which takes memory and time as the journal's did. A fault names the
/// entry's line, from 1, or line 1 where the bounds aren't written: before it just the lines above are written, and of
/// it a part at most. `Write` comes only where the device failed, which is then marked so.
pub fn retell<A: Allocator + Clone, W: Write>(
    alloc: Global,
    guard: &Guard<A>,
    count: usize,
    writer: &mut Watched<W>,
) -> Result<(), RetellFault>
    requires { count ≤ length guard.now.journal }
    ensures written { OnOk result (WritesRecord guard.now.setup (as_it_was count guard.now.journal)
        (W.contents writer.old.device) (W.contents writer.new.device)) }
    ensures stops { IfErr result (Stops guard.now.setup guard.now.journal count (W.contents writer.old.device)
        (W.contents writer.new.device)) }
    ensures device { WriterFails writer.old.failed writer.new.failed result }
{
    let Ok(mut again) = replaying_guard(guard, alloc) else {
        return Err(RetellFault::Unwritten {
            line: 1,
            why: Unwritten::NoMemory,
        });
    };
    retell_by(alloc, guard, count, &mut again, writer)
}
