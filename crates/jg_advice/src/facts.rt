//! Advice on facts.

ghost use Rattle.std.specs.Prelude.{◌≡◌, ◌++◌, ℕ, List, map, OnOk, Some};
ghost use Rattle.std.specs.Map.{lookup};
ghost use Rattle.jg_lists.specs.ByNumber.{seen};
ghost use Rattle.jg_lists.specs.ByThread.{at};
ghost use Rattle.jg_lists.specs.ByMaker.{entries, same_name, named};
ghost use Rattle.jg_rules.specs.Parts.{Parts};
ghost use Rattle.jg_core.specs.declared.fact.Fact.TheVariants.{Hand, Leave, Pop};
ghost use Rattle.jg_words.specs.declared.object.ObjId.{ObjId as ObjIdOf};
ghost use Rattle.jg_advice.specs.declared.advice.Source.{Source as SourceOf};
ghost use Rattle.jg_advice.specs.Advised as advised;
ghost use Rattle.jg_advice.specs.Doing.{cause_by};
ghost use Rattle.jg_advice.specs.Regions as regions_of;
ghost use Rattle.jg_advice.specs.Standing.{kept as kept_doing, Sees};

use crate::advice::{Advice, Kind, Source};
use crate::buffers::Sources;
use crate::doing::{Doings, cause};
use crate::regions::{Counts, Region, Regions};
use jg_lists::{ByNumber, Numbered};
use jg_rules::{Store, View};
use jg_words::{Kind as RefKind, ObjId, Tid};
use std::alloc::{AllocError, Allocator, Global};

/// Advice on what ends with the thread's session.
fn at_end(kind: Kind, line: u64, tid: Tid, seat: &Numbered<Source>) -> Advice
    ensures { result ≡ advised.at_end kind line tid (seen seat.now) }
{
    Advice {
        kind,
        tid,
        line: Some(line),
        function: seat.value.function,
        source: Some(seat.value),
    }
}

/// That on each seat.
fn push_seats(
    out: &mut Vec<Advice>,
    kind: Kind,
    line: u64,
    tid: Tid,
    seats: &[Numbered<Source>],
) -> Result<(), AllocError>
    ensures { OnOk result (out.new.items
        ≡ out.old.items ++ map (λ seat. advised.at_end kind line tid (seen seat)) seats.now) }
{
    for seat in seats {
        out.push(at_end(kind, line, tid, seat))?;
    }
    Ok(())
}

/// Advice on what the table has of the thread, whose session ended.
pub fn push_at_end(
    out: &mut Vec<Advice>,
    kind: Kind,
    line: u64,
    tid: Tid,
    table: &Sources,
) -> Result<(), AllocError>
    ensures { OnOk result ((found : List (ℕ × SourceOf))
        × advised.AreEnded (λ q. lookup (same_name q) (named table.now)) (Some tid) found
        × (out.new.items ≡ out.old.items ++ advised.ending kind line (Some tid) found)) }
{
    match table.get(tid.0) {
        None => Ok(()),
        Some(numbers) => push_seats(out, kind, line, tid, numbers.seats()),
    }
}

fn is_long(most: u64, counts: Counts, region: Region) -> bool
    ensures { result ≡ regions_of.is_long most counts.calls counts.collections region }
{
    counts.calls.saturating_sub(region.calls) > most || region.collections < counts.collections
}

/// Advice on the critical region that the thread has left, if it was in one and is in none.
pub fn long<A: Allocator + Clone, S: Store>(
    most: u64,
    line: u64,
    view: &View<'_, A, S>,
    regions: &Regions,
    counts: Counts,
    tid: Tid,
) -> Option<Advice>
    ensures { (p : Parts) → Sees view.now p → result
        ≡ advised.long most line p (λ t. at t regions.now) counts.calls counts.collections (Some tid) }
{
    let region = *regions.get(tid.0)?;
    if view.buffers.in_critical(tid) || !is_long(most, counts, region) {
        return None;
    }
    Some(Advice {
        kind: Kind::LongRegion,
        tid,
        line: Some(line),
        function: region.source.function,
        source: Some(region.source),
    })
}

/// Advice on the thread's frame, where it outgrew its room, with the call that handed out its last local.
pub fn grown<A: Allocator + Clone, S: Store>(
    line: u64,
    view: &View<'_, A, S>,
    doings: &Doings,
    tid: Tid,
) -> Option<Advice>
    ensures { (p : Parts) → Sees view.now p → result
        ≡ advised.grown line p (cause_by (kept_doing doings.now) p line) (Some tid) }
{
    if !view.locals.outgrown(tid) {
        return None;
    }
    let cause = cause(doings, view, line, tid);
    Some(Advice {
        kind: Kind::Growing,
        tid,
        line: Some(line),
        function: cause.function,
        source: Some(cause),
    })
}

/// The same, where the frame was handed a reference to what was kept, if something was: a native method was left, or a
/// frame popped.
pub fn grown_by<A: Allocator + Clone, S: Store>(
    line: u64,
    view: &View<'_, A, S>,
    doings: &Doings,
    tid: Tid,
    kept: Option<ObjId>,
) -> Option<Advice>
    ensures left { (p : Parts) → Sees view.now p → result
        ≡ advised.grown line p (cause_by (kept_doing doings.now) p line) (advised.handed (Leave tid kept)) }
    ensures popped { (p : Parts) → Sees view.now p → result
        ≡ advised.grown line p (cause_by (kept_doing doings.now) p line) (advised.handed (Pop tid kept)) }
{
    match kept {
        None => None,
        Some(_) => grown(line, view, doings, tid),
    }
}

/// The same, where the thread was handed a reference of that kind.
pub fn grown_of<A: Allocator + Clone, S: Store>(
    line: u64,
    view: &View<'_, A, S>,
    doings: &Doings,
    tid: Tid,
    kind: RefKind,
) -> Option<Advice>
    ensures { (p : Parts) (o : ObjIdOf) → Sees view.now p → result
        ≡ advised.grown line p (cause_by (kept_doing doings.now) p line) (advised.handed (Hand tid kind o)) }
{
    match kind {
        RefKind::Local => grown(line, view, doings, tid),
        RefKind::Global | RefKind::Weak => None,
    }
}

/// Advice at the end on a buffer that the thread was lent.
fn left(tid: Tid, seat: &Numbered<Source>) -> Advice
    ensures { result ≡ advised.left ((tid.0, (seen seat.now).0), (seen seat.now).1) }
{
    Advice {
        kind: Kind::CommittedAndKept,
        tid,
        line: None,
        function: seat.value.function,
        source: Some(seat.value),
    }
}

/// That on each seat.
fn push_left_seats(
    out: &mut Vec<Advice>,
    tid: Tid,
    seats: &[Numbered<Source>],
) -> Result<(), AllocError>
    ensures { OnOk result (out.new.items
        ≡ out.old.items ++ map (λ seat. advised.left ((tid.0, (seen seat).0), (seen seat).1)) seats.now) }
{
    for seat in seats {
        out.push(left(tid, seat))?;
    }
    Ok(())
}

/// That on what one maker's table has.
fn push_left_of(
    out: &mut Vec<Advice>,
    tid: Tid,
    numbers: &ByNumber<Source, Global>,
) -> Result<(), AllocError>
    ensures { OnOk result (out.new.items ≡ out.old.items ++ map advised.left (entries tid.0 numbers.now)) }
{
    push_left_seats(out, tid, numbers.seats())
}

/// Advice at the end on all that the table has.
pub fn push_left(out: &mut Vec<Advice>, table: &Sources) -> Result<(), AllocError>
    ensures { OnOk result (out.new.items ≡ out.old.items ++ map advised.left (named table.now)) }
{
    for seat in table.seats() {
        push_left_of(out, Tid(seat.number as u16), &seat.value)?;
    }
    Ok(())
}
