//! What advises.

ghost use Rattle.std.specs.Prelude.{◌≡◌, ◌++◌, ◌+◌, ◌∷◌, ℕ, if◌then◌else◌, [], IfOk, List, OnOk, Option};
ghost use Rattle.jg_words.specs.declared.object.ObjId.{ObjId as ObjIdOf};
ghost use Rattle.jg_words.specs.declared.reference.Ref.{Ref as RefOf};
ghost use Rattle.jg_table_buffers.specs.declared.family.Family.{Family as FamilyOf};
ghost use Rattle.jg_core.specs.declared.fact.Fact.TheVariants.{Back, Begin, End, Enter, Free, Gone, Leave, Lend, Own};
ghost use Rattle.jg_rules.specs.Parts.{Parts};
ghost use Rattle.jg_rules.specs.View.{ViewTells};
ghost use Rattle.jg_advice.specs.declared.advice.Advice.{Advice as AdviceOf};
ghost use Rattle.jg_advice.specs.Advised as advised;
ghost use Rattle.jg_advice.specs.Moments.{Called, Moment, Told, Went};
ghost use Rattle.jg_advice.specs.Standing.{Sees, Stands};

use crate::advice::{Advice, Kind, Source};
use crate::buffers::{Sources, note_committed, note_written};
use crate::calls::{Calling, lost, misnamed, push_if, unchecked};
use crate::doing::{Doings, cause, note_call};
use crate::facts::{grown_by, grown_of, long, push_at_end, push_left};
use crate::functions::{collects, is_jni, released_by, written_by};
use crate::monitors::{note_entry, note_exit};
use crate::parts::{Lengths, may_throw};
use crate::regions::{Counts, Regions, note_region};
use crate::tables::clear;
use jg_core::Fact;
use jg_judge::Argument;
use jg_lists::ByThread;
use jg_lists::by_maker::{ByMaker, remove};
use jg_rows::row_of;
use jg_rules::{Store, View};
use jg_words::{BufId, ObjId, Tid};
use std::alloc::{AllocError, Allocator, Global};
use std::marker::Model;

/// What advises: it stands beside a core or a guard, and is told each question that passed and each fact, on its line.
/// It takes memory by what is live: for each activation, each copy that was written to, each buffer that was committed,
/// each monitor that is owned. Where one of its methods fails for want of memory, it is of no more use. Contracts see
/// all.
#[derive(Drop)]
pub struct Adviser {
    alloc: Global,
    /// In a region longer than so many calls something is amiss.
    most: u64,
    doings: Doings,
    written: Sources,
    committed: Sources,
    entered: Sources,
    regions: Regions,
    counts: Counts,
}

impl Model for Adviser {
    ghost use Rattle.jg_advice.specs.Standing.{AdviserState};

    ghost Value = { AdviserState };

    ghost view = { λ a. record {
      most = a.most;
      doings = a.doings;
      written = a.written;
      committed = a.committed;
      entered = a.entered;
      regions = a.regions;
      calls = a.counts.calls;
      collections = a.counts.collections;
    } };
}

/// One more, where it counts.
fn count_if(count: u64, counts: bool) -> Result<u64, AllocError>
    ensures { IfOk result (λ n. n ≡ (if counts then count + 1 else count)) }
{
    if !counts {
        return Ok(count);
    }
    match count.checked_add(1) {
        Some(count) => Ok(count),
        None => Err(AllocError),
    }
}

impl Adviser {
    /// An adviser to whom nothing happened yet. A critical region is long where more than `most` calls are made in it.
    /// It takes no memory.
    pub fn new(alloc: Global, most: u64) -> Adviser
        ensures most { result.most ≡ most }
        ensures stands { Stands result [] }
    {
        Adviser {
            alloc,
            most,
            doings: ByMaker::new(alloc, alloc, alloc),
            written: ByMaker::new(alloc, alloc, alloc),
            committed: ByMaker::new(alloc, alloc, alloc),
            entered: ByMaker::new(alloc, alloc, alloc),
            regions: ByThread::new(alloc, alloc),
            counts: Counts {
                calls: 0,
                collections: 0,
            },
        }
    }

    /// A question passed on this line: the thread calls the function at that place of the table, with these operands.
    /// `name` is the text of the name that it hands in, for FindClass, and may be empty for others. `view` is of the
    /// tables as they were judged by. Adds what is advised. Fails for want of memory, and of a function that isn't in
    /// the table.
    pub fn called<A: Allocator + Clone, S: Lengths>(
        &mut self,
        view: &View<'_, A, S>,
        line: u64,
        tid: Tid,
        function: u16,
        arguments: &[Argument],
        name: &[u8],
        out: &mut Vec<Advice>,
    ) -> Result<(), AllocError>
        ensures advised { OnOk result ((h : List Moment) (p : Parts) → Stands self.old h
            → ViewTells S.Store.Tells view.now p
            → out.new.items ≡ out.old.items ++ advised.on_call line tid function arguments.now name.now p h) }
        ensures stands { OnOk result ((h : List Moment) (p : Parts) → Stands self.old h
            → ViewTells S.Store.Tells view.now p
            → Stands self.new (record {
              line = line;
              what = Called view.now.setup.now tid function arguments.now name.now;
              parts = p;
            } ∷ h)) }
        ensures most { self.new.most ≡ self.old.most }
    {
        let Some(row) = row_of(usize::from(function)) else {
            return Err(AllocError);
        };
        let calling = Calling {
            line,
            tid,
            function,
        };
        let call = Source {
            line,
            tid,
            function: Some(function),
        };
        let now = (tid.0, view.locals.depth(tid));
        let throws = may_throw(view, tid, row, arguments);
        let before = note_call(&mut self.doings, self.alloc, now, row, throws, call)?;
        let (buffer, release) = (written_by(row, arguments), released_by(row, arguments));
        push_if(out, unchecked(before, calling, row))?;
        push_if(out, lost(&self.written, calling, release))?;
        push_if(out, misnamed(calling, name))?;
        note_written(&mut self.written, self.alloc, view, buffer, release, call)?;
        note_committed(&mut self.committed, self.alloc, release, call)?;
        let (calls, collections) = (self.counts.calls, self.counts.collections);
        self.counts.calls = count_if(calls, is_jni(row))?;
        self.counts.collections = count_if(collections, collects(row))?;
        Ok(())
    }

    /// The fact was told on this line. `view` is of the tables with it. Adds what is advised. Fails for want of memory.
    pub fn told<A: Allocator + Clone, S: Store>(
        &mut self,
        view: &View<'_, A, S>,
        line: u64,
        fact: Fact,
        out: &mut Vec<Advice>,
    ) -> Result<(), AllocError>
        ensures advised { OnOk result ((h : List Moment) (p : Parts) → Stands self.old h → Sees view.now p
            → (told : List AdviceOf)
            × advised.IsOnFact self.old.most (record { line = line; what = Told fact; parts = p }) h fact told
            × (out.new.items ≡ out.old.items ++ told)) }
        ensures stands { OnOk result ((h : List Moment) (p : Parts) → Stands self.old h → Sees view.now p
            → Stands self.new (record { line = line; what = Told fact; parts = p } ∷ h)) }
        ensures most { self.new.most ≡ self.old.most }
    {
        match fact {
            Fact::Begin(tid) => {
                self.begin(tid);
                Ok(())
            }
            Fact::End(tid) => self.end(view, line, tid, out),
            Fact::Enter(tid) => {
                self.enter(view, tid);
                Ok(())
            }
            Fact::Leave { tid, kept } => {
                push_if(out, grown_by(line, view, &self.doings, tid, kept))?;
                self.leave(view, tid)
            }
            Fact::Pop { tid, kept } => push_if(out, grown_by(line, view, &self.doings, tid, kept)),
            Fact::Hand { tid, kind, .. } => {
                push_if(out, grown_of(line, view, &self.doings, tid, kind))
            }
            Fact::Lend { tid, .. } => self.lend(view, line, tid, out),
            Fact::Back(buffer) => self.back(view, line, buffer, out),
            Fact::Own { tid, object } => self.own(view, line, tid, object),
            Fact::Free { tid, object } => {
                self.free(view, tid, object);
                Ok(())
            }
            Fact::Gone(_) => self.count_collection(),
            // Nothing is advised on the others, and none changes what is advised later.
            _ => Ok(()),
        }
    }

    /// The thread's session begins.
    fn begin(&mut self, tid: Tid)
        ensures stands { (h : List Moment) (p : Parts) (line : ℕ) → Stands self.old h
            → Stands self.new (record { line = line; what = Told (Begin tid); parts = p } ∷ h) }
        ensures most { self.new.most ≡ self.old.most }
    {
        clear(&mut self.doings, tid.0);
    }

    /// The thread's session ends. Adds what is advised.
    fn end<A: Allocator + Clone, S: Store>(
        &mut self,
        view: &View<'_, A, S>,
        line: u64,
        tid: Tid,
        out: &mut Vec<Advice>,
    ) -> Result<(), AllocError>
        ensures advised { OnOk result ((h : List Moment) (p : Parts) → Stands self.old h → Sees view.now p
            → (told : List AdviceOf)
            × advised.IsOnFact self.old.most (record { line = line; what = Told (End tid); parts = p }) h (End tid) told
            × (out.new.items ≡ out.old.items ++ told)) }
        ensures stands { OnOk result ((h : List Moment) (p : Parts) → Stands self.old h → Sees view.now p
            → Stands self.new (record { line = line; what = Told (End tid); parts = p } ∷ h)) }
        ensures most { self.new.most ≡ self.old.most }
    {
        push_at_end(out, Kind::CommittedAndKept, line, tid, &self.committed)?;
        push_if(
            out,
            long(self.most, line, view, &self.regions, self.counts, tid),
        )?;
        push_at_end(out, Kind::MonitorAtDetachment, line, tid, &self.entered)?;
        note_region(
            &mut self.regions,
            &self.doings,
            view,
            line,
            self.counts,
            tid,
        )?;
        clear(&mut self.entered, tid.0);
        clear(&mut self.committed, tid.0);
        clear(&mut self.doings, tid.0);
        Ok(())
    }

    /// The thread enters a native method.
    fn enter<A: Allocator + Clone, S: Store>(&mut self, view: &View<'_, A, S>, tid: Tid)
        ensures stands { (h : List Moment) (p : Parts) (line : ℕ) → Stands self.old h → Sees view.now p
            → Stands self.new (record { line = line; what = Told (Enter tid); parts = p } ∷ h) }
        ensures most { self.new.most ≡ self.old.most }
    {
        let _ended = remove(&mut self.doings, (tid.0, view.locals.depth(tid)));
    }

    /// The thread left a native method. Fails where it was as deep as a `u64` counts.
    fn leave<A: Allocator + Clone, S: Store>(
        &mut self,
        view: &View<'_, A, S>,
        tid: Tid,
    ) -> Result<(), AllocError>
        ensures stands { OnOk result ((h : List Moment) (p : Parts) (line : ℕ) (kept : Option ObjIdOf)
            → Stands self.old h → Sees view.now p
            → Stands self.new (record { line = line; what = Told (Leave tid kept); parts = p } ∷ h)) }
        ensures most { self.new.most ≡ self.old.most }
    {
        // No thread is so deep: the tables were told fewer facts.
        let Some(left) = view.locals.depth(tid).checked_add(1) else {
            return Err(AllocError);
        };
        let _ended = remove(&mut self.doings, (tid.0, left));
        Ok(())
    }

    /// The thread is lent a buffer. Adds what is advised.
    fn lend<A: Allocator + Clone, S: Store>(
        &mut self,
        view: &View<'_, A, S>,
        line: u64,
        tid: Tid,
        out: &mut Vec<Advice>,
    ) -> Result<(), AllocError>
        ensures advised { OnOk result ((h : List Moment) (p : Parts) (f : FamilyOf) (o : ObjIdOf) (via : RefOf) (n : ℕ)
            → Stands self.old h → Sees view.now p → (told : List AdviceOf)
            × advised.IsOnFact self.old.most (record { line = line; what = Told (Lend tid f o via n); parts = p }) h
            (Lend tid f o via n) told
            × (out.new.items ≡ out.old.items ++ told)) }
        ensures stands { OnOk result ((h : List Moment) (p : Parts) (f : FamilyOf) (o : ObjIdOf) (via : RefOf) (n : ℕ)
            → Stands self.old h → Sees view.now p
            → Stands self.new (record { line = line; what = Told (Lend tid f o via n); parts = p } ∷ h)) }
        ensures most { self.new.most ≡ self.old.most }
    {
        push_if(
            out,
            long(self.most, line, view, &self.regions, self.counts, tid),
        )?;
        note_region(
            &mut self.regions,
            &self.doings,
            view,
            line,
            self.counts,
            tid,
        )
    }

    /// The buffer is given back. Adds what is advised.
    fn back<A: Allocator + Clone, S: Store>(
        &mut self,
        view: &View<'_, A, S>,
        line: u64,
        buffer: BufId,
        out: &mut Vec<Advice>,
    ) -> Result<(), AllocError>
        ensures advised { OnOk result ((h : List Moment) (p : Parts) → Stands self.old h → Sees view.now p
            → (told : List AdviceOf)
            × advised.IsOnFact self.old.most (record { line = line; what = Told (Back buffer); parts = p }) h
            (Back buffer) told
            × (out.new.items ≡ out.old.items ++ told)) }
        ensures stands { OnOk result ((h : List Moment) (p : Parts) → Stands self.old h → Sees view.now p
            → Stands self.new (record { line = line; what = Told (Back buffer); parts = p } ∷ h)) }
        ensures most { self.new.most ≡ self.old.most }
    {
        let (tid, name) = (buffer.maker, (buffer.maker.0, buffer.n));
        push_if(
            out,
            long(self.most, line, view, &self.regions, self.counts, tid),
        )?;
        note_region(
            &mut self.regions,
            &self.doings,
            view,
            line,
            self.counts,
            tid,
        )?;
        let _written = remove(&mut self.written, name);
        let _committed = remove(&mut self.committed, name);
        Ok(())
    }

    /// The thread enters the object's monitor.
    fn own<A: Allocator + Clone, S: Store>(
        &mut self,
        view: &View<'_, A, S>,
        line: u64,
        tid: Tid,
        object: ObjId,
    ) -> Result<(), AllocError>
        ensures stands { OnOk result ((h : List Moment) (p : Parts) → Stands self.old h → Sees view.now p
            → Stands self.new (record { line = line; what = Told (Own tid object); parts = p } ∷ h)) }
        ensures most { self.new.most ≡ self.old.most }
    {
        let call = cause(&self.doings, view, line, tid);
        note_entry(&mut self.entered, self.alloc, (tid.0, object.0), call)
    }

    /// The thread exits the object's monitor once.
    fn free<A: Allocator + Clone, S: Store>(
        &mut self,
        view: &View<'_, A, S>,
        tid: Tid,
        object: ObjId,
    )
        ensures stands { (h : List Moment) (p : Parts) (line : ℕ) → Stands self.old h → Sees view.now p
            → Stands self.new (record { line = line; what = Told (Free tid object); parts = p } ∷ h) }
        ensures most { self.new.most ≡ self.old.most }
    {
        note_exit(&mut self.entered, view, tid, object);
    }

    /// The collector let something go.
    fn count_collection(&mut self) -> Result<(), AllocError>
        ensures gone { OnOk result ((h : List Moment) (p : Parts) (line : ℕ) (o : ObjIdOf) → Stands self.old h
            → Stands self.new (record { line = line; what = Told (Gone o); parts = p } ∷ h)) }
        ensures went { OnOk result ((h : List Moment) (p : Parts) (line : ℕ) (objects : List ObjIdOf)
            → Stands self.old h → Stands self.new (record { line = line; what = Went objects; parts = p } ∷ h)) }
        ensures most { self.new.most ≡ self.old.most }
    {
        let collections = self.counts.collections;
        self.counts.collections = count_if(collections, true)?;
        Ok(())
    }

    /// The collector let these objects go, which was told on this line.
    pub fn went(&mut self, line: u64, objects: &[ObjId]) -> Result<(), AllocError>
        ensures stands { OnOk result ((h : List Moment) (p : Parts) → Stands self.old h
            → Stands self.new (record { line = line; what = Went objects.now; parts = p } ∷ h)) }
        ensures most { self.new.most ≡ self.old.most }
    {
        let (_, _) = (line, objects);
        self.count_collection()
    }

    /// Adds what is advised at the end. Fails for want of memory.
    pub fn left(&self, out: &mut Vec<Advice>) -> Result<(), AllocError>
        ensures { OnOk result ((h : List Moment) → Stands self.now h
            → (told : List AdviceOf) × advised.AreLeft h told × (out.new.items ≡ out.old.items ++ told)) }
    {
        push_left(out, &self.committed)
    }
}
