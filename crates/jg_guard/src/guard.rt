//! The guard: it judges a call, does it or denies it, and journals it.

ghost use Rattle.std.specs.Prelude.{◌≡◌, ◌+◌, ◌<◌, ◌≤◌, ◌⊎◌, ◌↔◌, [], ◌∷◌, false, length, reverse, IfOk, IfErr, OnOk, OnErr, None, Some, Err, slice_get};
ghost use Rattle.std.specs.Option.{option_copied};
ghost use Rattle.jg_rules.specs.Legal.{Legal};
ghost use Rattle.jg_rules.specs.Effects.{parts};
ghost use Rattle.jg_rules.specs.Rules.{verdict};
ghost use Rattle.jg_rules.specs.View.{ViewStands};
ghost use Rattle.jg_guard.specs.Cleaning.{MayWant, cleans_up};
ghost use Rattle.jg_guard.specs.Guard.{Takes, Unchanged};
ghost use Rattle.jg_guard.specs.Places.{TouchesByLiveReference, TouchesWhatIsThere, LiveIsThere, PinsLive, OwnersAreOne, ReferenceIsNew, DeadStaysDead, LegalWithoutDenied};
ghost use Rattle.jg_guard.specs.Peaks.{ArePeaks};
ghost use Rattle.jg_guard.specs.Tally.{denied_in, passed_in};
ghost use Rattle.jg_leaks.specs.Left.{ListsRefs, RefsAscend, ListsBuffers, BuffersAscend, ListsMonitors};
ghost use Rattle.jg_table_monitors.specs.Rows.{Ascends};

use crate::answer::answer_to;
use crate::collect::{Findings, find_held_for};
use crate::forms::is_noticed;
use crate::peaks::{Peaks, counted, raised};
use crate::perform::perform;
use crate::tables::Tables;
use crate::tally::{Tally, count};
use jg_blocks::Blocks;
use jg_judge::verdict_on_call;
use jg_leaks::{Leaks, list_left};
use jg_policy::{Links, Setup};
use jg_rules::View;
use jg_table_buffers::Buffers;
use jg_table_globals::Globals;
use jg_table_heap::Heap;
use jg_table_locals::Locals;
use jg_table_monitors::Monitors;
use jg_table_threads::Threads;
use jg_words::{Call, Entry, EnvId, Outcome, Reply, Rule, Tid};
use std::alloc::{AllocError, Allocator, Global};
use std::marker::Model;

/// Why a call was neither passed nor denied. The call comes back.
#[derive(Drop)]
pub enum Refusal {
    /// The journal has as many entries as it may have.
    Limit(Call),
    /// Memory ran out.
    NoMemory(Call),
}

/// Memory ran out.
#[derive(Clone, Copy, PartialEq, Eq)]
pub struct NoMemory;

/// A guard. Contracts see its setup, its limit, its journal, the newest entry first, and `spare`, for
/// how many entries more there is room; its type keeps that the journal is a legal history, no longer
/// than the limit.
pub struct Guard<A: Allocator = Global> {
    setup: Setup,
    limit: u32,
    journal: Blocks<Entry, A>,
    tables: Tables<A>,
    /// What the last collection found, whose marks serve the next one.
    findings: Findings<A>,
    peaks: Peaks,
    tally: Tally,
}

// Not derived, so that who owns a guard lets it go by one call: else each way out of a function
// drops each part of each table, which its proof goes through one by one.
impl<A: Allocator> Drop for Guard<A> {
    fn drop(self) {
        let Guard {
            setup,
            limit: _,
            journal,
            tables,
            findings,
            peaks: _,
            tally: _,
        } = self;
        drop(setup);
        drop(journal);
        drop(tables);
        drop(findings);
    }
}

impl<A: Allocator> Model for Guard<A> {
    ghost use Rattle.std.specs.Prelude.{reverse};
    ghost use Rattle.jg_guard.specs.Guard.{State, state_of, IsSound};
    ghost use Rattle.jg_guard.specs.Peaks.{ArePeaks};
    ghost use Rattle.jg_guard.specs.Tally.{IsTally};
    ghost use Rattle.jg_guard.specs.Tables.{rows_of};

    ghost Value = { State };

    ghost view = { λ g. state_of g.setup g.limit g.journal };

    ghost invariant = { λ g. IsSound (state_of g.setup g.limit g.journal) (rows_of g.tables)
        × ArePeaks g.setup (reverse g.journal.items) g.peaks × IsTally (reverse g.journal.items) g.tally };
}

impl<A: Allocator + Copy> Guard<A> {
    /// A guard with an empty journal of at most `limit` entries. `lists` is for the items of list
    /// answers. Fails only for want of memory.
    pub fn new(alloc: A, lists: Global, setup: Setup, limit: u32) -> Result<Guard<A>, AllocError>
        ensures setup { IfOk result (λ guard. guard.setup ≡ setup) }
        ensures limit { IfOk result (λ guard. guard.limit ≡ limit) }
        ensures journal { IfOk result (λ guard. guard.journal ≡ []) }
    {
        let heap = Heap::new(alloc, u64::from(setup.class_count()))?;
        let threads = Threads::new(alloc, alloc);
        let locals = Locals::new(alloc, alloc, alloc);
        let globals = Globals::new(alloc, alloc);
        let buffers = Buffers::new(alloc, alloc, alloc, alloc, alloc);
        let monitors = Monitors::new(alloc);
        let links = Links::new(alloc, alloc);
        let journal = Blocks::new(alloc, alloc);
        let tables = Tables {
            alloc,
            lists,
            threads,
            locals,
            globals,
            buffers,
            monitors,
            heap,
            links,
        };
        Ok(Guard {
            setup,
            limit,
            journal,
            tables,
            findings: Findings::new(alloc, alloc),
            peaks: Peaks {
                references: 0,
                objects: 0,
                buffers: 0,
            },
            tally: [0; 18],
        })
    }
}

impl<A: Allocator + Clone> Guard<A> {
    /// The first rule that the call breaks as the journal is now, which `call` would deny it by;
    /// None where it breaks none.
    pub fn judge(&self, tid: Tid, env: Option<EnvId>, call: &Call) -> Option<Rule>
        ensures { result ≡ verdict self.now.setup (parts self.now.setup self.now.journal) tid.0 env call.now }
    {
        verdict_on_call(&self.tables.view(&self.setup), tid, env, call)
    }

    /// The setup and the tables, lent to be asked what holds after the journal.
    pub fn view(&self) -> View<'_, A>
        ensures setup { result.setup.now ≡ self.now.setup }
        ensures stands { ViewStands result (parts self.now.setup self.now.journal) }
    {
        self.tables.view(&self.setup)
    }

    /// Judges the call, does it if it breaks no rule, and journals it. `tid` is the thread that
    /// makes it, `env` the environment that it hands in. A refusal changes nothing: the journal is
    /// full, or memory ran out, in that order. While there is room for an entry (`reserve`), memory
    /// can't run out on a call that is denied, nor on one that gives something back: a deletion of a
    /// reference, a release of a buffer, MonitorExit, ExceptionClear, ExceptionDescribe,
    /// DetachCurrentThread, and PopLocalFrame or NativeLeave that keep nothing.
    pub fn call(&mut self, tid: Tid, env: Option<EnvId>, call: Call) -> Result<Outcome, Refusal>
        ensures ok { IfOk result (λ outcome. Takes self.old self.new tid env call outcome) }
        ensures err { OnErr result (Unchanged self.old self.new) }
        ensures back { IfErr result (λ refusal. (refusal ≡ Refusal.Limit call) ⊎ (refusal ≡ Refusal.NoMemory call)) }
        ensures limit { (result ≡ Err (Refusal.Limit call)) ↔ (length self.old.journal ≡ self.old.limit) }
        ensures wants { result ≡ Err (Refusal.NoMemory call) → MayWant self.old tid env call }
        ensures one_place { OnOk result (self.old.spare ≤ self.new.spare + 1) }
        ensures no_place { OnErr result (self.old.spare ≤ self.new.spare) }
    {
        let broken = self.judge(tid, env, &call);
        self.call_judged(tid, env, call, broken)
    }

    /// As `call` does, of a call that was judged: `broken` is what `judge` answers of it now. What stands beside the
    /// guard asks once for both.
    pub fn call_judged(
        &mut self,
        tid: Tid,
        env: Option<EnvId>,
        call: Call,
        broken: Option<Rule>,
    ) -> Result<Outcome, Refusal>
        requires { broken ≡ verdict self.old.setup (parts self.old.setup self.old.journal) tid.0 env call }
        ensures ok { IfOk result (λ outcome. Takes self.old self.new tid env call outcome) }
        ensures err { OnErr result (Unchanged self.old self.new) }
        ensures back { IfErr result (λ refusal. (refusal ≡ Refusal.Limit call) ⊎ (refusal ≡ Refusal.NoMemory call)) }
        ensures limit { (result ≡ Err (Refusal.Limit call)) ↔ (length self.old.journal ≡ self.old.limit) }
        ensures wants { result ≡ Err (Refusal.NoMemory call) → MayWant self.old tid env call }
        ensures one_place { OnOk result (self.old.spare ≤ self.new.spare + 1) }
        ensures no_place { OnErr result (self.old.spare ≤ self.new.spare) }
    {
        if self.journal.len() >= self.limit as usize {
            return Err(Refusal::Limit(call));
        }
        match broken {
            Some(rule) => self.deny(tid, env, call, rule),
            None => self.pass(tid, env, call),
        }
    }

    fn deny(
        &mut self,
        tid: Tid,
        env: Option<EnvId>,
        call: Call,
        rule: Rule,
    ) -> Result<Outcome, Refusal>
        requires room { length self.old.journal < self.old.limit }
        requires denied { verdict self.old.setup (parts self.old.setup self.old.journal) tid.0 env call ≡ Some rule }
        ensures ok { IfOk result (λ outcome. Takes self.old self.new tid env call outcome) }
        ensures err { OnErr result (Unchanged self.old self.new) }
        ensures back { IfErr result (λ refusal. refusal ≡ Refusal.NoMemory call) }
        ensures wants { OnErr result (self.old.spare < 1) }
        ensures one_place { OnOk result (self.old.spare ≤ self.new.spare + 1) }
        ensures no_place { OnErr result (self.old.spare ≤ self.new.spare) }
    {
        if self.journal.reserve(1).is_err() {
            return Err(Refusal::NoMemory(call));
        }
        let entry = Entry::denied(tid, env, call, rule);
        count(&mut self.tally, rule.number());
        push_reserved(&mut self.journal, entry);
        Ok(Outcome::Denied(rule))
    }

    // All that can fail comes before the first change. Whether the answer comes with a notice is
    // known after it.
    fn pass(&mut self, tid: Tid, env: Option<EnvId>, call: Call) -> Result<Outcome, Refusal>
        requires room { length self.old.journal < self.old.limit }
        requires passed { verdict self.old.setup (parts self.old.setup self.old.journal) tid.0 env call ≡ None }
        ensures ok { IfOk result (λ outcome. Takes self.old self.new tid env call outcome) }
        ensures err { OnErr result (Unchanged self.old self.new) }
        ensures back { IfErr result (λ refusal. refusal ≡ Refusal.NoMemory call) }
        ensures wants { OnErr result (0 < self.old.spare → cleans_up call ≡ false) }
        ensures one_place { OnOk result (self.old.spare ≤ self.new.spare + 1) }
        ensures no_place { OnErr result (self.old.spare ≤ self.new.spare) }
    {
        let (view, tables) = (self.tables.view(&self.setup), &self.tables);
        let Ok(()) = find_held_for(&view, &mut self.findings, &call) else {
            return Err(Refusal::NoMemory(call));
        };
        let Ok(given) = answer_to(&view, &self.findings, tables.lists, tid, &call) else {
            return Err(Refusal::NoMemory(call));
        };
        let Ok(value) = given.reply.value.try_copy() else {
            return Err(Refusal::NoMemory(call));
        };
        let Ok(()) = self.journal.reserve(1) else {
            return Err(Refusal::NoMemory(call));
        };
        let Ok(()) = perform(
            &mut self.tables,
            &self.setup,
            &self.findings,
            tid,
            &call,
            &given,
        ) else {
            return Err(Refusal::NoMemory(call));
        };
        let noticed = is_noticed(&self.tables, tid, &given.reply.value);
        let warned = given.reply.warned;
        let reply = Reply {
            value: given.reply.value,
            warned,
            noticed,
        };
        let entry = Entry::passed(tid, env, call, reply, given.object);
        self.peaks = raised(self.peaks, counted(&self.tables));
        count(&mut self.tally, 0);
        push_reserved(&mut self.journal, entry);
        Ok(Outcome::Passed(Reply {
            value,
            warned,
            noticed,
        }))
    }

    /// Makes room for `n` entries more, so that as many calls can be taken that are denied or give
    /// something back, whatever memory is left then (`call`). Fails only for want of memory; nothing
    /// but the room changes either way, and none is lost.
    pub fn reserve(&mut self, n: u32) -> Result<(), NoMemory>
        ensures ok { OnOk result (n ≤ self.new.spare) }
        ensures unchanged { Unchanged self.old self.new }
        ensures none_lost { self.old.spare ≤ self.new.spare }
    {
        match self.journal.reserve(n as usize) {
            Ok(()) => Ok(()),
            Err(_) => Err(NoMemory),
        }
    }

    /// The most entries that the journal may have.
    pub fn limit(&self) -> u32
        ensures { result ≡ self.now.limit }
    {
        self.limit
    }

    /// How many entries the journal has. It is a legal history, within the limit.
    pub fn journal_len(&self) -> usize
        ensures len { result ≡ length self.now.journal }
        ensures within { length self.now.journal ≤ self.now.limit }
        ensures legal { Legal self.now.setup self.now.journal }
    {
        self.journal.len()
    }

    /// The most that there was at once.
    pub fn peaks(&self) -> Peaks
        ensures { ArePeaks self.now.setup self.now.journal result }
    {
        self.peaks
    }

    /// How many calls passed.
    pub fn passed(&self) -> u32
        ensures { result ≡ passed_in self.now.journal }
    {
        self.tally[0]
    }

    /// How many calls the rule denied.
    pub fn denied_by(&self, rule: Rule) -> u32
        ensures { result ≡ denied_in rule self.now.journal }
    {
        self.tally[rule.number() as usize]
    }

    /// An entry of the journal, the oldest at 0; None past the end. Whatever the journal is, at each
    /// place of it the laws of all legal histories hold: what the entry there touches, it reaches by
    /// a live reference, and it isn't gone; the reference behind each open critical buffer is live;
    /// no object has two owners; a reference that is handed out is new; what died stays dead; and
    /// without the denied entries the journal is legal too.
    pub fn journal_entry(&self, index: usize) -> Option<&Entry>
        ensures entry { option_copied result ≡ slice_get (reverse self.now.journal) index }
        ensures touches_live { TouchesByLiveReference self.now index }
        ensures touches_nothing_gone { TouchesWhatIsThere self.now index }
        ensures live_not_gone { LiveIsThere self.now index }
        ensures pins_live { PinsLive self.now index }
        ensures one_owner { OwnersAreOne self.now index }
        ensures no_reference_twice { ReferenceIsNew self.now index }
        ensures no_reference_revived { DeadStaysDead self.now index }
        ensures without_denied { LegalWithoutDenied self.now index }
    {
        self.journal.get(index)
    }

    /// The newest entry of the journal.
    #[inline(always)]
    pub fn newest(&self) -> &Entry
        requires { 0 < length self.now.journal }
        ensures { slice_get self.now.journal 0 ≡ Some result.now }
    {
        match self.journal_entry(self.journal_len() - 1) {
            Some(entry) => entry,
            None => unreachable!(),
        }
    }

    /// What the journal leaves behind: the references that live, the buffers that are open and the
    /// monitors that are owned, each once, in order. Takes time and memory by how many these are.
    /// Fails only for want of memory.
    pub fn leaks(&self) -> Result<Leaks<A>, AllocError>
        ensures refs { IfOk result (λ left. ListsRefs (parts self.now.setup self.now.journal) left.refs.items) }
        ensures refs_ascend { IfOk result (λ left. RefsAscend left.refs.items) }
        ensures buffers { IfOk result (λ left. ListsBuffers (parts self.now.setup self.now.journal)
            left.buffers.items) }
        ensures buffers_ascend { IfOk result (λ left. BuffersAscend left.buffers.items) }
        ensures monitors { IfOk result (λ left. ListsMonitors (parts self.now.setup self.now.journal)
            left.monitors.items) }
        ensures monitors_ascend { IfOk result (λ left. Ascends left.monitors.items) }
    {
        Ok(list_left(&self.tables.alloc, &self.view())?)
    }
}

fn push_reserved<A: Allocator + Clone>(journal: &mut Blocks<Entry, A>, entry: Entry)
    requires { 0 < journal.old.spare }
    ensures items { reverse journal.new.items ≡ entry ∷ reverse journal.old.items }
    ensures spare { journal.new.spare + 1 ≡ journal.old.spare }
{
    journal.push(entry);
}
