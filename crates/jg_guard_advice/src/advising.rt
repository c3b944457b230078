//! A log that stands beside a guard.

ghost use Rattle.std.specs.Prelude.{◌≡◌, ◌<◌, ◌∷◌, [], false, length, reverse, IfErr, IfOk, IfSome, List, None, OnErr, OnOk, string_bytes};
ghost use Rattle.jg_advice.specs.Moments.{Moment};
ghost use Rattle.jg_advice.specs.Told.{AdviceLogState, LogStands, Tells};
ghost use Rattle.jg_guard_advice.specs.Logged.{AreMoments, Logged, Follows, IsQuestion, with_facts};
ghost use Rattle.jg_entry_facts_laws.specs.Entries.{outcome_facts};
ghost use Rattle.jg_entry_facts.specs.Foreseen.{Foresees};
ghost use Rattle.jg_guard.specs.Guard.{next_entry};
ghost use Rattle.jg_policy.specs.Stated.{StatedSetup};
ghost use Rattle.jg_rules.specs.Effects.{parts};
ghost use Rattle.jg_rules.specs.Legal.{Legal};
ghost use Rattle.jg_rules.specs.Parts.{Parts};
ghost use Rattle.jg_rules.specs.Rules.{verdict};
ghost use Rattle.jg_rules.specs.View.{ViewStands};
ghost use Rattle.jg_script.specs.Entries.{FailsCall, Took};
ghost use Rattle.jg_words.specs.Entry.{Entry as EntryOf};

use crate::moments::{list_operands, name_handed, tell_all};
use jg_advice::AdviceLog;
use jg_core::Fact;
use jg_entry_facts::Foreseen;
use jg_guard::Guard;
use jg_judge::{Argument, function_of};
use jg_rules::View;
use jg_script::{Beside, RunFault};
use jg_words::{Call, Entry, EnvId, Rule, Tid};
use std::alloc::{AllocError, Allocator, Global};

/// A log beside a guard, which is told each call that the guard takes. It changes nothing of what the guard does.
/// Where memory runs out for either, all that it told is lost.
pub struct GuardAdviser<A: Allocator = Global> {
    log: AdviceLog,
    foreseen: Foreseen<A>,
    /// Room for the operands of a question.
    arguments: Vec<Argument>,
    /// Room for the facts of an entry.
    facts: Vec<Fact>,
}

// Not derived, so that who owns one lets it go by one call.
impl<A: Allocator> Drop for GuardAdviser<A> {
    fn drop(self) {
        let GuardAdviser {
            log: _log,
            foreseen: _foreseen,
            arguments: _arguments,
            facts: _facts,
        } = self;
    }
}

impl<A: Allocator + Copy> GuardAdviser<A> {
    /// A log beside a guard that took no call yet. A critical region is long where more than `most` calls are made
    /// in it. Each advice is going to be told, or the first of each kind and function. Fails for want of memory.
    pub fn new(
        alloc: Global,
        tables: A,
        most: u64,
        all: bool,
    ) -> Result<GuardAdviser<A>, AllocError>
        ensures logged { IfOk result (λ x. (s : StatedSetup) → Logged x.log s []) }
        ensures most { IfOk result (λ x. x.log.adviser.most ≡ most) }
        ensures all { IfOk result (λ x. x.log.noting.all ≡ all) }
    {
        Ok(GuardAdviser {
            log: AdviceLog::new(alloc, most, all)?,
            foreseen: Foreseen::new(tables, tables),
            arguments: Vec::new(alloc),
            facts: Vec::new(alloc),
        })
    }
}

impl<A: Allocator + Clone> GuardAdviser<A> {
    /// Tells the question that the call is, which broke no rule, and reads what its facts depend on, by the tables
    /// before it.
    fn ask(&mut self, view: &View<'_, A>, line: u64, tid: Tid, call: &Call)
        ensures logs { (p : Parts) (h : List Moment) → ViewStands view.now p → LogStands self.old.log h
            → (m : Moment) × IsQuestion view.now.setup.now p line tid call.now m
            × LogStands self.new.log (m ∷ h) }
        ensures foreseen { (p : Parts) → ViewStands view.now p → self.new.log.lost ≡ false
            → Foresees view.now.setup.now p tid call.now self.new.foreseen }
        ensures most { self.new.log.adviser.most ≡ self.old.log.adviser.most }
        ensures all { self.new.log.noting.all ≡ self.old.log.noting.all }
    {
        let (function, name) = (function_of(call), name_handed(call));
        self.arguments.clear();
        let listed = list_operands(view, tid, call, &mut self.arguments);
        let foreseen = self.foreseen.foresee(view, tid, call);
        if listed.is_err() || foreseen.is_err() {
            self.log.lose();
            return;
        }
        self.log
            .called(view, line, tid, function, &self.arguments, name);
    }

    /// Tells the facts of the entry, by the tables after it.
    fn tell(&mut self, view: &View<'_, A>, line: u64, entry: &Entry)
        ensures logs { (s : StatedSetup) (p q : Parts) (h : List Moment)
            → (self.old.log.lost ≡ false → Foresees s p entry.now.tid entry.now.call self.old.foreseen)
            → ViewStands view.now q → LogStands self.old.log h
            → LogStands self.new.log (with_facts line q (reverse (outcome_facts s p entry.now.tid entry.now.call
            entry.now.outcome entry.now.object)) h) }
        ensures most { self.new.log.adviser.most ≡ self.old.log.adviser.most }
        ensures all { self.new.log.noting.all ≡ self.old.log.noting.all }
    {
        if self.log.is_lost() {
            return;
        }
        self.facts.clear();
        match self.foreseen.push_facts(entry, &mut self.facts) {
            Ok(()) => tell_all(&mut self.log, view, line, &self.facts),
            Err(_) => self.log.lose(),
        }
    }

    /// The guard takes a call that breaks no rule, and the log is told it.
    #[inline(always)]
    fn pass(
        &mut self,
        guard: &mut Guard<A>,
        tid: Tid,
        env: Option<EnvId>,
        call: Call,
        line: u64,
    ) -> Result<(), RunFault>
        requires room { length guard.old.journal < guard.old.limit }
        requires passes { verdict guard.old.setup (parts guard.old.setup guard.old.journal) tid.0 env call ≡ None }
        ensures took { OnOk result (Took guard.old guard.new (next_entry guard.old tid env call)) }
        ensures err { IfErr result (FailsCall guard.old guard.new (next_entry guard.old tid env call) line) }
        ensures legal { Legal guard.old.setup guard.old.journal → Legal guard.new.setup guard.new.journal }
        ensures setup { guard.new.setup ≡ guard.old.setup }
        ensures limit { guard.new.limit ≡ guard.old.limit }
        ensures follows { (first : AdviceLogState) → Follows first self.old.log guard.old.setup guard.old.journal
            → Follows first self.new.log guard.new.setup guard.new.journal }
    {
        // There are no more entries than a `u32` counts, so that the line's number fits.
        let _most = guard.limit();
        let number = guard.journal_len() as u64 + 1;
        self.ask(&guard.view(), number, tid, &call);
        if let Err(fault) = take_judged(guard, tid, env, call, None, line) {
            self.log.lose();
            return Err(fault);
        }
        self.tell(&guard.view(), number, guard.newest());
        Ok(())
    }

    /// What is told of all that was advised, with what is advised at the end; `None` where memory ran out for it.
    pub fn into_text(self) -> Option<String>
        ensures { IfSome result (λ text. (s : StatedSetup) (h : List EntryOf) → Logged self.log s h
            → (moments : List Moment) × AreMoments s h moments
            × Tells self.log.adviser.most self.log.noting.all moments (string_bytes text)) }
    {
        let GuardAdviser {
            log,
            foreseen: _foreseen,
            arguments: _arguments,
            facts: _facts,
        } = self;
        log.into_text()
    }
}

/// The guard takes the call; `broken` is what `Guard::judge` answers of it now.
// Inlined, as `pass` is, so that the call is moved once.
#[inline(always)]
fn take_judged<A: Allocator + Clone>(
    guard: &mut Guard<A>,
    tid: Tid,
    env: Option<EnvId>,
    call: Call,
    broken: Option<Rule>,
    line: u64,
) -> Result<(), RunFault>
    requires room { length guard.old.journal < guard.old.limit }
    requires judged { broken ≡ verdict guard.old.setup (parts guard.old.setup guard.old.journal) tid.0 env call }
    ensures took { OnOk result (Took guard.old guard.new (next_entry guard.old tid env call)) }
    ensures err { IfErr result (FailsCall guard.old guard.new (next_entry guard.old tid env call) line) }
    ensures same { OnErr result (guard.new.journal ≡ guard.old.journal) }
    ensures legal { Legal guard.old.setup guard.old.journal → Legal guard.new.setup guard.new.journal }
    ensures setup { guard.new.setup ≡ guard.old.setup }
    ensures limit { guard.new.limit ≡ guard.old.limit }
{
    match guard.call_judged(tid, env, call, broken) {
        Ok(_) => Ok(()),
        Err(_) => Err(RunFault::NoMemory { line }),
    }
}

impl<A: Allocator + Clone> Beside<A> for GuardAdviser<A> {
    ghost use Rattle.jg_guard_advice.specs.Logged.{Follows};

    ghost follows = { λ first x s h. Follows first.log x.log s h };

    /// The same, and the log is told the call where it breaks no rule.
    fn take_call(
        &mut self,
        guard: &mut Guard<A>,
        tid: Tid,
        env: Option<EnvId>,
        call: Call,
        line: u64,
    ) -> Result<(), RunFault> {
        if guard.journal_len() >= guard.limit() as usize {
            return Err(RunFault::Limit { line });
        }
        match guard.judge(tid, env, &call) {
            None => self.pass(guard, tid, env, call, line),
            Some(rule) => take_judged(guard, tid, env, call, Some(rule), line),
        }
    }
}
