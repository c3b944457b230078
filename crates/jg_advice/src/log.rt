//! What is advised is noted.

ghost use Rattle.std.specs.Prelude.{◌≡◌, ◌++◌, ◌∷◌, [], IfOk, IfSome, List, OnOk, reverse, string_bytes, true};
ghost use Rattle.jg_rules.specs.Parts.{Parts};
ghost use Rattle.jg_rules.specs.View.{ViewTells};
ghost use Rattle.jg_advice.specs.declared.advice.Advice.{Advice as AdviceOf};
ghost use Rattle.jg_advice.specs.Advised.{AreLeft};
ghost use Rattle.jg_advice.specs.Moments.{Called, Moment, Told, Went};
ghost use Rattle.jg_advice.specs.Noted.{IsNoted};
ghost use Rattle.jg_advice.specs.Standing.{Sees};
ghost use Rattle.jg_advice.specs.Told.{AreAdvised, LogStands, Tells};

use crate::advice::Advice;
use crate::adviser::Adviser;
use crate::parts::Lengths;
use crate::report::Advices;
use jg_core::Fact;
use jg_judge::Argument;
use jg_rules::{Store, View};
use jg_words::{ObjId, Tid};
use std::alloc::{AllocError, Allocator, Global};
use std::marker::Model;

/// The log of what an adviser advises. It stands beside a core or a guard, and is told each question that passed and
/// each fact, on its line. Where memory runs out for it, all that it told is lost. Contracts see all.
pub struct AdviceLog {
    adviser: Adviser,
    lost: bool,
    advices: Advices,
    /// Room for what is advised at one moment.
    room: Vec<Advice>,
}

// Not derived, so that who owns a log lets it go by one call.
impl Drop for AdviceLog {
    fn drop(self) {
        let AdviceLog {
            adviser: _adviser,
            lost: _,
            advices: _advices,
            room: _room,
        } = self;
    }
}

impl Model for AdviceLog {
    ghost use Rattle.jg_advice.specs.Told.{AdviceLogState};

    ghost Value = { AdviceLogState };

    ghost view = { λ x. record { adviser = x.adviser; lost = x.lost; noting = x.advices } };
}

/// Notes all of the advice, the first first.
// Inlined, since mostly there is none.
#[inline(always)]
fn note_all(advices: &mut Advices, given: &[Advice])
    ensures noted { (older : List AdviceOf) → IsNoted advices.old older
        → IsNoted advices.new (reverse given.now ++ older) }
    ensures all { advices.new.all ≡ advices.old.all }
{
    let mut rest = given;
    while let Some((advice, later)) = rest.split_first() {
        advices.note(*advice);
        rest = later;
    }
}

impl AdviceLog {
    /// A log to whom nothing happened yet. A critical region is long where more than `most` calls are made in it.
    /// Each advice is going to be told, or the first of each kind and function. Fails for want of memory.
    pub fn new(alloc: Global, most: u64, all: bool) -> Result<AdviceLog, AllocError>
        ensures logs { IfOk result (λ x. LogStands x []) }
        ensures most { IfOk result (λ x. x.adviser.most ≡ most) }
        ensures all { IfOk result (λ x. x.noting.all ≡ all) }
    {
        Ok(AdviceLog {
            adviser: Adviser::new(alloc, most),
            lost: false,
            advices: Advices::new(alloc, all)?,
            room: Vec::new(alloc),
        })
    }

    /// A question passed on this line: the thread calls the function at that place of the table, with these operands.
    /// `name` is the text of the name that it hands in, for FindClass, and may be empty for others. `view` is of the
    /// tables as they were judged by.
    pub fn called<A: Allocator + Clone, S: Lengths>(
        &mut self,
        view: &View<'_, A, S>,
        line: u64,
        tid: Tid,
        function: u16,
        arguments: &[Argument],
        name: &[u8],
    )
        ensures logs { (h : List Moment) (p : Parts) → LogStands self.old h → ViewTells S.Store.Tells view.now p
            → LogStands self.new (record {
              line = line;
              what = Called view.now.setup.now tid function arguments.now name.now;
              parts = p;
            } ∷ h) }
        ensures most { self.new.adviser.most ≡ self.old.adviser.most }
        ensures all { self.new.noting.all ≡ self.old.noting.all }
    {
        if self.lost {
            return;
        }
        self.room.clear();
        let called = self
            .adviser
            .called(view, line, tid, function, arguments, name, &mut self.room);
        match called {
            Ok(()) => note_all(&mut self.advices, &self.room),
            Err(_) => self.lost = true,
        }
    }

    /// The fact was told on this line. `view` is of the tables with it.
    pub fn told<A: Allocator + Clone, S: Store>(
        &mut self,
        view: &View<'_, A, S>,
        line: u64,
        fact: Fact,
    )
        ensures logs { (h : List Moment) (p : Parts) → LogStands self.old h → Sees view.now p
            → LogStands self.new (record { line = line; what = Told fact; parts = p } ∷ h) }
        ensures most { self.new.adviser.most ≡ self.old.adviser.most }
        ensures all { self.new.noting.all ≡ self.old.noting.all }
    {
        if self.lost {
            return;
        }
        self.room.clear();
        match self.adviser.told(view, line, fact, &mut self.room) {
            Ok(()) => note_all(&mut self.advices, &self.room),
            Err(_) => self.lost = true,
        }
    }

    /// The collector let these objects go, which was told on this line.
    pub fn went(&mut self, line: u64, objects: &[ObjId])
        ensures logs { (h : List Moment) (p : Parts) → LogStands self.old h
            → LogStands self.new (record { line = line; what = Went objects.now; parts = p } ∷ h) }
        ensures most { self.new.adviser.most ≡ self.old.adviser.most }
        ensures all { self.new.noting.all ≡ self.old.noting.all }
    {
        if self.lost {
            return;
        }
        match self.adviser.went(line, objects) {
            Ok(()) => {}
            Err(_) => self.lost = true,
        }
    }

    /// Memory ran out for who tells it what happens: it is of no more use.
    pub fn lose(&mut self)
        ensures lost { self.new.lost ≡ true }
        ensures most { self.new.adviser.most ≡ self.old.adviser.most }
        ensures all { self.new.noting.all ≡ self.old.noting.all }
    {
        self.lost = true;
    }

    /// Whether memory ran out, so that it is of no more use.
    pub fn is_lost(&self) -> bool
        ensures { result ≡ self.now.lost }
    {
        self.lost
    }

    /// Notes what is advised at the end. Fails where memory ran out, now or before.
    fn note_left(&mut self) -> Result<(), AllocError>
        ensures noted { OnOk result ((h : List Moment) → LogStands self.old h
            → (advices : List AdviceOf) × (left : List AdviceOf) × AreAdvised self.old.adviser.most h advices
            × AreLeft h left × IsNoted self.new.noting (reverse left ++ advices)) }
        ensures all { self.new.noting.all ≡ self.old.noting.all }
    {
        if self.lost {
            return Err(AllocError);
        }
        self.room.clear();
        self.adviser.left(&mut self.room)?;
        note_all(&mut self.advices, &self.room);
        Ok(())
    }

    fn into_advices(self) -> Advices
        ensures { result ≡ self.noting }
    {
        let AdviceLog {
            adviser: _adviser,
            lost: _,
            advices,
            room: _room,
        } = self;
        advices
    }

    /// What is told of all that was advised, with what is advised at the end; `None` where memory ran out for it.
    pub fn into_text(mut self) -> Option<String>
        ensures { IfSome result (λ text. (h : List Moment) → LogStands self h
            → Tells self.adviser.most self.noting.all h (string_bytes text)) }
    {
        match self.note_left() {
            Ok(()) => self.into_advices().into_text(),
            Err(_) => None,
        }
    }
}
