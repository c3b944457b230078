//! The lines of one entry.

ghost use Rattle.std.specs.Prelude.{◌+◌, ◌<◌, length, OnOk, string_bytes};
ghost use Rattle.jg_rules.specs.Effects.{parts};
ghost use Rattle.jg_rules.specs.Parts.{Parts};
ghost use Rattle.jg_rules.specs.View.{ViewStands};
ghost use Rattle.jg_explain.specs.Explained.{IsFront, as_it_was};
ghost use Rattle.jg_entry_facts.specs.Foreseen.{Foresees};
ghost use Rattle.jg_journal_record.specs.Retold.{AddsEntry, AddsQuestion, AddsTold};

use crate::lines::{push_facts, push_line};
use jg_core::Fact;
use jg_entry_facts::Foreseen;
use jg_explain::replay_entry;
use jg_guard::Guard;
use jg_judge::{function_of, push_arguments};
use jg_policy::Setup;
use jg_record::{Event, Lists, Unwritten};
use jg_rules::View;
use jg_words::Entry;
use std::alloc::{Allocator, Global};

/// Room for what an entry is.
#[derive(Drop)]
pub(crate) struct Room {
    foreseen: Foreseen,
    facts: Vec<Fact>,
    lists: Lists,
}

impl Room {
    /// Takes no memory.
    pub(crate) fn new(alloc: Global) -> Room {
        Room {
            foreseen: Foreseen::new(alloc, alloc),
            facts: Vec::new(alloc),
            lists: Lists {
                arguments: Vec::new(alloc),
                objects: Vec::new(alloc),
            },
        }
    }

    /// Writes the line of the question that the entry's call is, and reads what its facts depend on, by the tables
    /// before it.
    fn ask(&mut self, out: &mut String, view: &View<'_>, entry: &Entry) -> Result<(), Unwritten>
        ensures asked { OnOk result ((p : Parts) → ViewStands view.now p
            → AddsQuestion view.now.setup.now p entry.now (string_bytes out.old) (string_bytes out.new)) }
        ensures foreseen { OnOk result ((p : Parts) → ViewStands view.now p
            → Foresees view.now.setup.now p entry.now.tid entry.now.call self.new.foreseen) }
    {
        let (tid, call) = (entry.tid(), entry.call());
        self.lists.arguments.clear();
        let Ok(()) = push_arguments(view, tid, call, &mut self.lists.arguments) else {
            return Err(Unwritten::NoMemory);
        };
        let question = Event::Question {
            tid,
            env: entry.env(),
            function: function_of(call),
        };
        push_line(out, view.setup, tid, &question, &self.lists)?;
        match self.foreseen.foresee(view, tid, call) {
            Ok(()) => Ok(()),
            Err(_) => Err(Unwritten::NoMemory),
        }
    }

    /// Writes the lines of the entry's facts.
    fn tell(&mut self, out: &mut String, setup: &Setup, entry: &Entry) -> Result<(), Unwritten>
        ensures { OnOk result ((p : Parts)
            → Foresees setup.now p entry.now.tid entry.now.call self.old.foreseen
            → AddsTold setup.now p entry.now (string_bytes out.old) (string_bytes out.new)) }
    {
        self.facts.clear();
        let Ok(()) = self.foreseen.push_facts(entry, &mut self.facts) else {
            return Err(Unwritten::NoMemory);
        };
        push_facts(out, setup, entry.tid(), &self.facts, &mut self.lists)?;
        Ok(())
    }
}

/// Writes the lines of the entry at that place of the guard's journal, from 0. Its call is made again between the
/// question and the facts, by a guard that made those of the entries before it.
pub(crate) fn push_entry<A: Allocator + Clone>(
    out: &mut String,
    room: &mut Room,
    guard: &Guard<A>,
    again: &mut Guard,
    place: usize,
    entry: &Entry,
) -> Result<(), Unwritten>
    requires below { place < length guard.now.journal }
    requires front { IsFront guard.now again.old place }
    ensures entry { OnOk result (AddsEntry guard.now.setup
        (parts guard.now.setup (as_it_was place guard.now.journal)) entry.now
        (string_bytes out.old) (string_bytes out.new)) }
    ensures front { OnOk result (IsFront guard.now again.new (place + 1)) }
{
    room.ask(out, &again.view(), entry)?;
    let Ok(()) = replay_entry(guard, again, place) else {
        return Err(Unwritten::NoMemory);
    };
    room.tell(out, again.view().setup, entry)?;
    Ok(())
}
