//! What is read before a call, so that its facts can be told after it.

ghost use Rattle.std.specs.Prelude.{◌≡◌, ◌++◌, reverse, OnOk};
ghost use Rattle.jg_policy.specs.Stated.{StatedSetup};
ghost use Rattle.jg_rules.specs.Parts.{Parts};
ghost use Rattle.jg_rules.specs.View.{ViewStands};
ghost use Rattle.jg_entry_facts_laws.specs.Entries.{outcome_facts};
ghost use Rattle.jg_entry_facts.specs.Foreseen.{Foresees};

use crate::going::list_going_for;
use crate::own::{Own, own_of};
use crate::passing::{push_answer, push_own_of, push_warning};
use jg_core::Fact;
use jg_lists::ObjectMarks;
use jg_rules::{View, home_named};
use jg_words::{Call, Entry, Tid};
use std::alloc::{AllocError, Allocator, Global};

/// What is read of the tables before a call, so that its facts can be told after it. It keeps its memory for the next
/// call.
#[derive(Drop)]
pub struct Foreseen<A: Allocator = Global> {
    own: Own,
    /// The module that a warning of the call would name.
    home: Option<u32>,
    /// The objects that go, where the call is a collection.
    gone: Vec<u64, A>,
    marks: ObjectMarks<A>,
}

impl<A: Allocator + Clone> Foreseen<A> {
    /// Nothing was read yet. Takes no memory.
    pub fn new(gone: A, marks: A) -> Foreseen<A> {
        Foreseen {
            own: Own::AtMost(None),
            home: None,
            gone: Vec::new(gone),
            marks: ObjectMarks::new(marks),
        }
    }

    /// Reads what the call's facts depend on, by the tables before it. Takes time and memory by what the call does; a
    /// collection by what is live and what goes. Fails only for want of memory, and then nothing is foreseen.
    pub fn foresee(&mut self, view: &View<'_, A>, tid: Tid, call: &Call) -> Result<(), AllocError>
        ensures { OnOk result ((p : Parts) → ViewStands view.now p
            → Foresees view.now.setup.now p tid call.now self.new) }
    {
        list_going_for(view, &mut self.marks, &mut self.gone, call)?;
        let own = own_of(view, self.gone.allocator().clone()?, tid, call)?;
        self.own = own;
        self.home = home_named(view, tid, call);
        Ok(())
    }

    /// Adds the facts of the call's entry, oldest first: none where it was denied. Fails only for want of memory.
    pub fn push_facts(&self, entry: &Entry, out: &mut Vec<Fact>) -> Result<(), AllocError>
        ensures { OnOk result ((s : StatedSetup) (p : Parts) → Foresees s p entry.now.tid entry.now.call self.now
            → out.new.items ≡ out.old.items
            ++ reverse (outcome_facts s p entry.now.tid entry.now.call entry.now.outcome entry.now.object)) }
    {
        match entry.value() {
            None => Ok(()),
            Some(value) => {
                let (call, tid, object) = (entry.call(), entry.tid(), entry.object());
                push_own_of(value, self.own, &self.gone, tid, object, out)?;
                push_answer(call, tid, value, object, out)?;
                push_warning(entry.warned(), self.home, out)?;
                Ok(())
            }
        }
    }
}
