//! The witness.

ghost use Rattle.std.specs.Prelude.{◌≡◌, ◌≢◌, ◌∷◌, [], List, false, Some, None, IfSome, IfNone, slice_index_or, IfOk, IfErr, OnOk, OnErr};
ghost use Rattle.jg_words.specs.declared.reference.Ref.TheVariants.{To};
ghost use Rattle.jg_rules.specs.Names.{next_ref};
ghost use Rattle.jg_core.specs.declared.fact.Fact.TheVariants.{Hand};
ghost use Rattle.jg_core.specs.Asking.{asked, RefusesReturn};
ghost use Rattle.jg_core.specs.Facts as facts;
ghost use Rattle.jg_core.specs.Facts.{first_held, parts_of};
ghost use Rattle.jg_core.specs.Implied as implied;
ghost use Rattle.jg_core.specs.Kernel.{Keeps, Refuses};
ghost use Rattle.jg_witness.specs.Events as events;
ghost use Rattle.jg_witness.specs.Events.{Event, Told, Handed, Lapsed, facts_of, told_gone};
ghost use Rattle.jg_witness.specs.Standing.{WitnessStands, Stays, Takes};
ghost use Rattle.jg_witness.specs.Words.{arguments_of, EndedAs, RefusesEnding, Returned};

use crate::being::is_in_being;
use crate::named::{lapse, make_room_for, make_room_unless_null, put, put_given};
use crate::operand::Operand;
use crate::reading::{meaning, read};
use crate::table::{Names, Sweeping, find};
use jg_core::{Answer, Core, Ended, Fact, Given, Says, StillHeld, Ticket, Untold};
use jg_judge::{Argument, Bounds};
use jg_policy::Setup;
use jg_words::{EnvId, Kind, ObjId, Ref, Tid};
use std::alloc::{AllocError, Allocator, Global};
use std::collections::HashMap;
use std::marker::Model;

/// A core, and the names that it gave by the words that the machine handed out for them. Which references are in being
/// the core alone knows. Contracts see the core and the names, and say for which events they stand; its type keeps that
/// they stand for some list of events.
pub struct Witness<A: Allocator = Global> {
    core: Core<A>,
    names: Names<A>,
    sweeping: Sweeping,
    /// Room for the operands of a question.
    arguments: Vec<Argument, A>,
}

impl<A: Allocator> Drop for Witness<A> {
    fn drop(self) {
        let Witness {
            core,
            names,
            sweeping: _,
            arguments,
        } = self;
        drop(core);
        drop(names);
        drop(arguments);
    }
}

impl<A: Allocator> Model for Witness<A> {
    ghost use Rattle.jg_witness.specs.Standing.{IsWitness, WitnessState, both};

    ghost Value = { WitnessState };

    ghost view = { λ w. both w.core w.names.entries };

    ghost invariant = { λ w. IsWitness (both w.core w.names.entries) };
}

impl<A: Allocator + Copy> Witness<A> {
    /// A witness that was told nothing. It takes no memory; what is told grows from the handle. About so many names of
    /// references that ended are kept, for [`Witness::last`].
    pub fn new(alloc: A, setup: Setup, fewest: usize) -> Witness<A>
        ensures setup { result.core.setup ≡ setup }
        ensures stands { WitnessStands result [] }
    {
        Witness {
            core: Core::new(alloc, setup),
            names: HashMap::new(alloc),
            sweeping: Sweeping { fewest, most: 0 },
            arguments: Vec::new(alloc),
        }
    }

    /// Tells that the collector let these objects go, all or none, as [`Core::gone`] does.
    pub fn gone(&mut self, objects: &[ObjId]) -> Result<(), StillHeld>
        ensures ok { OnOk result ((e : List Event) → WitnessStands self.old e
            → WitnessStands self.new (told_gone objects.now e)) }
        ensures err { OnErr result (Stays self.old self.new) }
        ensures first { IfErr result (λ held. (e : List Event) → WitnessStands self.old e
            → first_held self.old.core.setup (parts_of (facts_of e)) objects.now ≡ Some held.place) }
        ensures by { IfErr result (λ held. (e : List Event) → WitnessStands self.old e
            → Keeps self.old.core.setup (parts_of (facts_of e))
            (slice_index_or objects.now held.place (record { 0 = 0 })).0 held.by) }
        ensures setup { self.new.core.setup ≡ self.old.core.setup }
    {
        self.core.gone(objects)
    }
}

impl<A: Allocator + Clone> Witness<A> {
    /// The core, to read.
    pub fn core(&self) -> &Core<A>
        ensures { result.now ≡ self.now.core }
    {
        &self.core
    }

    /// What the word means: the newest name that it was handed out for, where that is in being.
    pub fn meaning(&self, word: u64) -> Option<Ref>
        ensures { (e : List Event) → WitnessStands self.now e → result ≡ events.meaning word e }
    {
        meaning(&self.core, &self.names, word)
    }

    /// The newest name that the word was handed out for, in being or not, where it is kept still.
    pub fn last(&self, word: u64) -> Option<Ref>
        ensures newest { IfSome result (λ name. (e : List Event) → WitnessStands self.now e
            → events.newest word e ≡ Some name) }
        ensures none { IfNone result ((e : List Event) → WitnessStands self.now e → events.meaning word e ≡ None) }
    {
        find(&self.names, word)
    }

    /// Tells a fact, as [`Core::tell`] does. A reference that it hands out has no word until [`Witness::handed`] is
    /// called.
    pub fn tell(&mut self, fact: Fact) -> Result<Given, Untold>
        ensures ok { OnOk result (Takes self.old self.new (Told fact)) }
        ensures given { IfOk result (λ out. (e : List Event) → WitnessStands self.old e
            → out ≡ implied.given_by self.old.core.setup (parts_of (facts_of e)) fact) }
        ensures err { OnErr result (Stays self.old self.new) }
        ensures why { IfErr result (Refuses self.old.core fact) }
        ensures setup { self.new.core.setup ≡ self.old.core.setup }
    {
        self.core.tell(fact)
    }

    /// The reference ended that the word was handed out for, and no call told it: the word means nothing any more.
    pub fn lapsed(&mut self, word: u64)
        ensures takes { Takes self.old self.new (Lapsed word) }
        ensures setup { self.new.core.setup ≡ self.old.core.setup }
    {
        lapse(&mut self.core, &mut self.names, word);
    }

    /// The machine handed out the word for the reference of this name, which the core gave. What the word meant before
    /// has ended. It is refused where there is no such reference, or memory runs out: then the word means nothing.
    pub fn handed(&mut self, word: u64, name: Ref) -> Result<(), Untold>
        ensures ok { OnOk result (Takes self.old self.new (Handed word name)) }
        ensures err { OnErr result (Takes self.old self.new (Lapsed word)) }
        ensures why { IfErr result (λ why. why ≢ Untold.NoMemory → (e : List Event) → WitnessStands self.old e
            → facts.is_in_being (parts_of (facts_of e)) name ≡ false) }
        ensures setup { self.new.core.setup ≡ self.old.core.setup }
    {
        if !is_in_being(&self.core.view(), name) {
            lapse(&mut self.core, &mut self.names, word);
            return Err(Untold::Impossible);
        }
        make_room_for(&mut self.core, &mut self.names, &mut self.sweeping, word)?;
        put(&mut self.core, &mut self.names, word, name);
        Ok(())
    }

    /// The machine handed the thread its next reference, of this kind and to this object, as this word; answers its
    /// name. What the word meant before has ended. Where it is refused the word means nothing.
    pub fn hand(&mut self, word: u64, tid: Tid, kind: Kind, object: ObjId) -> Result<Ref, Untold>
        ensures ok { IfOk result (λ name. (e : List Event) → WitnessStands self.old e
            → WitnessStands self.new (Handed word name ∷ Told (Hand tid kind object) ∷ e)) }
        ensures next { IfOk result (λ name. (e : List Event) → WitnessStands self.old e
            → name ≡ To kind tid (next_ref (parts_of (facts_of e)) tid.0)) }
        ensures err { OnErr result (Takes self.old self.new (Lapsed word)) }
        ensures why { IfErr result (λ why. why ≢ Untold.NoMemory
            → Refuses self.old.core (Hand tid kind object) why) }
        ensures setup { self.new.core.setup ≡ self.old.core.setup }
    {
        make_room_for(&mut self.core, &mut self.names, &mut self.sweeping, word)?;
        match self.core.hand(tid, kind, object) {
            Ok(name) => {
                put(&mut self.core, &mut self.names, word, name);
                Ok(name)
            }
            Err(why) => {
                lapse(&mut self.core, &mut self.names, word);
                Err(why)
            }
        }
    }

    /// Asks as [`Core::ask`] does, of words. Nothing that contracts see changes. Fails only for want of memory, and
    /// only where it has more operands than any question before.
    pub fn ask(
        &mut self,
        bounds: Bounds,
        tid: Tid,
        env: Option<EnvId>,
        function: u16,
        operands: &[Operand],
    ) -> Result<Answer, AllocError>
        ensures answer { IfOk result (λ answer. (e : List Event) → WitnessStands self.old e → answer
            ≡ asked bounds self.old.core.setup (parts_of (facts_of e)) tid env function
            (arguments_of tid e operands.now)) }
        ensures same { self.new ≡ self.old }
    {
        read(&self.core, &self.names, tid, operands, &mut self.arguments)?;
        let arguments = self.arguments.as_slice();
        Ok(self.core.ask(bounds, tid, env, function, arguments))
    }

    /// Asks as [`Core::ending`] does, of words, and takes at once what the call ends. A frame that is popped may keep
    /// an object: once the machine says which word it handed out for it, [`Witness::handed`] is called.
    pub fn ending(
        &mut self,
        bounds: Bounds,
        tid: Tid,
        env: Option<EnvId>,
        function: u16,
        operands: &[Operand],
    ) -> Result<Ended, Untold>
        ensures ok { IfOk result (λ out. EndedAs self.old self.new bounds tid env function operands.now out) }
        ensures err { OnErr result (Stays self.old self.new) }
        ensures why { IfErr result (λ why. why ≢ Untold.NoMemory
            → RefusesEnding self.old bounds tid env function operands.now why) }
        ensures setup { self.new.core.setup ≡ self.old.core.setup }
    {
        let Ok(()) = read(&self.core, &self.names, tid, operands, &mut self.arguments) else {
            return Err(Untold::NoMemory);
        };
        self.core
            .ending(bounds, tid, env, function, self.arguments.as_slice())
    }

    /// Takes what a question's call implies that returned, as [`Core::returned`] does. The word is the machine's for
    /// the reference that it answered, 0 where it answered none; what it meant before has ended. Where it is refused
    /// the word means nothing.
    pub fn returned(&mut self, ticket: Ticket, says: Says, word: u64) -> Result<Given, Untold>
        ensures ok { IfOk result (λ out. Returned self.old self.new ticket says word out) }
        ensures err { OnErr result (Takes self.old self.new (Lapsed word)) }
        ensures why { IfErr result (λ why. why ≢ Untold.NoMemory → RefusesReturn self.old.core ticket says why) }
        ensures setup { self.new.core.setup ≡ self.old.core.setup }
    {
        make_room_unless_null(&mut self.core, &mut self.names, &mut self.sweeping, word)?;
        match self.core.returned(ticket, says) {
            Ok(given) => {
                put_given(&mut self.core, &mut self.names, word, given);
                Ok(given)
            }
            Err(why) => {
                lapse(&mut self.core, &mut self.names, word);
                Err(why)
            }
        }
    }
}
