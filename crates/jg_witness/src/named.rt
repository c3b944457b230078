//! What a core and the names beside it are told together.

ghost use Rattle.std.specs.Prelude.{◌≡◌, ◌≢◌, ◌<◌, ◌∷◌, List, IfErr, OnOk, OnErr};
ghost use Rattle.std.specs.HashMap.{spare};
ghost use Rattle.jg_core.specs.declared.fact.Fact.{Fact as FactOf};
ghost use Rattle.jg_core.specs.Facts.{parts_of};
ghost use Rattle.jg_core.specs.Kernel.{CoreStands};
ghost use Rattle.jg_witness.specs.Events.{Event, Handed, Lapsed, IsCounted, facts_of, if_in_being, lost_after};
ghost use Rattle.jg_witness.specs.Standing.{WitnessStands, both};
ghost use Rattle.jg_witness.specs.Words.{GivesCounted, handed_on};

use crate::table::{Names, Sweeping, make_room};
use jg_core::{Core, Fact, Given, Untold};
use jg_words::Ref;
use std::alloc::Allocator;

/// Tells the core that the reference ended, if it is in being.
fn lose<A: Allocator + Clone>(core: &mut Core<A>, name: Option<Ref>)
    ensures stands { (w : List FactOf) → CoreStands core.old w
        → CoreStands core.new (lost_after (if_in_being (parts_of w) name) w) }
    ensures setup { core.new.setup ≡ core.old.setup }
{
    if let Some(name) = name {
        // Where it isn't in being the core says that this can't be, and stays as it is.
        let _ = core.tell(Fact::Lost(name));
    }
}

/// The reference ended that the word was handed out for, and no call told it.
pub(crate) fn lapse<A: Allocator + Clone>(core: &mut Core<A>, names: &mut Names<A>, word: u64)
    ensures stands { (e : List Event) → WitnessStands (both core.old names.old.entries) e
        → WitnessStands (both core.new names.new.entries) (Lapsed word ∷ e) }
    ensures setup { core.new.setup ≡ core.old.setup }
{
    let older = names.remove(&word);
    lose(core, older);
}

/// Makes room for the word's name. Where memory runs out the word means nothing.
pub(crate) fn make_room_for<A: Allocator + Clone>(
    core: &mut Core<A>,
    names: &mut Names<A>,
    sweeping: &mut Sweeping,
    word: u64,
) -> Result<(), Untold>
    ensures ok { OnOk result ((e : List Event) → WitnessStands (both core.old names.old.entries) e
        → WitnessStands (both core.new names.new.entries) e) }
    ensures room { OnOk result (0 < spare names.new) }
    ensures core { OnOk result (core.new ≡ core.old) }
    ensures err { OnErr result ((e : List Event) → WitnessStands (both core.old names.old.entries) e
        → WitnessStands (both core.new names.new.entries) (Lapsed word ∷ e)) }
    ensures why { IfErr result (λ why. why ≡ Untold.NoMemory) }
    ensures setup { core.new.setup ≡ core.old.setup }
{
    match make_room(names, sweeping, &core.view()) {
        Ok(()) => Ok(()),
        Err(_) => {
            lapse(core, names, word);
            Err(Untold::NoMemory)
        }
    }
}

/// The same for a word that may be 0, which needs no room.
pub(crate) fn make_room_unless_null<A: Allocator + Clone>(
    core: &mut Core<A>,
    names: &mut Names<A>,
    sweeping: &mut Sweeping,
    word: u64,
) -> Result<(), Untold>
    ensures ok { OnOk result ((e : List Event) → WitnessStands (both core.old names.old.entries) e
        → WitnessStands (both core.new names.new.entries) e) }
    ensures room { OnOk result (word ≢ 0 → 0 < spare names.new) }
    ensures core { OnOk result (core.new ≡ core.old) }
    ensures err { OnErr result ((e : List Event) → WitnessStands (both core.old names.old.entries) e
        → WitnessStands (both core.new names.new.entries) (Lapsed word ∷ e)) }
    ensures why { IfErr result (λ why. why ≡ Untold.NoMemory) }
    ensures setup { core.new.setup ≡ core.old.setup }
{
    if word == 0 {
        return Ok(());
    }
    make_room_for(core, names, sweeping, word)
}

/// The machine handed out the word for this name, which the core gave.
pub(crate) fn put<A: Allocator + Clone>(
    core: &mut Core<A>,
    names: &mut Names<A>,
    word: u64,
    name: Ref,
)
    requires { 0 < spare names.old }
    ensures stands { (e : List Event) → WitnessStands (both core.old names.old.entries) e
        → IsCounted (parts_of (facts_of e)) name
        → WitnessStands (both core.new names.new.entries) (Handed word name ∷ e) }
    ensures setup { core.new.setup ≡ core.old.setup }
{
    let Ok(older) = names.insert(word, name) else {
        // There was room.
        return;
    };
    lose(core, older);
}

/// The machine handed out the word for what the core gave, where that is a reference and the word isn't 0.
pub(crate) fn put_given<A: Allocator + Clone>(
    core: &mut Core<A>,
    names: &mut Names<A>,
    word: u64,
    given: Given,
)
    requires { word ≢ 0 → 0 < spare names.old }
    ensures stands { (e : List Event) → WitnessStands (both core.old names.old.entries) e
        → GivesCounted (parts_of (facts_of e)) given
        → WitnessStands (both core.new names.new.entries) (handed_on word given e) }
    ensures setup { core.new.setup ≡ core.old.setup }
{
    if word == 0 {
        return;
    }
    if let Given::Reference(name) = given {
        put(core, names, word, name);
    }
}
