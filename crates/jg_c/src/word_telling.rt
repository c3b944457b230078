//! A witness is told, and says what a word means.

ghost use Rattle.std.specs.Prelude.{◌≡◌, ◌≢◌, ◌↔◌, None};
ghost use Rattle.jg_witness.specs.Events.{Lapsed};
ghost use Rattle.jg_witness.specs.Standing.{Takes};
ghost use Rattle.jg_c.specs.Errors as errors;
ghost use Rattle.jg_c.specs.Facts as facts;
ghost use Rattle.jg_c.specs.Given as givens;
ghost use Rattle.jg_c.specs.Sessions.{Of, Steps, witness_of};
ghost use Rattle.jg_c.specs.Tickets as tickets;
ghost use Rattle.jg_c.specs.Values as values;
ghost use Rattle.jg_c.specs.Witnesses.{JudgesAsBefore};
ghost use Rattle.jg_c.specs.WordTelling as specs;

use crate::error::{DONE, of_untold};
use crate::fact::{JgFact, fact_of};
use crate::given::{of_given, says_of};
use crate::going::read_objects;
use crate::handle::Handle;
use crate::held::{JgHeld, of_held};
use crate::numbers::{BAD_FACT, BAD_THREAD, BAD_TICKET, BAD_VALUE, CLOSED, IMPOSSIBLE, NO_MEMORY};
use crate::session::WitnessSession;
use crate::telling::can_say;
use crate::ticket::{JgTicket, mark_told, untold_ticket_of};
use crate::value::{JgValue, kind_of, of_reference, thread_of};
use jg_core::{Fact, Says, Ticket};
use jg_words::{Kind, ObjId, Ref, Tid};

/// What is answered where a name was written.
const WRITTEN: i32 = 1;

/// What is answered where there is none.
const NONE: i32 = 0;

// ---- a word is handed out

/// Whose reference is handed out, of which kind and to which object.
#[derive(Clone, Copy)]
pub(crate) struct Hands {
    pub(crate) tid: Tid,
    pub(crate) kind: Kind,
    pub(crate) object: ObjId,
}

/// What the numbers say of a word that is handed out, or why they say nothing.
fn hands_of(thread: u32, kind: u32, object: &JgValue) -> Result<Hands, i32>
    ensures { result ≡ specs.hands_of thread kind object.now }
{
    let Some(tid) = thread_of(thread) else {
        return Err(BAD_THREAD);
    };
    let Some(kind) = kind_of(kind) else {
        return Err(BAD_VALUE);
    };
    match object.object() {
        Some(Some(object)) => Ok(Hands { tid, kind, object }),
        _ => Err(BAD_VALUE),
    }
}

fn hand_out(asked: &mut WitnessSession, word: u64, hands: Hands, name: &mut JgValue) -> i32
    ensures hands { specs.HandsWord asked.old asked.new word (Ok hands) name.new result }
    ensures kept { result ≢ errors.done → name.new ≡ name.old }
    ensures numbers { result ≢ errors.closed }
    ensures settings { JudgesAsBefore asked.old asked.new }
{
    match asked
        .witness
        .hand(word, hands.tid, hands.kind, hands.object)
    {
        Ok(named) => {
            *name = of_reference(named);
            DONE
        }
        Err(why) => of_untold(why),
    }
}

fn hand(
    asked: &mut WitnessSession,
    word: u64,
    thread: u32,
    kind: u32,
    object: &JgValue,
    name: &mut JgValue,
) -> i32
    ensures hands { specs.HandsWord asked.old asked.new word (specs.hands_of thread kind object.now) name.new result }
    ensures kept { result ≢ errors.done → name.new ≡ name.old }
    ensures numbers { result ≢ errors.closed }
    ensures settings { JudgesAsBefore asked.old asked.new }
{
    match hands_of(thread, kind, object) {
        Ok(hands) => hand_out(asked, word, hands, name),
        Err(why) => why,
    }
}

/// The machine handed the thread its next reference, of this kind and to this object, as this word. Its name is written.
/// What the word meant before has ended; where it is refused the word means nothing.
#[unsafe(no_mangle)]
pub extern "C" fn jg_witness_hand(
    witness: &mut Handle,
    word: u64,
    thread: u32,
    kind: u32,
    object: &JgValue,
    name: &mut JgValue,
) -> i32
    ensures closed { (result ≡ errors.closed) ↔ (witness_of witness.old.value ≡ None) }
    ensures hands { Steps (witness_of witness.old.value) (witness_of witness.new.value)
        (λ old new. specs.HandsWord old new word (specs.hands_of thread kind object.now) name.new result) }
    ensures kept { result ≢ errors.done → name.new ≡ name.old }
    ensures settings { Steps (witness_of witness.old.value) (witness_of witness.new.value) JudgesAsBefore }
    ensures same { witness_of witness.old.value ≡ None → witness.new.value ≡ witness.old.value }
{
    match witness.witness() {
        Some(asked) => hand(asked, word, thread, kind, object, name),
        None => CLOSED,
    }
}

fn hand_for(asked: &mut WitnessSession, word: u64, name: Ref) -> i32
    ensures hands { specs.HandsFor asked.old asked.new word (Some name) result }
    ensures numbers { result ≢ errors.closed }
    ensures settings { JudgesAsBefore asked.old asked.new }
{
    match asked.witness.handed(word, name) {
        Ok(()) => DONE,
        Err(why) => of_untold(why),
    }
}

fn handed(asked: &mut WitnessSession, word: u64, name: &JgValue) -> i32
    ensures hands { specs.HandsFor asked.old asked.new word (values.reference_of name.now) result }
    ensures numbers { result ≢ errors.closed }
    ensures settings { JudgesAsBefore asked.old asked.new }
{
    match name.reference() {
        Some(name) => hand_for(asked, word, name),
        None => BAD_VALUE,
    }
}

/// The machine handed out the word for the reference of this name. What the word meant before has ended; where it is
/// refused the word means nothing.
#[unsafe(no_mangle)]
pub extern "C" fn jg_witness_handed(witness: &mut Handle, word: u64, name: &JgValue) -> i32
    ensures closed { (result ≡ errors.closed) ↔ (witness_of witness.old.value ≡ None) }
    ensures hands { Steps (witness_of witness.old.value) (witness_of witness.new.value)
        (λ old new. specs.HandsFor old new word (values.reference_of name.now) result) }
    ensures settings { Steps (witness_of witness.old.value) (witness_of witness.new.value) JudgesAsBefore }
    ensures same { witness_of witness.old.value ≡ None → witness.new.value ≡ witness.old.value }
{
    match witness.witness() {
        Some(asked) => handed(asked, word, name),
        None => CLOSED,
    }
}

/// Tells that the reference ended that the word was handed out for, and that no call told it.
fn lapse(asked: &mut WitnessSession, word: u64) -> i32
    ensures done { result ≡ errors.done }
    ensures takes { Takes asked.old.witness asked.new.witness (Lapsed word) }
    ensures settings { JudgesAsBefore asked.old asked.new }
{
    asked.witness.lapsed(word);
    DONE
}

/// The reference ended that the word was handed out for, and no call told it: the word means nothing any more.
#[unsafe(no_mangle)]
pub extern "C" fn jg_witness_lapsed(witness: &mut Handle, word: u64) -> i32
    ensures closed { (result ≡ errors.closed) ↔ (witness_of witness.old.value ≡ None) }
    ensures done { (result ≡ errors.done) ↔ (witness_of witness.old.value ≢ None) }
    ensures takes { Steps (witness_of witness.old.value) (witness_of witness.new.value)
        (λ old new. Takes old.witness new.witness (Lapsed word)) }
    ensures settings { Steps (witness_of witness.old.value) (witness_of witness.new.value) JudgesAsBefore }
    ensures same { witness_of witness.old.value ≡ None → witness.new.value ≡ witness.old.value }
{
    match witness.witness() {
        Some(asked) => lapse(asked, word),
        None => CLOSED,
    }
}

// ---- a fact

fn tell_fact(asked: &mut WitnessSession, fact: Fact, given: &mut JgValue) -> i32
    ensures tells { specs.TellsFactOf asked.old asked.new fact given.new result }
    ensures kept { result ≢ errors.done → given.new ≡ given.old }
    ensures numbers { result ≢ errors.closed }
    ensures settings { JudgesAsBefore asked.old asked.new }
{
    match asked.witness.tell(fact) {
        Ok(out) => {
            *given = of_given(out);
            DONE
        }
        Err(why) => of_untold(why),
    }
}

fn tell(asked: &mut WitnessSession, fact: &JgFact, given: &mut JgValue) -> i32
    ensures tells { specs.TellsOf asked.old asked.new (facts.fact_of fact.now) given.new result }
    ensures kept { result ≢ errors.done → given.new ≡ given.old }
    ensures numbers { result ≢ errors.closed }
    ensures settings { JudgesAsBefore asked.old asked.new }
{
    match fact_of(fact) {
        Some(fact) => tell_fact(asked, fact, given),
        None => BAD_FACT,
    }
}

/// Takes a fact, and writes the name of what it hands out to `given`. A reference has no word until `jg_witness_handed`
/// is called.
#[unsafe(no_mangle)]
pub extern "C" fn jg_witness_tell(witness: &mut Handle, fact: &JgFact, given: &mut JgValue) -> i32
    ensures closed { (result ≡ errors.closed) ↔ (witness_of witness.old.value ≡ None) }
    ensures tells { Steps (witness_of witness.old.value) (witness_of witness.new.value)
        (λ old new. specs.TellsOf old new (facts.fact_of fact.now) given.new result) }
    ensures kept { result ≢ errors.done → given.new ≡ given.old }
    ensures settings { Steps (witness_of witness.old.value) (witness_of witness.new.value) JudgesAsBefore }
    ensures same { witness_of witness.old.value ≡ None → witness.new.value ≡ witness.old.value }
{
    match witness.witness() {
        Some(asked) => tell(asked, fact, given),
        None => CLOSED,
    }
}

// ---- a call that returned

fn take_return(
    asked: &mut WitnessSession,
    ticket: Ticket,
    says: Says,
    word: u64,
    given: &mut JgValue,
) -> i32
    ensures returns { specs.ReturnsWord asked.old asked.new ticket says word given.new result }
    ensures kept { result ≢ errors.done → given.new ≡ given.old }
    ensures numbers { result ≢ errors.closed }
    ensures settings { JudgesAsBefore asked.old asked.new }
{
    if !can_say(asked.witness.core(), says) {
        asked.witness.lapsed(word);
        return IMPOSSIBLE;
    }
    match asked.witness.returned(ticket, says, word) {
        Ok(out) => {
            *given = of_given(out);
            DONE
        }
        Err(why) => of_untold(why),
    }
}

/// Takes what the ticket's call implies, and marks the ticket.
fn take_told(
    asked: &mut WitnessSession,
    ticket: &mut JgTicket,
    stated: Ticket,
    says: Says,
    word: u64,
    given: &mut JgValue,
) -> i32
    ensures returns { specs.ReturnsWord asked.old asked.new stated says word given.new result }
    ensures told { result ≡ errors.done → tickets.IsMarked ticket.old ticket.new }
    ensures untold { result ≢ errors.done → ticket.new ≡ ticket.old }
    ensures kept { result ≢ errors.done → given.new ≡ given.old }
    ensures numbers { result ≢ errors.closed }
    ensures settings { JudgesAsBefore asked.old asked.new }
{
    let number = take_return(asked, stated, says, word, given);
    if number == DONE {
        mark_told(ticket);
    }
    number
}

fn did(
    asked: &mut WitnessSession,
    ticket: &mut JgTicket,
    says: &JgValue,
    word: u64,
    given: &mut JgValue,
) -> i32
    ensures did { specs.DidOf asked.old asked.new (tickets.untold_ticket_of ticket.old) (givens.says_of says.now) word
        given.new result }
    ensures told { result ≡ errors.done → tickets.IsMarked ticket.old ticket.new }
    ensures untold { result ≢ errors.done → ticket.new ≡ ticket.old }
    ensures kept { result ≢ errors.done → given.new ≡ given.old }
    ensures numbers { result ≢ errors.closed }
    ensures settings { JudgesAsBefore asked.old asked.new }
{
    match untold_ticket_of(ticket) {
        Some(stated) => match says_of(says) {
            Some(says) => take_told(asked, ticket, stated, says, word, given),
            None => BAD_VALUE,
        },
        None => BAD_TICKET,
    }
}

/// Takes what a call implies that returned, as `jg_did` does. The word is the machine's for the reference that the call
/// answered, 0 where it answered none. What the word meant before has ended; where it is refused the word means nothing.
#[unsafe(no_mangle)]
pub extern "C" fn jg_witness_did(
    witness: &mut Handle,
    ticket: &mut JgTicket,
    says: &JgValue,
    word: u64,
    given: &mut JgValue,
) -> i32
    ensures closed { (result ≡ errors.closed) ↔ (witness_of witness.old.value ≡ None) }
    ensures did { Steps (witness_of witness.old.value) (witness_of witness.new.value)
        (λ old new. specs.DidOf old new (tickets.untold_ticket_of ticket.old) (givens.says_of says.now) word given.new
        result) }
    ensures told { result ≡ errors.done → tickets.IsMarked ticket.old ticket.new }
    ensures untold { result ≢ errors.done → ticket.new ≡ ticket.old }
    ensures kept { result ≢ errors.done → given.new ≡ given.old }
    ensures settings { Steps (witness_of witness.old.value) (witness_of witness.new.value) JudgesAsBefore }
    ensures same { witness_of witness.old.value ≡ None → witness.new.value ≡ witness.old.value }
{
    match witness.witness() {
        Some(asked) => did(asked, ticket, says, word, given),
        None => CLOSED,
    }
}

// ---- what is gone

fn let_go(asked: &mut WitnessSession, objects: &[u64], held: &mut JgHeld) -> i32
    ensures goes { result ≢ errors.no_memory → specs.LetsGoOf asked.old asked.new objects.now held.new result }
    ensures kept { result ≢ errors.impossible → held.new ≡ held.old }
    ensures numbers { result ≢ errors.closed }
    ensures unchanged { result ≡ errors.no_memory → asked.new ≡ asked.old }
    ensures settings { JudgesAsBefore asked.old asked.new }
{
    let Ok(()) = read_objects(objects, &mut asked.objects) else {
        return NO_MEMORY;
    };
    let Err(still) = asked.witness.gone(asked.objects.as_slice()) else {
        return DONE;
    };
    *held = of_held(still);
    IMPOSSIBLE
}

/// Takes that the collector let these objects go, as `jg_gone_held` does.
#[unsafe(no_mangle)]
pub extern "C" fn jg_witness_gone(witness: &mut Handle, objects: &[u64], held: &mut JgHeld) -> i32
    ensures closed { (result ≡ errors.closed) ↔ (witness_of witness.old.value ≡ None) }
    ensures goes { result ≢ errors.no_memory → Steps (witness_of witness.old.value) (witness_of witness.new.value)
        (λ old new. specs.LetsGoOf old new objects.now held.new result) }
    ensures kept { result ≢ errors.impossible → held.new ≡ held.old }
    ensures unchanged { result ≡ errors.no_memory → witness.new.value ≡ witness.old.value }
    ensures settings { Steps (witness_of witness.old.value) (witness_of witness.new.value) JudgesAsBefore }
    ensures same { witness_of witness.old.value ≡ None → witness.new.value ≡ witness.old.value }
{
    match witness.witness() {
        Some(asked) => let_go(asked, objects, held),
        None => CLOSED,
    }
}

// ---- what a word means

/// Writes the name, if there is one.
fn write_name(named: Option<Ref>, name: &mut JgValue) -> i32
    ensures written { specs.WritesName named name.old name.new result }
    ensures numbers { result ≢ errors.closed }
{
    match named {
        Some(named) => {
            *name = of_reference(named);
            WRITTEN
        }
        None => NONE,
    }
}

fn mean(asked: &WitnessSession, word: u64, name: &mut JgValue) -> i32
    ensures means { specs.TellsMeaning asked.now word name.old name.new result }
    ensures numbers { result ≢ errors.closed }
{
    write_name(asked.witness.meaning(word), name)
}

/// Writes the name of the reference that the word means, and answers 1; or 0 where it means nothing.
#[unsafe(no_mangle)]
pub extern "C" fn jg_witness_meaning(witness: &mut Handle, word: u64, name: &mut JgValue) -> i32
    ensures closed { (result ≡ errors.closed) ↔ (witness_of witness.old.value ≡ None) }
    ensures means { Of (witness_of witness.old.value) (λ a. specs.TellsMeaning a word name.old name.new result) }
    ensures kept { result ≡ errors.closed → name.new ≡ name.old }
    ensures same { witness.new.value ≡ witness.old.value }
{
    match witness.witness() {
        Some(asked) => mean(asked, word, name),
        None => CLOSED,
    }
}

fn name_last(asked: &WitnessSession, word: u64, name: &mut JgValue) -> i32
    ensures newest { specs.TellsNewest asked.now word name.old name.new result }
    ensures numbers { result ≢ errors.closed }
{
    write_name(asked.witness.last(word), name)
}

/// Writes the newest name that the word was handed out for, in being or not, and answers 1; or 0 where it isn't kept.
#[unsafe(no_mangle)]
pub extern "C" fn jg_witness_last(witness: &mut Handle, word: u64, name: &mut JgValue) -> i32
    ensures closed { (result ≡ errors.closed) ↔ (witness_of witness.old.value ≡ None) }
    ensures newest { Of (witness_of witness.old.value) (λ a. specs.TellsNewest a word name.old name.new result) }
    ensures kept { result ≡ errors.closed → name.new ≡ name.old }
    ensures same { witness.new.value ≡ witness.old.value }
{
    match witness.witness() {
        Some(asked) => name_last(asked, word, name),
        None => CLOSED,
    }
}
