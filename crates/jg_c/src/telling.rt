//! A core is told.

ghost use Rattle.std.specs.Prelude.{◌≡◌, ◌≢◌, ◌↔◌, List, None, Some, pos};
ghost use Rattle.jg_core.specs.Expected.{told as told_of};
ghost use Rattle.jg_core.specs.declared.fact.Fact.{Fact};
ghost use Rattle.jg_core.specs.Facts.{parts_of};
ghost use Rattle.jg_core.specs.Kernel.{CoreStands, Stayed};
ghost use Rattle.jg_c.specs.Errors as errors;
ghost use Rattle.jg_c.specs.Facts as facts;
ghost use Rattle.jg_c.specs.Given as givens;
ghost use Rattle.jg_c.specs.Sessions.{Of, Steps, core_of};
ghost use Rattle.jg_c.specs.Telling as specs;
ghost use Rattle.jg_c.specs.Tickets as tickets;

use crate::error::{DONE, of_untold};
use crate::fact::{JgFact, fact_of, handed, lost};
use crate::fact_numbers::of_fact;
use crate::given::{of_given, says_of};
use crate::handle::Handle;
use crate::numbers::{BAD_FACT, BAD_TICKET, BAD_VALUE, CLOSED, GOT, IMPOSSIBLE, LOST};
use crate::session::CoreSession;
use crate::ticket::{JgTicket, mark_told, ticket_of, untold_ticket_of};
use crate::value::JgValue;
use jg_core::{Core, Expected, Fact, Says, Ticket, told};
use jg_judge::is_kind;
use jg_rows::ObjectKind;

/// What `jg_told` answers where it wrote a fact.
const WRITTEN: i32 = 1;

#[inline(always)]
fn tell_fact(asked: &mut CoreSession, fact: Fact, given: &mut JgValue) -> i32
    ensures tells { specs.TellsFact asked.old asked.new fact given.new result }
    ensures kept { result ≢ errors.done → given.new ≡ given.old }
    ensures numbers { result ≢ errors.closed }
    ensures stayed { result ≢ errors.done → Stayed asked.old.core asked.new.core }
    ensures bounds { asked.new.bounds ≡ asked.old.bounds }
{
    match asked.core.tell(fact) {
        Ok(out) => {
            *given = of_given(out);
            DONE
        }
        Err(why) => of_untold(why),
    }
}

/// Tells the fact, where the numbers stated one.
#[inline(always)]
fn tell_stated(asked: &mut CoreSession, fact: Option<Fact>, given: &mut JgValue) -> i32
    ensures tells { specs.Tells asked.old asked.new fact given.new result }
    ensures kept { result ≢ errors.done → given.new ≡ given.old }
    ensures numbers { result ≢ errors.closed }
    ensures stayed { result ≢ errors.done → Stayed asked.old.core asked.new.core }
    ensures bounds { asked.new.bounds ≡ asked.old.bounds }
{
    match fact {
        Some(fact) => tell_fact(asked, fact, given),
        None => BAD_FACT,
    }
}

/// Tells what the numbers state. What machines tell most often is told at once: its fact isn't built and taken apart.
fn tell_numbers(asked: &mut CoreSession, fact: &JgFact, given: &mut JgValue) -> i32
    ensures tells { specs.Tells asked.old asked.new (facts.fact_of fact.now) given.new result }
    ensures kept { result ≢ errors.done → given.new ≡ given.old }
    ensures numbers { result ≢ errors.closed }
    ensures stayed { result ≢ errors.done → Stayed asked.old.core asked.new.core }
    ensures bounds { asked.new.bounds ≡ asked.old.bounds }
{
    match fact.word {
        GOT => tell_stated(asked, handed(fact), given),
        LOST => tell_stated(asked, lost(fact), given),
        _ => tell_stated(asked, fact_of(fact), given),
    }
}

/// Takes a fact, and writes the name of what it hands out to `given`.
#[unsafe(no_mangle)]
pub extern "C" fn jg_tell(core: &mut Handle, fact: &JgFact, given: &mut JgValue) -> i32
    ensures closed { (result ≡ errors.closed) ↔ (core_of core.old.value ≡ None) }
    ensures tells { Steps (core_of core.old.value) (core_of core.new.value)
        (λ old new. specs.Tells old new (facts.fact_of fact.now) given.new result) }
    ensures kept { result ≢ errors.done → given.new ≡ given.old }
    ensures stayed { result ≢ errors.done → Steps (core_of core.old.value) (core_of core.new.value)
        (λ old new. Stayed old.core new.core) }
    ensures bounds { Steps (core_of core.old.value) (core_of core.new.value) (λ old new. new.bounds ≡ old.bounds) }
    ensures same { core_of core.old.value ≡ None → core.new.value ≡ core.old.value }
{
    match core.core() {
        Some(asked) => tell_numbers(asked, fact, given),
        None => CLOSED,
    }
}

/// Whether a machine may say so: what it threw can be thrown.
pub(crate) fn can_say(core: &Core, says: Says) -> bool
    ensures { (w : List Fact) → CoreStands core.now w → result ≡ specs.can_say core.now.setup (parts_of w) says }
{
    match says {
        Says::Threw(object) => is_kind(&core.view(), ObjectKind::ThrowableObject, object),
        _ => true,
    }
}

#[inline(always)]
fn take_return(asked: &mut CoreSession, ticket: Ticket, says: Says, given: &mut JgValue) -> i32
    ensures returns { specs.Returns asked.old asked.new ticket says given.new result }
    ensures kept { result ≢ errors.done → given.new ≡ given.old }
    ensures numbers { result ≢ errors.closed }
    ensures stayed { result ≢ errors.done → Stayed asked.old.core asked.new.core }
    ensures bounds { asked.new.bounds ≡ asked.old.bounds }
{
    if !can_say(&asked.core, says) {
        return IMPOSSIBLE;
    }
    match asked.core.returned(ticket, says) {
        Ok(out) => {
            *given = of_given(out);
            DONE
        }
        Err(why) => of_untold(why),
    }
}

/// Takes what the ticket's call implies, and marks the ticket.
fn take_told(
    asked: &mut CoreSession,
    ticket: &mut JgTicket,
    stated: Ticket,
    says: Says,
    given: &mut JgValue,
) -> i32
    ensures returns { specs.Returns asked.old asked.new stated says given.new result }
    ensures told { result ≡ errors.done → tickets.IsMarked ticket.old ticket.new }
    ensures untold { result ≢ errors.done → ticket.new ≡ ticket.old }
    ensures kept { result ≢ errors.done → given.new ≡ given.old }
    ensures numbers { result ≢ errors.closed }
    ensures stayed { result ≢ errors.done → Stayed asked.old.core asked.new.core }
    ensures bounds { asked.new.bounds ≡ asked.old.bounds }
{
    let number = take_return(asked, stated, says, given);
    if number == DONE {
        mark_told(ticket);
    }
    number
}

#[inline(always)]
fn did(asked: &mut CoreSession, ticket: &mut JgTicket, says: &JgValue, given: &mut JgValue) -> i32
    ensures did { specs.Did asked.old asked.new (tickets.untold_ticket_of ticket.old) (givens.says_of says.now)
        given.new result }
    ensures told { result ≡ errors.done → tickets.IsMarked ticket.old ticket.new }
    ensures untold { result ≢ errors.done → ticket.new ≡ ticket.old }
    ensures kept { result ≢ errors.done → given.new ≡ given.old }
    ensures numbers { result ≢ errors.closed }
    ensures stayed { result ≢ errors.done → Stayed asked.old.core asked.new.core }
    ensures bounds { asked.new.bounds ≡ asked.old.bounds }
{
    match untold_ticket_of(ticket) {
        Some(stated) => match says_of(says) {
            Some(says) => take_told(asked, ticket, stated, says, given),
            None => BAD_VALUE,
        },
        None => BAD_TICKET,
    }
}

fn told_by(ticket: Ticket, says: Says, fact: &mut JgFact) -> i32
    ensures { specs.WritesTold (told_of ticket.tid ticket.expected says) fact.old fact.new result }
{
    match told(ticket.tid, ticket.expected, says) {
        None => IMPOSSIBLE,
        Some(None) => DONE,
        Some(Some(told)) => {
            *fact = of_fact(told);
            WRITTEN
        }
    }
}

/// Writes the fact that `jg_did` takes of this ticket and of what the machine says, and answers 1; or 0 where it takes
/// none.
#[unsafe(no_mangle)]
pub extern "C" fn jg_told(ticket: &JgTicket, says: &JgValue, fact: &mut JgFact) -> i32
    ensures { specs.IsTold (tickets.ticket_of ticket.now) (givens.says_of says.now) fact.old fact.new result }
{
    match ticket_of(ticket) {
        Some(ticket) => match says_of(says) {
            Some(says) => told_by(ticket, says, fact),
            None => BAD_VALUE,
        },
        None => BAD_TICKET,
    }
}

/// Whether the machine is to be asked, once it made a denied call, if what the ticket's fact is about has ended: 1, and
/// `jg_did` then takes null where it has; else 0.
#[unsafe(no_mangle)]
pub extern "C" fn jg_is_in_doubt(ticket: &JgTicket) -> i32
    ensures { result ≡ specs.in_doubt (tickets.ticket_of ticket.now) }
{
    match ticket_of(ticket) {
        Some(ticket) => match ticket.expected {
            Expected::IfEnded(Some(_)) => 1,
            _ => 0,
        },
        None => BAD_TICKET,
    }
}

/// Whether anything may come of the ticket's call that is to be told, where it threw nothing: 1, or 0 where nothing
/// does.
#[unsafe(no_mangle)]
pub extern "C" fn jg_tells(ticket: &JgTicket) -> i32
    ensures is { result ≡ specs.tells (tickets.ticket_of ticket.now) }
    ensures nothing { result ≡ pos 0 → Of (tickets.ticket_of ticket.now) specs.TellsNothing }
{
    match ticket_of(ticket) {
        Some(ticket) => match ticket.expected {
            Expected::Done(None) | Expected::Quiet(None) | Expected::IfEnded(None) => 0,
            Expected::Nothing | Expected::Thrown => 0,
            _ => 1,
        },
        None => BAD_TICKET,
    }
}

/// Takes what a call implies that returned, by what the machine says of it. The name of what it handed out is written
/// to `given`, and the ticket is marked: it can be told no second time.
#[unsafe(no_mangle)]
pub extern "C" fn jg_did(
    core: &mut Handle,
    ticket: &mut JgTicket,
    says: &JgValue,
    given: &mut JgValue,
) -> i32
    ensures closed { (result ≡ errors.closed) ↔ (core_of core.old.value ≡ None) }
    ensures did { Steps (core_of core.old.value) (core_of core.new.value) (λ old new.
        specs.Did old new (tickets.untold_ticket_of ticket.old) (givens.says_of says.now) given.new result) }
    ensures told { result ≡ errors.done → tickets.IsMarked ticket.old ticket.new }
    ensures untold { result ≢ errors.done → ticket.new ≡ ticket.old }
    ensures kept { result ≢ errors.done → given.new ≡ given.old }
    ensures stayed { result ≢ errors.done → Steps (core_of core.old.value) (core_of core.new.value)
        (λ old new. Stayed old.core new.core) }
    ensures bounds { Steps (core_of core.old.value) (core_of core.new.value) (λ old new. new.bounds ≡ old.bounds) }
    ensures same { core_of core.old.value ≡ None → core.new.value ≡ core.old.value }
{
    match core.core() {
        Some(asked) => did(asked, ticket, says, given),
        None => CLOSED,
    }
}
