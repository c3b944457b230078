//! Tickets as numbers.

ghost use Rattle.std.specs.Prelude.{◌≡◌, Some, false, nat_lt, true};
ghost use Rattle.jg_c.specs.Tickets as tickets;

use crate::fact::{JgFact, fact_of, family_of};
use crate::fact_numbers::{of_fact, of_family, of_kept};
use crate::value::{kind_of, number_of, of_reference, thread_of};
use jg_core::{Expected, Ticket};

// What comes of a call, as `Expected` says it; `_BY` where a fact tells it.

const DONE: u32 = 1;

const DONE_BY: u32 = 2;

const UNDONE: u32 = 3;

const QUIET: u32 = 4;

const QUIET_BY: u32 = 5;

const ATTACHED: u32 = 6;

const ATTACHED_BY: u32 = 7;

const HANDED: u32 = 8;

const LENT: u32 = 9;

const LEFT: u32 = 10;

const POPPED: u32 = 11;

const NEVER: u32 = 12;

const NOTHING: u32 = 13;

const THROWN: u32 = 14;

const IF_ENDED: u32 = 15;

const IF_ENDED_BY: u32 = 16;

/// By so much greater is the number of what comes of a call that was told already.
const TOLD: u32 = 32;

/// A ticket as C keeps it until the machine has answered. C reads and changes nothing in it. It is `jg_ticket` in jg.h.
#[repr(C)]
#[derive(Clone, Copy)]
pub struct JgTicket {
    /// What comes of the call, and whether it was told already.
    pub expected: u32,
    /// The thread that asked.
    pub thread: u32,
    /// What that is of.
    pub fact: JgFact,
}

/// What comes of a call, by its number and what it is of.
fn expected_of(number: u32, fact: &JgFact) -> Option<Expected>
    ensures { result ≡ tickets.expected_of number fact.now }
{
    match number {
        DONE => Some(Expected::Done(None)),
        DONE_BY => Some(Expected::Done(Some(fact_of(fact)?))),
        UNDONE => Some(Expected::Undone),
        QUIET => Some(Expected::Quiet(None)),
        QUIET_BY => Some(Expected::Quiet(Some(fact_of(fact)?))),
        ATTACHED => Some(Expected::Attached(None)),
        ATTACHED_BY => Some(Expected::Attached(Some(fact_of(fact)?))),
        HANDED => Some(Expected::Handed(kind_of(fact.first)?)),
        LENT => Some(Expected::Lent {
            family: family_of(fact.first)?,
            object: fact.object.object()?,
            via: fact.name.reference()?,
        }),
        LEFT => Some(Expected::Left),
        POPPED => Some(Expected::Popped),
        NEVER => Some(Expected::Never),
        NOTHING => Some(Expected::Nothing),
        THROWN => Some(Expected::Thrown),
        IF_ENDED => Some(Expected::IfEnded(None)),
        IF_ENDED_BY => Some(Expected::IfEnded(Some(fact_of(fact)?))),
        _ => None,
    }
}

/// What comes of a call, whether it was told or not.
fn unmarked(number: u32) -> u32
    ensures { result ≡ tickets.unmarked number }
{
    if number < TOLD { number } else { number - TOLD }
}

/// The ticket that the numbers state, if they state one, whether its call was told or not.
pub(crate) fn ticket_of(ticket: &JgTicket) -> Option<Ticket>
    ensures { result ≡ tickets.ticket_of ticket.now }
{
    Some(Ticket {
        tid: thread_of(ticket.thread)?,
        expected: expected_of(unmarked(ticket.expected), &ticket.fact)?,
    })
}

/// The same, of a call that wasn't told yet.
pub(crate) fn untold_ticket_of(ticket: &JgTicket) -> Option<Ticket>
    ensures { result ≡ tickets.untold_ticket_of ticket.now }
{
    if ticket.expected < TOLD {
        ticket_of(ticket)
    } else {
        None
    }
}

/// Marks the ticket as one whose call was told.
pub(crate) fn mark_told(ticket: &mut JgTicket)
    ensures { tickets.IsMarked ticket.old ticket.new }
{
    if ticket.expected < TOLD {
        ticket.expected += TOLD;
    }
}

/// The number of what comes of a call, and the numbers of what that is of.
#[inline(always)]
fn of_expected(expected: Expected) -> (u32, JgFact)
    ensures back { tickets.expected_of result.0 result.1 ≡ Some expected }
    ensures untold { nat_lt result.0 tickets.told_mark ≡ true }
{
    match expected {
        Expected::Done(None) => (DONE, JgFact::NOTHING),
        Expected::Done(Some(fact)) => (DONE_BY, of_fact(fact)),
        Expected::Undone => (UNDONE, JgFact::NOTHING),
        Expected::Quiet(None) => (QUIET, JgFact::NOTHING),
        Expected::Quiet(Some(fact)) => (QUIET_BY, of_fact(fact)),
        Expected::Attached(None) => (ATTACHED, JgFact::NOTHING),
        Expected::Attached(Some(fact)) => (ATTACHED_BY, of_fact(fact)),
        Expected::Handed(kind) => {
            let fact = JgFact {
                first: number_of(kind),
                ..JgFact::NOTHING
            };
            (HANDED, fact)
        }
        Expected::Lent {
            family,
            object,
            via,
        } => {
            let fact = JgFact {
                name: of_reference(via),
                object: of_kept(object),
                first: of_family(family),
                ..JgFact::NOTHING
            };
            (LENT, fact)
        }
        Expected::Left => (LEFT, JgFact::NOTHING),
        Expected::Popped => (POPPED, JgFact::NOTHING),
        Expected::Never => (NEVER, JgFact::NOTHING),
        Expected::Nothing => (NOTHING, JgFact::NOTHING),
        Expected::Thrown => (THROWN, JgFact::NOTHING),
        Expected::IfEnded(None) => (IF_ENDED, JgFact::NOTHING),
        Expected::IfEnded(Some(fact)) => (IF_ENDED_BY, of_fact(fact)),
    }
}

/// The numbers of a ticket, whose call wasn't told yet.
#[inline(always)]
pub(crate) fn of_ticket(ticket: Ticket) -> JgTicket
    ensures ticket { tickets.ticket_of result ≡ Some ticket }
    ensures untold { tickets.is_told result ≡ false }
{
    let (expected, fact) = of_expected(ticket.expected);
    JgTicket {
        expected,
        thread: u32::from(ticket.tid.0),
        fact,
    }
}
