//! What a question is answered, as numbers.

ghost use Rattle.std.specs.Prelude.{◌≡◌, ◌≢◌, false};
ghost use Rattle.jg_core.specs.Asking.{is_passed};
ghost use Rattle.jg_c.specs.Errors as errors;
ghost use Rattle.jg_c.specs.Questions.{IsAnswered, counted};
ghost use Rattle.jg_c.specs.Tickets.{is_told};

use crate::error::DONE;
use crate::numbers::{MISFIT, NO_FUNCTION};
use crate::ticket::{JgTicket, of_ticket};
use jg_core::Answer;

/// What a question is answered. It is `jg_verdict` in jg.h.
#[repr(C)]
#[derive(Clone, Copy)]
pub struct JgVerdict {
    /// 0 where it breaks no rule, else the number of the first that it breaks.
    pub rule: u32,
    /// The operand that breaks the rule, counted from 1, or 0 where none does.
    pub operand: u32,
    /// What comes of the call once the machine made it. Of a call that was denied it is what comes of it where the
    /// machine makes it all the same.
    pub ticket: JgTicket,
}

/// The place of an operand, counted from 1; 0 for none.
fn counted(place: Option<usize>) -> u32
    ensures { result ≡ counted place }
{
    match place {
        None => 0,
        Some(place) => match u32::try_from(place) {
            Ok(place) if place < u32::MAX => place + 1,
            _ => 0,
        },
    }
}

/// Writes the answer, where a rule was asked for, and answers its number.
#[inline(always)]
pub(crate) fn write_answer(answer: Answer, verdict: &mut JgVerdict) -> i32
    ensures is { IsAnswered answer verdict.new result }
    ensures kept { result ≢ errors.done → verdict.new ≡ verdict.old }
    ensures passed { result ≢ errors.done → is_passed answer ≡ false }
    ensures untold { result ≡ errors.done → is_told verdict.new.ticket ≡ false }
    ensures numbers { (result ≢ errors.closed) × (result ≢ errors.no_memory) }
{
    match answer {
        Answer::Passed(ticket) => {
            *verdict = JgVerdict {
                rule: 0,
                operand: 0,
                ticket: of_ticket(ticket),
            };
            DONE
        }
        Answer::Denied {
            rule,
            operand,
            ticket,
        } => {
            *verdict = JgVerdict {
                rule: u32::from(rule.number()),
                operand: counted(operand),
                ticket: of_ticket(ticket),
            };
            DONE
        }
        Answer::NoFunction => NO_FUNCTION,
        Answer::Misfit => MISFIT,
    }
}
