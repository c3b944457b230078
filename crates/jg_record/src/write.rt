//! An event of a record, written.

ghost use Rattle.std.specs.Prelude.{◌≡◌, ◌≢◌, IfErr, OnOk, string_bytes, true};
ghost use Rattle.jg_record.specs.Texts as texts;
ghost use Rattle.jg_record.specs.Texts.{FitsEvent, appended, event_words};
ghost use Rattle.jg_record.specs.declared.unwritten.Unwritten.TheVariants.{NoMemory};
ghost use Rattle.jg_record.specs.Writing as writing;
ghost use Rattle.jg_record.specs.Writing.{AppendsText, IsUnwritten, IsWritten};

use crate::event::{Event, Lists};
use crate::unwritten::Unwritten;
use crate::write_fact::{is_told, push_bounds, push_fact, push_gone, teller_of};
use crate::write_question::{push_question, suits_row};
use jg_policy::Setup;
use jg_text::{MAX_LINE, push_tid};
use jg_words::Tid;
use std::alloc::AllocError;

/// The thread that stands first in the event's text.
fn teller(by: Tid, event: &Event) -> Tid
    ensures { result ≡ writing.teller by event.now }
{
    match event {
        Event::Question { tid, .. } => *tid,
        Event::Fact(fact) => teller_of(by, fact),
        Event::Gone => by,
        Event::Bounds(_) => by,
    }
}

/// Whether the event has a text.
fn has_text(setup: &Setup, event: &Event, lists: &Lists) -> bool
    ensures { result ≡ texts.has_text setup.now event.now lists.now.arguments.items lists.now.objects.items }
{
    match event {
        Event::Question { function, .. } => suits_row(*function, lists.arguments.as_slice()),
        Event::Fact(fact) => is_told(setup, fact),
        Event::Gone => !lists.objects.is_empty(),
        Event::Bounds(_) => true,
    }
}

/// Writes the words of the event, each behind a space.
fn push_words(
    out: &mut String,
    setup: &Setup,
    event: &Event,
    lists: &Lists,
) -> Result<(), AllocError>
    ensures written { OnOk result (string_bytes out.new ≡ appended (string_bytes out.old)
        (event_words setup.now event.now lists.now.arguments.items lists.now.objects.items)) }
    ensures fits { OnOk result (FitsEvent event.now lists.now.arguments.items lists.now.objects.items) }
{
    match event {
        Event::Question { env, function, .. } => {
            push_question(out, *env, *function, lists.arguments.as_slice())
        }
        Event::Fact(fact) => push_fact(out, setup, fact),
        Event::Gone => push_gone(out, lists.objects.as_slice()),
        Event::Bounds(bounds) => push_bounds(out, bounds),
    }
}

/// Writes the text of an event that has one.
fn push_text(
    out: &mut String,
    setup: &Setup,
    by: Tid,
    event: &Event,
    lists: &Lists,
) -> Result<(), AllocError>
    requires { texts.has_text setup.now event.now lists.now.arguments.items lists.now.objects.items ≡ true }
    ensures { OnOk result (AppendsText setup.now by event.now lists.now.arguments.items lists.now.objects.items
        (string_bytes out.old) (string_bytes out.new)) }
{
    push_tid(out, teller(by, event))?;
    push_words(out, setup, event, lists)?;
    Ok(())
}

/// Writes the text of an event behind what the string holds, as [`read_event`](crate::read_event) reads it: no answer,
/// no note and no line feed. The operands of a question and the objects that are gone are those of the lists. A name is
/// written as `?`. What is no thread's own is told by the thread that is handed in. At `NoText` and `TooLong` the
/// string is as it was; at `NoMemory` a part of the text may stand in it.
pub fn push_event(
    out: &mut String,
    setup: &Setup,
    by: Tid,
    event: &Event,
    lists: &Lists,
) -> Result<(), Unwritten>
    ensures written { OnOk result (IsWritten setup.now by event.now lists.now.arguments.items lists.now.objects.items
        (string_bytes out.old) (string_bytes out.new)) }
    ensures unwritten { IfErr result (IsUnwritten setup.now by event.now lists.now.arguments.items
        lists.now.objects.items) }
    ensures kept { IfErr result (λ why. why ≢ NoMemory → string_bytes out.new ≡ string_bytes out.old) }
{
    if !has_text(setup, event, lists) {
        return Err(Unwritten::NoText);
    }
    let start = out.as_str().len();
    let Ok(()) = push_text(out, setup, by, event, lists) else {
        return Err(Unwritten::NoMemory);
    };
    if out.as_str().len() - start > MAX_LINE {
        out.truncate(start);
        return Err(Unwritten::TooLong);
    }
    Ok(())
}
