//! The lines of events.

ghost use Rattle.std.specs.Prelude.{◌≡◌, ◌++◌, ◌∷◌, ℕ, List, [], OnOk, string_bytes};
ghost use Rattle.jg_core.specs.declared.fact.Fact.{Fact as FactOf};
ghost use Rattle.jg_core.specs.declared.fact.Fact.TheVariants.{Gone};
ghost use Rattle.jg_journal_record.specs.Lines.{AddsFacts, AddsLine, IsTelling};

use jg_core::Fact;
use jg_policy::Setup;
use jg_record::{Event, Lists, Unwritten, push_event};
use jg_words::{ObjId, Tid};

/// The most objects that stand in one line, so that it isn't too long: each takes 22 bytes at the most.
const MAX_GONE: usize = 2000;

/// Writes the line of an event, with its line feed.
pub(crate) fn push_line(
    out: &mut String,
    setup: &Setup,
    by: Tid,
    event: &Event,
    lists: &Lists,
) -> Result<(), Unwritten>
    ensures { OnOk result (AddsLine setup.now (record {
      by = by;
      event = event.now;
      arguments = lists.now.arguments.items;
      gone = lists.now.objects.items;
    }) (string_bytes out.old) (string_bytes out.new)) }
{
    push_event(out, setup, by, event, lists)?;
    match out.push_str("\n") {
        Ok(()) => Ok(()),
        Err(_) => Err(Unwritten::NoMemory),
    }
}

/// Writes the line of the objects that are listed as gone, if there are any. None are listed then.
fn flush_gone(out: &mut String, setup: &Setup, by: Tid, lists: &mut Lists) -> Result<(), Unwritten>
    ensures told { OnOk result ((start : List ℕ) (told : List FactOf)
        → IsTelling setup.now by start told lists.old.objects.items (string_bytes out.old)
        → IsTelling setup.now by start told [] (string_bytes out.new)) }
    ensures listed { OnOk result (lists.new.objects.items ≡ []) }
{
    if lists.objects.is_empty() {
        return Ok(());
    }
    push_line(out, setup, by, &Event::Gone, lists)?;
    lists.objects.clear();
    Ok(())
}

/// Lists the object as gone, and writes what is listed where it is enough for a line.
fn push_gone(
    out: &mut String,
    setup: &Setup,
    by: Tid,
    object: ObjId,
    lists: &mut Lists,
) -> Result<(), Unwritten>
    ensures { OnOk result ((start : List ℕ) (told : List FactOf)
        → IsTelling setup.now by start told lists.old.objects.items (string_bytes out.old)
        → IsTelling setup.now by start (told ++ Gone object ∷ []) lists.new.objects.items (string_bytes out.new)) }
{
    if lists.objects.push(object).is_err() {
        return Err(Unwritten::NoMemory);
    }
    if lists.objects.len() < MAX_GONE {
        return Ok(());
    }
    flush_gone(out, setup, by, lists)?;
    Ok(())
}

/// Writes the line of the fact; one that an object is gone is listed first.
fn push_fact(
    out: &mut String,
    setup: &Setup,
    by: Tid,
    fact: Fact,
    lists: &mut Lists,
) -> Result<(), Unwritten>
    ensures { OnOk result ((start : List ℕ) (told : List FactOf)
        → IsTelling setup.now by start told lists.old.objects.items (string_bytes out.old)
        → IsTelling setup.now by start (told ++ fact ∷ []) lists.new.objects.items (string_bytes out.new)) }
{
    match fact {
        Fact::Gone(object) => {
            push_gone(out, setup, by, object, lists)?;
            Ok(())
        }
        _ => {
            flush_gone(out, setup, by, lists)?;
            push_line(out, setup, by, &Event::Fact(fact), lists)?;
            Ok(())
        }
    }
}

/// Writes the lines of the facts: objects that go one after the other stand in one.
pub(crate) fn push_facts(
    out: &mut String,
    setup: &Setup,
    by: Tid,
    facts: &[Fact],
    lists: &mut Lists,
) -> Result<(), Unwritten>
    ensures { OnOk result (AddsFacts setup.now by facts.now (string_bytes out.old) (string_bytes out.new)) }
{
    lists.objects.clear();
    for fact in facts {
        push_fact(out, setup, by, *fact, lists)?;
    }
    flush_gone(out, setup, by, lists)?;
    Ok(())
}
