//! Advice on what happened by a line.

ghost use Rattle.std.specs.Prelude.{◌≡◌, ◌==◌, ◌∷◌, [], if◌then◌else◌, List, Some};
ghost use Rattle.jg_core.specs.Facts.{parts_of};
ghost use Rattle.jg_core.specs.Kernel.{CoreStands};
ghost use Rattle.jg_advice.specs.Functions.{find_class};
ghost use Rattle.jg_advice.specs.Moments.{Called, facts_of, Moment, Told as WasTold};
ghost use Rattle.jg_advice.specs.Told.{LogStands};
ghost use Rattle.jg_watch.specs.Logged.{advising_of, LogStandsIf, with_moment};
ghost use Rattle.jg_watch.specs.Lines.{name_in, what_of};

use crate::event::Replied;
use jg_advice::{AdviceLog, is_find_class};
use jg_core::{Core, Fact};
use jg_judge::Argument;
use jg_record::{Event, Lists, Reply};
use jg_text::{cut, next_field};
use jg_words::Tid;
use std::alloc::Allocator;

/// The fourth field of a line, in which FindClass has its name.
fn name_in(line: &[u8]) -> &[u8]
    ensures { result.now ≡ name_in line.now }
{
    let (_, rest) = cut(line);
    let Some((_, rest)) = next_field(rest) else {
        return &[];
    };
    let Some((_, rest)) = next_field(rest) else {
        return &[];
    };
    match next_field(rest) {
        None => &[],
        Some((name, _)) => name,
    }
}

/// The name that the function is called with, where advice looks at it.
fn name_of(function: u16, text: &[u8]) -> &[u8]
    ensures { result.now ≡ (if function == find_class then name_in text.now else []) }
{
    if is_find_class(function) {
        name_in(text)
    } else {
        &[]
    }
}

/// A question passed on the line.
fn note_question<A: Allocator + Clone>(
    log: &mut AdviceLog,
    core: &Core<A>,
    line: u64,
    tid: Tid,
    function: u16,
    arguments: &[Argument],
    text: &[u8],
)
    ensures logs { (h : List Moment) → LogStands log.old h → CoreStands core.now (facts_of h)
        → LogStands log.new (record {
          line = line;
          what = Called core.now.setup tid function arguments.now
              (if function == find_class then name_in text.now else []);
          parts = parts_of (facts_of h);
        } ∷ h) }
    ensures most { log.new.adviser.most ≡ log.old.adviser.most }
    ensures all { log.new.noting.all ≡ log.old.noting.all }
{
    let name = name_of(function, text);
    log.called(&core.view(), line, tid, function, arguments, name);
}

/// A fact was told on the line, which the core took.
fn note_fact<A: Allocator + Clone>(log: &mut AdviceLog, core: &Core<A>, line: u64, fact: Fact)
    ensures logs { (h : List Moment) → LogStands log.old h → CoreStands core.now (fact ∷ facts_of h)
        → LogStands log.new (record {
          line = line;
          what = WasTold fact;
          parts = parts_of (fact ∷ facts_of h);
        } ∷ h) }
    ensures most { log.new.adviser.most ≡ log.old.adviser.most }
    ensures all { log.new.noting.all ≡ log.old.noting.all }
{
    log.told(&core.view(), line, fact);
}

/// Tells the log what happened by the event of line number `line`, which was answered so. The core is as it was
/// then.
fn note_event<A: Allocator + Clone>(
    log: &mut AdviceLog,
    core: &Core<A>,
    line: u64,
    event: Event,
    reply: Reply,
    lists: &Lists,
    text: &[u8],
)
    ensures logs { (h : List Moment) → LogStands log.old h
        → CoreStands core.now (facts_of (with_moment line (what_of core.now.setup text.now (Some event) reply
        lists.now.arguments.items lists.now.objects.items) h))
        → LogStands log.new (with_moment line (what_of core.now.setup text.now (Some event) reply
        lists.now.arguments.items lists.now.objects.items) h) }
    ensures most { log.new.adviser.most ≡ log.old.adviser.most }
    ensures all { log.new.noting.all ≡ log.old.noting.all }
{
    match event {
        Event::Question { tid, function, .. } => match reply {
            Reply::Passed => {
                note_question(log, core, line, tid, function, &lists.arguments, text);
            }
            _ => {}
        },
        Event::Fact(fact) => note_fact(log, core, line, fact),
        Event::Gone => log.went(line, &lists.objects),
        Event::Bounds(_) => {}
    }
}

/// Tells it what happened by line number `line`, if there is a log and something happened.
pub fn advise<A: Allocator + Clone>(
    log: &mut Option<AdviceLog>,
    core: &Core<A>,
    line: u64,
    replied: Replied,
    lists: &Lists,
    text: &[u8],
)
    ensures logs { (h : List Moment) → LogStandsIf log.old h
        → CoreStands core.now (facts_of (with_moment line (what_of core.now.setup text.now replied.event replied.reply
        lists.now.arguments.items lists.now.objects.items) h))
        → LogStandsIf log.new (with_moment line (what_of core.now.setup text.now replied.event replied.reply
        lists.now.arguments.items lists.now.objects.items) h) }
    ensures advising { advising_of log.new ≡ advising_of log.old }
{
    let Some(log) = log else {
        return;
    };
    match replied.event {
        None => {}
        Some(event) => note_event(log, core, line, event, replied.reply, lists, text),
    }
}
