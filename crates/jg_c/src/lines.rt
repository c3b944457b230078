//! Lines of a record.

ghost use Rattle.std.specs.Prelude.{◌≡◌, ◌≢◌, ◌↔◌, ◌⊎◌, None, Some, [], IfOk};
ghost use Rattle.jg_record.specs.declared.event.Event.TheVariants.{Bounds as BoundsOf, Question};
ghost use Rattle.jg_c.specs.Errors as errors;
ghost use Rattle.jg_c.specs.Facts as facts;
ghost use Rattle.jg_c.specs.Lines as specs;
ghost use Rattle.jg_c.specs.Lines.{FactLine, IsLine, QuestionLine};
ghost use Rattle.jg_c.specs.Questions.{question_of};
ghost use Rattle.jg_c.specs.Sessions.{Of, core_of};
ghost use Rattle.jg_c.specs.Values as values;

use crate::copying::copy_out;
use crate::fact::{JgFact, fact_of};
use crate::handle::Handle;
use crate::numbers::{BAD_FACT, CLOSED, NO_MEMORY, NO_TEXT};
use crate::question::{Head, read_question};
use crate::session::CoreSession;
use crate::value::{JgValue, thread_of};
use jg_core::Fact;
use jg_judge::Bounds;
use jg_policy::Setup;
use jg_record::{Event, Lists, Unwritten, push_event};
use jg_words::{ObjId, Tid};
use std::alloc::{AllocError, Global};

/// Writes the line of the event, or answers why it has none.
pub(crate) fn write_line(
    alloc: Global,
    setup: &Setup,
    by: Tid,
    event: &Event,
    lists: &Lists,
    line: &mut [u8],
) -> i64
    ensures is { result ≢ errors.no_memory → IsLine setup.now by event.now lists.now.arguments.items
        lists.now.objects.items line.old line.new result }
    ensures kept { result ≡ errors.no_memory → line.new ≡ line.old }
    ensures numbers { result ≢ errors.closed }
{
    let mut text = String::new(alloc);
    match push_event(&mut text, setup, by, event, lists) {
        Ok(()) => copy_out(text.as_bytes(), line),
        Err(Unwritten::NoMemory) => i64::from(NO_MEMORY),
        Err(_) => i64::from(NO_TEXT),
    }
}

/// Writes the line of a question that was read. The lists hold its operands, and nothing that is gone.
fn write_question(alloc: Global, setup: &Setup, head: Head, lists: &Lists, line: &mut [u8]) -> i64
    requires { lists.now.objects.items ≡ [] }
    ensures is { result ≢ errors.no_memory → IsLine setup.now head.tid (Question head.tid head.env head.function)
        lists.now.arguments.items [] line.old line.new result }
    ensures kept { result ≡ errors.no_memory → line.new ≡ line.old }
    ensures numbers { result ≢ errors.closed }
{
    let event = Event::Question {
        tid: head.tid,
        env: head.env,
        function: head.function,
    };
    write_line(alloc, setup, head.tid, &event, lists, line)
}

fn asked_line(
    alloc: Global,
    setup: &Setup,
    lists: &mut Lists,
    thread: u32,
    env: &JgValue,
    function: u32,
    operands: &[JgValue],
    line: &mut [u8],
) -> i64
    ensures is { result ≢ errors.no_memory → QuestionLine setup.now
        (question_of thread env.now function operands.now) line.old line.new result }
    ensures kept { result ≡ errors.no_memory → line.new ≡ line.old }
    ensures numbers { result ≢ errors.closed }
{
    lists.objects.clear();
    match read_question(thread, env, function, operands, &mut lists.arguments) {
        Ok(head) => write_question(alloc, setup, head, lists, line),
        Err(why) => i64::from(why),
    }
}

fn question_line(
    alloc: Global,
    asked: &mut CoreSession,
    thread: u32,
    env: &JgValue,
    function: u32,
    operands: &[JgValue],
    line: &mut [u8],
) -> i64
    ensures is { result ≢ errors.no_memory → QuestionLine asked.old.core.setup
        (question_of thread env.now function operands.now) line.old line.new result }
    ensures kept { result ≡ errors.no_memory → line.new ≡ line.old }
    ensures numbers { result ≢ errors.closed }
    ensures same { asked.new ≡ asked.old }
{
    let (setup, room) = (asked.core.setup(), &mut asked.room);
    asked_line(alloc, setup, room, thread, env, function, operands, line)
}

/// Writes the line of a question, without line feed, and answers how long it is.
#[unsafe(no_mangle)]
pub extern "C" fn jg_question_line(
    alloc: Global,
    core: &mut Handle,
    thread: u32,
    env: &JgValue,
    function: u32,
    operands: &[JgValue],
    line: &mut [u8],
) -> i64
    ensures closed { (result ≡ errors.closed) ↔ (core_of core.old.value ≡ None) }
    ensures is { result ≢ errors.no_memory → Of (core_of core.old.value)
        (λ a. QuestionLine a.core.setup (question_of thread env.now function operands.now) line.old line.new result) }
    ensures kept { (result ≡ errors.no_memory) ⊎ (result ≡ errors.closed) → line.new ≡ line.old }
    ensures same { core.new.value ≡ core.old.value }
{
    match core.core() {
        Some(asked) => question_line(alloc, asked, thread, env, function, operands, line),
        None => i64::from(CLOSED),
    }
}

/// The event of a fact; the object that is gone stands in the list, if one is.
fn event_of(fact: Fact, objects: &mut Vec<ObjId>) -> Result<Event, AllocError>
    ensures { IfOk result (λ event. (event ≡ specs.event_of fact) × (objects.new.items ≡ specs.gone_in fact)) }
{
    objects.clear();
    match fact {
        Fact::Gone(object) => {
            objects.push(object)?;
            Ok(Event::Gone)
        }
        _ => Ok(Event::Fact(fact)),
    }
}

fn told_line(
    alloc: Global,
    setup: &Setup,
    lists: &mut Lists,
    by: Tid,
    fact: Fact,
    line: &mut [u8],
) -> i64
    ensures is { result ≢ errors.no_memory → FactLine setup.now (Some by) (Some fact) line.old line.new result }
    ensures kept { result ≡ errors.no_memory → line.new ≡ line.old }
    ensures numbers { result ≢ errors.closed }
{
    lists.arguments.clear();
    match event_of(fact, &mut lists.objects) {
        Ok(event) => write_line(alloc, setup, by, &event, lists, line),
        Err(_) => i64::from(NO_MEMORY),
    }
}

fn stated_line(
    alloc: Global,
    setup: &Setup,
    lists: &mut Lists,
    fact: &JgFact,
    line: &mut [u8],
) -> i64
    ensures is { result ≢ errors.no_memory → FactLine setup.now (values.thread_of fact.now.thread)
        (facts.fact_of fact.now) line.old line.new result }
    ensures kept { result ≡ errors.no_memory → line.new ≡ line.old }
    ensures numbers { result ≢ errors.closed }
{
    let Some(by) = thread_of(fact.thread) else {
        return i64::from(BAD_FACT);
    };
    match fact_of(fact) {
        Some(fact) => told_line(alloc, setup, lists, by, fact, line),
        None => i64::from(BAD_FACT),
    }
}

fn fact_line(alloc: Global, asked: &mut CoreSession, fact: &JgFact, line: &mut [u8]) -> i64
    ensures is { result ≢ errors.no_memory → FactLine asked.old.core.setup (values.thread_of fact.now.thread)
        (facts.fact_of fact.now) line.old line.new result }
    ensures kept { result ≡ errors.no_memory → line.new ≡ line.old }
    ensures numbers { result ≢ errors.closed }
    ensures same { asked.new ≡ asked.old }
{
    let (setup, room) = (asked.core.setup(), &mut asked.room);
    stated_line(alloc, setup, room, fact, line)
}

/// Writes the line of a fact, without line feed, and answers how long it is. Of an object that is gone it is the line
/// of that object alone.
#[unsafe(no_mangle)]
pub extern "C" fn jg_fact_line(
    alloc: Global,
    core: &mut Handle,
    fact: &JgFact,
    line: &mut [u8],
) -> i64
    ensures closed { (result ≡ errors.closed) ↔ (core_of core.old.value ≡ None) }
    ensures is { result ≢ errors.no_memory → Of (core_of core.old.value)
        (λ a. FactLine a.core.setup (values.thread_of fact.now.thread) (facts.fact_of fact.now) line.old line.new
        result) }
    ensures kept { (result ≡ errors.no_memory) ⊎ (result ≡ errors.closed) → line.new ≡ line.old }
    ensures same { core.new.value ≡ core.old.value }
{
    match core.core() {
        Some(asked) => fact_line(alloc, asked, fact, line),
        None => i64::from(CLOSED),
    }
}

fn write_bounds(
    alloc: Global,
    setup: &Setup,
    lists: &mut Lists,
    bounds: Bounds,
    line: &mut [u8],
) -> i64
    ensures is { result ≢ errors.no_memory → IsLine setup.now (record { 0 = 0 }) (BoundsOf bounds) [] []
        line.old line.new result }
    ensures kept { result ≡ errors.no_memory → line.new ≡ line.old }
    ensures numbers { result ≢ errors.closed }
{
    lists.arguments.clear();
    lists.objects.clear();
    write_line(alloc, setup, Tid(0), &Event::Bounds(bounds), lists, line)
}

fn bounds_line(alloc: Global, asked: &mut CoreSession, line: &mut [u8]) -> i64
    ensures is { result ≢ errors.no_memory → IsLine asked.old.core.setup (record { 0 = 0 })
        (BoundsOf asked.old.bounds) [] [] line.old line.new result }
    ensures kept { result ≡ errors.no_memory → line.new ≡ line.old }
    ensures numbers { result ≢ errors.closed }
    ensures same { asked.new ≡ asked.old }
{
    let (setup, room) = (asked.core.setup(), &mut asked.room);
    write_bounds(alloc, setup, room, asked.bounds, line)
}

/// Writes the line that tells the bounds by which the core judges, without line feed, and answers how long it is.
#[unsafe(no_mangle)]
pub extern "C" fn jg_bounds_line(alloc: Global, core: &mut Handle, line: &mut [u8]) -> i64
    ensures closed { (result ≡ errors.closed) ↔ (core_of core.old.value ≡ None) }
    ensures is { result ≢ errors.no_memory → Of (core_of core.old.value)
        (λ a. IsLine a.core.setup (record { 0 = 0 }) (BoundsOf a.bounds) [] [] line.old line.new result) }
    ensures kept { (result ≡ errors.no_memory) ⊎ (result ≡ errors.closed) → line.new ≡ line.old }
    ensures same { core.new.value ≡ core.old.value }
{
    match core.core() {
        Some(asked) => bounds_line(alloc, asked, line),
        None => i64::from(CLOSED),
    }
}
