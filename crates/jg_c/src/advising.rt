//! An adviser is told what a core was asked and told, and what it advises is taken.

ghost use Rattle.std.specs.Prelude.{◌≡◌, ◌≢◌, ◌↔◌, ◌⊎◌, ◌++◌, is_some, slice_get, false, true, None, OnOk};
ghost use Rattle.jg_rows.specs.Table.{functions};
ghost use Rattle.jg_advice.specs.Moments.{Told};
ghost use Rattle.jg_c.specs.Advising as specs;
ghost use Rattle.jg_c.specs.Errors as errors;
ghost use Rattle.jg_c.specs.Facts as facts;
ghost use Rattle.jg_c.specs.Given.{nothing};
ghost use Rattle.jg_c.specs.Questions.{question_of};
ghost use Rattle.jg_c.specs.Sessions.{Of, Steps, adviser_of, core_of};

use crate::advice::{JgAdvice, of_advice};
use crate::error::DONE;
use crate::fact::{JgFact, fact_of};
use crate::handle::Handle;
use crate::numbers::{BAD_FACT, CLOSED, NO_FUNCTION, NO_MEMORY};
use crate::question::{Head, read_question};
use crate::session::{AdviserSession, CoreSession, Noted};
use crate::value::JgValue;
use jg_advice::Advice;
use jg_core::{Core, Fact};
use jg_judge::Argument;
use jg_rows::row_of;
use std::alloc::AllocError;
use std::collections::VecDeque;

/// What `jg_advised` answers where it wrote advice.
const WRITTEN: i32 = 1;

/// What it answers where none waits.
const NONE: i32 = 0;

/// Whether the number is that of want of memory.
fn is_no_memory(number: i32) -> bool
    ensures yes { number ≡ errors.no_memory → result ≡ true }
    ensures no { number ≢ errors.no_memory → result ≡ false }
{
    number == NO_MEMORY
}

/// Whether the table has a function at this place.
fn is_function(place: u16) -> bool
    ensures { result ≡ is_some (slice_get functions place) }
{
    match row_of(usize::from(place)) {
        None => false,
        Some(_) => true,
    }
}

/// Puts what was advised behind what waits.
fn put_all(waiting: &mut VecDeque<Advice>, advised: &[Advice]) -> Result<(), AllocError>
    ensures { OnOk result (waiting.new.items ≡ waiting.old.items ++ advised.now) }
{
    let mut rest = advised;
    while let Some((advice, later)) = rest.split_first() {
        let Ok(()) = waiting.push_back(*advice) else {
            return Err(AllocError);
        };
        rest = later;
    }
    Ok(())
}

// ---- calls

/// Notes the call of a function that the table has.
fn note_passed(
    noted: &mut Noted,
    core: &Core,
    place: u64,
    head: Head,
    arguments: &[Argument],
    name: &[u8],
) -> Result<(), AllocError>
    ensures { OnOk result (specs.Advises noted.old noted.new place
        (specs.call_of core.now.setup head arguments.now name.now) (specs.Shows core.now)) }
{
    let view = core.view();
    noted.room.clear();
    let (tid, function) = (head.tid, head.function);
    noted.adviser.called(
        &view,
        place,
        tid,
        function,
        arguments,
        name,
        &mut noted.room,
    )?;
    put_all(&mut noted.waiting, noted.room.as_slice())
}

fn note_call(
    noted: &mut Noted,
    core: &Core,
    place: u64,
    head: Head,
    arguments: &[Argument],
    name: &[u8],
) -> i32
    ensures notes { result ≢ errors.no_memory → specs.NotesRow noted.old noted.new core.now place
        (specs.call_of core.now.setup head arguments.now name.now) (slice_get functions head.function) result }
    ensures numbers { result ≢ errors.closed }
{
    if !is_function(head.function) {
        return NO_FUNCTION;
    }
    match note_passed(noted, core, place, head, arguments, name) {
        Ok(()) => DONE,
        Err(_) => NO_MEMORY,
    }
}

/// Reads the call, and notes it.
fn read_call(
    noted: &mut Noted,
    asked: &mut CoreSession,
    place: u64,
    thread: u32,
    function: u32,
    operands: &[JgValue],
    name: &[u8],
) -> i32
    ensures notes { result ≢ errors.no_memory → specs.NotesCall noted.old noted.new asked.old.core place
        (question_of thread nothing function operands.now) name.now result }
    ensures numbers { result ≢ errors.closed }
    ensures same { asked.new ≡ asked.old }
{
    let (env, arguments) = (JgValue::NOTHING, &mut asked.room.arguments);
    match read_question(thread, &env, function, operands, arguments) {
        Ok(head) => {
            let arguments = asked.room.arguments.as_slice();
            note_call(noted, &asked.core, place, head, arguments, name)
        }
        Err(why) => why,
    }
}

fn advise_call(
    kept: &mut AdviserSession,
    asked: &mut CoreSession,
    place: u64,
    thread: u32,
    function: u32,
    operands: &[JgValue],
    name: &[u8],
) -> i32
    ensures notes { result ≢ errors.no_memory → specs.IsOfUse kept.old kept.new
        × specs.NotesCall kept.old.noted kept.new.noted asked.old.core place
        (question_of thread nothing function operands.now) name.now result }
    ensures lost { result ≡ errors.no_memory → kept.new.lost ≡ true }
    ensures numbers { result ≢ errors.closed }
    ensures same { asked.new ≡ asked.old }
{
    if kept.lost {
        return NO_MEMORY;
    }
    let noted = &mut kept.noted;
    let number = read_call(noted, asked, place, thread, function, operands, name);
    kept.lost = is_no_memory(number);
    number
}

/// Notes that the thread calls the function of this number with these operands, at this place: any number of the
/// caller's. `name` is the text of the name that FindClass is handed. To be called of each question that broke no rule,
/// before the core is told what comes of it.
#[unsafe(no_mangle)]
pub extern "C" fn jg_advise_call(
    adviser: &mut Handle,
    core: &mut Handle,
    place: u64,
    thread: u32,
    function: u32,
    operands: &[JgValue],
    name: &[u8],
) -> i32
    ensures closed { (result ≡ errors.closed)
        ↔ ((adviser_of adviser.old.value ≡ None) ⊎ (core_of core.old.value ≡ None)) }
    ensures notes { result ≢ errors.no_memory → Of (core_of core.old.value) (λ a.
        Steps (adviser_of adviser.old.value) (adviser_of adviser.new.value) (λ old new. specs.IsOfUse old new
        × specs.NotesCall old.noted new.noted a.core place
        (question_of thread nothing function operands.now) name.now result)) }
    ensures lost { result ≡ errors.no_memory → Steps (adviser_of adviser.old.value) (adviser_of adviser.new.value)
        (λ old new. new.lost ≡ true) }
    ensures same { core.new.value ≡ core.old.value }
    ensures unchanged { result ≡ errors.closed → adviser.new.value ≡ adviser.old.value }
{
    match adviser.adviser() {
        Some(kept) => match core.core() {
            Some(asked) => advise_call(kept, asked, place, thread, function, operands, name),
            None => CLOSED,
        },
        None => CLOSED,
    }
}

// ---- facts

/// Notes the fact, with which the core is as it is now.
fn note_told(noted: &mut Noted, core: &Core, place: u64, fact: Fact) -> Result<(), AllocError>
    ensures { OnOk result (specs.Advises noted.old noted.new place (Told fact) (specs.Shows core.now)) }
{
    let view = core.view();
    noted.room.clear();
    noted.adviser.told(&view, place, fact, &mut noted.room)?;
    put_all(&mut noted.waiting, noted.room.as_slice())
}

fn note_fact(noted: &mut Noted, core: &Core, place: u64, fact: Option<Fact>) -> i32
    ensures notes { result ≢ errors.no_memory → specs.NotesFact noted.old noted.new core.now place fact result }
    ensures numbers { result ≢ errors.closed }
{
    let Some(fact) = fact else {
        return BAD_FACT;
    };
    match note_told(noted, core, place, fact) {
        Ok(()) => DONE,
        Err(_) => NO_MEMORY,
    }
}

fn advise_fact(kept: &mut AdviserSession, asked: &CoreSession, place: u64, fact: &JgFact) -> i32
    ensures notes { result ≢ errors.no_memory → specs.IsOfUse kept.old kept.new
        × specs.NotesFact kept.old.noted kept.new.noted asked.now.core place (facts.fact_of fact.now) result }
    ensures lost { result ≡ errors.no_memory → kept.new.lost ≡ true }
    ensures numbers { result ≢ errors.closed }
{
    if kept.lost {
        return NO_MEMORY;
    }
    let number = note_fact(&mut kept.noted, &asked.core, place, fact_of(fact));
    kept.lost = is_no_memory(number);
    number
}

/// Notes the fact, at this place: any number of the caller's. To be called of each fact that the core took, before the
/// core is told another one.
#[unsafe(no_mangle)]
pub extern "C" fn jg_advise_fact(
    adviser: &mut Handle,
    core: &mut Handle,
    place: u64,
    fact: &JgFact,
) -> i32
    ensures closed { (result ≡ errors.closed)
        ↔ ((adviser_of adviser.old.value ≡ None) ⊎ (core_of core.old.value ≡ None)) }
    ensures notes { result ≢ errors.no_memory → Of (core_of core.old.value) (λ a.
        Steps (adviser_of adviser.old.value) (adviser_of adviser.new.value) (λ old new. specs.IsOfUse old new
        × specs.NotesFact old.noted new.noted a.core place (facts.fact_of fact.now) result)) }
    ensures lost { result ≡ errors.no_memory → Steps (adviser_of adviser.old.value) (adviser_of adviser.new.value)
        (λ old new. new.lost ≡ true) }
    ensures same { core.new.value ≡ core.old.value }
    ensures unchanged { result ≡ errors.closed → adviser.new.value ≡ adviser.old.value }
{
    match adviser.adviser() {
        Some(kept) => match core.core() {
            Some(asked) => advise_fact(kept, asked, place, fact),
            None => CLOSED,
        },
        None => CLOSED,
    }
}

/// Notes a collection.
fn note_went(noted: &mut Noted, place: u64) -> Result<(), AllocError>
    ensures { OnOk result (specs.NotesGone noted.old noted.new place) }
{
    noted.adviser.went(place, &[])
}

fn note_gone(noted: &mut Noted, place: u64) -> i32
    ensures notes { result ≢ errors.no_memory
        → (result ≡ errors.done) × specs.NotesGone noted.old noted.new place }
    ensures numbers { result ≢ errors.closed }
{
    match note_went(noted, place) {
        Ok(()) => DONE,
        Err(_) => NO_MEMORY,
    }
}

fn advise_gone(kept: &mut AdviserSession, place: u64) -> i32
    ensures notes { result ≢ errors.no_memory → (result ≡ errors.done) × specs.IsOfUse kept.old kept.new
        × specs.NotesGone kept.old.noted kept.new.noted place }
    ensures lost { result ≡ errors.no_memory → kept.new.lost ≡ true }
    ensures numbers { result ≢ errors.closed }
{
    if kept.lost {
        return NO_MEMORY;
    }
    let number = note_gone(&mut kept.noted, place);
    kept.lost = is_no_memory(number);
    number
}

/// Notes that the collector let objects go, at this place. To be called of each `jg_gone` that the core took.
#[unsafe(no_mangle)]
pub extern "C" fn jg_advise_gone(adviser: &mut Handle, place: u64) -> i32
    ensures closed { (result ≡ errors.closed) ↔ (adviser_of adviser.old.value ≡ None) }
    ensures notes { result ≢ errors.no_memory → Steps (adviser_of adviser.old.value) (adviser_of adviser.new.value)
        (λ old new. (result ≡ errors.done) × specs.IsOfUse old new × specs.NotesGone old.noted new.noted place) }
    ensures lost { result ≡ errors.no_memory → Steps (adviser_of adviser.old.value) (adviser_of adviser.new.value)
        (λ old new. new.lost ≡ true) }
    ensures same { adviser_of adviser.old.value ≡ None → adviser.new.value ≡ adviser.old.value }
{
    match adviser.adviser() {
        Some(kept) => advise_gone(kept, place),
        None => CLOSED,
    }
}

// ---- the end

/// Puts what is advised at the end behind what waits.
fn put_left(noted: &mut Noted) -> Result<(), AllocError>
    ensures { OnOk result (specs.AdvisesAtEnd noted.old noted.new) }
{
    noted.room.clear();
    noted.adviser.left(&mut noted.room)?;
    put_all(&mut noted.waiting, noted.room.as_slice())
}

fn note_end(noted: &mut Noted) -> i32
    ensures notes { result ≢ errors.no_memory → (result ≡ errors.done) × specs.AdvisesAtEnd noted.old noted.new }
    ensures numbers { result ≢ errors.closed }
{
    match put_left(noted) {
        Ok(()) => DONE,
        Err(_) => NO_MEMORY,
    }
}

fn advise_end(kept: &mut AdviserSession) -> i32
    ensures notes { result ≢ errors.no_memory → (result ≡ errors.done) × specs.IsOfUse kept.old kept.new
        × specs.AdvisesAtEnd kept.old.noted kept.new.noted }
    ensures lost { result ≡ errors.no_memory → kept.new.lost ≡ true }
    ensures numbers { result ≢ errors.closed }
{
    if kept.lost {
        return NO_MEMORY;
    }
    let number = note_end(&mut kept.noted);
    kept.lost = is_no_memory(number);
    number
}

/// Advises on what is left at the end.
#[unsafe(no_mangle)]
pub extern "C" fn jg_advise_end(adviser: &mut Handle) -> i32
    ensures closed { (result ≡ errors.closed) ↔ (adviser_of adviser.old.value ≡ None) }
    ensures notes { result ≢ errors.no_memory → Steps (adviser_of adviser.old.value) (adviser_of adviser.new.value)
        (λ old new. (result ≡ errors.done) × specs.IsOfUse old new × specs.AdvisesAtEnd old.noted new.noted) }
    ensures lost { result ≡ errors.no_memory → Steps (adviser_of adviser.old.value) (adviser_of adviser.new.value)
        (λ old new. new.lost ≡ true) }
    ensures same { adviser_of adviser.old.value ≡ None → adviser.new.value ≡ adviser.old.value }
{
    match adviser.adviser() {
        Some(kept) => advise_end(kept),
        None => CLOSED,
    }
}

// ---- taking

/// Takes the oldest that waits.
fn take_oldest(noted: &mut Noted, advice: &mut JgAdvice) -> i32
    ensures { specs.TakesOldest noted.old noted.new noted.old.waiting advice.old advice.new result }
{
    match noted.waiting.pop_front() {
        Some(oldest) => {
            *advice = of_advice(oldest);
            WRITTEN
        }
        None => NONE,
    }
}

fn take(kept: &mut AdviserSession, advice: &mut JgAdvice) -> i32
    ensures takes { specs.TakesAdvice kept.old kept.new advice.old advice.new result }
    ensures numbers { result ≢ errors.closed }
{
    if kept.lost {
        return NO_MEMORY;
    }
    take_oldest(&mut kept.noted, advice)
}

/// Takes the oldest advice that nobody took yet, and answers 1; or 0 where there is none.
#[unsafe(no_mangle)]
pub extern "C" fn jg_advised(adviser: &mut Handle, advice: &mut JgAdvice) -> i32
    ensures closed { (result ≡ errors.closed) ↔ (adviser_of adviser.old.value ≡ None) }
    ensures takes { Steps (adviser_of adviser.old.value) (adviser_of adviser.new.value)
        (λ old new. specs.TakesAdvice old new advice.old advice.new result) }
    ensures same { adviser_of adviser.old.value ≡ None
        → (adviser.new.value ≡ adviser.old.value) × (advice.new ≡ advice.old) }
{
    match adviser.adviser() {
        Some(kept) => take(kept, advice),
        None => CLOSED,
    }
}
