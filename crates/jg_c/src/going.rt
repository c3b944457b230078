//! A core is told what the collector let go, and the line of it is written.

ghost use Rattle.std.specs.Prelude.{◌≡◌, ◌≢◌, ◌↔◌, ◌⊎◌, None, [], OnOk};
ghost use Rattle.jg_core.specs.Kernel.{Stayed};
ghost use Rattle.jg_record.specs.declared.event.Event.TheVariants.{Gone};
ghost use Rattle.jg_c.specs.Errors as errors;
ghost use Rattle.jg_c.specs.Lines.{GoneLine, IsLine};
ghost use Rattle.jg_c.specs.Sessions.{Of, Steps, core_of};
ghost use Rattle.jg_c.specs.Telling.{IsKept, LetsGo, LetsGoOrKeeps, objects_of};
ghost use Rattle.jg_c.specs.Values as values;

use crate::error::DONE;
use crate::handle::Handle;
use crate::held::{JgHeld, of_held};
use crate::lines::write_line;
use crate::numbers::{BAD_THREAD, CLOSED, IMPOSSIBLE, NO_MEMORY};
use crate::session::CoreSession;
use crate::value::thread_of;
use jg_policy::Setup;
use jg_record::{Event, Lists};
use jg_words::{ObjId, Tid};
use std::alloc::{AllocError, Global};

/// Reads the objects into the list.
pub(crate) fn read_objects(numbers: &[u64], objects: &mut Vec<ObjId>) -> Result<(), AllocError>
    ensures { OnOk result (objects.new.items ≡ objects_of numbers.now) }
{
    objects.clear();
    let mut rest = numbers;
    while let Some((number, later)) = rest.split_first() {
        objects.push(ObjId(*number))?;
        rest = later;
    }
    Ok(())
}

fn let_go(asked: &mut CoreSession, objects: &[u64], held: &mut u64) -> i32
    ensures goes { result ≢ errors.no_memory → LetsGo asked.old asked.new objects.now held.new result }
    ensures kept { result ≢ errors.impossible → held.new ≡ held.old }
    ensures numbers { result ≢ errors.closed }
    ensures stayed { result ≢ errors.done → Stayed asked.old.core asked.new.core }
    ensures bounds { asked.new.bounds ≡ asked.old.bounds }
{
    let Ok(()) = read_objects(objects, &mut asked.room.objects) else {
        return NO_MEMORY;
    };
    match asked.core.gone(asked.room.objects.as_slice()) {
        Ok(()) => DONE,
        Err(still) => {
            *held = still.place as u64;
            IMPOSSIBLE
        }
    }
}

/// Takes that the collector let these objects go, by their numbers: all of them, or none; then the first that can't be
/// gone once those before it are is written to `held`, as its place, counted from 0. It takes memory only where there
/// are more objects than ever before.
#[unsafe(no_mangle)]
pub extern "C" fn jg_gone(core: &mut Handle, objects: &[u64], held: &mut u64) -> i32
    ensures closed { (result ≡ errors.closed) ↔ (core_of core.old.value ≡ None) }
    ensures goes { result ≢ errors.no_memory → Steps (core_of core.old.value) (core_of core.new.value)
        (λ old new. LetsGo old new objects.now held.new result) }
    ensures kept { result ≢ errors.impossible → held.new ≡ held.old }
    ensures stayed { result ≢ errors.done → Steps (core_of core.old.value) (core_of core.new.value)
        (λ old new. Stayed old.core new.core) }
    ensures bounds { Steps (core_of core.old.value) (core_of core.new.value) (λ old new. new.bounds ≡ old.bounds) }
    ensures same { core_of core.old.value ≡ None → core.new.value ≡ core.old.value }
{
    match core.core() {
        Some(asked) => let_go(asked, objects, held),
        None => CLOSED,
    }
}

fn let_go_or_keep(asked: &mut CoreSession, objects: &[u64], held: &mut JgHeld) -> i32
    ensures goes { result ≢ errors.no_memory → LetsGo asked.old asked.new objects.now held.new.place result }
    ensures by { result ≡ errors.impossible → IsKept asked.old objects.now held.new }
    ensures kept { result ≢ errors.impossible → held.new ≡ held.old }
    ensures numbers { result ≢ errors.closed }
    ensures stayed { result ≢ errors.done → Stayed asked.old.core asked.new.core }
    ensures bounds { asked.new.bounds ≡ asked.old.bounds }
{
    let Ok(()) = read_objects(objects, &mut asked.room.objects) else {
        return NO_MEMORY;
    };
    let Err(still) = asked.core.gone(asked.room.objects.as_slice()) else {
        return DONE;
    };
    *held = of_held(still);
    IMPOSSIBLE
}

/// Takes what `jg_gone` takes, and answers as it does. Beside the place of the first object that can't be gone it
/// writes what keeps that.
#[unsafe(no_mangle)]
pub extern "C" fn jg_gone_held(core: &mut Handle, objects: &[u64], held: &mut JgHeld) -> i32
    ensures closed { (result ≡ errors.closed) ↔ (core_of core.old.value ≡ None) }
    ensures goes { result ≢ errors.no_memory → Steps (core_of core.old.value) (core_of core.new.value)
        (λ old new. LetsGoOrKeeps old new objects.now held.new result) }
    ensures kept { result ≢ errors.impossible → held.new ≡ held.old }
    ensures stayed { result ≢ errors.done → Steps (core_of core.old.value) (core_of core.new.value)
        (λ old new. Stayed old.core new.core) }
    ensures bounds { Steps (core_of core.old.value) (core_of core.new.value) (λ old new. new.bounds ≡ old.bounds) }
    ensures same { core_of core.old.value ≡ None → core.new.value ≡ core.old.value }
{
    match core.core() {
        Some(asked) => let_go_or_keep(asked, objects, held),
        None => CLOSED,
    }
}

fn told_gone(
    alloc: Global,
    setup: &Setup,
    lists: &mut Lists,
    by: Tid,
    objects: &[u64],
    line: &mut [u8],
) -> i64
    ensures is { result ≢ errors.no_memory → IsLine setup.now by Gone [] (objects_of objects.now) line.old line.new
        result }
    ensures kept { result ≡ errors.no_memory → line.new ≡ line.old }
    ensures numbers { result ≢ errors.closed }
{
    lists.arguments.clear();
    match read_objects(objects, &mut lists.objects) {
        Ok(()) => write_line(alloc, setup, by, &Event::Gone, lists, line),
        Err(_) => i64::from(NO_MEMORY),
    }
}

fn stated_gone(
    alloc: Global,
    setup: &Setup,
    lists: &mut Lists,
    thread: u32,
    objects: &[u64],
    line: &mut [u8],
) -> i64
    ensures is { result ≢ errors.no_memory
        → GoneLine setup.now (values.thread_of thread) (objects_of objects.now) line.old line.new result }
    ensures kept { result ≡ errors.no_memory → line.new ≡ line.old }
    ensures numbers { result ≢ errors.closed }
{
    match thread_of(thread) {
        Some(by) => told_gone(alloc, setup, lists, by, objects, line),
        None => i64::from(BAD_THREAD),
    }
}

fn gone_line(
    alloc: Global,
    asked: &mut CoreSession,
    thread: u32,
    objects: &[u64],
    line: &mut [u8],
) -> i64
    ensures is { result ≢ errors.no_memory → GoneLine asked.old.core.setup (values.thread_of thread)
        (objects_of objects.now) line.old line.new result }
    ensures kept { result ≡ errors.no_memory → line.new ≡ line.old }
    ensures numbers { result ≢ errors.closed }
    ensures same { asked.new ≡ asked.old }
{
    let (setup, room) = (asked.core.setup(), &mut asked.room);
    stated_gone(alloc, setup, room, thread, objects, line)
}

/// Writes the line of objects that are gone at once, by their numbers, without line feed, and answers how long it is.
#[unsafe(no_mangle)]
pub extern "C" fn jg_gone_line(
    alloc: Global,
    core: &mut Handle,
    thread: u32,
    objects: &[u64],
    line: &mut [u8],
) -> i64
    ensures closed { (result ≡ errors.closed) ↔ (core_of core.old.value ≡ None) }
    ensures is { result ≢ errors.no_memory → Of (core_of core.old.value) (λ a. GoneLine a.core.setup
        (values.thread_of thread) (objects_of objects.now) line.old line.new result) }
    ensures kept { (result ≡ errors.no_memory) ⊎ (result ≡ errors.closed) → line.new ≡ line.old }
    ensures same { core.new.value ≡ core.old.value }
{
    match core.core() {
        Some(asked) => gone_line(alloc, asked, thread, objects, line),
        None => i64::from(CLOSED),
    }
}
