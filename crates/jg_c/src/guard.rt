//! A guard answers scripts.

ghost use Rattle.std.specs.Prelude.{◌≡◌, ◌≢◌, ◌≤◌, ◌↔◌, ◌⊎◌, None, IfOk, IfErr, IfNone, IfSome, List, ℕ, is_some, length, Some, Box};
ghost use Rattle.jg_text.specs.Journal.{entry_text};
ghost use Rattle.jg_policy.specs.Findings.{States};
ghost use Rattle.jg_c.specs.Errors as errors;
ghost use Rattle.jg_c.specs.Guards.{AnswersCall, AnswersLine, ExplainsNewest, GuardLeaks, IsNewGuard, JudgesLine, NewestLine, rule_number};
ghost use Rattle.jg_c.specs.Lines.{Writes};
ghost use Rattle.jg_c.specs.Opened.{IsOpening, IsUnopened};
ghost use Rattle.jg_c.specs.Sessions.{Has, Of, Steps, guard_of};

use crate::copying::copy_out;
use crate::error::{DONE, of_script_fault, of_setup_fault};
use crate::handle::Handle;
use crate::numbers::{ABI, BAD_VERSION, CLOSED, IS_OPEN, LIMIT, NO_MEMORY, NO_RULE, UNWRITTEN};
use crate::opening::read_setup;
use crate::session::{GuardSession, Session};
use jg_explain::explain_newest;
use jg_guard::{Guard, Refusal};
use jg_policy::Setup;
use jg_script::write_leaks;
use jg_text::{read_call, write_entry};
use jg_words::{Call, Entry, EnvId, Rule, Tid};
use std::alloc::Global;

/// A guard of this setup with an empty journal.
fn new_guard(alloc: Global, setup: Setup, limit: u32) -> Option<GuardSession>
    ensures { IfSome result (λ g. (text : List ℕ) → States text setup → length text ≤ 16777216
        → IsNewGuard text limit g) }
{
    match Guard::new(alloc, alloc, setup, limit) {
        Ok(guard) => Some(GuardSession { guard }),
        Err(_) => None,
    }
}

/// A guard in a box, or the number of why there is none.
fn boxed_guard(alloc: Global, text: &[u8], limit: u32) -> Result<Box<Session>, i32>
    ensures fresh { IfOk result (λ b. Has (guard_of (Some b.value)) (IsNewGuard text.now limit)) }
    ensures why { IfErr result (IsUnopened text.now) }
    ensures numbers { IfErr result (λ n. (n ≢ errors.done) × (n ≢ errors.is_open) × (n ≢ errors.bad_version)) }
{
    let setup = match read_setup(alloc, text) {
        Ok(setup) => setup,
        Err(fault) => return Err(of_setup_fault(fault)),
    };
    let Some(kept) = new_guard(alloc, setup, limit) else {
        return Err(NO_MEMORY);
    };
    match Box::new(alloc, Session::Guard(kept)) {
        Ok(session) => Ok(session),
        Err(_) => Err(NO_MEMORY),
    }
}

/// Opens a closed handle on a guard with an empty journal of at most `limit` entries, under the setup that the text
/// states. `version` is that of jg.h.
#[unsafe(no_mangle)]
pub extern "C" fn jg_guard_open(
    alloc: Global,
    text: &[u8],
    limit: u32,
    version: u32,
    guard: &mut Handle,
) -> i32
    ensures opened { result ≡ errors.done → Has (guard_of guard.new.value) (IsNewGuard text.now limit) }
    ensures is_open { (result ≡ errors.is_open) ↔ (guard.old.value ≢ None) }
    ensures version { guard.old.value ≡ None → (result ≡ errors.bad_version) ↔ (version ≢ 1) }
    ensures why { guard.old.value ≡ None → version ≡ 1 → IsOpening text.now result }
    ensures unchanged { result ≢ errors.done → guard.new.value ≡ guard.old.value }
{
    match guard.slot().get_mut() {
        Some(_) => IS_OPEN,
        None => {
            if version != ABI {
                return BAD_VERSION;
            }
            match boxed_guard(alloc, text, limit) {
                Ok(session) => {
                    guard.slot().put(alloc, session);
                    DONE
                }
                Err(why) => why,
            }
        }
    }
}

/// Whether the handle holds a guard.
fn holds_guard(handle: &mut Handle) -> bool
    ensures value { result ≡ is_some (guard_of handle.old.value) }
    ensures same { handle.new.value ≡ handle.old.value }
{
    match handle.slot().get_mut() {
        Some(Session::Guard(_)) => true,
        _ => false,
    }
}

/// Lets all go that the guard holds; the handle is closed then.
#[unsafe(no_mangle)]
pub extern "C" fn jg_guard_close(alloc: Global, guard: &mut Handle) -> i32
    ensures closed { (result ≡ errors.closed) ↔ (guard_of guard.old.value ≡ None) }
    ensures done { (result ≡ errors.done) ↔ (guard_of guard.old.value ≢ None) }
    ensures after { result ≡ errors.done → guard.new.value ≡ None }
    ensures unchanged { result ≢ errors.done → guard.new.value ≡ guard.old.value }
{
    if !holds_guard(guard) {
        return CLOSED;
    }
    let _session = guard.slot().take(alloc);
    DONE
}

/// Writes the entry's line, and answers how long it is; none where memory runs out.
fn write_line(alloc: Global, entry: &Entry, out: &mut [u8]) -> Option<i64>
    ensures line { IfSome result (λ n. Writes (entry_text entry.now) out.old out.new n) }
    ensures kept { IfNone result (out.new ≡ out.old) }
{
    match write_entry(alloc, entry) {
        Ok(text) => Some(copy_out(text.as_bytes(), out)),
        Err(_) => None,
    }
}

/// Makes the call, and writes its entry's line.
fn make_call(
    alloc: Global,
    guard: &mut Guard,
    tid: Tid,
    env: Option<EnvId>,
    call: Call,
    out: &mut [u8],
) -> i64
    ensures answers { AnswersCall guard.old guard.new tid env call out.old out.new result }
    ensures numbers { result ≢ errors.closed }
{
    match guard.call(tid, env, call) {
        Ok(_) => match write_line(alloc, guard.newest(), out) {
            Some(length) => length,
            None => i64::from(UNWRITTEN),
        },
        Err(Refusal::Limit(_)) => i64::from(LIMIT),
        Err(Refusal::NoMemory(_)) => i64::from(NO_MEMORY),
    }
}

fn call_line(alloc: Global, guard: &mut Guard, line: &[u8], out: &mut [u8]) -> i64
    ensures answers { AnswersLine guard.old guard.new line.now out.old out.new result }
    ensures numbers { result ≢ errors.closed }
{
    match read_call(alloc, line) {
        Ok((tid, env, call)) => make_call(alloc, guard, tid, env, call, out),
        Err(fault) => i64::from(of_script_fault(fault)),
    }
}

/// Answers a line of a script, without its line feed: judges, does and journals its call. How long the entry's line of
/// the journal is, with its line feed, of which `entry` gets what there is room for. Where memory runs out for that
/// line the call is made, and the answer is a number of its own.
#[unsafe(no_mangle)]
pub extern "C" fn jg_call_line(
    alloc: Global,
    guard: &mut Handle,
    line: &[u8],
    entry: &mut [u8],
) -> i64
    ensures closed { (result ≡ errors.closed) ↔ (guard_of guard.old.value ≡ None) }
    ensures answers { Steps (guard_of guard.old.value) (guard_of guard.new.value)
        (λ old new. AnswersLine old new line.now entry.old entry.new result) }
    ensures same { guard_of guard.old.value ≡ None
        → (guard.new.value ≡ guard.old.value) × (entry.new ≡ entry.old) }
{
    match guard.guard() {
        Some(kept) => call_line(alloc, &mut kept.guard, line, entry),
        None => i64::from(CLOSED),
    }
}

fn newest_line(alloc: Global, guard: &Guard, out: &mut [u8]) -> i64
    ensures is { result ≢ errors.no_memory → NewestLine guard.now.journal out.old out.new result }
    ensures kept { result ≡ errors.no_memory → out.new ≡ out.old }
    ensures numbers { result ≢ errors.closed }
{
    if guard.journal_len() == 0 {
        return 0;
    }
    match write_line(alloc, guard.newest(), out) {
        Some(length) => length,
        None => i64::from(NO_MEMORY),
    }
}

/// Writes the line of the journal's newest entry again, and answers how long it is: 0 where there is none.
#[unsafe(no_mangle)]
pub extern "C" fn jg_newest_line(alloc: Global, guard: &mut Handle, entry: &mut [u8]) -> i64
    ensures closed { (result ≡ errors.closed) ↔ (guard_of guard.old.value ≡ None) }
    ensures is { result ≢ errors.no_memory → Of (guard_of guard.old.value)
        (λ g. NewestLine g.journal entry.old entry.new result) }
    ensures kept { (result ≡ errors.no_memory) ⊎ (result ≡ errors.closed) → entry.new ≡ entry.old }
    ensures same { guard.new.value ≡ guard.old.value }
{
    match guard.guard() {
        Some(kept) => newest_line(alloc, &kept.guard, entry),
        None => i64::from(CLOSED),
    }
}

/// The number of a rule, or 0 for none.
fn rule_number(rule: Option<Rule>) -> i32
    ensures is { result ≡ rule_number rule }
    ensures numbers { result ≢ errors.closed }
{
    match rule {
        None => 0,
        Some(rule) => i32::from(rule.number()),
    }
}

fn judge_line(alloc: Global, guard: &Guard, line: &[u8]) -> i32
    ensures judges { JudgesLine guard.now line.now result }
    ensures numbers { result ≢ errors.closed }
{
    match read_call(alloc, line) {
        Ok((tid, env, call)) => rule_number(guard.judge(tid, env, &call)),
        Err(fault) => of_script_fault(fault),
    }
}

/// The number of the first rule that the line's call would break now, 0 for none; nothing is done or journaled.
#[unsafe(no_mangle)]
pub extern "C" fn jg_judge_line(alloc: Global, guard: &mut Handle, line: &[u8]) -> i32
    ensures closed { (result ≡ errors.closed) ↔ (guard_of guard.old.value ≡ None) }
    ensures judges { Of (guard_of guard.old.value) (λ g. JudgesLine g line.now result) }
    ensures same { guard.new.value ≡ guard.old.value }
{
    match guard.guard() {
        Some(kept) => judge_line(alloc, &kept.guard, line),
        None => CLOSED,
    }
}

fn leaks(alloc: Global, guard: &Guard, text: &mut [u8]) -> i64
    ensures is { result ≢ errors.no_memory → GuardLeaks guard.now text.old text.new result }
    ensures kept { result ≡ errors.no_memory → text.new ≡ text.old }
    ensures numbers { result ≢ errors.closed }
{
    let Ok(left) = guard.leaks() else {
        return i64::from(NO_MEMORY);
    };
    match write_leaks(alloc, &left) {
        Ok(lines) => copy_out(lines.as_bytes(), text),
        Err(_) => i64::from(NO_MEMORY),
    }
}

/// Writes what the journal leaves behind, a line each, and answers how long that is.
#[unsafe(no_mangle)]
pub extern "C" fn jg_guard_leaks(alloc: Global, guard: &mut Handle, text: &mut [u8]) -> i64
    ensures closed { (result ≡ errors.closed) ↔ (guard_of guard.old.value ≡ None) }
    ensures is { result ≢ errors.no_memory → Of (guard_of guard.old.value)
        (λ g. GuardLeaks g text.old text.new result) }
    ensures kept { (result ≡ errors.no_memory) ⊎ (result ≡ errors.closed) → text.new ≡ text.old }
    ensures same { guard.new.value ≡ guard.old.value }
{
    match guard.guard() {
        Some(kept) => leaks(alloc, &kept.guard, text),
        None => i64::from(CLOSED),
    }
}

fn explain(alloc: Global, guard: &Guard, text: &mut [u8]) -> i64
    ensures is { result ≢ errors.no_memory → ExplainsNewest guard.now text.old text.new result }
    ensures kept { result ≡ errors.no_memory → text.new ≡ text.old }
    ensures numbers { result ≢ errors.closed }
{
    match explain_newest(guard, alloc) {
        Ok(Some(told)) => copy_out(told.as_bytes(), text),
        Ok(None) => i64::from(NO_RULE),
        Err(_) => i64::from(NO_MEMORY),
    }
}

/// Writes why the newest denied call of the journal was denied, and answers how long that is. The journal's calls are
/// made again for it, up to that one.
#[unsafe(no_mangle)]
pub extern "C" fn jg_guard_explain(alloc: Global, guard: &mut Handle, text: &mut [u8]) -> i64
    ensures closed { (result ≡ errors.closed) ↔ (guard_of guard.old.value ≡ None) }
    ensures is { result ≢ errors.no_memory → Of (guard_of guard.old.value)
        (λ g. ExplainsNewest g text.old text.new result) }
    ensures kept { (result ≡ errors.no_memory) ⊎ (result ≡ errors.closed) → text.new ≡ text.old }
    ensures same { guard.new.value ≡ guard.old.value }
{
    match guard.guard() {
        Some(kept) => explain(alloc, &kept.guard, text),
        None => i64::from(CLOSED),
    }
}
