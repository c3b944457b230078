//! A core is asked.

ghost use Rattle.std.specs.Prelude.{◌≡◌, ◌≢◌, ◌↔◌, None, false, List, nat_eq};
ghost use Rattle.jg_core.specs.declared.fact.Fact.{Fact};
ghost use Rattle.jg_core.specs.Asking.{asked, is_passed};
ghost use Rattle.jg_core.specs.Facts.{parts_of};
ghost use Rattle.jg_core.specs.Kernel.{CoreStands, Stayed};
ghost use Rattle.jg_c.specs.Errors as errors;
ghost use Rattle.jg_c.specs.Given.{of_given};
ghost use Rattle.jg_c.specs.Questions.{Asks, Ends, EndsBy, IsAnswered, May, question_of, ruled};
ghost use Rattle.jg_c.specs.Sessions.{Of, Steps, core_of};
ghost use Rattle.jg_c.specs.Tickets.{is_told};

use crate::error::{DONE, of_untold};
use crate::given::of_given;
use crate::handle::Handle;
use crate::numbers::{CLOSED, MISFIT, NO_FUNCTION};
use crate::question::{Head, read_question};
use crate::session::CoreSession;
use crate::ticket::mark_told;
use crate::value::JgValue;
use crate::verdict::{JgVerdict, write_answer};
use jg_core::{Answer, Core, Ended};
use jg_judge::{Argument, Bounds};

#[inline(always)]
fn ask(
    asked: &mut CoreSession,
    thread: u32,
    env: &JgValue,
    function: u32,
    operands: &[JgValue],
    verdict: &mut JgVerdict,
) -> i32
    ensures asks { result ≢ errors.no_memory
        → Asks asked.old (question_of thread env.now function operands.now) verdict.new result }
    ensures untold { result ≡ errors.done → is_told verdict.new.ticket ≡ false }
    ensures kept { result ≢ errors.done → verdict.new ≡ verdict.old }
    ensures numbers { result ≢ errors.closed }
    ensures same { asked.new ≡ asked.old }
{
    match read_question(thread, env, function, operands, &mut asked.room.arguments) {
        Ok(head) => {
            let answer = asked.core.ask(
                asked.bounds,
                head.tid,
                head.env,
                head.function,
                asked.room.arguments.as_slice(),
            );
            write_answer(answer, verdict)
        }
        Err(why) => why,
    }
}

/// Whether the thread, with this environment, may now call the function of this number with these operands. It changes
/// nothing, but where it answers 0 it writes the verdict. It takes memory only where it has more operands than any
/// question before.
#[unsafe(no_mangle)]
pub extern "C" fn jg_ask(
    core: &mut Handle,
    thread: u32,
    env: &JgValue,
    function: u32,
    operands: &[JgValue],
    verdict: &mut JgVerdict,
) -> i32
    ensures closed { (result ≡ errors.closed) ↔ (core_of core.old.value ≡ None) }
    ensures asks { result ≢ errors.no_memory → Of (core_of core.old.value)
        (λ a. Asks a (question_of thread env.now function operands.now) verdict.new result) }
    ensures untold { result ≡ errors.done → is_told verdict.new.ticket ≡ false }
    ensures kept { result ≢ errors.done → verdict.new ≡ verdict.old }
    ensures same { core.new.value ≡ core.old.value }
{
    match core.core() {
        Some(asked) => ask(asked, thread, env, function, operands, verdict),
        None => CLOSED,
    }
}

/// The number of the rule that the answer tells, or why there is none.
#[inline(always)]
fn rule_in(answer: Answer) -> i32
    ensures is { result ≡ ruled answer }
    ensures numbers { (result ≢ errors.closed) × (result ≢ errors.no_memory) }
{
    match answer {
        Answer::Passed(_) => DONE,
        Answer::Denied { rule, .. } => i32::from(rule.number()),
        Answer::NoFunction => NO_FUNCTION,
        Answer::Misfit => MISFIT,
    }
}

/// The number of the rule that the question breaks first, or why there is none.
#[inline(always)]
fn rule_on(core: &Core, bounds: Bounds, head: Head, arguments: &[Argument]) -> i32
    ensures rule { (w : List Fact) → CoreStands core.now w → result ≡ ruled (asked bounds core.now.setup (parts_of w)
        head.tid head.env head.function arguments.now) }
    ensures numbers { (result ≢ errors.closed) × (result ≢ errors.no_memory) }
{
    rule_in(core.ask(bounds, head.tid, head.env, head.function, arguments))
}

#[inline(always)]
fn may(
    asked: &mut CoreSession,
    thread: u32,
    env: &JgValue,
    function: u32,
    operands: &[JgValue],
) -> i32
    ensures may { result ≢ errors.no_memory
        → May asked.old (question_of thread env.now function operands.now) result }
    ensures numbers { result ≢ errors.closed }
    ensures same { asked.new ≡ asked.old }
{
    match read_question(thread, env, function, operands, &mut asked.room.arguments) {
        Ok(head) => rule_on(
            &asked.core,
            asked.bounds,
            head,
            asked.room.arguments.as_slice(),
        ),
        Err(why) => why,
    }
}

/// The number of the rule that `jg_ask` of the same question writes, 0 where it breaks none; or what `jg_ask` answers
/// in its place. It changes nothing and hands out no ticket. It takes memory only where it has more operands than any
/// question before.
#[unsafe(no_mangle)]
pub extern "C" fn jg_may(
    core: &mut Handle,
    thread: u32,
    env: &JgValue,
    function: u32,
    operands: &[JgValue],
) -> i32
    ensures closed { (result ≡ errors.closed) ↔ (core_of core.old.value ≡ None) }
    ensures may { result ≢ errors.no_memory → Of (core_of core.old.value)
        (λ a. May a (question_of thread env.now function operands.now) result) }
    ensures same { core.new.value ≡ core.old.value }
{
    match core.core() {
        Some(asked) => may(asked, thread, env, function, operands),
        None => CLOSED,
    }
}

/// Writes how the question of a call that ends something was answered, and what it hands out. The ticket of one that
/// passed is of a call that was told.
pub(crate) fn write_ended(ended: Ended, verdict: &mut JgVerdict, given: &mut JgValue) -> i32
    ensures is { IsAnswered ended.answer verdict.new result }
    ensures given { result ≡ errors.done → given.new ≡ of_given ended.given }
    ensures kept { result ≢ errors.done → verdict.new ≡ verdict.old × given.new ≡ given.old }
    ensures passed { result ≢ errors.done → is_passed ended.answer ≡ false }
    ensures told { result ≡ errors.done → is_told verdict.new.ticket ≡ nat_eq verdict.new.rule 0 }
    ensures numbers { (result ≢ errors.closed) × (result ≢ errors.no_memory) }
{
    let number = write_answer(ended.answer, verdict);
    if number == DONE {
        *given = of_given(ended.given);
        if verdict.rule == 0 {
            mark_told(&mut verdict.ticket);
        }
    }
    number
}

fn end_read(
    core: &mut Core,
    bounds: Bounds,
    head: Head,
    arguments: &[Argument],
    verdict: &mut JgVerdict,
    given: &mut JgValue,
) -> i32
    ensures ends { EndsBy core.old core.new bounds head arguments.now verdict.new given.new result }
    ensures told { result ≡ errors.done → is_told verdict.new.ticket ≡ nat_eq verdict.new.rule 0 }
    ensures kept { result ≢ errors.done → verdict.new ≡ verdict.old × given.new ≡ given.old }
    ensures numbers { result ≢ errors.closed }
    ensures stayed { result ≢ errors.done → Stayed core.old core.new }
{
    match core.ending(bounds, head.tid, head.env, head.function, arguments) {
        Ok(ended) => write_ended(ended, verdict, given),
        Err(why) => of_untold(why),
    }
}

fn end(
    asked: &mut CoreSession,
    thread: u32,
    env: &JgValue,
    function: u32,
    operands: &[JgValue],
    verdict: &mut JgVerdict,
    given: &mut JgValue,
) -> i32
    ensures ends { result ≢ errors.no_memory → Ends asked.old asked.new
        (question_of thread env.now function operands.now) verdict.new given.new result }
    ensures told { result ≡ errors.done → is_told verdict.new.ticket ≡ nat_eq verdict.new.rule 0 }
    ensures kept { result ≢ errors.done → verdict.new ≡ verdict.old × given.new ≡ given.old }
    ensures numbers { result ≢ errors.closed }
    ensures stayed { result ≢ errors.done → Stayed asked.old.core asked.new.core }
    ensures bounds { asked.new.bounds ≡ asked.old.bounds }
{
    match read_question(thread, env, function, operands, &mut asked.room.arguments) {
        Ok(head) => end_read(
            &mut asked.core,
            asked.bounds,
            head,
            asked.room.arguments.as_slice(),
            verdict,
            given,
        ),
        Err(why) => why,
    }
}

/// Asks, and where no rule is broken takes at once what the call ends, before the machine ends it. The name of what it
/// hands out is written to `given`, and the verdict's ticket is one that `jg_did` refuses.
#[unsafe(no_mangle)]
pub extern "C" fn jg_ending(
    core: &mut Handle,
    thread: u32,
    env: &JgValue,
    function: u32,
    operands: &[JgValue],
    verdict: &mut JgVerdict,
    given: &mut JgValue,
) -> i32
    ensures closed { (result ≡ errors.closed) ↔ (core_of core.old.value ≡ None) }
    ensures ends { result ≢ errors.no_memory → Steps (core_of core.old.value) (core_of core.new.value)
        (λ old new. Ends old new (question_of thread env.now function operands.now) verdict.new given.new result) }
    ensures told { result ≡ errors.done → is_told verdict.new.ticket ≡ nat_eq verdict.new.rule 0 }
    ensures kept { result ≢ errors.done → verdict.new ≡ verdict.old × given.new ≡ given.old }
    ensures stayed { result ≢ errors.done → Steps (core_of core.old.value) (core_of core.new.value)
        (λ old new. Stayed old.core new.core) }
    ensures bounds { Steps (core_of core.old.value) (core_of core.new.value) (λ old new. new.bounds ≡ old.bounds) }
    ensures same { core_of core.old.value ≡ None → core.new.value ≡ core.old.value }
{
    match core.core() {
        Some(asked) => { end(asked, thread, env, function, operands, verdict, given) }
        None => CLOSED,
    }
}
