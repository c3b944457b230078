//! A witness is asked.

ghost use Rattle.std.specs.Prelude.{◌≡◌, ◌≢◌, ◌↔◌, None, false, nat_eq};
ghost use Rattle.jg_witness.specs.Standing.{Stays};
ghost use Rattle.jg_c.specs.Errors as errors;
ghost use Rattle.jg_c.specs.Questions.{word_question_of};
ghost use Rattle.jg_c.specs.Sessions.{Of, Steps, witness_of};
ghost use Rattle.jg_c.specs.Tickets.{is_told};
ghost use Rattle.jg_c.specs.WordQuestions.{AsksOfWords, EndsOfWords, EndsOfWordsBy};
ghost use Rattle.jg_c.specs.Witnesses.{JudgesAsBefore};

use crate::asking::write_ended;
use crate::error::of_untold;
use crate::handle::Handle;
use crate::numbers::{CLOSED, NO_MEMORY};
use crate::question::{Head, read_question};
use crate::session::WitnessSession;
use crate::value::JgValue;
use crate::verdict::{JgVerdict, write_answer};
use jg_judge::Bounds;
use jg_witness::{Operand, Witness};

#[inline(always)]
fn ask(
    asked: &mut WitnessSession,
    thread: u32,
    env: &JgValue,
    function: u32,
    operands: &[JgValue],
    verdict: &mut JgVerdict,
) -> i32
    ensures asks { result ≢ errors.no_memory
        → AsksOfWords asked.old (word_question_of thread env.now function operands.now) verdict.new result }
    ensures untold { result ≡ errors.done → is_told verdict.new.ticket ≡ false }
    ensures kept { result ≢ errors.done → verdict.new ≡ verdict.old }
    ensures numbers { result ≢ errors.closed }
    ensures same { asked.new ≡ asked.old }
{
    match read_question(thread, env, function, operands, &mut asked.operands) {
        Ok(head) => {
            let answered = asked.witness.ask(
                asked.bounds,
                head.tid,
                head.env,
                head.function,
                asked.operands.as_slice(),
            );
            match answered {
                Ok(answer) => write_answer(answer, verdict),
                Err(_) => NO_MEMORY,
            }
        }
        Err(why) => why,
    }
}

/// Asks as `jg_ask` does, of words: each is asked as the reference that it means, or as a dead one where it means
/// nothing. It changes nothing.
#[unsafe(no_mangle)]
pub extern "C" fn jg_witness_ask(
    witness: &mut Handle,
    thread: u32,
    env: &JgValue,
    function: u32,
    operands: &[JgValue],
    verdict: &mut JgVerdict,
) -> i32
    ensures closed { (result ≡ errors.closed) ↔ (witness_of witness.old.value ≡ None) }
    ensures asks { result ≢ errors.no_memory → Of (witness_of witness.old.value)
        (λ a. AsksOfWords a (word_question_of thread env.now function operands.now) verdict.new result) }
    ensures untold { result ≡ errors.done → is_told verdict.new.ticket ≡ false }
    ensures kept { result ≢ errors.done → verdict.new ≡ verdict.old }
    ensures same { witness.new.value ≡ witness.old.value }
{
    match witness.witness() {
        Some(asked) => ask(asked, thread, env, function, operands, verdict),
        None => CLOSED,
    }
}

fn end_read(
    witness: &mut Witness,
    bounds: Bounds,
    head: Head,
    operands: &[Operand],
    verdict: &mut JgVerdict,
    given: &mut JgValue,
) -> i32
    ensures ends { result ≢ errors.no_memory
        → EndsOfWordsBy witness.old witness.new bounds head operands.now verdict.new given.new result }
    ensures told { result ≡ errors.done → is_told verdict.new.ticket ≡ nat_eq verdict.new.rule 0 }
    ensures kept { result ≢ errors.done → verdict.new ≡ verdict.old × given.new ≡ given.old }
    ensures numbers { result ≢ errors.closed }
    ensures stayed { result ≢ errors.done → Stays witness.old witness.new }
    ensures setup { witness.new.core.setup ≡ witness.old.core.setup }
{
    match witness.ending(bounds, head.tid, head.env, head.function, operands) {
        Ok(ended) => write_ended(ended, verdict, given),
        Err(why) => of_untold(why),
    }
}

fn end(
    asked: &mut WitnessSession,
    thread: u32,
    env: &JgValue,
    function: u32,
    operands: &[JgValue],
    verdict: &mut JgVerdict,
    given: &mut JgValue,
) -> i32
    ensures ends { result ≢ errors.no_memory → EndsOfWords asked.old asked.new
        (word_question_of thread env.now function operands.now) verdict.new given.new result }
    ensures told { result ≡ errors.done → is_told verdict.new.ticket ≡ nat_eq verdict.new.rule 0 }
    ensures kept { result ≢ errors.done → verdict.new ≡ verdict.old × given.new ≡ given.old }
    ensures numbers { result ≢ errors.closed }
    ensures stayed { result ≢ errors.done → Stays asked.old.witness asked.new.witness }
    ensures settings { JudgesAsBefore asked.old asked.new }
{
    match read_question(thread, env, function, operands, &mut asked.operands) {
        Ok(head) => end_read(
            &mut asked.witness,
            asked.bounds,
            head,
            asked.operands.as_slice(),
            verdict,
            given,
        ),
        Err(why) => why,
    }
}

/// Asks as `jg_ending` does, of words, and where no rule is broken takes at once what the call ends, before the machine
/// ends it. What it ends its words don't mean any more.
#[unsafe(no_mangle)]
pub extern "C" fn jg_witness_ending(
    witness: &mut Handle,
    thread: u32,
    env: &JgValue,
    function: u32,
    operands: &[JgValue],
    verdict: &mut JgVerdict,
    given: &mut JgValue,
) -> i32
    ensures closed { (result ≡ errors.closed) ↔ (witness_of witness.old.value ≡ None) }
    ensures ends { result ≢ errors.no_memory → Steps (witness_of witness.old.value) (witness_of witness.new.value)
        (λ old new. EndsOfWords old new (word_question_of thread env.now function operands.now) verdict.new given.new
        result) }
    ensures told { result ≡ errors.done → is_told verdict.new.ticket ≡ nat_eq verdict.new.rule 0 }
    ensures kept { result ≢ errors.done → verdict.new ≡ verdict.old × given.new ≡ given.old }
    ensures stayed { result ≢ errors.done → Steps (witness_of witness.old.value) (witness_of witness.new.value)
        (λ old new. Stays old.witness new.witness) }
    ensures settings { Steps (witness_of witness.old.value) (witness_of witness.new.value) JudgesAsBefore }
    ensures same { witness_of witness.old.value ≡ None → witness.new.value ≡ witness.old.value }
{
    match witness.witness() {
        Some(asked) => end(asked, thread, env, function, operands, verdict, given),
        None => CLOSED,
    }
}
