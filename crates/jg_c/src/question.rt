//! Questions as numbers.

ghost use Rattle.std.specs.Prelude.{◌≡◌, ◌≢◌, Some, None, Ok, Err, IfOk, IfErr};
ghost use Rattle.jg_c.specs.Errors as errors;
ghost use Rattle.jg_c.specs.Questions.{most_items, operands_of, place_of, question_read};

use crate::numbers::{BAD_THREAD, BAD_VALUE, NO_FUNCTION, NO_MEMORY};
use crate::operand::Reading;
use crate::value::{JgValue, thread_of};
use jg_words::{EnvId, Tid};

/// A question but for its operands: the thread, its environment, and the function's place in the table.
#[derive(Clone, Copy)]
pub(crate) struct Head {
    pub(crate) tid: Tid,
    pub(crate) env: Option<EnvId>,
    pub(crate) function: u16,
}

/// `NewString`, whose list must be a string's.
const NEW_STRING: u32 = 161;

/// The most items that a jsize counts.
const MOST_ITEMS: u64 = 2_147_483_647;

/// How many items a list may have that this function takes. No rule speaks of how many those of others than `NewString`
/// have: where a region has a count below 0, the machine throws.
#[inline(always)]
fn most_items(function: u32) -> u64
    ensures { result ≡ most_items function }
{
    if function == NEW_STRING {
        MOST_ITEMS
    } else {
        u64::MAX
    }
}

/// Reads the operands into the list, or answers why there are none. A list has at most so many items.
#[inline(always)]
fn read_operands<X: Reading>(
    most: u64,
    values: &[JgValue],
    operands: &mut Vec<X>,
) -> Result<(), i32>
    ensures ok { IfOk result (λ done. operands_of (X.reading most) values.now ≡ Some operands.new.items) }
    ensures err { IfErr result (λ n. n ≢ errors.no_memory
        → (n ≡ errors.bad_value) × (operands_of (X.reading most) values.now ≡ None)) }
    ensures numbers { IfErr result (λ n. (n ≢ errors.closed) × (n ≢ errors.done)) }
{
    operands.clear();
    let mut rest = values;
    while let Some((value, later)) = rest.split_first() {
        let Some(operand) = X::read(most, *value) else {
            return Err(BAD_VALUE);
        };
        let Ok(()) = operands.push(operand) else {
            return Err(NO_MEMORY);
        };
        rest = later;
    }
    Ok(())
}

/// The place in the table.
#[inline(always)]
fn place_of(function: u32) -> Option<u16>
    ensures { result ≡ place_of function }
{
    match u16::try_from(function) {
        Ok(place) => Some(place),
        Err(_) => None,
    }
}

/// Reads a question, its operands into the list, or answers why the numbers state none.
#[inline(always)]
pub(crate) fn read_question<X: Reading>(
    thread: u32,
    env: &JgValue,
    function: u32,
    values: &[JgValue],
    operands: &mut Vec<X>,
) -> Result<Head, i32>
    ensures ok { IfOk result (λ head. question_read X.reading thread env.now function values.now
        ≡ Ok (head, operands.new.items)) }
    ensures err { IfErr result (λ n. n ≢ errors.no_memory
        → question_read X.reading thread env.now function values.now ≡ Err n) }
    ensures numbers { IfErr result (λ n. (n ≢ errors.closed) × (n ≢ errors.done)) }
{
    let Some(tid) = thread_of(thread) else {
        return Err(BAD_THREAD);
    };
    let Some(env) = env.environment() else {
        return Err(BAD_VALUE);
    };
    match read_operands(most_items(function), values, operands) {
        Ok(()) => match place_of(function) {
            Some(function) => Ok(Head { tid, env, function }),
            None => Err(NO_FUNCTION),
        },
        Err(why) => Err(why),
    }
}
