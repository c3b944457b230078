//! A text that goes on after its call.

ghost use Rattle.std.specs.Prelude.{◌≡◌, ℕ, List, ◌<◌, ◌+◌, ◌==◌, ◌++◌, ◌∷◌, length, take, codes, count_by, slice_get, Option, Some, IfOk, IfSome, IfNone, IsTrue, ◌↔◌};
ghost use Rattle.std.specs.Option.{option_copied};
ghost use Rattle.jg_words.specs.declared.thread.Tid.{Tid as TidOf};
ghost use Rattle.jg_words.specs.declared.thread.EnvId.{EnvId as EnvOf};
ghost use Rattle.jg_words.specs.declared.call.Call.{Call as CallOf};
ghost use Rattle.jg_words.specs.declared.fun.Fun.{Fun as FunOf};
ghost use Rattle.jg_words.specs.Fun.{name_of};
ghost use Rattle.jg_text.specs.Words.{FitsTid, FitsEnv};
ghost use Rattle.jg_text.specs.Operands.{FitsCall, operand_kinds};
ghost use Rattle.jg_text.specs.Spelling.{spelling};
ghost use Rattle.jg_text.specs.Faults.{fields};
ghost use Rattle.jg_text.specs.Begun.{BeginsWith, BeginsCall};

use crate::fault::ScriptFault;
use crate::operand::cut;
use crate::read::read_call;
use crate::takes::arity;
use jg_words::{Call, EnvId, Fun, Tid};
use std::alloc::{AllocError, Global};

/// The place of the space that ends so many fields.
fn end_of_fields(text: &[u8], count: usize) -> Option<usize>
    requires { 0 < count }
    ensures some { IfSome result (λ i. (slice_get text.now i ≡ Some 32)
        × (count_by (λ b. b == 32) (take i text.now) + 1 ≡ count)) }
    ensures none { IfNone result (count_by (λ b. b == 32) text.now < count) }
{
    let mut spaces = 0;
    for i in 0..text.len() {
        if text[i] == b' ' {
            spaces += 1;
            if spaces == count {
                return Some(i);
            }
        }
    }
    None
}

/// How many fields a call has whose function the text names in its third field.
fn fields_of_call(text: &[u8]) -> Option<usize>
    ensures some { IfSome result (λ n. 0 < n) }
    ensures all { (f : FunOf) → slice_get (fields text.now) 2 ≡ Some (name_of f)
        → result ≡ Some (length (operand_kinds f) + 3) }
{
    let (_, rest) = cut(text);
    let (_, rest) = cut(rest?);
    let (name, _) = cut(rest?);
    let fun = Fun::of_bytes(name)?;
    Some(arity(fun) + 3)
}

/// So many fields, and what stands behind the space after them.
pub(crate) fn cut_fields(text: &[u8], count: usize) -> Option<(&[u8], &[u8])>
    requires { 0 < count }
    ensures some { IfSome result (λ parts. (text.now ≡ parts.0.now ++ 32 ∷ parts.1.now)
        × (count_by (λ b. b == 32) parts.0.now + 1 ≡ count)) }
    ensures none { IfNone result (count_by (λ b. b == 32) text.now < count) }
{
    let i = end_of_fields(text, count)?;
    Some((&text[..i], &text[i + 1..]))
}

fn begins_outcome(text: &[u8]) -> bool
    ensures { IsTrue result ↔ ((more : List ℕ) × (text.now ≡ 61 ∷ 32 ∷ more)) }
{
    matches!(text, [b'=', b' ', ..])
}

/// The line of the call with which the text begins, where ` = ` stands behind it, whatever follows:
/// as many fields as the function that the third field names has operands, and the three before. Of a
/// text that begins with no call it may be anything that stands before a ` = `.
pub fn front_of_call(text: &[u8]) -> Option<&[u8]>
    ensures some { IfSome result (λ front. (more : List ℕ) × (text.now ≡ front.now ++ (codes " = " ++ more))) }
    ensures all { (t : TidOf) (e : Option EnvOf) (c : CallOf) (more : List ℕ) → FitsTid t → FitsEnv e → FitsCall c
        → text.now ≡ spelling t e c ++ (codes " = " ++ more) → option_copied result ≡ Some (spelling t e c) }
{
    let Some(count) = fields_of_call(text) else {
        return None;
    };
    let Some((front, back)) = cut_fields(text, count) else {
        return None;
    };
    if begins_outcome(back) {
        Some(front)
    } else {
        None
    }
}

/// The call with which the text begins, where ` = ` stands behind it, whatever follows. Fails only
/// for want of memory.
pub fn read_begun(
    alloc: Global,
    text: &[u8],
) -> Result<Option<(Tid, Option<EnvId>, Call)>, AllocError>
    ensures some { IfOk result (λ found. IfSome found (λ r. BeginsWith text.now r.0 r.1 r.2)) }
    ensures none { IfOk result (λ found. IfNone found (¬ BeginsCall text.now)) }
{
    let Some(front) = front_of_call(text) else {
        return Ok(None);
    };
    match read_call(alloc, front) {
        Ok(spelt) => Ok(Some(spelt)),
        Err(ScriptFault::NoMemory) => Err(AllocError),
        Err(_) => Ok(None),
    }
}
