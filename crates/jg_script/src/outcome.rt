//! A journal's line, cut behind its call.

ghost use Rattle.std.specs.Prelude.{◌≡◌, List, ℕ, ◌++◌, codes, Option, Some, IfSome};
ghost use Rattle.std.specs.Option.{option_copied};
ghost use Rattle.jg_words.specs.declared.thread.Tid.{Tid as TidOf};
ghost use Rattle.jg_words.specs.declared.thread.EnvId.{EnvId as EnvOf};
ghost use Rattle.jg_words.specs.declared.call.Call.{Call as CallOf};
ghost use Rattle.jg_text.specs.Words.{FitsTid, FitsEnv};
ghost use Rattle.jg_text.specs.Operands.{FitsCall};
ghost use Rattle.jg_text.specs.Spelling.{spelling};

use jg_text::front_of_call;

/// What stands behind the call with which the line begins, and behind its ` = `: the outcome, in a line
/// of a journal. Of a line that begins with no call it may be what stands behind some ` = `.
pub fn outcome_in(line: &[u8]) -> Option<&[u8]>
    ensures some { IfSome result (λ outcome. (front : List ℕ) × (line.now ≡ front ++ (codes " = " ++ outcome.now))) }
    ensures all { (t : TidOf) (e : Option EnvOf) (c : CallOf) (outcome : List ℕ) → FitsTid t → FitsEnv e → FitsCall c
        → line.now ≡ spelling t e c ++ (codes " = " ++ outcome) → option_copied result ≡ Some outcome }
{
    let Some(front) = front_of_call(line) else {
        return None;
    };
    let (_, outcome) = line.split_at(front.len() + 3);
    Some(outcome)
}
