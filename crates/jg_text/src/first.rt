//! The thread and the environment in front of a line.

ghost use Rattle.std.specs.Prelude.{◌≡◌, ◌≢◌, ◌∷◌, Option, Some, IfSome, IfNone, slice_get};
ghost use Rattle.std.specs.Option.{option_copied};
ghost use Rattle.jg_words.specs.declared.thread.Tid.{Tid as TidOf};
ghost use Rattle.jg_words.specs.declared.thread.EnvId.{EnvId as EnvOf};
ghost use Rattle.jg_text.specs.Words.{tid_text, env_text, FitsTid, FitsEnv};
ghost use Rattle.jg_text.specs.Faults.{fields};
ghost use Rattle.jg_text.specs.Pieces.{rest_fields, behind_field};

use crate::number::{leading, leading_dotted};
use crate::operand::cut;
use crate::word::{read_env, read_tid};
use jg_words::{EnvId, Tid};

/// What follows the space, where a field ends in front of the text.
fn end_of_field(text: &[u8]) -> Option<Option<&[u8]>>
    ensures { IfSome result (λ rest. text.now ≡ behind_field (option_copied rest)) }
{
    match text {
        [] => Some(None),
        [b' ', rest @ ..] => Some(Some(rest)),
        _ => None,
    }
}

/// The thread in the first field, in one pass, and what is left behind it.
fn short_tid(line: &[u8]) -> Option<(Tid, Option<&[u8]>)>
    ensures { IfSome result (λ r. fields line.now ≡ tid_text r.0 ∷ rest_fields (option_copied r.1)) }
{
    let [b'T', number @ ..] = line else {
        return None;
    };
    let (n, behind) = leading(number)?;
    let rest = end_of_field(behind)?;
    if n < 0x1_0000 {
        Some((Tid(n as u16), rest))
    } else {
        None
    }
}

/// The thread in the first field, and what is left behind it.
pub fn first_tid(line: &[u8]) -> Option<(Tid, Option<&[u8]>)>
    ensures some { IfSome result (λ r. fields line.now ≡ tid_text r.0 ∷ rest_fields (option_copied r.1)) }
    ensures fits { IfSome result (λ r. FitsTid r.0) }
    ensures none { IfNone result ((t : TidOf) → FitsTid t → slice_get (fields line.now) 0 ≢ Some (tid_text t)) }
{
    if let Some(found) = short_tid(line) {
        return Some(found);
    }
    let (thread, rest) = cut(line);
    match read_tid(thread) {
        Some(tid) => Some((tid, rest)),
        None => None,
    }
}

/// The environment in the first field, in one pass, and what is left behind it.
fn short_env(text: &[u8]) -> Option<(EnvId, Option<&[u8]>)>
    ensures { IfSome result (λ r. fields text.now ≡ env_text (Some r.0) ∷ rest_fields (option_copied r.1)) }
{
    let [b'E', numbers @ ..] = text else {
        return None;
    };
    let (tid, session, behind) = leading_dotted(numbers)?;
    let rest = end_of_field(behind)?;
    if tid < 0x1_0000 {
        let tid = Tid(tid as u16);
        Some((EnvId { tid, session }, rest))
    } else {
        None
    }
}

/// The environment in the first field, or none where that is `-`, and what is left behind it.
pub fn first_env(text: &[u8]) -> Option<(Option<EnvId>, Option<&[u8]>)>
    ensures some { IfSome result (λ r. fields text.now ≡ env_text r.0 ∷ rest_fields (option_copied r.1)) }
    ensures fits { IfSome result (λ r. FitsEnv r.0) }
    ensures none { IfNone result ((e : Option EnvOf) → FitsEnv e → slice_get (fields text.now) 0 ≢ Some (env_text e)) }
{
    if let Some((env, rest)) = short_env(text) {
        return Some((Some(env), rest));
    }
    let (env, rest) = cut(text);
    match read_env(env) {
        Some(env) => Some((env, rest)),
        None => None,
    }
}
