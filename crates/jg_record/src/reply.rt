//! What a core answers to an event.

ghost use Rattle.std.specs.Prelude.{◌≡◌, ◌++◌, OnOk, string_bytes};
ghost use Rattle.jg_words.specs.declared.entry.Outcome.TheVariants as outcome;
ghost use Rattle.jg_text.specs.Journal.{outcome_text};
ghost use Rattle.jg_record.specs.Replies.{reply_text};

use crate::push::push_object;
use jg_text::{push_buf, push_env, push_number, push_ref};
use jg_words::{BufId, EnvId, ObjId, Ref, Rule};
use std::alloc::AllocError;

/// What a core answers to an event.
#[derive(Clone, Copy, PartialEq, Eq)]
pub enum Reply {
    /// The question breaks no rule.
    Passed,
    /// It breaks this rule first.
    Denied(Rule),
    /// The environment of the session that began.
    Environment(EnvId),
    /// The reference that the thread was handed.
    Reference(Ref),
    /// The buffer that it was lent.
    Buffer(BufId),
    /// The object that was met.
    Object(ObjId),
    /// Nothing is answered: no answer stands in the line.
    Nothing,
}

/// Writes the text of a denial by the rule.
fn push_denial(out: &mut String, rule: Rule) -> Result<(), AllocError>
    ensures { OnOk result (string_bytes out.new ≡ string_bytes out.old ++ outcome_text (outcome.Denied rule)) }
{
    let number = rule.number();
    let name = rule.name();
    out.push_str("deny ")?;
    push_number(out, u64::from(number))?;
    out.push(' ')?;
    out.push_str(name)
}

/// Writes what a core answers, as it stands behind ` = ` in a line: nothing, where it answers nothing. Fails only for
/// want of memory, and may have written a part then.
pub fn push_answer(out: &mut String, reply: Reply) -> Result<(), AllocError>
    ensures { OnOk result (string_bytes out.new ≡ string_bytes out.old ++ reply_text reply) }
{
    match reply {
        Reply::Passed => out.push_str("passed"),
        Reply::Denied(rule) => push_denial(out, rule),
        Reply::Environment(env) => push_env(out, Some(env)),
        Reply::Reference(reference) => push_ref(out, reference),
        Reply::Buffer(buffer) => push_buf(out, buffer),
        Reply::Object(object) => push_object(out, object),
        Reply::Nothing => Ok(()),
    }
}
