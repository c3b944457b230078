//! An entry as a line of the journal.

ghost use Rattle.std.specs.Prelude.{◌≡◌, ◌++◌, IfOk, OnOk, string_bytes};
ghost use Rattle.jg_words.specs.declared.entry.Outcome.TheVariants as Outcome;
ghost use Rattle.jg_text.specs.Journal.{entry_text, answer_text, outcome_text, value_text, reply_text, thrown_name, FitsValue, FitsOutcome};

use crate::digits::{push_number, push_signed};
use crate::groups;
use crate::list::push_items;
use crate::word::{push_buf, push_env, push_field, push_ref, push_tid};
use jg_words::{Entry, Rule, Thrown, Value};
use std::alloc::{AllocError, Global};

/// The class of the exception.
fn name_of_thrown(thrown: Thrown) -> &'static str
    ensures { result.now ≡ thrown_name thrown }
{
    match thrown {
        Thrown::ArrayIndexOutOfBounds => "java/lang/ArrayIndexOutOfBoundsException",
        Thrown::StringIndexOutOfBounds => "java/lang/StringIndexOutOfBoundsException",
        Thrown::NoClassDefFound => "java/lang/NoClassDefFoundError",
        Thrown::NoSuchField => "java/lang/NoSuchFieldError",
        Thrown::NoSuchMethod => "java/lang/NoSuchMethodError",
    }
}

/// Writes the text of what a passed call answers.
fn push_value(out: &mut String, value: &Value) -> Result<(), AllocError>
    ensures written { OnOk result (string_bytes out.new ≡ string_bytes out.old ++ value_text value.now) }
    ensures fits { OnOk result (FitsValue value.now) }
{
    match value {
        Value::Ok => out.push_str("ok"),
        Value::Number(n) => push_signed(out, *n),
        Value::Truth(true) => out.push_str("true"),
        Value::Truth(false) => out.push_str("false"),
        Value::Null => out.push_str("null"),
        Value::Reference(r) => push_ref(out, *r),
        Value::Buffer(b) => push_buf(out, *b),
        Value::Field(f) => push_field(out, *f),
        Value::Environment(env) => push_env(out, Some(*env)),
        Value::List(items) => push_items(out, items.as_slice()),
        Value::Busy => out.push_str("busy"),
        Value::Detached => out.push_str("detached"),
        Value::Throw(thrown) => {
            let name = name_of_thrown(*thrown);
            out.push_str("throw ")?;
            out.push_str(name)
        }
    }
}

/// Writes the same, with its notice and its warning.
fn push_reply(
    out: &mut String,
    value: &Value,
    warned: bool,
    noticed: bool,
) -> Result<(), AllocError>
    ensures written { OnOk result (string_bytes out.new ≡ string_bytes out.old
        ++ reply_text (record { value = value.now; warned = warned; noticed = noticed })) }
    ensures fits { OnOk result (FitsValue value.now) }
{
    push_value(out, value)?;
    if noticed {
        out.push_str(" notice")?;
    }
    if warned {
        out.push_str(" warn")?;
    }
    Ok(())
}

/// Writes the outcome's text.
fn push_outcome(out: &mut String, entry: &Entry) -> Result<(), AllocError>
    ensures written { OnOk result (string_bytes out.new ≡ string_bytes out.old ++ outcome_text entry.now.outcome) }
    ensures fits { OnOk result (FitsOutcome entry.now.outcome) }
{
    match (entry.value(), entry.rule()) {
        (Some(value), _) => push_reply(out, value, entry.warned(), entry.noticed()),
        (None, Some(rule)) => push_denial(out, rule),
        (None, None) => Ok(()),
    }
}

/// Writes the text of a denial by the rule.
fn push_denial(out: &mut String, rule: Rule) -> Result<(), AllocError>
    ensures { OnOk result (string_bytes out.new ≡ string_bytes out.old ++ outcome_text (Outcome.Denied rule)) }
{
    let number = rule.number();
    let name = rule.name();
    out.push_str("deny ")?;
    push_number(out, u64::from(number))?;
    out.push(' ')?;
    out.push_str(name)
}

/// Writes what stands behind the call in the entry's line: the outcome, with the line feed.
pub fn push_answer(out: &mut String, entry: &Entry) -> Result<(), AllocError>
    ensures written { OnOk result (string_bytes out.new ≡ string_bytes out.old ++ answer_text entry.now.outcome) }
    ensures fits { OnOk result (FitsOutcome entry.now.outcome) }
{
    out.push_str(" = ")?;
    push_outcome(out, entry)?;
    out.push('\n')?;
    Ok(())
}

/// Writes the entry's line of the journal, with its line feed.
pub fn push_entry(out: &mut String, entry: &Entry) -> Result<(), AllocError>
    ensures written { OnOk result (string_bytes out.new ≡ string_bytes out.old ++ entry_text entry.now) }
    ensures fits { OnOk result (FitsOutcome entry.now.outcome) }
{
    let call = entry.call();
    push_tid(out, entry.tid())?;
    out.push(' ')?;
    push_env(out, entry.env())?;
    out.push(' ')?;
    out.push_str(call.fun().name())?;
    groups::write(out, call)?;
    push_answer(out, entry)?;
    Ok(())
}

/// The entry's line of the journal, with its line feed. Fails only for want of memory.
pub fn write_entry(alloc: Global, entry: &Entry) -> Result<String, AllocError>
    ensures written { IfOk result (λ text. string_bytes text ≡ entry_text entry.now) }
    ensures fits { OnOk result (FitsOutcome entry.now.outcome) }
{
    let mut out = String::with_capacity(alloc, 128)?;
    push_entry(&mut out, entry)?;
    Ok(out)
}
