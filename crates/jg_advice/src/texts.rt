//! Advice in words.

ghost use Rattle.std.specs.Prelude.{◌≡◌, ◌++◌, OnOk, string_bytes};
ghost use Rattle.jg_advice.specs.Texts as texts;
ghost use Rattle.jg_rows.specs.ByName.{name_at};

use crate::advice::{Advice, Kind, Source};
use jg_rows::row_of;
use jg_text::{push_number, push_tid};
use std::alloc::AllocError;

/// The name of the kind.
pub fn kind_word(kind: Kind) -> &'static str
    ensures { result.now ≡ texts.kind_text kind }
{
    match kind {
        Kind::Unchecked => "unchecked",
        Kind::WritesLost => "writes lost",
        Kind::CommittedAndKept => "committed and kept",
        Kind::LongRegion => "long region",
        Kind::MonitorAtDetachment => "monitor at detachment",
        Kind::DescriptorForName => "descriptor for a name",
        Kind::Growing => "growing",
    }
}

/// What is amiss, in a sentence.
pub fn sentence(kind: Kind) -> &'static str
    ensures { result.now ≡ texts.sentence_of kind }
{
    match kind {
        Kind::Unchecked => "nobody asked whether the call before it threw",
        Kind::WritesLost => "JNI_ABORT throws away what was written to the copy",
        Kind::CommittedAndKept => "a buffer was released by JNI_COMMIT alone",
        Kind::LongRegion => "a critical region was long, or the collector ran in it",
        Kind::MonitorAtDetachment => "a thread's session ended while it owned a monitor",
        Kind::DescriptorForName => "a class is named as java/lang/String",
        Kind::Growing =>
            "a frame holds more than ten times the local references that it has room for",
    }
}

/// What the earlier call did.
pub fn verb(kind: Kind) -> &'static str
    ensures { result.now ≡ texts.verb_of kind }
{
    match kind {
        Kind::Unchecked | Kind::DescriptorForName => "called",
        Kind::WritesLost => "written",
        Kind::CommittedAndKept => "committed",
        Kind::LongRegion => "begun",
        Kind::MonitorAtDetachment => "entered",
        Kind::Growing => "made",
    }
}

/// What helps.
pub fn help(kind: Kind) -> &'static str
    ensures { result.now ≡ texts.help_of kind }
{
    match kind {
        Kind::Unchecked => "ask by ExceptionCheck or ExceptionOccurred before the next call",
        Kind::WritesLost => "release it with mode 0, or write elsewhere",
        Kind::CommittedAndKept => "release it once more, with mode 0 or JNI_ABORT",
        Kind::LongRegion => "do less in the region, or copy by GetArrayRegion",
        Kind::MonitorAtDetachment => "exit the monitor before the thread is detached",
        Kind::DescriptorForName => "leave out L and ;, and write / for each dot",
        Kind::Growing => "delete each local reference after its use, or push and pop a frame",
    }
}

fn function_name(function: u16) -> &'static str
    ensures { result.now ≡ name_at function }
{
    match row_of(usize::from(function)) {
        None => "",
        Some(row) => row.name,
    }
}

fn push_place(out: &mut String, line: Option<u64>) -> Result<(), AllocError>
    ensures { OnOk result (string_bytes out.new ≡ string_bytes out.old ++ texts.place_text line) }
{
    match line {
        None => out.push_str("end"),
        Some(line) => {
            out.push_str("line ")?;
            push_number(out, line)
        }
    }
}

fn push_function(out: &mut String, function: Option<u16>) -> Result<(), AllocError>
    ensures { OnOk result (string_bytes out.new ≡ string_bytes out.old ++ texts.function_text function) }
{
    match function {
        None => Ok(()),
        Some(function) => {
            out.push_str(" ")?;
            out.push_str(function_name(function))
        }
    }
}

fn push_of(out: &mut String, function: Option<u16>) -> Result<(), AllocError>
    ensures { OnOk result (string_bytes out.new ≡ string_bytes out.old ++ texts.of_text function) }
{
    match function {
        None => Ok(()),
        Some(function) => {
            out.push_str(" of ")?;
            out.push_str(function_name(function))
        }
    }
}

/// By whom the earlier call was made, with its line feed.
fn push_caller(out: &mut String, call: Source) -> Result<(), AllocError>
    ensures { OnOk result (string_bytes out.new ≡ string_bytes out.old ++ texts.caller_text call) }
{
    out.push_str(" by ")?;
    push_tid(out, call.tid)?;
    push_function(out, call.function)?;
    out.push_str("\n")
}

fn push_source(out: &mut String, kind: Kind, source: Option<Source>) -> Result<(), AllocError>
    ensures { OnOk result (string_bytes out.new ≡ string_bytes out.old ++ texts.source_text kind source) }
{
    let Some(call) = source else {
        return Ok(());
    };
    out.push_str("  ")?;
    out.push_str(verb(kind))?;
    out.push_str(" at line ")?;
    push_number(out, call.line)?;
    push_caller(out, call)
}

/// The kind and the function of advice.
pub fn push_head(out: &mut String, kind: Kind, function: Option<u16>) -> Result<(), AllocError>
    ensures { OnOk result (string_bytes out.new ≡ string_bytes out.old ++ texts.head_text kind function) }
{
    out.push_str("advice ")?;
    out.push_str(kind_word(kind))?;
    push_of(out, function)
}

fn push_help(out: &mut String, kind: Kind) -> Result<(), AllocError>
    ensures { OnOk result (string_bytes out.new ≡ string_bytes out.old ++ texts.help_text kind) }
{
    out.push_str("  help: ")?;
    out.push_str(help(kind))?;
    out.push_str("\n")
}

/// The line that says what is amiss.
fn push_sentence(out: &mut String, advice: Advice) -> Result<(), AllocError>
    ensures { OnOk result (string_bytes out.new ≡ string_bytes out.old ++ texts.sentence_text advice) }
{
    push_place(out, advice.line)?;
    out.push_str(": ")?;
    push_head(out, advice.kind, advice.function)?;
    out.push_str(": ")?;
    out.push_str(sentence(advice.kind))?;
    out.push_str("\n")
}

/// Adds the advice: what is amiss and where, the earlier call, and what helps.
pub fn push_advice(out: &mut String, advice: Advice) -> Result<(), AllocError>
    ensures { OnOk result (string_bytes out.new ≡ string_bytes out.old ++ texts.advice_text advice) }
{
    push_sentence(out, advice)?;
    push_source(out, advice.kind, advice.source)?;
    push_help(out, advice.kind)
}
