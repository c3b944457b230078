//! When a condition turned, as it is told.

ghost use Rattle.std.specs.Prelude.{◌≡◌, ◌++◌, OnOk, string_bytes};
ghost use Rattle.jg_denial_text.specs.Moments as moments;

use jg_breaches::Condition;
use jg_text::{push_number, push_tid};
use jg_words::Entry;
use std::alloc::AllocError;

/// What it is called where the condition comes to hold.
pub fn begun(condition: Condition) -> &'static str
    ensures { result.now ≡ moments.begun_text condition }
{
    match condition {
        Condition::IsAttached { .. } => "attached",
        Condition::IsPresent { .. } => "attached",
        Condition::HasPending { .. } => "raised",
        Condition::Names { .. } => "made",
        Condition::NamesObject { .. } => "made",
        Condition::IsOpen { .. } => "lent",
        Condition::Owns { .. } => "entered",
        Condition::IsOwned { .. } => "entered",
        Condition::HasFrame { .. } => "pushed",
        Condition::InNative { .. } => "entered",
        Condition::IsLinked { .. } => "linked",
    }
}

/// What it is called where the condition comes to hold no more.
pub fn ended(condition: Condition) -> &'static str
    ensures { result.now ≡ moments.ended_text condition }
{
    match condition {
        Condition::IsAttached { .. } => "detached",
        Condition::IsPresent { .. } => "detached",
        Condition::HasPending { .. } => "cleared",
        Condition::Names { .. } => "ended",
        Condition::NamesObject { .. } => "cleared",
        Condition::IsOpen { .. } => "released",
        Condition::Owns { .. } => "exited",
        Condition::IsOwned { .. } => "exited",
        Condition::HasFrame { .. } => "popped",
        Condition::InNative { .. } => "left",
        Condition::IsLinked { .. } => "unlinked",
    }
}

/// An entry of a journal, by its line from 1, its thread and its function.
pub fn push_moment(out: &mut String, line: u64, entry: &Entry) -> Result<(), AllocError>
    ensures { OnOk result (string_bytes out.new ≡ string_bytes out.old ++ moments.moment_text line entry.now) }
{
    out.push_str(" at line ")?;
    push_number(out, line)?;
    out.push_str(" by ")?;
    push_tid(out, entry.tid())?;
    out.push_str(" ")?;
    out.push_str(entry.call().fun().name())
}
