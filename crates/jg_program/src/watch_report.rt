//! What is told beside the answers to a record: by the status, and on standard error.

ghost use Rattle.std.specs.Prelude.{◌≡◌, ◌++◌, ◌||◌, Err, List, None, Ok, OnErr, OnOk, Some, string_bytes, true, ℕ};
ghost use Rattle.std.specs.Option.{option_map};
ghost use Rattle.jg_program.specs.Advising.{is_advised};
ghost use Rattle.jg_program.specs.Recorded.{EndsWith, SaysLeft, end_said, end_status, lists_left, status_ended, summary_if};
ghost use Rattle.jg_program.specs.Reported.{is_explained, said_text};

use crate::reporting::{Reporting, ending_short, ending_with, tell_nothing};
use crate::stop::{ProgramEnd, ProgramStop, Said, Status};
use crate::summary::push_record_summary;
use jg_script::write_leaks;
use jg_watch::{Ended, Watch};
use std::alloc::{AllocError, Global};

/// A line that differs or can't be is told by the status, and where that is asked for, a denied question.
fn status_of(strict: bool, watch: &Watch, ended: Ended) -> Status
    ensures { result ≡ end_status strict watch.now.tally ended }
{
    match ended {
        Ended::Differs { .. } | Ended::Impossible { .. } => Status::Differs,
        Ended::All { .. } | Ended::CutOff { .. } => {
            if strict && watch.has_denied() {
                Status::Denied
            } else {
                Status::Done
            }
        }
    }
}

fn status_ended(
    strict: bool,
    watch: &Watch,
    ended: Result<Ended, ProgramStop>,
) -> Result<Status, ProgramStop>
    ensures { result ≡ status_ended strict watch.now.tally ended }
{
    match ended {
        Ok(ended) => Ok(status_of(strict, watch, ended)),
        Err(stop) => Err(stop),
    }
}

/// Whether it is listed what is left behind: where that is asked for, and the record was answered to its end.
fn lists_left(leaks: bool, ended: Ended) -> bool
    ensures { result ≡ lists_left leaks ended }
{
    match ended {
        Ended::All { .. } | Ended::CutOff { .. } => leaks,
        Ended::Differs { .. } | Ended::Impossible { .. } => false,
    }
}

/// Adds what is left behind, where that is asked for.
fn push_left(alloc: Global, asked: bool, watch: &Watch, out: &mut String) -> Result<(), AllocError>
    ensures said { OnOk result ((left : List ℕ) × SaysLeft asked watch.now left
        × (string_bytes out.new ≡ string_bytes out.old ++ left)) }
    ensures asked { OnErr result (asked ≡ true) }
    ensures kept { OnErr result (string_bytes out.new ≡ string_bytes out.old) }
{
    if !asked {
        return Ok(());
    }
    let left = watch.leaks()?;
    let text = write_leaks(alloc, &left)?;
    out.push_str(text.as_str())
}

/// Adds the summary, where that is asked for.
fn push_summary_if(
    alloc: Global,
    asked: bool,
    watch: &Watch,
    out: &mut String,
) -> Result<(), AllocError>
    ensures said { OnOk result (string_bytes out.new ≡ string_bytes out.old ++ summary_if asked watch.now) }
    ensures asked { OnErr result (asked ≡ true) }
    ensures kept { OnErr result (string_bytes out.new ≡ string_bytes out.old) }
{
    if !asked {
        return Ok(());
    }
    let mut text = String::new(alloc);
    push_record_summary(&mut text, watch)?;
    out.push_str(text.as_str())
}

/// The ending with this text, behind where the record is cut off, if it is.
fn ending_at(at: Ended, ended: Result<Status, ProgramStop>, text: String) -> ProgramEnd
    ensures ended { result.ended ≡ ended }
    ensures said { said_text result.said ≡ end_said at ++ string_bytes text }
{
    let said = match at {
        Ended::CutOff { line } => Said::CutOff { line, text },
        _ => Said::Text(text),
    };
    ProgramEnd { ended, said }
}

/// Ends where the record did.
fn report_ended(
    alloc: Global,
    reporting: Reporting,
    watch: &Watch,
    explained: String,
    ended: Ended,
) -> ProgramEnd
    ensures { EndsWith reporting watch.now (Some (string_bytes explained)) (Ok ended) result }
{
    let mut said = explained;
    let Ok(()) = push_left(alloc, lists_left(reporting.leaks, ended), watch, &mut said) else {
        return ending_at(ended, Err(ProgramStop::Leaks), said);
    };
    match push_summary_if(alloc, reporting.summary, watch, &mut said) {
        Ok(()) => ending_at(ended, Ok(status_of(reporting.strict, watch, ended)), said),
        Err(_) => ending_at(ended, Err(ProgramStop::Summary), said),
    }
}

/// Ends where the record was stopped.
fn report_stopped(
    alloc: Global,
    reporting: Reporting,
    watch: &Watch,
    explained: String,
    stop: ProgramStop,
) -> ProgramEnd
    ensures { EndsWith reporting watch.now (Some (string_bytes explained)) (Err stop) result }
{
    let mut said = explained;
    match push_summary_if(alloc, reporting.summary, watch, &mut said) {
        Ok(()) => ending_with(Err(stop), said),
        Err(_) => ending_short(stop, said),
    }
}

/// How the program ends after the answers to a record, of which so much was explained and advised; `None` where memory
/// ran out for that. All of what is said is made before any of it is written.
pub fn report_record(
    alloc: Global,
    reporting: Reporting,
    watch: &Watch,
    explained: Option<String>,
    ended: Result<Ended, ProgramStop>,
) -> ProgramEnd
    requires { option_map string_bytes explained ≡ None → is_explained reporting || is_advised reporting ≡ true }
    ensures { EndsWith reporting watch.now (option_map string_bytes explained) ended result }
{
    let Some(explained) = explained else {
        return tell_nothing(alloc, status_ended(reporting.strict, watch, ended));
    };
    match ended {
        Ok(ended) => report_ended(alloc, reporting, watch, explained, ended),
        Err(stop) => report_stopped(alloc, reporting, watch, explained, stop),
    }
}
