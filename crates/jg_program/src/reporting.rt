//! What is told beside the journal: by the status, and on standard error.

ghost use Rattle.std.specs.Prelude.{◌≡◌, ◌⊎◌, ◌++◌, ◌||◌, [], codes, Err, false, IfOk, IfSome, List, None, Ok, OnErr, OnOk, string_bytes, true, ℕ};
ghost use Rattle.jg_explain.specs.Texts.{explanations_text};
ghost use Rattle.jg_program.specs.About.{IsAbout};
ghost use Rattle.jg_program.specs.Advising.{advice_asked, is_advised, SaysAdvice};
ghost use Rattle.jg_program.specs.Reported.{EndsSummed, Explains, IsToldIf, Reports, SaysLeaks, SaysSummary, Tells, TellsNothing, any_denied, is_explained, said_text, strict_status};

use crate::about::{About, push_about};
use crate::stop::{ProgramEnd, ProgramStop, Said, Status, quietly};
use crate::summary::push_summary;
use jg_args::Advising;
use jg_explain::{explain_first, explain_leaks};
use jg_guard::{Guard, NoMemory};
use jg_script::write_leaks;
use std::alloc::{AllocError, Global};

/// What is to be told beside the journal.
#[derive(Clone, Copy)]
pub struct Reporting {
    /// How many denials are explained at most: the first ones.
    pub explain: u32,
    /// Whether and how it is advised of what is legal and likely wrong.
    pub advice: Advising,
    /// How many calls may be made in a critical region before advice calls it long.
    pub region: u32,
    /// Whether a denied call is told by the status.
    pub strict: bool,
    /// Whether it is said what is left behind.
    pub leaks: bool,
    /// Whether the summary is said.
    pub summary: bool,
}

impl Reporting {
    /// How many calls may be made in a region that isn't long, and whether each advice is told or the first of each
    /// kind and function, where advice is asked for.
    pub fn advising(self) -> Option<(u64, bool)>
        ensures { result ≡ advice_asked self }
    {
        let most = u64::from(self.region);
        match self.advice {
            Advising::Never => None,
            Advising::Once => Some((most, false)),
            Advising::Each => Some((most, true)),
        }
    }
}

/// Whether some call of the guard's journal was denied.
fn any_denied(guard: &Guard) -> bool
    ensures { result ≡ any_denied guard.now.journal }
{
    (guard.passed() as usize) < guard.journal_len()
}

fn strict_status(strict: bool, guard: &Guard, status: Status) -> Status
    ensures { result ≡ strict_status strict guard.now.journal status }
{
    if strict && status == Status::Done && any_denied(guard) {
        Status::Denied
    } else {
        status
    }
}

/// Adds the explanations that are asked for; without any no memory is needed.
fn push_explanations(
    alloc: Global,
    reporting: Reporting,
    guard: &Guard,
    out: &mut String,
) -> Result<(), NoMemory>
    ensures told { OnOk result (string_bytes out.new
        ≡ string_bytes out.old ++ explanations_text guard.now.setup guard.now.journal reporting.explain) }
    ensures refused { OnErr result (is_explained reporting ≡ true) }
{
    if reporting.explain == 0 {
        return Ok(());
    }
    let text = explain_first(guard, alloc, reporting.explain as usize)?;
    match out.push_str(text.as_str()) {
        Ok(()) => Ok(()),
        Err(_) => Err(NoMemory),
    }
}

/// Adds the advice, where it is asked for; without any no memory is needed.
fn push_advice(reporting: Reporting, advised: &str, out: &mut String) -> Result<(), NoMemory>
    requires { is_advised reporting ≡ false → advised.now ≡ [] }
    ensures told { OnOk result (string_bytes out.new ≡ string_bytes out.old ++ advised.now) }
    ensures refused { OnErr result (is_advised reporting ≡ true) }
{
    if reporting.advising().is_none() {
        return Ok(());
    }
    match out.push_str(advised) {
        Ok(()) => Ok(()),
        Err(_) => Err(NoMemory),
    }
}

/// Adds the explanations that are asked for, and this advice behind them.
fn push_explained(
    alloc: Global,
    reporting: Reporting,
    guard: &Guard,
    advised: &str,
    out: &mut String,
) -> Result<(), NoMemory>
    requires { SaysAdvice reporting guard.now.setup guard.now.journal advised.now }
    ensures told { OnOk result ((explained : List ℕ)
        × Explains reporting guard.now.setup guard.now.journal explained
        × (string_bytes out.new ≡ string_bytes out.old ++ explained)) }
    ensures refused { OnErr result (is_explained reporting || is_advised reporting ≡ true) }
{
    push_explanations(alloc, reporting, guard, out)?;
    push_advice(reporting, advised, out)
}

/// The text of what the guard's journal leaves behind.
fn leaks_of(alloc: Global, explained: bool, guard: &Guard) -> Result<String, NoMemory>
    ensures { IfOk result (λ said. SaysLeaks true explained guard.now.setup guard.now.journal (string_bytes said)) }
{
    let Ok(left) = guard.leaks() else {
        return Err(NoMemory);
    };
    if explained {
        return explain_leaks(guard, alloc, &left);
    }
    match write_leaks(alloc, &left) {
        Ok(said) => Ok(said),
        Err(_) => Err(NoMemory),
    }
}

/// Adds what is left behind, where that is asked for.
fn push_leaks(
    alloc: Global,
    reporting: Reporting,
    guard: &Guard,
    out: &mut String,
) -> Result<(), NoMemory>
    ensures said { OnOk result ((left : List ℕ) × SaysLeaks reporting.leaks (is_explained reporting) guard.now.setup
        guard.now.journal left × (string_bytes out.new ≡ string_bytes out.old ++ left)) }
    ensures asked { OnErr result (reporting.leaks ≡ true) }
    ensures kept { OnErr result (string_bytes out.new ≡ string_bytes out.old) }
{
    if !reporting.leaks {
        return Ok(());
    }
    let left = leaks_of(alloc, reporting.explain > 0, guard)?;
    match out.push_str(left.as_str()) {
        Ok(()) => Ok(()),
        Err(_) => Err(NoMemory),
    }
}

pub(crate) fn ending_with(ended: Result<Status, ProgramStop>, text: String) -> ProgramEnd
    ensures ended { result.ended ≡ ended }
    ensures said { said_text result.said ≡ string_bytes text }
{
    ProgramEnd {
        ended,
        said: Said::Text(text),
    }
}

/// Ends where memory ran out for what is explained.
pub(crate) fn tell_nothing(alloc: Global, ended: Result<Status, ProgramStop>) -> ProgramEnd
    ensures { TellsNothing ended result }
{
    match ended {
        Ok(_) => quietly(alloc, Err(ProgramStop::Explain)),
        Err(stop) => ProgramEnd {
            ended: Err(stop),
            said: Said::NoMemory,
        },
    }
}

/// Adds the summary, where it is asked for.
fn push_summary_if(
    alloc: Global,
    asked: bool,
    guard: &Guard,
    out: &mut String,
) -> Result<(), AllocError>
    ensures said { OnOk result ((summary : List ℕ) × SaysSummary asked guard.now.setup guard.now.journal summary
        × (string_bytes out.new ≡ string_bytes out.old ++ summary)) }
    ensures asked { OnErr result (asked ≡ true) }
    ensures kept { OnErr result (string_bytes out.new ≡ string_bytes out.old) }
{
    if !asked {
        return Ok(());
    }
    let mut text = String::new(alloc);
    push_summary(&mut text, guard)?;
    out.push_str(text.as_str())
}

/// Ends where the work was done and what is left behind was said.
fn report_left(
    alloc: Global,
    reporting: Reporting,
    guard: &Guard,
    said: String,
    status: Status,
) -> ProgramEnd
    ensures { EndsSummed (string_bytes said) reporting guard.now.setup guard.now.journal status result }
{
    let mut said = said;
    match push_summary_if(alloc, reporting.summary, guard, &mut said) {
        Ok(()) => ending_with(Ok(strict_status(reporting.strict, guard, status)), said),
        Err(_) => ending_with(Err(ProgramStop::Summary), said),
    }
}

/// Ends where the work was done.
fn report_done(
    alloc: Global,
    reporting: Reporting,
    guard: &Guard,
    about: String,
    advised: &str,
    status: Status,
) -> ProgramEnd
    requires { SaysAdvice reporting guard.now.setup guard.now.journal advised.now }
    ensures { ((explained : List ℕ) × Explains reporting guard.now.setup guard.now.journal explained
        × Tells (string_bytes about) explained reporting guard.now.setup guard.now.journal (Ok status) result)
        ⊎ ((is_explained reporting || is_advised reporting ≡ true) × TellsNothing (Ok status) result) }
{
    let mut said = about;
    let Ok(()) = push_explained(alloc, reporting, guard, advised, &mut said) else {
        return tell_nothing(alloc, Ok(status));
    };
    match push_leaks(alloc, reporting, guard, &mut said) {
        Ok(()) => report_left(alloc, reporting, guard, said, status),
        Err(_) => ending_with(Err(ProgramStop::Leaks), said),
    }
}

pub(crate) fn ending_short(stop: ProgramStop, text: String) -> ProgramEnd
    ensures ended { result.ended ≡ Err stop }
    ensures said { said_text result.said ≡ string_bytes text ++ codes "summary: no memory\n" }
{
    ProgramEnd {
        ended: Err(stop),
        said: Said::Short(text),
    }
}

/// Ends where the work was stopped.
fn report_stopped(
    alloc: Global,
    reporting: Reporting,
    guard: &Guard,
    about: String,
    advised: &str,
    stop: ProgramStop,
) -> ProgramEnd
    requires { SaysAdvice reporting guard.now.setup guard.now.journal advised.now }
    ensures { ((explained : List ℕ) × Explains reporting guard.now.setup guard.now.journal explained
        × Tells (string_bytes about) explained reporting guard.now.setup guard.now.journal (Err stop) result)
        ⊎ ((is_explained reporting || is_advised reporting ≡ true) × TellsNothing (Err stop) result) }
{
    let mut said = about;
    let Ok(()) = push_explained(alloc, reporting, guard, advised, &mut said) else {
        return tell_nothing(alloc, Err(stop));
    };
    match push_summary_if(alloc, reporting.summary, guard, &mut said) {
        Ok(()) => ending_with(Err(stop), said),
        Err(_) => ending_short(stop, said),
    }
}

/// What is told of where the work stopped; nothing without explanations.
fn about_text(
    alloc: Global,
    reporting: Reporting,
    guard: &Guard,
    about: About<'_>,
    ended: Result<Status, ProgramStop>,
) -> Result<String, AllocError>
    ensures told { IfOk result (λ text. IsToldIf (is_explained reporting) (IsAbout about.entry ended)
        (string_bytes text)) }
    ensures refused { OnErr result (is_explained reporting ≡ true) }
{
    let mut text = String::new(alloc);
    if reporting.explain > 0 {
        push_about(alloc, guard, about, ended, &mut text)?;
    }
    Ok(text)
}

/// How the program ends after the guard's journal, where its work was done or stopped so: what there is
/// to tell about that comes first, then the explanations and this advice, then what is left behind, and last the
/// summary. All of it is made before any of it is written. `None` is for advice for which memory ran out.
pub fn report(
    alloc: Global,
    reporting: Reporting,
    guard: &Guard,
    about: About<'_>,
    ended: Result<Status, ProgramStop>,
    advised: Option<String>,
) -> ProgramEnd
    requires said { IfSome advised (λ text. SaysAdvice reporting guard.now.setup guard.now.journal
        (string_bytes text)) }
    requires lost { advised ≡ None → is_advised reporting ≡ true }
    ensures { Reports (IsAbout about.entry ended) reporting guard.now.setup guard.now.journal ended result }
{
    let Some(advised) = advised else {
        return tell_nothing(alloc, ended);
    };
    match about_text(alloc, reporting, guard, about, ended) {
        Ok(text) => match ended {
            Ok(status) => report_done(alloc, reporting, guard, text, advised.as_str(), status),
            Err(stop) => report_stopped(alloc, reporting, guard, text, advised.as_str(), stop),
        },
        Err(_) => tell_nothing(alloc, ended),
    }
}
