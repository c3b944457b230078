//! A record is answered, and it is said how it ended.

ghost use Rattle.std.specs.Prelude.{◌≡◌, ◌<◌, ◌++◌, ◌⊎◌, [], false, true, IfErr, IfOk, IfSome, List, None, OnErr, OnOk, Some, string_bytes, ℕ};
ghost use Rattle.std.specs.Option.{is_some, option_map};
ghost use Rattle.std.specs.Io.KnownBytes.{Appends};
ghost use Rattle.jg_watch.specs.declared.ending.Stop.TheVariants.{Write};
ghost use Rattle.jg_watch.specs.Logged.{advising_of, LogStandsIf};
ghost use Rattle.jg_watch.specs.Ends.{ended_line};
ghost use Rattle.jg_watch.specs.Lines.{IsTally};
ghost use Rattle.jg_watch.specs.Told.{Stands, nothing_told};
ghost use Rattle.jg_program.specs.declared.stop.ProgramStop.TheVariants.{Record};
ghost use Rattle.jg_program.specs.Ended.{IsHandedOn};
ghost use Rattle.jg_program.specs.Advising.{advice_asked, is_advised};
ghost use Rattle.jg_program.specs.Recorded.{AnswersRecord, EndsRecord, IsAdvice, IsEndText};

use crate::journal::{write_difference, write_number};
use crate::reporting::Reporting;
use crate::stop::{ProgramEnd, ProgramStop};
use crate::terms::Streams;
use crate::watch_report::report_record;
use jg_advice::AdviceLog;
use jg_policy::Setup;
use jg_record::cut_line;
use jg_script::{DeviceFailed, HandsOn, Watched, write_text};
use jg_watch::{Ended, Explanations, Shown, Stop, Watch, watch_lines};
use std::alloc::{AllocError, Global};
use std::io::{BufRead, Write};

/// Writes at which line the record ended, and why.
fn write_end<W: Write>(out: &mut Watched<W>, ended: Ended, text: &[u8]) -> Result<(), DeviceFailed>
    ensures written { OnOk result ((said : List ℕ) × IsEndText ended text.now said
        × Appends (W.contents out.old.device) (W.contents out.new.device) said) }
    ensures failed { OnErr result (out.new.failed ≡ true) }
{
    match ended {
        Ended::All { .. } | Ended::CutOff { .. } => Ok(()),
        Ended::Differs { line } => write_difference(out, line),
        Ended::Impossible { line } => {
            write_text(out, b"impossible at line ")?;
            write_number(out, line)?;
            write_text(out, b": ")?;
            write_text(out, cut_line(text).event)?;
            write_text(out, b"\n")
        }
    }
}

/// Writes the same; a failure is one of that line.
fn write_ended<W: Write>(
    out: &mut Watched<W>,
    ended: Ended,
    text: &[u8],
) -> Result<Ended, ProgramStop>
    ensures written { OnOk result ((said : List ℕ) × IsEndText ended text.now said
        × Appends (W.contents out.old.device) (W.contents out.new.device) said) }
    ensures same { IfOk result (λ same. same ≡ ended) }
    ensures failed { IfErr result (λ stop. (stop ≡ Record (Write (ended_line ended))) × (out.new.failed ≡ true)) }
{
    match write_end(out, ended, text) {
        Ok(()) => Ok(ended),
        Err(_) => Err(ProgramStop::Record(Stop::Write { line: ended.line() })),
    }
}

fn line_of(answered: Result<Ended, Stop>) -> u64 {
    match answered {
        Ok(ended) => ended.line(),
        Err(stop) => stop.line(),
    }
}

/// Answers the lines of a record, by a watch that was told nothing; `text` is room for one of them, and holds the one
/// that the record ended at. What is still buffered is handed on before it ends, also where it ends by a fault; a
/// failure of that counts as a failed write of the line that it ended at.
fn answer_lines<R: BufRead, W: HandsOn>(
    alloc: Global,
    watch: &mut Watch,
    shown: Shown,
    streams: &mut Streams<R, W>,
    text: &mut Vec<u8>,
    explanations: &mut Explanations,
    log: &mut Option<AdviceLog>,
) -> Result<Ended, ProgramStop>
    requires new { Stands watch.old nothing_told }
    requires none { IsTally [] watch.old.tally }
    requires denied { watch.old.denied ≡ 0 }
    requires explained { explanations.old.text ≡ Some [] }
    requires advised { LogStandsIf log.old [] }
    ensures answers { AnswersRecord watch.old.core.setup shown (R.remaining streams.old.reader.device)
        (R.remaining streams.new.reader.device) text.new.items (W.contents streams.old.out.device)
        (W.contents streams.new.out.device) watch.new explanations.new log.new result }
    ensures most { explanations.new.most ≡ explanations.old.most }
    ensures lost { explanations.new.text ≡ None → 0 < explanations.old.most }
    ensures advising { advising_of log.new ≡ advising_of log.old }
    ensures handed_on { IsHandedOn (W.holds_nothing streams.new.out.device) streams.new.out.failed result }
{
    let (reader, out) = (&mut streams.reader, &mut streams.out);
    let answered = watch_lines(alloc, watch, shown, reader, out, text, explanations, log);
    let written = match answered {
        Ok(ended) => write_ended(out, ended, text),
        Err(stop) => Err(ProgramStop::Record(stop)),
    };
    match out.flush() {
        Ok(()) => written,
        Err(_) => Err(ProgramStop::Record(Stop::Write {
            line: line_of(answered),
        })),
    }
}

/// What advises, where that is asked for. Fails for want of memory.
fn log_of(alloc: Global, reporting: Reporting) -> Result<Option<AdviceLog>, AllocError>
    ensures asked { IfOk result (λ log. advising_of log ≡ advice_asked reporting) }
    ensures new { IfOk result (λ log. LogStandsIf log []) }
    ensures refused { OnErr result (is_advised reporting ≡ true) }
{
    match reporting.advising() {
        None => Ok(None),
        Some((most, all)) => Ok(Some(AdviceLog::new(alloc, most, all)?)),
    }
}

/// The same, or none where memory runs out for it; and whether it didn't.
fn begin_log(alloc: Global, reporting: Reporting) -> (Option<AdviceLog>, bool)
    ensures new { LogStandsIf result.0 [] }
    ensures asked { result.1 ≡ true → advising_of result.0 ≡ advice_asked reporting }
    ensures refused { result.1 ≡ false → is_advised reporting ≡ true }
{
    match log_of(alloc, reporting) {
        Ok(log) => (log, true),
        Err(_) => (None, false),
    }
}

/// The explanations with the advice behind them; `None` where memory ran out for one of them.
fn with_advice(explained: Option<String>, log: Option<AdviceLog>) -> Option<String>
    ensures said { IfSome result (λ said. (explanations advice : List ℕ)
        × (option_map string_bytes explained ≡ Some explanations) × IsAdvice log advice
        × (string_bytes said ≡ explanations ++ advice)) }
    ensures lost { result ≡ None → (option_map string_bytes explained ≡ None) ⊎ (is_some log ≡ true) }
{
    let Some(log) = log else {
        return explained;
    };
    let mut said = explained?;
    let advice = log.into_text()?;
    match said.push_str(advice.as_str()) {
        Ok(()) => Some(said),
        Err(_) => None,
    }
}

/// The same, but where memory ran out for the log already.
fn said_of(explained: Option<String>, log: Option<AdviceLog>, is_advised: bool) -> Option<String>
    ensures said { IfSome result (λ said. (is_advised ≡ true) × ((explanations advice : List ℕ)
        × (option_map string_bytes explained ≡ Some explanations) × IsAdvice log advice
        × (string_bytes said ≡ explanations ++ advice))) }
    ensures lost { result ≡ None → (is_advised ≡ false)
        ⊎ ((option_map string_bytes explained ≡ None) ⊎ (is_some log ≡ true)) }
{
    if is_advised {
        with_advice(explained, log)
    } else {
        None
    }
}

/// Answers the record that the reader holds, under this setup, and says how it ended.
pub fn answer_record<R: BufRead, W: HandsOn>(
    alloc: Global,
    reporting: Reporting,
    shown: Shown,
    setup: Setup,
    streams: &mut Streams<R, W>,
) -> ProgramEnd
    ensures ends { EndsRecord reporting setup shown (R.remaining streams.old.reader.device)
        (R.remaining streams.new.reader.device) (W.contents streams.old.out.device)
        (W.contents streams.new.out.device) result }
    ensures handed_on { IsHandedOn (W.holds_nothing streams.new.out.device) streams.new.out.failed result.ended }
{
    let mut watch = Watch::new(alloc, setup);
    let mut text = Vec::new(alloc);
    let mut explanations = Explanations::new(alloc, reporting.explain);
    let (mut log, is_advised) = begin_log(alloc, reporting);
    let ended = answer_lines(
        alloc,
        &mut watch,
        shown,
        streams,
        &mut text,
        &mut explanations,
        &mut log,
    );
    let said = said_of(explanations.into_text(), log, is_advised);
    report_record(alloc, reporting, &watch, said, ended)
}
