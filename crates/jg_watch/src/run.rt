//! A record is answered line by line.

ghost use Rattle.std.specs.Prelude.{◌≡◌, ◌<◌, [], Some};
ghost use Rattle.jg_watch.specs.Logged.{advising_of, LogStandsIf};
ghost use Rattle.jg_watch.specs.Ends.{ReaderFails, Watches, WriterFails};
ghost use Rattle.jg_watch.specs.Lines.{IsTally};
ghost use Rattle.jg_watch.specs.Steps.{AnswersNext};
ghost use Rattle.jg_watch.specs.Told.{Stands, Told, nothing_told};

use crate::advising::advise;
use crate::ending::{Ended, Stop};
use crate::explanations::Explanations;
use crate::line::{Room, Step, answer_line};
use crate::watch::{Shown, Watch};
use jg_advice::AdviceLog;
use jg_lines::{LineFault, Taken, Watched, hand_over, next_line};
use jg_record::RecordFault;
use std::alloc::{Allocator, Global};
use std::io::{BufRead, Write};

/// Answers the next line, whose number is `line`.
fn answer_next<A: Allocator + Copy, R: BufRead, W: Write>(
    watch: &mut Watch<A>,
    shown: Shown,
    reader: &mut Watched<R>,
    writer: &mut Watched<W>,
    text: &mut Vec<u8>,
    room: &mut Room,
    line: u64,
) -> Result<Step, Stop>
    requires { 0 < line }
    ensures answers { (told : Told) → Stands watch.old told → AnswersNext watch.old.core.setup shown told watch.new
        room.new.lists.arguments.items room.new.lists.objects.items (R.remaining reader.old.device)
        (R.remaining reader.new.device) text.new.items (W.contents writer.old.device) (W.contents writer.new.device)
        line result }
    ensures setup { watch.new.core.setup ≡ watch.old.core.setup }
    ensures tally { watch.new.tally ≡ watch.old.tally }
    ensures denied { watch.new.denied ≡ watch.old.denied }
    ensures reader { ReaderFails reader.old.failed reader.new.failed result }
    ensures writer { WriterFails writer.old.failed writer.new.failed result }
{
    let taken = match next_line(reader, text) {
        Ok(taken) => taken,
        Err(LineFault::Read) => return Err(Stop::Read { line }),
        Err(LineFault::NoMemory) => return Err(Stop::NoMemory { line }),
    };
    match taken {
        Taken::Nothing => Ok(Step::Ended(Ended::All { lines: line - 1 })),
        Taken::LastLine => Ok(Step::Ended(Ended::CutOff { line })),
        Taken::TooLong => Err(Stop::Faulty {
            line,
            fault: RecordFault::LineTooLong,
        }),
        Taken::Line => answer_line(watch, writer, shown, text, room, line),
    }
}

/// Answers the lines of a record: each is asked or told the core and written with its answer, before the next is read.
/// The watch was told nothing before, and nothing was explained or advised. With a log it is advised on what
/// happened. Where memory runs out for an explanation or for advice, the record is answered all the same. `text` is
/// room for a line: what it held is lost. At the end it holds the line that the record ended at, without its line feed,
/// where it ended at one. What was written before stays written, and what the core was told stays told. `Read` and `Write`
/// come only where the device failed, which is then marked so; `NoMemory` may come at any line.
pub fn watch_lines<A: Allocator + Copy, R: BufRead, W: Write>(
    alloc: Global,
    watch: &mut Watch<A>,
    shown: Shown,
    reader: &mut Watched<R>,
    writer: &mut Watched<W>,
    text: &mut Vec<u8>,
    explanations: &mut Explanations,
    log: &mut Option<AdviceLog>,
) -> Result<Ended, Stop>
    requires new { Stands watch.old nothing_told }
    requires none { IsTally [] watch.old.tally }
    requires denied { watch.old.denied ≡ 0 }
    requires explained { explanations.old.text ≡ Some [] }
    requires advised { LogStandsIf log.old [] }
    ensures watches { Watches watch.old.core.setup shown (R.remaining reader.old.device)
        (R.remaining reader.new.device) text.new.items (W.contents writer.old.device)
        (W.contents writer.new.device) watch.new explanations.new log.new result }
    ensures most { explanations.new.most ≡ explanations.old.most }
    ensures advising { advising_of log.new ≡ advising_of log.old }
    ensures setup { watch.new.core.setup ≡ watch.old.core.setup }
    ensures reader { ReaderFails reader.old.failed reader.new.failed result }
    ensures writer { WriterFails writer.old.failed writer.new.failed result }
{
    let mut room = Room::new(alloc);
    for line in 1..u64::MAX {
        hand_over(reader, writer);
        match answer_next(watch, shown, reader, writer, text, &mut room, line) {
            Ok(Step::Answered(replied)) => {
                explanations.note(watch.denied(), line, replied);
                advise(log, &watch.core, line, replied, &room.lists, text);
                watch.count(replied.reply);
            }
            Ok(Step::Ended(ended)) => return Ok(ended),
            Err(stop) => return Err(stop),
        }
    }
    Err(Stop::Limit { line: u64::MAX })
}
