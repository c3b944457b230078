//! An event of a record.

ghost use Rattle.std.specs.Prelude.{◌≡◌, ◌≤◌, IfOk, IfErr, All, length};
ghost use Rattle.std.specs.Int.{IsInRange};
ghost use Rattle.std.specs.Option.{option_copied};
ghost use Rattle.jg_text.specs.Pieces.{rest_fields};
ghost use Rattle.jg_record.specs.Events.{SpellsEvent, Tells};
ghost use Rattle.jg_record.specs.Faults.{NamesFirstFault};
ghost use Rattle.jg_record.specs.Pieces.{AsksBehind, IsQuestionFault, IsWordsFault};

use crate::event::{Event, Lists};
use crate::facts::{is_told_count, read_told};
use crate::fault::RecordFault;
use crate::operands::{is_count, read_operands};
use crate::verb::{Verb, verb_named};
use jg_judge::Argument;
use jg_policy::Setup;
use jg_rows::{place_of, row_of};
use jg_text::{MAX_LINE, count_fields, cut, first_env, first_tid, is_printable};
use jg_words::{EnvId, ObjId, Tid};

/// What a question asks, behind its thread and its environment. Its operands stand in the list then; what that held is
/// lost.
fn read_question(
    tid: Tid,
    env: Option<EnvId>,
    rest: Option<&[u8]>,
    arguments: &mut Vec<Argument>,
) -> Result<Event, RecordFault>
    ensures ok { IfOk result (λ e. AsksBehind tid env (rest_fields (option_copied rest.entry)) e arguments.new.items) }
    ensures err { IfErr result (IsQuestionFault (rest_fields (option_copied rest.entry))) }
{
    let Some(rest) = rest else {
        return Err(RecordFault::UnknownFunction);
    };
    let (name, rest) = cut(rest);
    let Some(function) = place_of(name) else {
        return Err(RecordFault::UnknownFunction);
    };
    let Some(row) = row_of(usize::from(function)) else {
        return Err(RecordFault::UnknownFunction);
    };
    match read_operands(row.takes, rest, arguments) {
        Ok(()) => Ok(Event::Question { tid, env, function }),
        Err(_) if !is_count(row.takes, count_fields(rest)) => Err(RecordFault::WrongCount),
        Err(fault) => Err(fault),
    }
}

/// What a fact tells, behind its thread and its first word. Objects that are gone stand in the list then; what that
/// held is lost.
fn read_words(
    setup: &Setup,
    verb: Verb,
    tid: Tid,
    rest: Option<&[u8]>,
    objects: &mut Vec<ObjId>,
) -> Result<Event, RecordFault>
    ensures ok { IfOk result (λ e. Tells setup.now verb tid (rest_fields (option_copied rest.entry)) e
        objects.new.items) }
    ensures err { IfErr result (IsWordsFault setup.now verb tid (rest_fields (option_copied rest.entry))) }
{
    match read_told(setup, verb, tid, rest, objects) {
        Ok(event) => Ok(event),
        Err(_) if !is_told_count(verb, count_fields(rest)) => Err(RecordFault::WrongCount),
        Err(fault) => Err(fault),
    }
}

/// The same as `read_event`, for an event that is printable.
fn read_fields(setup: &Setup, text: &[u8], lists: &mut Lists) -> Result<Event, RecordFault>
    requires short { length text.now ≤ 65536 }
    requires printable { All (λ b. IsInRange 32 126 b) text.now }
    ensures spelt { IfOk result (λ e. SpellsEvent setup.now text.now e lists.new.arguments.items
        lists.new.objects.items) }
    ensures fault { IfErr result (NamesFirstFault setup.now text.now) }
{
    let Some((tid, rest)) = first_tid(text) else {
        return Err(RecordFault::NoThread);
    };
    let Some(rest) = rest else {
        return Err(RecordFault::NoEvent);
    };
    if let Some((env, rest)) = first_env(rest) {
        return read_question(tid, env, rest, &mut lists.arguments);
    }
    let (word, rest) = cut(rest);
    match verb_named(word) {
        Some(verb) => read_words(setup, verb, tid, rest, &mut lists.objects),
        None => Err(RecordFault::NoEvent),
    }
}

/// The event that the text of a line spells: what stands before its answer and its note. The operands of a question and
/// the objects that are gone stand in the lists then; what these held may be lost. Else the fault is the first that the
/// text has, or `NoMemory`.
pub fn read_event(setup: &Setup, text: &[u8], lists: &mut Lists) -> Result<Event, RecordFault>
    ensures spelt { IfOk result (λ e. SpellsEvent setup.now text.now e lists.new.arguments.items
        lists.new.objects.items) }
    ensures fault { IfErr result (NamesFirstFault setup.now text.now) }
{
    if text.len() > MAX_LINE {
        return Err(RecordFault::LineTooLong);
    }
    if !is_printable(text) {
        return Err(RecordFault::NotAscii);
    }
    read_fields(setup, text, lists)
}
