//! A core stands beside a guard. It is asked about each call of a journal before the guard makes it, and is told what
//! came of it: it must judge as the guard does, name what is handed out as the guard does, and have what the guard has.

use crate::telling::{Before, before_call, handed_out, is_gone, length_in, tell_entry};
use jg_core::{Answer, Checked, Core, Fact, Ticket};
use jg_guard::Guard;
use jg_judge::{Bounds, function_of, push_arguments};
use jg_policy::Setup;
use jg_rules::View;
use jg_text::read_begun;
use jg_words::{Call, Entry, EnvId, ObjId, Tid};
use std::alloc::{AllocError, Global};

/// What isn't so of a core beside a guard, if anything.
type Difference = Option<&'static str>;

/// What isn't so of a core beside a guard, and in which line of the journal, from 1.
#[derive(Clone, Copy)]
pub struct Other {
    pub what: &'static str,
    pub line: u64,
}

/// Whether the core has the objects as the guard has them: whether they are there, and their lengths.
fn has_objects(core: &mut Core, view: &View<'_>) -> bool {
    for n in u64::from(view.setup.class_count())..view.heap.len() {
        let object = ObjId(n);
        let length = length_in(view, object);
        let check = Checked::Length { object, length };
        if core.tell(Fact::Checked(check)).is_ok() == is_gone(view, object) {
            return false;
        }
    }
    true
}

/// Whether the core has the locals of these numbers as the guard has them.
fn has_locals(core: &mut Core, view: &View<'_>, tid: Tid, numbers: u64) -> bool {
    for n in 0..numbers {
        let object = view.locals.get(tid, n);
        let check = Checked::Local { tid, n, object };
        if core.tell(Fact::Checked(check)).is_err() {
            return false;
        }
    }
    true
}

/// Whether the thread is attached in the core as in the guard, and then has the same pending and the same locals of
/// these numbers.
fn has_thread(core: &mut Core, view: &View<'_>, tid: Tid, numbers: u64) -> bool {
    let object = view.threads.pending(tid);
    let check = Checked::Pending { tid, object };
    let is_known = core.tell(Fact::Checked(check)).is_ok();
    match (is_known, view.threads.is_attached(tid)) {
        (true, true) => has_locals(core, view, tid, numbers),
        (false, false) => true,
        _ => false,
    }
}

/// What the core has otherwise once it is told of the entry, whose question had this ticket if it passed. No local has
/// so great a number.
fn other_told(
    core: &mut Core,
    view: &View<'_>,
    (entry, ticket): (&Entry, Option<Ticket>),
    before: &mut Before,
    numbers: u64,
) -> Difference {
    match tell_entry(core, view, entry, ticket, before) {
        Err(_) => Some("a core can't be told of it"),
        Ok(given) if given != handed_out(entry) => Some(
            "a core names what is handed out otherwise",
        ),
        Ok(_) if !has_thread(core, view, entry.tid(), numbers) => {
            Some("a core has the thread otherwise")
        }
        Ok(_) if !has_objects(core, view) => Some("a core has an object otherwise"),
        Ok(_) => None,
    }
}

/// What the core answers to the question that the call is.
fn ask(
    core: &Core,
    view: &View<'_>,
    alloc: Global,
    (tid, env, call): (Tid, Option<EnvId>, &Call),
) -> Result<Answer, AllocError> {
    let mut operands = Vec::new(alloc);
    push_arguments(view, tid, call, &mut operands)?;
    Ok(core.ask(
        Bounds::WRITTEN,
        tid,
        env,
        function_of(call),
        operands.as_slice(),
    ))
}

/// What isn't so where the core is asked about the call, the guard takes it, and the core is told what came of it.
fn other_call(
    guard: &mut Guard,
    core: &mut Core,
    alloc: Global,
    (tid, env, call): (Tid, Option<EnvId>, Call),
) -> Result<Difference, AllocError> {
    let (ticket, rule) = match ask(core, &guard.view(), alloc, (tid, env, &call))? {
        Answer::Passed(ticket) => (Some(ticket), None),
        Answer::Denied { rule, .. } => (None, Some(rule)),
        _ => return Ok(Some("a core knows no such question")),
    };
    let mut before = before_call(&guard.view(), alloc, tid)?;
    if guard.call(tid, env, call).is_err() {
        return Ok(Some("a guard refuses the call"));
    }
    let count = guard.journal_len();
    let Some(entry) = guard.journal_entry(count.saturating_sub(1)) else {
        return Ok(Some("a guard has no entry of the call"));
    };
    if entry.rule() != rule {
        return Ok(Some("a core judges the call otherwise"));
    }
    let numbers = (count as u64).saturating_add(1);
    Ok(other_told(core, &guard.view(), (entry, ticket), &mut before, numbers))
}

/// What isn't so of the journal's calls.
fn other_calls(
    guard: &mut Guard,
    core: &mut Core,
    alloc: Global,
    journal: &str,
) -> Result<Option<Other>, AllocError> {
    for (place, line) in journal.lines().enumerate() {
        let difference = match read_begun(alloc, line.as_bytes())? {
            Some(call) => other_call(guard, core, alloc, call)?,
            None => Some("a line has no call"),
        };
        if let Some(what) = difference {
            let line = (place as u64).saturating_add(1);
            return Ok(Some(Other { what, line }));
        }
    }
    Ok(None)
}

/// A core under the setup of this text.
fn core_under(alloc: Global, setup: &str) -> Option<Core> {
    Some(Core::new(alloc, Setup::read(alloc, setup).ok()?))
}

/// A guard under the setup of this text, which has room for each journal.
fn guard_under(alloc: Global, setup: &str) -> Option<Guard> {
    Guard::new(alloc, alloc, Setup::read(alloc, setup).ok()?, u32::MAX).ok()
}

/// What isn't so, at first.
fn other_setup(what: &'static str) -> Result<Option<Other>, AllocError> {
    Ok(Some(Other { what, line: 1 }))
}

/// What isn't so of the journal's calls where a core stands beside a guard, both under the setup of this text. It is
/// an error where memory ran out.
pub fn other_beside(
    alloc: Global,
    setup: &str,
    journal: &str,
) -> Result<Option<Other>, AllocError> {
    let Some(mut core) = core_under(alloc, setup) else {
        return other_setup("a core can't be under its setup");
    };
    let Some(mut guard) = guard_under(alloc, setup) else {
        return other_setup("a guard can't be under its setup");
    };
    other_calls(&mut guard, &mut core, alloc, journal)
}
