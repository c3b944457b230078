//! A core is told what an entry of a guard's journal says.

use jg_core::{Core, Fact, Given, Says, Ticket, Untold};
use jg_rules::{View, buffer_named, class_of, home_named, length_of};
use jg_words::{Call, Entry, Kind, ObjId, Tid, Value, VmCall};
use std::alloc::{AllocError, Global};

/// What there was before a call, by the guard.
#[derive(Drop)]
pub struct Before {
    /// How many objects had been made, class objects among them.
    made: u64,
    /// Those that were there.
    there: Vec<ObjId>,
    /// The exception that was pending in the thread.
    pending: Option<ObjId>,
}

/// Whether the object was made and is gone.
pub fn is_gone(view: &View<'_>, object: ObjId) -> bool {
    object.0 < view.heap.len() && view.heap.is_gone(object)
}

/// What there is before a call of this thread.
pub fn before_call(view: &View<'_>, alloc: Global, tid: Tid) -> Result<Before, AllocError> {
    let made = view.heap.len();
    let mut there = Vec::new(alloc);
    for n in 0..made {
        if !is_gone(view, ObjId(n)) {
            there.push(ObjId(n))?;
        }
    }
    let pending = view.threads.pending(tid);
    Ok(Before {
        made,
        there,
        pending,
    })
}

/// How long it is.
pub fn length_in(view: &View<'_>, object: ObjId) -> u32 {
    u32::try_from(length_of(view, object)).unwrap_or(u32::MAX)
}

/// Meets the objects that were made since there were so many. The core gives them the guard's numbers.
fn meet_all(core: &mut Core, view: &View<'_>, made: u64) -> Result<(), Untold> {
    for n in made..view.heap.len() {
        let object = ObjId(n);
        if core.meet(class_of(view, object), length_in(view, object))? != object {
            return Err(Untold::Impossible);
        }
    }
    Ok(())
}

/// What a machine says that answered so; `None` where it hasn't answered yet, or the guard answers so nowhere. The
/// object is the one that a reference was handed out for, or that was thrown.
fn says_of(view: &View<'_>, value: &Value, object: Option<ObjId>) -> Option<Says> {
    match value {
        Value::Null => Some(Says::Null),
        Value::Reference(_) => object.map(Says::Object),
        Value::Throw(_) => object.map(Says::Threw),
        Value::Buffer(buffer) => {
            let info = buffer_named(view, *buffer)?;
            u32::try_from(info.length).ok().map(Says::Items)
        }
        Value::Busy => None,
        _ => Some(Says::Done),
    }
}

/// Lets those objects go that are gone now.
fn let_go(core: &mut Core, view: &View<'_>, there: &mut Vec<ObjId>) -> Result<Given, Untold> {
    there.retain(|object| is_gone(view, *object));
    match core.gone(there) {
        Ok(()) => Ok(Given::Nothing),
        Err(_) => Err(Untold::Impossible),
    }
}

/// A native method was called, and was handed a local reference to its class.
fn enter(core: &mut Core, entry: &Entry, ticket: Ticket) -> Result<Given, Untold> {
    let Some(class) = entry.object() else {
        return Err(Untold::Impossible);
    };
    let _nothing = core.returned(ticket, Says::Done)?;
    Ok(Given::Reference(core.hand(entry.tid(), Kind::Local, class)?))
}

/// A native method left, and what was pending is pending still.
fn leave(
    core: &mut Core,
    ticket: Ticket,
    says: Says,
    pending: Option<ObjId>,
) -> Result<Given, Untold> {
    let tid = ticket.tid;
    let given = core.returned(ticket, says)?;
    if let Some(object) = pending {
        core.tell(Fact::Raise { tid, object })?;
    }
    Ok(given)
}

/// Tells that the call was done, and answers the core's name for what was handed out.
fn tell_done(
    core: &mut Core,
    view: &View<'_>,
    (entry, ticket): (&Entry, Ticket),
    says: Says,
    before: &mut Before,
) -> Result<Given, Untold> {
    match entry.call() {
        Call::Vm(VmCall::Collect) => let_go(core, view, &mut before.there),
        Call::Vm(VmCall::NativeEnter { .. }) => enter(core, entry, ticket),
        Call::Vm(VmCall::NativeLeave { .. }) => leave(core, ticket, says, before.pending),
        _ => core.returned(ticket, says),
    }
}

/// The module was warned that the entry warned of, if it did.
fn warn(core: &mut Core, view: &View<'_>, entry: &Entry) -> Result<(), Untold> {
    match home_named(view, entry.tid(), entry.call()) {
        Some(home) if entry.warned() => {
            core.tell(Fact::Warn(home))?;
            Ok(())
        }
        _ => Ok(()),
    }
}

/// Tells all that the entry says, whose question had this ticket if it passed, and answers the core's name for what was
/// handed out. Nothing comes of a call that was denied, or that found a monitor busy.
pub fn tell_entry(
    core: &mut Core,
    view: &View<'_>,
    entry: &Entry,
    ticket: Option<Ticket>,
    before: &mut Before,
) -> Result<Given, Untold> {
    let (Some(value), Some(ticket)) = (entry.value(), ticket) else {
        return Ok(Given::Nothing);
    };
    meet_all(core, view, before.made)?;
    let Some(says) = says_of(view, value, entry.object()) else {
        return Ok(Given::Nothing);
    };
    let given = tell_done(core, view, (entry, ticket), says, before)?;
    warn(core, view, entry)?;
    Ok(given)
}

/// The guard's name for what was handed out.
pub fn handed_out(entry: &Entry) -> Given {
    match (entry.value(), entry.call()) {
        (Some(Value::Reference(reference)), _) => Given::Reference(*reference),
        (Some(Value::Buffer(buffer)), _) => Given::Buffer(*buffer),
        (Some(Value::Environment(env)), Call::Vm(VmCall::AttachCurrentThread)) => {
            Given::Environment(*env)
        }
        _ => Given::Nothing,
    }
}
