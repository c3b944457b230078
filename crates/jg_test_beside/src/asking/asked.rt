//! Calls, asked about by the table and made by the guard.

use crate::asking::prepared::{ARRAY, ENV, THREAD, local, pass};
use jg_core::{Answer, Core};
use jg_guard::Guard;
use jg_judge::{Argument, Bounds};
use jg_rows::place_of;
use jg_table_buffers::Family;
use jg_words::Kind::Local;
use jg_words::{
    BufId, BuffersCall, Call, EnvId, FieldId, MonitorsCall, ObjectsCall, Primitive, Ref, RefsCall,
    StringsCall, Tid,
};
use std::alloc::Global;

/// Which call.
#[derive(Drop)]
pub enum Kind {
    Length,
    Local,
    Field,
    Monitor,
    /// The array is lent and given back.
    Critical,
}

impl Kind {
    pub fn named(name: &str) -> Option<Kind> {
        match name {
            "length" => Some(Kind::Length),
            "local" => Some(Kind::Local),
            "field" => Some(Kind::Field),
            "monitor" => Some(Kind::Monitor),
            "critical" => Some(Kind::Critical),
            _ => None,
        }
    }
}

fn call_of(kind: &Kind) -> Call {
    match kind {
        Kind::Length => Call::Strings(StringsCall::GetStringLength { string: local(1) }),
        Kind::Local => Call::Refs(RefsCall::NewLocalRef { of: local(1) }),
        Kind::Field => Call::Objects(ObjectsCall::GetField {
            primitive: Primitive::Int,
            object: local(4),
            field: FieldId {
                class: 15,
                field: 1,
            },
        }),
        Kind::Monitor => Call::Monitors(MonitorsCall::MonitorEnter { of: local(1) }),
        Kind::Critical => Call::Buffers(BuffersCall::GetPrimitiveArrayCritical { array: local(2) }),
    }
}

/// The giving back of the thread's buffer of that number.
fn release(n: u64) -> Call {
    Call::Buffers(BuffersCall::ReleasePrimitiveArrayCritical {
        array: local(2),
        buffer: BufId { maker: THREAD, n },
        mode: 0,
    })
}

/// What a real machine bounds.
const UNBOUNDED: Bounds = Bounds {
    capacity: i32::MAX,
    length: i32::MAX,
    items: i32::MAX,
};

/// Asks for the function of that name so many times, with these operands. Whether each passes, or none does.
fn ask_for(
    core: &Core,
    name: &str,
    arguments: &[Argument],
    passes: bool,
    count: u64,
) -> Option<()> {
    let function = place_of(name.as_bytes())?;
    for _ in 0..count {
        let does_pass = match core.ask(UNBOUNDED, THREAD, ENV, function, arguments) {
            Answer::Passed(_) => true,
            Answer::Denied { .. } => false,
            _ => return None,
        };
        if does_pass != passes {
            return None;
        }
    }
    Some(())
}

/// Asks for calls of that kind so many times; of a critical pair for both. None is denied.
pub fn asked(core: &mut Core, kind: &Kind, count: u64) -> Option<()> {
    let first = Argument::Reference(local(1));
    let array = Argument::Reference(local(2));
    let point = Argument::Reference(local(4));
    match kind {
        Kind::Length => ask_for(core, "GetStringLength", &[first], true, count),
        Kind::Local => ask_for(core, "NewLocalRef", &[first], true, count),
        Kind::Field => {
            let field = Argument::Id { fits: true };
            ask_for(core, "GetIntField", &[point, field], true, count)
        }
        Kind::Monitor => ask_for(core, "MonitorEnter", &[first], true, count),
        Kind::Critical => {
            ask_for(core, "GetPrimitiveArrayCritical", &[array], true, count)?;
            let buffer = core
                .lend(THREAD, Family::ArrayCritical, ARRAY, local(2), 4)
                .ok()?;
            let release = [array, Argument::Buffer(buffer), Argument::Number(0)];
            ask_for(core, "ReleasePrimitiveArrayCritical", &release, true, count)
        }
    }
}

/// Asks for calls of that kind so many times, each denied: of a dead string, a string of another thread, a field that
/// isn't the object's, null, a string in the place of an array, and a buffer that isn't lent.
pub fn denied(core: &Core, kind: &Kind, count: u64) -> Option<()> {
    let string = Argument::Reference(local(1));
    let array = Argument::Reference(local(2));
    let point = Argument::Reference(local(4));
    let dead = Argument::Reference(local(1_000_000_000));
    let foreign = Argument::Reference(Ref::To {
        kind: Local,
        maker: Tid(2),
        n: 1,
    });
    match kind {
        Kind::Length => ask_for(core, "GetStringLength", &[dead], false, count),
        Kind::Local => ask_for(core, "NewLocalRef", &[foreign], false, count),
        Kind::Field => {
            let field = Argument::Id { fits: false };
            ask_for(core, "GetIntField", &[point, field], false, count)
        }
        Kind::Monitor => {
            let null = Argument::Reference(Ref::Null);
            ask_for(core, "MonitorEnter", &[null], false, count)
        }
        Kind::Critical => {
            ask_for(core, "GetPrimitiveArrayCritical", &[string], false, count)?;
            let buffer = Argument::Buffer(BufId {
                maker: THREAD,
                n: 1_000_000_000,
            });
            let release = [array, buffer, Argument::Number(0)];
            ask_for(
                core,
                "ReleasePrimitiveArrayCritical",
                &release,
                false,
                count,
            )
        }
    }
}

/// A question as it comes of native code, of which nothing is known beforehand: who asks, and a function by its place
/// with its operand.
type Question = (Tid, Option<EnvId>, u16, Argument);

/// Asks the questions so many times over, and keeps the tickets of a round.
fn ask_rounds(alloc: Global, core: &Core, questions: &[Question], rounds: u64) -> Option<()> {
    let mut tickets = Vec::new(alloc);
    for _ in 0..rounds {
        tickets.clear();
        for &(tid, env, function, argument) in questions {
            let Answer::Passed(ticket) = core.ask(UNBOUNDED, tid, env, function, &[argument]) else {
                return None;
            };
            tickets.push(ticket).ok()?;
        }
    }
    Some(())
}

/// Asks for a string's length so many times, by two questions in turn, as a machine asks whose calls come from outside.
pub fn asked_from_outside(alloc: Global, core: &mut Core, count: u64) -> Option<()> {
    let function = place_of("GetStringLength".as_bytes())?;
    let mut questions = Vec::new(alloc);
    for _ in 0..2 {
        let first = Argument::Reference(local(1));
        questions.push((THREAD, ENV, function, first)).ok()?;
    }
    ask_rounds(alloc, core, questions.as_slice(), count / 2)
}

/// Makes calls of that kind so many times. None is denied.
pub fn called(guard: &mut Guard, kind: &Kind, count: u64) -> Option<()> {
    for n in 0..count {
        pass(guard, ENV, call_of(kind))?;
        if let Kind::Critical = kind {
            pass(guard, ENV, release(n.checked_add(1)?))?;
        }
    }
    Some(())
}
