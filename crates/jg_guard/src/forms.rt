//! What an answer is: what it is formed of, and what it says that is to be made. It only reads.

ghost use Rattle.std.specs.Prelude.{◌≡◌, ◌&&◌, false, None};
ghost use Rattle.std.specs.Option.{option_map};
ghost use Rattle.jg_policy.specs.Stated.{StatedSetup};
ghost use Rattle.jg_table_locals.specs.History.{acts_of};
ghost use Rattle.jg_table_locals.specs.Room.{crowded};
ghost use Rattle.jg_table_threads.specs.Rows.{CanCount};
ghost use Rattle.jg_rules.specs.Parts.{Parts, TablesStand};
ghost use Rattle.jg_rules.specs.View.{ViewStands};
ghost use Rattle.jg_rules.specs.Answers.{handed, thrown};
ghost use Rattle.jg_rules.specs.Effects as effects;
ghost use Rattle.jg_guard.specs.Tables as tables_of;
ghost use Rattle.jg_guard.specs.Tables.{rows_of};

use crate::tables::Tables;
use jg_rules::{Answer, View};
use jg_words::{Kind, ObjId, Ref, Reply, Thrown, Tid, Value};
use std::alloc::Allocator;

/// An answer that makes nothing.
pub(crate) fn plain(value: Value) -> Answer
    ensures { result ≡ record { reply = record { value = value; warned = false; noticed = false }; object = None } }
{
    Answer {
        reply: Reply {
            value,
            warned: false,
            noticed: false,
        },
        object: None,
    }
}

/// An answer with an object, which no reference is handed out for.
pub(crate) fn saying(value: Value, object: Option<ObjId>) -> Answer
    ensures { result ≡ record { reply = record { value = value; warned = false; noticed = false }; object = object } }
{
    Answer {
        reply: Reply {
            value,
            warned: false,
            noticed: false,
        },
        object,
    }
}

/// The same answer, with a warning or without.
pub(crate) fn admitted(given: Answer, warned: bool) -> Answer
    ensures { result ≡ record {
      reply = record { value = given.reply.value; warned = warned; noticed = false };
      object = given.object;
    } }
{
    Answer {
        reply: Reply {
            value: given.reply.value,
            warned,
            noticed: false,
        },
        object: given.object,
    }
}

/// The answer of a call that throws: the exception is the next object.
pub(crate) fn throwing<A: Allocator + Clone>(view: &View<'_, A>, exception: Thrown) -> Answer
    ensures { (p : Parts) → ViewStands view.now p → result ≡ thrown view.now.setup.now p exception }
{
    saying(Value::Throw(exception), Some(ObjId(view.heap.len())))
}

/// The answer of a new reference of the kind for the object, or of null for none.
pub(crate) fn handing_out<A: Allocator + Clone>(
    view: &View<'_, A>,
    tid: Tid,
    kind: Kind,
    object: Option<ObjId>,
) -> Answer
    requires { CanCount view.now.threads.now tid.0 }
    ensures { (p : Parts) → ViewStands view.now p → result ≡ handed p tid kind (option_map (λ o. o.0) object) }
{
    match object {
        None => plain(Value::Null),
        Some(object) => {
            let n = view.threads.next_ref(tid);
            Answer {
                reply: Reply {
                    value: Value::Reference(Ref::To {
                        kind,
                        maker: tid,
                        n,
                    }),
                    warned: false,
                    noticed: false,
                },
                object: Some(object),
            }
        }
    }
}

/// Whether the call does anything of its own.
pub(crate) fn is_effective(value: &Value) -> bool
    ensures { result ≡ effects.is_effective value.now }
{
    match value {
        Value::Throw(_) => false,
        Value::Busy => false,
        Value::Ok => true,
        Value::Number(_) => true,
        Value::Truth(_) => true,
        Value::Null => true,
        Value::Reference(_) => true,
        Value::Buffer(_) => true,
        Value::Field(_) => true,
        Value::Environment(_) => true,
        Value::List(_) => true,
        Value::Detached => true,
    }
}

/// Whether a local reference is handed out.
pub(crate) fn makes_local(value: &Value) -> bool
    ensures { result ≡ tables_of.makes_local value.now }
{
    matches!(
        value,
        Value::Reference(Ref::To {
            kind: Kind::Local,
            ..
        })
    )
}

/// Whether a global or weak reference is handed out.
pub(crate) fn makes_global(value: &Value) -> bool
    ensures { result ≡ tables_of.makes_global value.now }
{
    matches!(
        value,
        Value::Reference(Ref::To {
            kind: Kind::Global,
            ..
        }) | Value::Reference(Ref::To {
            kind: Kind::Weak,
            ..
        })
    )
}

/// Whether a local reference was handed out, and the thread's newest frame now holds more of them
/// than it has room for.
pub(crate) fn is_noticed<A: Allocator + Clone>(tables: &Tables<A>, tid: Tid, value: &Value) -> bool
    ensures { (setup : StatedSetup) (p : Parts) → TablesStand setup (rows_of tables.now) p
        → result ≡ (tables_of.makes_local value.now && crowded (acts_of tid.0 p.locals)) }
{
    makes_local(value) && tables.locals.crowded(tid)
}
