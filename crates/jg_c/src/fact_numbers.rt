//! The numbers of facts.

ghost use Rattle.std.specs.Prelude.{◌≡◌, Some};
ghost use Rattle.jg_c.specs.Facts as facts;
ghost use Rattle.jg_c.specs.Values as values;

use crate::fact::JgFact;
use crate::numbers::{
    BEGINS, BOOLEANS, BYTES, CALMED, CHARS, CRITICAL, CRITICAL_STRING, DOUBLES, ENDS, ENSURED,
    ENTERS, FLOATS, FREED, GAVE, GONE, GOT, INTS, IS_LENGTH, IS_LOCAL, IS_PENDING, LEAVES, LENT,
    LINKED, LONGS, LOST, MET, OWNS, POPPED, PUSHED, RAISED, SHORTS, STRING, UNLINKED, UTF, WARNED,
};
use crate::value::{JgValue, number_of, of_buffer, of_object, of_reference};
use jg_core::{Checked, Fact};
use jg_table_buffers::Family;
use jg_words::{ItemType, ObjId, Primitive, Tid};

/// The numbers of a fact that are the thread's; those that it hasn't are 0.
fn of_thread(word: u32, tid: Tid) -> JgFact
    ensures { result ≡ facts.of_thread word tid.0 }
{
    JgFact {
        word,
        thread: u32::from(tid.0),
        name: JgValue::NOTHING,
        object: JgValue::NULL,
        first: 0,
        second: 0,
    }
}

/// The same of a fact on classes.
fn of_class(word: u32, first: u32, second: u32) -> JgFact
    ensures { result ≡ record (facts.of_thread word 0) { first = first; second = second } }
{
    JgFact {
        first,
        second,
        ..of_thread(word, Tid(0))
    }
}

/// The name of an object, or `NULL` for none.
pub(crate) fn of_kept(object: Option<ObjId>) -> JgValue
    ensures { values.object_of result ≡ Some object }
{
    match object {
        None => JgValue::NULL,
        Some(object) => of_object(object),
    }
}

/// The number of a family of buffers.
pub(crate) fn of_family(family: Family) -> u32
    ensures { facts.family_of result ≡ Some family }
{
    match family {
        Family::Elements(ItemType::Of(Primitive::Boolean)) => BOOLEANS,
        Family::Elements(ItemType::Of(Primitive::Byte)) => BYTES,
        Family::Elements(ItemType::Of(Primitive::Char)) => CHARS,
        Family::Elements(ItemType::Of(Primitive::Short)) => SHORTS,
        Family::Elements(ItemType::Of(Primitive::Int)) => INTS,
        Family::Elements(ItemType::Of(Primitive::Long)) => LONGS,
        Family::Elements(ItemType::Float) => FLOATS,
        Family::Elements(ItemType::Double) => DOUBLES,
        Family::Chars => STRING,
        Family::UtfChars => UTF,
        Family::ArrayCritical => CRITICAL,
        Family::StringCritical => CRITICAL_STRING,
    }
}

fn of_checked(checked: Checked) -> JgFact
    ensures fact { facts.fact_of result ≡ Some (facts.checked_as checked) }
    ensures thread { result.thread ≡ facts.number_of_thread (facts.checked_as checked) }
{
    match checked {
        Checked::Local { tid, n, object } => JgFact {
            name: JgValue {
                number: n,
                ..JgValue::NOTHING
            },
            object: of_kept(object),
            ..of_thread(IS_LOCAL, tid)
        },
        Checked::Pending { tid, object } => JgFact {
            object: of_kept(object),
            ..of_thread(IS_PENDING, tid)
        },
        Checked::Length { object, length } => JgFact {
            object: of_object(object),
            second: length,
            ..of_thread(IS_LENGTH, Tid(0))
        },
    }
}

/// The numbers of a fact of a session, of a native method or of a frame, or of an object, a class or a module.
pub(crate) fn of_fact(fact: Fact) -> JgFact
    ensures fact { facts.fact_of result ≡ Some fact }
    ensures thread { result.thread ≡ facts.number_of_thread fact }
{
    match fact {
        Fact::Begin(tid) => of_thread(BEGINS, tid),
        Fact::End(tid) => of_thread(ENDS, tid),
        Fact::Enter(tid) => of_thread(ENTERS, tid),
        Fact::Leave { tid, kept } => JgFact {
            object: of_kept(kept),
            ..of_thread(LEAVES, tid)
        },
        Fact::Push { tid, room } => JgFact {
            first: room,
            ..of_thread(PUSHED, tid)
        },
        Fact::Pop { tid, kept } => JgFact {
            object: of_kept(kept),
            ..of_thread(POPPED, tid)
        },
        Fact::Ensure { tid, room } => JgFact {
            first: room,
            ..of_thread(ENSURED, tid)
        },
        Fact::Raise { tid, object } => JgFact {
            object: of_object(object),
            ..of_thread(RAISED, tid)
        },
        Fact::Calm(tid) => of_thread(CALMED, tid),
        Fact::Hand { tid, kind, object } => JgFact {
            object: of_object(object),
            first: number_of(kind),
            ..of_thread(GOT, tid)
        },
        Fact::Lost(reference) => JgFact {
            name: of_reference(reference),
            ..of_thread(LOST, Tid(0))
        },
        Fact::Lend {
            tid,
            family,
            object,
            via,
            length,
        } => JgFact {
            name: of_reference(via),
            object: of_object(object),
            first: of_family(family),
            second: length,
            ..of_thread(LENT, tid)
        },
        Fact::Back(buffer) => JgFact {
            name: of_buffer(buffer),
            ..of_thread(GAVE, Tid(0))
        },
        Fact::Own { tid, object } => JgFact {
            object: of_object(object),
            ..of_thread(OWNS, tid)
        },
        Fact::Free { tid, object } => JgFact {
            object: of_object(object),
            ..of_thread(FREED, tid)
        },
        Fact::Meet { class, length } => of_class(MET, class, length),
        Fact::Gone(object) => JgFact {
            object: of_object(object),
            ..of_thread(GONE, Tid(0))
        },
        Fact::Link { class, native } => of_class(LINKED, class, native),
        Fact::Unlink(class) => of_class(UNLINKED, class, 0),
        Fact::Warn(module) => of_class(WARNED, module, 0),
        Fact::Checked(checked) => of_checked(checked),
    }
}
