//! Facts as numbers.

ghost use Rattle.std.specs.Prelude.{◌≡◌};
ghost use Rattle.jg_c.specs.Facts as facts;

use crate::numbers::{
    BEGINS, BOOLEANS, BYTES, CALMED, CHARS, CRITICAL, CRITICAL_STRING, DOUBLES, ENDS, ENSURED,
    ENTERS, FLOATS, FREED, GAVE, GONE, GOT, INTS, IS_LENGTH, IS_LOCAL, IS_PENDING, LEAVES, LENT,
    LINKED, LONGS, LOST, MET, OWNS, POPPED, PUSHED, RAISED, SHORTS, STRING, UNLINKED, UTF, WARNED,
};
use crate::value::{JgValue, kind_of, thread_of};
use jg_core::{Checked, Fact};
use jg_table_buffers::Family;
use jg_words::{ItemType, ObjId, Primitive, Tid};

/// A fact as C holds it. It is `jg_fact` in jg.h, which names the words and says which fields each has; the others are
/// 0.
#[repr(C)]
#[derive(Clone, Copy)]
pub struct JgFact {
    /// Which fact it is.
    pub word: u32,
    /// The thread that it is of, or that tells it.
    pub thread: u32,
    /// The reference or the buffer that it speaks of.
    pub name: JgValue,
    /// The object, or `NULL` for none.
    pub object: JgValue,
    /// The kind of a reference, a family of buffers, a room, a class or a module.
    pub first: u32,
    /// A length, or a native method.
    pub second: u32,
}

impl JgFact {
    /// Nothing but zeros.
    pub(crate) const NOTHING: JgFact = JgFact {
        word: 0,
        thread: 0,
        name: JgValue::NOTHING,
        object: JgValue::NOTHING,
        first: 0,
        second: 0,
    };
}

/// The family of buffers of this number.
#[inline(always)]
pub(crate) fn family_of(number: u32) -> Option<Family>
    ensures { result ≡ facts.family_of number }
{
    match number {
        BOOLEANS => Some(Family::Elements(ItemType::Of(Primitive::Boolean))),
        BYTES => Some(Family::Elements(ItemType::Of(Primitive::Byte))),
        CHARS => Some(Family::Elements(ItemType::Of(Primitive::Char))),
        SHORTS => Some(Family::Elements(ItemType::Of(Primitive::Short))),
        INTS => Some(Family::Elements(ItemType::Of(Primitive::Int))),
        LONGS => Some(Family::Elements(ItemType::Of(Primitive::Long))),
        FLOATS => Some(Family::Elements(ItemType::Float)),
        DOUBLES => Some(Family::Elements(ItemType::Double)),
        STRING => Some(Family::Chars),
        UTF => Some(Family::UtfChars),
        CRITICAL => Some(Family::ArrayCritical),
        CRITICAL_STRING => Some(Family::StringCritical),
        _ => None,
    }
}

/// The object that it speaks of, where it must speak of one.
#[inline(always)]
fn thing_of(fact: &JgFact) -> Option<ObjId>
    ensures { result ≡ facts.thing_of fact.now }
{
    fact.object.object()?
}

/// A fact of a session, of a native method or of a frame.
fn frame_fact(fact: &JgFact, tid: Tid) -> Option<Fact>
    ensures { result ≡ facts.frame_fact fact.now tid }
{
    match fact.word {
        BEGINS => Some(Fact::Begin(tid)),
        ENDS => Some(Fact::End(tid)),
        ENTERS => Some(Fact::Enter(tid)),
        LEAVES => Some(Fact::Leave {
            tid,
            kept: fact.object.object()?,
        }),
        PUSHED => Some(Fact::Push {
            tid,
            room: fact.first,
        }),
        POPPED => Some(Fact::Pop {
            tid,
            kept: fact.object.object()?,
        }),
        ENSURED => Some(Fact::Ensure {
            tid,
            room: fact.first,
        }),
        _ => None,
    }
}

/// A fact of an exception or of a monitor.
fn holding_fact(fact: &JgFact, tid: Tid) -> Option<Fact>
    ensures { result ≡ facts.holding_fact fact.now tid }
{
    match fact.word {
        RAISED => Some(Fact::Raise {
            tid,
            object: thing_of(fact)?,
        }),
        CALMED => Some(Fact::Calm(tid)),
        OWNS => Some(Fact::Own {
            tid,
            object: thing_of(fact)?,
        }),
        FREED => Some(Fact::Free {
            tid,
            object: thing_of(fact)?,
        }),
        _ => None,
    }
}

/// A reference that was handed out.
#[inline(always)]
fn hand_fact(fact: &JgFact, tid: Tid) -> Option<Fact>
    ensures { result ≡ facts.hand_fact fact.now tid }
{
    Some(Fact::Hand {
        tid,
        kind: kind_of(fact.first)?,
        object: thing_of(fact)?,
    })
}

/// A reference that ended.
#[inline(always)]
fn lost_fact(fact: &JgFact) -> Option<Fact>
    ensures { result ≡ facts.lost_fact fact.now }
{
    Some(Fact::Lost(fact.name.reference()?))
}

/// A fact of a reference or of a buffer.
fn name_fact(fact: &JgFact, tid: Tid) -> Option<Fact>
    ensures { result ≡ facts.name_fact fact.now tid }
{
    match fact.word {
        GOT => hand_fact(fact, tid),
        LOST => lost_fact(fact),
        LENT => Some(Fact::Lend {
            tid,
            family: family_of(fact.first)?,
            object: thing_of(fact)?,
            via: fact.name.reference()?,
            length: fact.second,
        }),
        GAVE => Some(Fact::Back(fact.name.buffer()?)),
        _ => None,
    }
}

/// A fact of an object, a class or a module.
fn class_fact(fact: &JgFact) -> Option<Fact>
    ensures { result ≡ facts.class_fact fact.now }
{
    match fact.word {
        MET => Some(Fact::Meet {
            class: fact.first,
            length: fact.second,
        }),
        GONE => Some(Fact::Gone(thing_of(fact)?)),
        LINKED => Some(Fact::Link {
            class: fact.first,
            native: fact.second,
        }),
        UNLINKED => Some(Fact::Unlink(fact.first)),
        WARNED => Some(Fact::Warn(fact.first)),
        _ => None,
    }
}

/// What is checked.
fn checked_fact(fact: &JgFact, tid: Tid) -> Option<Checked>
    ensures { result ≡ facts.checked_fact fact.now tid }
{
    match fact.word {
        IS_LOCAL => Some(Checked::Local {
            tid,
            n: fact.name.number,
            object: fact.object.object()?,
        }),
        IS_PENDING => Some(Checked::Pending {
            tid,
            object: fact.object.object()?,
        }),
        IS_LENGTH => Some(Checked::Length {
            object: thing_of(fact)?,
            length: fact.second,
        }),
        _ => None,
    }
}

/// As [`fact_of`], of numbers whose word is [`GOT`].
#[inline(always)]
pub(crate) fn handed(fact: &JgFact) -> Option<Fact>
    ensures { fact.now.word ≡ 10 → result ≡ facts.fact_of fact.now }
{
    hand_fact(fact, thread_of(fact.thread)?)
}

/// As [`fact_of`], of numbers whose word is [`LOST`].
#[inline(always)]
pub(crate) fn lost(fact: &JgFact) -> Option<Fact>
    ensures { fact.now.word ≡ 11 → result ≡ facts.fact_of fact.now }
{
    let _tid = thread_of(fact.thread)?;
    lost_fact(fact)
}

/// The fact that the numbers state, if they state one.
pub(crate) fn fact_of(fact: &JgFact) -> Option<Fact>
    ensures { result ≡ facts.fact_of fact.now }
{
    let tid = thread_of(fact.thread)?;
    match fact.word {
        BEGINS..=ENSURED => frame_fact(fact, tid),
        RAISED..=CALMED | OWNS..=FREED => holding_fact(fact, tid),
        GOT..=GAVE => name_fact(fact, tid),
        MET..=WARNED => class_fact(fact),
        _ => Some(Fact::Checked(checked_fact(fact, tid)?)),
    }
}
