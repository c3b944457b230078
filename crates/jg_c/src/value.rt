//! Names and operands as numbers.

ghost use Rattle.std.specs.Prelude.{◌≡◌, Some};
ghost use Rattle.jg_c.specs.Values as values;

use crate::numbers::{BUFFER, ENVIRONMENT, GLOBAL, LOCAL, NOTHING, NULL, OBJECT, WEAK};
use jg_words::{BufId, EnvId, Kind, ObjId, Ref, Tid};

/// A value as C holds it: the name of a reference, a buffer, an environment or an object; an operand of a question; or
/// what a machine says of a call. It is `jg_value` in jg.h, which names the kinds.
#[repr(C)]
#[derive(Clone, Copy)]
pub struct JgValue {
    /// What it is.
    pub kind: u32,
    /// Of a name the thread that it was handed out or lent to, or whose environment it is; of an ID, a name and a list
    /// 1 where it fits or is stated, and 0 where not; else 0.
    pub detail: u32,
    /// Its number, or how many items it has; a number below 0 in two's complement.
    pub number: u64,
}

/// The thread of this number, of which there are 65,536.
#[inline(always)]
pub(crate) fn thread_of(number: u32) -> Option<Tid>
    ensures { result ≡ values.thread_of number }
{
    match u16::try_from(number) {
        Ok(number) => Some(Tid(number)),
        Err(_) => None,
    }
}

/// The kind of a reference, by the number of a value's kind.
#[inline(always)]
pub(crate) fn kind_of(number: u32) -> Option<Kind>
    ensures { result ≡ values.kind_of number }
{
    match number {
        LOCAL => Some(Kind::Local),
        GLOBAL => Some(Kind::Global),
        WEAK => Some(Kind::Weak),
        _ => None,
    }
}

/// The number of the kind of a reference.
#[inline(always)]
pub(crate) fn number_of(kind: Kind) -> u32
    ensures is { result ≡ values.number_of kind }
    ensures back { values.kind_of result ≡ Some kind }
{
    match kind {
        Kind::Local => LOCAL,
        Kind::Global => GLOBAL,
        Kind::Weak => WEAK,
    }
}

impl JgValue {
    /// Nothing.
    pub(crate) const NOTHING: JgValue = JgValue {
        kind: NOTHING,
        detail: 0,
        number: 0,
    };

    /// `NULL`.
    pub(crate) const NULL: JgValue = JgValue {
        kind: NULL,
        detail: 0,
        number: 0,
    };

    /// The reference that it names, if it names one; `NULL` is one.
    #[inline(always)]
    pub(crate) fn reference(self) -> Option<Ref>
        ensures { result ≡ values.reference_of self }
    {
        if self.kind == NULL {
            return Some(Ref::Null);
        }
        let kind = kind_of(self.kind)?;
        let maker = thread_of(self.detail)?;
        Some(Ref::To {
            kind,
            maker,
            n: self.number,
        })
    }

    /// The buffer that it names, if it names one.
    #[inline(always)]
    pub(crate) fn buffer(self) -> Option<BufId>
        ensures { result ≡ values.buffer_of self }
    {
        if self.kind != BUFFER {
            return None;
        }
        let maker = thread_of(self.detail)?;
        Some(BufId {
            maker,
            n: self.number,
        })
    }

    /// The environment that it names, or none where it is nothing.
    #[inline(always)]
    pub(crate) fn environment(self) -> Option<Option<EnvId>>
        ensures { result ≡ values.environment_of self }
    {
        match self.kind {
            NOTHING => Some(None),
            ENVIRONMENT => {
                let tid = thread_of(self.detail)?;
                Some(Some(EnvId {
                    tid,
                    session: self.number,
                }))
            }
            _ => None,
        }
    }

    /// The object that it names, or none where it is `NULL`.
    #[inline(always)]
    pub(crate) fn object(self) -> Option<Option<ObjId>>
        ensures { result ≡ values.object_of self }
    {
        match self.kind {
            NULL => Some(None),
            OBJECT => Some(Some(ObjId(self.number))),
            _ => None,
        }
    }
}

/// The name of a reference.
#[inline(always)]
pub(crate) fn of_reference(reference: Ref) -> JgValue
    ensures is { result ≡ values.of_reference reference }
    ensures back { values.reference_of result ≡ Some reference }
{
    match reference {
        Ref::Null => JgValue::NULL,
        Ref::To { kind, maker, n } => JgValue {
            kind: number_of(kind),
            detail: u32::from(maker.0),
            number: n,
        },
    }
}

/// The name of a buffer.
#[inline(always)]
pub(crate) fn of_buffer(buffer: BufId) -> JgValue
    ensures is { result ≡ values.of_buffer buffer }
    ensures back { values.buffer_of result ≡ Some buffer }
{
    JgValue {
        kind: BUFFER,
        detail: u32::from(buffer.maker.0),
        number: buffer.n,
    }
}

/// The name of an environment.
#[inline(always)]
pub(crate) fn of_environment(env: EnvId) -> JgValue
    ensures { result ≡ values.of_environment env }
{
    JgValue {
        kind: ENVIRONMENT,
        detail: u32::from(env.tid.0),
        number: env.session,
    }
}

/// The name of an object.
#[inline(always)]
pub(crate) fn of_object(object: ObjId) -> JgValue
    ensures is { result ≡ values.of_object object }
    ensures back { values.object_of result ≡ Some (Some object) }
{
    JgValue {
        kind: OBJECT,
        detail: 0,
        number: object.0,
    }
}
