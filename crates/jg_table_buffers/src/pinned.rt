//! Open pinned buffers: what is kept of each, and the references through which they were opened, as keys.

ghost use Rattle.std.specs.Prelude.{◌≡◌, true};
ghost use Rattle.jg_table_buffers.specs.History.{is_critical};
ghost use Rattle.jg_table_buffers.specs.Seen.{pin_family, key_of};

use crate::family::Family;
use jg_words::{Kind, Ref};

/// The families that pin.
#[derive(Clone, Copy, PartialEq, Eq)]
pub enum PinKind {
    Array,
    String,
}

/// An open pinned buffer.
#[derive(Clone, Copy, PartialEq, Eq)]
pub struct Pinned {
    pub object: u64,
    pub kind: PinKind,
    pub via: Ref,
    pub length: u64,
}

/// A reference as the key of a map: 0 for null, 1 for local, 2 for global and 3 for weak, then its
/// maker and its number.
pub type ViaKey = (u8, u16, u64);

pub fn pin_kind(family: Family) -> PinKind
    requires { is_critical family ≡ true }
    ensures { pin_family result ≡ family }
{
    match family {
        Family::Elements(_) => unreachable!(),
        Family::Chars => unreachable!(),
        Family::UtfChars => unreachable!(),
        Family::ArrayCritical => PinKind::Array,
        Family::StringCritical => PinKind::String,
    }
}

pub fn family_of_pin(kind: PinKind) -> Family
    ensures { result ≡ pin_family kind }
{
    match kind {
        PinKind::Array => Family::ArrayCritical,
        PinKind::String => Family::StringCritical,
    }
}

pub fn via_key(via: Ref) -> ViaKey
    ensures { result ≡ key_of via }
{
    match via {
        Ref::Null => (0, 0, 0),
        Ref::To { kind, maker, n } => match kind {
            Kind::Local => (1, maker.0, n),
            Kind::Global => (2, maker.0, n),
            Kind::Weak => (3, maker.0, n),
        },
    }
}
