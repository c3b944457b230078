//! References by themselves: whose one is, and of which kind.

ghost use Rattle.std.specs.Prelude.{◌≡◌};
ghost use Rattle.jg_rules.specs.Rules.{is_foreign, is_not};

use jg_words::{Kind, Ref, Tid};

/// Whether it is a local reference that another thread was handed.
pub fn is_foreign_local(tid: Tid, reference: Ref) -> bool
    ensures { result ≡ is_foreign tid.0 reference }
{
    match reference {
        Ref::To {
            kind: Kind::Local,
            maker,
            ..
        } => maker.0 != tid.0,
        _ => false,
    }
}

/// Whether it is a reference of another kind. Null is of each.
pub fn is_of_another_kind(reference: Ref, wanted: Kind) -> bool
    ensures { result ≡ is_not wanted reference }
{
    match reference {
        Ref::Null => false,
        Ref::To { kind, .. } => kind != wanted,
    }
}
