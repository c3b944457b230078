//! Who owns a monitor.

ghost use Rattle.std.specs.Prelude.{◌≡◌, option_map};
ghost use Rattle.jg_rules.specs.Parts.{Parts};
ghost use Rattle.jg_rules.specs.Rules.{is_not_owned};
ghost use Rattle.jg_rules.specs.View.{ViewTells};

use crate::store::Store;
use crate::view::View;
use jg_words::{ObjId, Tid};
use std::alloc::Allocator;

/// Whether the object's monitor is another thread's, or free.
pub fn is_not_the_owner<A: Allocator + Clone, S: Store>(
    view: &View<'_, A, S>,
    tid: Tid,
    object: Option<ObjId>,
) -> bool
    ensures { (p : Parts) → ViewTells S.Tells view.now p
        → result ≡ is_not_owned p tid.0 (option_map (λ o. o.0) object) }
{
    match object {
        None => false,
        Some(object) => match view.monitors.owner(object) {
            None => true,
            Some(owner) => owner.0 != tid.0,
        },
    }
}
