//! Whether references are in being, as the core's tables are now.

ghost use Rattle.std.specs.Prelude.{◌≡◌, Some};
ghost use Rattle.jg_table_objects.specs.Standing.{Tells};
ghost use Rattle.jg_rules.specs.Parts.{Parts};
ghost use Rattle.jg_rules.specs.View.{ViewTells};
ghost use Rattle.jg_core.specs.Facts as facts;
ghost use Rattle.jg_witness.specs.Events as events;

use jg_rules::{Named, View, look_up};
use jg_table_objects::Objects;
use jg_words::Ref;
use std::alloc::Allocator;

/// Whether the reference is in being, cleared or not.
pub(crate) fn is_in_being<A: Allocator + Clone>(view: &View<'_, A, Objects<A>>, name: Ref) -> bool
    ensures { (p : Parts) → ViewTells Tells view.now p → result ≡ facts.is_in_being p name }
{
    match name {
        Ref::Null => false,
        Ref::To { maker, .. } => match look_up(view, maker, name) {
            Named::Nothing => false,
            Named::Null => true,
            Named::Object(_) => true,
        },
    }
}

/// The name, where its reference is in being.
pub(crate) fn if_in_being<A: Allocator + Clone>(
    view: &View<'_, A, Objects<A>>,
    name: Option<Ref>,
) -> Option<Ref>
    ensures { (p : Parts) → ViewTells Tells view.now p → result ≡ events.if_in_being p name }
{
    match name {
        None => None,
        Some(name) => {
            if is_in_being(view, name) {
                Some(name)
            } else {
                None
            }
        }
    }
}
