//! What holds objects, outside their store.

ghost use Rattle.std.specs.Prelude.{◌≡◌};
ghost use Rattle.jg_lists.specs.Marks.{Marks};
ghost use Rattle.jg_rules.specs.Parts.{HoldersStand, Parts};
ghost use Rattle.jg_rules.specs.Holding as holding;
ghost use Rattle.jg_rules.specs.View.{ViewTells, rows_in};

use crate::store::Store;
use crate::view::View;
use jg_lists::Marking;
use jg_words::ObjId;
use std::alloc::Allocator;

/// Whether something outside the store holds the object. Takes time by how many references, critical buffers and
/// pending exceptions there are.
pub fn is_root<A: Allocator + Clone, S: Store>(view: &View<'_, A, S>, object: ObjId) -> bool
    ensures { (p : Parts) → ViewTells S.Tells view.now p → result ≡ holding.is_root p object.0 }
{
    view.locals.holds_object(object)
        || view.globals.holds_object(object)
        || view.threads.is_pending(object)
        || view.buffers.pins_object(object)
        || view.monitors.held(object)
}

/// Marks each object that something outside the store holds, in one pass over what holds. The store isn't read.
pub fn mark_roots<A: Allocator + Clone, S: Store, M: Marking>(view: &View<'_, A, S>, marks: &mut M)
    ensures { (p : Parts) → HoldersStand (rows_in view.now) p
        → Marks (holding.is_root p) (M.mark_of marks.old) (M.mark_of marks.new) }
{
    view.locals.mark_held(marks);
    view.globals.mark_held(marks);
    view.threads.mark_held(marks);
    view.buffers.mark_held(marks);
    view.monitors.mark_held(marks);
}
