//! Since when threads own monitors.

ghost use Rattle.std.specs.Prelude.{◌≡◌, ◌&&◌, if◌then◌else◌, not, None, OnOk};
ghost use Rattle.std.specs.Map.{lookup};
ghost use Rattle.std.specs.Option.{option_map};
ghost use Rattle.jg_core.specs.Facts.{is_owner};
ghost use Rattle.jg_table_monitors.specs.History.{owner};
ghost use Rattle.jg_lists.specs.ByMaker.{Name, same_name, named};
ghost use Rattle.jg_rules.specs.Parts.{Parts};
ghost use Rattle.jg_advice.specs.Monitors as spec;
ghost use Rattle.jg_advice.specs.Standing.{Sees};

use crate::advice::Source;
use crate::buffers::Sources;
use jg_lists::by_maker::{add, find, remove};
use jg_rules::{Store, View};
use jg_words::{ObjId, Tid};
use std::alloc::{AllocError, Allocator, Global};

/// The thread enters the monitor, by their numbers.
pub fn note_entry(
    entered: &mut Sources,
    alloc: Global,
    name: (u16, u64),
    call: Source,
) -> Result<(), AllocError>
    ensures { OnOk result ((q : Name) → lookup (same_name q) (named entered.new)
        ≡ (if same_name name q then spec.or_source (lookup (same_name q) (named entered.old)) call
        else lookup (same_name q) (named entered.old))) }
{
    match find(entered, name) {
        Some(_) => Ok(()),
        None => add(entered, &alloc, name, call),
    }
}

/// Whether the thread is that owner.
fn is_owner(tid: Tid, owner: Option<Tid>) -> bool
    ensures { result ≡ is_owner tid.0 (option_map (λ t. t.0) owner) }
{
    match owner {
        None => false,
        Some(owner) => owner.0 == tid.0,
    }
}

/// It exits it once, and then owns it no more, or does. `view` is of the tables with that.
pub fn note_exit<A: Allocator + Clone, S: Store>(
    entered: &mut Sources,
    view: &View<'_, A, S>,
    tid: Tid,
    object: ObjId,
)
    ensures { (p : Parts) → Sees view.now p → (q : Name) → lookup (same_name q) (named entered.new)
        ≡ (if same_name (tid.0, object.0) q && not (is_owner tid.0 (owner p.monitors object.0)) then None
        else lookup (same_name q) (named entered.old)) }
{
    if !is_owner(tid, view.monitors.owner(object)) {
        let _entered = remove(entered, (tid.0, object.0));
    }
}
