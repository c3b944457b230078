//! What a collection lets go.

ghost use Rattle.std.specs.Prelude.{◌≡◌, OnOk};
ghost use Rattle.jg_rules.specs.Holding.{going};
ghost use Rattle.jg_rules.specs.Parts.{Parts};
ghost use Rattle.jg_rules.specs.View.{ViewStands};
ghost use Rattle.jg_entry_facts.specs.Foreseen.{LetsGo};

use jg_lists::ObjectMarks;
use jg_rules::{View, mark_roots};
use jg_words::{Call, VmCall};
use std::alloc::{AllocError, Allocator};

/// Lists the objects that nothing holds, ascending. The marks serve the search alone.
fn list_going<A: Allocator + Clone>(
    view: &View<'_, A>,
    marks: &mut ObjectMarks<A>,
    gone: &mut Vec<u64, A>,
) -> Result<(), AllocError>
    ensures { OnOk result ((p : Parts) → ViewStands view.now p → gone.new.items ≡ going view.now.setup.now p) }
{
    marks.start(view.heap.len() as usize)?;
    mark_roots(view, marks);
    view.heap.find_unheld(marks, gone)?;
    Ok(())
}

/// Lists the objects that the call lets go, where it is a collection.
pub(crate) fn list_going_for<A: Allocator + Clone>(
    view: &View<'_, A>,
    marks: &mut ObjectMarks<A>,
    gone: &mut Vec<u64, A>,
    call: &Call,
) -> Result<(), AllocError>
    ensures { OnOk result ((p : Parts) → ViewStands view.now p
        → LetsGo view.now.setup.now p call.now gone.new.items) }
{
    match call {
        Call::Vm(call) => match call {
            VmCall::Collect => {
                list_going(view, marks, gone)?;
                Ok(())
            }
            _ => Ok(()),
        },
        _ => Ok(()),
    }
}
