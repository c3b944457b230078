//! The collector: each table marks what it holds, once; the store marks what stands in a slot; what
//! isn't marked then goes, and weak references to it are cleared.

ghost use Rattle.std.specs.Prelude.{◌≡◌, ◌==◌, ◌<◌, ◌^◌, ◌++◌, ℕ, false, List, map, slice_get, Some, OnOk, OnErr};
ghost use Rattle.std.specs.List.{list_any};
ghost use Rattle.jg_table_globals.specs.History as globals_of;
ghost use Rattle.jg_table_globals.specs.Standing as globals_standing;
ghost use Rattle.jg_table_heap.specs.History as heap_of;
ghost use Rattle.jg_table_heap.specs.Rows.{count_in};
ghost use Rattle.jg_table_heap.specs.Standing as heap_standing;
ghost use Rattle.jg_table_heap.specs.Standing.{AreListed, MarksHeld};
ghost use Rattle.jg_rules.specs.Parts.{Parts, TablesStand};
ghost use Rattle.jg_rules.specs.Holding.{roots, going};
ghost use Rattle.jg_rules.specs.View.{ViewStands};
ghost use Rattle.jg_guard.specs.Tables.{rows_of};
ghost use Rattle.jg_words.specs.declared.call.Call.TheVariants.{Vm};
ghost use Rattle.jg_words.specs.declared.call.vm.VmCall.TheVariants.{Collect};
ghost use Rattle.jg_policy.specs.Stated.{StatedSetup, class_count};
ghost use Rattle.jg_guard.specs.Cleaning.{cleans_up};
ghost use Rattle.jg_guard.specs.Findings.{Finds, IsReady};
ghost use Rattle.jg_guard.specs.Settled.{collected_on};

use crate::tables::Tables;
use jg_lists::ObjectMarks;
use jg_rules::{View, mark_roots};
use jg_table_globals::Globals;
use jg_table_heap::Heap;
use jg_words::{Call, ObjId, VmCall};
use std::alloc::{AllocError, Allocator};

/// Marks all that something holds, and lists the objects that nothing holds. No object is marked
/// before; there is a mark for each.
fn mark_held<A: Allocator + Clone>(
    view: &View<'_, A>,
    marks: &mut ObjectMarks<A>,
    unheld: &mut Vec<u64, A>,
) -> Result<(), AllocError>
    requires { (o : ℕ) → o < count_in view.now.heap.now → slice_get marks.old o ≡ Some false }
    ensures marks { OnOk result ((p : Parts) → ViewStands view.now p
        → MarksHeld view.now.heap.now.classes (roots view.now.setup.now p) p.heap marks.new) }
    ensures unheld { OnOk result ((p : Parts) → ViewStands view.now p
        → unheld.new.items ≡ going view.now.setup.now p) }
    ensures listed { OnOk result (AreListed view.now.heap.now marks.new unheld.new.items) }
{
    mark_roots(view, marks);
    view.heap.find_unheld(marks, unheld)?;
    Ok(())
}

/// What a collection finds: a mark for each object, set where something holds it, and a list of those
/// in being that nothing holds. It is kept for the next collection, which then doesn't go over what
/// is gone.
#[derive(Drop)]
pub(crate) struct Findings<A: Allocator> {
    marks: ObjectMarks<A>,
    pub(crate) unheld: Vec<u64, A>,
}

impl<A: Allocator> Findings<A> {
    /// Nothing was found yet. Takes no memory.
    pub(crate) fn new(marks: A, unheld: A) -> Findings<A> {
        Findings {
            marks: ObjectMarks::new(marks),
            unheld: Vec::new(unheld),
        }
    }
}

/// Looks for all that something holds. It only reads the tables.
fn find_held<A: Allocator + Clone>(
    view: &View<'_, A>,
    findings: &mut Findings<A>,
) -> Result<(), AllocError>
    ensures marks { OnOk result ((p : Parts) → ViewStands view.now p
        → MarksHeld view.now.heap.now.classes (roots view.now.setup.now p) p.heap findings.new.marks) }
    ensures unheld { OnOk result ((p : Parts) → ViewStands view.now p
        → findings.new.unheld.items ≡ going view.now.setup.now p) }
    ensures listed { OnOk result (AreListed view.now.heap.now findings.new.marks findings.new.unheld.items) }
{
    findings.marks.start(view.heap.len() as usize)?;
    mark_held(view, &mut findings.marks, &mut findings.unheld)?;
    Ok(())
}

/// Looks for what the call has to know of what is held: all, where it is a collection.
pub(crate) fn find_held_for<A: Allocator + Clone>(
    view: &View<'_, A>,
    findings: &mut Findings<A>,
    call: &Call,
) -> Result<(), AllocError>
    ensures found { OnOk result ((p : Parts) → ViewStands view.now p
        → Finds view.now.setup.now p call.now findings.new) }
    ensures ready { OnOk result (IsReady view.now.heap.now call.now findings.new) }
    ensures wants { OnErr result (cleans_up call.now ≡ false) }
{
    match call {
        Call::Vm(call) => match call {
            VmCall::Collect => {
                find_held(view, findings)?;
                Ok(())
            }
            _ => Ok(()),
        },
        _ => Ok(()),
    }
}

/// Whether the object goes now: it was made, isn't gone, and isn't marked.
fn is_going<A: Allocator>(heap: &Heap<A>, marks: &ObjectMarks<A>, object: ObjId) -> bool
    ensures { (e : List heap_of.Event) (held : List ℕ) → heap_standing.Stands heap.now e
        → MarksHeld heap.now.classes held e marks.now
        → result ≡ list_any (λ o. o == object.0) (heap_of.going heap.now.classes held e) }
{
    if object.0 < heap.len() {
        !heap.is_gone(object) && !marks.is_set(object.0)
    } else {
        false
    }
}

/// Clears the weak references to what goes.
fn clear_going<A: Allocator + Clone>(
    heap: &Heap<A>,
    globals: &mut Globals<A>,
    marks: &ObjectMarks<A>,
)
    ensures { (e : List heap_of.Event) (g : List globals_of.Event) (held : List ℕ)
        → heap_standing.Stands heap.now e → globals_standing.Stands globals.old g
        → MarksHeld heap.now.classes held e marks.now
        → globals_standing.Stands globals.new
        (map (λ o. globals_of.Clear o) (heap_of.going heap.now.classes held e) ++ g) }
{
    globals.clear_weak_where(
        |object: ObjId| -> bool
            ensures { (e : List heap_of.Event) (held : List ℕ) → heap_standing.Stands heap.entry.now e
                → MarksHeld heap.entry.now.classes held e marks.entry.now
                → result ≡ list_any (λ o. o == object.0) (heap_of.going heap.entry.now.classes held e) }
        { is_going(heap, marks, object) },
    );
}

/// Lets go of what isn't marked, which is listed, and clears the weak references to it.
fn let_go<A: Allocator + Clone>(tables: &mut Tables<A>, marks: &ObjectMarks<A>, unheld: &[u64])
    requires { AreListed tables.old.heap marks.now unheld.now }
    ensures stands { (setup : StatedSetup) (p : Parts) → TablesStand setup (rows_of tables.old) p
        → MarksHeld (class_count setup) (roots setup p) p.heap marks.now
        → TablesStand setup (rows_of tables.new) (collected_on setup p) }
    ensures locals { tables.new.locals ≡ tables.old.locals }
    ensures links { tables.new.links ≡ tables.old.links }
{
    clear_going(&tables.heap, &mut tables.globals, marks);
    tables.heap.sweep(marks, unheld);
}

/// Lets go of what nothing holds, as it was found, all judged at once.
pub(crate) fn collect<A: Allocator + Clone>(tables: &mut Tables<A>, findings: &Findings<A>)
    requires { IsReady tables.old.heap (Vm Collect) findings.now }
    ensures stands { (setup : StatedSetup) (p : Parts) → TablesStand setup (rows_of tables.old) p
        → Finds setup p (Vm Collect) findings.now → TablesStand setup (rows_of tables.new) (collected_on setup p) }
    ensures locals { tables.new.locals ≡ tables.old.locals }
    ensures links { tables.new.links ≡ tables.old.links }
{
    let_go(tables, &findings.marks, &findings.unheld);
}
