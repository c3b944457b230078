//! Whether a fact can be, as the tables are now.

ghost use Rattle.std.specs.Prelude.{◌≡◌};
ghost use Rattle.std.specs.Option.{option_map};
ghost use Rattle.jg_table_buffers.specs.History as buffers_of;
ghost use Rattle.jg_table_monitors.specs.History.{owner};
ghost use Rattle.jg_table_objects.specs.Standing.{Tells};
ghost use Rattle.jg_rules.specs.Names as names_of;
ghost use Rattle.jg_rules.specs.Parts.{Parts};
ghost use Rattle.jg_rules.specs.View.{ViewTells};
ghost use Rattle.jg_core.specs.declared.fact.Fact.TheVariants.{Gone, Leave, Pop};
ghost use Rattle.jg_core.specs.Facts as facts;

use crate::fact::{Checked, Fact};
use jg_judge::is_class;
use jg_rules::{Named, View, buffer_named, is_root, look_up};
use jg_table_buffers::Family;
use jg_table_objects::Objects;
use jg_words::{ObjId, Ref, Tid};
use std::alloc::Allocator;

/// Whether the object was made and isn't gone.
fn is_here<A: Allocator + Clone>(view: &View<'_, A, Objects<A>>, object: ObjId) -> bool
    ensures { (p : Parts) → ViewTells Tells view.now p → result ≡ names_of.is_here view.now.setup.now p object.0 }
{
    view.heap.is_there(object)
}

/// Whether the object that is kept is there, if one is.
fn is_kept_here<A: Allocator + Clone>(view: &View<'_, A, Objects<A>>, kept: Option<ObjId>) -> bool
    ensures { (p : Parts) → ViewTells Tells view.now p → result ≡ facts.is_kept_here view.now.setup.now p kept }
{
    match kept {
        None => true,
        Some(object) => is_here(view, object),
    }
}

/// Whether the reference is in being, cleared or not.
fn is_in_being<A: Allocator + Clone>(view: &View<'_, A, Objects<A>>, reference: Ref) -> bool
    ensures { (p : Parts) → ViewTells Tells view.now p → result ≡ facts.is_in_being p reference }
{
    match reference {
        Ref::Null => false,
        Ref::To { maker, .. } => match look_up(view, maker, reference) {
            Named::Nothing => false,
            Named::Null => true,
            Named::Object(_) => true,
        },
    }
}

/// Whether nobody but the thread owns the object's monitor.
fn is_free_for<A: Allocator + Clone>(
    view: &View<'_, A, Objects<A>>,
    tid: Tid,
    object: ObjId,
) -> bool
    ensures { (p : Parts) → ViewTells Tells view.now p
        → result ≡ facts.is_free_for tid.0 (owner p.monitors object.0) }
{
    match view.monitors.owner(object) {
        None => true,
        Some(owner) => owner.0 == tid.0,
    }
}

/// Whether the thread owns it.
fn is_owner<A: Allocator + Clone>(view: &View<'_, A, Objects<A>>, tid: Tid, object: ObjId) -> bool
    ensures { (p : Parts) → ViewTells Tells view.now p → result ≡ facts.is_owner tid.0 (owner p.monitors object.0) }
{
    match view.monitors.owner(object) {
        None => false,
        Some(owner) => owner.0 == tid.0,
    }
}

/// Whether the buffers of the family are critical.
pub(crate) fn is_critical(family: Family) -> bool
    ensures { result ≡ buffers_of.is_critical family }
{
    match family {
        Family::Elements(_) => false,
        Family::Chars => false,
        Family::UtfChars => false,
        Family::ArrayCritical => true,
        Family::StringCritical => true,
    }
}

/// Whether a buffer of the family may be asked for by this reference.
fn is_through(family: Family, via: Ref) -> bool
    ensures { result ≡ facts.is_through family via }
{
    match via {
        Ref::Null => !is_critical(family),
        Ref::To { .. } => true,
    }
}

/// Whether the two are one object, or none.
fn is_same(one: Option<ObjId>, other: Option<ObjId>) -> bool
    ensures { result ≡ facts.same_object one (option_map (λ o. o.0) other) }
{
    match (one, other) {
        (None, None) => true,
        (None, Some(_)) => false,
        (Some(_), None) => false,
        (Some(one), Some(other)) => one.0 == other.0,
    }
}

/// Whether the machine's answer is what it must be.
fn is_so<A: Allocator + Clone>(view: &View<'_, A, Objects<A>>, check: Checked) -> bool
    ensures { (p : Parts) → ViewTells Tells view.now p → result ≡ facts.is_so view.now.setup.now p check }
{
    match check {
        Checked::Local { tid, n, object } => {
            view.threads.is_attached(tid) && is_same(object, view.locals.get(tid, n))
        }
        Checked::Pending { tid, object } => {
            view.threads.is_attached(tid) && is_same(object, view.threads.pending(tid))
        }
        Checked::Length { object, length } => view.heap.length_there(object) == Some(length),
    }
}

/// Whether a native method may leave, and this be kept.
fn may_leave<A: Allocator + Clone>(
    view: &View<'_, A, Objects<A>>,
    tid: Tid,
    kept: Option<ObjId>,
) -> bool
    ensures { (p : Parts) → ViewTells Tells view.now p
        → result ≡ facts.can_be view.now.setup.now p (Leave tid kept) }
{
    view.threads.is_attached(tid) && (view.threads.depth(tid) != 0 && is_kept_here(view, kept))
}

/// Whether a frame may be popped, and this be kept.
fn may_pop<A: Allocator + Clone>(
    view: &View<'_, A, Objects<A>>,
    tid: Tid,
    kept: Option<ObjId>,
) -> bool
    ensures { (p : Parts) → ViewTells Tells view.now p
        → result ≡ facts.can_be view.now.setup.now p (Pop tid kept) }
{
    view.threads.is_attached(tid) && (view.locals.pushed(tid) != 0 && is_kept_here(view, kept))
}

/// Whether the object can go: it is there, is no class object, and nothing holds it.
fn may_go<A: Allocator + Clone>(view: &View<'_, A, Objects<A>>, object: ObjId) -> bool
    ensures { (p : Parts) → ViewTells Tells view.now p → result ≡ facts.can_be view.now.setup.now p (Gone object) }
{
    let is_class = object.0 < u64::from(view.setup.class_count());
    is_here(view, object) && (!is_class && !is_root(view, object))
}

/// Whether the fact can be.
pub(crate) fn can_be<A: Allocator + Clone>(view: &View<'_, A, Objects<A>>, fact: Fact) -> bool
    ensures { (p : Parts) → ViewTells Tells view.now p → result ≡ facts.can_be view.now.setup.now p fact }
{
    match fact {
        Fact::Begin(tid) => 0 < tid.0 && !view.threads.is_attached(tid),
        Fact::End(tid) => view.threads.is_attached(tid),
        Fact::Enter(tid) => view.threads.is_attached(tid),
        Fact::Leave { tid, kept } => may_leave(view, tid, kept),
        Fact::Push { tid, .. } => view.threads.is_attached(tid),
        Fact::Pop { tid, kept } => may_pop(view, tid, kept),
        Fact::Ensure { tid, .. } => view.threads.is_attached(tid),
        Fact::Raise { tid, object } => view.threads.is_attached(tid) && is_here(view, object),
        Fact::Calm(tid) => view.threads.is_attached(tid),
        Fact::Hand { tid, object, .. } => view.threads.is_attached(tid) && is_here(view, object),
        Fact::Lost(reference) => is_in_being(view, reference),
        Fact::Lend {
            tid,
            family,
            object,
            via,
            ..
        } => { view.threads.is_attached(tid) && (is_here(view, object) && is_through(family, via)) }
        Fact::Back(buffer) => buffer_named(view, buffer).is_some(),
        Fact::Own { tid, object } => {
            let attached = view.threads.is_attached(tid);
            attached && (is_here(view, object) && is_free_for(view, tid, object))
        }
        Fact::Free { tid, object } => is_owner(view, tid, object),
        Fact::Meet { class, .. } => is_class(view.setup, class),
        Fact::Gone(object) => may_go(view, object),
        Fact::Link { class, native } => view.setup.has_native(class, native),
        Fact::Unlink(class) => class < view.setup.class_count(),
        Fact::Warn(home) => home < view.setup.module_count(),
        Fact::Checked(check) => is_so(view, check),
    }
}

/// Whether the fact makes something.
pub(crate) fn makes(fact: Fact) -> bool
    ensures { result ≡ facts.makes fact }
{
    match fact {
        Fact::Begin(_) => true,
        Fact::End(_) => false,
        Fact::Enter(_) => true,
        Fact::Leave { kept, .. } => kept.is_some(),
        Fact::Push { .. } => true,
        Fact::Pop { kept, .. } => kept.is_some(),
        Fact::Ensure { .. } => false,
        Fact::Raise { .. } => false,
        Fact::Calm(_) => false,
        Fact::Hand { .. } => true,
        Fact::Lost(_) => false,
        Fact::Lend { .. } => true,
        Fact::Back(_) => false,
        Fact::Own { .. } => true,
        Fact::Free { .. } => false,
        Fact::Meet { .. } => true,
        Fact::Gone(_) => false,
        Fact::Link { .. } => true,
        Fact::Unlink(_) => false,
        Fact::Warn(_) => true,
        Fact::Checked(_) => false,
    }
}
