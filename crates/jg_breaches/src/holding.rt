//! Whether a condition holds, by the tables as they are now.

ghost use Rattle.std.specs.Prelude.{◌≡◌};
ghost use Rattle.jg_rules.specs.Parts.{Parts};
ghost use Rattle.jg_rules.specs.View.{ViewStands};
ghost use Rattle.jg_breaches.specs.Conditions.{holds as holds_in};

use crate::condition::Condition;
use jg_rules::{Named, View, buffer_named, look_up, object_named};
use jg_words::{EnvId, ObjId, Tid};
use std::alloc::Allocator;

fn is_present<A: Allocator + Clone>(view: &View<'_, A>, env: EnvId) -> bool
    ensures { (p : Parts) → ViewStands view.now p → result ≡ holds_in p (Condition.IsPresent env) }
{
    match view.threads.env_of(env.tid) {
        None => false,
        Some(present) => env.session == present.session,
    }
}

fn owns<A: Allocator + Clone>(view: &View<'_, A>, tid: Tid, object: ObjId) -> bool
    ensures { (p : Parts) → ViewStands view.now p → result ≡ holds_in p (Condition.Owns tid object) }
{
    match view.monitors.owner(object) {
        None => false,
        Some(owner) => owner.0 == tid.0,
    }
}

/// Whether the condition holds, as the tables are now.
pub fn holds<A: Allocator + Clone>(view: &View<'_, A>, condition: Condition) -> bool
    ensures { (p : Parts) → ViewStands view.now p → result ≡ holds_in p condition }
{
    match condition {
        Condition::IsAttached { tid } => view.threads.env_of(tid).is_some(),
        Condition::IsPresent { env } => is_present(view, env),
        Condition::HasPending { tid } => view.threads.pending(tid).is_some(),
        Condition::Names { tid, reference } => look_up(view, tid, reference) != Named::Nothing,
        Condition::NamesObject { tid, reference } => object_named(view, tid, reference).is_some(),
        Condition::IsOpen { buffer } => buffer_named(view, buffer).is_some(),
        Condition::Owns { tid, object } => owns(view, tid, object),
        Condition::IsOwned { object } => view.monitors.held(object),
        Condition::HasFrame { tid } => view.locals.can_pop(tid),
        Condition::InNative { tid } => view.threads.depth(tid) > 0,
        Condition::IsLinked { class, native } => view.links.linked(class, native),
    }
}
