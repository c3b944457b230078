//! The rules that speak of one operand each: which one breaks them, and in which way.

ghost use Rattle.std.specs.Prelude.{◌≡◌, option_map, find, []};
ghost use Rattle.jg_rules.specs.Parts.{Parts};
ghost use Rattle.jg_rules.specs.View.{ViewStands, ViewTells};
ghost use Rattle.jg_rules.specs.Rules.{is_wrong};
ghost use Rattle.jg_breaches.specs.Breaches as breaches;
ghost use Rattle.jg_breaches.specs.Referred.{also, referred};

use crate::breach::Breach;
use crate::referred::operand_in;
use jg_judge::{Argument, Arguments, arguments_of, function_of};
use jg_rows::{Takes, row_of};
use jg_rules::{
    Named, ObjectType, Operand, Store, View, class_of, is_foreign_local, is_not_the_owner,
    is_object_of, look_up, object_named, the_object,
};
use jg_words::{Call, ObjId, Ref, Rule, Tid};
use std::alloc::Allocator;

/// Whether it is an object, and not of the type.
fn is_wrong_object<A: Allocator + Clone, S: Store>(
    view: &View<'_, A, S>,
    object_type: ObjectType,
    named: Named,
) -> bool
    ensures { (p : Parts) → ViewTells S.Tells view.now p → result ≡ is_wrong view.now.setup.now p object_type named }
{
    match named {
        Named::Nothing | Named::Null => false,
        Named::Object(object) => !is_object_of(view, object_type, object),
    }
}

/// Whether the operand breaks the rule.
fn breaks<A: Allocator + Clone, S: Store>(
    view: &View<'_, A, S>,
    tid: Tid,
    rule: Rule,
    operand: Operand,
) -> bool
    ensures { (p : Parts) → ViewTells S.Tells view.now p
        → result ≡ breaches.breaks view.now.setup.now p tid.0 rule operand }
{
    let reference = operand.reference;
    match rule {
        Rule::ForeignLocal => is_foreign_local(tid, reference),
        Rule::DeadReference => look_up(view, tid, reference) == Named::Nothing,
        Rule::WrongRefKind => true,
        Rule::NullReference => { !operand.nullable && look_up(view, tid, reference) == Named::Null }
        Rule::WrongType => {
            is_wrong_object(view, operand.object_type, look_up(view, tid, reference))
        }
        Rule::Pinned => view.buffers.pinned_by(reference),
        Rule::NotOwner => is_not_the_owner(view, tid, object_named(view, tid, reference)),
        _ => false,
    }
}

/// The operand, if there is one, and it breaks the rule.
fn if_it_breaks<A: Allocator + Clone, S: Store>(
    view: &View<'_, A, S>,
    tid: Tid,
    rule: Rule,
    operand: Option<Operand>,
) -> Option<Operand>
    ensures { (p : Parts) → ViewTells S.Tells view.now p → result
        ≡ find (breaches.breaks view.now.setup.now p tid.0 rule) (also operand []) }
{
    match operand {
        None => None,
        Some(operand) => {
            if breaks(view, tid, rule, operand) {
                Some(operand)
            } else {
                None
            }
        }
    }
}

/// The first of the references that rules speak of, from left to right, that breaks the rule.
fn first_of<A: Allocator + Clone, S: Store>(
    view: &View<'_, A, S>,
    tid: Tid,
    rule: Rule,
    takes: &[Takes],
    arguments: &[Argument],
) -> Option<Operand>
    ensures { (p : Parts) → ViewTells S.Tells view.now p → result
        ≡ find (breaches.breaks view.now.setup.now p tid.0 rule) (referred takes.now arguments.now) }
{
    let mut wanted = takes;
    let mut rest = arguments;
    while let Some((argument, later)) = rest.split_first() {
        let Some((take, more)) = wanted.split_first() else {
            return None;
        };
        let found = if_it_breaks(view, tid, rule, operand_in(*take, *argument));
        if found.is_some() {
            return found;
        }
        wanted = more;
        rest = later;
    }
    None
}

/// The first operand of the call, from left to right, that breaks the rule, of those rules that speak
/// of one operand each.
fn operand_meant<A: Allocator + Clone>(
    view: &View<'_, A>,
    tid: Tid,
    call: &Call,
    rule: Rule,
) -> Option<Operand>
    ensures { (p : Parts) → ViewStands view.now p
        → result ≡ breaches.operand_meant view.now.setup.now p tid.0 call.now rule }
{
    let Some(row) = row_of(usize::from(function_of(call))) else {
        unreachable!()
    };
    match arguments_of(view, tid, call) {
        Arguments::Empty => None,
        Arguments::One(first) => first_of(view, tid, rule, row.takes, &[first]),
        Arguments::Two(first, second) => first_of(view, tid, rule, row.takes, &[first, second]),
        Arguments::Three(first, second, third) => {
            first_of(view, tid, rule, row.takes, &[first, second, third])
        }
    }
}

/// In which way the operand, which breaks the rule, does so.
fn reference_breach<A: Allocator + Clone>(
    view: &View<'_, A>,
    tid: Tid,
    rule: Rule,
    operand: Operand,
) -> Breach
    ensures { (p : Parts) → ViewStands view.now p
        → result ≡ breaches.reference_breach view.now.setup.now p tid.0 rule operand }
{
    let reference = operand.reference;
    match rule {
        Rule::ForeignLocal => Breach::ForeignLocal { reference },
        Rule::DeadReference => Breach::DeadReference { reference },
        Rule::WrongRefKind => Breach::OtherKind { reference },
        Rule::NullReference => Breach::NoObject { reference },
        Rule::WrongType => Breach::OtherType {
            reference,
            wanted: operand.object_type,
            class: class_of(view, the_object(view, tid, reference)),
        },
        Rule::Pinned => Breach::PinnedReference { reference },
        Rule::NotOwner => owner_breach(view, reference, object_named(view, tid, reference)),
        _ => Breach::Unbroken,
    }
}

fn owner_breach<A: Allocator + Clone>(
    view: &View<'_, A>,
    reference: Ref,
    object: Option<ObjId>,
) -> Breach
    ensures { (p : Parts) → ViewStands view.now p → result
        ≡ breaches.owner_breach view.now.setup.now p reference (option_map (λ o. o.0) object) }
{
    match object {
        None => Breach::Unbroken,
        Some(object) => Breach::NotOwner {
            reference,
            object,
            class: class_of(view, object),
            owner: view.monitors.owner(object),
        },
    }
}

/// In which way a call breaks a rule that speaks of one operand.
pub(crate) fn operand_breach<A: Allocator + Clone>(
    view: &View<'_, A>,
    tid: Tid,
    call: &Call,
    rule: Rule,
) -> Breach
    ensures { (p : Parts) → ViewStands view.now p → result ≡ breaches.operand_breach view.now.setup.now p tid.0 rule
        (breaches.operand_meant view.now.setup.now p tid.0 call.now rule) }
{
    match operand_meant(view, tid, call, rule) {
        None => Breach::Unbroken,
        Some(operand) => reference_breach(view, tid, rule, operand),
    }
}
