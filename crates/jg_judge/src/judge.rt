//! The first rule that a question breaks, and which operand breaks it.

ghost use Rattle.std.specs.Prelude.{◌≡◌, ◌<◌, ℕ, false, IfSome, IsFalse, List, None};
ghost use Rattle.std.specs.Option.{option_map, option_or};
ghost use Rattle.jg_words.specs.declared.reference.Ref.{Ref as RefOf};
ghost use Rattle.jg_rows.specs.Columns.{columns};
ghost use Rattle.jg_policy.specs.Stated.{StatedSetup, class_count};
ghost use Rattle.jg_rules.specs.Rules.{is_linked as is_linked_by};
ghost use Rattle.jg_rules.specs.Parts.{Parts};
ghost use Rattle.jg_rules.specs.View.{ViewTells};
ghost use Rattle.jg_judge.specs.Asked as asked;
ghost use Rattle.jg_judge.specs.Broken as rules;
ghost use Rattle.jg_judge.specs.Culprit as culprits;
ghost use Rattle.jg_judge.specs.Faults as spec;
ghost use Rattle.jg_judge.specs.Faults.{Places};
ghost use Rattle.jg_judge.specs.declared.argument.Argument.{Argument as ArgumentOf};

use crate::argument::Argument;
use crate::firsts::{first_reference, native_by_name};
use jg_policy::{Operation, Setup};
use jg_rows::{Effect, Passes, Row};
use jg_rules::{
    Store, View, class_meant, is_not_the_owner, is_of_another_kind, is_refused_to, is_wrong_caller,
    object_named,
};
use jg_words::{EnvId, Kind, Ref, Rule, Tid};
use std::alloc::Allocator;

/// The first rule that a question breaks.
#[derive(Clone, Copy, PartialEq, Eq)]
pub struct Broken {
    pub rule: Rule,
    /// The place, counted from 0, of the first operand that breaks it. `None` where the rule is about no operand, as
    /// rule 1 is about the thread.
    pub operand: Option<usize>,
}

/// The one of the earlier rule; the one that was found before where both are of one.
pub fn sooner(before: Option<Broken>, found: Broken) -> Broken
    ensures { result ≡ spec.sooner before found }
{
    match before {
        Some(before) if before.rule.number() <= found.rule.number() => before,
        _ => found,
    }
}

fn is_collection(effect: Effect) -> bool
    ensures { result ≡ rules.is_collection effect }
{
    match effect {
        Effect::Collects => true,
        _ => false,
    }
}

fn is_wrong_thread(tid: Tid, env: Option<EnvId>, row: &Row) -> bool
    ensures { result ≡ rules.wrong_thread tid.0 env (columns row.now) }
{
    match env {
        None => is_wrong_caller(tid, is_collection(row.effect)),
        Some(env) => is_wrong_caller(tid, is_collection(row.effect)) || env.tid.0 != tid.0,
    }
}

fn is_detached<A: Allocator + Clone, S: Store>(
    view: &View<'_, A, S>,
    tid: Tid,
    env: Option<EnvId>,
    row: &Row,
) -> bool
    ensures { (p : Parts) → ViewTells S.Tells view.now p
        → result ≡ rules.detached p tid.0 env (columns row.now) }
{
    match env {
        None => row.takes_env,
        Some(env) => match view.threads.env_of(tid) {
            None => true,
            Some(present) => env.tid.0 != tid.0 || env.session != present.session,
        },
    }
}

fn passes_in_critical(passes: Passes) -> bool
    ensures { result ≡ rules.passes_critical passes }
{
    match passes {
        Passes::Usual => false,
        Passes::Pending => false,
        Passes::Critical => true,
        Passes::Both => true,
    }
}

fn passes_pending(passes: Passes) -> bool
    ensures { result ≡ rules.passes_pending passes }
{
    match passes {
        Passes::Usual => false,
        Passes::Pending => true,
        Passes::Critical => false,
        Passes::Both => true,
    }
}

fn is_in_critical<A: Allocator + Clone, S: Store>(
    view: &View<'_, A, S>,
    tid: Tid,
    row: &Row,
) -> bool
    ensures { (p : Parts) → ViewTells S.Tells view.now p → result ≡ rules.in_critical p tid.0 (columns row.now) }
{
    !passes_in_critical(row.passes) && view.buffers.in_critical(tid)
}

fn is_while_pending<A: Allocator + Clone, S: Store>(
    view: &View<'_, A, S>,
    tid: Tid,
    row: &Row,
) -> bool
    ensures { (p : Parts) → ViewTells S.Tells view.now p → result ≡ rules.while_pending p tid.0 (columns row.now) }
{
    view.threads.pending(tid).is_some() && !passes_pending(row.passes)
}

fn is_wrong_kind(effect: Effect, reference: Ref) -> bool
    ensures { result ≡ rules.wrong_kind effect reference }
{
    match effect {
        Effect::Ends(kind) => is_of_another_kind(reference, kind),
        _ => false,
    }
}

fn is_pinned<A: Allocator + Clone, S: Store>(
    view: &View<'_, A, S>,
    effect: Effect,
    reference: Ref,
) -> bool
    ensures { (p : Parts) → ViewTells S.Tells view.now p → result ≡ rules.pinned p effect reference }
{
    match effect {
        Effect::Ends(Kind::Local) => false,
        Effect::Ends(Kind::Global) => view.buffers.pinned_by(reference),
        Effect::Ends(Kind::Weak) => view.buffers.pinned_by(reference),
        _ => false,
    }
}

fn is_not_owned<A: Allocator + Clone, S: Store>(
    view: &View<'_, A, S>,
    tid: Tid,
    effect: Effect,
    reference: Ref,
) -> bool
    ensures { (p : Parts) → ViewTells S.Tells view.now p → result ≡ rules.not_owner p tid.0 effect reference }
{
    match effect {
        Effect::Frees => is_not_the_owner(view, tid, object_named(view, tid, reference)),
        _ => false,
    }
}

fn has_no_frame<A: Allocator + Clone, S: Store>(
    view: &View<'_, A, S>,
    tid: Tid,
    effect: Effect,
) -> bool
    ensures { (p : Parts) → ViewTells S.Tells view.now p → result ≡ rules.bad_frame p tid.0 effect }
{
    match effect {
        Effect::Detaches => view.threads.depth(tid) > 0,
        Effect::Leaves => view.threads.depth(tid) == 0,
        Effect::Pops => !view.locals.can_pop(tid),
        _ => false,
    }
}

/// The class of the setup that an operand names, if the setup has so many.
fn class_in(setup: &Setup, argument: Argument) -> Option<u32>
    ensures told { result ≡ rules.class_in setup.now argument }
    ensures within { IfSome result (λ class. class < class_count setup.now) }
{
    match argument {
        Argument::Class(Some(class)) if class < setup.class_count() => Some(class),
        _ => None,
    }
}

/// The class that the first operand names.
fn class_by_name(setup: &Setup, arguments: &[Argument]) -> Option<u32>
    ensures told { result ≡ rules.class_by_name setup.now arguments.now }
    ensures within { IfSome result (λ class. class < class_count setup.now) }
{
    match arguments.first() {
        None => None,
        Some(argument) => class_in(setup, *argument),
    }
}

fn is_refused<A: Allocator + Clone, S: Store>(
    view: &View<'_, A, S>,
    tid: Tid,
    effect: Effect,
    reference: Ref,
    arguments: &[Argument],
) -> bool
    ensures { (p : Parts) → ViewTells S.Tells view.now p
        → result ≡ rules.no_access view.now.setup.now p tid.0 effect reference arguments.now }
{
    match effect {
        Effect::Enters => {
            is_refused_to(view, Operation::Link, class_by_name(view.setup, arguments))
        }
        Effect::Loads => {
            is_refused_to(view, Operation::Load, class_by_name(view.setup, arguments))
        }
        Effect::Links => {
            is_refused_to(view, Operation::Register, class_meant(view, tid, reference))
        }
        _ => false,
    }
}

fn is_linked<A: Allocator + Clone, S: Store>(
    view: &View<'_, A, S>,
    class: Option<u32>,
    native: Option<u32>,
) -> bool
    ensures { (p : Parts) → ViewTells S.Tells view.now p → result ≡ is_linked_by p class native }
{
    match class {
        None => false,
        Some(class) => match native {
            None => false,
            Some(native) => view.links.linked(class, native),
        },
    }
}

fn is_unlinked<A: Allocator + Clone, S: Store>(
    view: &View<'_, A, S>,
    effect: Effect,
    arguments: &[Argument],
) -> bool
    ensures { (p : Parts) → ViewTells S.Tells view.now p
        → result ≡ rules.not_linked view.now.setup.now p effect arguments.now }
{
    match effect {
        Effect::Enters => {
            let class = class_by_name(view.setup, arguments);
            !is_linked(view, class, native_by_name(arguments))
        }
        _ => false,
    }
}

/// The first of rules 13 to 17.
fn judge_effect<A: Allocator + Clone, S: Store>(
    view: &View<'_, A, S>,
    tid: Tid,
    effect: Effect,
    reference: Ref,
    arguments: &[Argument],
) -> Option<Rule>
    ensures { (p : Parts) → ViewTells S.Tells view.now p
        → result ≡ rules.of_effect view.now.setup.now p tid.0 effect reference arguments.now }
{
    if is_pinned(view, effect, reference) {
        Some(Rule::Pinned)
    } else if is_not_owned(view, tid, effect, reference) {
        Some(Rule::NotOwner)
    } else if has_no_frame(view, tid, effect) {
        Some(Rule::BadFrame)
    } else if is_refused(view, tid, effect, reference, arguments) {
        Some(Rule::NoNativeAccess)
    } else if is_unlinked(view, effect, arguments) {
        Some(Rule::NotLinked)
    } else {
        None
    }
}

/// Which operand breaks one of rules 13 to 17: the reference that is deleted, the object whose monitor is given back,
/// and the class that native methods are of stand first; a native method's name stands behind its class.
fn operand_of(rule: Rule) -> Option<usize>
    ensures { result ≡ culprits.operand_of rule }
{
    match rule {
        Rule::Pinned | Rule::NotOwner | Rule::NoNativeAccess => Some(0),
        Rule::NotLinked => Some(1),
        _ => None,
    }
}

/// The same rule, with the operand.
fn with_operand(rule: Option<Rule>) -> Option<Broken>
    ensures { result ≡ option_map culprits.with_operand rule }
{
    match rule {
        None => None,
        Some(rule) => Some(Broken {
            rule,
            operand: operand_of(rule),
        }),
    }
}

/// The first of rules 1 to 4, which are about the caller.
#[inline(always)]
pub fn first_of_caller<A: Allocator + Clone, S: Store>(
    view: &View<'_, A, S>,
    tid: Tid,
    env: Option<EnvId>,
    row: &Row,
) -> Option<Rule>
    ensures { (p : Parts) → ViewTells S.Tells view.now p → result ≡ rules.by_caller p tid.0 env (columns row.now) }
{
    if is_wrong_thread(tid, env, row) {
        Some(Rule::WrongThread)
    } else if is_detached(view, tid, env, row) {
        Some(Rule::Detached)
    } else if is_in_critical(view, tid, row) {
        Some(Rule::InCritical)
    } else if is_while_pending(view, tid, row) {
        Some(Rule::Pending)
    } else {
        None
    }
}

/// Whether rules speak of what the function does. Of most effects they don't.
fn is_judged(effect: Effect) -> bool
    ensures kind { IsFalse result → (r : RefOf) → rules.wrong_kind effect r ≡ false }
    ensures rest { IsFalse result → (s : StatedSetup) (p : Parts) (t : ℕ) (r : RefOf) (xs : List ArgumentOf)
        → rules.of_effect s p t effect r xs ≡ None }
{
    match effect {
        Effect::Nothing | Effect::Hands(_) | Effect::Lends(_) | Effect::GivesBack => false,
        Effect::Pushes | Effect::Ensures | Effect::Raises | Effect::Calms | Effect::Owns => false,
        Effect::Attaches | Effect::Unlinks | Effect::Collects => false,
        _ => true,
    }
}

/// The first rule that a question breaks whose caller breaks none, where its operands break this one first by
/// themselves; and the operand that breaks it. The reference that is deleted stands first.
#[inline(always)]
pub fn first_broken<A: Allocator + Clone, S: Store>(
    view: &View<'_, A, S>,
    tid: Tid,
    effect: Effect,
    by_operands: Option<Broken>,
    arguments: &[Argument],
) -> Option<Broken>
    ensures { (p : Parts) (places : Places) → ViewTells S.Tells view.now p
        → by_operands ≡ spec.of_operands places false → result ≡ option_or
        (spec.of_operands places (rules.wrong_kind effect (asked.first_reference arguments.now)))
        (option_map culprits.with_operand (rules.of_effect view.now.setup.now p tid.0 effect
        (asked.first_reference arguments.now) arguments.now)) }
{
    if !is_judged(effect) {
        return by_operands;
    }
    let via = first_reference(arguments);
    if is_wrong_kind(effect, via) {
        return Some(sooner(
            by_operands,
            Broken {
                rule: Rule::WrongRefKind,
                operand: Some(0),
            },
        ));
    }
    if by_operands.is_some() {
        return by_operands;
    }
    with_operand(judge_effect(view, tid, effect, via, arguments))
}
