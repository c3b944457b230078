//! What an operand comes to: whether it suits its function, and which of rules 5, 6 and 8 to 12 it breaks.

ghost use Rattle.std.specs.Prelude.{◌≡◌, if◌then◌else◌, Option, Some, None, IfSome, pos};
ghost use Rattle.std.specs.Option.{is_none, is_some};
ghost use Rattle.jg_words.specs.declared.rule.Rule.TheVariants.{ForeignLocal, DeadReference};
ghost use Rattle.jg_rules.specs.Names.{names};
ghost use Rattle.jg_rules.specs.Parts.{Parts};
ghost use Rattle.jg_rules.specs.View.{ViewTells};
ghost use Rattle.jg_rules.specs.Numbers.{is_within};
ghost use Rattle.jg_rules.specs.Rules.{is_foreign, is_outside_of};
ghost use Rattle.jg_judge.specs.declared.argument.Argument.TheVariants.{Reference};
ghost use Rattle.jg_judge.specs.Asked as asked;
ghost use Rattle.jg_judge.specs.Broken as rules;
ghost use Rattle.jg_judge.specs.Faults as spec;
ghost use Rattle.jg_judge.specs.Question.{beside_of, named_in};
ghost use Rattle.jg_judge.specs.Suits.{suits_one};

use crate::argument::{Argument, Bounds};
use crate::firsts::{first_buffer, first_reference};
use crate::kinds::is_kind;
use crate::suiting::{
    takes_buffer, takes_class, takes_id, takes_list, takes_name, takes_native, takes_number,
    takes_reference, takes_value,
};
use jg_policy::Setup;
use jg_rows::Takes;
use jg_rules::{
    Named, Store, View, buffer_named, fits, is_foreign_local, is_readable, is_releasable,
    is_writable, item_type, look_up,
};
use jg_table_buffers::Info;
use jg_words::{BufId, ItemType, Ref, Rule, Tid};
use std::alloc::Allocator;

/// What an operand comes to that suits its function.
#[derive(Clone, Copy)]
pub struct Seen {
    /// What it names, if it is a reference.
    pub named: Option<Named>,
    /// The first rule that it breaks.
    pub broken: Option<Rule>,
}

/// The rule that a reference breaks that names nothing.
fn of_nothing(tid: Tid, reference: Ref) -> Rule
    ensures { result ≡ (if is_foreign tid.0 reference then ForeignLocal else DeadReference) }
{
    if is_foreign_local(tid, reference) {
        Rule::ForeignLocal
    } else {
        Rule::DeadReference
    }
}

/// The first of rules 5, 6, 8 and 9 that a reference breaks that names this.
#[inline(always)]
fn of_reference<A: Allocator + Clone, S: Store>(
    view: &View<'_, A, S>,
    tid: Tid,
    takes: &Takes,
    reference: Ref,
    named: Named,
) -> Option<Rule>
    ensures { (p : Parts) → ViewTells S.Tells view.now p → named ≡ names p tid.0 reference → result
        ≡ spec.first_of (spec.of_reference view.now.setup.now p tid.0 (asked.judged_of takes.now (Reference reference))) }
{
    match takes {
        Takes::Reference(kind) => match named {
            Named::Nothing => Some(of_nothing(tid, reference)),
            Named::Null => Some(Rule::NullReference),
            Named::Object(object) => (!is_kind(view, *kind, object)).then_some(Rule::WrongType),
        },
        Takes::Nullable | Takes::Arguments => match named {
            Named::Nothing => Some(of_nothing(tid, reference)),
            Named::Null | Named::Object(_) => None,
        },
        _ => None,
    }
}

/// The open buffer that the first operand means that is a buffer.
fn buffer_meant<A: Allocator + Clone, S: Store>(
    view: &View<'_, A, S>,
    operands: &[Argument],
) -> Option<Info>
    ensures { (p : Parts) → ViewTells S.Tells view.now p
        → result ≡ rules.buffer_meant p (asked.first_buffer operands.now) }
{
    match first_buffer(operands) {
        None => None,
        Some(buffer) => buffer_named(view, buffer),
    }
}

/// Whether the buffer among these operands may not be given.
fn is_refused_buffer<A: Allocator + Clone, S: Store>(
    view: &View<'_, A, S>,
    tid: Tid,
    operands: &[Argument],
    takes: Takes,
    buffer: BufId,
) -> bool
    ensures { (p : Parts) → ViewTells S.Tells view.now p
        → result ≡ rules.is_refused_buffer p tid.0 (asked.first_reference operands.now) takes buffer }
{
    match takes {
        Takes::Buffer(family) => {
            !is_releasable(view, tid, family, first_reference(operands), buffer)
        }
        Takes::Readable => !is_readable(view, tid, buffer),
        Takes::Writable => !is_writable(view, tid, buffer),
        _ => false,
    }
}

fn is_up_to(most: i32, n: i32) -> bool
    ensures { result ≡ is_within (pos 0) most n }
{
    0 <= n && n <= most
}

fn is_outside(n: i32, info: Option<Info>) -> bool
    ensures { result ≡ is_outside_of n info }
{
    match info {
        None => false,
        Some(info) => !(0 <= n && (n as u64) < info.length),
    }
}

fn is_wrong_item<A: Allocator + Clone, S: Store>(
    view: &View<'_, A, S>,
    n: i64,
    info: Option<Info>,
) -> bool
    ensures { (p : Parts) → ViewTells S.Tells view.now p
        → result ≡ rules.is_wrong_item view.now.setup.now p n info }
{
    match info {
        None => false,
        Some(info) => match item_type(view, info) {
            None => false,
            Some(element) => !fits(element, n),
        },
    }
}

fn is_item_value(item: ItemType, n: i64) -> bool
    ensures { result ≡ rules.is_item_value item n }
{
    match item {
        ItemType::Of(primitive) => fits(primitive, n),
        ItemType::Float => true,
        ItemType::Double => true,
    }
}

/// Whether a `jint` among these operands isn't what its function bounds it to.
fn is_wrong_number<A: Allocator + Clone, S: Store>(
    view: &View<'_, A, S>,
    bounds: Bounds,
    operands: &[Argument],
    takes: Takes,
    n: i32,
) -> bool
    ensures { (p : Parts) → ViewTells S.Tells view.now p → result
        ≡ rules.is_wrong_number bounds (rules.buffer_meant p (asked.first_buffer operands.now)) takes n }
{
    match takes {
        Takes::Capacity => !is_up_to(bounds.capacity, n),
        Takes::Length => !is_up_to(bounds.length, n),
        Takes::Count => bounds.items < n,
        Takes::Mode => !is_up_to(2, n),
        Takes::Place => is_outside(n, buffer_meant(view, operands)),
        _ => false,
    }
}

/// Whether the buffer among these operands, or a field of the type, can't hold it.
fn is_wrong_value<A: Allocator + Clone, S: Store>(
    view: &View<'_, A, S>,
    operands: &[Argument],
    takes: Takes,
    value: i64,
) -> bool
    ensures { (p : Parts) → ViewTells S.Tells view.now p → result ≡ rules.is_wrong_value view.now.setup.now p
        (rules.buffer_meant p (asked.first_buffer operands.now)) takes value }
{
    match takes {
        Takes::Item => is_wrong_item(view, value, buffer_meant(view, operands)),
        Takes::Value(item) => !is_item_value(item, value),
        _ => false,
    }
}

/// Whether the setup states no class of that number.
fn is_unstated(setup: &Setup, class: Option<u32>) -> bool
    ensures { result ≡ is_none (rules.stated setup.now class) }
{
    match class {
        None => true,
        Some(class) => class >= setup.class_count(),
    }
}

/// What an operand comes to that is no reference: whether it suits, and whether it breaks this rule.
#[inline(always)]
fn comes_to(suits: bool, rule: Rule, breaks: bool) -> Option<Seen>
    ensures { result ≡ (if suits then Some (record { named = None; broken = if breaks then Some rule else None })
        else None) }
{
    if suits {
        Some(Seen {
            named: None,
            broken: breaks.then_some(rule),
        })
    } else {
        None
    }
}

/// What one of these operands comes to. None where it doesn't suit.
#[inline(always)]
pub fn look_at<A: Allocator + Clone, S: Store>(
    view: &View<'_, A, S>,
    bounds: Bounds,
    tid: Tid,
    operands: &[Argument],
    takes: &Takes,
    argument: &Argument,
) -> Option<Seen>
    ensures suits { is_some result ≡ suits_one takes.now argument.now }
    ensures named { (p : Parts) → ViewTells S.Tells view.now p
        → IfSome result (λ seen. seen.named ≡ named_in p tid.0 argument.now) }
    ensures broken { (p : Parts) → ViewTells S.Tells view.now p → IfSome result (λ seen. seen.broken ≡ spec.first_of
        (spec.faults_of view.now.setup.now p tid.0 (beside_of bounds p operands.now) takes.now argument.now)) }
{
    match argument {
        Argument::Reference(reference) => {
            let named = look_up(view, tid, *reference);
            if takes_reference(*takes) {
                Some(Seen {
                    named: Some(named),
                    broken: of_reference(view, tid, takes, *reference, named),
                })
            } else {
                None
            }
        }
        Argument::Buffer(buffer) => {
            let breaks = is_refused_buffer(view, tid, operands, *takes, *buffer);
            comes_to(takes_buffer(*takes), Rule::BadBuffer, breaks)
        }
        Argument::Number(n) => {
            let breaks = is_wrong_number(view, bounds, operands, *takes, *n);
            comes_to(takes_number(*takes), Rule::BadArgument, breaks)
        }
        Argument::Value(value) => {
            let breaks = is_wrong_value(view, operands, *takes, *value);
            comes_to(takes_value(*takes), Rule::BadArgument, breaks)
        }
        Argument::Id { fits } => comes_to(takes_id(*takes), Rule::BadField, !*fits),
        Argument::Class(class) => {
            let breaks = is_unstated(view.setup, *class);
            comes_to(takes_class(*takes), Rule::BadArgument, breaks)
        }
        Argument::Native(_) => comes_to(takes_native(*takes), Rule::BadArgument, false),
        Argument::Name => comes_to(takes_name(*takes), Rule::BadArgument, false),
        Argument::List { fits, .. } => comes_to(takes_list(*takes), Rule::BadArgument, !*fits),
    }
}
