//! What comes of a call whose question was answered.

ghost use Rattle.std.specs.Prelude.{◌≡◌};
ghost use Rattle.std.specs.Option.{option_map};
ghost use Rattle.jg_rows.specs.Columns.{columns};
ghost use Rattle.jg_table_objects.specs.Standing.{Tells};
ghost use Rattle.jg_judge.specs.Asked.{first_reference as first_reference_of};
ghost use Rattle.jg_rules.specs.Names.{names, object_in as object_of};
ghost use Rattle.jg_rules.specs.Parts.{Parts};
ghost use Rattle.jg_rules.specs.View.{ViewTells};
ghost use Rattle.jg_core.specs.declared.fact.Fact.TheVariants.{Free, Own, Raise};
ghost use Rattle.jg_core.specs.Expected as spec;

use crate::fact::Fact;
use crate::implied::{
    attaching, detaching, doing, done_only, giving_back, handing, leaving, lending, linking,
    losing, popping, unlinking,
};
use crate::possible::is_critical;
use crate::says::Says;
use jg_judge::{Argument, first_buffer, first_number, first_reference, native_by_name};
use jg_rows::{Effect, Row, Section};
use jg_rules::{Named, View, class_meant};
use jg_table_buffers::Family;
use jg_table_heap::natural;
use jg_table_objects::Objects;
use jg_words::{BufId, Kind, ObjId, Ref, Tid};
use std::alloc::Allocator;

/// What is to be told once the machine says what it answered.
#[derive(Clone, Copy)]
pub enum Expected {
    /// It is done, and that is so, if anything; or it threw.
    Done(Option<Fact>),
    /// It can't be done, since an operand named no object; it threw.
    Undone,
    /// It is done, and that is so, if anything: it throws nothing.
    Quiet(Option<Fact>),
    /// A session begins, if that is so: it throws nothing, and answers the thread's environment.
    Attached(Option<Fact>),
    /// A reference of the kind is handed out, or null; or it threw.
    Handed(Kind),
    /// A buffer of the object is lent, or null is answered; or it threw.
    Lent {
        family: Family,
        object: Option<ObjId>,
        via: Ref,
    },
    /// A native method left.
    Left,
    /// A frame was popped.
    Popped,
    /// Nobody calls it.
    Never,
    /// Nothing is told of it, whatever the machine says.
    Nothing,
    /// Nothing is told of it, unless it threw.
    Thrown,
    /// That is so, if anything, where the machine says that it has ended, which it says by null; or it threw.
    IfEnded(Option<Fact>),
}

/// Nothing is told, unless it threw.
fn thrown_only(tid: Tid, says: Says) -> Option<Fact>
    ensures { result ≡ spec.thrown_only tid says }
{
    match says {
        Says::Threw(object) => Some(Fact::Raise { tid, object }),
        _ => None,
    }
}

/// That is so where it has ended.
fn if_ended(tid: Tid, fact: Option<Fact>, says: Says) -> Option<Fact>
    ensures { result ≡ spec.if_ended tid fact says }
{
    match says {
        Says::Null => fact,
        _ => thrown_only(tid, says),
    }
}

/// What the machine's answer implies, where so much was expected: None where no machine says so; else the fact, if any.
pub fn told(tid: Tid, expected: Expected, says: Says) -> Option<Option<Fact>>
    ensures { result ≡ spec.told tid expected says }
{
    match expected {
        Expected::Done(fact) => doing(tid, Some(fact), says),
        Expected::Undone => doing(tid, None, says),
        Expected::Quiet(fact) => done_only(fact, says),
        Expected::Attached(fact) => done_only(fact, says),
        Expected::Handed(kind) => handing(tid, kind, says),
        Expected::Lent {
            family,
            object,
            via,
        } => lending(tid, family, object, via, says),
        Expected::Left => leaving(tid, says),
        Expected::Popped => popping(tid, says),
        Expected::Never => None,
        Expected::Nothing => Some(None),
        Expected::Thrown => Some(thrown_only(tid, says)),
        Expected::IfEnded(fact) => Some(if_ended(tid, fact, says)),
    }
}

fn raised(tid: Tid, object: Option<ObjId>) -> Expected
    ensures { result ≡ spec.done_to (λ o. Raise tid o) (option_map (λ o. o.0) object) }
{
    match object {
        None => Expected::Undone,
        Some(object) => Expected::Done(Some(Fact::Raise { tid, object })),
    }
}

fn owned(tid: Tid, object: Option<ObjId>) -> Expected
    ensures { result ≡ spec.done_to (λ o. Own tid o) (option_map (λ o. o.0) object) }
{
    match object {
        None => Expected::Undone,
        Some(object) => Expected::Done(Some(Fact::Own { tid, object })),
    }
}

fn freed(tid: Tid, object: Option<ObjId>) -> Expected
    ensures { result ≡ spec.done_to (λ o. Free tid o) (option_map (λ o. o.0) object) }
{
    match object {
        None => Expected::Undone,
        Some(object) => Expected::Done(Some(Fact::Free { tid, object })),
    }
}

/// The buffer that is given back, if an operand is one.
pub(crate) fn back(mode: i32, buffer: Option<BufId>) -> Option<Fact>
    ensures { result ≡ spec.back mode buffer }
{
    match buffer {
        None => None,
        Some(buffer) => giving_back(mode, buffer),
    }
}

fn nothing_done(section: Section) -> Expected
    ensures { result ≡ spec.nothing_done section }
{
    match section {
        Section::InvocationApiFunctions => Expected::Quiet(None),
        _ => Expected::Done(None),
    }
}

/// The reference that a buffer of the family is asked for by.
fn via_for(family: Family, reference: Ref) -> Ref
    ensures { result ≡ spec.via_for family reference }
{
    if is_critical(family) {
        reference
    } else {
        Ref::Null
    }
}

/// The object among what a reference can name.
fn object_in(named: Named) -> Option<ObjId>
    ensures { option_map (λ o. o.0) result ≡ object_of named }
{
    match named {
        Named::Nothing => None,
        Named::Null => None,
        Named::Object(object) => Some(object),
    }
}

/// What is expected of the function of this row, with these operands, as the tables are now; the first reference among
/// them names this.
pub fn expected_of<A: Allocator + Clone>(
    view: &View<'_, A, Objects<A>>,
    tid: Tid,
    row: &Row,
    named: Named,
    arguments: &[Argument],
) -> Expected
    ensures { (p : Parts) → ViewTells Tells view.now p → named ≡ names p tid.0 (first_reference_of arguments.now)
        → result ≡ spec.expected_of view.now.setup.now p tid (columns row.now) row.now.effect arguments.now }
{
    match row.effect {
        Effect::Nothing => nothing_done(row.section),
        Effect::Hands(kind) => Expected::Handed(kind),
        Effect::Ends(_) => Expected::Done(losing(first_reference(arguments))),
        Effect::Lends(family) => Expected::Lent {
            family,
            object: object_in(named),
            via: via_for(family, first_reference(arguments)),
        },
        Effect::GivesBack => {
            Expected::Done(back(first_number(arguments), first_buffer(arguments)))
        }
        Effect::Pushes => {
            let room = natural(first_number(arguments));
            Expected::Done(Some(Fact::Push { tid, room }))
        }
        Effect::Pops => Expected::Popped,
        Effect::Ensures => {
            let room = natural(first_number(arguments));
            Expected::Done(Some(Fact::Ensure { tid, room }))
        }
        Effect::Raises => raised(tid, object_in(named)),
        Effect::Calms => Expected::Done(Some(Fact::Calm(tid))),
        Effect::Owns => owned(tid, object_in(named)),
        Effect::Frees => freed(tid, object_in(named)),
        Effect::Attaches => { Expected::Attached(attaching(view.threads.is_attached(tid), tid)) }
        Effect::Detaches => Expected::Quiet(detaching(view.threads.is_attached(tid), tid)),
        Effect::Enters => Expected::Quiet(Some(Fact::Enter(tid))),
        Effect::Leaves => Expected::Left,
        Effect::Loads => Expected::Done(None),
        Effect::Links => Expected::Done(linking(
            class_meant(view, tid, first_reference(arguments)),
            native_by_name(arguments),
        )),
        Effect::Unlinks => Expected::Done(unlinking(class_meant(
            view,
            tid,
            first_reference(arguments),
        ))),
        Effect::Collects => Expected::Never,
    }
}
