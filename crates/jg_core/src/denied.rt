//! What is told where the machine makes a denied call all the same.

ghost use Rattle.std.specs.Prelude.{◌≡◌};
ghost use Rattle.jg_rows.specs.Columns.{columns};
ghost use Rattle.jg_table_objects.specs.Standing.{Tells};
ghost use Rattle.jg_judge.specs.Asked as asked;
ghost use Rattle.jg_rules.specs.Parts.{Parts};
ghost use Rattle.jg_rules.specs.View.{ViewTells};
ghost use Rattle.jg_core.specs.Denied as spec;
ghost use Rattle.jg_core.specs.Expected.{expected_of as expected_by};

use crate::expected::{Expected, back, expected_of};
use crate::fact::Fact;
use crate::implied::losing;
use jg_judge::{Argument, first_buffer, first_number, first_reference};
use jg_rows::{Effect, Row};
use jg_rules::{View, look_up};
use jg_table_objects::Objects;
use jg_words::{EnvId, Rule, Tid};
use std::alloc::Allocator;

/// Whose doing it is.
pub(crate) fn doer(rule: Rule, tid: Tid, env: Option<EnvId>) -> Tid
    ensures { result ≡ spec.doer rule tid env }
{
    match (rule, env) {
        (Rule::WrongThread, Some(env)) => env.tid,
        _ => tid,
    }
}

/// As of a passed call; but to an operand that names no object nothing was done.
fn as_passed(passed: Expected) -> Expected
    ensures { result ≡ spec.as_passed passed }
{
    match passed {
        Expected::Undone => Expected::Thrown,
        Expected::Lent { object: None, .. } => Expected::Thrown,
        _ => passed,
    }
}

/// What is left of it by the rule.
fn by_rule<A: Allocator + Clone>(
    view: &View<'_, A, Objects<A>>,
    rule: Rule,
    tid: Tid,
    row: &Row,
    arguments: &[Argument],
) -> Expected
    ensures { (p : Parts) → ViewTells Tells view.now p → result ≡ spec.by_rule rule (expected_by
        view.now.setup.now p tid (columns row.now) row.now.effect arguments.now) (asked.first_reference arguments.now) }
{
    let reference = first_reference(arguments);
    match rule {
        Rule::ForeignLocal | Rule::WrongRefKind => Expected::IfEnded(losing(reference)),
        Rule::DeadReference => Expected::Nothing,
        Rule::NotOwner => Expected::Thrown,
        _ => {
            let named = look_up(view, tid, reference);
            as_passed(expected_of(view, tid, row, named, arguments))
        }
    }
}

/// What is left of it by what the function does.
fn by_effect<A: Allocator + Clone>(
    view: &View<'_, A, Objects<A>>,
    rule: Rule,
    tid: Tid,
    row: &Row,
    arguments: &[Argument],
) -> Expected
    ensures { (p : Parts) → ViewTells Tells view.now p → result ≡ spec.by_effect rule row.now.effect tid (expected_by
        view.now.setup.now p tid (columns row.now) row.now.effect arguments.now) arguments.now }
{
    match row.effect {
        Effect::GivesBack => {
            Expected::IfEnded(back(first_number(arguments), first_buffer(arguments)))
        }
        Effect::Pops => Expected::IfEnded(Some(Fact::Pop { tid, kept: None })),
        Effect::Detaches => Expected::Nothing,
        _ => by_rule(view, rule, tid, row, arguments),
    }
}

/// What is expected of a call for the function of this row that breaks the rule and is made all the same. What would be
/// expected of it if it passed is found out only where that counts.
pub(crate) fn denied_as<A: Allocator + Clone>(
    view: &View<'_, A, Objects<A>>,
    rule: Rule,
    tid: Tid,
    row: &Row,
    arguments: &[Argument],
) -> Expected
    ensures { (p : Parts) → ViewTells Tells view.now p → result ≡ spec.denied_as rule row.now.effect tid (expected_by
        view.now.setup.now p tid (columns row.now) row.now.effect arguments.now) arguments.now }
{
    match rule {
        Rule::Detached => Expected::Nothing,
        _ => by_effect(view, rule, tid, row, arguments),
    }
}
