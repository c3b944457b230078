//! What a question comes to.

ghost use Rattle.std.specs.Prelude.{◌≡◌, if◌then◌else◌, None};
ghost use Rattle.jg_rows.specs.Columns.{columns};
ghost use Rattle.jg_rules.specs.Parts.{Parts};
ghost use Rattle.jg_rules.specs.View.{ViewTells};
ghost use Rattle.jg_judge.specs.declared.question.Verdict.TheVariants.{Misfit, Broken as BrokenBy};
ghost use Rattle.jg_judge.specs.Question as spec;
ghost use Rattle.jg_judge.specs.Suits.{suits as suits_by};

use crate::argument::{Argument, Bounds};
use crate::judge::{Broken, first_broken, first_of_caller};
use crate::pass::look_over;
use crate::suiting::suits;
use jg_rows::Row;
use jg_rules::{Named, Store, View};
use jg_words::{EnvId, Rule, Tid};
use std::alloc::Allocator;

/// What a question comes to.
#[derive(Clone, Copy)]
pub enum Verdict {
    /// The operands aren't as many as the function's, or not of their sorts.
    Misfit,
    /// It breaks this rule first, by this operand.
    Broken(Broken),
    /// It breaks no rule; and what its first reference names, null where it has none.
    Passed(Named),
}

/// What a question comes to whose caller breaks this rule.
fn by_its_caller(row: &Row, arguments: &[Argument], rule: Rule) -> Verdict
    ensures { result ≡ (if suits_by (columns row.now).takes arguments.now
        then BrokenBy (record { rule = rule; operand = None }) else Misfit) }
{
    if suits(row.takes, arguments) {
        Verdict::Broken(Broken {
            rule,
            operand: None,
        })
    } else {
        Verdict::Misfit
    }
}

/// What a question for the function of this row comes to, with these operands, as the tables are now.
#[inline(always)]
pub fn verdict_on<A: Allocator + Clone, S: Store>(
    view: &View<'_, A, S>,
    bounds: Bounds,
    tid: Tid,
    env: Option<EnvId>,
    row: &Row,
    arguments: &[Argument],
) -> Verdict
    ensures { (p : Parts) → ViewTells S.Tells view.now p → result
        ≡ spec.verdict_on bounds view.now.setup.now p tid.0 env (columns row.now) arguments.now }
{
    if let Some(rule) = first_of_caller(view, tid, env, row) {
        return by_its_caller(row, arguments, rule);
    }
    let Some(found) = look_over(view, bounds, tid, row.takes, arguments) else {
        return Verdict::Misfit;
    };
    match first_broken(view, tid, row.effect, found.broken, arguments) {
        Some(broken) => Verdict::Broken(broken),
        None => Verdict::Passed(found.named),
    }
}
