//! One pass over the operands of a question.

ghost use Rattle.std.specs.Prelude.{◌≡◌, IfSome};
ghost use Rattle.std.specs.Option.{is_some};
ghost use Rattle.jg_rules.specs.Parts.{Parts};
ghost use Rattle.jg_rules.specs.View.{ViewTells};
ghost use Rattle.jg_judge.specs.Faults as spec;
ghost use Rattle.jg_judge.specs.Question.{AreFound};
ghost use Rattle.jg_judge.specs.Suits.{suits};

use crate::argument::{Argument, Bounds};
use crate::faults::look_at;
use crate::judge::{Broken, sooner};
use crate::suiting::{are_none, is_last};
use jg_rows::Takes;
use jg_rules::{Named, Store, View};
use jg_words::{Rule, Tid};
use std::alloc::Allocator;

/// What the operands of a question come to that suit their function.
#[derive(Clone, Copy)]
pub struct Found {
    /// What the first reference names; null where there is none.
    pub named: Named,
    /// The first of rules 5, 6 and 8 to 12 that one breaks, and the first operand that breaks it.
    pub broken: Option<Broken>,
}

/// What was found before, or what the operand at this place breaks.
#[inline(always)]
fn with_one(before: Option<Broken>, broken: Option<Rule>, place: usize) -> Option<Broken>
    ensures { result ≡ spec.with_rule before broken place }
{
    match broken {
        None => before,
        Some(rule) => Some(sooner(
            before,
            Broken {
                rule,
                operand: Some(place),
            },
        )),
    }
}

/// What the operands come to. None where they don't suit. It looks each operand up once.
#[inline(always)]
pub fn look_over<A: Allocator + Clone, S: Store>(
    view: &View<'_, A, S>,
    bounds: Bounds,
    tid: Tid,
    takes: &[Takes],
    arguments: &[Argument],
) -> Option<Found>
    ensures suits { is_some result ≡ suits takes.now arguments.now }
    ensures found { (p : Parts) → ViewTells S.Tells view.now p → IfSome result (λ found.
        AreFound bounds view.now.setup.now p tid.0 takes.now arguments.now found) }
{
    let mut first: Option<Named> = None;
    let mut broken: Option<Broken> = None;
    let mut wanted = takes;
    let mut rest = arguments;
    let mut place = 0;
    while let Some((argument, later)) = rest.split_first() {
        let Some((take, more)) = wanted.split_first() else {
            return None;
        };
        let Some(seen) = look_at(view, bounds, tid, arguments, take, argument) else {
            return None;
        };
        first = first.or(seen.named);
        broken = with_one(broken, seen.broken, place);
        place += 1;
        if !is_last(*take) {
            wanted = more;
        }
        rest = later;
    }
    if are_none(wanted) {
        Some(Found {
            named: first.unwrap_or(Named::Null),
            broken,
        })
    } else {
        None
    }
}
