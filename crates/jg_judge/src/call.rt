//! A call of the written machine, judged by the row of its function.

ghost use Rattle.std.specs.Prelude.{◌≡◌, true};
ghost use Rattle.jg_rows.specs.Columns.{columns};
ghost use Rattle.jg_rules.specs.Parts.{Parts};
ghost use Rattle.jg_rules.specs.Rules.{verdict};
ghost use Rattle.jg_rules.specs.View.{ViewStands};
ghost use Rattle.jg_judge.specs.Broken as rules;
ghost use Rattle.jg_judge.specs.Suits.{suits as suits_by};
ghost use Rattle.jg_judge.specs.Written.{AreStated, written_bounds};

use crate::argument::{Argument, Bounds};
use crate::function::function_of;
use crate::operands::{ROOM, list_arguments};
use crate::question::{Verdict, verdict_on};
use jg_rows::{Row, row_of};
use jg_rules::View;
use jg_words::{Call, EnvId, Rule, Tid};
use std::alloc::Allocator;

/// The first rule that a question with operands that suit breaks.
fn broken_by<A: Allocator + Clone>(
    view: &View<'_, A>,
    tid: Tid,
    env: Option<EnvId>,
    row: &Row,
    arguments: &[Argument],
) -> Option<Rule>
    ensures { (p : Parts) → ViewStands view.now p → suits_by (columns row.now).takes arguments.now ≡ true → result
        ≡ rules.verdict written_bounds view.now.setup.now p tid.0 env (columns row.now) arguments.now }
{
    match verdict_on(view, Bounds::WRITTEN, tid, env, row, arguments) {
        Verdict::Misfit => None,
        Verdict::Passed(_) => None,
        Verdict::Broken(broken) => Some(broken.rule),
    }
}

/// The first rule that the call breaks, as the tables are now; None where it breaks none. The setup states the class of
/// each object, as it does after each legal history.
pub fn verdict_on_call<A: Allocator + Clone>(
    view: &View<'_, A>,
    tid: Tid,
    env: Option<EnvId>,
    call: &Call,
) -> Option<Rule>
    ensures { (p : Parts) → ViewStands view.now p → AreStated view.now.setup.now p
        → result ≡ verdict view.now.setup.now p tid.0 env call.now }
{
    let Some(row) = row_of(usize::from(function_of(call))) else {
        unreachable!()
    };
    let mut room = ROOM;
    let count = list_arguments(view, tid, call, &mut room);
    broken_by(view, tid, env, row, &room[..count])
}
