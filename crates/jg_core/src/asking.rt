//! Questions by the table of functions.

ghost use Rattle.std.specs.Prelude.{◌≡◌, ℕ, List, IfOk, IfErr, OnErr};
ghost use Rattle.std.specs.Option.{option_map};
ghost use Rattle.jg_core.specs.Asking.{asked, EndedAs, RefusesEnding, Returned, RefusesReturn};
ghost use Rattle.jg_core.specs.Facts.{parts_of};
ghost use Rattle.jg_core.specs.Kernel.{CoreStands, Stayed};
ghost use Rattle.jg_core.specs.declared.fact.Fact.{Fact as FactOf};
ghost use Rattle.jg_core.specs.Asking as spec;
ghost use Rattle.jg_rows.specs.Columns.{columns};
ghost use Rattle.jg_table_objects.specs.Standing.{Tells};
ghost use Rattle.jg_rules.specs.Parts.{Parts};
ghost use Rattle.jg_rules.specs.View.{ViewTells};
ghost use Rattle.jg_table_threads.specs.Rows.{CanCount};

use crate::denied::{denied_as, doer};
use crate::expected::{Expected, expected_of, told};
use crate::fact::Fact;
use crate::implied::given_with;
use crate::kernel::{Core, Untold};
use crate::says::{Given, Says};
use jg_judge::{Argument, Bounds, Broken, Verdict, first_reference, verdict_on};
use jg_rows::{Row, row_of};
use jg_rules::{View, object_named};
use jg_table_objects::Objects;
use jg_words::{EnvId, ObjId, Rule, Tid};
use std::alloc::Allocator;

/// What comes of a call whose question was answered, once the machine made it: in which thread, and what.
#[derive(Clone, Copy)]
pub struct Ticket {
    pub tid: Tid,
    pub expected: Expected,
}

/// What a question is answered.
#[derive(Clone, Copy)]
pub enum Answer {
    /// It breaks no rule.
    Passed(Ticket),
    /// It breaks this rule first; and the place of the operand, counted from 0, that breaks it, where one does. The
    /// ticket is for a machine that makes the call all the same.
    Denied {
        rule: Rule,
        operand: Option<usize>,
        ticket: Ticket,
    },
    /// The table has no such function.
    NoFunction,
    /// The operands aren't as many as the function's, or not of their sorts.
    Misfit,
}

/// What a call that ends something was answered, and the name of what it hands out.
#[derive(Clone, Copy)]
pub struct Ended {
    pub answer: Answer,
    pub given: Given,
}

/// The object that a frame or an activation keeps, as a machine says it.
fn kept(object: Option<ObjId>) -> Says
    ensures { result ≡ spec.kept (option_map (λ o. o.0) object) }
{
    match object {
        None => Says::Null,
        Some(object) => Says::Object(object),
    }
}

/// What the machine is going to say of a passed call that ends something: it is done, and a frame that is popped keeps
/// the object that the operand names, as an activation does that ends.
fn foreseen<A: Allocator + Clone>(
    view: &View<'_, A, Objects<A>>,
    ticket: Ticket,
    arguments: &[Argument],
) -> Says
    ensures { (p : Parts) → ViewTells Tells view.now p → result ≡ spec.foreseen p ticket arguments.now }
{
    match ticket.expected {
        Expected::Left => kept(object_named(view, ticket.tid, first_reference(arguments))),
        Expected::Popped => kept(object_named(view, ticket.tid, first_reference(arguments))),
        _ => Says::Done,
    }
}

/// What the ticket's function gives, beside the fact that was told.
fn given_for<A: Allocator + Clone>(
    view: &View<'_, A, Objects<A>>,
    ticket: Ticket,
    fact: Option<Fact>,
) -> Given
    requires { (t : ℕ) → CanCount view.now.threads.now t }
    ensures { (p : Parts) → ViewTells Tells view.now p → result ≡ spec.given_for view.now.setup.now p ticket fact }
{
    match ticket.expected {
        Expected::Attached(_) => { Given::Environment(view.threads.env_once_attached(ticket.tid)) }
        _ => given_with(view, fact),
    }
}

/// What comes of a denied call that is made all the same.
fn denied_ticket<A: Allocator + Clone>(
    view: &View<'_, A, Objects<A>>,
    tid: Tid,
    env: Option<EnvId>,
    row: &Row,
    arguments: &[Argument],
    rule: Rule,
) -> Ticket
    ensures { (p : Parts) → ViewTells Tells view.now p → result
        ≡ spec.denied_ticket view.now.setup.now p tid env (columns row.now) arguments.now rule }
{
    let tid = doer(rule, tid, env);
    Ticket {
        tid,
        expected: denied_as(view, rule, tid, row, arguments),
    }
}

impl<A: Allocator + Clone> Core<A> {
    /// Asks whether the thread, with this environment, may now call the function at this place of the table, with
    /// these operands. A question changes nothing. Ask when the call begins.
    #[inline(always)]
    pub fn ask(
        &self,
        bounds: Bounds,
        tid: Tid,
        env: Option<EnvId>,
        function: u16,
        arguments: &[Argument],
    ) -> Answer
        ensures { (w : List FactOf) → CoreStands self.now w
            → result ≡ asked bounds self.now.setup (parts_of w) tid env function arguments.now }
    {
        let view = self.tables.view(&self.setup);
        match row_of(usize::from(function)) {
            None => Answer::NoFunction,
            Some(row) => match verdict_on(&view, bounds, tid, env, row, arguments) {
                Verdict::Misfit => Answer::Misfit,
                Verdict::Broken(Broken { rule, operand }) => {
                    let ticket = denied_ticket(&view, tid, env, row, arguments, rule);
                    Answer::Denied {
                        rule,
                        operand,
                        ticket,
                    }
                }
                Verdict::Passed(named) => Answer::Passed(Ticket {
                    tid,
                    expected: expected_of(&view, tid, row, named, arguments),
                }),
            },
        }
    }

    /// Takes what a question's call implies that returned, by what the machine says of it, and answers the name of what
    /// it handed out (chapter 4; chapter 5, "Invocation API Functions"). It implies one fact at the most, so all of it
    /// is taken or nothing. It is [`Untold::Impossible`] where no machine says so of such a call, as that a deletion
    /// answered an object, and where an operand that it was done to named no object; else it is refused as
    /// [`Core::tell`] refuses the fact.
    ///
    /// An object that the machine answers or throws is told first, by [`Core::meet`] where it is new. What the
    /// collector let go is told by [`Core::gone`], and what a module was warned of by [`Core::tell`].
    pub fn returned(&mut self, ticket: Ticket, says: Says) -> Result<Given, Untold>
        ensures ok { IfOk result (λ out. Returned self.old self.new ticket says out) }
        ensures err { OnErr result (Stayed self.old self.new) }
        ensures why { IfErr result (RefusesReturn self.old ticket says) }
    {
        let Some(fact) = told(ticket.tid, ticket.expected, says) else {
            return Err(Untold::Impossible);
        };
        let view = self.tables.view(&self.setup);
        let out = given_for(&view, ticket, fact);
        let Some(fact) = fact else {
            return Ok(out);
        };
        self.take_fact(fact)?;
        Ok(out)
    }

    /// Asks as [`Core::ask`] does and, where no rule is broken, takes at once what the call ends: so that of two
    /// threads that end one thing at once, one is denied. For DeleteLocalRef and its like, releases, PopLocalFrame,
    /// MonitorExit, ExceptionClear, UnregisterNatives and a native method's leaving. Call it before the machine ends
    /// it. It is taken as [`Core::returned`] takes a ticket, and refused so.
    pub fn ending(
        &mut self,
        bounds: Bounds,
        tid: Tid,
        env: Option<EnvId>,
        function: u16,
        arguments: &[Argument],
    ) -> Result<Ended, Untold>
        ensures ok { IfOk result (λ out. EndedAs self.old self.new bounds tid env function arguments.now out) }
        ensures err { OnErr result (Stayed self.old self.new) }
        ensures why { IfErr result (RefusesEnding self.old bounds tid env function arguments.now) }
    {
        let answer = self.ask(bounds, tid, env, function, arguments);
        match answer {
            Answer::Passed(ticket) => {
                let view = self.tables.view(&self.setup);
                let says = foreseen(&view, ticket, arguments);
                match self.returned(ticket, says) {
                    Ok(given) => Ok(Ended { answer, given }),
                    Err(why) => Err(why),
                }
            }
            _ => {
                let given = Given::Nothing;
                Ok(Ended { answer, given })
            }
        }
    }
}
