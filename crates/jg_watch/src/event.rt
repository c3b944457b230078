//! An event is asked or told.

ghost use Rattle.std.specs.Prelude.{◌≡◌, IfOk, IfErr};
ghost use Rattle.jg_watch.specs.Steps.{Refused, Replies, unasked};
ghost use Rattle.jg_watch.specs.Told.{operand_of, reply_of};

use crate::telling::tell;
use crate::watch::Watch;
use jg_core::{Answer, Core, Untold};
use jg_judge::Argument;
use jg_record::{Event, Lists, Reply};
use jg_words::ObjId;
use std::alloc::Allocator;

/// An event, where the line has one, what it was answered, and the operand by which a question was denied, where one
/// breaks the rule.
#[derive(Clone, Copy)]
pub struct Replied {
    pub event: Option<Event>,
    pub reply: Reply,
    pub operand: Option<Argument>,
}

/// The reply to what is no question.
pub fn unasked(event: Option<Event>, reply: Reply) -> Replied
    ensures { result ≡ unasked event reply }
{
    Replied {
        event,
        reply,
        operand: None,
    }
}

fn operand_of(answer: Answer, arguments: &[Argument]) -> Option<Argument>
    ensures { result ≡ operand_of answer arguments.now }
{
    match answer {
        Answer::Denied {
            operand: Some(place),
            ..
        } => arguments.get(place).copied(),
        _ => None,
    }
}

fn reply_of(answer: Answer) -> Reply
    ensures { result ≡ reply_of answer }
{
    match answer {
        Answer::Passed(_) => Reply::Passed,
        Answer::Denied { rule, .. } => Reply::Denied(rule),
        Answer::NoFunction | Answer::Misfit => Reply::Nothing,
    }
}

/// Asks or tells what the event says. Refused, nothing has changed.
pub fn answer_event<A: Allocator + Copy>(
    watch: &mut Watch<A>,
    event: Event,
    lists: &Lists,
) -> Result<Replied, Untold>
    ensures replies { IfOk result (Replies watch.old watch.new event lists.now.arguments.items
        lists.now.objects.items) }
    ensures tally { watch.new.tally ≡ watch.old.tally }
    ensures denied { watch.new.denied ≡ watch.old.denied }
    ensures refused { IfErr result (Refused watch.old watch.new event lists.now.objects.items) }
{
    match event {
        Event::Question { tid, env, function } => {
            let answer = watch
                .core
                .ask(watch.bounds, tid, env, function, &lists.arguments);
            Ok(Replied {
                event: Some(event),
                reply: reply_of(answer),
                operand: operand_of(answer, &lists.arguments),
            })
        }
        Event::Fact(fact) => match tell(&mut watch.core, fact) {
            Ok(reply) => Ok(unasked(Some(event), reply)),
            Err(why) => Err(why),
        },
        Event::Gone => match watch.core.gone(&lists.objects) {
            Ok(()) => Ok(unasked(Some(event), Reply::Nothing)),
            Err(_) => Err(Untold::Impossible),
        },
        Event::Bounds(bounds) => {
            watch.bounds = bounds;
            Ok(unasked(Some(event), Reply::Nothing))
        }
    }
}
