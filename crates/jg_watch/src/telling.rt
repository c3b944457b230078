//! A fact is told, and what it hands out is named.

ghost use Rattle.std.specs.Prelude.{◌≡◌, List, IfOk, IfErr, OnOk, OnErr};
ghost use Rattle.jg_core.specs.declared.fact.Fact.{Fact as FactOf};
ghost use Rattle.jg_core.specs.Kernel.{CoreStands, Refuses, Stayed, Took};
ghost use Rattle.jg_watch.specs.Told.{given_reply, named};

use jg_core::{Core, Fact, Given, Untold};
use jg_record::Reply;
use std::alloc::Allocator;

#[inline(always)]
fn reply_of(given: Given) -> Reply
    ensures { result ≡ given_reply given }
{
    match given {
        Given::Nothing => Reply::Nothing,
        Given::Reference(reference) => Reply::Reference(reference),
        Given::Buffer(buffer) => Reply::Buffer(buffer),
        Given::Environment(env) => Reply::Environment(env),
        Given::Object(object) => Reply::Object(object),
    }
}

/// Tells the core the fact, and answers the name of what it hands out.
#[inline(always)]
pub fn tell<A: Allocator + Clone>(core: &mut Core<A>, fact: Fact) -> Result<Reply, Untold>
    ensures took { OnOk result (Took core.old core.new fact) }
    ensures reply { IfOk result (λ reply. (w : List FactOf) → CoreStands core.old w
        → reply ≡ named core.old.setup w fact) }
    ensures err { OnErr result (Stayed core.old core.new) }
    ensures why { IfErr result (Refuses core.old fact) }
{
    match core.tell(fact) {
        Ok(given) => Ok(reply_of(given)),
        Err(why) => Err(why),
    }
}
