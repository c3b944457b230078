//! What words mean, and questions whose references are words.

ghost use Rattle.std.specs.Prelude.{◌≡◌, List, Some, OnOk};
ghost use Rattle.jg_witness.specs.Events as events;
ghost use Rattle.jg_witness.specs.Events.{Event};
ghost use Rattle.jg_witness.specs.Standing.{WitnessStands, both};
ghost use Rattle.jg_witness.specs.Words as words;

use crate::being::if_in_being;
use crate::operand::Operand;
use crate::table::{Names, find};
use jg_core::Core;
use jg_judge::Argument;
use jg_words::{Kind, Ref, Tid};
use std::alloc::{AllocError, Allocator};

/// What the word means.
pub(crate) fn meaning<A: Allocator + Clone>(
    core: &Core<A>,
    names: &Names<A>,
    word: u64,
) -> Option<Ref>
    ensures { (e : List Event) → WitnessStands (both core.now names.now.entries) e
        → result ≡ events.meaning word e }
{
    if_in_being(&core.view(), find(names, word))
}

/// A local that the thread was never handed.
fn dead_of(tid: Tid) -> Ref
    ensures { result ≡ words.dead_of tid }
{
    Ref::To {
        kind: Kind::Local,
        maker: tid,
        n: u64::MAX,
    }
}

/// The reference that a word of the thread is asked as: `NULL`, or what it means, or else a dead one.
fn named_for<A: Allocator + Clone>(core: &Core<A>, names: &Names<A>, tid: Tid, word: u64) -> Ref
    ensures { (e : List Event) → WitnessStands (both core.now names.now.entries) e
        → result ≡ words.named_for tid e word }
{
    if word == 0 {
        return Ref::Null;
    }
    match meaning(core, names, word) {
        Some(name) => name,
        None => dead_of(tid),
    }
}

/// The operand that is asked of.
fn argument_of<A: Allocator + Clone>(
    core: &Core<A>,
    names: &Names<A>,
    tid: Tid,
    operand: Operand,
) -> Argument
    ensures { (e : List Event) → WitnessStands (both core.now names.now.entries) e
        → result ≡ words.argument_of tid e operand }
{
    match operand {
        Operand::Word(word) => Argument::Reference(named_for(core, names, tid, word)),
        Operand::Other(argument) => argument,
    }
}

/// Reads the operands of a question into the list.
pub(crate) fn read<A: Allocator + Clone>(
    core: &Core<A>,
    names: &Names<A>,
    tid: Tid,
    operands: &[Operand],
    arguments: &mut Vec<Argument, A>,
) -> Result<(), AllocError>
    ensures { OnOk result ((e : List Event) → WitnessStands (both core.now names.now.entries) e
        → arguments.new.items ≡ words.arguments_of tid e operands.now) }
{
    arguments.clear();
    let mut rest = operands;
    while let Some((operand, later)) = rest.split_first() {
        let argument = argument_of(core, names, tid, *operand);
        let Ok(()) = arguments.push(argument) else {
            return Err(AllocError);
        };
        rest = later;
    }
    Ok(())
}
