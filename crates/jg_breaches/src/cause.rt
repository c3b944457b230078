//! What comes and goes of what a rule asks.

ghost use Rattle.std.specs.Prelude.{◌≡◌, ◌++◌, map, OnOk, IfOk};
ghost use Rattle.std.specs.Option.{option_to_list};
ghost use Rattle.jg_rules.specs.Parts.{Parts};
ghost use Rattle.jg_rules.specs.View.{ViewStands};
ghost use Rattle.jg_breaches.specs.Causes as causes;

use crate::breach::Breach;
use crate::condition::Condition;
use jg_rules::View;
use jg_words::{BufId, ObjId, Ref, Tid};
use std::alloc::{AllocError, Allocator};

fn lives_for_maker(reference: Ref) -> Option<Condition>
    ensures { result ≡ causes.lives_for_maker reference }
{
    match reference {
        Ref::Null => None,
        Ref::To { maker, .. } => Some(Condition::Names {
            tid: maker,
            reference,
        }),
    }
}

fn names_object(tid: Tid, reference: Ref) -> Option<Condition>
    ensures { result ≡ causes.names_object tid reference }
{
    match reference {
        Ref::Null => None,
        Ref::To { .. } => Some(Condition::NamesObject { tid, reference }),
    }
}

fn ownership(object: ObjId, owner: Option<Tid>) -> Condition
    ensures { result ≡ causes.ownership object owner }
{
    match owner {
        None => Condition::IsOwned { object },
        Some(tid) => Condition::Owns { tid, object },
    }
}

fn names(tid: Tid, reference: Ref) -> Option<Condition>
    ensures { result ≡ Some (Condition.Names tid reference) }
{
    Some(Condition::Names { tid, reference })
}

fn is_open(buffer: BufId) -> Option<Condition>
    ensures { result ≡ Some (Condition.IsOpen buffer) }
{
    Some(Condition::IsOpen { buffer })
}

/// The one question that comes and goes, where there is one.
fn condition_of(tid: Tid, breach: Breach) -> Option<Condition>
    ensures { result ≡ causes.condition_of tid breach }
{
    match breach {
        Breach::EnvOfAnother { env } | Breach::NotPresent { env } => Some(Condition::IsPresent {
            env,
        }),
        Breach::NoEnv => Some(Condition::IsAttached { tid }),
        Breach::ExceptionPending { .. } => Some(Condition::HasPending { tid }),
        Breach::ForeignLocal { reference } => lives_for_maker(reference),
        Breach::NoObject { reference } => names_object(tid, reference),
        Breach::DeadReference { reference } => names(tid, reference),
        Breach::OtherKind { reference } => names(tid, reference),
        Breach::OtherType { reference, .. } => names(tid, reference),
        Breach::NoField { reference, .. } => names(tid, reference),
        Breach::FieldOfOtherType { reference, .. } => names(tid, reference),
        Breach::FieldOfOtherClass { reference, .. } => names(tid, reference),
        Breach::NotOpen { buffer } => is_open(buffer),
        Breach::LentOtherwise { buffer, .. } => is_open(buffer),
        Breach::OfOtherObject { buffer, .. } => is_open(buffer),
        Breach::OfOtherThread { buffer } => is_open(buffer),
        Breach::OfString { buffer } => is_open(buffer),
        Breach::NoItem { buffer, .. } => is_open(buffer),
        Breach::NotOwner { object, owner, .. } => Some(ownership(object, owner)),
        Breach::NoFrame => Some(Condition::HasFrame { tid }),
        Breach::NotInNative => Some(Condition::InNative { tid }),
        Breach::StillInNative => Some(Condition::InNative { tid }),
        Breach::NotLinked { class, native } => Some(Condition::IsLinked { class, native }),
        _ => None,
    }
}

fn push_open<A: Allocator>(
    buffers: &[BufId],
    conditions: &mut Vec<Condition, A>,
) -> Result<(), AllocError>
    ensures { OnOk result (conditions.new.items ≡ conditions.old.items ++ map (λ b. Condition.IsOpen b) buffers.now) }
{
    for buffer in buffers {
        conditions.push(Condition::IsOpen { buffer: *buffer })?;
    }
    Ok(())
}

fn push_one<A: Allocator>(
    condition: Option<Condition>,
    conditions: &mut Vec<Condition, A>,
) -> Result<(), AllocError>
    ensures { OnOk result (conditions.new.items ≡ conditions.old.items ++ option_to_list condition) }
{
    if let Some(condition) = condition {
        conditions.push(condition)?;
    }
    Ok(())
}

/// What of the rule that the thread's call breaks comes and goes, as the tables are now: one
/// condition, or none where nothing does; for a critical region and for a pinned reference one for
/// each critical buffer that is open, by the thread that was lent it and by number. Fails only for
/// want of memory.
pub fn conditions_of<A: Allocator + Clone, B: Allocator + Clone>(
    view: &View<'_, A>,
    tid: Tid,
    breach: Breach,
    alloc: &B,
) -> Result<Vec<Condition, B>, AllocError>
    ensures { IfOk result (λ found. (p : Parts) → ViewStands view.now p
        → found.items ≡ causes.conditions p tid breach) }
{
    let mut conditions = Vec::new(alloc.clone()?);
    match breach {
        Breach::InRegion => {
            let pins = view.buffers.pins_of(tid, alloc.clone()?)?;
            push_open(&pins, &mut conditions)?;
        }
        Breach::PinnedReference { reference } => {
            let pins = view.buffers.pins_through(reference, alloc.clone()?)?;
            push_open(&pins, &mut conditions)?;
        }
        _ => push_one(condition_of(tid, breach), &mut conditions)?,
    }
    Ok(conditions)
}
