//! The facts of a call that passed, told oldest first.

ghost use Rattle.std.specs.Prelude.{◌≡◌, ◌++◌, if◌then◌else◌, [], map, reverse, OnOk, Option, Some};
ghost use Rattle.jg_words.specs.declared.object.ObjId.{ObjId as ObjIdOf};
ghost use Rattle.jg_words.specs.declared.thread.Tid.{Tid as TidOf};
ghost use Rattle.jg_words.specs.declared.value.Value.{Value as ValueOf};
ghost use Rattle.jg_core.specs.declared.fact.Fact.TheVariants.{Gone};
ghost use Rattle.jg_rules.specs.Effects as effects;
ghost use Rattle.jg_entry_facts_laws.specs.Entries as entries;
ghost use Rattle.jg_entry_facts.specs.Foreseen.{own_told};

use crate::own::Own;
use jg_core::Fact;
use jg_words::{Call, FramesCall, ObjId, Ref, Tid, Value, VmCall};
use std::alloc::AllocError;

/// The objects go, in the order of the list.
fn push_gone(gone: &[u64], out: &mut Vec<Fact>) -> Result<(), AllocError>
    ensures { OnOk result (out.new.items ≡ out.old.items ++ map (λ o. Gone (record { 0 = o })) gone.now) }
{
    for object in gone {
        out.push(Fact::Gone(ObjId(*object)))?;
    }
    Ok(())
}

/// The facts that a call is of its own, where these objects go, and the frame below is handed a reference to what is
/// kept.
fn push_own(
    own: Own,
    gone: &[u64],
    tid: Tid,
    kept: Option<ObjId>,
    out: &mut Vec<Fact>,
) -> Result<(), AllocError>
    ensures { OnOk result (out.new.items ≡ out.old.items ++ reverse (own_told own gone.now tid kept)) }
{
    match own {
        Own::AtMost(None) => Ok(()),
        Own::AtMost(Some(fact)) => {
            out.push(fact)?;
            Ok(())
        }
        Own::Leaves(None) => {
            out.push(Fact::Leave { tid, kept })?;
            Ok(())
        }
        Own::Leaves(Some(object)) => {
            out.extend_from_slice(&[Fact::Leave { tid, kept }, Fact::Raise { tid, object }])?;
            Ok(())
        }
        Own::Pops => {
            out.push(Fact::Pop { tid, kept })?;
            Ok(())
        }
        Own::Collects => {
            push_gone(gone, out)?;
            Ok(())
        }
    }
}

/// The same of a call that answered this: one that threw, or found a monitor busy, does nothing of its own.
pub(crate) fn push_own_of(
    value: &Value,
    own: Own,
    gone: &[u64],
    tid: Tid,
    kept: Option<ObjId>,
    out: &mut Vec<Fact>,
) -> Result<(), AllocError>
    ensures { OnOk result (out.new.items ≡ out.old.items
        ++ reverse (effects.if_effective (effects.is_effective value.now) (own_told own gone.now tid kept))) }
{
    match value {
        Value::Throw(_) => Ok(()),
        Value::Busy => Ok(()),
        _ => {
            push_own(own, gone, tid, kept, out)?;
            Ok(())
        }
    }
}

/// What an answer brings, with the object behind it: a reference that is handed out, an exception that is made and
/// pending, or a Throw's.
fn push_value(tid: Tid, value: &Value, object: ObjId, out: &mut Vec<Fact>) -> Result<(), AllocError>
    ensures { OnOk result (out.new.items ≡ out.old.items
        ++ reverse (entries.value_facts tid value.now (Some object))) }
{
    match value {
        Value::Reference(Ref::To { kind, .. }) => {
            let kind = *kind;
            out.push(Fact::Hand { tid, kind, object })?;
            Ok(())
        }
        Value::Throw(thrown) => {
            let (class, length) = (thrown.class(), 0);
            out.extend_from_slice(&[Fact::Meet { class, length }, Fact::Raise { tid, object }])?;
            Ok(())
        }
        Value::Ok => {
            out.push(Fact::Raise { tid, object })?;
            Ok(())
        }
        _ => Ok(()),
    }
}

/// Whether what the call hands the frame below came with the leaving or the popping.
fn hands_below(call: &Call) -> bool
    ensures { (t : TidOf) (value : ValueOf) (o : Option ObjIdOf) → entries.answer_facts call.now t value o
        ≡ (if result then [] else entries.value_facts t value o) }
{
    match call {
        Call::Vm(VmCall::NativeLeave { .. }) => true,
        Call::Frames(FramesCall::PopLocalFrame { .. }) => true,
        _ => false,
    }
}

pub(crate) fn push_answer(
    call: &Call,
    tid: Tid,
    value: &Value,
    object: Option<ObjId>,
    out: &mut Vec<Fact>,
) -> Result<(), AllocError>
    ensures { OnOk result (out.new.items ≡ out.old.items
        ++ reverse (entries.answer_facts call.now tid value.now object)) }
{
    if hands_below(call) {
        return Ok(());
    }
    match object {
        None => Ok(()),
        Some(object) => {
            push_value(tid, value, object, out)?;
            Ok(())
        }
    }
}

/// The module is warned of, where the answer says so.
pub(crate) fn push_warning(
    warned: bool,
    home: Option<u32>,
    out: &mut Vec<Fact>,
) -> Result<(), AllocError>
    ensures { OnOk result (out.new.items ≡ out.old.items
        ++ reverse (entries.link_facts (effects.warning warned home))) }
{
    match home {
        Some(home) if warned => {
            out.push(Fact::Warn(home))?;
            Ok(())
        }
        _ => Ok(()),
    }
}
