//! What the calls on references answer, and what they end.

ghost use Rattle.std.specs.Prelude.{◌≡◌, ◌≤◌};
ghost use Rattle.jg_words.specs.declared.call.Call.TheVariants.{Refs};
ghost use Rattle.jg_policy.specs.Stated.{StatedSetup};
ghost use Rattle.jg_rules.specs.Parts.{Parts, TablesStand};
ghost use Rattle.jg_rules.specs.View.{ViewStands, rows_in};
ghost use Rattle.jg_rules.specs.Answers.{refs_answer, ref_type};
ghost use Rattle.jg_guard.specs.Tables.{rows_of, IsDue, IsEffective, KeepsRoom};
ghost use Rattle.jg_guard.specs.Settled.{deleted_on};
ghost use Rattle.jg_rules.specs.Effects.{done_by};
ghost use Rattle.jg_table_locals.specs.Rows.{spare};

use crate::forms::{handing_out, plain};
use crate::tables::Tables;
use jg_policy::Setup;
use jg_rules::{Answer, Named, View, look_up, object_named};
use jg_words::{Kind, Ref, RefsCall, Tid, Value};
use std::alloc::Allocator;

/// What GetObjectRefType says of a reference that names this.
fn type_number(named: Named, reference: Ref) -> i64
    ensures { result ≡ ref_type named reference }
{
    match (named, reference) {
        (Named::Nothing, _) => 0,
        (_, Ref::Null) => 0,
        (_, Ref::To { kind, .. }) => match kind {
            Kind::Local => 1,
            Kind::Global => 2,
            Kind::Weak => 3,
        },
    }
}

/// What a call of the group answers, where it breaks no rule.
pub(crate) fn answer_refs<A: Allocator + Clone>(
    view: &View<'_, A>,
    tid: Tid,
    call: &RefsCall,
) -> Answer
    requires { IsDue view.now.setup.now (rows_in view.now) tid.0 (Refs call.now) }
    ensures { (p : Parts) → ViewStands view.now p → result ≡ refs_answer p tid call.now }
{
    match call {
        RefsCall::NewLocalRef { of } => {
            handing_out(view, tid, Kind::Local, object_named(view, tid, *of))
        }
        RefsCall::NewGlobalRef { of } => {
            handing_out(view, tid, Kind::Global, object_named(view, tid, *of))
        }
        RefsCall::NewWeakGlobalRef { of } => {
            handing_out(view, tid, Kind::Weak, object_named(view, tid, *of))
        }
        RefsCall::DeleteLocalRef { .. } => plain(Value::Ok),
        RefsCall::DeleteGlobalRef { .. } => plain(Value::Ok),
        RefsCall::DeleteWeakGlobalRef { .. } => plain(Value::Ok),
        RefsCall::IsSameObject { first, second } => plain(Value::Truth(
            object_named(view, tid, *first) == object_named(view, tid, *second),
        )),
        RefsCall::GetObjectRefType { of } => {
            plain(Value::Number(type_number(look_up(view, tid, *of), *of)))
        }
    }
}

/// Does what a call of the group does beside handing out a reference.
pub(crate) fn perform_refs<A: Allocator + Clone>(
    tables: &mut Tables<A>,
    setup: &Setup,
    tid: Tid,
    call: &RefsCall,
)
    requires { IsEffective setup.now (rows_of tables.old) tid (Refs call.now) }
    ensures stands { (p : Parts) → TablesStand setup.now (rows_of tables.old) p
        → TablesStand setup.now (rows_of tables.new) (done_by setup.now tid.0 (Refs call.now) p) }
    ensures room { KeepsRoom tables.old tables.new tid.0 (Refs call.now) }
{
    match call {
        RefsCall::NewLocalRef { .. } => {}
        RefsCall::NewGlobalRef { .. } => {}
        RefsCall::NewWeakGlobalRef { .. } => {}
        RefsCall::DeleteLocalRef { of } => delete_local(tables, tid, *of),
        RefsCall::DeleteGlobalRef { of } => tables.globals.delete(*of),
        RefsCall::DeleteWeakGlobalRef { of } => tables.globals.delete(*of),
        RefsCall::IsSameObject { .. } => {}
        RefsCall::GetObjectRefType { .. } => {}
    }
}

fn delete_local<A: Allocator + Clone>(tables: &mut Tables<A>, tid: Tid, reference: Ref)
    ensures stands { (setup : StatedSetup) (p : Parts) → TablesStand setup (rows_of tables.old) p
        → TablesStand setup (rows_of tables.new) (deleted_on tid.0 reference p) }
    ensures room { spare tables.old.locals tid.0 ≤ spare tables.new.locals tid.0 }
    ensures warnings { tables.new.links ≡ tables.old.links }
{
    if let Ref::To {
        kind: Kind::Local,
        n,
        ..
    } = reference
    {
        tables.locals.delete(tid, n);
    }
}
