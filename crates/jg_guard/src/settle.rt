//! What an answer makes, whichever call it was: a reference, a buffer's number, an exception, a
//! warning. It changes the tables.

ghost use Rattle.std.specs.Prelude.{◌≡◌, ◌<◌, ◌⊎◌, true, None, OnOk, OnErr, IsTrue};
ghost use Rattle.jg_policy.specs.Stated.{StatedSetup};
ghost use Rattle.jg_table_threads.specs.Rows.{row_of};
ghost use Rattle.jg_rules.specs.Parts.{Parts, TablesStand};
ghost use Rattle.jg_rules.specs.Effects as effects;
ghost use Rattle.jg_guard.specs.Tables as tables_of;
ghost use Rattle.jg_guard.specs.Tables.{rows_of, StillStand, CanHandOut, CanMakeGlobal, CanSettle, CanSettleGlobal, CanThrow, HasRoom};
ghost use Rattle.jg_guard.specs.Settled.{local_on, strong_on, weak_on, thrown_on, warned_on, saying_of};

use crate::forms::makes_local;
use crate::tables::Tables;
use jg_rules::Answer;
use jg_table_heap::Shape;
use jg_words::{Kind, ObjId, Ref, Reply, Thrown, Tid, Value};
use std::alloc::{AllocError, Allocator};

/// Makes room for what the answer makes.
pub(crate) fn make_room<A: Allocator + Clone>(
    tables: &mut Tables<A>,
    tid: Tid,
    reply: &Reply,
) -> Result<(), AllocError>
    ensures ok { OnOk result (HasRoom tables.new tid.0 reply.now) }
    ensures wants { OnErr result ((reply.now.warned ≡ true) ⊎ (tables_of.makes_local reply.now.value ≡ true)) }
    ensures still { (setup : StatedSetup) → StillStand setup (rows_of tables.old) (rows_of tables.new) }
    ensures threads { tables.new.threads ≡ tables.old.threads }
    ensures heap { tables.new.heap ≡ tables.old.heap }
{
    if reply.warned {
        tables.links.reserve()?;
    }
    if makes_local(&reply.value) {
        tables.locals.reserve(tid)?;
    }
    Ok(())
}

fn hand_out<A: Allocator + Clone>(tables: &mut Tables<A>, tid: Tid, n: u64, object: ObjId)
    requires { CanHandOut tables.old tid.0 n }
    ensures stands { (setup : StatedSetup) (p : Parts) → TablesStand setup (rows_of tables.old) p
        → TablesStand setup (rows_of tables.new) (local_on tid.0 n object p) }
    ensures warnings { tables.new.links ≡ tables.old.links }
{
    match tables.locals.make(tid, n, object) {
        Ok(()) => tables.threads.count_ref(tid),
        Err(_) => unreachable!(),
    }
}

fn make_strong<A: Allocator + Clone>(
    tables: &mut Tables<A>,
    tid: Tid,
    maker: Tid,
    n: u64,
    object: ObjId,
) -> Result<(), AllocError>
    requires { CanMakeGlobal tables.old tid.0 maker.0 n }
    ensures stands { OnOk result ((setup : StatedSetup) (p : Parts) → TablesStand setup (rows_of tables.old) p
        → TablesStand setup (rows_of tables.new) (strong_on tid.0 maker.0 n object p)) }
    ensures err { OnErr result (rows_of tables.new ≡ rows_of tables.old) }
{
    tables.globals.make_strong(maker, n, object)?;
    tables.threads.count_ref(tid);
    Ok(())
}

fn make_weak<A: Allocator + Clone>(
    tables: &mut Tables<A>,
    tid: Tid,
    maker: Tid,
    n: u64,
    object: ObjId,
) -> Result<(), AllocError>
    requires { CanMakeGlobal tables.old tid.0 maker.0 n }
    ensures stands { OnOk result ((setup : StatedSetup) (p : Parts) → TablesStand setup (rows_of tables.old) p
        → TablesStand setup (rows_of tables.new) (weak_on tid.0 maker.0 n object p)) }
    ensures err { OnErr result (rows_of tables.new ≡ rows_of tables.old) }
{
    tables.globals.make_weak(maker, n, object)?;
    tables.threads.count_ref(tid);
    Ok(())
}

fn throw<A: Allocator + Clone>(
    tables: &mut Tables<A>,
    tid: Tid,
    thrown: Thrown,
    object: ObjId,
) -> Result<(), AllocError>
    requires { IsTrue (row_of tables.old.threads tid.0).attached }
    ensures stands { OnOk result ((setup : StatedSetup) (p : Parts) → TablesStand setup (rows_of tables.old) p
        → TablesStand setup (rows_of tables.new) (thrown_on tid.0 thrown object p)) }
    ensures err { OnErr result (rows_of tables.new ≡ rows_of tables.old) }
{
    let fields = Vec::new(tables.alloc.clone()?);
    tables.heap.alloc(Shape::Plain {
        class: thrown.class(),
        fields,
    })?;
    tables.threads.set_pending(tid, object);
    Ok(())
}

/// Makes the exception of a call that threw, pending; nothing where a monitor was busy.
pub(crate) fn throw_if<A: Allocator + Clone>(
    tables: &mut Tables<A>,
    tid: Tid,
    given: &Answer,
) -> Result<(), AllocError>
    requires attached { IsTrue (row_of tables.old.threads tid.0).attached }
    requires exception { CanThrow given.now.reply.value given.now.object }
    ensures stands { OnOk result ((setup : StatedSetup) (p : Parts) → TablesStand setup (rows_of tables.old) p
        → TablesStand setup (rows_of tables.new)
        (effects.settled None tid.0 (saying_of given.now.reply.value) given.now.object p)) }
    ensures err { OnErr result (rows_of tables.new ≡ rows_of tables.old) }
{
    match &given.reply.value {
        Value::Throw(thrown) => match given.object {
            Some(object) => {
                throw(tables, tid, *thrown, object)?;
                Ok(())
            }
            None => unreachable!(),
        },
        Value::Busy => Ok(()),
        _ => unreachable!(),
    }
}

/// Makes the global or weak reference that a call hands out.
pub(crate) fn settle_global<A: Allocator + Clone>(
    tables: &mut Tables<A>,
    tid: Tid,
    given: &Answer,
) -> Result<(), AllocError>
    requires { CanSettleGlobal tables.old tid.0 given.now.reply.value given.now.object }
    ensures stands { OnOk result ((setup : StatedSetup) (p : Parts) → TablesStand setup (rows_of tables.old) p
        → TablesStand setup (rows_of tables.new)
        (effects.settled None tid.0 (saying_of given.now.reply.value) given.now.object p)) }
    ensures err { OnErr result (rows_of tables.new ≡ rows_of tables.old) }
{
    match &given.reply.value {
        Value::Reference(reference) => match (reference, given.object) {
            (Ref::To { kind, maker, n }, Some(object)) => match kind {
                Kind::Local => unreachable!(),
                Kind::Global => {
                    make_strong(tables, tid, *maker, *n, object)?;
                    Ok(())
                }
                Kind::Weak => {
                    make_weak(tables, tid, *maker, *n, object)?;
                    Ok(())
                }
            },
            _ => unreachable!(),
        },
        _ => unreachable!(),
    }
}

/// Makes what an answer makes, where there is room for it. The object behind a bare `ok` is the exception of
/// a Throw, which becomes pending.
pub(crate) fn settle<A: Allocator + Clone>(tables: &mut Tables<A>, tid: Tid, given: &Answer)
    requires { CanSettle tables.old tid.0 given.now.reply.value given.now.object }
    ensures stands { (setup : StatedSetup) (p : Parts) → TablesStand setup (rows_of tables.old) p
        → TablesStand setup (rows_of tables.new)
        (effects.settled None tid.0 (saying_of given.now.reply.value) given.now.object p) }
    ensures warnings { tables.new.links ≡ tables.old.links }
{
    match &given.reply.value {
        Value::Reference(reference) => match (reference, given.object) {
            (Ref::To { kind, n, .. }, Some(object)) => match kind {
                Kind::Local => hand_out(tables, tid, *n, object),
                Kind::Global => unreachable!(),
                Kind::Weak => unreachable!(),
            },
            _ => unreachable!(),
        },
        Value::Buffer(_) => tables.threads.count_buf(tid),
        Value::Throw(_) => unreachable!(),
        Value::Busy => unreachable!(),
        Value::Ok => {
            if let Some(exception) = given.object {
                tables.threads.set_pending(tid, exception);
            }
        }
        Value::Number(_) => {}
        Value::Truth(_) => {}
        Value::Null => {}
        Value::Field(_) => {}
        Value::Environment(_) => {}
        Value::List(_) => {}
        Value::Detached => {}
    }
}

/// Notes that the module was warned of, if the answer says so.
pub(crate) fn warn_if<A: Allocator + Clone>(tables: &mut Tables<A>, warned: bool, home: Option<u32>)
    requires { warned ≡ true → 0 < tables.old.links.spare_warnings }
    ensures { (setup : StatedSetup) (p : Parts) → TablesStand setup (rows_of tables.old) p
        → TablesStand setup (rows_of tables.new) (warned_on warned home p) }
{
    if warned {
        if let Some(home) = home {
            match tables.links.warn(home) {
                Ok(()) => {}
                Err(_) => unreachable!(),
            }
        }
    }
}
