//! What a fact does to the tables, where it can be.

ghost use Rattle.std.specs.Prelude.{◌≡◌, ◌<◌, ◌≤◌, Some, None, ℕ, List, ◌∷◌, IsOk, OnOk, OnErr, true};
ghost use Rattle.jg_table_buffers.specs.History.{Event, Opened};
ghost use Rattle.jg_table_buffers.specs.Rows.{IsAbove};
ghost use Rattle.jg_table_buffers.specs.Standing.{Stands};
ghost use Rattle.jg_table_locals.specs.Rows.{spare};
ghost use Rattle.jg_table_objects.specs.Rows.{mark_in};
ghost use Rattle.jg_rules.specs.Parts.{Parts};
ghost use Rattle.jg_words.specs.declared.reference.Kind.TheVariants.{Local};
ghost use Rattle.jg_core.specs.declared.fact.Fact.TheVariants.{Begin, End, Enter, Free, Gone, Leave, Lend, Lost, Meet, Own, Pop};
ghost use Rattle.jg_core.specs.Facts.{handed_on, is_through, lent, makes};
ghost use Rattle.jg_core.specs.Tables.{HasSession, IsDue, Stand, Takes, rows_of};

use crate::fact::Fact;
use crate::possible::is_critical;
use crate::tables::Tables;
use jg_policy::Setup;
use jg_table_buffers::{Buffers, Family, Unseen};
use jg_table_monitors::Entering;
use jg_words::{Kind, ObjId, Ref, Tid};
use std::alloc::{AllocError, Allocator};

fn begin<A: Allocator + Clone>(
    tables: &mut Tables<A>,
    setup: &Setup,
    tid: Tid,
) -> Result<(), AllocError>
    requires { IsDue setup.now (rows_of tables.old) (Begin tid) }
    ensures ok { OnOk result (Takes setup.now (Begin tid) (rows_of tables.old) (rows_of tables.new)) }
    ensures err { OnErr result (rows_of tables.new ≡ rows_of tables.old) }
    ensures objects { tables.new.objects ≡ tables.old.objects }
{
    tables.locals.reserve_start(tid)?;
    tables.threads.attach(tid)?;
    match tables.locals.start_thread(tid) {
        Ok(()) => Ok(()),
        Err(_) => unreachable!(),
    }
}

fn end<A: Allocator + Clone>(tables: &mut Tables<A>, setup: &Setup, tid: Tid)
    requires { IsDue setup.now (rows_of tables.old) (End tid) }
    ensures takes { Takes setup.now (End tid) (rows_of tables.old) (rows_of tables.new) }
    ensures objects { tables.new.objects ≡ tables.old.objects }
{
    tables.threads.detach(tid);
    tables.locals.drop_thread(tid);
    tables.buffers.release_pins(tid);
    tables.monitors.release_all(tid);
}

fn enter<A: Allocator + Clone>(
    tables: &mut Tables<A>,
    setup: &Setup,
    tid: Tid,
) -> Result<(), AllocError>
    requires { IsDue setup.now (rows_of tables.old) (Enter tid) }
    ensures ok { OnOk result (Takes setup.now (Enter tid) (rows_of tables.old) (rows_of tables.new)) }
    ensures err { OnErr result (rows_of tables.new ≡ rows_of tables.old) }
    ensures objects { tables.new.objects ≡ tables.old.objects }
{
    tables.locals.enter(tid)?;
    tables.threads.enter_native(tid);
    tables.threads.clear_pending(tid);
    Ok(())
}

/// Hands the thread its next reference. A local needs no memory where there is room for one.
fn hand<A: Allocator + Clone>(
    tables: &mut Tables<A>,
    setup: &Setup,
    tid: Tid,
    kind: Kind,
    object: ObjId,
) -> Result<(), AllocError>
    requires { HasSession setup.now (rows_of tables.old) tid.0 }
    ensures ok { OnOk result ((p : Parts) → Stand setup.now (rows_of tables.old) p
        → Stand setup.now (rows_of tables.new) (handed_on tid.0 kind object.0 p)) }
    ensures err { OnErr result (rows_of tables.new ≡ rows_of tables.old) }
    ensures room { kind ≡ Local → 0 < spare tables.old.locals tid.0 → IsOk result }
    ensures objects { tables.new.objects ≡ tables.old.objects }
{
    let n = tables.threads.next_ref(tid);
    match kind {
        Kind::Local => {
            tables.locals.make(tid, n, object)?;
            tables.threads.count_ref(tid);
            Ok(())
        }
        Kind::Global => {
            tables.globals.make_strong(tid, n, object)?;
            tables.threads.count_ref(tid);
            Ok(())
        }
        Kind::Weak => {
            tables.globals.make_weak(tid, n, object)?;
            tables.threads.count_ref(tid);
            Ok(())
        }
    }
}

/// Leaves a native method. No object is kept.
fn leave<A: Allocator + Clone>(tables: &mut Tables<A>, setup: &Setup, tid: Tid)
    requires { IsDue setup.now (rows_of tables.old) (Leave tid None) }
    ensures takes { Takes setup.now (Leave tid None) (rows_of tables.old) (rows_of tables.new) }
    ensures session { HasSession setup.now (rows_of tables.new) tid.0 }
    ensures room { spare tables.old.locals tid.0 ≤ spare tables.new.locals tid.0 }
    ensures objects { tables.new.objects ≡ tables.old.objects }
{
    tables.locals.leave(tid);
    tables.threads.leave_native(tid);
    tables.threads.clear_pending(tid);
}

fn leave_with<A: Allocator + Clone>(
    tables: &mut Tables<A>,
    setup: &Setup,
    tid: Tid,
    object: ObjId,
) -> Result<(), AllocError>
    requires { IsDue setup.now (rows_of tables.old) (Leave tid (Some object)) }
    ensures ok { OnOk result (Takes setup.now (Leave tid (Some object)) (rows_of tables.old) (rows_of tables.new)) }
    ensures err { OnErr result (rows_of tables.new ≡ rows_of tables.old) }
    ensures objects { tables.new.objects ≡ tables.old.objects }
{
    tables.locals.reserve(tid)?;
    leave(tables, setup, tid);
    match hand(tables, setup, tid, Kind::Local, object) {
        Ok(()) => Ok(()),
        Err(_) => unreachable!(),
    }
}

/// Pops a frame. No object is kept.
fn pop<A: Allocator + Clone>(tables: &mut Tables<A>, setup: &Setup, tid: Tid)
    requires { IsDue setup.now (rows_of tables.old) (Pop tid None) }
    ensures takes { Takes setup.now (Pop tid None) (rows_of tables.old) (rows_of tables.new) }
    ensures session { HasSession setup.now (rows_of tables.new) tid.0 }
    ensures room { spare tables.old.locals tid.0 ≤ spare tables.new.locals tid.0 }
    ensures objects { tables.new.objects ≡ tables.old.objects }
{
    tables.locals.pop(tid);
}

fn pop_with<A: Allocator + Clone>(
    tables: &mut Tables<A>,
    setup: &Setup,
    tid: Tid,
    object: ObjId,
) -> Result<(), AllocError>
    requires { IsDue setup.now (rows_of tables.old) (Pop tid (Some object)) }
    ensures ok { OnOk result (Takes setup.now (Pop tid (Some object)) (rows_of tables.old) (rows_of tables.new)) }
    ensures err { OnErr result (rows_of tables.new ≡ rows_of tables.old) }
    ensures objects { tables.new.objects ≡ tables.old.objects }
{
    tables.locals.reserve(tid)?;
    pop(tables, setup, tid);
    match hand(tables, setup, tid, Kind::Local, object) {
        Ok(()) => Ok(()),
        Err(_) => unreachable!(),
    }
}

fn lose<A: Allocator + Clone>(tables: &mut Tables<A>, setup: &Setup, reference: Ref)
    ensures takes { Takes setup.now (Lost reference) (rows_of tables.old) (rows_of tables.new) }
    ensures objects { tables.new.objects ≡ tables.old.objects }
{
    match reference {
        Ref::Null => {}
        Ref::To { kind, maker, n } => match kind {
            Kind::Local => tables.locals.delete(maker, n),
            Kind::Global => tables.globals.delete(reference),
            Kind::Weak => tables.globals.delete(reference),
        },
    }
}

fn open<A: Allocator + Clone>(
    buffers: &mut Buffers<A, Unseen>,
    tid: Tid,
    n: u64,
    family: Family,
    object: ObjId,
    via: Ref,
    length: u32,
) -> Result<(), AllocError>
    requires above { IsAbove tid.0 n buffers.old }
    requires through { is_through family via ≡ true }
    ensures ok { OnOk result ((e : List Event) → Stands buffers.old e
        → Stands buffers.new (Opened (lent tid.0 n family object.0 via length) ∷ e)) }
    ensures err { OnErr result (buffers.new ≡ buffers.old) }
{
    let length = u64::from(length);
    if is_critical(family) {
        buffers.open_pin(tid, n, object, family, via, length)
    } else {
        buffers.open_unseen(tid, n, object, family, length)
    }
}

fn lend<A: Allocator + Clone>(
    tables: &mut Tables<A>,
    setup: &Setup,
    tid: Tid,
    family: Family,
    object: ObjId,
    via: Ref,
    length: u32,
) -> Result<(), AllocError>
    requires { IsDue setup.now (rows_of tables.old) (Lend tid family object via length) }
    ensures ok { OnOk result
        (Takes setup.now (Lend tid family object via length) (rows_of tables.old) (rows_of tables.new)) }
    ensures err { OnErr result (rows_of tables.new ≡ rows_of tables.old) }
    ensures objects { tables.new.objects ≡ tables.old.objects }
{
    let n = tables.threads.next_buf(tid);
    open(&mut tables.buffers, tid, n, family, object, via, length)?;
    tables.threads.count_buf(tid);
    Ok(())
}

fn own<A: Allocator + Clone>(
    tables: &mut Tables<A>,
    setup: &Setup,
    tid: Tid,
    object: ObjId,
) -> Result<(), AllocError>
    requires { IsDue setup.now (rows_of tables.old) (Own tid object) }
    ensures ok { OnOk result (Takes setup.now (Own tid object) (rows_of tables.old) (rows_of tables.new)) }
    ensures err { OnErr result (rows_of tables.new ≡ rows_of tables.old) }
    ensures objects { tables.new.objects ≡ tables.old.objects }
{
    match tables.monitors.enter(tid, object)? {
        Entering::Entered => Ok(()),
        Entering::Busy => unreachable!(),
    }
}

fn free<A: Allocator + Clone>(tables: &mut Tables<A>, setup: &Setup, tid: Tid, object: ObjId)
    requires { IsDue setup.now (rows_of tables.old) (Free tid object) }
    ensures takes { Takes setup.now (Free tid object) (rows_of tables.old) (rows_of tables.new) }
    ensures objects { tables.new.objects ≡ tables.old.objects }
{
    tables.monitors.exit(tid, object);
}

fn meet<A: Allocator + Clone>(
    tables: &mut Tables<A>,
    setup: &Setup,
    class: u32,
    length: u32,
) -> Result<(), AllocError>
    requires { IsDue setup.now (rows_of tables.old) (Meet class length) }
    ensures ok { OnOk result (Takes setup.now (Meet class length) (rows_of tables.old) (rows_of tables.new)) }
    ensures err { OnErr result (rows_of tables.new ≡ rows_of tables.old) }
    ensures marks { (o : ℕ) → mark_in tables.new.objects o ≡ mark_in tables.old.objects o }
{
    // There are fewer class objects than a `u32` counts, so that there is a number for one object more.
    let _class_count = setup.class_count();
    tables.objects.meet(class, length)?;
    Ok(())
}

fn let_go<A: Allocator + Clone>(tables: &mut Tables<A>, setup: &Setup, object: ObjId)
    ensures takes { Takes setup.now (Gone object) (rows_of tables.old) (rows_of tables.new) }
    ensures marks { ((o : ℕ) → mark_in tables.old.objects o ≡ None) → (o : ℕ) → mark_in tables.new.objects o ≡ None }
{
    tables.globals.clear_weak(object);
    tables.objects.go(&[object]);
}

/// Takes a fact that can be. An `Err` leaves all rows as they were, and comes only where something is made.
pub(crate) fn take<A: Allocator + Clone>(
    tables: &mut Tables<A>,
    setup: &Setup,
    fact: Fact,
) -> Result<(), AllocError>
    requires { IsDue setup.now (rows_of tables.old) fact }
    ensures ok { OnOk result (Takes setup.now fact (rows_of tables.old) (rows_of tables.new)) }
    ensures err { OnErr result (rows_of tables.new ≡ rows_of tables.old) }
    ensures wants { OnErr result (makes fact ≡ true) }
    ensures marks { ((o : ℕ) → mark_in tables.old.objects o ≡ None) → (o : ℕ) → mark_in tables.new.objects o ≡ None }
{
    match fact {
        Fact::Begin(tid) => begin(tables, setup, tid)?,
        Fact::End(tid) => end(tables, setup, tid),
        Fact::Enter(tid) => enter(tables, setup, tid)?,
        Fact::Leave { tid, kept } => match kept {
            None => leave(tables, setup, tid),
            Some(object) => leave_with(tables, setup, tid, object)?,
        },
        Fact::Push { tid, room } => tables.locals.push(tid, room)?,
        Fact::Pop { tid, kept } => match kept {
            None => pop(tables, setup, tid),
            Some(object) => pop_with(tables, setup, tid, object)?,
        },
        Fact::Ensure { tid, room } => tables.locals.ensure(tid, room),
        Fact::Raise { tid, object } => tables.threads.set_pending(tid, object),
        Fact::Calm(tid) => tables.threads.clear_pending(tid),
        Fact::Hand { tid, kind, object } => hand(tables, setup, tid, kind, object)?,
        Fact::Lost(reference) => lose(tables, setup, reference),
        Fact::Lend {
            tid,
            family,
            object,
            via,
            length,
        } => lend(tables, setup, tid, family, object, via, length)?,
        Fact::Back(buffer) => tables.buffers.close(buffer),
        Fact::Own { tid, object } => own(tables, setup, tid, object)?,
        Fact::Free { tid, object } => free(tables, setup, tid, object),
        Fact::Meet { class, length } => meet(tables, setup, class, length)?,
        Fact::Gone(object) => let_go(tables, setup, object),
        Fact::Link { class, native } => tables.links.link(class, native)?,
        Fact::Unlink(class) => tables.links.unlink_all(class),
        Fact::Warn(home) => tables.links.warn(home)?,
        Fact::Checked(_) => {}
    }
    Ok(())
}
