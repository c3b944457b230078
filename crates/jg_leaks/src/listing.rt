//! What the tables list.

ghost use Rattle.std.specs.Prelude.{◌≡◌, IfOk};
ghost use Rattle.jg_rules.specs.Parts.{HoldersStand, Parts};
ghost use Rattle.jg_rules.specs.View.{rows_in};
ghost use Rattle.jg_leaks.specs.Left.{AreLeft, BuffersAscend, ListsBuffers, ListsRefs, RefsAscend, ref_key};

use jg_rules::{Store, View};
use jg_table_monitors::OwnedMonitor;
use jg_words::{BufId, Ref};
use std::alloc::{AllocError, Allocator, Global};

/// What a history leaves behind.
#[derive(PartialEq, Eq, Drop)]
pub struct Leaks<A: Allocator = Global> {
    /// The live local references, the global ones in being and the weak ones in being, cleared or
    /// not: by the thread that was handed them, and then by number.
    pub refs: Vec<Ref, A>,
    /// The open buffers, by the thread that was lent them, and then by number.
    pub buffers: Vec<BufId, A>,
    /// The owned monitors, by object.
    pub monitors: Vec<OwnedMonitor, A>,
}

fn key_of_ref(reference: Ref) -> (u16, u64)
    ensures { result ≡ ref_key reference }
{
    match reference {
        Ref::Null => (0, 0),
        Ref::To { kind: _, maker, n } => (maker.0, n),
    }
}

/// The references that are left, in order.
fn list_refs<A: Allocator + Clone, S: Store>(
    alloc: A,
    view: &View<'_, A, S>,
) -> Result<Vec<Ref, A>, AllocError>
    ensures listed { IfOk result (λ refs. (p : Parts) → HoldersStand (rows_in view.now) p → ListsRefs p refs.items) }
    ensures ascending { IfOk result (λ refs. RefsAscend refs.items) }
{
    let mut refs = Vec::new(alloc);
    view.locals.list(&mut refs)?;
    view.globals.list(&mut refs)?;
    refs.sort_unstable_by_key(|reference| key_of_ref(*reference));
    Ok(refs)
}

/// The buffers that are open, in order.
fn list_buffers<A: Allocator + Clone, S: Store>(
    alloc: A,
    view: &View<'_, A, S>,
) -> Result<Vec<BufId, A>, AllocError>
    ensures listed { IfOk result (λ lent. (p : Parts) → HoldersStand (rows_in view.now) p → ListsBuffers p lent.items) }
    ensures ascending { IfOk result (λ lent. BuffersAscend lent.items) }
{
    let mut lent = Vec::new(alloc);
    view.buffers.list(&mut lent)?;
    lent.sort_unstable_by_key(|buffer| (buffer.maker.0, buffer.n));
    Ok(lent)
}

/// What is left behind as the tables are now: the references that live, the buffers that are open and the monitors that
/// are owned, each once, in order. Takes time and memory by how many these are. Fails only for want of memory.
pub fn list_left<A: Allocator + Clone, S: Store>(
    alloc: &A,
    view: &View<'_, A, S>,
) -> Result<Leaks<A>, AllocError>
    ensures { IfOk result (λ left. (p : Parts) → HoldersStand (rows_in view.now) p
        → AreLeft p left.refs.items left.buffers.items left.monitors.items) }
{
    Ok(Leaks {
        refs: list_refs(alloc.clone()?, view)?,
        buffers: list_buffers(alloc.clone()?, view)?,
        monitors: view.monitors.list(alloc.clone()?)?,
    })
}
