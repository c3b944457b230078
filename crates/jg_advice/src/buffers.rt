//! What was written to copies, and what was only committed.

ghost use Rattle.std.specs.Prelude.{◌≡◌, ◌&&◌, if◌then◌else◌, not, None, OnOk, Some};
ghost use Rattle.jg_table_buffers.specs.History.{is_critical};
ghost use Rattle.std.specs.Map.{lookup};
ghost use Rattle.jg_lists.specs.ByMaker.{Name, same_name, named, IsThereOnce};
ghost use Rattle.jg_rules.specs.Parts.{Parts};
ghost use Rattle.jg_advice.specs.Buffers as spec;
ghost use Rattle.jg_advice.specs.Standing.{Sees};

use crate::advice::Source;
use crate::functions::Release;
use crate::tables::put;
use jg_lists::by_maker::{ByMaker, remove};
use jg_rules::{Store, View};
use jg_table_buffers::{Family, Info};
use jg_table_heap::natural;
use jg_words::BufId;
use std::alloc::{AllocError, Allocator, Global};

/// `JNI_COMMIT`
const COMMIT: u32 = 1;

/// `JNI_ABORT`
const ABORT: u32 = 2;

/// Calls by the buffer that they were about.
pub type Sources = ByMaker<Source, Global>;

pub fn is_abort(mode: i32) -> bool
    ensures { result ≡ spec.is_abort mode }
{
    natural(mode) == ABORT
}

fn is_copied(info: Info) -> bool
    ensures { result ≡ not (is_critical info.family) }
{
    match info.family {
        Family::ArrayCritical | Family::StringCritical => false,
        Family::Elements(_) | Family::Chars | Family::UtfChars => true,
    }
}

fn is_copy<A: Allocator + Clone, S: Store>(view: &View<'_, A, S>, buffer: BufId) -> bool
    ensures { (p : Parts) → Sees view.now p → result ≡ spec.is_copy p (Some buffer) }
{
    match view.buffers.find(buffer) {
        None => false,
        Some(info) => is_copied(info),
    }
}

/// The call commits the buffer, if it does: what was written to it before isn't lost.
fn note_commit(written: &mut Sources, release: Option<Release>)
    ensures { (q : Name) → lookup (same_name q) (named written.new)
        ≡ (if spec.commits q release then None else lookup (same_name q) (named written.old)) }
{
    let Some(release) = release else {
        return;
    };
    if natural(release.mode) == COMMIT {
        let _written = remove(written, (release.buffer.maker.0, release.buffer.n));
    }
}

/// The call writes to the copy, if it does.
fn note_write<A: Allocator + Clone, S: Store>(
    written: &mut Sources,
    alloc: Global,
    view: &View<'_, A, S>,
    buffer: Option<BufId>,
    call: Source,
) -> Result<(), AllocError>
    ensures { OnOk result ((p : Parts) → Sees view.now p → (q : Name)
        → lookup (same_name q) (named written.new) ≡ (if spec.is_named q buffer && spec.is_copy p buffer
        then Some call else lookup (same_name q) (named written.old))) }
{
    let Some(buffer) = buffer else {
        return Ok(());
    };
    if !is_copy(view, buffer) {
        return Ok(());
    }
    put(written, alloc, (buffer.maker.0, buffer.n), call)
}

/// The call writes to the copy or commits it, if it does.
pub fn note_written<A: Allocator + Clone, S: Store>(
    written: &mut Sources,
    alloc: Global,
    view: &View<'_, A, S>,
    buffer: Option<BufId>,
    release: Option<Release>,
    call: Source,
) -> Result<(), AllocError>
    ensures { OnOk result ((p : Parts) → Sees view.now p → (q : Name)
        → lookup (same_name q) (named written.new) ≡ (if spec.commits q release then None
        else (if spec.is_named q buffer && spec.is_copy p buffer then Some call
        else lookup (same_name q) (named written.old)))) }
{
    note_write(written, alloc, view, buffer, call)?;
    note_commit(written, release);
    Ok(())
}

/// The call commits the buffer, if it does.
pub fn note_committed(
    committed: &mut Sources,
    alloc: Global,
    release: Option<Release>,
    call: Source,
) -> Result<(), AllocError>
    ensures found { OnOk result ((q : Name) → lookup (same_name q) (named committed.new)
        ≡ (if spec.commits q release then Some call else lookup (same_name q) (named committed.old))) }
    ensures once { OnOk result ((q : Name) → IsThereOnce q (named committed.old)
        → IsThereOnce q (named committed.new)) }
{
    let Some(release) = release else {
        return Ok(());
    };
    if natural(release.mode) != COMMIT {
        return Ok(());
    }
    put(
        committed,
        alloc,
        (release.buffer.maker.0, release.buffer.n),
        call,
    )
}
