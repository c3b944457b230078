//! What is left behind, as text: a line for each.

ghost use Rattle.std.specs.Prelude.{◌≡◌, ◌++◌, IfOk, OnOk, string_bytes};
ghost use Rattle.std.specs.List.{flat_map};
ghost use Rattle.jg_script.specs.Leaks.{ref_line, buffer_line, monitor_line, leaks_text};

use jg_guard::{Leaks, OwnedMonitor};
use jg_text::{push_buf, push_number, push_ref, push_tid};
use jg_words::{BufId, Ref};
use std::alloc::{AllocError, Allocator, Global};

fn push_ref_line(out: &mut String, reference: Ref) -> Result<(), AllocError>
    ensures { OnOk result (string_bytes out.new ≡ string_bytes out.old ++ ref_line reference) }
{
    out.push_str("leak ")?;
    push_ref(out, reference)?;
    out.push_str("\n")
}

fn push_buffer_line(out: &mut String, buffer: BufId) -> Result<(), AllocError>
    ensures { OnOk result (string_bytes out.new ≡ string_bytes out.old ++ buffer_line buffer) }
{
    out.push_str("leak ")?;
    push_buf(out, buffer)?;
    out.push_str("\n")
}

fn push_monitor_line(out: &mut String, monitor: OwnedMonitor) -> Result<(), AllocError>
    ensures { OnOk result (string_bytes out.new ≡ string_bytes out.old ++ monitor_line monitor) }
{
    out.push_str("leak M")?;
    push_number(out, monitor.object.0)?;
    out.push_str(" ")?;
    push_tid(out, monitor.owner)?;
    out.push_str(" ")?;
    push_number(out, monitor.count)?;
    out.push_str("\n")
}

fn push_refs(out: &mut String, refs: &[Ref]) -> Result<(), AllocError>
    ensures { OnOk result (string_bytes out.new ≡ string_bytes out.old ++ flat_map ref_line refs.now) }
{
    for reference in refs {
        push_ref_line(out, *reference)?;
    }
    Ok(())
}

fn push_buffers(out: &mut String, buffers: &[BufId]) -> Result<(), AllocError>
    ensures { OnOk result (string_bytes out.new ≡ string_bytes out.old ++ flat_map buffer_line buffers.now) }
{
    for buffer in buffers {
        push_buffer_line(out, *buffer)?;
    }
    Ok(())
}

fn push_monitors(out: &mut String, monitors: &[OwnedMonitor]) -> Result<(), AllocError>
    ensures { OnOk result (string_bytes out.new ≡ string_bytes out.old ++ flat_map monitor_line monitors.now) }
{
    for monitor in monitors {
        push_monitor_line(out, *monitor)?;
    }
    Ok(())
}

/// What is left behind, a line for each in the order of `Leaks`: `leak L1.1` for a reference,
/// `leak B1.1` for a buffer, and `leak M15 T1 1` for a monitor, with its object, its owner and how
/// often that entered it. Fails only for want of memory.
pub fn write_leaks<A: Allocator>(alloc: Global, left: &Leaks<A>) -> Result<String, AllocError>
    ensures { IfOk result (λ text. string_bytes text
        ≡ leaks_text left.now.refs.items left.now.buffers.items left.now.monitors.items) }
{
    let mut out = String::new(alloc);
    push_refs(&mut out, &left.refs)?;
    push_buffers(&mut out, &left.buffers)?;
    push_monitors(&mut out, &left.monitors)?;
    Ok(out)
}
