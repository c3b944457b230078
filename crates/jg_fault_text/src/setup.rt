//! Where in a setup's text its fault stands.

ghost use Rattle.std.specs.Prelude.{OnOk, string_bytes};
ghost use Rattle.jg_policy.specs.declared.fault.SetupFault.TheVariants.{NotToml};
ghost use Rattle.jg_fault_text.specs.Setups.{AddsLine, AddsSetupFault};

mod excess;
mod found;
mod position;
mod repeats;
mod rules;
mod shape;

use crate::setup::excess::first_excess;
use crate::setup::found::{Found, push_found};
use crate::setup::position::push_at;
use crate::setup::repeats::first_repeat;
use crate::setup::shape::first_misshapen;
use jg_policy::SetupFault;
use std::alloc::{AllocError, Global};
use toml::Table;

/// Writes where in the bytes of a setup the fault stands, and what is wrong there, with a line feed behind it: `class
/// 2, field 1: type: ..`, or of bytes that are no TOML document `line 3, column 7: ..`. Of want of memory it tells
/// nothing. Of bytes that haven't the fault it may tell anything.
pub fn push_setup_fault(
    out: &mut String,
    alloc: Global,
    bytes: &[u8],
    fault: SetupFault,
) -> Result<(), AllocError>
    ensures { OnOk result (AddsSetupFault fault bytes.now (string_bytes out.old) (string_bytes out.new)) }
{
    match fault {
        SetupFault::NoMemory => Ok(()),
        SetupFault::NotToml => push_toml_fault(out, alloc, bytes),
        SetupFault::BadVersion
        | SetupFault::UnknownKey
        | SetupFault::Missing
        | SetupFault::BadType
        | SetupFault::BadMode
        | SetupFault::BadName
        | SetupFault::Duplicate
        | SetupFault::TooMany => push_tree_fault(out, alloc, bytes, fault),
    }
}

/// Writes at which line and column the bytes are no TOML document, and what `toml` says of that.
fn push_toml_fault(out: &mut String, alloc: Global, bytes: &[u8]) -> Result<(), AllocError>
    ensures { OnOk result (AddsSetupFault NotToml bytes.now (string_bytes out.old) (string_bytes out.new)) }
{
    let Err(error) = toml::table_from_slice(alloc, bytes) else {
        return push_at(out, bytes, "a TOML document ends here");
    };
    let Some(span) = error.span() else {
        return Err(AllocError);
    };
    let (front, _) = bytes.split_at(span.start.min(bytes.len()));
    push_at(out, front, error.message())
}

/// Writes at which place of the document the fault stands.
fn push_tree_fault(
    out: &mut String,
    alloc: Global,
    bytes: &[u8],
    fault: SetupFault,
) -> Result<(), AllocError>
    ensures { OnOk result (AddsLine (string_bytes out.old) (string_bytes out.new)) }
{
    let mut line = String::new(alloc);
    push_place(&mut line, alloc, bytes, fault)?;
    line.push_str("\n")?;
    out.push_str(line.as_str())
}

fn push_place(
    out: &mut String,
    alloc: Global,
    bytes: &[u8],
    fault: SetupFault,
) -> Result<(), AllocError> {
    let Ok(table) = toml::table_from_slice(alloc, bytes) else {
        return Err(AllocError);
    };
    match first_found(alloc, &table, fault)? {
        Some(found) => push_found(out, found),
        None => out.push_str("no place of this setup"),
    }
}

/// The first place of the document at which it has the fault.
fn first_found<'a>(
    alloc: Global,
    table: &'a Table,
    fault: SetupFault,
) -> Result<Option<Found<'a>>, AllocError> {
    match fault {
        SetupFault::Duplicate => first_repeat(alloc, table),
        SetupFault::TooMany => Ok(first_excess(table)),
        _ => Ok(first_misshapen(table, fault)),
    }
}
