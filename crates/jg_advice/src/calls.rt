//! Advice on calls.

ghost use Rattle.std.specs.Prelude.{◌≡◌, ◌==◌, ◌++◌, ◌-◌, ◌&&◌, length, OnOk, option_to_list, slice_get, Some};
ghost use Rattle.std.specs.List.{list_any};
ghost use Rattle.std.specs.Map.{lookup};
ghost use Rattle.jg_rows.specs.Columns.{columns};
ghost use Rattle.jg_lists.specs.ByMaker.{same_name, named};
ghost use Rattle.jg_advice.specs.Advised as advised;

use crate::advice::{Advice, Kind, Source};
use crate::buffers::{Sources, is_abort};
use crate::doing::Doing;
use crate::functions::{Release, is_find_class, wants_none};
use jg_lists::by_maker::find;
use jg_rows::Row;
use jg_words::Tid;
use std::alloc::AllocError;

/// A call that is advised on: of this function, by this thread, on this line.
#[derive(Clone, Copy)]
pub struct Calling {
    pub line: u64,
    pub tid: Tid,
    pub function: u16,
}

impl Calling {
    /// Advice of that kind on the call, because of an earlier one.
    fn because(self, kind: Kind, source: Source) -> Advice
        ensures { result ≡ record {
          kind = kind;
          tid = self.tid;
          line = Some self.line;
          function = Some self.function;
          source = Some source;
        } }
    {
        Advice {
            kind,
            tid: self.tid,
            line: Some(self.line),
            function: Some(self.function),
            source: Some(source),
        }
    }
}

#[inline(always)]
pub fn push_if(out: &mut Vec<Advice>, advice: Option<Advice>) -> Result<(), AllocError>
    ensures { OnOk result (out.new.items ≡ out.old.items ++ option_to_list advice) }
{
    match advice {
        None => Ok(()),
        Some(advice) => {
            out.push(advice)?;
            Ok(())
        }
    }
}

/// The call may not be made with an exception pending, and nobody asked about one that may have thrown.
pub fn unchecked(doing: Doing, calling: Calling, row: &Row) -> Option<Advice>
    ensures { result ≡ advised.unchecked calling.line calling.tid calling.function (Some (columns row.now)) doing }
{
    if !wants_none(row) {
        return None;
    }
    match doing.owed {
        None => None,
        Some(call) => Some(calling.because(Kind::Unchecked, call)),
    }
}

/// It releases by `JNI_ABORT` a copy that was written to.
pub fn lost(written: &Sources, calling: Calling, release: Option<Release>) -> Option<Advice>
    ensures { result ≡ advised.lost calling.line calling.tid calling.function
        (λ q. lookup (same_name q) (named written.now)) release }
{
    let Some(release) = release else {
        return None;
    };
    if !is_abort(release.mode) {
        return None;
    }
    match find(written, (release.buffer.maker.0, release.buffer.n)) {
        None => None,
        Some(call) => Some(calling.because(Kind::WritesLost, *call)),
    }
}

/// Whether the name begins with `L` and ends with `;`, or has a dot.
fn is_descriptor(name: &[u8]) -> bool
    ensures { result ≡ advised.is_descriptor name.now }
{
    is_enclosed(name) || has_dot(name)
}

fn has_dot(name: &[u8]) -> bool
    ensures { result ≡ list_any (λ byte. byte == 46) name.now }
{
    name.iter().any(|byte| *byte == b'.')
}

fn is_byte(byte: u8, other: Option<u8>) -> bool
    ensures { result ≡ advised.is_byte byte other }
{
    match other {
        None => false,
        Some(other) => other == byte,
    }
}

fn is_enclosed(name: &[u8]) -> bool
    ensures { result ≡ (advised.is_byte 76 (slice_get name.now 0)
        && advised.is_byte 59 (slice_get name.now (length name.now - 1))) }
{
    is_byte(b'L', name.first().copied()) && is_byte(b';', name.last().copied())
}

/// It is FindClass, of a descriptor.
pub fn misnamed(calling: Calling, name: &[u8]) -> Option<Advice>
    ensures { result ≡ advised.misnamed calling.line calling.tid calling.function name.now }
{
    if !is_find_class(calling.function) || !is_descriptor(name) {
        return None;
    }
    Some(Advice {
        kind: Kind::DescriptorForName,
        tid: calling.tid,
        line: Some(calling.line),
        function: Some(calling.function),
        source: None,
    })
}
