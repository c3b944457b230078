//! What the table says of a function, as far as advice looks at it.

ghost use Rattle.std.specs.Prelude.{◌≡◌, ◌==◌, Some};
ghost use Rattle.jg_rows.specs.Columns.{columns};
ghost use Rattle.jg_advice.specs.Buffers as buffers;
ghost use Rattle.jg_advice.specs.Functions as spec;

use jg_judge::Argument;
use jg_rows::{Effect, Passes, Row, Section, Takes, Throws};
use jg_words::BufId;

/// The place of FindClass in the table of functions.
const FIND_CLASS: u16 = 2;

/// A buffer that a call gives back, and how: 0, `JNI_COMMIT` or `JNI_ABORT`.
#[derive(Clone, Copy)]
pub(crate) struct Release {
    pub buffer: BufId,
    pub mode: i32,
}

/// Whether the function at that place of the table is FindClass: advice looks at the name that this is handed.
pub fn is_find_class(function: u16) -> bool
    ensures { result ≡ (function == spec.find_class) }
{
    function == FIND_CLASS
}

/// Whether the function is one of the JNI, and none of this guard's own.
pub(crate) fn is_jni(row: &Row) -> bool
    ensures { result ≡ spec.is_jni (columns row.now) }
{
    match row.section {
        Section::Own => false,
        _ => true,
    }
}

fn may_be_pending(passes: Passes) -> bool
    ensures { result ≡ spec.may_be_pending passes }
{
    match passes {
        Passes::Usual | Passes::Critical => false,
        Passes::Pending | Passes::Both => true,
    }
}

fn is_exceptions(section: Section) -> bool
    ensures { result ≡ spec.is_exceptions section }
{
    match section {
        Section::Exceptions => true,
        _ => false,
    }
}

fn is_untold(throws: Throws) -> bool
    ensures { result ≡ spec.is_untold throws }
{
    match throws {
        Throws::Untold => true,
        _ => false,
    }
}

/// Whether it asks for a pending exception, clears it, or ends the program.
pub(crate) fn asks(row: &Row) -> bool
    ensures { result ≡ spec.asks (columns row.now) }
{
    is_exceptions(row.section) && may_be_pending(row.passes)
}

/// Whether it may not be called with an exception pending.
pub(crate) fn wants_none(row: &Row) -> bool
    ensures { result ≡ spec.wants_none (columns row.now) }
{
    is_jni(row) && !may_be_pending(row.passes)
}

/// Whether some call of it may throw, and its answer doesn't tell.
pub(crate) fn throws_untold(row: &Row) -> bool
    ensures { result ≡ spec.throws_untold (columns row.now) }
{
    is_jni(row) && is_untold(row.throws)
}

fn writes(row: &Row) -> bool
    ensures { result ≡ spec.writes (columns row.now) }
{
    match row.takes {
        [Takes::Writable, ..] => true,
        _ => false,
    }
}

fn gives_back(row: &Row) -> bool
    ensures { result ≡ spec.gives_back (columns row.now) }
{
    match row.effect {
        Effect::GivesBack => true,
        _ => false,
    }
}

/// Whether the virtual machine collects by it.
pub(crate) fn collects(row: &Row) -> bool
    ensures { result ≡ spec.collects (columns row.now) }
{
    match row.effect {
        Effect::Collects => true,
        _ => false,
    }
}

/// The buffer to which the call writes.
pub(crate) fn written_by(row: &Row, arguments: &[Argument]) -> Option<BufId>
    ensures { result ≡ buffers.written_by (Some (columns row.now)) arguments.now }
{
    let [Argument::Buffer(buffer), ..] = arguments else {
        return None;
    };
    if writes(row) { Some(*buffer) } else { None }
}

/// The buffer that the call gives back, with its mode, where it takes one.
pub(crate) fn released_by(row: &Row, arguments: &[Argument]) -> Option<Release>
    ensures { result ≡ buffers.released_by (Some (columns row.now)) arguments.now }
{
    let [_, Argument::Buffer(buffer), Argument::Number(mode), ..] = arguments else {
        return None;
    };
    if !gives_back(row) {
        return None;
    }
    Some(Release {
        buffer: *buffer,
        mode: *mode,
    })
}
