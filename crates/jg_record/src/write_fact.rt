//! Facts, written.

ghost use Rattle.std.specs.Prelude.{◌≡◌, ◌<◌, ◌^◌, ◌∷◌, [], OnOk, FitsSigned, codes, map, string_bytes};
ghost use Rattle.std.specs.Int.{w32};
ghost use Rattle.std.specs.Fmt.{decimal, signed_decimal};
ghost use Rattle.std.specs.List.{AllByRecursion};
ghost use Rattle.jg_text.specs.Words.{FitsBuf, FitsRef, buf_text, ref_text};
ghost use Rattle.jg_record.specs.Words.{FitsKept, FitsObject, kept_text, object_text};
ghost use Rattle.jg_record.specs.Texts as texts;
ghost use Rattle.jg_record.specs.Texts.{FitsChecked, FitsFact, appended, checked_words, fact_words};
ghost use Rattle.jg_record.specs.Writing as writing;

use crate::push;
use jg_core::{Checked, Fact};
use jg_judge::{Bounds, is_class};
use jg_policy::Setup;
use jg_table_buffers::Family;
use jg_words::{BufId, ItemType, Kind, ObjId, Primitive, Ref, Tid};
use std::alloc::AllocError;

/// The thread that the fact is of, or else this one.
pub fn teller_of(by: Tid, fact: &Fact) -> Tid
    ensures { result ≡ writing.teller_of by fact.now }
{
    match fact {
        Fact::Begin(tid) => *tid,
        Fact::End(tid) => *tid,
        Fact::Enter(tid) => *tid,
        Fact::Leave { tid, .. } => *tid,
        Fact::Push { tid, .. } => *tid,
        Fact::Pop { tid, .. } => *tid,
        Fact::Ensure { tid, .. } => *tid,
        Fact::Raise { tid, .. } => *tid,
        Fact::Calm(tid) => *tid,
        Fact::Hand { tid, .. } => *tid,
        Fact::Lend { tid, .. } => *tid,
        Fact::Own { tid, .. } => *tid,
        Fact::Free { tid, .. } => *tid,
        Fact::Checked(checked) => teller_of_checked(by, checked),
        Fact::Lost(_)
        | Fact::Back(_)
        | Fact::Meet { .. }
        | Fact::Gone(_)
        | Fact::Link { .. }
        | Fact::Unlink(_)
        | Fact::Warn(_) => by,
    }
}

/// The same of a check.
fn teller_of_checked(by: Tid, checked: &Checked) -> Tid
    ensures { result ≡ writing.teller_of_checked by checked.now }
{
    match checked {
        Checked::Local { tid, .. } => *tid,
        Checked::Pending { tid, .. } => *tid,
        Checked::Length { .. } => by,
    }
}

/// Whether the fact has a text.
pub fn is_told(setup: &Setup, fact: &Fact) -> bool
    ensures { result ≡ texts.is_told setup.now fact.now }
{
    match fact {
        Fact::Meet { class, .. } => is_class(setup, *class),
        Fact::Gone(_) => false,
        _ => true,
    }
}

/// The word for the kind of references.
fn kind_word(kind: Kind) -> &'static str
    ensures { result.now ≡ texts.kind_word kind }
{
    match kind {
        Kind::Local => "local",
        Kind::Global => "global",
        Kind::Weak => "weak",
    }
}

/// The word for the family.
fn family_word(family: Family) -> &'static str
    ensures { result.now ≡ texts.family_word family }
{
    match family {
        Family::Elements(ItemType::Of(primitive)) => array_word(primitive),
        Family::Elements(ItemType::Float) => "floats",
        Family::Elements(ItemType::Double) => "doubles",
        Family::Chars => "string",
        Family::UtfChars => "utf",
        Family::ArrayCritical => "critical",
        Family::StringCritical => "critical-string",
    }
}

/// The word for arrays of the type.
fn array_word(primitive: Primitive) -> &'static str
    ensures { result.now ≡ texts.array_word primitive }
{
    match primitive {
        Primitive::Boolean => "booleans",
        Primitive::Byte => "bytes",
        Primitive::Char => "chars",
        Primitive::Short => "shorts",
        Primitive::Int => "ints",
        Primitive::Long => "longs",
    }
}

/// The word for the kind whose class stands so far behind those of the setup.
fn own_word(place: u32) -> &'static str
    ensures { result.now ≡ texts.own_word place }
{
    match place {
        0 => "object",
        1 => "throwable",
        2 => "class",
        3 => "array-class",
        4 => "floats",
        _ => "doubles",
    }
}

/// Writes a space and the word for the class.
fn push_class(out: &mut String, setup: &Setup, class: u32) -> Result<(), AllocError>
    ensures { OnOk result (string_bytes out.new
        ≡ appended (string_bytes out.old) (texts.class_word setup.now class ∷ [])) }
{
    let count = setup.class_count();
    if class < count {
        push::natural(out, class)
    } else {
        push::word(out, own_word(class - count))
    }
}

/// Writes the fact's word and the object that was kept.
fn with_kept(out: &mut String, word: &str, kept: Option<ObjId>) -> Result<(), AllocError>
    ensures written { OnOk result (string_bytes out.new
        ≡ appended (string_bytes out.old) (word.now ∷ kept_text kept ∷ [])) }
    ensures fits { OnOk result (FitsKept kept) }
{
    push::word(out, word)?;
    push::kept(out, kept)
}

/// Writes the fact's word and the object.
fn with_object(out: &mut String, word: &str, object: ObjId) -> Result<(), AllocError>
    ensures written { OnOk result (string_bytes out.new
        ≡ appended (string_bytes out.old) (word.now ∷ object_text object ∷ [])) }
    ensures fits { OnOk result (FitsObject object) }
{
    push::word(out, word)?;
    push::object(out, object)
}

/// Writes the fact's word and the number.
fn with_natural(out: &mut String, word: &str, n: u32) -> Result<(), AllocError>
    ensures written { OnOk result (string_bytes out.new
        ≡ appended (string_bytes out.old) (word.now ∷ decimal n ∷ [])) }
    ensures fits { OnOk result (n < 2 ^ 32) }
{
    push::word(out, word)?;
    push::natural(out, n)
}

/// Writes that the thread was handed a reference.
fn push_handed(out: &mut String, kind: Kind, object: ObjId) -> Result<(), AllocError>
    ensures written { OnOk result (string_bytes out.new ≡ appended (string_bytes out.old)
        (codes "got" ∷ texts.kind_word kind ∷ object_text object ∷ [])) }
    ensures fits { OnOk result (FitsObject object) }
{
    push::word(out, "got")?;
    push::word(out, kind_word(kind))?;
    push::object(out, object)
}

/// Writes that a reference ended.
fn push_lost(out: &mut String, reference: Ref) -> Result<(), AllocError>
    ensures written { OnOk result (string_bytes out.new ≡ appended (string_bytes out.old)
        (codes "lost" ∷ ref_text reference ∷ [])) }
    ensures fits { OnOk result (FitsRef reference) }
{
    push::word(out, "lost")?;
    push::reference(out, reference)
}

/// Writes that the thread was lent a buffer.
fn push_lent(
    out: &mut String,
    family: Family,
    object: ObjId,
    via: Ref,
    length: u32,
) -> Result<(), AllocError>
    ensures written { OnOk result (string_bytes out.new ≡ appended (string_bytes out.old)
        (codes "lent" ∷ texts.family_word family ∷ object_text object ∷ ref_text via ∷ decimal length ∷ [])) }
    ensures fits { OnOk result (FitsObject object × FitsRef via × (length < 2 ^ 32)) }
{
    push::word(out, "lent")?;
    push::word(out, family_word(family))?;
    push::object(out, object)?;
    push::reference(out, via)?;
    push::natural(out, length)
}

/// Writes that a buffer was given back.
fn push_gave(out: &mut String, buffer: BufId) -> Result<(), AllocError>
    ensures written { OnOk result (string_bytes out.new ≡ appended (string_bytes out.old)
        (codes "gave" ∷ buf_text buffer ∷ [])) }
    ensures fits { OnOk result (FitsBuf buffer) }
{
    push::word(out, "gave")?;
    push::buffer(out, buffer)
}

/// Writes that an object was met.
fn push_met(out: &mut String, setup: &Setup, class: u32, length: u32) -> Result<(), AllocError>
    ensures written { OnOk result (string_bytes out.new ≡ appended (string_bytes out.old)
        (codes "met" ∷ texts.class_word setup.now class ∷ decimal length ∷ [])) }
    ensures fits { OnOk result ((class < 2 ^ 32) × (length < 2 ^ 32)) }
{
    push::word(out, "met")?;
    push_class(out, setup, class)?;
    push::natural(out, length)
}

/// Writes that a native method is linked.
fn push_linked(out: &mut String, class: u32, native: u32) -> Result<(), AllocError>
    ensures written { OnOk result (string_bytes out.new ≡ appended (string_bytes out.old)
        (codes "linked" ∷ decimal class ∷ decimal native ∷ [])) }
    ensures fits { OnOk result ((class < 2 ^ 32) × (native < 2 ^ 32)) }
{
    push::word(out, "linked")?;
    push::natural(out, class)?;
    push::natural(out, native)
}

/// Writes what a local reference names.
fn push_local(out: &mut String, n: u64, object: Option<ObjId>) -> Result<(), AllocError>
    ensures written { OnOk result (string_bytes out.new ≡ appended (string_bytes out.old)
        (codes "local" ∷ decimal n ∷ kept_text object ∷ [])) }
    ensures fits { OnOk result ((n < 2 ^ 64) × FitsKept object) }
{
    push::word(out, "local")?;
    push::number(out, n)?;
    push::kept(out, object)
}

/// Writes how long an object is.
fn push_length(out: &mut String, object: ObjId, length: u32) -> Result<(), AllocError>
    ensures written { OnOk result (string_bytes out.new ≡ appended (string_bytes out.old)
        (codes "length" ∷ object_text object ∷ decimal length ∷ [])) }
    ensures fits { OnOk result (FitsObject object × (length < 2 ^ 32)) }
{
    push::word(out, "length")?;
    push::object(out, object)?;
    push::natural(out, length)
}

/// Writes the words of a check.
fn push_checked(out: &mut String, checked: &Checked) -> Result<(), AllocError>
    ensures written { OnOk result (string_bytes out.new ≡ appended (string_bytes out.old) (checked_words checked.now)) }
    ensures fits { OnOk result (FitsChecked checked.now) }
{
    match checked {
        Checked::Local { n, object, .. } => push_local(out, *n, *object),
        Checked::Pending { object, .. } => with_kept(out, "pending", *object),
        Checked::Length { object, length } => push_length(out, *object, *length),
    }
}

/// Writes the words of the fact, each behind a space. Of an object that is gone it writes nothing.
pub fn push_fact(out: &mut String, setup: &Setup, fact: &Fact) -> Result<(), AllocError>
    ensures written { OnOk result (string_bytes out.new
        ≡ appended (string_bytes out.old) (fact_words setup.now fact.now)) }
    ensures fits { OnOk result (FitsFact fact.now) }
{
    match fact {
        Fact::Begin(_) => push::word(out, "begins"),
        Fact::End(_) => push::word(out, "ends"),
        Fact::Enter(_) => push::word(out, "enters"),
        Fact::Leave { kept, .. } => with_kept(out, "leaves", *kept),
        Fact::Push { room, .. } => with_natural(out, "pushed", *room),
        Fact::Pop { kept, .. } => with_kept(out, "popped", *kept),
        Fact::Ensure { room, .. } => with_natural(out, "ensured", *room),
        Fact::Raise { object, .. } => with_object(out, "raised", *object),
        Fact::Calm(_) => push::word(out, "calmed"),
        Fact::Hand { kind, object, .. } => push_handed(out, *kind, *object),
        Fact::Lost(reference) => push_lost(out, *reference),
        Fact::Lend {
            family,
            object,
            via,
            length,
            ..
        } => push_lent(out, *family, *object, *via, *length),
        Fact::Back(buffer) => push_gave(out, *buffer),
        Fact::Own { object, .. } => with_object(out, "owns", *object),
        Fact::Free { object, .. } => with_object(out, "freed", *object),
        Fact::Meet { class, length } => push_met(out, setup, *class, *length),
        Fact::Gone(_) => Ok(()),
        Fact::Link { class, native } => push_linked(out, *class, *native),
        Fact::Unlink(class) => with_natural(out, "unlinked", *class),
        Fact::Warn(home) => with_natural(out, "warned", *home),
        Fact::Checked(checked) => push_checked(out, checked),
    }
}

/// Writes the words of objects that are gone.
pub fn push_gone(out: &mut String, objects: &[ObjId]) -> Result<(), AllocError>
    ensures written { OnOk result (string_bytes out.new
        ≡ appended (string_bytes out.old) (codes "gone" ∷ map object_text objects.now)) }
    ensures fits { OnOk result (AllByRecursion FitsObject objects.now) }
{
    push::word(out, "gone")?;
    let mut rest = objects;
    while let Some((object, later)) = rest.split_first() {
        push::object(out, *object)?;
        rest = later;
    }
    Ok(())
}

/// Writes the words of the bounds.
pub fn push_bounds(out: &mut String, bounds: &Bounds) -> Result<(), AllocError>
    ensures written { OnOk result (string_bytes out.new ≡ appended (string_bytes out.old)
        (codes "bounds" ∷ signed_decimal bounds.now.capacity ∷ signed_decimal bounds.now.length
        ∷ signed_decimal bounds.now.items ∷ [])) }
    ensures fits { OnOk result (FitsSigned w32 bounds.now.capacity × FitsSigned w32 bounds.now.length
        × FitsSigned w32 bounds.now.items) }
{
    push::word(out, "bounds")?;
    push::small_signed(out, bounds.capacity)?;
    push::small_signed(out, bounds.length)?;
    push::small_signed(out, bounds.items)
}
