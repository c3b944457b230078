//! The words of a record, each with one spelling.

ghost use Rattle.std.specs.Prelude.{◌≡◌, ◌≢◌, ◌<◌, ◌^◌, ℕ, Option, IfSome, IfNone};
ghost use Rattle.std.specs.Fmt.{decimal};
ghost use Rattle.jg_words.specs.declared.object.ObjId.{ObjId as ObjIdOf};
ghost use Rattle.jg_record.specs.Words as words;
ghost use Rattle.jg_record.specs.Words.{FitsKept, FitsObject, FitsStated, kept_text, object_text, stated_text};

use jg_judge::OwnKind;
use jg_table_buffers::Family;
use jg_text::read_number;
use jg_words::{ItemType, Kind, ObjId, Primitive};

/// The number of at most 32 bits that the text spells.
pub fn read_natural(text: &[u8]) -> Option<u32>
    ensures some { IfSome result (λ n. text.now ≡ decimal n) }
    ensures none { IfNone result ((n : ℕ) → n < 2 ^ 32 → text.now ≢ decimal n) }
{
    match read_number(text) {
        Some(n) if n < 0x1_0000_0000 => Some(n as u32),
        _ => None,
    }
}

/// The object that the text spells.
pub fn read_object(text: &[u8]) -> Option<ObjId>
    ensures some { IfSome result (λ o. text.now ≡ object_text o) }
    ensures fits { IfSome result FitsObject }
    ensures none { IfNone result ((o : ObjIdOf) → FitsObject o → text.now ≢ object_text o) }
{
    let [b'O', number @ ..] = text else {
        return None;
    };
    let n = read_number(number)?;
    Some(ObjId(n))
}

/// The object that the text spells, or none where it is `null`.
pub fn read_kept(text: &[u8]) -> Option<Option<ObjId>>
    ensures some { IfSome result (λ kept. text.now ≡ kept_text kept) }
    ensures fits { IfSome result FitsKept }
    ensures none { IfNone result ((kept : Option ObjIdOf) → FitsKept kept → text.now ≢ kept_text kept) }
{
    if text == b"null".as_slice() {
        return Some(None);
    }
    match read_object(text) {
        Some(object) => Some(Some(object)),
        None => None,
    }
}

/// The number of at most 32 bits that the text spells, or none where it is `-`.
pub fn read_stated(text: &[u8]) -> Option<Option<u32>>
    ensures some { IfSome result (λ stated. text.now ≡ stated_text stated) }
    ensures none { IfNone result ((stated : Option ℕ) → FitsStated stated → text.now ≢ stated_text stated) }
{
    if text == b"-".as_slice() {
        return Some(None);
    }
    match read_natural(text) {
        Some(n) => Some(Some(n)),
        None => None,
    }
}

/// The kind of references that the word means.
pub fn kind_named(word: &[u8]) -> Option<Kind>
    ensures { result ≡ words.kind_named word.now }
{
    if word == b"local".as_slice() {
        return Some(Kind::Local);
    }
    if word == b"global".as_slice() {
        return Some(Kind::Global);
    }
    if word == b"weak".as_slice() {
        return Some(Kind::Weak);
    }
    None
}

/// The family of buffers that the word means: of copies of arrays.
pub fn family_named(word: &[u8]) -> Option<Family>
    ensures { result ≡ words.family_named word.now }
{
    if word == b"booleans".as_slice() {
        return Some(Family::Elements(ItemType::Of(Primitive::Boolean)));
    }
    if word == b"bytes".as_slice() {
        return Some(Family::Elements(ItemType::Of(Primitive::Byte)));
    }
    if word == b"chars".as_slice() {
        return Some(Family::Elements(ItemType::Of(Primitive::Char)));
    }
    if word == b"shorts".as_slice() {
        return Some(Family::Elements(ItemType::Of(Primitive::Short)));
    }
    if word == b"ints".as_slice() {
        return Some(Family::Elements(ItemType::Of(Primitive::Int)));
    }
    if word == b"longs".as_slice() {
        return Some(Family::Elements(ItemType::Of(Primitive::Long)));
    }
    if word == b"floats".as_slice() {
        return Some(Family::Elements(ItemType::Float));
    }
    if word == b"doubles".as_slice() {
        return Some(Family::Elements(ItemType::Double));
    }
    if word == b"string".as_slice() {
        return Some(Family::Chars);
    }
    if word == b"utf".as_slice() {
        return Some(Family::UtfChars);
    }
    if word == b"critical".as_slice() {
        return Some(Family::ArrayCritical);
    }
    if word == b"critical-string".as_slice() {
        return Some(Family::StringCritical);
    }
    None
}

/// The kind of objects whose class no setup states that the word means.
pub fn own_named(word: &[u8]) -> Option<OwnKind>
    ensures { result ≡ words.own_named word.now }
{
    if word == b"object".as_slice() {
        return Some(OwnKind::Object);
    }
    if word == b"throwable".as_slice() {
        return Some(OwnKind::Throwable);
    }
    if word == b"class".as_slice() {
        return Some(OwnKind::Class);
    }
    if word == b"array-class".as_slice() {
        return Some(OwnKind::ClassOfArrays);
    }
    if word == b"floats".as_slice() {
        return Some(OwnKind::Floats);
    }
    if word == b"doubles".as_slice() {
        return Some(OwnKind::Doubles);
    }
    None
}
