//! Operands, one to three of them.

ghost use Rattle.std.specs.Prelude.{◌≡◌, ◌++◌, ◌∷◌, [], ◌<◌, IfOk, IfErr, OnOk, MatchOption, string_bytes};
ghost use Rattle.std.specs.Option.{option_copied};
ghost use Rattle.jg_text.specs.Kinds.{OperandKind};
ghost use Rattle.jg_text.specs.Words.{SpellsOperand};
ghost use Rattle.jg_text.specs.Faults.{fields};
ghost use Rattle.jg_text.specs.Pieces.{rest_fields, after_spaces, IsKindFault, IsOperandFault};

use crate::digits::push_signed;
use crate::fault::ScriptFault;
use crate::list::{push_items, read_items};
use crate::name::read_name;
use crate::number::{cut_at, signed_number, small_signed_number};
use crate::word::{push_buf, push_field, push_ref, read_buf, read_field, read_ref};
use jg_words::{BufId, FieldId, Items, Name, Ref};
use std::alloc::{AllocError, Global};

/// A value that stands as an operand in a line, with one spelling.
pub trait OperandText: Sized + Drop {
    ghost use Rattle.std.specs.Prelude.{ℕ, List};
    ghost use Rattle.jg_text.specs.Kinds.{OperandKind};

    // Which kind of operand it is, how a value is spelt, and which values the type can hold.
    ghost kind: { OperandKind };

    ghost spelt: { Self → List ℕ };

    ghost fits: { Self → Type 0 };

    /// The value that the text spells; else `BadOperand`, or `NoMemory`.
    fn read(alloc: Global, text: &[u8]) -> Result<Self, ScriptFault>
        ensures ok { IfOk result (λ a. (text.now ≡ spelt a) × fits a) }
        ensures kind { IfOk result (λ a. SpellsOperand kind text.now) }
        ensures err { IfErr result (IsKindFault kind text.now) };

    /// Writes its spelling.
    fn write(&self, out: &mut String) -> Result<(), AllocError>
        ensures { OnOk result (string_bytes out.new ≡ string_bytes out.old ++ spelt self.now) };
}

impl OperandText for Ref {
    ghost use Rattle.jg_text.specs.Kinds.{Reference};
    ghost use Rattle.jg_text.specs.Words.{ref_text, FitsRef};

    ghost kind = { Reference };

    ghost spelt = { ref_text };

    ghost fits = { FitsRef };

    fn read(_alloc: Global, text: &[u8]) -> Result<Self, ScriptFault> {
        read_ref(text).ok_or(ScriptFault::BadOperand)
    }

    fn write(&self, out: &mut String) -> Result<(), AllocError> {
        push_ref(out, *self)
    }
}

impl OperandText for i32 {
    ghost use Rattle.std.specs.Prelude.{FitsSigned};
    ghost use Rattle.std.specs.Int.{w32};
    ghost use Rattle.std.specs.Fmt.{signed_decimal};
    ghost use Rattle.jg_text.specs.Kinds.{Number};

    ghost kind = { Number };

    ghost spelt = { signed_decimal };

    ghost fits = { FitsSigned w32 };

    fn read(_alloc: Global, text: &[u8]) -> Result<Self, ScriptFault> {
        small_signed_number(text).ok_or(ScriptFault::BadOperand)
    }

    fn write(&self, out: &mut String) -> Result<(), AllocError> {
        push_signed(out, i64::from(*self))
    }
}

impl OperandText for i64 {
    ghost use Rattle.std.specs.Prelude.{FitsSigned};
    ghost use Rattle.std.specs.Int.{w64};
    ghost use Rattle.std.specs.Fmt.{signed_decimal};
    ghost use Rattle.jg_text.specs.Kinds.{LongNumber};

    ghost kind = { LongNumber };

    ghost spelt = { signed_decimal };

    ghost fits = { FitsSigned w64 };

    fn read(_alloc: Global, text: &[u8]) -> Result<Self, ScriptFault> {
        signed_number(text).ok_or(ScriptFault::BadOperand)
    }

    fn write(&self, out: &mut String) -> Result<(), AllocError> {
        push_signed(out, *self)
    }
}

impl OperandText for Items {
    ghost use Rattle.jg_text.specs.Kinds.{Numbers};
    ghost use Rattle.jg_text.specs.Words.{items_text, FitsItems};

    ghost kind = { Numbers };

    ghost spelt = { items_text };

    ghost fits = { FitsItems };

    fn read(alloc: Global, text: &[u8]) -> Result<Self, ScriptFault> {
        read_items(alloc, text)
    }

    fn write(&self, out: &mut String) -> Result<(), AllocError> {
        push_items(out, self.as_slice())
    }
}

impl OperandText for Name {
    ghost use Rattle.jg_words.specs.Name.{IsName};
    ghost use Rattle.jg_text.specs.Kinds.{Name as name_kind};
    ghost use Rattle.jg_text.specs.Words.{name_text};

    ghost kind = { name_kind };

    ghost spelt = { name_text };

    ghost fits = { IsName };

    fn read(alloc: Global, text: &[u8]) -> Result<Self, ScriptFault> {
        read_name(alloc, text)
    }

    fn write(&self, out: &mut String) -> Result<(), AllocError> {
        out.push_str(self.as_str())
    }
}

impl OperandText for FieldId {
    ghost use Rattle.jg_text.specs.Kinds.{Field};
    ghost use Rattle.jg_text.specs.Words.{field_text, FitsField};

    ghost kind = { Field };

    ghost spelt = { field_text };

    ghost fits = { FitsField };

    fn read(_alloc: Global, text: &[u8]) -> Result<Self, ScriptFault> {
        read_field(text).ok_or(ScriptFault::BadOperand)
    }

    fn write(&self, out: &mut String) -> Result<(), AllocError> {
        push_field(out, *self)
    }
}

impl OperandText for BufId {
    ghost use Rattle.jg_text.specs.Kinds.{Buffer};
    ghost use Rattle.jg_text.specs.Words.{buf_text, FitsBuf};

    ghost kind = { Buffer };

    ghost spelt = { buf_text };

    ghost fits = { FitsBuf };

    fn read(_alloc: Global, text: &[u8]) -> Result<Self, ScriptFault> {
        read_buf(text).ok_or(ScriptFault::BadOperand)
    }

    fn write(&self, out: &mut String) -> Result<(), AllocError> {
        push_buf(out, *self)
    }
}

/// The first field of a line, and what stands behind the space after it, where there is one.
pub fn cut(text: &[u8]) -> (&[u8], Option<&[u8]>)
    ensures { MatchOption result.1 (fields text.now ≡ result.0.now ∷ []) (λ rest. fields text.now ≡ result.0.now
        ∷ fields rest.now) }
{
    match cut_at(b' ', text) {
        Some((front, back)) => (front, Some(back)),
        None => (text, None),
    }
}

/// The first field of what is left, and what is left behind it, where something is left.
pub fn next_field(rest: Option<&[u8]>) -> Option<(&[u8], Option<&[u8]>)>
    ensures { MatchOption result (rest_fields (option_copied rest.entry) ≡ [])
        (λ r. rest_fields (option_copied rest.entry) ≡ r.0.now ∷ rest_fields (option_copied r.1)) }
{
    match rest {
        Some(text) => Some(cut(text)),
        None => None,
    }
}

/// Nothing is left.
pub fn read_none(rest: Option<&[u8]>) -> Result<(), ScriptFault>
    ensures ok { OnOk result (rest_fields (option_copied rest.entry) ≡ []) }
    ensures err { IfErr result (IsOperandFault [] (rest_fields (option_copied rest.entry))) }
{
    match next_field(rest) {
        None => Ok(()),
        Some(_) => Err(ScriptFault::BadOperand),
    }
}

/// The operand that the one field left spells.
pub fn read_one<A: OperandText>(alloc: Global, rest: Option<&[u8]>) -> Result<A, ScriptFault>
    ensures ok { IfOk result (λ a. (A.spelt a ∷ [] ≡ rest_fields (option_copied rest.entry)) × A.fits a) }
    ensures err { IfErr result (IsOperandFault (A.kind ∷ []) (rest_fields (option_copied rest.entry))) }
{
    // What spells an operand has no space, so that it is one field.
    match rest {
        Some(text) => A::read(alloc, text),
        None => Err(ScriptFault::BadOperand),
    }
}

/// The operands that the two fields left spell.
pub fn read_two<A: OperandText, B: OperandText>(
    alloc: Global,
    rest: Option<&[u8]>,
) -> Result<(A, B), ScriptFault>
    ensures ok { IfOk result (λ r. (A.spelt r.0 ∷ B.spelt r.1 ∷ [] ≡ rest_fields (option_copied rest.entry))
        × A.fits r.0 × B.fits r.1) }
    ensures err { IfErr result (IsOperandFault (A.kind ∷ B.kind ∷ []) (rest_fields (option_copied rest.entry))) }
{
    let Some((first, rest)) = next_field(rest) else {
        return Err(ScriptFault::BadOperand);
    };
    let a = A::read(alloc, first)?;
    let b = read_one(alloc, rest)?;
    Ok((a, b))
}

/// The operands that the three fields left spell.
pub fn read_three<A: OperandText, B: OperandText, C: OperandText>(
    alloc: Global,
    rest: Option<&[u8]>,
) -> Result<(A, B, C), ScriptFault>
    ensures ok { IfOk result (λ r. (A.spelt r.0 ∷ B.spelt r.1 ∷ C.spelt r.2 ∷ []
        ≡ rest_fields (option_copied rest.entry)) × A.fits r.0 × B.fits r.1 × C.fits r.2) }
    ensures err { IfErr result (IsOperandFault (A.kind ∷ B.kind ∷ C.kind ∷ [])
        (rest_fields (option_copied rest.entry))) }
{
    let Some((first, rest)) = next_field(rest) else {
        return Err(ScriptFault::BadOperand);
    };
    let a = A::read(alloc, first)?;
    let (b, c) = read_two(alloc, rest)?;
    Ok((a, b, c))
}

/// Writes the operand after a space.
pub fn write_one<A: OperandText>(out: &mut String, a: &A) -> Result<(), AllocError>
    ensures { OnOk result (string_bytes out.new ≡ string_bytes out.old ++ after_spaces (A.spelt a.now ∷ [])) }
{
    out.push(' ')?;
    a.write(out)
}

/// Writes the operands, each after a space.
pub fn write_two<A: OperandText, B: OperandText>(
    out: &mut String,
    a: &A,
    b: &B,
) -> Result<(), AllocError>
    ensures { OnOk result (string_bytes out.new ≡ string_bytes out.old
        ++ after_spaces (A.spelt a.now ∷ B.spelt b.now ∷ [])) }
{
    write_one(out, a)?;
    write_one(out, b)
}

/// Writes the operands, each after a space.
pub fn write_three<A: OperandText, B: OperandText, C: OperandText>(
    out: &mut String,
    a: &A,
    b: &B,
    c: &C,
) -> Result<(), AllocError>
    ensures { OnOk result (string_bytes out.new ≡ string_bytes out.old
        ++ after_spaces (A.spelt a.now ∷ B.spelt b.now ∷ C.spelt c.now ∷ [])) }
{
    write_two(out, a, b)?;
    write_one(out, c)
}
