//! Words of a record, written.

ghost use Rattle.std.specs.Prelude.{◌≡◌, ◌<◌, ◌^◌, ◌++◌, ◌∷◌, OnOk, FitsSigned, string_bytes};
ghost use Rattle.std.specs.Int.{w32, w64};
ghost use Rattle.std.specs.Fmt.{decimal, signed_decimal};
ghost use Rattle.jg_text.specs.Words.{FitsBuf, FitsEnv, FitsRef, buf_text, env_text, ref_text};
ghost use Rattle.jg_record.specs.Words.{FitsKept, FitsObject, FitsStated, kept_text, object_text, stated_text};

use jg_text::{push_buf, push_env, push_number, push_ref, push_signed};
use jg_words::{BufId, EnvId, ObjId, Ref};
use std::alloc::AllocError;

/// Writes the object's spelling.
pub fn push_object(out: &mut String, object: ObjId) -> Result<(), AllocError>
    ensures written { OnOk result (string_bytes out.new ≡ string_bytes out.old ++ object_text object) }
    ensures fits { OnOk result (FitsObject object) }
{
    out.push('O')?;
    push_number(out, object.0)
}

/// Writes a space and the word.
pub fn word(out: &mut String, text: &str) -> Result<(), AllocError>
    ensures { OnOk result (string_bytes out.new ≡ string_bytes out.old ++ 32 ∷ text.now) }
{
    out.push(' ')?;
    out.push_str(text)
}

/// Writes a space and the number.
pub fn number(out: &mut String, n: u64) -> Result<(), AllocError>
    ensures written { OnOk result (string_bytes out.new ≡ string_bytes out.old ++ 32 ∷ decimal n) }
    ensures fits { OnOk result (n < 2 ^ 64) }
{
    out.push(' ')?;
    push_number(out, n)
}

/// Writes a space and the number.
pub fn natural(out: &mut String, n: u32) -> Result<(), AllocError>
    ensures written { OnOk result (string_bytes out.new ≡ string_bytes out.old ++ 32 ∷ decimal n) }
    ensures fits { OnOk result (n < 2 ^ 32) }
{
    number(out, u64::from(n))
}

/// Writes a space and the number.
pub fn signed(out: &mut String, n: i64) -> Result<(), AllocError>
    ensures written { OnOk result (string_bytes out.new ≡ string_bytes out.old ++ 32 ∷ signed_decimal n) }
    ensures fits { OnOk result (FitsSigned w64 n) }
{
    out.push(' ')?;
    push_signed(out, n)
}

/// Writes a space and the number.
pub fn small_signed(out: &mut String, n: i32) -> Result<(), AllocError>
    ensures written { OnOk result (string_bytes out.new ≡ string_bytes out.old ++ 32 ∷ signed_decimal n) }
    ensures fits { OnOk result (FitsSigned w32 n) }
{
    signed(out, i64::from(n))
}

/// Writes a space and the object.
pub fn object(out: &mut String, o: ObjId) -> Result<(), AllocError>
    ensures written { OnOk result (string_bytes out.new ≡ string_bytes out.old ++ 32 ∷ object_text o) }
    ensures fits { OnOk result (FitsObject o) }
{
    out.push(' ')?;
    push_object(out, o)
}

/// Writes a space and the object, or `null` for none.
pub fn kept(out: &mut String, object_kept: Option<ObjId>) -> Result<(), AllocError>
    ensures written { OnOk result (string_bytes out.new ≡ string_bytes out.old ++ 32 ∷ kept_text object_kept) }
    ensures fits { OnOk result (FitsKept object_kept) }
{
    match object_kept {
        None => word(out, "null"),
        Some(o) => object(out, o),
    }
}

/// Writes a space and the number, or `-` for none.
pub fn stated(out: &mut String, number_stated: Option<u32>) -> Result<(), AllocError>
    ensures written { OnOk result (string_bytes out.new ≡ string_bytes out.old ++ 32 ∷ stated_text number_stated) }
    ensures fits { OnOk result (FitsStated number_stated) }
{
    match number_stated {
        None => word(out, "-"),
        Some(n) => natural(out, n),
    }
}

/// Writes a space and the reference.
pub fn reference(out: &mut String, r: Ref) -> Result<(), AllocError>
    ensures written { OnOk result (string_bytes out.new ≡ string_bytes out.old ++ 32 ∷ ref_text r) }
    ensures fits { OnOk result (FitsRef r) }
{
    out.push(' ')?;
    push_ref(out, r)
}

/// Writes a space and the buffer.
pub fn buffer(out: &mut String, b: BufId) -> Result<(), AllocError>
    ensures written { OnOk result (string_bytes out.new ≡ string_bytes out.old ++ 32 ∷ buf_text b) }
    ensures fits { OnOk result (FitsBuf b) }
{
    out.push(' ')?;
    push_buf(out, b)
}

/// Writes a space and the environment, or `-` for none.
pub fn environment(out: &mut String, env: Option<EnvId>) -> Result<(), AllocError>
    ensures written { OnOk result (string_bytes out.new ≡ string_bytes out.old ++ 32 ∷ env_text env) }
    ensures fits { OnOk result (FitsEnv env) }
{
    out.push(' ')?;
    push_env(out, env)
}
