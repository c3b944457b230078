//! Threads, environments, references, buffers and fields, each with one spelling.

ghost use Rattle.std.specs.Prelude.{◌≡◌, ◌<◌, ◌++◌, IfSome, IfNone, OnOk, string_bytes};
ghost use Rattle.jg_text.specs.Words.{tid_text, env_text, kind_letter, ref_text, buf_text, field_text, FitsTid, FitsEnv, FitsRef, FitsBuf, FitsField, SpellsOperand};
ghost use Rattle.jg_text.specs.Kinds.{Reference, Field, Buffer};
ghost use Rattle.jg_text.specs.Pieces.{IsNoTid, IsNoEnv};

use crate::digits::{push_lettered, push_number};
use crate::number::{dotted, small_dotted, small_number};
use jg_words::{BufId, EnvId, FieldId, Kind, Ref, Tid};
use std::alloc::AllocError;

/// The thread that the text spells.
pub fn read_tid(text: &[u8]) -> Option<Tid>
    ensures some { IfSome result (λ t. text.now ≡ tid_text t) }
    ensures fits { IfSome result FitsTid }
    ensures none { IfNone result (IsNoTid text.now) }
{
    let [b'T', number @ ..] = text else {
        return None;
    };
    let n = small_number(number)?;
    Some(Tid(n))
}

/// The environment that the text spells, or none where it is `-`.
pub fn read_env(text: &[u8]) -> Option<Option<EnvId>>
    ensures some { IfSome result (λ e. text.now ≡ env_text e) }
    ensures fits { IfSome result FitsEnv }
    ensures none { IfNone result (IsNoEnv text.now) }
{
    match text {
        [b'-'] => Some(None),
        [b'E', numbers @ ..] => {
            let (tid, session) = dotted(numbers)?;
            Some(Some(EnvId {
                tid: Tid(tid),
                session,
            }))
        }
        _ => None,
    }
}

/// The reference that the text spells.
pub fn read_ref(text: &[u8]) -> Option<Ref>
    ensures some { IfSome result (λ r. text.now ≡ ref_text r) }
    ensures fits { IfSome result FitsRef }
    ensures none { IfNone result (¬ SpellsOperand Reference text.now) }
{
    let [letter, numbers @ ..] = text else {
        return None;
    };
    let kind = match letter {
        b'L' => Kind::Local,
        b'G' => Kind::Global,
        b'W' => Kind::Weak,
        _ => {
            return if text == b"null".as_slice() {
                Some(Ref::Null)
            } else {
                None
            };
        }
    };
    let (maker, n) = dotted(numbers)?;
    Some(Ref::To {
        kind,
        maker: Tid(maker),
        n,
    })
}

/// The buffer that the text spells.
pub fn read_buf(text: &[u8]) -> Option<BufId>
    ensures some { IfSome result (λ b. text.now ≡ buf_text b) }
    ensures fits { IfSome result FitsBuf }
    ensures none { IfNone result (¬ SpellsOperand Buffer text.now) }
{
    let [b'B', numbers @ ..] = text else {
        return None;
    };
    let (maker, n) = dotted(numbers)?;
    Some(BufId {
        maker: Tid(maker),
        n,
    })
}

/// The field that the text spells.
pub fn read_field(text: &[u8]) -> Option<FieldId>
    ensures some { IfSome result (λ f. text.now ≡ field_text f) }
    ensures fits { IfSome result FitsField }
    ensures none { IfNone result (¬ SpellsOperand Field text.now) }
{
    let [b'F', numbers @ ..] = text else {
        return None;
    };
    let (class, field) = small_dotted(numbers)?;
    Some(FieldId { class, field })
}

/// Writes the thread's spelling.
pub fn push_tid(out: &mut String, tid: Tid) -> Result<(), AllocError>
    ensures { OnOk result (string_bytes out.new ≡ string_bytes out.old ++ tid_text tid) }
{
    out.push('T')?;
    push_number(out, u64::from(tid.0))
}

/// Writes the environment's spelling, or `-` for none.
pub fn push_env(out: &mut String, env: Option<EnvId>) -> Result<(), AllocError>
    ensures written { OnOk result (string_bytes out.new ≡ string_bytes out.old ++ env_text env) }
    ensures fits { OnOk result (FitsEnv env) }
{
    match env {
        None => out.push('-'),
        Some(env) => push_lettered(out, b'E', u64::from(env.tid.0), env.session),
    }
}

/// The letter with which a reference of the kind begins.
fn letter_of(kind: Kind) -> u8
    ensures is { result ≡ kind_letter kind }
    ensures ascii { result < 128 }
{
    match kind {
        Kind::Local => b'L',
        Kind::Global => b'G',
        Kind::Weak => b'W',
    }
}

/// Writes the reference's spelling.
pub fn push_ref(out: &mut String, r: Ref) -> Result<(), AllocError>
    ensures written { OnOk result (string_bytes out.new ≡ string_bytes out.old ++ ref_text r) }
    ensures fits { OnOk result (FitsRef r) }
{
    match r {
        Ref::Null => out.push_str("null"),
        Ref::To { kind, maker, n } => push_lettered(out, letter_of(kind), u64::from(maker.0), n),
    }
}

/// Writes the buffer's spelling.
pub fn push_buf(out: &mut String, b: BufId) -> Result<(), AllocError>
    ensures written { OnOk result (string_bytes out.new ≡ string_bytes out.old ++ buf_text b) }
    ensures fits { OnOk result (FitsBuf b) }
{
    push_lettered(out, b'B', u64::from(b.maker.0), b.n)
}

/// Writes the field's spelling.
pub fn push_field(out: &mut String, f: FieldId) -> Result<(), AllocError>
    ensures written { OnOk result (string_bytes out.new ≡ string_bytes out.old ++ field_text f) }
    ensures fits { OnOk result (FitsField f) }
{
    push_lettered(out, b'F', u64::from(f.class), u64::from(f.field))
}
