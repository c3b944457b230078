//! Texts are copied to C.

ghost use Rattle.jg_c.specs.Lines.{Writes};

/// Copies as many bytes of the text as there is room for, and answers how long it is.
pub(crate) fn copy_out(text: &[u8], out: &mut [u8]) -> i64
    ensures { Writes text.now out.old out.new result }
{
    let n = text.len().min(out.len());
    out[..n].copy_from_slice(&text[..n]);
    text.len() as i64
}
