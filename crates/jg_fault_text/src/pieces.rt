//! A text of several pieces.

ghost use Rattle.std.specs.Prelude.{◌≡◌, ◌++◌, OnOk, flat_map, string_bytes};
ghost use Rattle.jg_fault_text.specs.Lines.{piece_text, Adds};

use jg_denial_text::push_quoted;
use jg_text::push_number;
use std::alloc::AllocError;

/// A piece of a text.
#[derive(Clone, Copy)]
pub enum Piece<'a> {
    /// Words of the program.
    Text(&'static str),
    /// What an input wrote.
    Quote(&'a [u8]),
    /// A number, in decimal digits.
    Number(usize),
}

fn push_piece(out: &mut String, piece: &Piece<'_>) -> Result<(), AllocError>
    ensures { OnOk result (string_bytes out.new ≡ string_bytes out.old ++ piece_text piece.now) }
{
    match piece {
        Piece::Text(text) => out.push_str(text),
        Piece::Quote(bytes) => push_quoted(out, bytes),
        Piece::Number(n) => push_number(out, *n as u64),
    }
}

/// Writes the pieces one after the other.
pub fn push_pieces(out: &mut String, pieces: &[Piece<'_>]) -> Result<(), AllocError>
    ensures text { OnOk result (string_bytes out.new ≡ string_bytes out.old ++ flat_map piece_text pieces.now) }
    ensures adds { OnOk result (Adds (string_bytes out.old) (string_bytes out.new)) }
{
    for piece in pieces {
        push_piece(out, piece)?;
    }
    Ok(())
}
