//! The line and the column of a place in a setup's text. Both count from 1, and a column counts characters.

ghost use Rattle.std.specs.Prelude.{◌≡◌, ◌≤◌, ◌+◌, OnOk, string_bytes};
ghost use Rattle.jg_fault_text.specs.Setups.{AddsAt, column_behind, line_behind, next_column};

use crate::pieces::{Piece, push_pieces};
use std::alloc::AllocError;

fn line_behind(front: &[u8]) -> usize
    ensures { result ≡ line_behind front.now }
{
    front.iter().filter(|byte| **byte == b'\n').count() + 1
}

/// The column behind a byte that stands at this column.
fn next_column(column: usize, byte: u8) -> usize
    requires { column + 1 ≤ 18446744073709551615 }
    ensures column { result ≡ next_column column byte }
    ensures small { result ≤ column + 1 }
{
    match byte {
        b'\n' => 1,
        // It goes on with a character.
        0x80..=0xBF => column,
        _ => column + 1,
    }
}

fn column_behind(front: &[u8]) -> usize
    ensures { result ≡ column_behind front.now }
{
    let mut column = 1;
    for byte in front {
        column = next_column(column, *byte);
    }
    column
}

/// Writes a line of the place that stands behind this front of a text, and of what there is to say of it.
pub fn push_at(out: &mut String, front: &[u8], words: &str) -> Result<(), AllocError>
    ensures { OnOk result (AddsAt front.now words.now (string_bytes out.old) (string_bytes out.new)) }
{
    push_pieces(
        out,
        &[
            Piece::Text("line "),
            Piece::Number(line_behind(front)),
            Piece::Text(", column "),
            Piece::Number(column_behind(front)),
            Piece::Text(": "),
        ],
    )?;
    out.push_str(words)?;
    out.push_str("\n")
}
