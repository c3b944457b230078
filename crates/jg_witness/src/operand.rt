//! The operands of a question as they stand at the boundary.

ghost use Rattle.std.specs.Prelude.{◌≡◌};

use jg_judge::Argument;

/// An operand of a question.
#[derive(Clone, Copy)]
pub enum Operand {
    /// The machine's word for a reference; 0 is `NULL`.
    Word(u64),
    /// No reference.
    Other(Argument),
}
