//! What is so of all lines. These functions do nothing: their contracts are the laws.

ghost use Rattle.jg_text.specs.Laws.{IsSpeltOnce, IsFaultless, IsBegunOnce, IsShort, IsOneLine};

/// A line spells one thread, environment and call at most.
pub fn spelt_at_most_once()
    ensures { IsSpeltOnce }
{}

/// A line that spells a call has no fault.
pub fn spelt_has_no_fault()
    ensures { IsFaultless }
{}

/// What begins with a call and a space begins with one such call alone, whatever follows.
pub fn begins_with_one_call()
    ensures { IsBegunOnce }
{}

/// A call's line has at most 22,000 bytes, so that each entry's line is within a line's bound.
pub fn call_is_short()
    ensures { IsShort }
{}

/// An entry's text is one printable line of at most 65,536 bytes.
pub fn entry_is_one_line()
    ensures { IsOneLine }
{}
