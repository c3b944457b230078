//! A line of a record, cut into its event, its answer and its note.

ghost use Rattle.std.specs.Prelude.{◌↔◌, ◌<◌, length, IsTrue, MatchOption};
ghost use Rattle.std.specs.Option.{option_copied};
ghost use Rattle.jg_record.specs.Parts.{AreParts, CutsAt, IsApart, IsFirstMark, NoMark};

use memchr::memchr;

/// A line's parts.
#[derive(Clone, Copy)]
pub struct Parts<'a> {
    /// What the line says.
    pub event: &'a [u8],
    /// The answer that it tells, if it tells one.
    pub answer: Option<&'a [u8]>,
    /// What was noted, if anything.
    pub note: Option<&'a [u8]>,
}

/// Whether the byte at this place stands between two spaces.
fn is_mark(text: &[u8], place: usize) -> bool
    requires { place < length text.now }
    ensures { IsTrue result ↔ IsApart text.now place }
{
    place > 0 && text[place - 1] == b' ' && place + 1 < text.len() && text[place + 1] == b' '
}

/// The first place at which the mark stands between two spaces.
fn find_mark(mark: u8, text: &[u8]) -> Option<usize>
    ensures { MatchOption result (NoMark mark text.now (length text.now)) (IsFirstMark mark text.now) }
{
    let mut from = 0;
    while from < text.len() {
        let (_, rest) = text.split_at(from);
        let Some(ahead) = memchr(mark, rest) else {
            return None;
        };
        let place = from + ahead;
        if is_mark(text, place) {
            return Some(place);
        }
        from = place + 1;
    }
    None
}

/// What stands before the first mark and the spaces round it, and what stands behind these.
fn cut_mark(mark: u8, text: &[u8]) -> (&[u8], Option<&[u8]>)
    ensures { CutsAt mark text.now result.0.now (option_copied result.1) }
{
    match find_mark(mark, text) {
        None => (text, None),
        Some(place) => {
            let (front, _) = text.split_at(place - 1);
            let (_, back) = text.split_at(place + 2);
            (front, Some(back))
        }
    }
}

/// The parts of the line: its note stands behind the first ` @ `, and its answer behind the first ` = ` before that.
pub fn cut_line(line: &[u8]) -> Parts<'_>
    ensures { AreParts line.now result.event.now (option_copied result.answer) (option_copied result.note) }
{
    let (front, note) = cut_mark(b'@', line);
    let (event, answer) = cut_mark(b'=', front);
    Parts {
        event,
        answer,
        note,
    }
}
