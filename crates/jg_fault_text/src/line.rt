//! Why a line of a script is no call.

ghost use Rattle.std.specs.Prelude.{OnOk, string_bytes};
ghost use Rattle.jg_fault_text.specs.Lines.{Adds, AddsFault};

use crate::names::nearest;
use crate::pieces::{Piece, push_pieces};
use jg_text::{OperandKind, Place, ScriptFault, function_of, operands_of, place_of};
use std::alloc::AllocError;

/// What should stand at a place.
#[derive(Clone, Copy)]
enum Wanted {
    Thread,
    Environment,
    Function,
    Operand(OperandKind),
}

fn kind_noun(kind: OperandKind) -> &'static str {
    match kind {
        OperandKind::Reference => "reference",
        OperandKind::Number | OperandKind::LongNumber => "number",
        OperandKind::Numbers => "list",
        OperandKind::Name => "name",
        OperandKind::Field => "field",
        OperandKind::Buffer => "buffer",
    }
}

fn kind_words(kind: OperandKind) -> &'static str {
    match kind {
        OperandKind::Reference => "a reference such as L1.1, G1.1, W1.1 or null",
        OperandKind::Number => "a whole number of 32 bits such as 2 or -1",
        OperandKind::LongNumber => "a whole number of 64 bits such as 2 or -1",
        OperandKind::Numbers => "a list of at most 1000 whole numbers such as [1,2]",
        OperandKind::Name => "a name of 1 to 255 bytes",
        OperandKind::Field => "a field such as F15.1",
        OperandKind::Buffer => "a buffer such as B1.1",
    }
}

fn noun_of(wanted: Wanted) -> &'static str {
    match wanted {
        Wanted::Thread => "thread",
        Wanted::Environment => "environment",
        Wanted::Function => "function",
        Wanted::Operand(kind) => kind_noun(kind),
    }
}

fn words_of(wanted: Wanted) -> &'static str {
    match wanted {
        Wanted::Thread => "a thread such as T1",
        Wanted::Environment => "an environment such as E1.1, or - for none,",
        Wanted::Function => "a function of the JNI",
        Wanted::Operand(kind) => kind_words(kind),
    }
}

/// The kind of operand that should stand in the field.
fn kind_at(line: &[u8], field: usize) -> Option<OperandKind> {
    let fun = function_of(line)?;
    operands_of(fun).get(field.checked_sub(4)?).copied()
}

/// What stands from the place on.
fn from_place(line: &[u8], place: Place) -> &[u8] {
    let (_, rest) = line.split_at(place.column.saturating_sub(1).min(line.len()));
    rest
}

/// The field in front of the text.
fn first_field(text: &[u8]) -> &[u8] {
    match text.iter().position(|b| *b == b' ') {
        Some(end) => {
            let (field, _) = text.split_at(end);
            field
        }
        None => text,
    }
}

/// The field is the front of a list, without its end.
fn is_open_list(field: &[u8]) -> bool {
    matches!(field, [b'[', ..]) && !matches!(field, [.., b']'])
}

/// Where two spaces stand in a row, or one in front.
const EMPTY: &str = "an empty field; fields have one space between them";

/// Where a list is cut by a space.
const SPACED: &str = "a list has no spaces";

/// What is told of a byte that isn't printable, where it is a common slip.
fn odd_slip(line: &[u8], place: Place) -> Option<&'static str> {
    match from_place(line, place) {
        [b'\r', ..] => Some("a carriage return; a line ends with a line feed alone"),
        [b'\t', ..] => Some("a tab; fields have one space between them"),
        [0xef, 0xbb, 0xbf, ..] if place.column == 1 => {
            Some("a byte order mark; save the script without one")
        }
        _ => None,
    }
}

/// What is told of a wrong number of operands, where it comes of a common slip.
fn count_slip(line: &[u8], place: Place) -> Option<&'static str> {
    let mut operands = line.split(|b| *b == b' ').skip(3);
    if operands.any(is_open_list) {
        return Some(SPACED);
    }
    if let [b' ', ..] = from_place(line, place) {
        return Some(EMPTY);
    }
    if let [.., b' '] = line {
        return Some("a space at the line's end; fields have one space between them");
    }
    let mut operands = line.split(|b| *b == b' ').skip(3);
    if operands.any(|field| field.is_empty()) {
        return Some("an empty field stands before; fields have one space between them");
    }
    None
}

/// What is told of an operand, where it is a common slip.
fn operand_slip(text: &[u8], kind: OperandKind) -> Option<&'static str> {
    let field = first_field(text);
    if is_open_list(field) && field.len() < text.len() {
        return Some(SPACED);
    }
    match kind {
        OperandKind::Number | OperandKind::LongNumber => number_slip(field),
        _ => None,
    }
}

/// What is told of a mode's name where its number is wanted.
fn number_slip(field: &[u8]) -> Option<&'static str> {
    if field == b"JNI_COMMIT".as_slice() {
        return Some("JNI_COMMIT is no number; write 1");
    }
    if field == b"JNI_ABORT".as_slice() {
        return Some("JNI_ABORT is no number; write 2");
    }
    None
}

/// What is told of a common slip at the field in front of the text.
fn field_slip(text: &[u8], wanted: Wanted) -> Option<&'static str> {
    if let [b' ', ..] = text {
        return Some(EMPTY);
    }
    match wanted {
        Wanted::Operand(kind) => operand_slip(text, kind),
        Wanted::Thread | Wanted::Environment | Wanted::Function => None,
    }
}

/// What stands there, and what is wanted.
fn push_wanted(out: &mut String, field: &[u8], wanted: Wanted) -> Result<(), AllocError>
    ensures { OnOk result (Adds (string_bytes out.old) (string_bytes out.new)) }
{
    if field.is_empty() {
        return push_pieces(
            out,
            &[
                Piece::Text("nothing stands there, and "),
                Piece::Text(words_of(wanted)),
                Piece::Text(" is wanted"),
            ],
        );
    }
    push_pieces(
        out,
        &[
            Piece::Quote(field),
            Piece::Text(" is no "),
            Piece::Text(noun_of(wanted)),
            Piece::Text("; "),
            Piece::Text(words_of(wanted)),
            Piece::Text(" is wanted"),
        ],
    )
}

/// What stands in a function's place, with the function that may be meant.
fn push_unknown(out: &mut String, field: &[u8]) -> Result<(), AllocError>
    ensures { OnOk result (Adds (string_bytes out.old) (string_bytes out.new)) }
{
    match nearest(field) {
        Some(name) => push_pieces(
            out,
            &[
                Piece::Quote(field),
                Piece::Text(" is no function; did you mean "),
                Piece::Text(name),
                Piece::Text("?"),
            ],
        ),
        None => push_wanted(out, field, Wanted::Function),
    }
}

/// What stands at a field that is wrong of itself.
fn push_field(out: &mut String, text: &[u8], wanted: Wanted) -> Result<(), AllocError>
    ensures { OnOk result (Adds (string_bytes out.old) (string_bytes out.new)) }
{
    if let Some(slip) = field_slip(text, wanted) {
        return push_pieces(out, &[Piece::Text(slip)]);
    }
    match wanted {
        Wanted::Function => push_unknown(out, first_field(text)),
        _ => push_wanted(out, first_field(text), wanted),
    }
}

/// A byte that isn't printable.
fn push_odd(out: &mut String, line: &[u8], place: Place) -> Result<(), AllocError>
    ensures { OnOk result (Adds (string_bytes out.old) (string_bytes out.new)) }
{
    if let Some(slip) = odd_slip(line, place) {
        return push_pieces(out, &[Piece::Text(slip)]);
    }
    let text = from_place(line, place);
    let (byte, _) = text.split_at(text.len().min(1));
    push_pieces(
        out,
        &[
            Piece::Text("a byte "),
            Piece::Quote(byte),
            Piece::Text("; each byte of a line is from 0x20 to 0x7E"),
        ],
    )
}

/// So many operands are taken.
fn taken(count: usize) -> (Piece<'static>, &'static str) {
    match count {
        0 => (Piece::Text("no"), " operands"),
        1 => (Piece::Number(1), " operand"),
        _ => (Piece::Number(count), " operands"),
    }
}

/// So many stand there.
fn given(count: usize) -> (Piece<'static>, &'static str) {
    match count {
        0 => (Piece::Text("none"), " stands there"),
        1 => (Piece::Number(1), " stands there"),
        _ => (Piece::Number(count), " stand there"),
    }
}

/// How many operands the function takes, and how many stand there.
fn push_count(out: &mut String, line: &[u8], place: Place) -> Result<(), AllocError>
    ensures { OnOk result (Adds (string_bytes out.old) (string_bytes out.new)) }
{
    if let Some(slip) = count_slip(line, place) {
        return push_pieces(out, &[Piece::Text(slip)]);
    }
    let Some(fun) = function_of(line) else {
        return push_pieces(out, &[]);
    };
    let (taken, operands) = taken(operands_of(fun).len());
    let (given, stand) = given(line.split(|b| *b == b' ').skip(3).count());
    push_pieces(
        out,
        &[
            Piece::Text(fun.name()),
            Piece::Text(" takes "),
            taken,
            Piece::Text(operands),
            Piece::Text(", and "),
            given,
            Piece::Text(stand),
        ],
    )
}

/// What is wrong at the place.
fn push_words(
    out: &mut String,
    line: &[u8],
    fault: ScriptFault,
    place: Place,
) -> Result<(), AllocError>
    ensures { OnOk result (Adds (string_bytes out.old) (string_bytes out.new)) }
{
    let text = from_place(line, place);
    match fault {
        ScriptFault::NotAscii => push_odd(out, line, place),
        ScriptFault::NoThread => push_field(out, text, Wanted::Thread),
        ScriptFault::NoEnv => push_field(out, text, Wanted::Environment),
        ScriptFault::UnknownFunction => push_field(out, text, Wanted::Function),
        ScriptFault::WrongCount => push_count(out, line, place),
        ScriptFault::BadOperand => match kind_at(line, place.field) {
            Some(kind) => push_field(out, text, Wanted::Operand(kind)),
            None => push_pieces(out, &[]),
        },
        ScriptFault::TooManyThreads => push_pieces(
            out,
            &[
                Piece::Quote(first_field(text)),
                Piece::Text(" is one thread more than a file of scripts may have"),
            ],
        ),
        ScriptFault::LineTooLong | ScriptFault::NoMemory => push_pieces(out, &[]),
    }
}

/// Writes where in the line the fault stands, what stands there and what is wanted, with a line feed
/// behind it: `field 3, column 9: ..`. Of a line that is too long it tells no place, and of want of
/// memory nothing. Of a line that hasn't the fault it may tell anything.
pub fn push_line_fault(out: &mut String, line: &[u8], fault: ScriptFault) -> Result<(), AllocError>
    ensures { OnOk result (AddsFault fault line.now (string_bytes out.old) (string_bytes out.new)) }
{
    let Some(place) = place_of(line, fault) else {
        return match fault {
            ScriptFault::LineTooLong => out.push_str("more than 65536 bytes\n"),
            _ => Ok(()),
        };
    };
    push_pieces(
        out,
        &[
            Piece::Text("field "),
            Piece::Number(place.field),
            Piece::Text(", column "),
            Piece::Number(place.column),
            Piece::Text(": "),
        ],
    )?;
    push_words(out, line, fault, place)?;
    out.push_str("\n")
}
