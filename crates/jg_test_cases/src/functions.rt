//! The list of all functions, which is written by hand from the JNI Specification: each of its lines is compared with
//! the function's row in the table, by the words that `data/functions.cases` explains. What a function does, and the
//! types of IDs and buffers, `tests/rows` compares.

use crate::runs::Difference;
use crate::tables::Came;
use jg_rows::{Member, ObjectKind, Passes, Row, Runs, Section, Since, Takes, Throws, row_of};
use jg_words::{ItemType, Primitive};

fn since_word(since: Since) -> &'static str {
    match since {
        Since::V1_1 => "1.1",
        Since::V1_2 => "1.2",
        Since::V1_4 => "1.4",
        Since::V1_6 => "1.6",
        Since::V9 => "9",
        Since::V21 => "21",
        Since::V24 => "24",
        Since::Own => "",
    }
}

fn throws_word(throws: Throws) -> &'static str {
    match throws {
        Throws::Never => "never",
        Throws::Null => "null",
        Throws::Negative => "negative",
        Throws::Untold => "untold",
    }
}

fn truth_word(truth: bool) -> &'static str {
    if truth { "yes" } else { "no" }
}

fn item_word(item: ItemType) -> &'static str {
    match item {
        ItemType::Of(Primitive::Boolean) => "Z",
        ItemType::Of(Primitive::Byte) => "B",
        ItemType::Of(Primitive::Char) => "C",
        ItemType::Of(Primitive::Short) => "S",
        ItemType::Of(Primitive::Int) => "I",
        ItemType::Of(Primitive::Long) => "J",
        ItemType::Float => "F",
        ItemType::Double => "D",
    }
}

/// The word for an operand: what stands before its colon and behind it, or `?` where that isn't compared. Those that no
/// function of the JNI takes have none.
fn operand_words(takes: Takes) -> (&'static str, &'static str) {
    match takes {
        Takes::Reference(ObjectKind::AnyObject) => ("object", ""),
        Takes::Reference(ObjectKind::ClassObject) => ("class", ""),
        Takes::Reference(ObjectKind::PlainClass) => ("plain_class", ""),
        Takes::Reference(ObjectKind::InstanceClass) => ("instance_class", ""),
        Takes::Reference(ObjectKind::ThrowableObject) => ("throwable", ""),
        Takes::Reference(ObjectKind::StringObject) => ("string", ""),
        Takes::Reference(ObjectKind::AnyArray) => ("array", ""),
        Takes::Reference(ObjectKind::PrimitiveArray) => ("primitives", ""),
        Takes::Reference(ObjectKind::ArrayOf(item)) => ("array", item_word(item)),
        Takes::Reference(ObjectKind::ObjectArray) => ("array", "L"),
        Takes::Nullable => ("object?", ""),
        Takes::Unjudged => ("any", ""),
        Takes::Buffer(_) => ("buffer", "?"),
        Takes::Number => ("number", ""),
        Takes::Capacity => ("capacity", ""),
        Takes::Length => ("length", ""),
        Takes::Count => ("count", ""),
        Takes::Mode => ("mode", ""),
        Takes::Value(item) => ("value", item_word(item)),
        Takes::Field(Member::Instance, _) => ("field", "?"),
        Takes::Field(Member::Static, _) => ("static_field", "?"),
        Takes::AnyField => ("any_field", ""),
        Takes::Method(Member::Instance, _) => ("method", "?"),
        Takes::Method(Member::Static, _) => ("static_method", "?"),
        Takes::Constructor => ("constructor", ""),
        Takes::AnyMethod => ("any_method", ""),
        Takes::NativeName => ("native_name", ""),
        Takes::Name => ("name", ""),
        Takes::Items(item) => ("items", item_word(item)),
        Takes::Utf8 => ("utf8", ""),
        Takes::Arguments => ("arguments", ""),
        _ => ("", ""),
    }
}

/// The first word of a line, and what stands behind it.
fn first_word(line: &str) -> (&str, &str) {
    let line = line.trim();
    line.split_once(" ").unwrap_or((line, ""))
}

/// Whether the word stands for such an operand.
fn is_operand(word: &str, takes: Takes) -> bool {
    let (front, of) = operand_words(takes);
    let (word, found) = word.split_once(":").unwrap_or((word, ""));
    word == front && (found == of || of == "?")
}

/// What isn't so of a row.
fn other_row(row: &Row, line: &str) -> Difference {
    let pends = matches!(row.passes, Passes::Pending | Passes::Both);
    let is_critical = matches!(row.passes, Passes::Critical | Passes::Both);
    let runs_java = matches!(row.runs, Runs::Java);
    let columns = [
        (row.name, "the table has another name"),
        (since_word(row.since), "the table has another \"since\""),
        (truth_word(row.takes_env), "the table has another \"env\""),
        (truth_word(pends), "the table has another \"pend\""),
        (truth_word(is_critical), "the table has another \"crit\""),
        (throws_word(row.throws), "the table has another \"throws\""),
        (truth_word(runs_java), "the table has another \"java\""),
    ];
    let mut left = line;
    for (wanted, difference) in columns {
        let (word, rest) = first_word(left);
        if word != wanted {
            return Some(difference);
        }
        left = rest;
    }
    let (_does, mut left) = first_word(left);
    for takes in row.takes {
        let (word, rest) = first_word(left);
        if !is_operand(word, *takes) {
            return Some("the table has another operand");
        }
        left = rest;
    }
    match left.trim() {
        "" => None,
        _ => Some("the table has fewer operands"),
    }
}

/// What comes of a list of all functions of the JNI. Behind them the table has those of this guard's own.
pub fn try_functions(list: &str) -> Came {
    let mut came = Came::NONE;
    let mut place = 0usize;
    for line in list.lines() {
        if line.trim() != "" && line.strip_prefix("#").is_none() {
            came.count(match row_of(place) {
                Some(row) => other_row(row, line),
                None => Some("the table lacks the function"),
            });
            place = place.saturating_add(1);
        }
    }
    match row_of(place) {
        Some(row) if matches!(row.section, Section::Own) => {}
        _ => came.count(Some("the table has another function behind them")),
    }
    came
}
