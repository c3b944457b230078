//! What the tables and the values of a setup's text must be.

use crate::setup::found::Wrong;
use jg_policy::Spelling;
use toml::{Table, Value};

/// A kind of table, which has keys of its own.
#[derive(Clone, Copy)]
pub enum TableKind {
    Version1,
    Version2,
    Grant,
    Class,
    Field,
    Native,
}

impl TableKind {
    pub fn words(self) -> &'static str {
        match self {
            TableKind::Version1 => "a setup of version 1",
            TableKind::Version2 => "a setup of version 2",
            TableKind::Grant => "a grant",
            TableKind::Class => "a class",
            TableKind::Field => "a field",
            TableKind::Native => "a native method",
        }
    }

    fn has(self, key: &str) -> bool {
        match self {
            TableKind::Version1 => matches!(
                key,
                "version" | "illegal_native_access" | "enable_native_access" | "class"
            ),
            TableKind::Version2 => matches!(
                key,
                "version" | "illegal_native_access" | "grant" | "class"
            ),
            TableKind::Grant => matches!(key, "module" | "operations"),
            TableKind::Class => matches!(
                key,
                "name" | "module" | "throwable" | "fields" | "natives"
            ),
            TableKind::Field | TableKind::Native => matches!(key, "name" | "type"),
        }
    }

    /// The first key of the table, in the order of the alphabet, that its kind doesn't have.
    pub fn unknown_key<'a>(self, table: &'a Table) -> Option<&'a str> {
        for key in table.keys() {
            if !self.has(key.as_str()) {
                return Some(key.as_str());
            }
        }
        None
    }
}

/// What a value must be that is no array and no table.
#[derive(Clone, Copy)]
pub enum Rule {
    Version,
    Mode,
    Operation,
    Truth,
    Text(Spelling),
}

fn version_wrong<'a>(value: &'a Value) -> Option<Wrong<'a>> {
    match value.as_integer() {
        None => Some(Wrong::Type("an integer")),
        Some(1 | 2) => None,
        Some(version) => Some(Wrong::Version(version)),
    }
}

fn truth_wrong<'a>(value: &'a Value) -> Option<Wrong<'a>> {
    match value.as_bool() {
        None => Some(Wrong::Type("true or false")),
        Some(_) => None,
    }
}

fn mode_wrong(text: &str) -> Option<Wrong<'_>> {
    match text {
        "allow" | "warn" | "deny" => None,
        _ => Some(Wrong::Mode(text)),
    }
}

fn operation_wrong(text: &str) -> Option<Wrong<'_>> {
    match text {
        "load" | "register" | "link" => None,
        _ => Some(Wrong::Operation(text)),
    }
}

fn name_wrong(text: &str, spelling: Spelling) -> Option<Wrong<'_>> {
    if spelling.accepts(text) {
        None
    } else {
        Some(Wrong::Name(text, spelling))
    }
}

impl Rule {
    fn of_text<'a>(self, text: &'a str) -> Option<Wrong<'a>> {
        match self {
            Rule::Mode => mode_wrong(text),
            Rule::Operation => operation_wrong(text),
            Rule::Text(spelling) => name_wrong(text, spelling),
            Rule::Version | Rule::Truth => None,
        }
    }

    /// What is wrong with a value.
    pub fn wrong<'a>(self, value: &'a Value) -> Option<Wrong<'a>> {
        match self {
            Rule::Version => version_wrong(value),
            Rule::Truth => truth_wrong(value),
            Rule::Mode | Rule::Operation | Rule::Text(_) => match value.as_str() {
                None => Some(Wrong::Type("a text")),
                Some(text) => self.of_text(text),
            },
        }
    }
}

/// Whether the document is of version 2.
pub fn is_version_2(table: &Table) -> bool {
    match table.get("version") {
        None => false,
        Some(value) => value.as_integer() == Some(2),
    }
}

/// The items of the array at a key, none where the key is missing, and nothing where no array is there.
pub fn items_at<'a>(table: &'a Table, key: &str) -> Option<&'a [Value]> {
    match table.get(key) {
        None => Some(&[]),
        Some(value) => match value.as_array() {
            None => None,
            Some(items) => Some(items.as_slice()),
        },
    }
}

/// The items of the array at a key of a value, and none where there is no such array.
pub fn items_in<'a>(value: &'a Value, key: &str) -> &'a [Value] {
    match value.as_table() {
        None => &[],
        Some(table) => match items_at(table, key) {
            None => &[],
            Some(items) => items,
        },
    }
}

/// The text at a key of a value, or the empty one where there is none.
pub fn text_in<'a>(value: &'a Value, key: &str) -> &'a str {
    match value.as_table() {
        None => "",
        Some(table) => match table.get(key) {
            None => "",
            Some(value) => match value.as_str() {
                None => "",
                Some(text) => text,
            },
        },
    }
}
