//! What a document's tree has at a key, and its version.
ghost use Rattle.std.specs.Prelude.{◌≡◌, option_map};
ghost use Rattle.toml.specs.Data.{get_member};
ghost use Rattle.toml.specs.View.{view, table_view, items_view};
ghost use Rattle.jg_policy.specs.Stated.{text_of, truth_of, items_at, text_item, members_of, is_version_2};

use toml::{Table, Value};

/// The value at a key.
pub(crate) fn value_at<'a>(table: &'a Table, key: &str) -> Option<&'a Value>
    ensures { option_map (λ v. view v.now) result ≡ get_member key.now (table_view table.now) }
{
    table.get(key)
}

/// The text at a key, or the empty one where there is none.
pub(crate) fn text_at<'a>(table: &'a Table, key: &str) -> &'a str
    ensures { result.now ≡ text_of (get_member key.now (table_view table.now)) }
{
    match value_at(table, key) {
        None => "",
        Some(value) => text_of(value),
    }
}

/// The truth at a key, or `false` where there is none.
pub(crate) fn truth_at(table: &Table, key: &str) -> bool
    ensures { result ≡ truth_of (get_member key.now (table_view table.now)) }
{
    match value_at(table, key) {
        None => false,
        Some(value) => match value.as_bool() {
            None => false,
            Some(truth) => truth,
        },
    }
}

/// The items of the array at a key, or none where there is none.
pub(crate) fn items_at<'a>(table: &'a Table, key: &str) -> &'a [Value]
    ensures { items_view result.now ≡ items_at (get_member key.now (table_view table.now)) }
{
    match value_at(table, key) {
        None => &[],
        Some(value) => match value.as_array() {
            None => &[],
            Some(values) => values.as_slice(),
        },
    }
}

/// The text at a key of a value, or the empty one where there is none.
pub(crate) fn text_in<'a>(value: &'a Value, key: &str) -> &'a str
    ensures { result.now ≡ text_of (get_member key.now (members_of (view value.now))) }
{
    match value.as_table() {
        None => "",
        Some(table) => text_at(table, key),
    }
}

/// The truth at a key of a value, or `false` where there is none.
pub(crate) fn truth_in(value: &Value, key: &str) -> bool
    ensures { result ≡ truth_of (get_member key.now (members_of (view value.now))) }
{
    match value.as_table() {
        None => false,
        Some(table) => truth_at(table, key),
    }
}

/// The items of the array at a key of a value, or none where there is none.
pub(crate) fn items_in<'a>(value: &'a Value, key: &str) -> &'a [Value]
    ensures { items_view result.now ≡ items_at (get_member key.now (members_of (view value.now))) }
{
    match value.as_table() {
        None => &[],
        Some(table) => items_at(table, key),
    }
}

/// A value's text, or the empty one where it is no text.
pub(crate) fn text_of(value: &Value) -> &str
    ensures { result.now ≡ text_item (view value.now) }
{
    match value.as_str() {
        None => "",
        Some(text) => text,
    }
}

/// Whether the document is of version 2.
pub(crate) fn is_version_2(table: &Table) -> bool
    ensures { result ≡ is_version_2 (table_view table.now) }
{
    match value_at(table, "version") {
        None => false,
        Some(value) => match value.as_integer() {
            None => false,
            Some(version) => version == 2,
        },
    }
}
