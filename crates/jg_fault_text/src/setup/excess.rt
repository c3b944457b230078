//! The first array of a setup's text that has too many items.

use crate::setup::found::{Found, Place, Wrong};
use crate::setup::rules::{is_version_2, items_at, items_in};
use toml::{Table, Value};

/// The most classes of a setup.
const MOST_CLASSES: usize = 1000;

/// The most grants of a setup, and the most modules that one of version 1 enables.
const MOST_GRANTS: usize = 1000;

/// The most fields of a class, and the most native methods.
const MOST_MEMBERS: usize = 100;

fn excess(place: Place, key: &'static str, items: &[Value], most: usize) -> Option<Found<'static>> {
    if items.len() > most {
        Some(Found {
            place,
            key: Some(key),
            wrong: Wrong::Excess(items.len(), most),
        })
    } else {
        None
    }
}

fn at_top(table: &Table, key: &'static str, most: usize) -> Option<Found<'static>> {
    excess(Place::Top, key, items_at(table, key)?, most)
}

fn in_class(class: usize, value: &Value) -> Option<Found<'static>> {
    let place = Place::Class(class);
    let fields = excess(place, "fields", items_in(value, "fields"), MOST_MEMBERS);
    let natives = excess(place, "natives", items_in(value, "natives"), MOST_MEMBERS);
    fields.or(natives)
}

fn in_classes(classes: &[Value]) -> Option<Found<'static>> {
    for (n, class) in classes.iter().enumerate() {
        let found = in_class(n, class);
        if found.is_some() {
            return found;
        }
    }
    None
}

/// The first array of the document that has too many items.
pub fn first_excess(table: &Table) -> Option<Found<'static>> {
    let granting = if is_version_2(table) {
        "grant"
    } else {
        "enable_native_access"
    };
    let grants = at_top(table, granting, MOST_GRANTS);
    let classes = at_top(table, "class", MOST_CLASSES);
    let members = in_classes(items_at(table, "class")?);
    grants.or(classes).or(members)
}
