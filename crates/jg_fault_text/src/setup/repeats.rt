//! The first class, field or native method that a setup states again. Names are put in order here, and not compared
//! each with each: so no choice of names makes a text slow to look through.

use crate::setup::found::{Found, Place, Wrong};
use crate::setup::rules::{items_at, items_in, text_in};
use jg_policy::Setup;
use std::alloc::{AllocError, Global};
use std::collections::BTreeSet;
use toml::{Table, Value};

/// The text of a setup that has the base classes alone.
const NO_CLASS: &str = "version = 1\nillegal_native_access = \"deny\"\n";

fn is_base_class(base: &Setup, name: &str) -> bool {
    for class in 0..base.class_count() {
        if base.class_name(class) == Some(name) {
            return true;
        }
    }
    false
}

/// The place of the first of these that has the name and the type of an earlier one.
fn repeated(alloc: Global, members: &[Value]) -> Result<Option<usize>, AllocError> {
    let mut seen = BTreeSet::new(alloc);
    for (place, member) in members.iter().enumerate() {
        if !seen.insert((text_in(member, "name"), text_in(member, "type")))? {
            return Ok(Some(place));
        }
    }
    Ok(None)
}

fn known_member<'a>(place: Place, member: Option<&'a Value>) -> Option<Found<'a>> {
    let member = member?;
    Some(Found {
        place,
        key: None,
        wrong: Wrong::KnownMember(text_in(member, "name"), text_in(member, "type")),
    })
}

fn in_class<'a>(
    alloc: Global,
    class: usize,
    value: &'a Value,
) -> Result<Option<Found<'a>>, AllocError> {
    let fields = items_in(value, "fields");
    if let Some(field) = repeated(alloc, fields)? {
        let place = Place::Field { class, field };
        return Ok(known_member(place, fields.get(field)));
    }
    let natives = items_in(value, "natives");
    if let Some(native) = repeated(alloc, natives)? {
        let place = Place::Native { class, native };
        return Ok(known_member(place, natives.get(native)));
    }
    Ok(None)
}

fn known_class<'a>(class: usize, wrong: Wrong<'a>) -> Option<Found<'a>> {
    Some(Found {
        place: Place::Class(class),
        key: Some("name"),
        wrong,
    })
}

fn in_classes<'a>(
    alloc: Global,
    base: &Setup,
    classes: &'a [Value],
) -> Result<Option<Found<'a>>, AllocError> {
    let mut seen = BTreeSet::new(alloc);
    for (n, class) in classes.iter().enumerate() {
        let name = text_in(class, "name");
        if is_base_class(base, name) {
            return Ok(known_class(n, Wrong::BaseClass(name)));
        }
        if !seen.insert(name)? {
            return Ok(known_class(n, Wrong::KnownClass(name)));
        }
        let found = in_class(alloc, n, class)?;
        if found.is_some() {
            return Ok(found);
        }
    }
    Ok(None)
}

/// The first place at which the document states again what it has stated.
pub fn first_repeat<'a>(alloc: Global, table: &'a Table) -> Result<Option<Found<'a>>, AllocError> {
    let Some(classes) = items_at(table, "class") else {
        return Ok(None);
    };
    match Setup::read(alloc, NO_CLASS) {
        Ok(base) => in_classes(alloc, &base, classes),
        Err(_) => Err(AllocError),
    }
}
