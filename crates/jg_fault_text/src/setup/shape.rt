//! The first place at which a document has a fault of shape or spelling. The places go in the order in which
//! `jg_policy` lists the faults.

use crate::setup::found::{Found, Place, Wrong, found_if};
use crate::setup::rules::{Rule, TableKind, is_version_2, items_at};
use jg_policy::{SetupFault, Spelling};
use toml::{Table, Value};

const NO_ARRAY: Wrong<'static> = Wrong::Type("an array");

const NO_TABLE: Wrong<'static> = Wrong::Type("a table");

fn unknown_key<'a>(
    fault: SetupFault,
    place: Place,
    table: &'a Table,
    kind: TableKind,
) -> Option<Found<'a>> {
    let key = kind.unknown_key(table)?;
    found_if(fault, place, Some(key), Wrong::UnknownKey(kind))
}

fn optional<'a>(
    fault: SetupFault,
    place: Place,
    table: &'a Table,
    key: &'static str,
    rule: Rule,
) -> Option<Found<'a>> {
    let wrong = rule.wrong(table.get(key)?)?;
    found_if(fault, place, Some(key), wrong)
}

fn required<'a>(
    fault: SetupFault,
    place: Place,
    table: &'a Table,
    key: &'static str,
    rule: Rule,
) -> Option<Found<'a>> {
    match table.get(key) {
        None => found_if(fault, place, Some(key), Wrong::Missing),
        Some(_) => optional(fault, place, table, key, rule),
    }
}

fn of_item<'a>(fault: SetupFault, place: Place, value: &'a Value, rule: Rule) -> Option<Found<'a>> {
    found_if(fault, place, None, rule.wrong(value)?)
}

/// The first of three that is there.
fn first_of<'a>(
    a: Option<Found<'a>>,
    b: Option<Found<'a>>,
    c: Option<Found<'a>>,
) -> Option<Found<'a>> {
    a.or(b).or(c)
}

fn in_heading<'a>(fault: SetupFault, table: &'a Table) -> Option<Found<'a>> {
    let kind = if is_version_2(table) {
        TableKind::Version2
    } else {
        TableKind::Version1
    };
    first_of(
        unknown_key(fault, Place::Top, table, kind),
        required(fault, Place::Top, table, "version", Rule::Version),
        required(
            fault,
            Place::Top,
            table,
            "illegal_native_access",
            Rule::Mode,
        ),
    )
}

fn in_modules<'a>(fault: SetupFault, table: &'a Table) -> Option<Found<'a>> {
    let Some(modules) = items_at(table, "enable_native_access") else {
        return found_if(fault, Place::Top, Some("enable_native_access"), NO_ARRAY);
    };
    for (n, module) in modules.iter().enumerate() {
        let found = of_item(
            fault,
            Place::Module(n),
            module,
            Rule::Text(Spelling::ModuleName),
        );
        if found.is_some() {
            return found;
        }
    }
    None
}

fn in_operations<'a>(fault: SetupFault, grant: usize, table: &'a Table) -> Option<Found<'a>> {
    let place = Place::Grant(grant);
    if !table.contains_key("operations") {
        return found_if(fault, place, Some("operations"), Wrong::Missing);
    }
    let Some(operations) = items_at(table, "operations") else {
        return found_if(fault, place, Some("operations"), NO_ARRAY);
    };
    for (operation, item) in operations.iter().enumerate() {
        let found = of_item(
            fault,
            Place::Operation { grant, operation },
            item,
            Rule::Operation,
        );
        if found.is_some() {
            return found;
        }
    }
    None
}

fn in_grant<'a>(fault: SetupFault, grant: usize, value: &'a Value) -> Option<Found<'a>> {
    let place = Place::Grant(grant);
    let Some(table) = value.as_table() else {
        return found_if(fault, place, None, NO_TABLE);
    };
    first_of(
        unknown_key(fault, place, table, TableKind::Grant),
        required(
            fault,
            place,
            table,
            "module",
            Rule::Text(Spelling::ModuleName),
        ),
        in_operations(fault, grant, table),
    )
}

fn in_grants<'a>(fault: SetupFault, table: &'a Table) -> Option<Found<'a>> {
    let Some(grants) = items_at(table, "grant") else {
        return found_if(fault, Place::Top, Some("grant"), NO_ARRAY);
    };
    for (n, grant) in grants.iter().enumerate() {
        let found = in_grant(fault, n, grant);
        if found.is_some() {
            return found;
        }
    }
    None
}

fn in_member<'a>(
    fault: SetupFault,
    place: Place,
    value: &'a Value,
    kind: TableKind,
    spelling: Spelling,
) -> Option<Found<'a>> {
    let Some(table) = value.as_table() else {
        return found_if(fault, place, None, NO_TABLE);
    };
    first_of(
        unknown_key(fault, place, table, kind),
        required(
            fault,
            place,
            table,
            "name",
            Rule::Text(Spelling::MemberName),
        ),
        required(fault, place, table, "type", Rule::Text(spelling)),
    )
}

fn in_fields<'a>(fault: SetupFault, class: usize, table: &'a Table) -> Option<Found<'a>> {
    let Some(fields) = items_at(table, "fields") else {
        return found_if(fault, Place::Class(class), Some("fields"), NO_ARRAY);
    };
    for (field, item) in fields.iter().enumerate() {
        let place = Place::Field { class, field };
        let found = in_member(fault, place, item, TableKind::Field, Spelling::FieldType);
        if found.is_some() {
            return found;
        }
    }
    None
}

fn in_natives<'a>(fault: SetupFault, class: usize, table: &'a Table) -> Option<Found<'a>> {
    let Some(natives) = items_at(table, "natives") else {
        return found_if(fault, Place::Class(class), Some("natives"), NO_ARRAY);
    };
    for (native, item) in natives.iter().enumerate() {
        let place = Place::Native { class, native };
        let found = in_member(fault, place, item, TableKind::Native, Spelling::NativeType);
        if found.is_some() {
            return found;
        }
    }
    None
}

fn in_class_heading<'a>(fault: SetupFault, place: Place, table: &'a Table) -> Option<Found<'a>> {
    first_of(
        unknown_key(fault, place, table, TableKind::Class),
        required(fault, place, table, "name", Rule::Text(Spelling::ClassName)),
        required(
            fault,
            place,
            table,
            "module",
            Rule::Text(Spelling::ModuleName),
        ),
    )
}

fn in_class_parts<'a>(fault: SetupFault, class: usize, table: &'a Table) -> Option<Found<'a>> {
    first_of(
        optional(fault, Place::Class(class), table, "throwable", Rule::Truth),
        in_fields(fault, class, table),
        in_natives(fault, class, table),
    )
}

fn in_class<'a>(fault: SetupFault, class: usize, value: &'a Value) -> Option<Found<'a>> {
    let place = Place::Class(class);
    let Some(table) = value.as_table() else {
        return found_if(fault, place, None, NO_TABLE);
    };
    let heading = in_class_heading(fault, place, table);
    heading.or(in_class_parts(fault, class, table))
}

fn in_classes<'a>(fault: SetupFault, table: &'a Table) -> Option<Found<'a>> {
    let Some(classes) = items_at(table, "class") else {
        return found_if(fault, Place::Top, Some("class"), NO_ARRAY);
    };
    for (n, class) in classes.iter().enumerate() {
        let found = in_class(fault, n, class);
        if found.is_some() {
            return found;
        }
    }
    None
}

fn in_granting<'a>(fault: SetupFault, table: &'a Table) -> Option<Found<'a>> {
    if is_version_2(table) {
        in_grants(fault, table)
    } else {
        in_modules(fault, table)
    }
}

/// The first place at which the document has this fault of shape or spelling.
pub fn first_misshapen<'a>(table: &'a Table, fault: SetupFault) -> Option<Found<'a>> {
    first_of(
        in_heading(fault, table),
        in_granting(fault, table),
        in_classes(fault, table),
    )
}
