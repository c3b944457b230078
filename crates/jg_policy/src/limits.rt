//! What a text states twice, and lists that are too long. Names are put in order here, and hashed only once the lists
//! are known to be short: so no choice of names makes a text slow to read.
ghost use Rattle.std.specs.Prelude.{◌≡◌, length, IfOk};
ghost use Rattle.std.specs.List.{list_any};
ghost use Rattle.toml.specs.View.{view, table_view, items_view};
ghost use Rattle.jg_policy.specs.Stated.{member_stated, each_item, class_stated, grants_stated, setup_stated};
ghost use Rattle.jg_policy.specs.Findings.{has_repeat, same_member, repeats_member, states_twice, has_many_members, is_too_large};

use crate::base::base_class;
use crate::tree::{is_version_2, items_at, items_in, text_in};
use std::alloc::{AllocError, Global};
use std::collections::BTreeSet;
use toml::{Table, Value};

// The most classes that a setup states.
const MAX_CLASSES: usize = 1000;

// The most fields that a class states, and the most native methods.
const MAX_MEMBERS: usize = 100;

// The most grants of a setup, and the most modules that one of version 1 enables. Repeats count.
const MAX_GRANTS: usize = 1000;

fn repeats_one(alloc: Global, members: &[Value]) -> Result<bool, AllocError>
    ensures { IfOk result (λ b. b ≡ has_repeat same_member (each_item member_stated (items_view members.now))) }
{
    let mut seen = BTreeSet::new(alloc);
    for member in members {
        if !seen.insert((text_in(member, "name"), text_in(member, "type")))? {
            return Ok(true);
        }
    }
    Ok(false)
}

fn repeats_member(alloc: Global, class: &Value) -> Result<bool, AllocError>
    ensures { IfOk result (λ b. b ≡ repeats_member (class_stated (view class.now))) }
{
    let fields = repeats_one(alloc, items_in(class, "fields"))?;
    let natives = repeats_one(alloc, items_in(class, "natives"))?;
    Ok(fields || natives)
}

/// Whether two of these classes have one name, or one has a base class's, or states a member twice.
pub(crate) fn states_twice(alloc: Global, classes: &[Value]) -> Result<bool, AllocError>
    ensures { IfOk result (λ b. b ≡ states_twice (each_item class_stated (items_view classes.now))) }
{
    let mut seen = BTreeSet::new(alloc);
    for class in classes {
        let name = text_in(class, "name");
        if base_class(name).is_some() {
            return Ok(true);
        }
        if !seen.insert(name)? {
            return Ok(true);
        }
        if repeats_member(alloc, class)? {
            return Ok(true);
        }
    }
    Ok(false)
}

fn grant_count(table: &Table) -> usize
    ensures { result ≡ length (grants_stated (table_view table.now)) }
{
    if is_version_2(table) {
        items_at(table, "grant").len()
    } else {
        items_at(table, "enable_native_access").len()
    }
}

fn has_many_members(class: &Value) -> bool
    ensures { result ≡ has_many_members (class_stated (view class.now)) }
{
    let fields = items_in(class, "fields");
    let natives = items_in(class, "natives");
    fields.len() > MAX_MEMBERS || natives.len() > MAX_MEMBERS
}

fn any_has_many_members(classes: &[Value]) -> bool
    ensures { result ≡ list_any has_many_members (each_item class_stated (items_view classes.now)) }
{
    for class in classes {
        if has_many_members(class) {
            return true;
        }
    }
    false
}

/// Whether the tree states more classes, grants or members of a class than a setup may have.
pub(crate) fn is_too_large(table: &Table) -> bool
    ensures { result ≡ is_too_large (setup_stated (table_view table.now)) }
{
    let classes = items_at(table, "class");
    if classes.len() > MAX_CLASSES {
        return true;
    }
    if grant_count(table) > MAX_GRANTS {
        return true;
    }
    any_has_many_members(classes)
}
