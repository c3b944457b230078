//! A setup as the tree of a text of version 2.
ghost use Rattle.std.specs.Prelude.{◌≡◌, ◌++◌, ◌∷◌, map, IfOk, OnOk};
ghost use Rattle.toml.specs.Data.{string, array, table as table_data};
ghost use Rattle.toml.specs.View.{view, table_view, items_of};
ghost use Rattle.jg_policy.specs.Kept.{member_view, grant_view, class_view, named_class_view};
ghost use Rattle.jg_policy.specs.Put.{put};
ghost use Rattle.jg_policy.specs.Settling.{setup_view};
ghost use Rattle.jg_policy.specs.Written.{member_tree, members_data, class_tree, word_if, operation_data, grant_tree, setup_tree};

use crate::class::{Class, Member};
use crate::grant::Grant;
use crate::mode::Mode;
use indexmap::IndexMap;
use std::alloc::{AllocError, Global};
use toml::{Table, Value};

fn put(alloc: Global, table: &mut Table, key: &str, value: Value) -> Result<(), AllocError>
    ensures { OnOk result (table_view table.new ≡ put key.now (view value) (table_view table.old)) }
{
    let name = String::from_str(alloc, key)?;
    let Ok(_old) = table.insert(name, value) else {
        return Err(AllocError);
    };
    Ok(())
}

fn put_text(alloc: Global, table: &mut Table, key: &str, text: &str) -> Result<(), AllocError>
    ensures { OnOk result (table_view table.new ≡ put key.now (string text.now) (table_view table.old)) }
{
    let value = Value::string(alloc, text)?;
    put(alloc, table, key, value)
}

fn member_table(alloc: Global, member: &Member) -> Result<Table, AllocError>
    ensures { IfOk result (λ t. table_view t ≡ member_tree (member_view member.now)) }
{
    let mut table = Table::new(alloc);
    put_text(alloc, &mut table, "name", member.name.as_str())?;
    put_text(alloc, &mut table, "type", member.signature.as_str())?;
    Ok(table)
}

fn members_array(alloc: Global, members: &[Member]) -> Result<Vec<Value>, AllocError>
    ensures { IfOk result (λ v. map view v.items ≡ members_data (map member_view members.now)) }
{
    let mut values = Vec::new(alloc);
    for member in members {
        values.push(Value::from(member_table(alloc, member)?))?;
    }
    Ok(values)
}

fn put_members(
    alloc: Global,
    table: &mut Table,
    key: &str,
    members: &[Member],
) -> Result<(), AllocError>
    ensures { OnOk result (table_view table.new
        ≡ put key.now (array (items_of (members_data (map member_view members.now)))) (table_view table.old)) }
{
    let values = members_array(alloc, members)?;
    put(alloc, table, key, Value::from(values))
}

fn class_table(alloc: Global, name: &str, class: &Class) -> Result<Table, AllocError>
    ensures { IfOk result (λ t. table_view t ≡ class_tree (named_class_view name.now class.now)) }
{
    let mut table = Table::new(alloc);
    put_members(alloc, &mut table, "fields", class.fields.as_slice())?;
    put_text(alloc, &mut table, "module", class.module_name.as_str())?;
    put_text(alloc, &mut table, "name", name)?;
    put_members(alloc, &mut table, "natives", class.natives.as_slice())?;
    put(alloc, &mut table, "throwable", Value::from(class.throwable))?;
    Ok(table)
}

fn push_word_if(
    alloc: Global,
    words: &mut Vec<Value>,
    granted: bool,
    word: &str,
) -> Result<(), AllocError>
    ensures { OnOk result (map view words.new.items ≡ map view words.old.items ++ word_if granted word.now) }
{
    if granted {
        let value = Value::string(alloc, word)?;
        words.push(value)?;
    }
    Ok(())
}

fn operations_array(alloc: Global, grant: &Grant) -> Result<Vec<Value>, AllocError>
    ensures { IfOk result (λ v. map view v.items ≡ operation_data (grant_view grant.now)) }
{
    let mut words = Vec::new(alloc);
    push_word_if(alloc, &mut words, grant.load, "load")?;
    push_word_if(alloc, &mut words, grant.register, "register")?;
    push_word_if(alloc, &mut words, grant.link, "link")?;
    Ok(words)
}

fn grant_table(alloc: Global, grant: &Grant) -> Result<Table, AllocError>
    ensures { IfOk result (λ t. table_view t ≡ grant_tree (grant_view grant.now)) }
{
    let mut table = Table::new(alloc);
    put_text(alloc, &mut table, "module", grant.module_name.as_str())?;
    let operations = operations_array(alloc, grant)?;
    put(alloc, &mut table, "operations", Value::from(operations))?;
    Ok(table)
}

fn grants_array(alloc: Global, grants: &[Grant]) -> Result<Vec<Value>, AllocError>
    ensures { IfOk result (λ v. map view v.items ≡ map (λ g. table_data (grant_tree g)) (map grant_view grants.now)) }
{
    let mut values = Vec::new(alloc);
    for grant in grants {
        values.push(Value::from(grant_table(alloc, grant)?))?;
    }
    Ok(values)
}

fn classes_array(alloc: Global, classes: &IndexMap<String, Class>) -> Result<Vec<Value>, AllocError>
    ensures { IfOk result (λ v. map view v.items
        ≡ map (λ c. table_data (class_tree c)) (map class_view classes.now.entries)) }
{
    let mut values = Vec::new(alloc);
    for (name, class) in classes.iter() {
        values.push(Value::from(class_table(alloc, name.as_str(), class)?))?;
    }
    Ok(values)
}

/// The tree of a setup of these parts.
pub(crate) fn setup_table(
    alloc: Global,
    mode: Mode,
    grants: &[Grant],
    classes: &IndexMap<String, Class>,
) -> Result<Table, AllocError>
    ensures { IfOk result (λ t. table_view t ≡ setup_tree (setup_view mode grants.now classes.now.entries)) }
{
    let mut table = Table::new(alloc);
    let stated = classes_array(alloc, classes)?;
    put(alloc, &mut table, "class", Value::from(stated))?;
    let granted = grants_array(alloc, grants)?;
    put(alloc, &mut table, "grant", Value::from(granted))?;
    put_text(alloc, &mut table, "illegal_native_access", mode.word())?;
    put(alloc, &mut table, "version", Value::from(2i64))?;
    Ok(table)
}
