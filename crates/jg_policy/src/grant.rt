//! Which uses of native code the modules are granted.
ghost use Rattle.std.specs.Prelude.{◌≡◌, map, IfOk};
ghost use Rattle.std.specs.List.{list_any};
ghost use Rattle.std.specs.Str.{bytes_eq};
ghost use Rattle.toml.specs.View.{view, table_view, items_view};
ghost use Rattle.jg_policy.specs.NativeAccess.{allows};
ghost use Rattle.jg_policy.specs.Stated.{each_item, text_item, enabled_stated, grant_stated, grant_stated_in, grants_stated};
ghost use Rattle.jg_policy.specs.Kept.{grant_view};

use crate::access::Operation;
use crate::tree::{is_version_2, items_at, text_at, text_of};
use std::alloc::{AllocError, Global};
use toml::{Table, Value};

/// A module, and which uses of native code it is granted.
#[derive(Drop)]
pub(crate) struct Grant {
    pub(crate) module_name: String,
    pub(crate) load: bool,
    pub(crate) register: bool,
    pub(crate) link: bool,
}

impl Grant {
    /// Whether the use is granted.
    pub(crate) fn allows(&self, operation: Operation) -> bool
        ensures { result ≡ allows (grant_view self.now) operation }
    {
        match operation {
            Operation::Load => self.load,
            Operation::Register => self.register,
            Operation::Link => self.link,
        }
    }

    fn from_table(alloc: Global, table: &Table) -> Result<Grant, AllocError>
        ensures { IfOk result (λ g. grant_view g ≡ grant_stated_in (table_view table.now)) }
    {
        let operations = items_at(table, "operations");
        Ok(Grant {
            module_name: String::from_str(alloc, text_at(table, "module"))?,
            load: has_text(operations, "load"),
            register: has_text(operations, "register"),
            link: has_text(operations, "link"),
        })
    }

    fn from_value(alloc: Global, value: &Value) -> Result<Grant, AllocError>
        ensures { IfOk result (λ g. grant_view g ≡ grant_stated (view value.now)) }
    {
        match value.as_table() {
            // A value that is no table is a fault, which is found before this is called.
            None => Ok(Grant {
                module_name: String::new(alloc),
                load: false,
                register: false,
                link: false,
            }),
            Some(table) => Grant::from_table(alloc, table),
        }
    }

    // The grant of all uses to a module that a text of version 1 enables.
    fn of_enabled(alloc: Global, value: &Value) -> Result<Grant, AllocError>
        ensures { IfOk result (λ g. grant_view g ≡ enabled_stated (view value.now)) }
    {
        Ok(Grant {
            module_name: String::from_str(alloc, text_of(value))?,
            load: true,
            register: true,
            link: true,
        })
    }
}

// Whether the array has this text.
#[tactic(auto, using(crate::proofs::Stating::text_rules))]
fn has_text(values: &[Value], text: &str) -> bool
    ensures { result ≡ list_any (bytes_eq text.now) (each_item text_item (items_view values.now)) }
{
    any_is(values, text)
}

fn any_is(values: &[Value], text: &str) -> bool
    ensures { result ≡ list_any (λ v. bytes_eq text.now (text_item (view v))) values.now }
{
    values.iter().any(|value| text == text_of(value))
}

fn grants_from(alloc: Global, values: &[Value]) -> Result<Vec<Grant>, AllocError>
    ensures { IfOk result (λ v. map grant_view v.items ≡ each_item grant_stated (items_view values.now)) }
{
    let mut grants = Vec::new(alloc);
    for value in values {
        grants.push(Grant::from_value(alloc, value)?)?;
    }
    Ok(grants)
}

fn enabled_from(alloc: Global, values: &[Value]) -> Result<Vec<Grant>, AllocError>
    ensures { IfOk result (λ v. map grant_view v.items ≡ each_item enabled_stated (items_view values.now)) }
{
    let mut grants = Vec::new(alloc);
    for value in values {
        grants.push(Grant::of_enabled(alloc, value)?)?;
    }
    Ok(grants)
}

/// The grants of a document, by its version.
pub(crate) fn grants_of(alloc: Global, table: &Table) -> Result<Vec<Grant>, AllocError>
    ensures { IfOk result (λ v. map grant_view v.items ≡ grants_stated (table_view table.now)) }
{
    if is_version_2(table) {
        grants_from(alloc, items_at(table, "grant"))
    } else {
        enabled_from(alloc, items_at(table, "enable_native_access"))
    }
}
