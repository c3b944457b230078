//! The first fault of shape or spelling that the grants of a document have.
ghost use Rattle.std.specs.Prelude.{◌≡◌, codes, not, string_bytes};
ghost use Rattle.std.specs.List.{list_all};
ghost use Rattle.std.specs.BTreeMap.{keys};
ghost use Rattle.toml.specs.Data.{get_member};
ghost use Rattle.toml.specs.View.{view, table_view, items_view};
ghost use Rattle.jg_policy.specs.Faults.{first_of};
ghost use Rattle.jg_policy.specs.Findings.{has_unknown_key, is_among, grant_keys, operation_words, operation_faults, grant_table_faults, grant_faults, required, optional, array_faults, each_of};

use crate::fault::SetupFault;
use crate::first_fault::{required_text, unknown_fault};
use crate::names::Spelling;
use crate::tree::value_at;
use toml::{Table, Value};

fn is_grant_key(key: &str) -> bool
    ensures { result ≡ is_among grant_keys key.now }
{
    matches!(key, "module" | "operations")
}

fn are_grant_keys(table: &Table) -> bool
    ensures { result ≡ list_all (λ k. is_among grant_keys (string_bytes k)) (keys table.now) }
{
    table.keys().all(|key| is_grant_key(key.as_str()))
}

#[tactic(auto, using(crate::proofs::Keys::key_rules))]
fn has_grant_keys(table: &Table) -> bool
    ensures { result ≡ not (has_unknown_key grant_keys (table_view table.now)) }
{
    are_grant_keys(table)
}

fn is_operation(text: &str) -> bool
    ensures { result ≡ is_among operation_words text.now }
{
    matches!(text, "load" | "register" | "link")
}

fn operation_fault(value: &Value) -> Option<SetupFault>
    ensures { result ≡ first_of (operation_faults (view value.now)) }
{
    match value.as_str() {
        None => Some(SetupFault::BadType),
        Some(text) => {
            if is_operation(text) {
                None
            } else {
                Some(SetupFault::BadMode)
            }
        }
    }
}

fn operations_fault(values: &[Value]) -> Option<SetupFault>
    ensures { result ≡ first_of (each_of operation_faults (items_view values.now)) }
{
    let mut first = None;
    for value in values {
        first = SetupFault::earlier(first, operation_fault(value));
    }
    first
}

fn required_operations(table: &Table) -> Option<SetupFault>
    ensures { result
        ≡ first_of (required (array_faults operation_faults) (get_member (codes "operations") (table_view table.now))) }
{
    match value_at(table, "operations") {
        None => Some(SetupFault::Missing),
        Some(value) => match value.as_array() {
            None => Some(SetupFault::BadType),
            Some(values) => operations_fault(values),
        },
    }
}

#[tactic(auto, using(crate::proofs::Firsts::first_rules))]
fn grant_table_fault(table: &Table) -> Option<SetupFault>
    ensures { result ≡ first_of (grant_table_faults (table_view table.now)) }
{
    let unknown = unknown_fault(has_grant_keys(table));
    let module = required_text(table, "module", Spelling::ModuleName);
    let operations = required_operations(table);
    SetupFault::earlier(unknown, SetupFault::earlier(module, operations))
}

fn grant_fault(value: &Value) -> Option<SetupFault>
    ensures { result ≡ first_of (grant_faults (view value.now)) }
{
    match value.as_table() {
        None => Some(SetupFault::BadType),
        Some(table) => grant_table_fault(table),
    }
}

fn grants_fault(values: &[Value]) -> Option<SetupFault>
    ensures { result ≡ first_of (each_of grant_faults (items_view values.now)) }
{
    let mut first = None;
    for value in values {
        first = SetupFault::earlier(first, grant_fault(value));
    }
    first
}

/// The first fault of the grants, which may be missing.
pub(crate) fn optional_grants(table: &Table) -> Option<SetupFault>
    ensures { result
        ≡ first_of (optional (array_faults grant_faults) (get_member (codes "grant") (table_view table.now))) }
{
    match value_at(table, "grant")?.as_array() {
        None => Some(SetupFault::BadType),
        Some(values) => grants_fault(values),
    }
}
