//! The first fault of shape or spelling that a document has.
ghost use Rattle.std.specs.Prelude.{◌≡◌, codes, not};
ghost use Rattle.toml.specs.Data.{get_member};
ghost use Rattle.toml.specs.View.{view, table_view, items_view};
ghost use Rattle.jg_policy.specs.Faults.{first_of};
ghost use Rattle.jg_policy.specs.Findings.{has_unknown_key, version_faults, mode_faults, truth_faults, required, is_among, member_keys, class_keys, version_1_keys, version_2_keys, has_unknown_setup_key, granting_faults, text_faults, each_of, fault_if, member_table_faults, member_faults, optional, array_faults, class_names_faults, class_heading_faults, class_parts_faults, class_table_faults, setup_heading_faults, setup_lists_faults, class_faults, shape_faults};
ghost use Rattle.std.specs.Prelude.{string_bytes};
ghost use Rattle.std.specs.List.{list_all};
ghost use Rattle.std.specs.BTreeMap.{keys};
ghost use Rattle.jg_policy.specs.declared.fault.SetupFault.TheVariants.{UnknownKey};
ghost use Rattle.jg_policy.specs.declared.names.Spelling.TheVariants.{ModuleName};

mod grants;

use crate::fault::SetupFault;
use crate::first_fault::grants::optional_grants;
use crate::mode::Mode;
use crate::names::Spelling;
use crate::tree::{is_version_2, value_at};
use toml::{Table, Value};

fn version_fault(value: &Value) -> Option<SetupFault>
    ensures { result ≡ first_of (version_faults (view value.now)) }
{
    match value.as_integer() {
        None => Some(SetupFault::BadType),
        Some(1 | 2) => None,
        Some(_) => Some(SetupFault::BadVersion),
    }
}

fn truth_fault(value: &Value) -> Option<SetupFault>
    ensures { result ≡ first_of (truth_faults (view value.now)) }
{
    match value.as_bool() {
        None => Some(SetupFault::BadType),
        Some(_) => None,
    }
}

fn mode_fault(value: &Value) -> Option<SetupFault>
    ensures { result ≡ first_of (mode_faults (view value.now)) }
{
    match value.as_str() {
        None => Some(SetupFault::BadType),
        Some(text) => match Mode::named(text) {
            None => Some(SetupFault::BadMode),
            Some(_) => None,
        },
    }
}

fn is_member_key(key: &str) -> bool
    ensures { result ≡ is_among member_keys key.now }
{
    matches!(key, "name" | "type")
}

fn is_class_key(key: &str) -> bool
    ensures { result ≡ is_among class_keys key.now }
{
    matches!(key, "name" | "module" | "throwable" | "fields" | "natives")
}

fn unknown_fault(has_known_keys: bool) -> Option<SetupFault>
    ensures { result ≡ first_of (fault_if (not has_known_keys) UnknownKey) }
{
    if has_known_keys {
        None
    } else {
        Some(SetupFault::UnknownKey)
    }
}

fn are_member_keys(table: &Table) -> bool
    ensures { result ≡ list_all (λ k. is_among member_keys (string_bytes k)) (keys table.now) }
{
    table.keys().all(|key| is_member_key(key.as_str()))
}

fn are_class_keys(table: &Table) -> bool
    ensures { result ≡ list_all (λ k. is_among class_keys (string_bytes k)) (keys table.now) }
{
    table.keys().all(|key| is_class_key(key.as_str()))
}

#[tactic(auto, using(crate::proofs::Keys::key_rules))]
fn has_class_keys(table: &Table) -> bool
    ensures { result ≡ not (has_unknown_key class_keys (table_view table.now)) }
{
    are_class_keys(table)
}

fn is_version_1_key(key: &str) -> bool
    ensures { result ≡ is_among version_1_keys key.now }
{
    matches!(
        key,
        "version" | "illegal_native_access" | "enable_native_access" | "class"
    )
}

fn is_version_2_key(key: &str) -> bool
    ensures { result ≡ is_among version_2_keys key.now }
{
    matches!(key, "version" | "illegal_native_access" | "grant" | "class")
}

fn are_version_1_keys(table: &Table) -> bool
    ensures { result ≡ list_all (λ k. is_among version_1_keys (string_bytes k)) (keys table.now) }
{
    table.keys().all(|key| is_version_1_key(key.as_str()))
}

fn are_version_2_keys(table: &Table) -> bool
    ensures { result ≡ list_all (λ k. is_among version_2_keys (string_bytes k)) (keys table.now) }
{
    table.keys().all(|key| is_version_2_key(key.as_str()))
}

#[tactic(auto, using(crate::proofs::Keys::key_rules))]
fn has_version_1_keys(table: &Table) -> bool
    ensures { result ≡ not (has_unknown_key version_1_keys (table_view table.now)) }
{
    are_version_1_keys(table)
}

#[tactic(auto, using(crate::proofs::Keys::key_rules))]
fn has_version_2_keys(table: &Table) -> bool
    ensures { result ≡ not (has_unknown_key version_2_keys (table_view table.now)) }
{
    are_version_2_keys(table)
}

// Whether the table has no key but those of a setup of its version.
fn has_setup_keys(table: &Table) -> bool
    ensures { result ≡ not (has_unknown_setup_key (table_view table.now)) }
{
    if is_version_2(table) {
        has_version_2_keys(table)
    } else {
        has_version_1_keys(table)
    }
}

// Whether a member's table has no key but its own.
#[tactic(auto, using(crate::proofs::Keys::key_rules))]
fn has_member_keys(table: &Table) -> bool
    ensures { result ≡ not (has_unknown_key member_keys (table_view table.now)) }
{
    are_member_keys(table)
}

fn text_fault(spelling: Spelling, value: &Value) -> Option<SetupFault>
    ensures { result ≡ first_of (text_faults spelling (view value.now)) }
{
    match value.as_str() {
        None => Some(SetupFault::BadType),
        Some(text) => {
            if spelling.accepts(text) {
                None
            } else {
                Some(SetupFault::BadName)
            }
        }
    }
}

fn required_text(table: &Table, key: &str, spelling: Spelling) -> Option<SetupFault>
    ensures { result ≡ first_of (required (text_faults spelling) (get_member key.now (table_view table.now))) }
{
    match value_at(table, key) {
        None => Some(SetupFault::Missing),
        Some(value) => text_fault(spelling, value),
    }
}

fn texts_fault(spelling: Spelling, values: &[Value]) -> Option<SetupFault>
    ensures { result ≡ first_of (each_of (text_faults spelling) (items_view values.now)) }
{
    let mut first = None;
    for value in values {
        first = SetupFault::earlier(first, text_fault(spelling, value));
    }
    first
}

// A field or a native method, by the spelling of its type.
#[tactic(auto, using(crate::proofs::Firsts::first_rules))]
fn member_table_fault(spelling: Spelling, table: &Table) -> Option<SetupFault>
    ensures { result ≡ first_of (member_table_faults spelling (table_view table.now)) }
{
    let unknown = unknown_fault(has_member_keys(table));
    let name = required_text(table, "name", Spelling::MemberName);
    let signature = required_text(table, "type", spelling);
    SetupFault::earlier(unknown, SetupFault::earlier(name, signature))
}

fn member_fault(spelling: Spelling, value: &Value) -> Option<SetupFault>
    ensures { result ≡ first_of (member_faults spelling (view value.now)) }
{
    match value.as_table() {
        None => Some(SetupFault::BadType),
        Some(table) => member_table_fault(spelling, table),
    }
}

fn members_fault(spelling: Spelling, values: &[Value]) -> Option<SetupFault>
    ensures { result ≡ first_of (each_of (member_faults spelling) (items_view values.now)) }
{
    let mut first = None;
    for value in values {
        first = SetupFault::earlier(first, member_fault(spelling, value));
    }
    first
}

fn optional_members(table: &Table, key: &str, spelling: Spelling) -> Option<SetupFault>
    ensures { result ≡ first_of (optional (array_faults (member_faults spelling))
        (get_member key.now (table_view table.now))) }
{
    let value = value_at(table, key)?;
    match value.as_array() {
        None => Some(SetupFault::BadType),
        Some(values) => members_fault(spelling, values),
    }
}

fn optional_truth(table: &Table, key: &str) -> Option<SetupFault>
    ensures { result ≡ first_of (optional truth_faults (get_member key.now (table_view table.now))) }
{
    truth_fault(value_at(table, key)?)
}

#[tactic(auto, using(crate::proofs::Firsts::first_rules))]
fn class_names_fault(table: &Table) -> Option<SetupFault>
    ensures { result ≡ first_of (class_names_faults (table_view table.now)) }
{
    let name = required_text(table, "name", Spelling::ClassName);
    let module = required_text(table, "module", Spelling::ModuleName);
    SetupFault::earlier(name, module)
}

#[tactic(auto, using(crate::proofs::Firsts::first_rules))]
fn class_heading_fault(table: &Table) -> Option<SetupFault>
    ensures { result ≡ first_of (class_heading_faults (table_view table.now)) }
{
    let unknown = unknown_fault(has_class_keys(table));
    SetupFault::earlier(unknown, class_names_fault(table))
}

#[tactic(auto, using(crate::proofs::Firsts::first_rules))]
fn class_parts_fault(table: &Table) -> Option<SetupFault>
    ensures { result ≡ first_of (class_parts_faults (table_view table.now)) }
{
    let throwable = optional_truth(table, "throwable");
    let fields = optional_members(table, "fields", Spelling::FieldType);
    let natives = optional_members(table, "natives", Spelling::NativeType);
    SetupFault::earlier(throwable, SetupFault::earlier(fields, natives))
}

#[tactic(auto, using(crate::proofs::Firsts::first_rules))]
fn class_table_fault(table: &Table) -> Option<SetupFault>
    ensures { result ≡ first_of (class_table_faults (table_view table.now)) }
{
    SetupFault::earlier(class_heading_fault(table), class_parts_fault(table))
}

fn class_fault(value: &Value) -> Option<SetupFault>
    ensures { result ≡ first_of (class_faults (view value.now)) }
{
    match value.as_table() {
        None => Some(SetupFault::BadType),
        Some(table) => class_table_fault(table),
    }
}

fn classes_fault(values: &[Value]) -> Option<SetupFault>
    ensures { result ≡ first_of (each_of class_faults (items_view values.now)) }
{
    let mut first = None;
    for value in values {
        first = SetupFault::earlier(first, class_fault(value));
    }
    first
}

fn optional_classes(table: &Table) -> Option<SetupFault>
    ensures { result ≡ first_of (optional (array_faults class_faults)
        (get_member (codes "class") (table_view table.now))) }
{
    match value_at(table, "class")?.as_array() {
        None => Some(SetupFault::BadType),
        Some(values) => classes_fault(values),
    }
}

fn optional_modules(table: &Table) -> Option<SetupFault>
    ensures { result ≡ first_of (optional (array_faults (text_faults ModuleName))
        (get_member (codes "enable_native_access") (table_view table.now))) }
{
    match value_at(table, "enable_native_access")?.as_array() {
        None => Some(SetupFault::BadType),
        Some(values) => texts_fault(Spelling::ModuleName, values),
    }
}

fn granting_fault(table: &Table) -> Option<SetupFault>
    ensures { result ≡ first_of (granting_faults (table_view table.now)) }
{
    if is_version_2(table) {
        optional_grants(table)
    } else {
        optional_modules(table)
    }
}

fn required_version(table: &Table) -> Option<SetupFault>
    ensures { result ≡ first_of (required version_faults (get_member (codes "version") (table_view table.now))) }
{
    match value_at(table, "version") {
        None => Some(SetupFault::Missing),
        Some(value) => version_fault(value),
    }
}

fn required_mode(table: &Table) -> Option<SetupFault>
    ensures { result ≡ first_of (required mode_faults
        (get_member (codes "illegal_native_access") (table_view table.now))) }
{
    match value_at(table, "illegal_native_access") {
        None => Some(SetupFault::Missing),
        Some(value) => mode_fault(value),
    }
}

#[tactic(auto, using(crate::proofs::Firsts::first_rules))]
fn setup_heading_fault(table: &Table) -> Option<SetupFault>
    ensures { result ≡ first_of (setup_heading_faults (table_view table.now)) }
{
    let unknown = unknown_fault(has_setup_keys(table));
    let version = required_version(table);
    let mode = required_mode(table);
    SetupFault::earlier(unknown, SetupFault::earlier(version, mode))
}

#[tactic(auto, using(crate::proofs::Firsts::first_rules))]
fn setup_lists_fault(table: &Table) -> Option<SetupFault>
    ensures { result ≡ first_of (setup_lists_faults (table_view table.now)) }
{
    SetupFault::earlier(granting_fault(table), optional_classes(table))
}

/// The first fault of shape or spelling that the tree has anywhere.
#[tactic(auto, using(crate::proofs::Firsts::first_rules))]
pub(crate) fn shape_fault(table: &Table) -> Option<SetupFault>
    ensures { result ≡ first_of (shape_faults (table_view table.now)) }
{
    SetupFault::earlier(setup_heading_fault(table), setup_lists_fault(table))
}
