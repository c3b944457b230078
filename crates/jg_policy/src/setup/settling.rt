//! What is settled of each class when a setup is read, so that no call looks for it.
ghost use Rattle.std.specs.Prelude.{◌≡◌, ℕ, ◌≤◌, ◌||◌, ◌&&◌, if◌then◌else◌, List, length, map, string_bytes, codes, Some, unwrap_or, IfOk, OnOk};
ghost use Rattle.std.specs.Str.{bytes_eq};
ghost use Rattle.std.specs.Map.{update};
ghost use Rattle.std.specs.HashMap.{get_by};
ghost use Rattle.std.specs.HashSet.{contains_by};
ghost use Rattle.jg_policy.specs.declared.access.Access.TheVariants.{Allowed};
ghost use Rattle.jg_policy.specs.NativeAccess.{allows, is_granted, access_by};
ghost use Rattle.jg_policy.specs.Kept.{grant_view};
ghost use Rattle.jg_policy.specs.Settling.{setup_view, settled_view, settled_access, AreSettled};

use crate::access::{Access, Operation};
use crate::class::Class;
use crate::grant::Grant;
use crate::mode::Mode;
use indexmap::IndexMap;
use std::alloc::{AllocError, Global};
use std::collections::{HashMap, HashSet};

/// The number of a class's module, and what is done with each use of native code by the class.
#[derive(Clone, Copy)]
pub(crate) struct Settled {
    pub(crate) home: u32,
    pub(crate) load: Access,
    pub(crate) register: Access,
    pub(crate) link: Access,
}

impl Settled {
    /// What is done with this use.
    pub(crate) fn access(&self, operation: Operation) -> Access
        ensures { result ≡ settled_access (settled_view self.now) operation }
    {
        match operation {
            Operation::Load => self.load,
            Operation::Register => self.register,
            Operation::Link => self.link,
        }
    }
}

const JAVA_BASE: &str = "java.base";

/// Settles each class of a text, in their order.
pub(crate) fn settle_classes(
    alloc: Global,
    mode: Mode,
    grants: &[Grant],
    classes: &IndexMap<String, Class>,
) -> Result<Vec<Settled>, AllocError>
    requires { length classes.now.entries ≤ 1000 }
    ensures { IfOk result (λ v. AreSettled (setup_view mode grants.now classes.now.entries) v.items) }
{
    let loading = enabled_modules(alloc, grants, Operation::Load)?;
    let registering = enabled_modules(alloc, grants, Operation::Register)?;
    let linking = enabled_modules(alloc, grants, Operation::Link)?;
    let mut numbers = HashMap::new(alloc);
    numbers.insert(JAVA_BASE, 0)?;
    let mut settled = Vec::with_capacity(alloc, classes.len())?;
    for class in classes.values() {
        let name = class.module_name.as_str();
        let next = settled.len() as u32 + 1;
        let home = number_of(&mut numbers, name, next)?;
        settled.push(Settled {
            home,
            load: access_among(&loading, mode, name),
            register: access_among(&registering, mode, name),
            link: access_among(&linking, mode, name),
        })?;
    }
    Ok(settled)
}

// What is done with a use by a module, where these are enabled for it.
fn access_among(enabled: &HashSet<&str>, mode: Mode, name: &str) -> Access
    ensures { result ≡ (if contains_by (λ k. bytes_eq name.now k.now) enabled.now then Allowed else access_by mode) }
{
    if enabled.contains(name) {
        Access::Allowed
    } else {
        Access::by(mode)
    }
}

// java.base and the modules that are granted the use, hashed.
fn enabled_modules<'a>(
    alloc: Global,
    grants: &'a [Grant],
    operation: Operation,
) -> Result<HashSet<&'a str>, AllocError>
    ensures { IfOk result (λ s. (name : List ℕ) → contains_by (λ k. bytes_eq name k.now) s
        ≡ (bytes_eq name (codes "java.base") || is_granted (map grant_view grants.now) name operation)) }
{
    let mut modules = HashSet::new(alloc);
    modules.insert(JAVA_BASE)?;
    for grant in grants {
        add_granted(&mut modules, grant, operation)?;
    }
    Ok(modules)
}

// Adds the module of a grant, where the grant allows the use.
fn add_granted<'a>(
    modules: &mut HashSet<&'a str>,
    grant: &'a Grant,
    operation: Operation,
) -> Result<(), AllocError>
    ensures { OnOk result ((name : List ℕ) → contains_by (λ k. bytes_eq name k.now) modules.new
        ≡ (contains_by (λ k. bytes_eq name k.now) modules.old
        || (bytes_eq name (string_bytes grant.now.module_name) && allows (grant_view grant.now) operation))) }
{
    if grant.allows(operation) {
        modules.insert(grant.module_name.as_str())?;
    }
    Ok(())
}

// The number that a module has, or the next one, which it has from now on.
fn number_of<'a>(
    numbers: &mut HashMap<&'a str, u32>,
    name: &'a str,
    next: u32,
) -> Result<u32, AllocError>
    ensures number { IfOk result (λ n. n ≡ unwrap_or (get_by (λ k. bytes_eq name.now k.now) numbers.old) next) }
    ensures kept { IfOk result (λ n. (other : List ℕ) → get_by (λ k. bytes_eq other k.now) numbers.new
        ≡ update bytes_eq (λ t. get_by (λ k. bytes_eq t k.now) numbers.old) name.now (Some n) other) }
{
    match numbers.get(name) {
        Some(number) => Ok(*number),
        None => {
            numbers.insert(name, next)?;
            Ok(next)
        }
    }
}
