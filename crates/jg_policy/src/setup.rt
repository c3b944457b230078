//! A setup, and the text that it is read from.
ghost use Rattle.std.specs.Prelude.{◌≡◌, ◌≢◌, IfOk, IfErr, OnOk, string_bytes, []};
ghost use Rattle.toml.specs.Parse.{parse_document};
ghost use Rattle.toml.specs.View.{table_view};
ghost use Rattle.jg_policy.specs.Stated.{setup_stated};
ghost use Rattle.jg_policy.specs.Faults.{IsFirstFault};
ghost use Rattle.jg_policy.specs.Findings.{tree_faults, text_faults_of, States};

mod readers;
mod settling;

use crate::class::{Class, classes_from};
use crate::fault::SetupFault;
use crate::first_fault::shape_fault;
use crate::grant::{Grant, grants_of};
use crate::limits::{is_too_large, states_twice};
use crate::mode::Mode;
use crate::setup::settling::{Settled, settle_classes};
use crate::tree::{items_at, text_at};
use crate::written::setup_table;
use indexmap::IndexMap;
use std::alloc::Global;
use std::marker::Model;
use toml::Table;

/// The classes of a guard, and which uses of native code their modules are granted. Contracts see
/// what its text states.
#[derive(Drop)]
pub struct Setup {
    // What comes of these two is settled for each class below.
    mode: Mode,
    grants: Vec<Grant>,
    classes: IndexMap<String, Class>,
    // In the order of the classes.
    settled: Vec<Settled>,
}

impl Model for Setup {
    ghost use Rattle.jg_policy.specs.Stated.{StatedSetup};
    ghost use Rattle.jg_policy.specs.Kept.{AreFit};
    ghost use Rattle.jg_policy.specs.Settling.{setup_view, AreSettled};

    ghost Value = { StatedSetup };

    ghost view = { λ s. setup_view s.mode s.grants.items s.classes.entries };

    ghost invariant = { λ s. record {
      fit : AreFit s.grants.items s.classes.entries;
      settled : AreSettled (setup_view s.mode s.grants.items s.classes.entries) s.settled.items;
    } };
}

impl Setup {
    /// Reads a setup text of version 1 or 2. Of the faults that the text has anywhere the first in the order of
    /// [`SetupFault`] is answered, or `NoMemory` where memory runs out.
    pub fn read(alloc: Global, text: &str) -> Result<Setup, SetupFault>
        ensures stated { IfOk result (States text.now) }
        ensures refused { IfErr result (λ fault. fault ≢ SetupFault.NoMemory
            → IsFirstFault (text_faults_of (parse_document text.now)) fault) }
    {
        let table = match toml::table_from_str(alloc, text) {
            Ok(table) => table,
            Err(error) if error.is_memory() => return Err(SetupFault::NoMemory),
            Err(_) => return Err(SetupFault::NotToml),
        };
        Setup::from_tree(alloc, &table)
    }

    /// Writes the setup as a text of version 2. [`Setup::read`] of the text gives the same setup, and
    /// is refused for want of memory alone; the text may be longer than the file of a setup may be.
    /// Fails only for want of memory.
    pub fn to_version_2(&self, alloc: Global) -> Result<String, SetupFault>
        ensures stated { IfOk result (λ text. States (string_bytes text) self.now) }
        ensures refused { IfErr result (λ fault. fault ≡ SetupFault.NoMemory) }
    {
        let Ok(table) = setup_table(alloc, self.mode, self.grants.as_slice(), &self.classes) else {
            return Err(SetupFault::NoMemory);
        };
        match toml::table_to_string(alloc, &table) {
            Ok(text) => Ok(text),
            Err(_) => Err(SetupFault::NoMemory),
        }
    }

    // The setup of a tree, or the first fault found in it: a fault of shape or spelling, then
    // something stated twice, then a list that is too long.
    fn from_tree(alloc: Global, table: &Table) -> Result<Setup, SetupFault>
        ensures stated { IfOk result (λ setup. setup ≡ setup_stated (table_view table.now)) }
        ensures clean { OnOk result (tree_faults (table_view table.now) ≡ []) }
        ensures refused { IfErr result (λ fault. fault ≢ SetupFault.NoMemory
            → IsFirstFault (tree_faults (table_view table.now)) fault) }
    {
        if let Some(fault) = shape_fault(table) {
            return Err(fault);
        }
        let stated = items_at(table, "class");
        match states_twice(alloc, stated) {
            Ok(false) => {}
            Ok(true) => return Err(SetupFault::Duplicate),
            Err(_) => return Err(SetupFault::NoMemory),
        }
        if is_too_large(table) {
            return Err(SetupFault::TooMany);
        }
        let mode = match Mode::named(text_at(table, "illegal_native_access")) {
            Some(mode) => mode,
            None => Mode::Deny,
        };
        let Ok(classes) = classes_from(alloc, stated) else {
            return Err(SetupFault::NoMemory);
        };
        let Ok(grants) = grants_of(alloc, table) else {
            return Err(SetupFault::NoMemory);
        };
        let Ok(settled) = settle_classes(alloc, mode, grants.as_slice(), &classes) else {
            return Err(SetupFault::NoMemory);
        };
        Ok(Setup {
            mode,
            grants,
            classes,
            settled,
        })
    }
}
