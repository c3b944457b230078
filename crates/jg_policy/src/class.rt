//! The classes that a text states.
ghost use Rattle.std.specs.Prelude.{◌≡◌, false, map, IfOk};
ghost use Rattle.toml.specs.View.{view, items_view};
ghost use Rattle.jg_policy.specs.Stated.{member_stated, each_item, class_stated};
ghost use Rattle.jg_policy.specs.Findings.{has_repeat, same_member, repeats_member, states_twice};
ghost use Rattle.jg_policy.specs.Kept.{member_view, class_view};

use crate::tree::{items_in, text_in, truth_in};
use indexmap::{IndexMap, IndexSet};
use std::alloc::{AllocError, Global};
use toml::Value;

/// A field or a native method: its name and its type.
#[derive(PartialEq, Eq, Hash, Drop)]
pub(crate) struct Member {
    pub(crate) name: String,
    pub(crate) signature: String,
}

/// A class but for its name. Its members keep the order of the text.
#[derive(Drop)]
pub(crate) struct Class {
    pub(crate) module_name: String,
    pub(crate) throwable: bool,
    pub(crate) fields: IndexSet<Member>,
    pub(crate) natives: IndexSet<Member>,
}

impl Member {
    fn from_value(alloc: Global, value: &Value) -> Result<Member, AllocError>
        ensures { IfOk result (λ m. member_view m ≡ member_stated (view value.now)) }
    {
        Ok(Member {
            name: String::from_str(alloc, text_in(value, "name"))?,
            signature: String::from_str(alloc, text_in(value, "type"))?,
        })
    }
}

// The members of an array, hashed by name and type.
fn members_from(alloc: Global, values: &[Value]) -> Result<IndexSet<Member>, AllocError>
    requires { has_repeat same_member (each_item member_stated (items_view values.now)) ≡ false }
    ensures { IfOk result (λ s. map member_view s.keys ≡ each_item member_stated (items_view values.now)) }
{
    let mut members = IndexSet::new(alloc);
    for value in values {
        members.insert(Member::from_value(alloc, value)?)?;
    }
    Ok(members)
}

impl Class {
    // A class with its name.
    fn from_value(alloc: Global, value: &Value) -> Result<(String, Class), AllocError>
        requires { repeats_member (class_stated (view value.now)) ≡ false }
        ensures { IfOk result (λ e. class_view e ≡ class_stated (view value.now)) }
    {
        let name = String::from_str(alloc, text_in(value, "name"))?;
        let class = Class {
            module_name: String::from_str(alloc, text_in(value, "module"))?,
            throwable: truth_in(value, "throwable"),
            fields: members_from(alloc, items_in(value, "fields"))?,
            natives: members_from(alloc, items_in(value, "natives"))?,
        };
        Ok((name, class))
    }
}

/// The classes of an array, hashed by their names.
pub(crate) fn classes_from(
    alloc: Global,
    values: &[Value],
) -> Result<IndexMap<String, Class>, AllocError>
    requires { states_twice (each_item class_stated (items_view values.now)) ≡ false }
    ensures { IfOk result (λ m. map class_view m.entries ≡ each_item class_stated (items_view values.now)) }
{
    let mut classes = IndexMap::new(alloc);
    for value in values {
        let (name, class) = Class::from_value(alloc, value)?;
        classes.insert(name, class)?;
    }
    Ok(classes)
}
