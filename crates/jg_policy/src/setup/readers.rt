//! What a setup says of its classes, their members and their modules. Classes go by their
//! numbers: the base classes 0 to 14, and then those of the text in their order.
ghost use Rattle.std.specs.Prelude.{◌≡◌, ◌<◌, ◌≤◌, ◌&&◌, length, string_bytes, map, IfSome, position};
ghost use Rattle.std.specs.Option.{is_some, option_map};
ghost use Rattle.std.specs.Str.{bytes_eq};
ghost use Rattle.jg_policy.specs.Stated.{class_count};
ghost use Rattle.jg_policy.specs.NativeAccess.{access_of};
ghost use Rattle.jg_policy.specs.Classes.{class_named, is_throwable, class_name_of, module_name_of, module_of, module_names, member_named, field_named, native_at, native_named, member_type, field_type, class_at, fields_in};
ghost use Rattle.jg_policy.specs.Kept.{member_view};

use crate::access::{Access, Operation};
use crate::base::{BASE_COUNT, base_class, base_name};
use crate::class::Member;
use crate::setup::Setup;
use jg_words::{FieldId, Name};

impl Setup {
    /// How many classes there are.
    pub fn class_count(&self) -> u32
        ensures count { result ≡ class_count self.now }
        ensures within { result ≤ 1015 }
    {
        BASE_COUNT + self.classes.len() as u32
    }

    /// The number of the class of that name.
    pub fn class_named(&self, name: &Name) -> Option<u32>
        ensures number { result ≡ class_named self.now name.now }
        ensures within { IfSome result (λ class. class < class_count self.now) }
    {
        if let Some(base) = base_class(name.as_str()) {
            return Some(base as u32);
        }
        match self.classes.get_index_of(name.as_str()) {
            None => None,
            Some(place) => Some(BASE_COUNT + place as u32),
        }
    }

    /// The name of the class of a number; none where the number is that of no class.
    pub fn class_name(&self, class: u32) -> Option<&str>
        ensures { option_map (λ name. name.now) result ≡ class_name_of self.now class }
    {
        if class < BASE_COUNT {
            return base_name(class as usize);
        }
        match self.classes.get_index((class - BASE_COUNT) as usize) {
            None => None,
            Some((name, _)) => Some(name.as_str()),
        }
    }

    /// Whether the class's objects can be thrown.
    pub fn is_throwable(&self, class: u32) -> bool
        ensures { result ≡ is_throwable self.now class }
    {
        if class < BASE_COUNT {
            return class >= 10;
        }
        match self.classes.get_index((class - BASE_COUNT) as usize) {
            None => false,
            Some((_, found)) => found.throwable,
        }
    }

    /// The number of the class's module; none exactly where the number is that of no class. Two
    /// classes have equal numbers here exactly where the names of their modules are equal.
    pub fn module_of(&self, class: u32) -> Option<u32>
        ensures { result ≡ module_of self.now class }
    {
        if class < BASE_COUNT {
            return Some(0);
        }
        match self.settled.get((class - BASE_COUNT) as usize) {
            None => None,
            Some(settled) => Some(settled.home),
        }
    }

    /// The name of the class's module; none where the number is that of no class.
    pub fn module_name(&self, class: u32) -> Option<&str>
        ensures { option_map (λ name. name.now) result ≡ module_name_of self.now class }
    {
        if class < BASE_COUNT {
            return Some("java.base");
        }
        match self.classes.get_index((class - BASE_COUNT) as usize) {
            None => None,
            Some((_, found)) => Some(found.module_name.as_str()),
        }
    }

    /// The number, from 1, of the class's field of that name and type.
    pub fn field_named(&self, class: u32, name: &Name, signature: &Name) -> Option<u32>
        ensures { result ≡ field_named self.now class name.now signature.now }
    {
        if class < BASE_COUNT {
            return None;
        }
        match self.classes.get_index((class - BASE_COUNT) as usize) {
            None => None,
            Some((_, found)) => {
                member_named(found.fields.as_slice(), name.as_str(), signature.as_str())
            }
        }
    }

    /// How many fields the setup states for the class. They have the numbers from 1 on.
    pub fn field_count(&self, class: u32) -> u32
        ensures count { result ≡ length (fields_in (class_at self.now class)) }
        ensures within { result ≤ 100 }
    {
        if class < BASE_COUNT {
            return 0;
        }
        match self.classes.get_index((class - BASE_COUNT) as usize) {
            None => 0,
            Some((_, found)) => found.fields.as_slice().len() as u32,
        }
    }

    /// The type of a field, or none where the setup states no such field.
    pub fn field_type(&self, field: FieldId) -> Option<&str>
        ensures { option_map (λ signature. signature.now) result ≡ field_type self.now field.class field.field }
    {
        if field.class < BASE_COUNT {
            return None;
        }
        match self.classes.get_index((field.class - BASE_COUNT) as usize) {
            None => None,
            Some((_, found)) => member_type(found.fields.as_slice(), field.field),
        }
    }

    /// The number, from 1, of the class's native method of that name and type.
    pub fn native_named(&self, class: u32, name: &Name, signature: &Name) -> Option<u32>
        ensures { result ≡ native_named self.now class name.now signature.now }
    {
        if class < BASE_COUNT {
            return None;
        }
        match self.classes.get_index((class - BASE_COUNT) as usize) {
            None => None,
            Some((_, found)) => {
                member_named(found.natives.as_slice(), name.as_str(), signature.as_str())
            }
        }
    }

    /// Whether the setup states a native method of the class with this number. They count from 1.
    pub fn has_native(&self, class: u32, native: u32) -> bool
        ensures { result ≡ is_some (native_at self.now class native) }
    {
        if class < BASE_COUNT {
            return false;
        }
        match self.classes.get_index((class - BASE_COUNT) as usize) {
            None => false,
            Some((_, found)) => 1 <= native && native as usize <= found.natives.as_slice().len(),
        }
    }

    /// How many numbers of modules there may be: those that [`Setup::module_of`] answers are below.
    pub fn module_count(&self) -> u32
        ensures count { result ≡ length (module_names self.now) }
    {
        1 + self.classes.len() as u32
    }

    /// What is done with a use of native code by the class (JEP 472): it goes by the operation and
    /// the class's module alone. The class is one of the setup's, so below [`Setup::class_count`].
    pub fn access(&self, class: u32, operation: Operation) -> Access
        requires { class < class_count self.now }
        ensures { result ≡ access_of self.now class operation }
    {
        if class < BASE_COUNT {
            return Access::Allowed;
        }
        self.settled[(class - BASE_COUNT) as usize].access(operation)
    }
}

fn member_named(members: &[Member], name: &str, signature: &str) -> Option<u32>
    requires { length members.now ≤ 100 }
    ensures { result ≡ member_named name.now signature.now (map member_view members.now) }
{
    match place_of(members, name, signature) {
        None => None,
        Some(place) => Some(place as u32 + 1),
    }
}

fn place_of(members: &[Member], name: &str, signature: &str) -> Option<usize>
    ensures { result ≡ position (λ m. bytes_eq name.now (string_bytes m.name)
        && bytes_eq signature.now (string_bytes m.signature)) members.now }
{
    members.iter().position(|m| name == m.name.as_str() && signature == m.signature.as_str())
}

fn member_type(members: &[Member], number: u32) -> Option<&str>
    ensures { option_map (λ signature. signature.now) result ≡ member_type (map member_view members.now) number }
{
    if number == 0 {
        return None;
    }
    match members.get((number - 1) as usize) {
        None => None,
        Some(member) => Some(member.signature.as_str()),
    }
}
