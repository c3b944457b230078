//! The functions on classes, objects and fields, and their names.

ghost use Rattle.std.specs.Prelude.{◌≡◌};
ghost use Rattle.jg_words.specs.Fun.{objects_name};

use crate::object::Primitive;

/// Classes and objects (JNI Specification, chapter 4, "Class Operations", "Object Operations",
/// "Accessing Fields of Objects"). A family over the primitive types is one variant.
#[derive(Clone, Copy, PartialEq, Eq)]
pub enum ObjectsFun {
    FindClass,
    GetObjectClass,
    IsInstanceOf,
    AllocObject,
    GetFieldID,
    GetField(Primitive),
    GetObjectField,
    SetField(Primitive),
    SetObjectField,
}

impl ObjectsFun {
    /// Its name.
    pub fn name(self) -> &'static str
        ensures { result.now ≡ objects_name self }
    {
        match self {
            ObjectsFun::FindClass => "FindClass",
            ObjectsFun::GetObjectClass => "GetObjectClass",
            ObjectsFun::IsInstanceOf => "IsInstanceOf",
            ObjectsFun::AllocObject => "AllocObject",
            ObjectsFun::GetFieldID => "GetFieldID",
            ObjectsFun::GetField(Primitive::Boolean) => "GetBooleanField",
            ObjectsFun::GetField(Primitive::Byte) => "GetByteField",
            ObjectsFun::GetField(Primitive::Char) => "GetCharField",
            ObjectsFun::GetField(Primitive::Short) => "GetShortField",
            ObjectsFun::GetField(Primitive::Int) => "GetIntField",
            ObjectsFun::GetField(Primitive::Long) => "GetLongField",
            ObjectsFun::GetObjectField => "GetObjectField",
            ObjectsFun::SetField(Primitive::Boolean) => "SetBooleanField",
            ObjectsFun::SetField(Primitive::Byte) => "SetByteField",
            ObjectsFun::SetField(Primitive::Char) => "SetCharField",
            ObjectsFun::SetField(Primitive::Short) => "SetShortField",
            ObjectsFun::SetField(Primitive::Int) => "SetIntField",
            ObjectsFun::SetField(Primitive::Long) => "SetLongField",
            ObjectsFun::SetObjectField => "SetObjectField",
        }
    }
}
