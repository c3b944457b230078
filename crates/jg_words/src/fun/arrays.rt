//! The functions on arrays, and their names.

ghost use Rattle.std.specs.Prelude.{◌≡◌};
ghost use Rattle.jg_words.specs.Fun.{arrays_name};

use crate::object::Primitive;

/// Arrays (JNI Specification, chapter 4, "Array Operations"). A family over the primitive types is one
/// variant.
#[derive(Clone, Copy, PartialEq, Eq)]
pub enum ArraysFun {
    NewArray(Primitive),
    GetArrayLength,
    GetArrayRegion(Primitive),
    SetArrayRegion(Primitive),
    NewObjectArray,
    GetObjectArrayElement,
    SetObjectArrayElement,
}

impl ArraysFun {
    /// Its name.
    pub fn name(self) -> &'static str
        ensures { result.now ≡ arrays_name self }
    {
        match self {
            ArraysFun::NewArray(Primitive::Boolean) => "NewBooleanArray",
            ArraysFun::NewArray(Primitive::Byte) => "NewByteArray",
            ArraysFun::NewArray(Primitive::Char) => "NewCharArray",
            ArraysFun::NewArray(Primitive::Short) => "NewShortArray",
            ArraysFun::NewArray(Primitive::Int) => "NewIntArray",
            ArraysFun::NewArray(Primitive::Long) => "NewLongArray",
            ArraysFun::GetArrayLength => "GetArrayLength",
            ArraysFun::GetArrayRegion(Primitive::Boolean) => "GetBooleanArrayRegion",
            ArraysFun::GetArrayRegion(Primitive::Byte) => "GetByteArrayRegion",
            ArraysFun::GetArrayRegion(Primitive::Char) => "GetCharArrayRegion",
            ArraysFun::GetArrayRegion(Primitive::Short) => "GetShortArrayRegion",
            ArraysFun::GetArrayRegion(Primitive::Int) => "GetIntArrayRegion",
            ArraysFun::GetArrayRegion(Primitive::Long) => "GetLongArrayRegion",
            ArraysFun::SetArrayRegion(Primitive::Boolean) => "SetBooleanArrayRegion",
            ArraysFun::SetArrayRegion(Primitive::Byte) => "SetByteArrayRegion",
            ArraysFun::SetArrayRegion(Primitive::Char) => "SetCharArrayRegion",
            ArraysFun::SetArrayRegion(Primitive::Short) => "SetShortArrayRegion",
            ArraysFun::SetArrayRegion(Primitive::Int) => "SetIntArrayRegion",
            ArraysFun::SetArrayRegion(Primitive::Long) => "SetLongArrayRegion",
            ArraysFun::NewObjectArray => "NewObjectArray",
            ArraysFun::GetObjectArrayElement => "GetObjectArrayElement",
            ArraysFun::SetObjectArrayElement => "SetObjectArrayElement",
        }
    }
}
