//! The functions on buffers: their names, and when each may be called.

ghost use Rattle.std.specs.Prelude.{◌≡◌};
ghost use Rattle.jg_words.specs.Fun.{buffers_name};

use crate::object::Primitive;

/// Buffers: the items of an array or of a string, as native code is lent them (JNI Specification,
/// chapter 4, "Array Operations" and "String Operations"). A family over the primitive types is one
/// variant. `BufferRead` and `BufferWrite` are the guard's own: accesses to a buffer's memory.
#[derive(Clone, Copy, PartialEq, Eq)]
pub enum BuffersFun {
    GetArrayElements(Primitive),
    ReleaseArrayElements(Primitive),
    GetStringChars,
    ReleaseStringChars,
    GetStringUTFChars,
    ReleaseStringUTFChars,
    GetPrimitiveArrayCritical,
    ReleasePrimitiveArrayCritical,
    GetStringCritical,
    ReleaseStringCritical,
    BufferRead,
    BufferWrite,
}

impl BuffersFun {
    /// Its name.
    pub fn name(self) -> &'static str
        ensures { result.now ≡ buffers_name self }
    {
        match self {
            BuffersFun::GetArrayElements(Primitive::Boolean) => "GetBooleanArrayElements",
            BuffersFun::GetArrayElements(Primitive::Byte) => "GetByteArrayElements",
            BuffersFun::GetArrayElements(Primitive::Char) => "GetCharArrayElements",
            BuffersFun::GetArrayElements(Primitive::Short) => "GetShortArrayElements",
            BuffersFun::GetArrayElements(Primitive::Int) => "GetIntArrayElements",
            BuffersFun::GetArrayElements(Primitive::Long) => "GetLongArrayElements",
            BuffersFun::ReleaseArrayElements(Primitive::Boolean) => "ReleaseBooleanArrayElements",
            BuffersFun::ReleaseArrayElements(Primitive::Byte) => "ReleaseByteArrayElements",
            BuffersFun::ReleaseArrayElements(Primitive::Char) => "ReleaseCharArrayElements",
            BuffersFun::ReleaseArrayElements(Primitive::Short) => "ReleaseShortArrayElements",
            BuffersFun::ReleaseArrayElements(Primitive::Int) => "ReleaseIntArrayElements",
            BuffersFun::ReleaseArrayElements(Primitive::Long) => "ReleaseLongArrayElements",
            BuffersFun::GetStringChars => "GetStringChars",
            BuffersFun::ReleaseStringChars => "ReleaseStringChars",
            BuffersFun::GetStringUTFChars => "GetStringUTFChars",
            BuffersFun::ReleaseStringUTFChars => "ReleaseStringUTFChars",
            BuffersFun::GetPrimitiveArrayCritical => "GetPrimitiveArrayCritical",
            BuffersFun::ReleasePrimitiveArrayCritical => "ReleasePrimitiveArrayCritical",
            BuffersFun::GetStringCritical => "GetStringCritical",
            BuffersFun::ReleaseStringCritical => "ReleaseStringCritical",
            BuffersFun::BufferRead => "BufferRead",
            BuffersFun::BufferWrite => "BufferWrite",
        }
    }
}
