//! The functions, found by the bytes of their names.

ghost use Rattle.std.specs.Prelude.{◌≡◌, ◌<◌, ◌≢◌, IfSome, IfNone, Contains};
ghost use Rattle.jg_words.specs.Fun.{name_of};
ghost use Rattle.jg_words.specs.declared.fun.Fun.{Fun as FunOf};
ghost use Rattle.jg_words.specs.ByName.{IsByKey, name_key};

use crate::fun::Fun;
use crate::fun::arrays::ArraysFun;
use crate::fun::buffers::BuffersFun;
use crate::fun::exceptions::ExceptionsFun;
use crate::fun::frames::FramesFun;
use crate::fun::monitors::MonitorsFun;
use crate::fun::objects::ObjectsFun;
use crate::fun::refs::RefsFun;
use crate::fun::strings::StringsFun;
use crate::fun::vm::VmFun;
use crate::object::Primitive;

/// A number that few names have in common, of the length, the first and the fourth byte.
fn key_of(text: &[u8]) -> usize
    ensures is { result ≡ name_key text.now }
    ensures within { result < 64 }
{
    if text.len() < 4 {
        return 0;
    }
    (text.len() + usize::from(text[0]) * 8 + usize::from(text[3]) * 3) % 64
}

/// The functions, each in the row of its name's key; in a row those that are called most stand
/// first.
const BY_KEY: [&[Fun]; 64] = [
    &[
        Fun::Strings(StringsFun::GetStringLength),
        Fun::Strings(StringsFun::GetStringRegion),
    ],
    &[Fun::Buffers(BuffersFun::GetPrimitiveArrayCritical)],
    &[
        Fun::Buffers(BuffersFun::GetStringCritical),
        Fun::Buffers(BuffersFun::GetStringUTFChars),
        Fun::Arrays(ArraysFun::NewArray(Primitive::Byte)),
    ],
    &[Fun::Strings(StringsFun::GetStringUTFLength)],
    &[
        Fun::Arrays(ArraysFun::SetArrayRegion(Primitive::Int)),
        Fun::Arrays(ArraysFun::GetArrayRegion(Primitive::Short)),
    ],
    &[
        Fun::Refs(RefsFun::NewWeakGlobalRef),
        Fun::Arrays(ArraysFun::NewArray(Primitive::Char)),
        Fun::Arrays(ArraysFun::NewArray(Primitive::Boolean)),
    ],
    &[
        Fun::Frames(FramesFun::PushLocalFrame),
        Fun::Buffers(BuffersFun::GetArrayElements(Primitive::Short)),
    ],
    &[],
    &[Fun::Objects(ObjectsFun::SetField(Primitive::Long))],
    &[Fun::Arrays(ArraysFun::GetArrayLength)],
    &[Fun::Objects(ObjectsFun::GetField(Primitive::Byte))],
    &[],
    &[Fun::Buffers(BuffersFun::BufferRead)],
    &[
        Fun::Buffers(BuffersFun::BufferWrite),
        Fun::Vm(VmFun::GetEnv),
        Fun::Objects(ObjectsFun::GetField(Primitive::Char)),
        Fun::Objects(ObjectsFun::GetField(Primitive::Boolean)),
    ],
    &[Fun::Arrays(ArraysFun::SetArrayRegion(Primitive::Long))],
    &[],
    &[Fun::Arrays(ArraysFun::GetArrayRegion(Primitive::Byte))],
    &[
        Fun::Refs(RefsFun::NewGlobalRef),
        Fun::Buffers(BuffersFun::ReleaseStringChars),
    ],
    &[Fun::Buffers(BuffersFun::GetArrayElements(Primitive::Byte))],
    &[
        Fun::Objects(ObjectsFun::SetObjectField),
        Fun::Arrays(ArraysFun::GetArrayRegion(Primitive::Char)),
        Fun::Arrays(ArraysFun::GetArrayRegion(Primitive::Boolean)),
    ],
    &[
        Fun::Buffers(BuffersFun::ReleaseStringCritical),
        Fun::Buffers(BuffersFun::ReleaseStringUTFChars),
        Fun::Objects(ObjectsFun::GetFieldID),
    ],
    &[
        Fun::Buffers(BuffersFun::GetArrayElements(Primitive::Char)),
        Fun::Buffers(BuffersFun::GetArrayElements(Primitive::Boolean)),
    ],
    &[
        Fun::Buffers(BuffersFun::ReleaseArrayElements(Primitive::Int)),
        Fun::Arrays(ArraysFun::NewArray(Primitive::Int)),
        Fun::Vm(VmFun::DetachCurrentThread),
    ],
    &[
        Fun::Buffers(BuffersFun::ReleaseArrayElements(Primitive::Byte)),
        Fun::Vm(VmFun::LoadLibrary),
        Fun::Buffers(BuffersFun::ReleaseArrayElements(Primitive::Char)),
        Fun::Buffers(BuffersFun::ReleaseArrayElements(Primitive::Long)),
    ],
    &[Fun::Buffers(BuffersFun::ReleaseArrayElements(Primitive::Short))],
    &[],
    &[
        Fun::Vm(VmFun::RegisterNatives),
        Fun::Arrays(ArraysFun::SetObjectArrayElement),
        Fun::Frames(FramesFun::EnsureLocalCapacity),
        Fun::Buffers(BuffersFun::ReleaseArrayElements(Primitive::Boolean)),
    ],
    &[],
    &[Fun::Buffers(BuffersFun::ReleasePrimitiveArrayCritical)],
    &[Fun::Refs(RefsFun::DeleteLocalRef)],
    &[
        Fun::Objects(ObjectsFun::GetField(Primitive::Int)),
        Fun::Refs(RefsFun::DeleteGlobalRef),
        Fun::Objects(ObjectsFun::IsInstanceOf),
        Fun::Objects(ObjectsFun::SetField(Primitive::Short)),
    ],
    &[Fun::Refs(RefsFun::NewLocalRef)],
    &[
        Fun::Objects(ObjectsFun::AllocObject),
        Fun::Arrays(ArraysFun::NewArray(Primitive::Long)),
    ],
    &[],
    &[Fun::Refs(RefsFun::DeleteWeakGlobalRef)],
    &[Fun::Vm(VmFun::Collect)],
    &[
        Fun::Arrays(ArraysFun::GetArrayRegion(Primitive::Int)),
        Fun::Arrays(ArraysFun::SetArrayRegion(Primitive::Short)),
    ],
    &[
        Fun::Exceptions(ExceptionsFun::ExceptionCheck),
        Fun::Exceptions(ExceptionsFun::ExceptionClear),
        Fun::Objects(ObjectsFun::FindClass),
    ],
    &[Fun::Buffers(BuffersFun::GetArrayElements(Primitive::Int))],
    &[],
    &[
        Fun::Objects(ObjectsFun::GetField(Primitive::Long)),
        Fun::Vm(VmFun::UnregisterNatives),
        Fun::Exceptions(ExceptionsFun::ExceptionOccurred),
        Fun::Exceptions(ExceptionsFun::ExceptionDescribe),
    ],
    &[],
    &[Fun::Objects(ObjectsFun::SetField(Primitive::Byte))],
    &[Fun::Arrays(ArraysFun::NewObjectArray)],
    &[],
    &[
        Fun::Objects(ObjectsFun::SetField(Primitive::Char)),
        Fun::Objects(ObjectsFun::SetField(Primitive::Boolean)),
    ],
    &[
        Fun::Monitors(MonitorsFun::MonitorExit),
        Fun::Arrays(ArraysFun::GetArrayRegion(Primitive::Long)),
    ],
    &[Fun::Monitors(MonitorsFun::MonitorEnter)],
    &[
        Fun::Arrays(ArraysFun::SetArrayRegion(Primitive::Byte)),
        Fun::Buffers(BuffersFun::GetArrayElements(Primitive::Long)),
    ],
    &[Fun::Frames(FramesFun::PopLocalFrame)],
    &[
        Fun::Strings(StringsFun::NewString),
        Fun::Exceptions(ExceptionsFun::Throw),
    ],
    &[
        Fun::Objects(ObjectsFun::GetObjectField),
        Fun::Objects(ObjectsFun::GetObjectClass),
        Fun::Arrays(ArraysFun::SetArrayRegion(Primitive::Char)),
        Fun::Arrays(ArraysFun::SetArrayRegion(Primitive::Boolean)),
    ],
    &[],
    &[
        Fun::Refs(RefsFun::GetObjectRefType),
        Fun::Strings(StringsFun::NewStringUTF),
    ],
    &[
        Fun::Vm(VmFun::NativeEnter),
        Fun::Vm(VmFun::NativeLeave),
        Fun::Arrays(ArraysFun::NewArray(Primitive::Short)),
    ],
    &[Fun::Refs(RefsFun::IsSameObject)],
    &[],
    &[],
    &[Fun::Arrays(ArraysFun::GetObjectArrayElement)],
    &[],
    &[],
    &[],
    &[
        Fun::Objects(ObjectsFun::SetField(Primitive::Int)),
        Fun::Vm(VmFun::AttachCurrentThread),
        Fun::Objects(ObjectsFun::GetField(Primitive::Short)),
    ],
    &[Fun::Buffers(BuffersFun::GetStringChars)],
];

/// The functions of the table among which those are whose names have the key.
fn of_key(rows: &[&'static [Fun]; 64], key: usize) -> &'static [Fun]
    requires table { IsByKey rows.now }
    requires within { key < 64 }
    ensures { (f : FunOf) → name_key (name_of f) ≡ key → Contains result.now f }
{
    rows[key]
}

impl Fun {
    /// The function of the name that these bytes spell, if there is one.
    pub fn of_bytes(text: &[u8]) -> Option<Fun>
        ensures some { IfSome result (λ f. text.now ≡ name_of f) }
        ensures none { IfNone result ((f : FunOf) → text.now ≢ name_of f) }
    {
        of_key(&BY_KEY, key_of(text))
            .iter()
            .copied()
            .find(|f| f.name().as_bytes() == text)
    }
}
