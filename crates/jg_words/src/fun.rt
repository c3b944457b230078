//! The functions, by group, and their names.

ghost use Rattle.std.specs.Prelude.{◌≡◌, Some};
ghost use Rattle.jg_words.specs.Fun.{name_of, named};
ghost use Rattle.jg_words.specs.declared.fun.Fun.{Fun as FunOf};

pub mod arrays;
pub mod buffers;
pub mod exceptions;
pub mod frames;
pub mod monitors;
pub mod objects;
pub mod refs;
pub mod strings;
pub mod vm;

use crate::object::Primitive;
use arrays::ArraysFun;
use buffers::BuffersFun;
use exceptions::ExceptionsFun;
use frames::FramesFun;
use monitors::MonitorsFun;
use objects::ObjectsFun;
use refs::RefsFun;
use strings::StringsFun;
use vm::VmFun;

/// A function of the JNI, or of this guard's own: which one, by group.
#[derive(Clone, Copy, PartialEq, Eq)]
pub enum Fun {
    Vm(VmFun),
    Refs(RefsFun),
    Frames(FramesFun),
    Exceptions(ExceptionsFun),
    Objects(ObjectsFun),
    Strings(StringsFun),
    Arrays(ArraysFun),
    Monitors(MonitorsFun),
    Buffers(BuffersFun),
}

impl Fun {
    /// All functions, by group.
    pub const ALL: [Fun; 95] = [
        Fun::Vm(VmFun::AttachCurrentThread),
        Fun::Vm(VmFun::DetachCurrentThread),
        Fun::Vm(VmFun::GetEnv),
        Fun::Vm(VmFun::NativeEnter),
        Fun::Vm(VmFun::NativeLeave),
        Fun::Vm(VmFun::LoadLibrary),
        Fun::Vm(VmFun::RegisterNatives),
        Fun::Vm(VmFun::UnregisterNatives),
        Fun::Vm(VmFun::Collect),
        Fun::Refs(RefsFun::NewLocalRef),
        Fun::Refs(RefsFun::NewGlobalRef),
        Fun::Refs(RefsFun::NewWeakGlobalRef),
        Fun::Refs(RefsFun::DeleteLocalRef),
        Fun::Refs(RefsFun::DeleteGlobalRef),
        Fun::Refs(RefsFun::DeleteWeakGlobalRef),
        Fun::Refs(RefsFun::IsSameObject),
        Fun::Refs(RefsFun::GetObjectRefType),
        Fun::Frames(FramesFun::PushLocalFrame),
        Fun::Frames(FramesFun::PopLocalFrame),
        Fun::Frames(FramesFun::EnsureLocalCapacity),
        Fun::Exceptions(ExceptionsFun::Throw),
        Fun::Exceptions(ExceptionsFun::ExceptionOccurred),
        Fun::Exceptions(ExceptionsFun::ExceptionDescribe),
        Fun::Exceptions(ExceptionsFun::ExceptionClear),
        Fun::Exceptions(ExceptionsFun::ExceptionCheck),
        Fun::Objects(ObjectsFun::FindClass),
        Fun::Objects(ObjectsFun::GetObjectClass),
        Fun::Objects(ObjectsFun::IsInstanceOf),
        Fun::Objects(ObjectsFun::AllocObject),
        Fun::Objects(ObjectsFun::GetFieldID),
        Fun::Objects(ObjectsFun::GetField(Primitive::Boolean)),
        Fun::Objects(ObjectsFun::GetField(Primitive::Byte)),
        Fun::Objects(ObjectsFun::GetField(Primitive::Char)),
        Fun::Objects(ObjectsFun::GetField(Primitive::Short)),
        Fun::Objects(ObjectsFun::GetField(Primitive::Int)),
        Fun::Objects(ObjectsFun::GetField(Primitive::Long)),
        Fun::Objects(ObjectsFun::GetObjectField),
        Fun::Objects(ObjectsFun::SetField(Primitive::Boolean)),
        Fun::Objects(ObjectsFun::SetField(Primitive::Byte)),
        Fun::Objects(ObjectsFun::SetField(Primitive::Char)),
        Fun::Objects(ObjectsFun::SetField(Primitive::Short)),
        Fun::Objects(ObjectsFun::SetField(Primitive::Int)),
        Fun::Objects(ObjectsFun::SetField(Primitive::Long)),
        Fun::Objects(ObjectsFun::SetObjectField),
        Fun::Strings(StringsFun::NewString),
        Fun::Strings(StringsFun::NewStringUTF),
        Fun::Strings(StringsFun::GetStringLength),
        Fun::Strings(StringsFun::GetStringUTFLength),
        Fun::Strings(StringsFun::GetStringRegion),
        Fun::Arrays(ArraysFun::NewArray(Primitive::Boolean)),
        Fun::Arrays(ArraysFun::NewArray(Primitive::Byte)),
        Fun::Arrays(ArraysFun::NewArray(Primitive::Char)),
        Fun::Arrays(ArraysFun::NewArray(Primitive::Short)),
        Fun::Arrays(ArraysFun::NewArray(Primitive::Int)),
        Fun::Arrays(ArraysFun::NewArray(Primitive::Long)),
        Fun::Arrays(ArraysFun::GetArrayLength),
        Fun::Arrays(ArraysFun::GetArrayRegion(Primitive::Boolean)),
        Fun::Arrays(ArraysFun::GetArrayRegion(Primitive::Byte)),
        Fun::Arrays(ArraysFun::GetArrayRegion(Primitive::Char)),
        Fun::Arrays(ArraysFun::GetArrayRegion(Primitive::Short)),
        Fun::Arrays(ArraysFun::GetArrayRegion(Primitive::Int)),
        Fun::Arrays(ArraysFun::GetArrayRegion(Primitive::Long)),
        Fun::Arrays(ArraysFun::SetArrayRegion(Primitive::Boolean)),
        Fun::Arrays(ArraysFun::SetArrayRegion(Primitive::Byte)),
        Fun::Arrays(ArraysFun::SetArrayRegion(Primitive::Char)),
        Fun::Arrays(ArraysFun::SetArrayRegion(Primitive::Short)),
        Fun::Arrays(ArraysFun::SetArrayRegion(Primitive::Int)),
        Fun::Arrays(ArraysFun::SetArrayRegion(Primitive::Long)),
        Fun::Arrays(ArraysFun::NewObjectArray),
        Fun::Arrays(ArraysFun::GetObjectArrayElement),
        Fun::Arrays(ArraysFun::SetObjectArrayElement),
        Fun::Monitors(MonitorsFun::MonitorEnter),
        Fun::Monitors(MonitorsFun::MonitorExit),
        Fun::Buffers(BuffersFun::GetArrayElements(Primitive::Boolean)),
        Fun::Buffers(BuffersFun::GetArrayElements(Primitive::Byte)),
        Fun::Buffers(BuffersFun::GetArrayElements(Primitive::Char)),
        Fun::Buffers(BuffersFun::GetArrayElements(Primitive::Short)),
        Fun::Buffers(BuffersFun::GetArrayElements(Primitive::Int)),
        Fun::Buffers(BuffersFun::GetArrayElements(Primitive::Long)),
        Fun::Buffers(BuffersFun::ReleaseArrayElements(Primitive::Boolean)),
        Fun::Buffers(BuffersFun::ReleaseArrayElements(Primitive::Byte)),
        Fun::Buffers(BuffersFun::ReleaseArrayElements(Primitive::Char)),
        Fun::Buffers(BuffersFun::ReleaseArrayElements(Primitive::Short)),
        Fun::Buffers(BuffersFun::ReleaseArrayElements(Primitive::Int)),
        Fun::Buffers(BuffersFun::ReleaseArrayElements(Primitive::Long)),
        Fun::Buffers(BuffersFun::GetStringChars),
        Fun::Buffers(BuffersFun::ReleaseStringChars),
        Fun::Buffers(BuffersFun::GetStringUTFChars),
        Fun::Buffers(BuffersFun::ReleaseStringUTFChars),
        Fun::Buffers(BuffersFun::GetPrimitiveArrayCritical),
        Fun::Buffers(BuffersFun::ReleasePrimitiveArrayCritical),
        Fun::Buffers(BuffersFun::GetStringCritical),
        Fun::Buffers(BuffersFun::ReleaseStringCritical),
        Fun::Buffers(BuffersFun::BufferRead),
        Fun::Buffers(BuffersFun::BufferWrite),
    ];

    /// Its name, as scripts and journals spell it.
    pub fn name(self) -> &'static str
        ensures { result.now ≡ name_of self }
    {
        match self {
            Fun::Vm(fun) => fun.name(),
            Fun::Refs(fun) => fun.name(),
            Fun::Frames(fun) => fun.name(),
            Fun::Exceptions(fun) => fun.name(),
            Fun::Objects(fun) => fun.name(),
            Fun::Strings(fun) => fun.name(),
            Fun::Arrays(fun) => fun.name(),
            Fun::Monitors(fun) => fun.name(),
            Fun::Buffers(fun) => fun.name(),
        }
    }

    /// The function of that name, if there is one.
    pub fn of_name(name: &str) -> Option<Fun>
        ensures { result ≡ named name.now }
    {
        Fun::of_bytes(name.as_bytes())
    }
}

/// Each function is found by its name.
pub fn of_name_undoes_name()
    ensures { (fun : FunOf) → named (name_of fun) ≡ Some fun }
{}
