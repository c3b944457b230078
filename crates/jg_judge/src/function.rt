//! The function of a question. The places are those of the table of functions.

ghost use Rattle.std.specs.Prelude.{◌≡◌, Some, slice_get};
ghost use Rattle.jg_words.specs.Call.{fun_of};
ghost use Rattle.jg_words.specs.declared.fun.Fun.TheVariants.{Arrays, Buffers, Exceptions, Frames, Monitors, Objects, Refs, Strings, Vm};
ghost use Rattle.jg_rows.specs.Table.{functions};
ghost use Rattle.jg_judge.specs.Written.{row_for};

use jg_words::{
    ArraysFun, BuffersFun, Call, ExceptionsFun, FramesFun, Fun, MonitorsFun, ObjectsFun, Primitive,
    RefsFun, StringsFun, VmFun,
};

#[inline(always)]
fn vm_place(fun: VmFun) -> u16
    ensures { slice_get functions result ≡ Some (row_for (Vm fun)) }
{
    match fun {
        VmFun::AttachCurrentThread => 233,
        VmFun::DetachCurrentThread => 235,
        VmFun::GetEnv => 236,
        VmFun::NativeEnter => 237,
        VmFun::NativeLeave => 238,
        VmFun::LoadLibrary => 239,
        VmFun::RegisterNatives => 220,
        VmFun::UnregisterNatives => 221,
        VmFun::Collect => 240,
    }
}

#[inline(always)]
fn refs_place(fun: RefsFun) -> u16
    ensures { slice_get functions result ≡ Some (row_for (Refs fun)) }
{
    match fun {
        RefsFun::NewLocalRef => 20,
        RefsFun::NewGlobalRef => 14,
        RefsFun::NewWeakGlobalRef => 21,
        RefsFun::DeleteLocalRef => 16,
        RefsFun::DeleteGlobalRef => 15,
        RefsFun::DeleteWeakGlobalRef => 22,
        RefsFun::IsSameObject => 30,
        RefsFun::GetObjectRefType => 28,
    }
}

#[inline(always)]
fn frames_place(fun: FramesFun) -> u16
    ensures { slice_get functions result ≡ Some (row_for (Frames fun)) }
{
    match fun {
        FramesFun::PushLocalFrame => 18,
        FramesFun::PopLocalFrame => 19,
        FramesFun::EnsureLocalCapacity => 17,
    }
}

#[inline(always)]
fn exceptions_place(fun: ExceptionsFun) -> u16
    ensures { slice_get functions result ≡ Some (row_for (Exceptions fun)) }
{
    match fun {
        ExceptionsFun::Throw => 7,
        ExceptionsFun::ExceptionOccurred => 9,
        ExceptionsFun::ExceptionDescribe => 10,
        ExceptionsFun::ExceptionClear => 11,
        ExceptionsFun::ExceptionCheck => 13,
    }
}

#[inline(always)]
fn objects_place(fun: ObjectsFun) -> u16
    ensures { slice_get functions result ≡ Some (row_for (Objects fun)) }
{
    match fun {
        ObjectsFun::FindClass => 2,
        ObjectsFun::GetObjectClass => 27,
        ObjectsFun::IsInstanceOf => 29,
        ObjectsFun::AllocObject => 23,
        ObjectsFun::GetFieldID => 31,
        ObjectsFun::GetField(Primitive::Boolean) => 33,
        ObjectsFun::GetField(Primitive::Byte) => 34,
        ObjectsFun::GetField(Primitive::Char) => 35,
        ObjectsFun::GetField(Primitive::Short) => 36,
        ObjectsFun::GetField(Primitive::Int) => 37,
        ObjectsFun::GetField(Primitive::Long) => 38,
        ObjectsFun::GetObjectField => 32,
        ObjectsFun::SetField(Primitive::Boolean) => 42,
        ObjectsFun::SetField(Primitive::Byte) => 43,
        ObjectsFun::SetField(Primitive::Char) => 44,
        ObjectsFun::SetField(Primitive::Short) => 45,
        ObjectsFun::SetField(Primitive::Int) => 46,
        ObjectsFun::SetField(Primitive::Long) => 47,
        ObjectsFun::SetObjectField => 41,
    }
}

#[inline(always)]
fn strings_place(fun: StringsFun) -> u16
    ensures { slice_get functions result ≡ Some (row_for (Strings fun)) }
{
    match fun {
        StringsFun::NewString => 161,
        StringsFun::NewStringUTF => 165,
        StringsFun::GetStringLength => 162,
        StringsFun::GetStringUTFLength => 166,
        StringsFun::GetStringRegion => 170,
    }
}

#[inline(always)]
fn arrays_place(fun: ArraysFun) -> u16
    ensures { slice_get functions result ≡ Some (row_for (Arrays fun)) }
{
    match fun {
        ArraysFun::NewArray(Primitive::Boolean) => 178,
        ArraysFun::NewArray(Primitive::Byte) => 179,
        ArraysFun::NewArray(Primitive::Char) => 180,
        ArraysFun::NewArray(Primitive::Short) => 181,
        ArraysFun::NewArray(Primitive::Int) => 182,
        ArraysFun::NewArray(Primitive::Long) => 183,
        ArraysFun::GetArrayLength => 174,
        ArraysFun::GetArrayRegion(Primitive::Boolean) => 202,
        ArraysFun::GetArrayRegion(Primitive::Byte) => 203,
        ArraysFun::GetArrayRegion(Primitive::Char) => 204,
        ArraysFun::GetArrayRegion(Primitive::Short) => 205,
        ArraysFun::GetArrayRegion(Primitive::Int) => 206,
        ArraysFun::GetArrayRegion(Primitive::Long) => 207,
        ArraysFun::SetArrayRegion(Primitive::Boolean) => 210,
        ArraysFun::SetArrayRegion(Primitive::Byte) => 211,
        ArraysFun::SetArrayRegion(Primitive::Char) => 212,
        ArraysFun::SetArrayRegion(Primitive::Short) => 213,
        ArraysFun::SetArrayRegion(Primitive::Int) => 214,
        ArraysFun::SetArrayRegion(Primitive::Long) => 215,
        ArraysFun::NewObjectArray => 175,
        ArraysFun::GetObjectArrayElement => 176,
        ArraysFun::SetObjectArrayElement => 177,
    }
}

#[inline(always)]
fn monitors_place(fun: MonitorsFun) -> u16
    ensures { slice_get functions result ≡ Some (row_for (Monitors fun)) }
{
    match fun {
        MonitorsFun::MonitorEnter => 222,
        MonitorsFun::MonitorExit => 223,
    }
}

#[inline(always)]
fn buffers_place(fun: BuffersFun) -> u16
    ensures { slice_get functions result ≡ Some (row_for (Buffers fun)) }
{
    match fun {
        BuffersFun::GetArrayElements(Primitive::Boolean) => 186,
        BuffersFun::GetArrayElements(Primitive::Byte) => 187,
        BuffersFun::GetArrayElements(Primitive::Char) => 188,
        BuffersFun::GetArrayElements(Primitive::Short) => 189,
        BuffersFun::GetArrayElements(Primitive::Int) => 190,
        BuffersFun::GetArrayElements(Primitive::Long) => 191,
        BuffersFun::ReleaseArrayElements(Primitive::Boolean) => 194,
        BuffersFun::ReleaseArrayElements(Primitive::Byte) => 195,
        BuffersFun::ReleaseArrayElements(Primitive::Char) => 196,
        BuffersFun::ReleaseArrayElements(Primitive::Short) => 197,
        BuffersFun::ReleaseArrayElements(Primitive::Int) => 198,
        BuffersFun::ReleaseArrayElements(Primitive::Long) => 199,
        BuffersFun::GetStringChars => 163,
        BuffersFun::ReleaseStringChars => 164,
        BuffersFun::GetStringUTFChars => 168,
        BuffersFun::ReleaseStringUTFChars => 169,
        BuffersFun::GetPrimitiveArrayCritical => 218,
        BuffersFun::ReleasePrimitiveArrayCritical => 219,
        BuffersFun::GetStringCritical => 172,
        BuffersFun::ReleaseStringCritical => 173,
        BuffersFun::BufferRead => 241,
        BuffersFun::BufferWrite => 242,
    }
}

#[inline(always)]
fn place_of(fun: Fun) -> u16
    ensures { slice_get functions result ≡ Some (row_for fun) }
{
    match fun {
        Fun::Vm(fun) => vm_place(fun),
        Fun::Refs(fun) => refs_place(fun),
        Fun::Frames(fun) => frames_place(fun),
        Fun::Exceptions(fun) => exceptions_place(fun),
        Fun::Objects(fun) => objects_place(fun),
        Fun::Strings(fun) => strings_place(fun),
        Fun::Arrays(fun) => arrays_place(fun),
        Fun::Monitors(fun) => monitors_place(fun),
        Fun::Buffers(fun) => buffers_place(fun),
    }
}

/// The place of the call's function in the table of functions.
#[inline(always)]
pub fn function_of(call: &Call) -> u16
    ensures { slice_get functions result ≡ Some (row_for (fun_of call.now)) }
{
    place_of(call.fun())
}
