//! What operands each function takes.

ghost use Rattle.std.specs.Prelude.{◌≡◌, length, map};
ghost use Rattle.jg_text.specs.Operands.{operand_kinds, vm_kinds, refs_kinds, frames_kinds, exceptions_kinds, objects_kinds, strings_kinds, arrays_kinds, monitors_kinds, buffers_kinds};
ghost use Rattle.jg_text.specs.Places.{kind_meant};

use self::OperandKind::{Buffer, Field, LongNumber, Name, Number, Numbers, Reference};
use jg_words::{
    ArraysFun, BuffersFun, ExceptionsFun, FramesFun, Fun, MonitorsFun, ObjectsFun, RefsFun,
    StringsFun, VmFun,
};

/// What kind of operand stands at a place.
#[derive(Clone, Copy)]
pub enum OperandKind {
    /// A reference, or `null`.
    Reference,
    /// A number of 32 bits with a sign.
    Number,
    /// A number of 64 bits with a sign.
    LongNumber,
    /// A list of numbers of 64 bits with a sign.
    Numbers,
    /// A name, as of a class.
    Name,
    /// A field ID.
    Field,
    /// A buffer.
    Buffer,
}

fn vm_operands(fun: VmFun) -> &'static [OperandKind]
    ensures { map kind_meant result.now ≡ vm_kinds fun }
{
    match fun {
        VmFun::AttachCurrentThread | VmFun::DetachCurrentThread | VmFun::GetEnv => &[],
        VmFun::NativeEnter => &[Name, Name, Name],
        VmFun::NativeLeave => &[Reference],
        VmFun::LoadLibrary => &[Name, Name],
        VmFun::RegisterNatives => &[Reference, Name, Name],
        VmFun::UnregisterNatives => &[Reference],
        VmFun::Collect => &[],
    }
}

fn refs_operands(fun: RefsFun) -> &'static [OperandKind]
    ensures { map kind_meant result.now ≡ refs_kinds fun }
{
    match fun {
        RefsFun::IsSameObject => &[Reference, Reference],
        RefsFun::NewLocalRef
        | RefsFun::NewGlobalRef
        | RefsFun::NewWeakGlobalRef
        | RefsFun::DeleteLocalRef
        | RefsFun::DeleteGlobalRef
        | RefsFun::DeleteWeakGlobalRef
        | RefsFun::GetObjectRefType => &[Reference],
    }
}

fn frames_operands(fun: FramesFun) -> &'static [OperandKind]
    ensures { map kind_meant result.now ≡ frames_kinds fun }
{
    match fun {
        FramesFun::PushLocalFrame | FramesFun::EnsureLocalCapacity => &[Number],
        FramesFun::PopLocalFrame => &[Reference],
    }
}

fn exceptions_operands(fun: ExceptionsFun) -> &'static [OperandKind]
    ensures { map kind_meant result.now ≡ exceptions_kinds fun }
{
    match fun {
        ExceptionsFun::Throw => &[Reference],
        ExceptionsFun::ExceptionOccurred
        | ExceptionsFun::ExceptionDescribe
        | ExceptionsFun::ExceptionClear
        | ExceptionsFun::ExceptionCheck => &[],
    }
}

fn objects_operands(fun: ObjectsFun) -> &'static [OperandKind]
    ensures { map kind_meant result.now ≡ objects_kinds fun }
{
    match fun {
        ObjectsFun::FindClass => &[Name],
        ObjectsFun::GetObjectClass | ObjectsFun::AllocObject => &[Reference],
        ObjectsFun::IsInstanceOf => &[Reference, Reference],
        ObjectsFun::GetFieldID => &[Reference, Name, Name],
        ObjectsFun::GetField(_) | ObjectsFun::GetObjectField => &[Reference, Field],
        ObjectsFun::SetField(_) => &[Reference, Field, LongNumber],
        ObjectsFun::SetObjectField => &[Reference, Field, Reference],
    }
}

fn strings_operands(fun: StringsFun) -> &'static [OperandKind]
    ensures { map kind_meant result.now ≡ strings_kinds fun }
{
    match fun {
        StringsFun::NewString | StringsFun::NewStringUTF => &[Numbers],
        StringsFun::GetStringLength | StringsFun::GetStringUTFLength => &[Reference],
        StringsFun::GetStringRegion => &[Reference, Number, Number],
    }
}

fn arrays_operands(fun: ArraysFun) -> &'static [OperandKind]
    ensures { map kind_meant result.now ≡ arrays_kinds fun }
{
    match fun {
        ArraysFun::NewArray(_) => &[Number],
        ArraysFun::GetArrayLength => &[Reference],
        ArraysFun::GetArrayRegion(_) => &[Reference, Number, Number],
        ArraysFun::SetArrayRegion(_) => &[Reference, Number, Numbers],
        ArraysFun::NewObjectArray => &[Number, Reference, Reference],
        ArraysFun::GetObjectArrayElement => &[Reference, Number],
        ArraysFun::SetObjectArrayElement => &[Reference, Number, Reference],
    }
}

fn monitors_operands(fun: MonitorsFun) -> &'static [OperandKind]
    ensures { map kind_meant result.now ≡ monitors_kinds fun }
{
    match fun {
        MonitorsFun::MonitorEnter | MonitorsFun::MonitorExit => &[Reference],
    }
}

fn buffers_operands(fun: BuffersFun) -> &'static [OperandKind]
    ensures { map kind_meant result.now ≡ buffers_kinds fun }
{
    match fun {
        BuffersFun::GetArrayElements(_)
        | BuffersFun::GetStringChars
        | BuffersFun::GetStringUTFChars
        | BuffersFun::GetPrimitiveArrayCritical
        | BuffersFun::GetStringCritical => &[Reference],
        BuffersFun::ReleaseArrayElements(_) | BuffersFun::ReleasePrimitiveArrayCritical => {
            &[Reference, Buffer, Number]
        }
        BuffersFun::ReleaseStringChars
        | BuffersFun::ReleaseStringUTFChars
        | BuffersFun::ReleaseStringCritical => &[Reference, Buffer],
        BuffersFun::BufferRead => &[Buffer, Number],
        BuffersFun::BufferWrite => &[Buffer, Number, LongNumber],
    }
}

/// The kinds of the operands that the function takes, from left to right.
pub fn operands_of(fun: Fun) -> &'static [OperandKind]
    ensures { map kind_meant result.now ≡ operand_kinds fun }
{
    match fun {
        Fun::Vm(fun) => vm_operands(fun),
        Fun::Refs(fun) => refs_operands(fun),
        Fun::Frames(fun) => frames_operands(fun),
        Fun::Exceptions(fun) => exceptions_operands(fun),
        Fun::Objects(fun) => objects_operands(fun),
        Fun::Strings(fun) => strings_operands(fun),
        Fun::Arrays(fun) => arrays_operands(fun),
        Fun::Monitors(fun) => monitors_operands(fun),
        Fun::Buffers(fun) => buffers_operands(fun),
    }
}

/// How many operands the function takes.
pub(crate) fn arity(fun: Fun) -> usize
    ensures { result ≡ length (operand_kinds fun) }
{
    operands_of(fun).len()
}
