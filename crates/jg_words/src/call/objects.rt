//! Calls on classes, objects and fields, with their operands.

ghost use Rattle.std.specs.Prelude.{◌≡◌, IfOk};
ghost use Rattle.jg_words.specs.Call.{objects_fun};

use crate::fun::objects::ObjectsFun;
use crate::name::Name;
use crate::object::{FieldId, Primitive};
use crate::reference::Ref;
use std::alloc::AllocError;

/// Classes and objects (JNI Specification, chapter 4, "Class Operations", "Object Operations",
/// "Accessing Fields of Objects"). A family over the primitive types is one variant.
#[derive(PartialEq, Eq, Drop)]
pub enum ObjectsCall {
    FindClass {
        name: Name,
    },
    GetObjectClass {
        object: Ref,
    },
    IsInstanceOf {
        object: Ref,
        class: Ref,
    },
    AllocObject {
        class: Ref,
    },
    GetFieldID {
        class: Ref,
        field: Name,
        signature: Name,
    },
    GetField {
        primitive: Primitive,
        object: Ref,
        field: FieldId,
    },
    GetObjectField {
        object: Ref,
        field: FieldId,
    },
    SetField {
        primitive: Primitive,
        object: Ref,
        field: FieldId,
        value: i64,
    },
    SetObjectField {
        object: Ref,
        field: FieldId,
        value: Ref,
    },
}

impl ObjectsCall {
    /// Its function.
    pub fn fun(&self) -> ObjectsFun
        ensures { result ≡ objects_fun self.now }
    {
        match self {
            ObjectsCall::FindClass { .. } => ObjectsFun::FindClass,
            ObjectsCall::GetObjectClass { .. } => ObjectsFun::GetObjectClass,
            ObjectsCall::IsInstanceOf { .. } => ObjectsFun::IsInstanceOf,
            ObjectsCall::AllocObject { .. } => ObjectsFun::AllocObject,
            ObjectsCall::GetFieldID { .. } => ObjectsFun::GetFieldID,
            ObjectsCall::GetField { primitive, .. } => ObjectsFun::GetField(*primitive),
            ObjectsCall::GetObjectField { .. } => ObjectsFun::GetObjectField,
            ObjectsCall::SetField { primitive, .. } => ObjectsFun::SetField(*primitive),
            ObjectsCall::SetObjectField { .. } => ObjectsFun::SetObjectField,
        }
    }

    /// An equal call. Fails only for want of memory.
    pub fn try_copy(&self) -> Result<ObjectsCall, AllocError>
        ensures { IfOk result (λ copy. copy ≡ self.now) }
    {
        match self {
            ObjectsCall::FindClass { name } => Ok(ObjectsCall::FindClass {
                name: name.try_copy()?,
            }),
            ObjectsCall::GetObjectClass { object } => Ok(ObjectsCall::GetObjectClass {
                object: *object,
            }),
            ObjectsCall::IsInstanceOf { object, class } => Ok(ObjectsCall::IsInstanceOf {
                object: *object,
                class: *class,
            }),
            ObjectsCall::AllocObject { class } => Ok(ObjectsCall::AllocObject { class: *class }),
            ObjectsCall::GetFieldID {
                class,
                field,
                signature,
            } => Ok(ObjectsCall::GetFieldID {
                class: *class,
                field: field.try_copy()?,
                signature: signature.try_copy()?,
            }),
            ObjectsCall::GetField {
                primitive,
                object,
                field,
            } => Ok(ObjectsCall::GetField {
                primitive: *primitive,
                object: *object,
                field: *field,
            }),
            ObjectsCall::GetObjectField { object, field } => Ok(ObjectsCall::GetObjectField {
                object: *object,
                field: *field,
            }),
            ObjectsCall::SetField {
                primitive,
                object,
                field,
                value,
            } => Ok(ObjectsCall::SetField {
                primitive: *primitive,
                object: *object,
                field: *field,
                value: *value,
            }),
            ObjectsCall::SetObjectField {
                object,
                field,
                value,
            } => Ok(ObjectsCall::SetObjectField {
                object: *object,
                field: *field,
                value: *value,
            }),
        }
    }
}
