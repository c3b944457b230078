//! Calls on arrays, with their operands.

ghost use Rattle.std.specs.Prelude.{◌≡◌, IfOk};
ghost use Rattle.jg_words.specs.Call.{arrays_fun};

use crate::fun::arrays::ArraysFun;
use crate::items::Items;
use crate::object::Primitive;
use crate::reference::Ref;
use std::alloc::AllocError;

/// Arrays (JNI Specification, chapter 4, "Array Operations"). `start`, `length` and `index` count items,
/// from 0; `fill` is what each place of a new array of references holds.
#[derive(PartialEq, Eq, Drop)]
pub enum ArraysCall {
    NewArray {
        element: Primitive,
        length: i32,
    },
    GetArrayLength {
        array: Ref,
    },
    GetArrayRegion {
        element: Primitive,
        array: Ref,
        start: i32,
        length: i32,
    },
    SetArrayRegion {
        element: Primitive,
        array: Ref,
        start: i32,
        values: Items,
    },
    NewObjectArray {
        length: i32,
        class: Ref,
        fill: Ref,
    },
    GetObjectArrayElement {
        array: Ref,
        index: i32,
    },
    SetObjectArrayElement {
        array: Ref,
        index: i32,
        value: Ref,
    },
}

impl ArraysCall {
    /// Its function.
    pub fn fun(&self) -> ArraysFun
        ensures { result ≡ arrays_fun self.now }
    {
        match self {
            ArraysCall::NewArray { element, .. } => ArraysFun::NewArray(*element),
            ArraysCall::GetArrayLength { .. } => ArraysFun::GetArrayLength,
            ArraysCall::GetArrayRegion { element, .. } => ArraysFun::GetArrayRegion(*element),
            ArraysCall::SetArrayRegion { element, .. } => ArraysFun::SetArrayRegion(*element),
            ArraysCall::NewObjectArray { .. } => ArraysFun::NewObjectArray,
            ArraysCall::GetObjectArrayElement { .. } => ArraysFun::GetObjectArrayElement,
            ArraysCall::SetObjectArrayElement { .. } => ArraysFun::SetObjectArrayElement,
        }
    }

    /// An equal call. Fails only for want of memory.
    pub fn try_copy(&self) -> Result<ArraysCall, AllocError>
        ensures { IfOk result (λ copy. copy ≡ self.now) }
    {
        match self {
            ArraysCall::NewArray { element, length } => Ok(ArraysCall::NewArray {
                element: *element,
                length: *length,
            }),
            ArraysCall::GetArrayLength { array } => Ok(ArraysCall::GetArrayLength {
                array: *array,
            }),
            ArraysCall::GetArrayRegion {
                element,
                array,
                start,
                length,
            } => Ok(ArraysCall::GetArrayRegion {
                element: *element,
                array: *array,
                start: *start,
                length: *length,
            }),
            ArraysCall::SetArrayRegion {
                element,
                array,
                start,
                values,
            } => Ok(ArraysCall::SetArrayRegion {
                element: *element,
                array: *array,
                start: *start,
                values: values.try_copy()?,
            }),
            ArraysCall::NewObjectArray {
                length,
                class,
                fill,
            } => Ok(ArraysCall::NewObjectArray {
                length: *length,
                class: *class,
                fill: *fill,
            }),
            ArraysCall::GetObjectArrayElement { array, index } => Ok(
                ArraysCall::GetObjectArrayElement {
                    array: *array,
                    index: *index,
                },
            ),
            ArraysCall::SetObjectArrayElement {
                array,
                index,
                value,
            } => Ok(ArraysCall::SetObjectArrayElement {
                array: *array,
                index: *index,
                value: *value,
            }),
        }
    }
}
