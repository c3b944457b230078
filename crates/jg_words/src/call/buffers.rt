//! Calls that lend buffers, take them back, and read and write their memory, with their operands.

ghost use Rattle.std.specs.Prelude.{◌≡◌};
ghost use Rattle.jg_words.specs.Call.{buffers_fun};

use crate::buffer::BufId;
use crate::fun::buffers::BuffersFun;
use crate::object::Primitive;
use crate::reference::Ref;

/// Buffers (JNI Specification, chapter 4, "Array Operations" and "String Operations"). `mode` is 0,
/// `JNI_COMMIT` (1) or `JNI_ABORT` (2); `index` counts items, from 0. That an access to a buffer's
/// memory is a call is the guard's own.
#[derive(PartialEq, Eq, Drop)]
pub enum BuffersCall {
    GetArrayElements {
        element: Primitive,
        array: Ref,
    },
    ReleaseArrayElements {
        element: Primitive,
        array: Ref,
        buffer: BufId,
        mode: i32,
    },
    GetStringChars {
        string: Ref,
    },
    ReleaseStringChars {
        string: Ref,
        buffer: BufId,
    },
    GetStringUTFChars {
        string: Ref,
    },
    ReleaseStringUTFChars {
        string: Ref,
        buffer: BufId,
    },
    GetPrimitiveArrayCritical {
        array: Ref,
    },
    ReleasePrimitiveArrayCritical {
        array: Ref,
        buffer: BufId,
        mode: i32,
    },
    GetStringCritical {
        string: Ref,
    },
    ReleaseStringCritical {
        string: Ref,
        buffer: BufId,
    },
    BufferRead {
        buffer: BufId,
        index: i32,
    },
    BufferWrite {
        buffer: BufId,
        index: i32,
        value: i64,
    },
}

impl BuffersCall {
    /// Its function.
    pub fn fun(&self) -> BuffersFun
        ensures { result ≡ buffers_fun self.now }
    {
        match self {
            BuffersCall::GetArrayElements { element, .. } => BuffersFun::GetArrayElements(*element),
            BuffersCall::ReleaseArrayElements { element, .. } => BuffersFun::ReleaseArrayElements(
                *element,
            ),
            BuffersCall::GetStringChars { .. } => BuffersFun::GetStringChars,
            BuffersCall::ReleaseStringChars { .. } => BuffersFun::ReleaseStringChars,
            BuffersCall::GetStringUTFChars { .. } => BuffersFun::GetStringUTFChars,
            BuffersCall::ReleaseStringUTFChars { .. } => BuffersFun::ReleaseStringUTFChars,
            BuffersCall::GetPrimitiveArrayCritical { .. } => BuffersFun::GetPrimitiveArrayCritical,
            BuffersCall::ReleasePrimitiveArrayCritical { .. } =>
                BuffersFun::ReleasePrimitiveArrayCritical,
            BuffersCall::GetStringCritical { .. } => BuffersFun::GetStringCritical,
            BuffersCall::ReleaseStringCritical { .. } => BuffersFun::ReleaseStringCritical,
            BuffersCall::BufferRead { .. } => BuffersFun::BufferRead,
            BuffersCall::BufferWrite { .. } => BuffersFun::BufferWrite,
        }
    }

    /// An equal call.
    pub fn copy(&self) -> BuffersCall
        ensures { result ≡ self.now }
    {
        match self {
            BuffersCall::GetArrayElements { element, array } => BuffersCall::GetArrayElements {
                element: *element,
                array: *array,
            },
            BuffersCall::ReleaseArrayElements {
                element,
                array,
                buffer,
                mode,
            } => BuffersCall::ReleaseArrayElements {
                element: *element,
                array: *array,
                buffer: *buffer,
                mode: *mode,
            },
            BuffersCall::GetStringChars { string } => BuffersCall::GetStringChars {
                string: *string,
            },
            BuffersCall::ReleaseStringChars { string, buffer } => BuffersCall::ReleaseStringChars {
                string: *string,
                buffer: *buffer,
            },
            BuffersCall::GetStringUTFChars { string } => BuffersCall::GetStringUTFChars {
                string: *string,
            },
            BuffersCall::ReleaseStringUTFChars { string, buffer } =>
                BuffersCall::ReleaseStringUTFChars {
                    string: *string,
                    buffer: *buffer,
                },
            BuffersCall::GetPrimitiveArrayCritical { array } =>
                BuffersCall::GetPrimitiveArrayCritical { array: *array },
            BuffersCall::ReleasePrimitiveArrayCritical {
                array,
                buffer,
                mode,
            } => BuffersCall::ReleasePrimitiveArrayCritical {
                array: *array,
                buffer: *buffer,
                mode: *mode,
            },
            BuffersCall::GetStringCritical { string } => BuffersCall::GetStringCritical {
                string: *string,
            },
            BuffersCall::ReleaseStringCritical { string, buffer } =>
                BuffersCall::ReleaseStringCritical {
                    string: *string,
                    buffer: *buffer,
                },
            BuffersCall::BufferRead { buffer, index } => BuffersCall::BufferRead {
                buffer: *buffer,
                index: *index,
            },
            BuffersCall::BufferWrite {
                buffer,
                index,
                value,
            } => BuffersCall::BufferWrite {
                buffer: *buffer,
                index: *index,
                value: *value,
            },
        }
    }
}
