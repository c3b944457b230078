//! Calls on strings, with their operands.

ghost use Rattle.std.specs.Prelude.{◌≡◌, IfOk};
ghost use Rattle.jg_words.specs.Call.{strings_fun};

use crate::fun::strings::StringsFun;
use crate::items::Items;
use crate::reference::Ref;
use std::alloc::AllocError;

/// Strings (JNI Specification, chapter 4, "String Operations"). `units` are UTF-16 units, `bytes` those
/// of modified UTF-8; `start` and `length` count units, from 0.
#[derive(PartialEq, Eq, Drop)]
pub enum StringsCall {
    NewString {
        units: Items,
    },
    NewStringUTF {
        bytes: Items,
    },
    GetStringLength {
        string: Ref,
    },
    GetStringUTFLength {
        string: Ref,
    },
    GetStringRegion {
        string: Ref,
        start: i32,
        length: i32,
    },
}

impl StringsCall {
    /// Its function.
    pub fn fun(&self) -> StringsFun
        ensures { result ≡ strings_fun self.now }
    {
        match self {
            StringsCall::NewString { .. } => StringsFun::NewString,
            StringsCall::NewStringUTF { .. } => StringsFun::NewStringUTF,
            StringsCall::GetStringLength { .. } => StringsFun::GetStringLength,
            StringsCall::GetStringUTFLength { .. } => StringsFun::GetStringUTFLength,
            StringsCall::GetStringRegion { .. } => StringsFun::GetStringRegion,
        }
    }

    /// An equal call. Fails only for want of memory.
    pub fn try_copy(&self) -> Result<StringsCall, AllocError>
        ensures { IfOk result (λ copy. copy ≡ self.now) }
    {
        match self {
            StringsCall::NewString { units } => Ok(StringsCall::NewString {
                units: units.try_copy()?,
            }),
            StringsCall::NewStringUTF { bytes } => Ok(StringsCall::NewStringUTF {
                bytes: bytes.try_copy()?,
            }),
            StringsCall::GetStringLength { string } => Ok(StringsCall::GetStringLength {
                string: *string,
            }),
            StringsCall::GetStringUTFLength { string } => Ok(StringsCall::GetStringUTFLength {
                string: *string,
            }),
            StringsCall::GetStringRegion {
                string,
                start,
                length,
            } => Ok(StringsCall::GetStringRegion {
                string: *string,
                start: *start,
                length: *length,
            }),
        }
    }
}
