//! Calls that make, delete and compare references, with their operands.

ghost use Rattle.std.specs.Prelude.{◌≡◌};
ghost use Rattle.jg_words.specs.Call.{refs_fun};

use crate::fun::refs::RefsFun;
use crate::reference::Ref;

/// References (JNI Specification, chapter 4, "Global and Local References").
#[derive(PartialEq, Eq, Drop)]
pub enum RefsCall {
    NewLocalRef { of: Ref },
    NewGlobalRef { of: Ref },
    NewWeakGlobalRef { of: Ref },
    DeleteLocalRef { of: Ref },
    DeleteGlobalRef { of: Ref },
    DeleteWeakGlobalRef { of: Ref },
    IsSameObject { first: Ref, second: Ref },
    GetObjectRefType { of: Ref },
}

impl RefsCall {
    /// Its function.
    pub fn fun(&self) -> RefsFun
        ensures { result ≡ refs_fun self.now }
    {
        match self {
            RefsCall::NewLocalRef { .. } => RefsFun::NewLocalRef,
            RefsCall::NewGlobalRef { .. } => RefsFun::NewGlobalRef,
            RefsCall::NewWeakGlobalRef { .. } => RefsFun::NewWeakGlobalRef,
            RefsCall::DeleteLocalRef { .. } => RefsFun::DeleteLocalRef,
            RefsCall::DeleteGlobalRef { .. } => RefsFun::DeleteGlobalRef,
            RefsCall::DeleteWeakGlobalRef { .. } => RefsFun::DeleteWeakGlobalRef,
            RefsCall::IsSameObject { .. } => RefsFun::IsSameObject,
            RefsCall::GetObjectRefType { .. } => RefsFun::GetObjectRefType,
        }
    }

    /// An equal call.
    pub fn copy(&self) -> RefsCall
        ensures { result ≡ self.now }
    {
        match self {
            RefsCall::NewLocalRef { of } => RefsCall::NewLocalRef { of: *of },
            RefsCall::NewGlobalRef { of } => RefsCall::NewGlobalRef { of: *of },
            RefsCall::NewWeakGlobalRef { of } => RefsCall::NewWeakGlobalRef { of: *of },
            RefsCall::DeleteLocalRef { of } => RefsCall::DeleteLocalRef { of: *of },
            RefsCall::DeleteGlobalRef { of } => RefsCall::DeleteGlobalRef { of: *of },
            RefsCall::DeleteWeakGlobalRef { of } => RefsCall::DeleteWeakGlobalRef { of: *of },
            RefsCall::IsSameObject { first, second } => RefsCall::IsSameObject {
                first: *first,
                second: *second,
            },
            RefsCall::GetObjectRefType { of } => RefsCall::GetObjectRefType { of: *of },
        }
    }
}
