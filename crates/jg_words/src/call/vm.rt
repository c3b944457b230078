//! Calls on attachment, native methods and libraries, and the collector's, with their operands.

ghost use Rattle.std.specs.Prelude.{◌≡◌, IfOk};
ghost use Rattle.jg_words.specs.Call.{vm_fun};

use crate::fun::vm::VmFun;
use crate::name::Name;
use crate::reference::Ref;
use std::alloc::AllocError;

/// Attachment and environments (JNI Specification, chapter 5); native methods, and the libraries
/// that have them (chapter 4, "Registering Native Methods"; JEP 472). A native method is named by
/// its class, its own name and its type, as `app/Main`, `run` and `()V`. The collector runs on no
/// thread of its own: its calls come from thread 0.
#[derive(PartialEq, Eq, Drop)]
pub enum VmCall {
    AttachCurrentThread,
    DetachCurrentThread,
    GetEnv,
    /// A native method is called.
    NativeEnter {
        class: Name,
        method: Name,
        signature: Name,
    },
    /// It returns what `kept` names.
    NativeLeave {
        kept: Ref,
    },
    /// `System.loadLibrary`, called by the class.
    LoadLibrary {
        class: Name,
        library: Name,
    },
    RegisterNatives {
        class: Ref,
        method: Name,
        signature: Name,
    },
    UnregisterNatives {
        class: Ref,
    },
    /// What nothing holds goes.
    Collect,
}

impl VmCall {
    /// Its function.
    pub fn fun(&self) -> VmFun
        ensures { result ≡ vm_fun self.now }
    {
        match self {
            VmCall::AttachCurrentThread => VmFun::AttachCurrentThread,
            VmCall::DetachCurrentThread => VmFun::DetachCurrentThread,
            VmCall::GetEnv => VmFun::GetEnv,
            VmCall::NativeEnter { .. } => VmFun::NativeEnter,
            VmCall::NativeLeave { .. } => VmFun::NativeLeave,
            VmCall::LoadLibrary { .. } => VmFun::LoadLibrary,
            VmCall::RegisterNatives { .. } => VmFun::RegisterNatives,
            VmCall::UnregisterNatives { .. } => VmFun::UnregisterNatives,
            VmCall::Collect => VmFun::Collect,
        }
    }

    /// An equal call. Fails only for want of memory.
    pub fn try_copy(&self) -> Result<VmCall, AllocError>
        ensures { IfOk result (λ copy. copy ≡ self.now) }
    {
        match self {
            VmCall::AttachCurrentThread => Ok(VmCall::AttachCurrentThread),
            VmCall::DetachCurrentThread => Ok(VmCall::DetachCurrentThread),
            VmCall::GetEnv => Ok(VmCall::GetEnv),
            VmCall::NativeEnter {
                class,
                method,
                signature,
            } => Ok(VmCall::NativeEnter {
                class: class.try_copy()?,
                method: method.try_copy()?,
                signature: signature.try_copy()?,
            }),
            VmCall::NativeLeave { kept } => Ok(VmCall::NativeLeave { kept: *kept }),
            VmCall::LoadLibrary { class, library } => Ok(VmCall::LoadLibrary {
                class: class.try_copy()?,
                library: library.try_copy()?,
            }),
            VmCall::RegisterNatives {
                class,
                method,
                signature,
            } => Ok(VmCall::RegisterNatives {
                class: *class,
                method: method.try_copy()?,
                signature: signature.try_copy()?,
            }),
            VmCall::UnregisterNatives { class } => Ok(VmCall::UnregisterNatives { class: *class }),
            VmCall::Collect => Ok(VmCall::Collect),
        }
    }
}
