//! The functions on attachment, native methods, libraries and the collector: their names, and when each may be called.

ghost use Rattle.std.specs.Prelude.{◌≡◌};
ghost use Rattle.jg_words.specs.Fun.{vm_name};

/// Attachment and environments (JNI Specification, chapter 5); native methods, and the libraries
/// that have them (chapter 4, "Registering Native Methods"; JEP 472); the collector.
#[derive(Clone, Copy, PartialEq, Eq)]
pub enum VmFun {
    AttachCurrentThread,
    DetachCurrentThread,
    GetEnv,
    NativeEnter,
    NativeLeave,
    LoadLibrary,
    RegisterNatives,
    UnregisterNatives,
    Collect,
}

impl VmFun {
    /// Its name.
    pub fn name(self) -> &'static str
        ensures { result.now ≡ vm_name self }
    {
        match self {
            VmFun::AttachCurrentThread => "AttachCurrentThread",
            VmFun::DetachCurrentThread => "DetachCurrentThread",
            VmFun::GetEnv => "GetEnv",
            VmFun::NativeEnter => "NativeEnter",
            VmFun::NativeLeave => "NativeLeave",
            VmFun::LoadLibrary => "LoadLibrary",
            VmFun::RegisterNatives => "RegisterNatives",
            VmFun::UnregisterNatives => "UnregisterNatives",
            VmFun::Collect => "Collect",
        }
    }
}
