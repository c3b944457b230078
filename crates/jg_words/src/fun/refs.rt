//! The functions on references: their names, and which may be called with an exception pending.

ghost use Rattle.std.specs.Prelude.{◌≡◌};
ghost use Rattle.jg_words.specs.Fun.{refs_name};

/// References (JNI Specification, chapter 4, "Global and Local References").
#[derive(Clone, Copy, PartialEq, Eq)]
pub enum RefsFun {
    NewLocalRef,
    NewGlobalRef,
    NewWeakGlobalRef,
    DeleteLocalRef,
    DeleteGlobalRef,
    DeleteWeakGlobalRef,
    IsSameObject,
    GetObjectRefType,
}

impl RefsFun {
    /// Its name.
    pub fn name(self) -> &'static str
        ensures { result.now ≡ refs_name self }
    {
        match self {
            RefsFun::NewLocalRef => "NewLocalRef",
            RefsFun::NewGlobalRef => "NewGlobalRef",
            RefsFun::NewWeakGlobalRef => "NewWeakGlobalRef",
            RefsFun::DeleteLocalRef => "DeleteLocalRef",
            RefsFun::DeleteGlobalRef => "DeleteGlobalRef",
            RefsFun::DeleteWeakGlobalRef => "DeleteWeakGlobalRef",
            RefsFun::IsSameObject => "IsSameObject",
            RefsFun::GetObjectRefType => "GetObjectRefType",
        }
    }
}
