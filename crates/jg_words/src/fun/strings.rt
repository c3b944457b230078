//! The functions on strings, and their names.

ghost use Rattle.std.specs.Prelude.{◌≡◌};
ghost use Rattle.jg_words.specs.Fun.{strings_name};

/// Strings (JNI Specification, chapter 4, "String Operations").
#[derive(Clone, Copy, PartialEq, Eq)]
pub enum StringsFun {
    NewString,
    NewStringUTF,
    GetStringLength,
    GetStringUTFLength,
    GetStringRegion,
}

impl StringsFun {
    /// Its name.
    pub fn name(self) -> &'static str
        ensures { result.now ≡ strings_name self }
    {
        match self {
            StringsFun::NewString => "NewString",
            StringsFun::NewStringUTF => "NewStringUTF",
            StringsFun::GetStringLength => "GetStringLength",
            StringsFun::GetStringUTFLength => "GetStringUTFLength",
            StringsFun::GetStringRegion => "GetStringRegion",
        }
    }
}
