//! The classes of strings, arrays and thrown exceptions: their numbers, which are the same in each setup.

ghost use Rattle.std.specs.Prelude.{◌≡◌};
ghost use Rattle.jg_words.specs.Classes as classes;

use crate::object::Primitive;
use crate::value::Thrown;

/// The number of `java/lang/Class`, the class of class objects.
pub const CLASS_CLASS: u32 = 1;

/// The number of `java/lang/String`.
pub const STRING_CLASS: u32 = 2;

/// The number of `[Ljava/lang/Object;`, the class of all arrays of references.
pub const OBJECT_ARRAY_CLASS: u32 = 3;

impl Primitive {
    /// The number of the class of arrays of these.
    pub fn array_class(self) -> u32
        ensures { result ≡ classes.array_class self }
    {
        match self {
            Primitive::Boolean => 4,
            Primitive::Byte => 5,
            Primitive::Char => 6,
            Primitive::Short => 7,
            Primitive::Int => 8,
            Primitive::Long => 9,
        }
    }
}

/// The type of the items of the arrays of a class, where they are numbers.
pub fn element_of(class: u32) -> Option<Primitive>
    ensures { result ≡ classes.element_of class }
{
    match class {
        4 => Some(Primitive::Boolean),
        5 => Some(Primitive::Byte),
        6 => Some(Primitive::Char),
        7 => Some(Primitive::Short),
        8 => Some(Primitive::Int),
        9 => Some(Primitive::Long),
        _ => None,
    }
}

impl Thrown {
    /// The number of the exception's class.
    pub fn class(self) -> u32
        ensures { result ≡ classes.class_thrown self }
    {
        match self {
            Thrown::ArrayIndexOutOfBounds => 10,
            Thrown::StringIndexOutOfBounds => 11,
            Thrown::NoClassDefFound => 12,
            Thrown::NoSuchField => 13,
            Thrown::NoSuchMethod => 14,
        }
    }
}
