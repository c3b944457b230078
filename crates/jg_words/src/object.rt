//! What names an object or a field, and the primitive types.

/// An object by its number in the order of making, class objects first, from 0.
#[derive(Clone, Copy, Debug, PartialEq, Eq)]
pub struct ObjId(pub u64);

/// A field ID: the number of its class, and its number in that class, from 1.
#[derive(Clone, Copy, PartialEq, Eq)]
pub struct FieldId {
    pub class: u32,
    pub field: u32,
}

/// A primitive type of array items and fields, of those that scripts know.
#[derive(Clone, Copy, PartialEq, Eq)]
pub enum Primitive {
    Boolean,
    Byte,
    Char,
    Short,
    Int,
    Long,
}

/// A primitive type (JNI Specification, chapter 3, "Primitive Types"). No script knows `float` and `double`; a machine
/// of its own has arrays of them.
#[derive(Clone, Copy)]
pub enum ItemType {
    Of(Primitive),
    Float,
    Double,
}
