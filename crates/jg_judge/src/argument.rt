//! The operands of a question.

use jg_words::{BufId, Ref};

/// An operand of a question.
#[derive(Clone, Copy)]
pub enum Argument {
    Reference(Ref),
    Buffer(BufId),
    /// A `jint`.
    Number(i32),
    /// A value of a field or an item, or a `jlong`; a float and a double as their bits.
    Value(i64),
    /// The ID of a field or a method, and whether it fits: whether one of the fields or methods that bear it is of a
    /// class that the object is an instance of, of the function's type, and static where the function's are.
    Id { fits: bool },
    /// A class's name: the number that the setup has for that class, if it states it.
    Class(Option<u32>),
    /// The name and the type of a native method: its number in its class, from 1, if the setup states it.
    Native(Option<u32>),
    /// A name of which no rule speaks.
    Name,
    /// A list: how many items it has, and whether each is of its type.
    List { count: u64, fits: bool },
}

/// What a number may be at the most. A real machine bounds nothing: then each is `i32::MAX`.
#[derive(Clone, Copy)]
pub struct Bounds {
    /// How many local references a frame may have room for.
    pub capacity: i32,
    /// How many items an array may have.
    pub length: i32,
    /// How many items of a region may be read.
    pub items: i32,
}

impl Bounds {
    /// What the written machine bounds.
    pub const WRITTEN: Bounds = Bounds {
        capacity: 65_535,
        length: 1_000_000,
        items: 1_000,
    };
}
