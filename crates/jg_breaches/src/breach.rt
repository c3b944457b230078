//! The ways in which a call breaks a rule, with what was found.

use jg_policy::Operation;
use jg_rules::ObjectType;
use jg_table_buffers::Family;
use jg_words::{BufId, EnvId, FieldId, ObjId, Primitive, Ref, Tid};

/// In which way a call breaks a rule, with what was found. Classes are told by their numbers.
#[derive(Clone, Copy)]
pub enum Breach {
    /// Rule 1: the virtual machine alone makes such a call.
    OnlyForMachine,
    /// Rule 1: the virtual machine, which is thread 0, makes no such call.
    NotForMachine,
    /// Rule 1: the environment is another thread's.
    EnvOfAnother {
        env: EnvId,
    },
    /// Rule 2: no environment was handed in where one is taken.
    NoEnv,
    /// Rule 2: the environment isn't that of its thread's present session.
    NotPresent {
        env: EnvId,
    },
    /// Rule 3: the thread is in a critical region.
    InRegion,
    /// Rule 4: an exception of that class is pending.
    ExceptionPending {
        class: u32,
    },
    /// Rule 5: the local reference was handed to another thread.
    ForeignLocal {
        reference: Ref,
    },
    /// Rule 6: the reference names nothing for the thread.
    DeadReference {
        reference: Ref,
    },
    /// Rule 7: the reference isn't of the kind that the function deletes.
    OtherKind {
        reference: Ref,
    },
    /// Rule 8: null, or a cleared weak reference.
    NoObject {
        reference: Ref,
    },
    /// Rule 9: the object is of that class, which isn't the wanted type.
    OtherType {
        reference: Ref,
        wanted: ObjectType,
        class: u32,
    },
    /// Rule 10: the setup states no such field.
    NoField {
        reference: Ref,
        field: FieldId,
    },
    /// Rule 10: the field isn't of the function's type: a primitive one, or any class.
    FieldOfOtherType {
        reference: Ref,
        field: FieldId,
        wanted: Option<Primitive>,
    },
    /// Rule 10: the object is of that class, which isn't the field's.
    FieldOfOtherClass {
        reference: Ref,
        field: FieldId,
        class: u32,
    },
    /// Rule 11: the buffer isn't open.
    NotOpen {
        buffer: BufId,
    },
    /// Rule 11: the buffer was lent by a function of another family.
    LentOtherwise {
        buffer: BufId,
        family: Family,
    },
    /// Rule 11: the buffer is of another object than the reference names, of that class.
    OfOtherObject {
        buffer: BufId,
        reference: Ref,
        class: u32,
    },
    /// Rule 11: the critical buffer was lent to another thread.
    OfOtherThread {
        buffer: BufId,
    },
    /// Rule 11: the buffer is a string's, and may not be written.
    OfString {
        buffer: BufId,
    },
    /// Rule 12: an argument isn't from `least` to `most`.
    OutOfRange {
        argument: Argument,
        value: i64,
        least: i64,
        most: i64,
    },
    /// Rule 12: an item of a list, at that place from 0, isn't from `least` to `most`.
    ItemOutOfRange {
        place: usize,
        value: i64,
        least: i64,
        most: i64,
    },
    /// Rule 12: a region has more items than a list may have.
    TooLong {
        length: i32,
    },
    /// Rule 12: bytes that are no modified UTF-8.
    NotModifiedUtf8,
    /// Rule 12: the setup has no class of that name.
    NoClass,
    /// Rule 12: the buffer has so many items, and none at that place.
    NoItem {
        buffer: BufId,
        index: i32,
        length: u64,
    },
    /// Rule 13: a critical buffer that was opened through the reference is open.
    PinnedReference {
        reference: Ref,
    },
    /// Rule 14: the monitor of an object of that class is the owner's, or nobody's.
    NotOwner {
        reference: Ref,
        object: ObjId,
        class: u32,
        owner: Option<Tid>,
    },
    /// Rule 15: the thread has no frame that it may pop.
    NoFrame,
    /// Rule 15: the thread is in no native method that it could leave.
    NotInNative,
    /// Rule 15: the thread is in a native method.
    StillInNative,
    /// Rule 16: the module of the class is refused the use of native code.
    AccessRefused {
        class: u32,
        operation: Operation,
    },
    /// Rule 17: the class has no such native method.
    NoNative {
        class: u32,
    },
    /// Rule 17: the class's native method, by its number from 1, isn't linked.
    NotLinked {
        class: u32,
        native: u32,
    },
    /// The call doesn't break the rule.
    Unbroken,
}

/// A number among a call's arguments.
#[derive(Clone, Copy)]
pub enum Argument {
    Capacity,
    Length,
    Mode,
    Value,
}
