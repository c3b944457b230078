//! What calls answer, and which exceptions they throw.

ghost use Rattle.std.specs.Prelude.{◌≡◌, true, IfOk, OnErr};
ghost use Rattle.jg_words.specs.Value.{is_list};

use crate::buffer::BufId;
use crate::items::Items;
use crate::object::FieldId;
use crate::reference::Ref;
use crate::thread::EnvId;
use std::alloc::AllocError;

/// The classes of the exceptions that calls throw.
#[derive(Clone, Copy, PartialEq, Eq)]
pub enum Thrown {
    ArrayIndexOutOfBounds,
    StringIndexOutOfBounds,
    NoClassDefFound,
    NoSuchField,
    NoSuchMethod,
}

/// What a passed call answers.
#[derive(PartialEq, Eq, Drop)]
pub enum Value {
    Ok,
    Number(i64),
    Truth(bool),
    Null,
    Reference(Ref),
    Buffer(BufId),
    Field(FieldId),
    Environment(EnvId),
    List(Items),
    /// The monitor is another thread's; nothing changed.
    Busy,
    /// `JNI_EDETACHED`.
    Detached,
    /// An exception of this class was made, and is pending now.
    Throw(Thrown),
}

impl Value {
    /// An equal value. Only that of a list takes memory, and fails only for want of it.
    pub fn try_copy(&self) -> Result<Value, AllocError>
        ensures copy { IfOk result (λ copy. copy ≡ self.now) }
        ensures wants { OnErr result (is_list self.now ≡ true) }
    {
        match self {
            Value::Ok => Ok(Value::Ok),
            Value::Number(number) => Ok(Value::Number(*number)),
            Value::Truth(truth) => Ok(Value::Truth(*truth)),
            Value::Null => Ok(Value::Null),
            Value::Reference(reference) => Ok(Value::Reference(*reference)),
            Value::Buffer(buffer) => Ok(Value::Buffer(*buffer)),
            Value::Field(field) => Ok(Value::Field(*field)),
            Value::Environment(env) => Ok(Value::Environment(*env)),
            Value::List(items) => Ok(Value::List(items.try_copy()?)),
            Value::Busy => Ok(Value::Busy),
            Value::Detached => Ok(Value::Detached),
            Value::Throw(thrown) => Ok(Value::Throw(*thrown)),
        }
    }
}
