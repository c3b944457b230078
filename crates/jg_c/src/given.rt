//! What a machine says, and what it is given, as numbers.

ghost use Rattle.std.specs.Prelude.{◌≡◌};
ghost use Rattle.jg_c.specs.Given as specs;

use crate::numbers::{ITEMS, NOTHING, NULL, OBJECT, THREW};
use crate::value::{JgValue, of_buffer, of_environment, of_object, of_reference};
use jg_core::{Given, Says};
use jg_words::ObjId;

/// What the value says, if it says anything.
pub(crate) fn says_of(value: &JgValue) -> Option<Says>
    ensures { result ≡ specs.says_of value.now }
{
    match value.kind {
        NOTHING => Some(Says::Done),
        NULL => Some(Says::Null),
        OBJECT => Some(Says::Object(ObjId(value.number))),
        ITEMS => match u32::try_from(value.number) {
            Ok(count) => Some(Says::Items(count)),
            Err(_) => None,
        },
        THREW => Some(Says::Threw(ObjId(value.number))),
        _ => None,
    }
}

/// The name of what is given.
pub(crate) fn of_given(given: Given) -> JgValue
    ensures { result ≡ specs.of_given given }
{
    match given {
        Given::Nothing => JgValue::NOTHING,
        Given::Reference(reference) => of_reference(reference),
        Given::Buffer(buffer) => of_buffer(buffer),
        Given::Environment(env) => of_environment(env),
        Given::Object(object) => of_object(object),
    }
}
