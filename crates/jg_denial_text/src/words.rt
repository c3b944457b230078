//! Classes, types and functions, as they are told.

ghost use Rattle.std.specs.Prelude.{◌≡◌, ◌<◌, ◌++◌, OnOk, flat_map, option_map, string_bytes};
ghost use Rattle.jg_policy.specs.Classes.{field_type};
ghost use Rattle.jg_denial_text.specs.Words as words;

use jg_policy::{Operation, Setup};
use jg_rules::ObjectType;
use jg_table_buffers::Family;
use jg_words::{BuffersFun, FieldId, ItemType, Primitive};
use std::alloc::AllocError;

/// How many bytes of an input are told.
const MOST: usize = 60;

fn hex_digit(n: u8) -> u8
    requires { n < 16 }
    ensures digit { result ≡ words.hex_digit n }
    ensures ascii { result < 128 }
{
    if n < 10 { b'0' + n } else { b'A' - 10 + n }
}

fn push_escaped(out: &mut String, byte: u8) -> Result<(), AllocError>
    ensures { OnOk result (string_bytes out.new ≡ string_bytes out.old ++ words.escaped byte) }
{
    if 0x20 <= byte && byte <= 0x7E {
        return out.push(char::from(byte));
    }
    out.push_str("\\x")?;
    out.push(char::from(hex_digit(byte / 16)))?;
    out.push(char::from(hex_digit(byte % 16)))
}

fn push_all_escaped(out: &mut String, bytes: &[u8]) -> Result<(), AllocError>
    ensures { OnOk result (string_bytes out.new ≡ string_bytes out.old ++ flat_map words.escaped bytes.now) }
{
    for byte in bytes {
        push_escaped(out, *byte)?;
    }
    Ok(())
}

/// What an input wrote: its first 60 bytes, those that are no printable ASCII as `\xNN`.
pub fn push_quoted(out: &mut String, bytes: &[u8]) -> Result<(), AllocError>
    ensures { OnOk result (string_bytes out.new ≡ string_bytes out.old ++ words.quoted bytes.now) }
{
    if bytes.len() <= MOST {
        push_all_escaped(out, bytes)
    } else {
        let (first, _) = bytes.split_at(MOST);
        push_all_escaped(out, first)?;
        out.push_str("..")
    }
}

fn push_if_there(out: &mut String, text: Option<&str>) -> Result<(), AllocError>
    ensures { OnOk result (string_bytes out.new
        ≡ string_bytes out.old ++ words.quoted_if (option_map (λ t. t.now) text.entry)) }
{
    match text {
        None => out.push_str("none"),
        Some(text) => push_quoted(out, text.as_bytes()),
    }
}

/// The name of a class, by its number.
pub fn push_class(out: &mut String, setup: &Setup, class: u32) -> Result<(), AllocError>
    ensures { OnOk result (string_bytes out.new ≡ string_bytes out.old ++ words.class_text setup.now class) }
{
    push_if_there(out, setup.class_name(class))
}

/// The name of a class's module.
pub fn push_module(out: &mut String, setup: &Setup, class: u32) -> Result<(), AllocError>
    ensures { OnOk result (string_bytes out.new ≡ string_bytes out.old ++ words.module_text setup.now class) }
{
    push_if_there(out, setup.module_name(class))
}

/// The type of a field, as the setup spells it.
pub fn push_field_type(out: &mut String, setup: &Setup, field: FieldId) -> Result<(), AllocError>
    ensures { OnOk result (string_bytes out.new
        ≡ string_bytes out.old ++ words.quoted_if (field_type setup.now field.class field.field)) }
{
    push_if_there(out, setup.field_type(field))
}

pub fn primitive_word(primitive: Primitive) -> &'static str
    ensures { result.now ≡ words.primitive_text primitive }
{
    match primitive {
        Primitive::Boolean => "boolean",
        Primitive::Byte => "byte",
        Primitive::Char => "char",
        Primitive::Short => "short",
        Primitive::Int => "int",
        Primitive::Long => "long",
    }
}

fn push_array_of(out: &mut String, element: Primitive) -> Result<(), AllocError>
    ensures { OnOk result (string_bytes out.new ≡ string_bytes out.old ++ words.array_of element) }
{
    out.push_str("an array of ")?;
    out.push_str(primitive_word(element))
}

/// What is wanted of an operand.
pub fn push_type(out: &mut String, wanted: ObjectType) -> Result<(), AllocError>
    ensures { OnOk result (string_bytes out.new ≡ string_bytes out.old ++ words.type_text wanted) }
{
    match wanted {
        ObjectType::AnyObject => out.push_str("an object"),
        ObjectType::ClassObject => out.push_str("a class"),
        ObjectType::PlainClass => out.push_str("a class whose instances AllocObject makes"),
        ObjectType::ThrowableObject => out.push_str("a throwable object"),
        ObjectType::StringObject => out.push_str("a string"),
        ObjectType::AnyArray => out.push_str("an array"),
        ObjectType::PrimitiveArray => out.push_str("an array of a primitive type"),
        ObjectType::ArrayOf(element) => push_array_of(out, element),
        ObjectType::ObjectArray => out.push_str("an array of references"),
    }
}

/// What is wanted of a field: a primitive type, or, where none is named, a class.
pub fn push_wanted(out: &mut String, wanted: Option<Primitive>) -> Result<(), AllocError>
    ensures { OnOk result (string_bytes out.new ≡ string_bytes out.old ++ words.wanted_text wanted) }
{
    match wanted {
        None => out.push_str("a class"),
        Some(primitive) => {
            out.push_str("type ")?;
            out.push_str(primitive_word(primitive))
        }
    }
}

/// The name of the function that lends buffers of the family.
pub fn lender_name(family: Family) -> &'static str
    ensures { result.now ≡ words.lender_name family }
{
    match family {
        Family::Elements(ItemType::Of(element)) => BuffersFun::GetArrayElements(element).name(),
        Family::Elements(ItemType::Float) => "GetFloatArrayElements",
        Family::Elements(ItemType::Double) => "GetDoubleArrayElements",
        Family::Chars => BuffersFun::GetStringChars.name(),
        Family::UtfChars => BuffersFun::GetStringUTFChars.name(),
        Family::ArrayCritical => BuffersFun::GetPrimitiveArrayCritical.name(),
        Family::StringCritical => BuffersFun::GetStringCritical.name(),
    }
}

pub fn use_words(operation: Operation) -> &'static str
    ensures { result.now ≡ words.use_text operation }
{
    match operation {
        Operation::Load => "to load a library",
        Operation::Register => "to register a native method",
        Operation::Link => "to call a native method",
    }
}
