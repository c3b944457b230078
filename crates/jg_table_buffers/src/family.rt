//! The functions that open a buffer, by the one that releases it.

use jg_words::ItemType;

/// The functions that open a buffer, and that alone may release it: `Get<Type>ArrayElements`,
/// `GetStringChars` and `GetStringUTFChars` copy; `GetPrimitiveArrayCritical` and
/// `GetStringCritical` pin.
#[derive(Clone, Copy)]
pub enum Family {
    Elements(ItemType),
    Chars,
    UtfChars,
    ArrayCritical,
    StringCritical,
}
