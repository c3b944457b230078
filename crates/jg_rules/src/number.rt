//! Numbers that have a range.

ghost use Rattle.std.specs.Prelude.{◌≡◌};
ghost use Rattle.std.specs.List.{list_all};
ghost use Rattle.jg_rules.specs.Numbers.{is_value_of};

use jg_words::Primitive;

/// Whether a field of the type, or an array or a string of such items, can hold the number.
pub fn fits(element: Primitive, item: i64) -> bool
    ensures { result ≡ is_value_of element item }
{
    match element {
        Primitive::Boolean => 0 <= item && item <= 1,
        Primitive::Byte => -0x80 <= item && item <= 0x7F,
        Primitive::Char => 0 <= item && item <= 0xFFFF,
        Primitive::Short => -0x8000 <= item && item <= 0x7FFF,
        Primitive::Int => -0x8000_0000 <= item && item <= 0x7FFF_FFFF,
        Primitive::Long => true,
    }
}

/// Whether an array of these items can hold all the numbers.
pub fn all_fit(element: Primitive, items: &[i64]) -> bool
    ensures { result ≡ list_all (is_value_of element) items.now }
{
    items.iter().all(|item| fits(element, *item))
}
