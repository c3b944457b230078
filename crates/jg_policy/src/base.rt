//! The classes that every setup has.
ghost use Rattle.std.specs.Prelude.{◌≡◌, ◌<◌, IfSome, map, position, option_map, slice_get};
ghost use Rattle.std.specs.Str.{bytes_eq};
ghost use Rattle.jg_policy.specs.BaseClasses.{base_names};

/// How many there are; the classes of a setup are numbered from here.
pub(crate) const BASE_COUNT: u32 = 15;

// In the order of their numbers, from 0.
const BASE_CLASSES: [&str; 15] = [
    "java/lang/Object",
    "java/lang/Class",
    "java/lang/String",
    "[Ljava/lang/Object;",
    "[Z",
    "[B",
    "[C",
    "[S",
    "[I",
    "[J",
    "java/lang/ArrayIndexOutOfBoundsException",
    "java/lang/StringIndexOutOfBoundsException",
    "java/lang/NoClassDefFoundError",
    "java/lang/NoSuchFieldError",
    "java/lang/NoSuchMethodError",
];

/// The number of the base class of a name.
pub(crate) fn base_class(name: &str) -> Option<usize>
    ensures number { result ≡ position (bytes_eq name.now) base_names }
    ensures within { IfSome result (λ number. number < 15) }
{
    place_of(&BASE_CLASSES, name)
}

/// The name of the base class of a number, if there is such a class.
pub(crate) fn base_name(number: usize) -> Option<&'static str>
    ensures { option_map (λ name. name.now) result ≡ slice_get base_names number }
{
    name_at(&BASE_CLASSES, number)
}

fn name_at(names: &[&'static str], number: usize) -> Option<&'static str>
    ensures { option_map (λ name. name.now) result ≡ slice_get (map (λ known. known.now) names.now) number }
{
    if number < names.len() {
        Some(names[number])
    } else {
        None
    }
}

fn place_of(names: &[&str], name: &str) -> Option<usize>
    ensures { result ≡ position (λ known. bytes_eq name.now known.now) names.now }
{
    names.iter().position(|known| name == *known)
}
