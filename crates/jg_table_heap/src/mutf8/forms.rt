//! The forms of one, two and three bytes that spell a unit in modified UTF-8.

ghost use Rattle.std.specs.Prelude.{◌≡◌, ℕ, ◌+◌, ◌<◌, ◌≢◌, ◌^◌, length, IfSome, IfNone, MatchOption, Some};
ghost use Rattle.jg_table_heap.specs.Forms.{One, Two, Three};
ghost use Rattle.jg_table_heap.specs.Spelling.{spelling, Starts};

/// How far a byte is above `from`, where it is below `to`.
fn payload(byte: Option<u8>, from: u8, to: u8) -> Option<u16>
    ensures { MatchOption result ((n : ℕ) → from + n < to → byte ≢ Some (from + n)) (λ n. (byte ≡ Some (from + n))
        × (from + n < to)) }
{
    match byte {
        Some(byte) if from <= byte && byte < to => Some((byte - from) as u16),
        _ => None,
    }
}

/// The unit that one byte spells.
fn one(first: Option<u8>) -> Option<u16>
    ensures { MatchOption result ((unit : ℕ) → One unit first → ⊥) (λ unit. One unit first) }
{
    let unit = payload(first, 0, 128)?;
    if unit == 0 {
        return None;
    }
    Some(unit)
}

/// The unit that two bytes spell.
fn two(first: Option<u8>, second: Option<u8>) -> Option<u16>
    ensures { MatchOption result ((unit : ℕ) → Two unit first second → ⊥) (λ unit. Two unit first second) }
{
    let high = payload(first, 192, 224)?;
    let low = payload(second, 128, 192)?;
    let unit = high * 64 + low;
    if 0 < unit && unit < 128 {
        return None;
    }
    Some(unit)
}

/// The unit that three bytes spell.
fn three(first: Option<u8>, second: Option<u8>, third: Option<u8>) -> Option<u16>
    ensures { MatchOption result ((unit : ℕ) → Three unit first second third
        → ⊥) (λ unit. Three unit first second third) }
{
    let high = payload(first, 224, 240)?;
    let middle = payload(second, 128, 192)?;
    let low = payload(third, 128, 192)?;
    let unit = high * 4096 + middle * 64 + low;
    if unit < 2048 {
        return None;
    }
    Some(unit)
}

/// The unit whose spelling begins with these bytes, and how many bytes spell it.
pub(crate) fn unit_at(
    first: Option<u8>,
    second: Option<u8>,
    third: Option<u8>,
) -> Option<(u16, usize)>
    ensures found { IfSome result (λ unit. (unit.0 < 2 ^ 16) × Starts unit.0 first second third
        × (unit.1 ≡ length (spelling unit.0))) }
    ensures none { IfNone result ((unit : ℕ) → unit < 2 ^ 16 → Starts unit first second third → ⊥) }
{
    if let Some(unit) = one(first) {
        return Some((unit, 1));
    }
    if let Some(unit) = two(first, second) {
        return Some((unit, 2));
    }
    match three(first, second, third) {
        Some(unit) => Some((unit, 3)),
        None => None,
    }
}
