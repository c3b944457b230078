//! Regions of strings and arrays, and numbers of operands as sizes and places.

ghost use Rattle.std.specs.Prelude.{◌≡◌, ◌≤◌, ◌<◌, length, map, pos, take, drop, IfOk};
ghost use Rattle.jg_rules.specs.Answers as answers;

use jg_words::Items;
use std::alloc::{AllocError, Global};

/// Whether the region isn't within so many items.
pub(crate) fn is_outside(start: i32, count: i64, whole: usize) -> bool
    ensures { result ≡ answers.is_outside start count whole }
{
    start < 0 || count < 0 || (whole as u64) < start as u64 + count as u64
}

/// The items of a region that is within them, and has at most 1,000.
pub(crate) fn items_in(
    lists: Global,
    items: &[i64],
    start: usize,
    count: usize,
) -> Result<Items, AllocError>
    requires within { start ≤ length items.now }
    requires few { count ≤ 1000 }
    ensures { IfOk result (λ list. list ≡ take count (drop start items.now)) }
{
    let (_, rest) = items.split_at(start);
    let count = if count < rest.len() {
        count
    } else {
        rest.len()
    };
    let (first, _) = rest.split_at(count);
    let copy = Vec::from_slice(lists, first)?;
    match Items::new(copy) {
        Ok(list) => Ok(list),
        Err(_) => unreachable!(),
    }
}

/// The units of such a region, as numbers.
pub(crate) fn units_in(
    lists: Global,
    units: &[u16],
    start: usize,
    count: usize,
) -> Result<Items, AllocError>
    requires within { start ≤ length units.now }
    requires few { count ≤ 1000 }
    ensures { IfOk result (λ list. list ≡ take count (drop start (map pos units.now))) }
{
    let (_, rest) = units.split_at(start);
    let count = if count < rest.len() {
        count
    } else {
        rest.len()
    };
    let (first, _) = rest.split_at(count);
    let mut numbers = Vec::with_capacity(lists, first.len())?;
    for unit in first {
        numbers.push(i64::from(*unit))?;
    }
    match Items::new(numbers) {
        Ok(list) => Ok(list),
        Err(_) => unreachable!(),
    }
}
