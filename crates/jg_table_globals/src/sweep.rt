//! The clearing of weak references.

ghost use Rattle.std.specs.Prelude.{if◌then◌else◌};
ghost use Rattle.jg_table_globals.specs.Clearing.{IsCleared, EachChanged, EachCleared};
ghost use Rattle.jg_lists.specs.ByMaker.{named};

use crate::target::Target;
use jg_lists::ByNumber;
use jg_lists::by_maker::ByMaker;
use jg_words::ObjId;
use std::alloc::Allocator;

/// Whether the target names an object that meets the test.
fn meets<F: Fn(ObjId) -> bool>(target: Target, test: &F) -> bool
    requires { F.IsAlwaysCallable test.now }
    ensures { IsCleared (F.post test.now) target (if result then Target.Cleared else target) }
{
    match target {
        Target::Cleared => false,
        Target::Object(object) => test(object),
    }
}

/// Clears one maker's references.
fn clear_numbers<A: Allocator, F: Fn(ObjId) -> bool>(numbers: &mut ByNumber<Target, A>, test: &F)
    requires { F.IsAlwaysCallable test.now }
    ensures { EachChanged (IsCleared (F.post test.now)) numbers.old numbers.new }
{
    for i in 0..numbers.seats().len() {
        let seat = &numbers.seats()[i];
        let number = seat.number;
        if meets(seat.value, test) {
            numbers.set(number, Target::Cleared);
        }
    }
}

/// Clears the references whose object meets the test. Takes no memory.
pub fn clear_rows<A: Allocator, F: Fn(ObjId) -> bool>(rows: &mut ByMaker<Target, A>, test: &F)
    requires { F.IsAlwaysCallable test.now }
    ensures { EachCleared (F.post test.now) (named rows.old) (named rows.new) }
{
    for i in 0..rows.seats().len() {
        let maker = rows.seats()[i].number as u16;
        if let Some(numbers) = rows.get_mut(maker) {
            clear_numbers(numbers, test);
        }
    }
}
