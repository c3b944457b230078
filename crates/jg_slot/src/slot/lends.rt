//! What a slot lends to be written.

ghost use Rattle.std.specs.Prelude.{◌≡◌, Option, Some, None};
ghost use Rattle.std.specs.Option.{MatchOption};
ghost use Rattle.std.specs.Borrow.{sem};
ghost use Rattle.jg_slot.specs.LendingSlot.{LendsValue};

use super::Slot;

impl<T> Slot<T> {
    /// The value that it holds, if it holds one.
    pub fn get_mut(&mut self) -> Option<&mut T>
        ensures* writes_back { sem 𝓛 (LendsValue T.row self.entry result) }
        ensures value { MatchOption result (self.old.value ≡ None) (λ x. self.old.value ≡ Some x.now) }
    {
        let at = self.at;
        if at.is_null() {
            return None;
        }
        let value = unsafe { &mut *at };
        Some(value)
    }
}
