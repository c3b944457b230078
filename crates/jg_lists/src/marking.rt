//! The trait of whatever marks objects: tables are handed one, and mark in it what they name.

ghost use Rattle.std.specs.Prelude.{◌≡◌, ◌==◌, ℕ, Bool, None, Option};
ghost use Rattle.std.specs.List.{list_any};
ghost use Rattle.jg_lists.specs.Marks.{Marks};

/// What marks objects: some objects have a mark, set or unset.
pub trait Marking {
    // The mark of an object, if it has one.
    ghost mark_of: { Self → ℕ → Option Bool };

    /// Sets the object's mark. An object without a mark is passed over.
    fn set(&mut self, object: u64)
        ensures { Marks (λ o. object == o) (mark_of self.old) (mark_of self.new) };

    /// Sets the mark of each of the objects. One without a mark is passed over, and so is the greatest
    /// number of all, which never has one.
    fn set_all(&mut self, objects: &[u64])
        ensures set { Marks (λ o. list_any (λ x. x == o) objects.now) (mark_of self.old) (mark_of self.new) }
        ensures none { mark_of self.old u64.MAX ≡ None };
}
