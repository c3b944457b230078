//! The virtual machine behind the guard.

ghost use Rattle.std.specs.Prelude.{List, ◌∷◌};
ghost use Rattle.jg_words.specs.Entry.{Entry};
ghost use Rattle.jg_guarded.specs.Passed.{IsPassed};

use jg_words::Entry;

/// A virtual machine of the caller's own, which does the calls that the guard lets through.
pub trait Machine {
    // It is as these entries leave it, the newest first. What that means each machine says itself.
    ghost stands: { Self → List Entry → Type 0 };

    /// Does the call of a passed entry. The entry says which thread made it, by which environment,
    /// what it is answered, and the object that the answer hands out a reference for. A machine
    /// that can fail keeps that to itself.
    fn carry_out(&mut self, entry: &Entry)
        requires { IsPassed entry.now.outcome }
        ensures { (h : List Entry) → stands self.old h → stands self.new (entry.now ∷ h) };
}
