//! What holds objects from outside the store.

ghost use Rattle.std.specs.Prelude.{◌≡◌, ℕ, Bool};

use jg_words::ObjId;

/// What holds objects from outside the store: local and global references, say (JNI Specification, chapter 2,
/// "Global and Local References").
pub trait Roots {
    // It holds the object of that number.
    ghost is_root: { Self → ℕ → Bool };

    /// Whether it holds the object.
    fn holds(&self, object: ObjId) -> bool
        ensures { result ≡ is_root self.now object.0 };
}
