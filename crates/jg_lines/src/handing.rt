//! Writers that buffer, and of which a contract can say that they hold nothing back.

ghost use Rattle.std.specs.Prelude.{OnOk};
ghost use Rattle.std.specs.Io.KnownBytes.{Keeps};

use std::alloc::Allocator;
use std::io;
use std::io::{BufWriter, Write};

/// A writer that may hold bytes back, and can be asked to hand them on.
pub trait HandsOn: Write {
    // It holds back none of the bytes that it was given.
    ghost holds_nothing: { Self → Type 0 };

    /// Hands on what is held back. After an error some of it may still be.
    fn hand_on(&mut self) -> io::Result<()>
        ensures bytes { Keeps (Self.contents self.old) (Self.contents self.new) }
        ensures done { OnOk result (holds_nothing self.new) };
}

impl<W: Write + Drop, A: Allocator> HandsOn for BufWriter<W, A> {
    ghost use Rattle.std.specs.Prelude.{◌≡◌, []};
    ghost use Rattle.std.specs.Io.Buffered.{writer_buffer};

    ghost holds_nothing = { λ w. writer_buffer w ≡ [] };

    fn hand_on(&mut self) -> io::Result<()> {
        self.flush()
    }
}

impl<A: Allocator> HandsOn for Vec<u8, A> {
    ghost holds_nothing = { λ _. Unit {0} };

    fn hand_on(&mut self) -> io::Result<()> {
        Ok(())
    }
}
