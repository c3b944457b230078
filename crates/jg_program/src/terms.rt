//! What is worked on, and on which terms.

ghost use Rattle.std.specs.Prelude.{◌≡◌, false};

use crate::reporting::Reporting;
use jg_script::Watched;

/// The reader and the writer that are worked on, and whether each has failed.
#[derive(Drop)]
pub struct Streams<R, W> {
    pub reader: Watched<R>,
    pub out: Watched<W>,
}

impl<R, W> Streams<R, W> {
    /// These, which haven't failed.
    pub fn new(reader: R, out: W) -> Streams<R, W>
        ensures reader { (result.reader.device ≡ reader) × (result.reader.failed ≡ false) }
        ensures out { (result.out.device ≡ out) × (result.out.failed ≡ false) }
    {
        Streams {
            reader: Watched::new(reader),
            out: Watched::new(out),
        }
    }
}

/// How the work is done, whatever it is.
#[derive(Clone, Copy)]
pub struct Terms {
    /// What is told beside the journal.
    pub reporting: Reporting,
    /// The most calls that the guard journals.
    pub limit: u32,
    /// How often a worker of a play tries to enter a busy monitor.
    pub turns: u32,
}
