//! How a call ended, as an entry of the journal keeps it.

use crate::rule::Rule;

/// How a call ended: it was done, with a warning, a notice, both or neither, or it was denied.
#[derive(Clone, Copy)]
pub enum Ending {
    Plain,
    Warned,
    Noticed,
    WarnedAndNoticed,
    Denied(Rule),
}
