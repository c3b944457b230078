//! What an attempt to enter a monitor answers.

/// What an attempt to enter a monitor answers: it was entered, or another thread owns it and
/// nothing changed.
#[derive(Clone, Copy, Debug, PartialEq, Eq)]
pub enum Entering {
    Entered,
    Busy,
}
