//! What a command line asks for, and why one is refused.

use thiserror::Error;

/// The greatest number that `--limit`, `--explain`, `--region` and `--turns` take.
pub const MAX_NUMBER: u32 = 1_000_000;

/// Why the words of a command line ask for nothing.
#[derive(Clone, Copy, Debug, PartialEq, Eq, Error)]
pub enum ArgsFault {
    /// The words ask for the text of `--help`, `help` or `--version`, which `help_text` makes.
    #[error("help is asked for")]
    Help,
    /// The words are no command line of this program.
    #[error("arguments refused")]
    Refused,
    /// Memory ran out while they were read.
    #[error("arguments: no memory")]
    NoMemory,
}

/// What the program is to do.
#[derive(Clone, Copy, PartialEq, Eq)]
pub enum Task<'a> {
    /// Answers the script on standard input.
    Check,
    /// Tests the journal text on standard input.
    Verify,
    /// Answers the record on standard input.
    Watch,
    /// Writes the record of the journal on standard input.
    Facts,
    /// Plays the scripts of a file, the lines of each thread by a thread of its own. `-` is standard input.
    Play(&'a str),
    /// Writes the setup of a file as a text of version 2.
    Migrate(&'a str),
}

/// How advice is told.
#[derive(Clone, Copy, PartialEq, Eq)]
pub enum Advising {
    Never,
    /// Once for each kind and function.
    Once,
    /// Each time.
    Each,
}

/// What the words ask for.
#[derive(Clone, Copy, PartialEq, Eq)]
pub struct Asked<'a> {
    pub task: Task<'a>,
    /// The file of `--setup`, which is that of a migration too.
    pub setup: Option<&'a str>,
    /// The most calls that the guard journals: 0 to 1,000,000, and 1,000,000 where none is given.
    pub limit: u32,
    /// How many denials are explained, from the first on: 0 to 1,000,000, and 0 where none is given.
    pub explain: u32,
    /// Whether and how it is advised of what is legal and likely wrong.
    pub advice: Advising,
    /// How many calls may be made in a critical region before advice calls it long: 0 to 1,000,000, and 1,000 where
    /// none is given.
    pub region: u32,
    /// Whether a denied call ends the program with a status of its own.
    pub strict: bool,
    /// How often a worker tries to enter a busy monitor: 1 to 1,000,000, and 1,000 where none is
    /// given.
    pub turns: u32,
    /// Whether of a record only denied questions are written.
    pub denials: bool,
    /// Whether what is left at the end is listed.
    pub leaks: bool,
    /// Whether calls and denials are counted at the end.
    pub summary: bool,
}
