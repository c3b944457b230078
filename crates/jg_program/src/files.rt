//! The files that the words may name.

use std::fs::{File, OpenFile};
use std::io;
use std::io::Read;

/// Where files are opened.
pub trait Files {
    /// An open file.
    type File: Read + Drop;

    /// Opens the file at this path, and tells how long the system says that it is, which is 0 for a pipe.
    fn open(&self, path: &str) -> io::Result<(Self::File, u64)>;
}

impl Files for HostRuntime {
    type File = File;

    fn open(&self, path: &str) -> io::Result<(File, u64)> {
        let file = File::open(self, path)?;
        let length = file.metadata()?.len();
        Ok((file, length))
    }
}
