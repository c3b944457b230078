//! Cases and their parts.

use crate::headings::{Heading, Kind};

/// A part of a case. It is read once: `text` is empty where it may be any bytes, and `number` is 0 where it is none.
#[derive(Clone, Copy)]
pub struct Part<'a> {
    /// The line of its heading.
    pub line: usize,
    pub heading: Heading,
    /// What stands behind the heading: a file's path, or a thread. Mostly nothing.
    pub name: &'a str,
    pub bytes: &'a [u8],
    pub text: &'a str,
    pub number: usize,
}

/// The part under this heading with this name.
pub fn find_part<'a>(parts: &'a [Part<'a>], heading: Heading, name: &str) -> Option<Part<'a>> {
    for part in parts {
        if part.heading.is_same(heading) && part.name == name {
            return Some(*part);
        }
    }
    None
}

/// A case.
#[derive(Clone, Copy)]
pub struct Case<'a> {
    pub name: &'a str,
    /// The line of its name.
    pub line: usize,
    pub parts: &'a [Part<'a>],
}

impl<'a> Case<'a> {
    /// Whether it has this part.
    pub fn has(self, heading: Heading) -> bool {
        find_part(self.parts, heading, "").is_some()
    }

    /// The bytes of this part, if it has it.
    pub fn bytes(self, heading: Heading) -> Option<&'a [u8]> {
        match find_part(self.parts, heading, "") {
            Some(part) => Some(part.bytes),
            None => None,
        }
    }

    /// The text of this part, if it has it.
    pub fn text(self, heading: Heading) -> Option<&'a str> {
        match find_part(self.parts, heading, "") {
            Some(part) => Some(part.text),
            None => None,
        }
    }

    /// The number of this part, if it has it.
    pub fn number(self, heading: Heading) -> Option<usize> {
        match find_part(self.parts, heading, "") {
            Some(part) => Some(part.number),
            None => None,
        }
    }

    /// The status that the program must end with.
    pub fn status(self) -> usize {
        self.number(Heading::Status).unwrap_or(0)
    }

    /// The kind of the case.
    pub fn kind(self) -> Kind {
        if self.has(Heading::Rows) {
            Kind::Table
        } else if self.has(Heading::Journal) {
            Kind::Journal
        } else if self.has(Heading::Own) {
            Kind::Own
        } else if self.has(Heading::Functions) {
            Kind::Functions
        } else {
            Kind::Run
        }
    }
}
