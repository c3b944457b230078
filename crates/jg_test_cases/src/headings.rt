//! The headings of a case's parts: how each is written, what its text may be, and in which kind of case it may stand.

/// What a part of a case states.
#[derive(Clone, Copy)]
pub enum Heading {
    Words,
    Input,
    File,
    Told,
    Then,
    Reads,
    Writes,
    Most,
    ReadInterrupted,
    WriteInterrupted,
    Full,
    Stuck,
    Unheard,
    Out,
    OutHas,
    OutLines,
    Lines,
    Err,
    ErrBegins,
    ErrHas,
    ErrWithoutRules,
    Legal,
    LegalAlike,
    EachCut,
    Status,
    Before,
    Rows,
    Journal,
    Migrated,
    EachByte,
    Own,
    Functions,
}

/// What the text of a part may be.
#[derive(Clone, Copy)]
pub enum Form {
    /// Any bytes.
    Bytes,
    /// Text.
    Text,
    /// A number.
    Number,
    /// An exit status.
    Status,
    /// Nothing: the heading says all.
    Nothing,
    /// What a file does after its last byte.
    Behind,
    /// Rows of a table.
    Rows,
    /// What is tried of the program by itself.
    Own,
}

/// The kinds of cases.
#[derive(Clone, Copy)]
pub enum Kind {
    /// The program is run once.
    Run,
    /// It is run once for each row.
    Table,
    /// A journal is answered, read back, altered, cut and told as a record.
    Journal,
    /// Something is tried that no run shows.
    Own,
    /// The table of all functions is compared with a list.
    Functions,
}

/// Headings that are written so.
const PLAIN: [(&str, Heading); 28] = [
    ("words", Heading::Words),
    ("in", Heading::Input),
    ("reads", Heading::Reads),
    ("writes", Heading::Writes),
    ("most", Heading::Most),
    ("read interrupted", Heading::ReadInterrupted),
    ("write interrupted", Heading::WriteInterrupted),
    ("full", Heading::Full),
    ("stuck", Heading::Stuck),
    ("unheard", Heading::Unheard),
    ("out", Heading::Out),
    ("out has", Heading::OutHas),
    ("out lines", Heading::OutLines),
    ("err", Heading::Err),
    ("err begins", Heading::ErrBegins),
    ("err has", Heading::ErrHas),
    ("err without rules", Heading::ErrWithoutRules),
    ("legal", Heading::Legal),
    ("legal alike", Heading::LegalAlike),
    ("each cut", Heading::EachCut),
    ("status", Heading::Status),
    ("before", Heading::Before),
    ("rows", Heading::Rows),
    ("journal", Heading::Journal),
    ("migrated", Heading::Migrated),
    ("each byte", Heading::EachByte),
    ("own", Heading::Own),
    ("functions", Heading::Functions),
];

/// Headings that begin so, and go on with a name.
const NAMED: [(&str, Heading); 4] = [
    ("file ", Heading::File),
    ("told ", Heading::Told),
    ("then ", Heading::Then),
    ("lines ", Heading::Lines),
];

impl Heading {
    /// The heading that is written so, with the name behind it, if it has one.
    pub fn read(text: &str) -> Option<(Heading, &str)> {
        for (written, heading) in PLAIN {
            if text == written {
                return Some((heading, ""));
            }
        }
        for (front, heading) in NAMED {
            match text.strip_prefix(front) {
                None | Some("") => {}
                Some(name) => return Some((heading, name)),
            }
        }
        None
    }

    /// Whether they are one heading.
    pub fn is_same(self, other: Heading) -> bool {
        self as u8 == other as u8
    }

    /// Whether such a part says more of a file.
    pub fn is_of_a_file(self) -> bool {
        matches!(self, Heading::Told | Heading::Then)
    }

    /// What the text of such a part may be.
    pub fn form(self) -> Form {
        match self {
            Heading::Input | Heading::File | Heading::Out | Heading::Err | Heading::Before => {
                Form::Bytes
            }
            Heading::Reads | Heading::Writes | Heading::Most | Heading::Told | Heading::OutLines =>
                Form::Number,
            Heading::ReadInterrupted
            | Heading::WriteInterrupted
            | Heading::Full
            | Heading::Stuck
            | Heading::Unheard
            | Heading::EachCut
            | Heading::Migrated
            | Heading::EachByte => Form::Nothing,
            Heading::Status => Form::Status,
            Heading::Then => Form::Behind,
            Heading::Rows => Form::Rows,
            Heading::Own => Form::Own,
            _ => Form::Text,
        }
    }

    /// Whether such a part may stand in a case of that kind.
    pub fn may_stand_in(self, kind: Kind) -> bool {
        match kind {
            Kind::Run => !matches!(
                self,
                Heading::Before
                    | Heading::Rows
                    | Heading::Journal
                    | Heading::Migrated
                    | Heading::EachByte
                    | Heading::Own
                    | Heading::Functions
            ),
            Kind::Table => matches!(
                self,
                Heading::Words
                    | Heading::File
                    | Heading::Told
                    | Heading::Then
                    | Heading::Out
                    | Heading::Status
                    | Heading::Before
                    | Heading::Rows
            ),
            Kind::Journal => matches!(
                self,
                Heading::File | Heading::Journal | Heading::Migrated | Heading::EachByte
            ),
            Kind::Own => self.is_same(Heading::Own),
            Kind::Functions => self.is_same(Heading::Functions),
        }
    }
}
