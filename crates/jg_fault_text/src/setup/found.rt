//! A place of a setup's text, what is wrong there, and how both are told.

use crate::setup::rules::TableKind;
use jg_denial_text::push_quoted;
use jg_policy::{SetupFault, Spelling};
use jg_text::{push_number, push_signed};
use std::alloc::AllocError;

/// A table of the text, or an item of an array. All count from 0 here, and are told from 1 on.
#[derive(Clone, Copy)]
pub enum Place {
    Top,
    Module(usize),
    Grant(usize),
    Operation { grant: usize, operation: usize },
    Class(usize),
    Field { class: usize, field: usize },
    Native { class: usize, native: usize },
}

/// What is wrong at a place.
#[derive(Clone, Copy)]
pub enum Wrong<'a> {
    Version(i64),
    UnknownKey(TableKind),
    Missing,
    /// The value is of another type than this.
    Type(&'static str),
    Mode(&'a str),
    Operation(&'a str),
    Name(&'a str, Spelling),
    BaseClass(&'a str),
    KnownClass(&'a str),
    /// The name and the type of a field or a native method.
    KnownMember(&'a str, &'a str),
    /// So many items are there, and so many are the most.
    Excess(usize, usize),
}

impl<'a> Wrong<'a> {
    fn fault(self) -> SetupFault {
        match self {
            Wrong::Version(_) => SetupFault::BadVersion,
            Wrong::UnknownKey(_) => SetupFault::UnknownKey,
            Wrong::Missing => SetupFault::Missing,
            Wrong::Type(_) => SetupFault::BadType,
            Wrong::Mode(_) | Wrong::Operation(_) => SetupFault::BadMode,
            Wrong::Name(_, _) => SetupFault::BadName,
            Wrong::BaseClass(_) | Wrong::KnownClass(_) | Wrong::KnownMember(_, _) => {
                SetupFault::Duplicate
            }
            Wrong::Excess(_, _) => SetupFault::TooMany,
        }
    }
}

/// What is wrong at a place, or at a key of the table that stands there.
#[derive(Clone, Copy)]
pub struct Found<'a> {
    pub place: Place,
    pub key: Option<&'a str>,
    pub wrong: Wrong<'a>,
}

/// What is wrong at a place, if it is this fault.
pub fn found_if<'a>(
    fault: SetupFault,
    place: Place,
    key: Option<&'a str>,
    wrong: Wrong<'a>,
) -> Option<Found<'a>> {
    if wrong.fault() == fault {
        Some(Found { place, key, wrong })
    } else {
        None
    }
}

fn push_numbered(out: &mut String, word: &str, place: usize) -> Result<(), AllocError> {
    out.push_str(word)?;
    push_number(out, (place as u64).saturating_add(1))
}

fn push_place(out: &mut String, place: Place) -> Result<(), AllocError> {
    match place {
        Place::Top => return Ok(()),
        Place::Module(n) => push_numbered(out, "enable_native_access, item ", n)?,
        Place::Grant(n) => push_numbered(out, "grant ", n)?,
        Place::Operation { grant, operation } => {
            push_numbered(out, "grant ", grant)?;
            push_numbered(out, ", operation ", operation)?;
        }
        Place::Class(n) => push_numbered(out, "class ", n)?,
        Place::Field { class, field } => {
            push_numbered(out, "class ", class)?;
            push_numbered(out, ", field ", field)?;
        }
        Place::Native { class, native } => {
            push_numbered(out, "class ", class)?;
            push_numbered(out, ", native ", native)?;
        }
    }
    out.push_str(": ")
}

/// A text of the setup, and what is said of it.
fn push_text(out: &mut String, text: &str, words: &str) -> Result<(), AllocError> {
    if text.is_empty() {
        out.push_str("the empty text")?;
    } else {
        push_quoted(out, text.as_bytes())?;
    }
    out.push_str(words)
}

fn push_version(out: &mut String, version: i64) -> Result<(), AllocError> {
    push_signed(out, version)?;
    out.push_str(" is no version; 1 and 2 are")
}

/// What a text of this spelling is.
fn spelt(spelling: Spelling) -> &'static str {
    match spelling {
        Spelling::ModuleName => "module name",
        Spelling::ClassName => "class name",
        Spelling::MemberName => "name of a field or a native method",
        Spelling::FieldType => "field type",
        Spelling::NativeType => "type of a native method",
    }
}

fn push_misspelt(out: &mut String, text: &str, spelling: Spelling) -> Result<(), AllocError> {
    push_text(out, text, " is no ")?;
    out.push_str(spelt(spelling))
}

fn push_known_member(out: &mut String, name: &str, signature: &str) -> Result<(), AllocError> {
    push_text(out, name, " of type ")?;
    push_text(out, signature, " is there already")
}

fn push_excess(out: &mut String, count: usize, most: usize) -> Result<(), AllocError> {
    push_number(out, count as u64)?;
    out.push_str(" items, and at most ")?;
    push_number(out, most as u64)?;
    out.push_str(" may be there")
}

fn push_wrong(out: &mut String, wrong: Wrong<'_>) -> Result<(), AllocError> {
    match wrong {
        Wrong::Version(version) => push_version(out, version),
        Wrong::UnknownKey(kind) => {
            out.push_str("no key of ")?;
            out.push_str(kind.words())
        }
        Wrong::Missing => out.push_str("missing"),
        Wrong::Type(words) => {
            out.push_str(words)?;
            out.push_str(" is wanted")
        }
        Wrong::Mode(text) => push_text(out, text, " is no mode; allow, warn and deny are"),
        Wrong::Operation(text) => push_text(
            out,
            text,
            " is no operation; load, register and link are",
        ),
        Wrong::Name(text, spelling) => push_misspelt(out, text, spelling),
        Wrong::BaseClass(name) => push_text(out, name, " is a base class"),
        Wrong::KnownClass(name) => push_text(out, name, " is there already"),
        Wrong::KnownMember(name, signature) => push_known_member(out, name, signature),
        Wrong::Excess(count, most) => push_excess(out, count, most),
    }
}

/// Writes the place, the key and what is wrong there.
pub fn push_found(out: &mut String, found: Found<'_>) -> Result<(), AllocError> {
    push_place(out, found.place)?;
    if let Some(key) = found.key {
        push_text(out, key, ": ")?;
    }
    push_wrong(out, found.wrong)
}
