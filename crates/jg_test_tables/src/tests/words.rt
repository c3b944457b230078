//! Tests of the command line: words, and what they ask for. Which are refused, and the texts of the help, are cases.
//! The memory that they take is refused by `tests/refused --tests`.

use jg_args::{Advising, ArgsFault, Asked, Task, help_text, read_words, refused_word};
use std::alloc::{AllocError, Global};
use std::test::Fail;

const DEFAULTS: Asked<'static> = Asked {
    task: Task::Check,
    setup: None,
    limit: 1_000_000,
    explain: 0,
    advice: Advising::Never,
    region: 1000,
    strict: false,
    turns: 1000,
    denials: false,
    leaks: false,
    summary: false,
};

/// Words, and what they ask for, or why they ask for nothing.
const READ: [(&[&str], Result<Asked<'static>, ArgsFault>); 27] = [
    (&[], Ok(DEFAULTS)),
    (&["check"], Ok(DEFAULTS)),
    (
        &["watch", "--advice", "--region", "0"],
        Ok(Asked {
            task: Task::Watch,
            advice: Advising::Once,
            region: 0,
            ..DEFAULTS
        }),
    ),
    (
        &["watch", "--advice=all", "--region=7"],
        Ok(Asked {
            task: Task::Watch,
            advice: Advising::Each,
            region: 7,
            ..DEFAULTS
        }),
    ),
    (
        &["watch", "--advice", "once", "--strict"],
        Ok(Asked {
            task: Task::Watch,
            advice: Advising::Once,
            strict: true,
            ..DEFAULTS
        }),
    ),
    (
        &["--advice"],
        Ok(Asked {
            advice: Advising::Once,
            ..DEFAULTS
        }),
    ),
    (
        &["verify", "--advice", "all", "--region", "1000000"],
        Ok(Asked {
            task: Task::Verify,
            advice: Advising::Each,
            region: 1_000_000,
            ..DEFAULTS
        }),
    ),
    (
        &["play", "two", "--advice"],
        Ok(Asked {
            task: Task::Play("two"),
            advice: Advising::Once,
            ..DEFAULTS
        }),
    ),
    (
        &["--explain", "1000000"],
        Ok(Asked {
            explain: 1_000_000,
            ..DEFAULTS
        }),
    ),
    (&["check", "--explain", "0"], Ok(DEFAULTS)),
    (
        &["check", "--strict", "--explain=3", "--leaks", "--summary"],
        Ok(Asked {
            explain: 3,
            strict: true,
            leaks: true,
            summary: true,
            ..DEFAULTS
        }),
    ),
    (
        &["--strict"],
        Ok(Asked {
            strict: true,
            ..DEFAULTS
        }),
    ),
    (
        &["verify", "--explain", "7", "--strict"],
        Ok(Asked {
            task: Task::Verify,
            explain: 7,
            strict: true,
            ..DEFAULTS
        }),
    ),
    (
        &["play", "--strict", "two", "--explain", "1"],
        Ok(Asked {
            task: Task::Play("two"),
            explain: 1,
            strict: true,
            ..DEFAULTS
        }),
    ),
    (
        &["check", "--leaks", "--limit", "0", "--setup=app.toml"],
        Ok(Asked {
            limit: 0,
            setup: Some("app.toml"),
            leaks: true,
            ..DEFAULTS
        }),
    ),
    (
        &["verify", "--limit", "1000000"],
        Ok(Asked {
            task: Task::Verify,
            ..DEFAULTS
        }),
    ),
    (
        &["play", "--turns", "1", "two"],
        Ok(Asked {
            task: Task::Play("two"),
            turns: 1,
            ..DEFAULTS
        }),
    ),
    (
        &["play", "-"],
        Ok(Asked {
            task: Task::Play("-"),
            ..DEFAULTS
        }),
    ),
    (
        &["watch"],
        Ok(Asked {
            task: Task::Watch,
            ..DEFAULTS
        }),
    ),
    (
        &["facts", "--setup", "app.toml", "--limit", "7"],
        Ok(Asked {
            task: Task::Facts,
            setup: Some("app.toml"),
            limit: 7,
            ..DEFAULTS
        }),
    ),
    (
        &["watch", "--explain", "3", "--leaks", "--summary"],
        Ok(Asked {
            task: Task::Watch,
            explain: 3,
            leaks: true,
            summary: true,
            ..DEFAULTS
        }),
    ),
    (
        &["watch", "--strict", "--denials", "--setup", "app.toml"],
        Ok(Asked {
            task: Task::Watch,
            setup: Some("app.toml"),
            strict: true,
            denials: true,
            ..DEFAULTS
        }),
    ),
    (
        &["migrate", "--setup", "app.toml"],
        Ok(Asked {
            task: Task::Migrate("app.toml"),
            setup: Some("app.toml"),
            ..DEFAULTS
        }),
    ),
    (
        &["check", "--leaks", "--limit", "7", "--setup=app.toml"],
        Ok(Asked {
            limit: 7,
            setup: Some("app.toml"),
            leaks: true,
            ..DEFAULTS
        }),
    ),
    (&["verify", "--help"], Err(ArgsFault::Help)),
    (&["check", "--limit", "many"], Err(ArgsFault::Refused)),
    (&["--fly"], Err(ArgsFault::Refused)),
];

/// The place of the first of these words that are read otherwise.
fn other_words(alloc: Global) -> Result<Option<usize>, AllocError> {
    for (place, (words, want)) in READ.iter().enumerate() {
        let asked = read_words(alloc, *words);
        if asked == Err(ArgsFault::NoMemory) {
            return Err(AllocError);
        }
        if asked != *want {
            return Ok(Some(place));
        }
    }
    Ok(None)
}

#[test]
fn words_are_read_or_refused_for_want_of_memory(rt: HostRuntime) -> Result<(), Fail> {
    assert_eq!(rt; other_words(rt.alloc())?, None);
    let refused = refused_word(rt.alloc(), &["--explain", "1", "verify"])?;
    assert_eq!(rt; refused, Some(2));
    Ok(())
}

/// Words that ask for a text, and how it begins.
const TEXTS: [(&[&str], &str); 3] = [
    (&["--help"], "A guard for the Java Native Interface."),
    (&["help", "play"], "plays the scripts of FILE"),
    (&["--version"], "jg "),
];

/// The place of the first of the words that ask for another text.
fn other_text(alloc: Global) -> Result<Option<usize>, AllocError> {
    for (place, (words, front)) in TEXTS.iter().enumerate() {
        if !help_text(alloc, *words)?.starts_with(*front) {
            return Ok(Some(place));
        }
    }
    Ok(None)
}

#[test]
fn help_is_told_or_refused_for_want_of_memory(rt: HostRuntime) -> Result<(), Fail> {
    assert_eq!(rt; other_text(rt.alloc())?, None);
    Ok(())
}
