//! The words after the program's name, by `clap`.

ghost use Rattle.std.specs.Prelude.{◌≤◌, IfOk};

use crate::asked::{Advising, ArgsFault, Asked, MAX_NUMBER, Task};
use clap::error::ErrorKind;
use clap::{Arg, ArgAction, ArgMatches, Command, value_parser};
use jg_version::VERSION;
use std::alloc::{AllocError, Global};

const DEFAULT_TURNS: u32 = 1000;

const DEFAULT_REGION: u32 = 1000;

const STATUSES: &str =
    "Exit status: 0 done, 1 the journal differs, 2 faulty script, setup or arguments, 3 limit met or no memory, \
     4 reading or writing failed, 5 done, and a call was denied (with --strict).";

fn setup_arg<'a>(alloc: Global) -> Arg<'a> {
    Arg::new(alloc, "setup")
        .long("setup")
        .value_name("FILE")
        .help("reads the setup from FILE")
}

fn file_arg<'a>(alloc: Global) -> Arg<'a> {
    Arg::new(alloc, "file")
        .value_name("FILE")
        .required(true)
        .help("the scripts, one call a line; - is standard input")
}

fn advice_arg<'a>(alloc: Global) -> Arg<'a> {
    Arg::new(alloc, "advice")
        .long("advice")
        .value_name("WHICH")
        .num_args(0..=1)
        .default_missing_value("once")
        .help(
            "advises on standard error of what is legal and likely wrong: once for each kind and function, or all",
        )
}

/// An option with a number.
fn number_arg<'a>(alloc: Global, name: &'a str, help: &'a str) -> Arg<'a> {
    Arg::new(alloc, name)
        .long(name)
        .value_name("N")
        .value_parser(value_parser!(u32))
        .help(help)
}

fn limit_arg<'a>(alloc: Global) -> Arg<'a> {
    number_arg(
        alloc,
        "limit",
        "journals at most N calls, 0 to 1000000 [default: 1000000]",
    )
}

fn explain_arg<'a>(alloc: Global) -> Arg<'a> {
    number_arg(
        alloc,
        "explain",
        "explains the first N denials on standard error, 0 to 1000000 [default: 0]",
    )
}

fn region_arg<'a>(alloc: Global) -> Arg<'a> {
    number_arg(
        alloc,
        "region",
        "advises of critical regions of more than N calls, 0 to 1000000 [default: 1000]",
    )
}

fn turns_arg<'a>(alloc: Global) -> Arg<'a> {
    number_arg(
        alloc,
        "turns",
        "tries a busy monitor at most N times, 1 to 1000000 [default: 1000]",
    )
}

/// An option that is there or isn't.
fn flag_arg<'a>(alloc: Global, name: &'a str, help: &'a str) -> Arg<'a> {
    Arg::new(alloc, name)
        .long(name)
        .action(ArgAction::SetTrue)
        .help(help)
}

fn strict_arg<'a>(alloc: Global) -> Arg<'a> {
    flag_arg(
        alloc,
        "strict",
        "ends with status 5 in the place of 0 where a call was denied",
    )
}

fn summary_arg<'a>(alloc: Global) -> Arg<'a> {
    flag_arg(
        alloc,
        "summary",
        "counts calls, denials and what was there at once on standard error",
    )
}

fn leaks_arg<'a>(alloc: Global) -> Arg<'a> {
    flag_arg(
        alloc,
        "leaks",
        "lists what is left at the end on standard error",
    )
}

fn denials_arg<'a>(alloc: Global) -> Arg<'a> {
    flag_arg(
        alloc,
        "denials",
        "writes denied questions alone, with their notes",
    )
}

fn counts_arg<'a>(alloc: Global) -> Arg<'a> {
    flag_arg(
        alloc,
        "summary",
        "counts questions and denials on standard error",
    )
}

/// The command with the options of all that make or test a journal.
fn with_options<'a>(alloc: Global, command: Command<'a>) -> Result<Command<'a>, AllocError> {
    let options = vec![in alloc;
        setup_arg(alloc),
        limit_arg(alloc),
        explain_arg(alloc),
        advice_arg(alloc),
        region_arg(alloc),
        strict_arg(alloc),
        summary_arg(alloc),
    ]?;
    command.args(options)
}

fn check_command<'a>(alloc: Global) -> Result<Command<'a>, AllocError> {
    let command = Command::new(alloc, "check")
        .about("answers the script on standard input with its journal")
        .after_help(STATUSES);
    with_options(alloc, command)?.arg(leaks_arg(alloc))
}

fn verify_command<'a>(alloc: Global) -> Result<Command<'a>, AllocError> {
    let command = Command::new(alloc, "verify")
        .about("tests whether standard input is the journal of a legal history")
        .after_help(STATUSES);
    with_options(alloc, command)
}

fn watch_command<'a>(alloc: Global) -> Result<Command<'a>, AllocError> {
    let options = vec![in alloc;
        setup_arg(alloc),
        denials_arg(alloc),
        explain_arg(alloc),
        advice_arg(alloc),
        region_arg(alloc),
        strict_arg(alloc),
        counts_arg(alloc),
        leaks_arg(alloc),
    ]?;
    Command::new(alloc, "watch")
        .about("answers the record on standard input with what a core answers to it")
        .after_help(STATUSES)
        .args(options)
}

fn facts_command<'a>(alloc: Global) -> Result<Command<'a>, AllocError> {
    Command::new(alloc, "facts")
        .about("writes the record of the journal on standard input")
        .after_help(STATUSES)
        .arg(setup_arg(alloc))?
        .arg(limit_arg(alloc))
}

fn play_command<'a>(alloc: Global) -> Result<Command<'a>, AllocError> {
    let command = Command::new(alloc, "play")
        .about("plays the scripts of FILE, the lines of each thread by a thread of its own")
        .after_help(STATUSES)
        .arg(file_arg(alloc))?;
    with_options(alloc, command)?.arg(turns_arg(alloc))
}

fn migrate_command<'a>(alloc: Global) -> Result<Command<'a>, AllocError> {
    Command::new(alloc, "migrate")
        .about("writes the setup of FILE as a setup text of version 2")
        .after_help(STATUSES)
        .arg(setup_arg(alloc).required(true))
}

/// The command line of `jg` without its commands' words.
fn own_options<'a>(alloc: Global) -> Result<Command<'a>, AllocError> {
    let command = Command::new(alloc, "jg")
        .about("A guard for the Java Native Interface. Without a command it is `check`.")
        .after_help(STATUSES)
        .version(VERSION)
        .override_usage("jg [check] [OPTIONS] | jg verify|play|watch|facts|migrate ..")
        .bin_name("jg")?;
    with_options(alloc, command)?.arg(leaks_arg(alloc))
}

/// The command line with one command more.
fn with_command<'a>(
    line: Command<'a>,
    command: Result<Command<'a>, AllocError>,
) -> Result<Command<'a>, AllocError> {
    line.subcommand(command?)
}

/// The command line of `jg`.
fn command<'a>(alloc: Global) -> Result<Command<'a>, AllocError> {
    let line = own_options(alloc)?;
    let line = with_command(line, check_command(alloc))?;
    let line = with_command(line, verify_command(alloc))?;
    let line = with_command(line, play_command(alloc))?;
    let line = with_command(line, watch_command(alloc))?;
    let line = with_command(line, facts_command(alloc))?;
    with_command(line, migrate_command(alloc))
}

/// The text that the words ask for by `--help`, `help` or `--version`: the help of the program or of the
/// command that they name, or the program's name and version. Where they ask for no such text it is
/// empty, or says what is wrong with them. Fails only for want of memory.
pub fn help_text<'a>(alloc: Global, words: &'a [&'a str]) -> Result<String, AllocError> {
    let command = command(alloc)?;
    match command.no_binary_name(true).try_get_matches_from(words) {
        Ok(_) => Ok(String::new(alloc)),
        Err(error) => match error.kind() {
            ErrorKind::OutOfMemory => Err(AllocError),
            _ => format!(in alloc; "{error}"),
        },
    }
}

/// The number of an option within its range, or what stands for none.
fn number(matches: &ArgMatches<'_>, id: &str, least: u32, default: u32) -> Result<u32, ArgsFault>
    requires low { least ≤ default }
    requires high { default ≤ 1000000 }
    ensures { IfOk result (λ n. (least ≤ n) × (n ≤ 1000000)) }
{
    if !matches.contains_id(id) {
        return Ok(default);
    }
    match matches.get_one::<u32>(id) {
        Some(n) if least <= n && n <= MAX_NUMBER => Ok(n),
        _ => Err(ArgsFault::Refused),
    }
}

fn advising(matches: &ArgMatches<'_>) -> Result<Advising, ArgsFault> {
    if !matches.contains_id("advice") {
        return Ok(Advising::Never);
    }
    match matches.get_str("advice") {
        Some("once") => Ok(Advising::Once),
        Some("all") => Ok(Advising::Each),
        _ => Err(ArgsFault::Refused),
    }
}

fn make_asked<'a>(task: Task<'a>, matches: &ArgMatches<'a>) -> Result<Asked<'a>, ArgsFault>
    ensures limit { IfOk result (λ asked. asked.limit ≤ 1000000) }
    ensures explain { IfOk result (λ asked. asked.explain ≤ 1000000) }
    ensures region { IfOk result (λ asked. asked.region ≤ 1000000) }
    ensures turns { IfOk result (λ asked. (1 ≤ asked.turns) × (asked.turns ≤ 1000000)) }
{
    Ok(Asked {
        task,
        setup: matches.get_str("setup"),
        limit: number(matches, "limit", 0, MAX_NUMBER)?,
        explain: number(matches, "explain", 0, 0)?,
        advice: advising(matches)?,
        region: number(matches, "region", 0, DEFAULT_REGION)?,
        strict: matches.get_flag("strict"),
        turns: number(matches, "turns", 1, DEFAULT_TURNS)?,
        denials: matches.get_flag("denials"),
        leaks: matches.get_flag("leaks"),
        summary: matches.get_flag("summary"),
    })
}

fn has_options(matches: &ArgMatches<'_>) -> bool {
    matches.contains_id("setup")
        || matches.contains_id("limit")
        || matches.contains_id("explain")
        || matches.contains_id("advice")
        || matches.contains_id("region")
        || matches.get_flag("strict")
        || matches.get_flag("leaks")
        || matches.get_flag("summary")
}

fn fault_of(kind: ErrorKind) -> ArgsFault {
    match kind {
        ErrorKind::DisplayHelp | ErrorKind::DisplayVersion => ArgsFault::Help,
        ErrorKind::OutOfMemory => ArgsFault::NoMemory,
        _ => ArgsFault::Refused,
    }
}

/// What the command of this name is to do.
fn task_of<'a>(name: &str, matches: &ArgMatches<'a>) -> Result<Task<'a>, ArgsFault> {
    match name {
        "verify" => Ok(Task::Verify),
        "watch" => Ok(Task::Watch),
        "facts" => Ok(Task::Facts),
        "play" => match matches.get_str("file") {
            Some(file) => Ok(Task::Play(file)),
            None => Err(ArgsFault::Refused),
        },
        "migrate" => match matches.get_str("setup") {
            Some(file) => Ok(Task::Migrate(file)),
            None => Err(ArgsFault::Refused),
        },
        _ => Ok(Task::Check),
    }
}

/// What a whole command line asks for. An option before the command's word is refused.
fn asked_by<'a>(matches: &ArgMatches<'a>) -> Result<Asked<'a>, ArgsFault>
    ensures limit { IfOk result (λ asked. asked.limit ≤ 1000000) }
    ensures explain { IfOk result (λ asked. asked.explain ≤ 1000000) }
    ensures region { IfOk result (λ asked. asked.region ≤ 1000000) }
    ensures turns { IfOk result (λ asked. (1 ≤ asked.turns) × (asked.turns ≤ 1000000)) }
{
    match matches.subcommand() {
        None => make_asked(Task::Check, matches),
        Some(_) if has_options(matches) => Err(ArgsFault::Refused),
        Some((name, inner)) => make_asked(task_of(name, inner)?, inner),
    }
}

/// What the words after the program's name ask for. An option before the command's word is
/// refused.
pub fn read_words<'a>(alloc: Global, words: &'a [&'a str]) -> Result<Asked<'a>, ArgsFault>
    ensures limit { IfOk result (λ asked. asked.limit ≤ 1000000) }
    ensures explain { IfOk result (λ asked. asked.explain ≤ 1000000) }
    ensures region { IfOk result (λ asked. asked.region ≤ 1000000) }
    ensures turns { IfOk result (λ asked. (1 ≤ asked.turns) × (asked.turns ≤ 1000000)) }
{
    let Ok(command) = command(alloc) else {
        return Err(ArgsFault::NoMemory);
    };
    match command.no_binary_name(true).try_get_matches_from(words) {
        Ok(matches) => asked_by(&matches),
        Err(error) => Err(fault_of(error.kind())),
    }
}
