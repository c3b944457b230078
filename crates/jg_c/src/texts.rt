//! Texts that need no handle: the version, and those of rules.

ghost use Rattle.std.specs.Prelude.{◌≡◌};
ghost use Rattle.jg_words.specs.Rule.{name_of};
ghost use Rattle.jg_denial_text.specs.Sentences.{help_of, sentence_of};
ghost use Rattle.jg_c.specs.Lines.{Writes};
ghost use Rattle.jg_c.specs.Texts as specs;
ghost use Rattle.jg_c.specs.Texts.{TellsRule};

use crate::copying::copy_out;
use crate::numbers::NO_RULE;
use jg_denial_text::{help, sentence};
use jg_version::VERSION;
use jg_words::Rule;

/// The rule of this number, from 1.
fn rule_of(number: u32) -> Option<Rule>
    ensures { result ≡ specs.rule_of number }
{
    match number {
        1 => Some(Rule::WrongThread),
        2 => Some(Rule::Detached),
        3 => Some(Rule::InCritical),
        4 => Some(Rule::Pending),
        5 => Some(Rule::ForeignLocal),
        6 => Some(Rule::DeadReference),
        7 => Some(Rule::WrongRefKind),
        8 => Some(Rule::NullReference),
        9 => Some(Rule::WrongType),
        10 => Some(Rule::BadField),
        11 => Some(Rule::BadBuffer),
        12 => Some(Rule::BadArgument),
        13 => Some(Rule::Pinned),
        14 => Some(Rule::NotOwner),
        15 => Some(Rule::BadFrame),
        16 => Some(Rule::NoNativeAccess),
        17 => Some(Rule::NotLinked),
        _ => None,
    }
}

/// Writes the version, as `jg --version` prints it, and answers how long it is.
#[unsafe(no_mangle)]
pub extern "C" fn jg_version(text: &mut [u8]) -> i64
    ensures { Writes specs.version text.old text.new result }
{
    copy_out(VERSION.as_bytes(), text)
}

/// Writes the name of the rule of this number, and answers how long it is.
#[unsafe(no_mangle)]
pub extern "C" fn jg_rule_name(rule: u32, text: &mut [u8]) -> i64
    ensures { TellsRule name_of (specs.rule_of rule) text.old text.new result }
{
    match rule_of(rule) {
        Some(rule) => copy_out(rule.name().as_bytes(), text),
        None => i64::from(NO_RULE),
    }
}

/// Writes what the rule of this number demands, and answers how long that is.
#[unsafe(no_mangle)]
pub extern "C" fn jg_rule_text(rule: u32, text: &mut [u8]) -> i64
    ensures { TellsRule sentence_of (specs.rule_of rule) text.old text.new result }
{
    match rule_of(rule) {
        Some(rule) => copy_out(sentence(rule).as_bytes(), text),
        None => i64::from(NO_RULE),
    }
}

/// Writes what helps where the rule of this number is broken, and answers how long that is.
#[unsafe(no_mangle)]
pub extern "C" fn jg_help_text(rule: u32, text: &mut [u8]) -> i64
    ensures { TellsRule help_of (specs.rule_of rule) text.old text.new result }
{
    match rule_of(rule) {
        Some(rule) => copy_out(help(rule).as_bytes(), text),
        None => i64::from(NO_RULE),
    }
}
