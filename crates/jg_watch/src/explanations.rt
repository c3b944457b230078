//! The first denied questions are explained: the operand, what the rule says, and what helps.

ghost use Rattle.std.specs.Prelude.{◌≡◌, ◌++◌, [], if◌then◌else◌, IfSome, List, nat_lt, OnOk, Some, string_bytes, ℕ};
ghost use Rattle.std.specs.Option.{option_map};
ghost use Rattle.jg_record.specs.declared.reply.Reply.TheVariants.{Denied};
ghost use Rattle.jg_watch.specs.Explained.{explanation, subject_text};
ghost use Rattle.jg_watch.specs.Steps.{Adds};

use crate::event::Replied;
use jg_denial_text::{push_denial, push_rule};
use jg_judge::Argument;
use jg_record::{Reply, push_argument};
use jg_words::Rule;
use std::alloc::{AllocError, Global};
use std::marker::Model;

/// The explanations of a record's first denied questions, in the order of their lines. Contracts see all.
pub struct Explanations {
    most: u32,
    /// None where memory ran out.
    text: Option<String>,
}

impl Drop for Explanations {
    fn drop(self) {
        let Explanations {
            most: _,
            text: _text,
        } = self;
    }
}

impl Model for Explanations {
    ghost use Rattle.std.specs.Prelude.{string_bytes};
    ghost use Rattle.std.specs.Option.{option_map};
    ghost use Rattle.jg_watch.specs.Explained.{Explaining};

    ghost Value = { Explaining };

    ghost view = { λ e. record { most = e.most; text = option_map string_bytes e.text } };
}

/// Adds ` of ` and the operand, if one is told.
fn push_subject(out: &mut String, operand: Option<Argument>) -> Result<(), AllocError>
    ensures { OnOk result (string_bytes out.new ≡ string_bytes out.old ++ subject_text operand) }
{
    match operand {
        None => Ok(()),
        Some(argument) => {
            out.push_str(" of")?;
            push_argument(out, argument)
        }
    }
}

/// Adds the explanation of a denied question on this line.
fn push_explanation(
    out: &mut String,
    line: u64,
    rule: Rule,
    operand: Option<Argument>,
) -> Result<(), AllocError>
    ensures { OnOk result (string_bytes out.new ≡ string_bytes out.old ++ explanation line (Denied rule) operand) }
{
    push_denial(out, line, rule)?;
    push_subject(out, operand)?;
    out.push_str("\n")?;
    push_rule(out, rule)
}

/// The text with the explanation behind it; `None` where memory runs out.
fn explained(
    text: Option<String>,
    line: u64,
    rule: Rule,
    operand: Option<Argument>,
) -> Option<String>
    ensures { IfSome result (λ new. (old : List ℕ) × (option_map string_bytes text ≡ Some old)
        × (string_bytes new ≡ old ++ explanation line (Denied rule) operand)) }
{
    let mut text = text?;
    match push_explanation(&mut text, line, rule, operand) {
        Ok(()) => Some(text),
        Err(_) => None,
    }
}

impl Explanations {
    /// No explanation yet, of `most` at the most. It takes no memory.
    pub fn new(alloc: Global, most: u32) -> Explanations
        ensures most { result.most ≡ most }
        ensures none_yet { result.text ≡ Some [] }
    {
        Explanations {
            most,
            text: Some(String::new(alloc)),
        }
    }

    /// Their text; `None` where memory ran out for it.
    pub fn into_text(self) -> Option<String>
        ensures { option_map string_bytes result ≡ self.text }
    {
        let Explanations { most: _, text } = self;
        text
    }

    /// Explains what a line was answered, where it is a denied question. `line` is its number, from 1, and `denied`
    /// says how many questions were denied before it.
    pub(crate) fn note(&mut self, denied: u64, line: u64, replied: Replied)
        ensures { Adds self.old self.new
            (if nat_lt denied self.old.most then explanation line replied.reply replied.operand else []) }
    {
        let Reply::Denied(rule) = replied.reply else {
            return;
        };
        if denied >= u64::from(self.most) {
            return;
        }
        self.text = explained(self.text.take(), line, rule, replied.operand);
    }
}
