//! Advice is told once for each kind and function, or each time, and counted.

ghost use Rattle.std.specs.Prelude.{◌≡◌, ◌++◌, ◌∷◌, ◌<◌, ◌⊎◌, ℕ, [], if◌then◌else◌, IfOk, IfSome, length, List, None, OnOk, Some, string_bytes};
ghost use Rattle.std.specs.Option.{option_map};
ghost use Rattle.jg_advice.specs.declared.advice.Advice.{Advice as AdviceOf};
ghost use Rattle.jg_advice.specs.Noted as noted;
ghost use Rattle.jg_advice.specs.Noted.{Counts, IsNoted};
ghost use Rattle.jg_advice.specs.Texts.{advice_text};

use crate::advice::{Advice, Kind};
use crate::texts::{push_advice, push_head};
use jg_text::push_number;
use std::alloc::{AllocError, Global};
use std::marker::Model;

/// How many functions are told apart: those of the table, and none.
const FUNCTIONS: usize = 244;

const KINDS: [Kind; 7] = [
    Kind::Unchecked,
    Kind::WritesLost,
    Kind::CommittedAndKept,
    Kind::LongRegion,
    Kind::MonitorAtDetachment,
    Kind::DescriptorForName,
    Kind::Growing,
];

/// Advice that is to be told: each, or the first of each kind and function, with how often each was given. Contracts
/// see all.
#[derive(Drop)]
pub struct Advices {
    all: bool,
    /// By kind, and in that by function.
    counts: Vec<u64>,
    /// None where memory ran out.
    text: Option<String>,
}

impl Model for Advices {
    ghost use Rattle.std.specs.Prelude.{◌≡◌, length, string_bytes};
    ghost use Rattle.std.specs.Option.{option_map};
    ghost use Rattle.jg_advice.specs.Noted.{Noting};

    ghost Value = { Noting };

    ghost view = { λ x. record {
      all = x.all;
      counts = x.counts.items;
      text = option_map string_bytes x.text;
    } };

    ghost invariant = { λ x. length x.counts.items ≡ 1708 };
}

fn kind_number(kind: Kind) -> usize
    ensures { result ≡ noted.kind_number kind }
{
    match kind {
        Kind::Unchecked => 0,
        Kind::WritesLost => 1,
        Kind::CommittedAndKept => 2,
        Kind::LongRegion => 3,
        Kind::MonitorAtDetachment => 4,
        Kind::DescriptorForName => 5,
        Kind::Growing => 6,
    }
}

fn function_number(function: Option<u16>) -> usize
    ensures is { result ≡ noted.function_number function }
    ensures within { result < 244 }
{
    match function {
        None => 243,
        Some(function) => usize::from(function).min(243),
    }
}

fn key_of(kind: Kind, function: Option<u16>) -> usize
    ensures is { result ≡ noted.key_of kind function }
    ensures within { result < 1708 }
{
    kind_number(kind) * FUNCTIONS + function_number(function)
}

/// The text with the advice behind it, where it is told; `None` where memory runs out.
fn with_advice(text: Option<String>, is_told: bool, advice: Advice) -> Option<String>
    ensures { IfSome result (λ new. (old : List ℕ) × (option_map string_bytes text ≡ Some old)
        × (string_bytes new ≡ old ++ (if is_told then advice_text advice else []))) }
{
    let mut text = text?;
    if !is_told {
        return Some(text);
    }
    match push_advice(&mut text, advice) {
        Ok(()) => Some(text),
        Err(_) => None,
    }
}

/// Adds how often that was, where it was at all.
fn push_count(out: &mut String, kind: Kind, function: u16, count: u64) -> Result<(), AllocError>
    ensures { OnOk result (string_bytes out.new ≡ string_bytes out.old ++ noted.count_text kind function count) }
{
    if count == 0 {
        return Ok(());
    }
    push_head(out, kind, function_at(function))?;
    out.push_str(": ")?;
    push_number(out, count)?;
    out.push_str(" in all\n")
}

fn function_at(function: u16) -> Option<u16>
    ensures { result ≡ noted.function_at function }
{
    if function == 243 {
        None
    } else {
        Some(function)
    }
}

/// Adds how often advice of that kind and function was given, where it was.
fn push_count_of(
    out: &mut String,
    counts: &[u64],
    kind: Kind,
    function: u16,
) -> Result<(), AllocError>
    requires { length counts.now ≡ 1708 }
    ensures { OnOk result ((advices : List AdviceOf) → Counts counts.now advices
        → string_bytes out.new ≡ string_bytes out.old
        ++ noted.count_text kind function (noted.given (noted.key_of kind (noted.function_at function)) advices)) }
{
    let count = counts[key_of(kind, function_at(function))];
    push_count(out, kind, function, count)
}

/// Adds how often advice of the kind was given.
fn push_counts(out: &mut String, counts: &[u64], kind: Kind) -> Result<(), AllocError>
    requires { length counts.now ≡ 1708 }
    ensures { OnOk result ((advices : List AdviceOf) → Counts counts.now advices
        → string_bytes out.new ≡ string_bytes out.old ++ noted.counts_below advices kind 244) }
{
    for function in 0..244u16 {
        push_count_of(out, counts, kind, function)?;
    }
    Ok(())
}

/// Adds how often advice of each kind was given.
fn push_all_counts(out: &mut String, counts: &[u64], kinds: &[Kind]) -> Result<(), AllocError>
    requires { length counts.now ≡ 1708 }
    ensures { OnOk result ((advices : List AdviceOf) → Counts counts.now advices
        → string_bytes out.new ≡ string_bytes out.old ++ noted.counts_of advices kinds.now) }
{
    let mut rest = kinds;
    while let Some((kind, later)) = rest.split_first() {
        push_counts(out, counts, *kind)?;
        rest = later;
    }
    Ok(())
}

/// The text with the counts behind it; `None` where memory runs out.
fn with_counts(text: Option<String>, counts: &[u64]) -> Option<String>
    requires { length counts.now ≡ 1708 }
    ensures { IfSome result (λ new. (old : List ℕ) × (option_map string_bytes text ≡ Some old)
        × ((advices : List AdviceOf) → Counts counts.now advices
        → string_bytes new ≡ old ++ noted.counts_of advices noted.kinds)) }
{
    let mut text = text?;
    match push_all_counts(&mut text, counts, &KINDS) {
        Ok(()) => Some(text),
        Err(_) => None,
    }
}

impl Advices {
    /// No advice was given yet. Each is going to be told, or the first of each kind and function. Fails for want of
    /// memory.
    pub fn new(alloc: Global, all: bool) -> Result<Advices, AllocError>
        ensures { IfOk result (λ x. (x.all ≡ all) × IsNoted x []) }
    {
        let mut counts = Vec::new(alloc);
        counts.resize(KINDS.len() * FUNCTIONS, 0)?;
        Ok(Advices {
            all,
            counts,
            text: Some(String::new(alloc)),
        })
    }

    /// Notes advice that is given. Where memory runs out for its text, all text is lost.
    pub fn note(&mut self, advice: Advice)
        ensures noted { (advices : List AdviceOf) → IsNoted self.old advices → IsNoted self.new (advice ∷ advices) }
        ensures all { self.new.all ≡ self.old.all }
    {
        let key = key_of(advice.kind, advice.function);
        let count = self.counts[key];
        let text = with_advice(self.text.take(), self.all || count == 0, advice);
        let Some(count) = count.checked_add(1) else {
            return;
        };
        self.counts[key] = count;
        self.text = text;
    }

    /// What is told of all advice, with how often each was given; `None` where memory ran out for it.
    pub fn into_text(self) -> Option<String>
        ensures { IfSome result (λ text. (advices : List AdviceOf) → IsNoted self advices
            → string_bytes text ≡ noted.told_text self.all advices) }
    {
        let Advices {
            all: _,
            counts,
            text,
        } = self;
        with_counts(text, &counts)
    }
}
