//! The operands of a question, each in its spelling.

ghost use Rattle.std.specs.Prelude.{◌≡◌, ◌≢◌, ◌↔◌, ◌++◌, ◌∷◌, [], ℕ, List, IsTrue, IfSome, IfNone, IfErr, OnOk, MatchOption};
ghost use Rattle.std.specs.List.{list_any};
ghost use Rattle.std.specs.Option.{option_copied};
ghost use Rattle.jg_words.specs.Name.{IsName};
ghost use Rattle.jg_text.specs.Pieces.{rest_fields};
ghost use Rattle.jg_judge.specs.declared.argument.Argument.{Argument as ArgumentOf};
ghost use Rattle.jg_judge.specs.Asked as asked;
ghost use Rattle.jg_record.specs.Operands as spec;
ghost use Rattle.jg_record.specs.Operands.{Asks, Spells};
ghost use Rattle.jg_record.specs.Pieces.{IsOperandFault};
ghost use Rattle.jg_record.specs.declared.operands.Sort.TheVariants as sort;

use crate::fault::RecordFault;
use crate::word::read_stated;
use jg_judge::{Argument, are_none, is_last};
use jg_rows::Takes;
use jg_text::{next_field, read_buf, read_number, read_ref, signed_number, small_signed_number};
use jg_words::MAX_NAME;

/// How an operand is spelt.
#[derive(Clone, Copy)]
pub enum Sort {
    Reference,
    Buffer,
    /// A number that a rule bounds.
    Bounded,
    /// A number that none bounds.
    Number,
    Value,
    Id,
    Class,
    Native,
    Name,
    List,
}

/// How an operand is spelt, by what the row says of it.
pub fn sort_of(takes: Takes) -> Sort
    ensures { result ≡ spec.sort_of takes }
{
    match takes {
        Takes::Reference(_) | Takes::Nullable | Takes::Unjudged | Takes::Arguments => {
            Sort::Reference
        }
        Takes::Buffer(_) | Takes::Readable | Takes::Writable => Sort::Buffer,
        Takes::Number => Sort::Number,
        Takes::Capacity | Takes::Length | Takes::Count | Takes::Mode | Takes::Place => {
            Sort::Bounded
        }
        Takes::Item | Takes::Value(_) => Sort::Value,
        Takes::Field(_, _)
        | Takes::AnyField
        | Takes::Method(_, _)
        | Takes::Constructor
        | Takes::AnyMethod => Sort::Id,
        Takes::ClassName => Sort::Class,
        Takes::NativeName => Sort::Native,
        Takes::Name => Sort::Name,
        Takes::Items(_) | Takes::Utf8 => Sort::List,
    }
}

fn reference(word: &[u8]) -> Option<Argument>
    ensures some { IfSome result (Spells sort.Reference word.now) }
    ensures none { IfNone result ((x : ArgumentOf) → ¬ Spells sort.Reference word.now x) }
{
    match read_ref(word) {
        Some(reference) => Some(Argument::Reference(reference)),
        None => None,
    }
}

fn buffer(word: &[u8]) -> Option<Argument>
    ensures some { IfSome result (Spells sort.Buffer word.now) }
    ensures none { IfNone result ((x : ArgumentOf) → ¬ Spells sort.Buffer word.now x) }
{
    match read_buf(word) {
        Some(buffer) => Some(Argument::Buffer(buffer)),
        None => None,
    }
}

fn bounded(word: &[u8]) -> Option<Argument>
    ensures some { IfSome result (Spells sort.Bounded word.now) }
    ensures none { IfNone result ((x : ArgumentOf) → ¬ Spells sort.Bounded word.now x) }
{
    match small_signed_number(word) {
        Some(n) => Some(Argument::Number(n)),
        None => None,
    }
}

fn value(word: &[u8]) -> Option<Argument>
    ensures some { IfSome result (Spells sort.Value word.now) }
    ensures none { IfNone result ((x : ArgumentOf) → ¬ Spells sort.Value word.now x) }
{
    match signed_number(word) {
        Some(v) => Some(Argument::Value(v)),
        None => None,
    }
}

fn number(word: &[u8]) -> Option<Argument>
    ensures some { IfSome result (Spells sort.Number word.now) }
    ensures none { IfNone result ((x : ArgumentOf) → ¬ Spells sort.Number word.now x) }
{
    match signed_number(word) {
        Some(n) if -0x8000_0000 <= n && n <= 0x7fff_ffff => Some(Argument::Number(n as i32)),
        Some(v) => Some(Argument::Value(v)),
        None => None,
    }
}

fn id(word: &[u8]) -> Option<Argument>
    ensures some { IfSome result (Spells sort.Id word.now) }
    ensures none { IfNone result ((x : ArgumentOf) → ¬ Spells sort.Id word.now x) }
{
    if word == b"id".as_slice() {
        return Some(Argument::Id { fits: true });
    }
    if word == b"id!".as_slice() {
        return Some(Argument::Id { fits: false });
    }
    None
}

fn class(word: &[u8]) -> Option<Argument>
    ensures some { IfSome result (Spells sort.Class word.now) }
    ensures none { IfNone result ((x : ArgumentOf) → ¬ Spells sort.Class word.now x) }
{
    match read_stated(word) {
        Some(class) => Some(Argument::Class(class)),
        None => None,
    }
}

fn native(word: &[u8]) -> Option<Argument>
    ensures some { IfSome result (Spells sort.Native word.now) }
    ensures none { IfNone result ((x : ArgumentOf) → ¬ Spells sort.Native word.now x) }
{
    match read_stated(word) {
        Some(native) => Some(Argument::Native(native)),
        None => None,
    }
}

/// What stands before the word's `!`, if it ends with one.
fn before_mark(word: &[u8]) -> Option<&[u8]>
    ensures { MatchOption result ((digits : List ℕ) → word.now ≢ digits ++ 33 ∷ [])
        (λ digits. word.now ≡ digits.now ++ 33 ∷ []) }
{
    match word {
        [digits @ .., b'!'] => Some(digits),
        _ => None,
    }
}

fn list(word: &[u8]) -> Option<Argument>
    ensures some { IfSome result (Spells sort.List word.now) }
    ensures none { IfNone result ((x : ArgumentOf) → ¬ Spells sort.List word.now x) }
{
    if let Some(count) = read_number(word) {
        return Some(Argument::List { count, fits: true });
    }
    let Some(digits) = before_mark(word) else {
        return None;
    };
    match read_number(digits) {
        Some(count) => Some(Argument::List { count, fits: false }),
        None => None,
    }
}

/// Whether the word is a name: 1 to 255 bytes from 0x21 to 0x7E.
fn is_name(word: &[u8]) -> bool
    ensures { IsTrue result ↔ IsName word.now }
{
    word.len() >= 1 && word.len() <= MAX_NAME && word.iter().all(|b| *b >= 0x21 && *b <= 0x7E)
}

/// Whether the word is a mark of a line, which would end an event.
fn is_mark(word: &[u8]) -> bool
    ensures { result ≡ spec.is_mark word.now }
{
    word == b"=".as_slice() || word == b"@".as_slice()
}

fn name(word: &[u8]) -> Option<Argument>
    ensures some { IfSome result (Spells sort.Name word.now) }
    ensures none { IfNone result ((x : ArgumentOf) → ¬ Spells sort.Name word.now x) }
{
    if is_name(word) && !is_mark(word) {
        Some(Argument::Name)
    } else {
        None
    }
}

/// The operand of this sort that the word spells.
fn read_operand(sort: Sort, word: &[u8]) -> Option<Argument>
    ensures some { IfSome result (Spells sort word.now) }
    ensures none { IfNone result ((x : ArgumentOf) → ¬ Spells sort word.now x) }
{
    match sort {
        Sort::Reference => reference(word),
        Sort::Buffer => buffer(word),
        Sort::Bounded => bounded(word),
        Sort::Number => number(word),
        Sort::Value => value(word),
        Sort::Id => id(word),
        Sort::Class => class(word),
        Sort::Native => native(word),
        Sort::Name => name(word),
        Sort::List => list(word),
    }
}

/// The operands that the words left spell, as a function takes them that takes these; what the list held is lost.
pub fn read_operands(
    takes: &[Takes],
    rest: Option<&[u8]>,
    arguments: &mut Vec<Argument>,
) -> Result<(), RecordFault>
    ensures ok { OnOk result (Asks takes.now (rest_fields (option_copied rest.entry)) arguments.new.items) }
    ensures err { IfErr result (IsOperandFault takes.now (rest_fields (option_copied rest.entry))) }
{
    arguments.clear();
    let mut wanted = takes;
    let mut left = rest;
    while let Some((word, later)) = next_field(left) {
        let Some((take, more)) = wanted.split_first() else {
            return Err(RecordFault::BadOperand);
        };
        let Some(argument) = read_operand(sort_of(*take), word) else {
            return Err(RecordFault::BadOperand);
        };
        if arguments.push(argument).is_err() {
            return Err(RecordFault::NoMemory);
        }
        if !is_last(*take) {
            wanted = more;
        }
        left = later;
    }
    if are_none(wanted) {
        Ok(())
    } else {
        Err(RecordFault::BadOperand)
    }
}

/// Whether a function that takes these takes a method's arguments.
fn is_open(takes: &[Takes]) -> bool
    ensures { result ≡ list_any asked.is_last takes.now }
{
    takes.iter().any(|take| is_last(*take))
}

/// Whether so many operands are as many as a function takes that takes these.
pub fn is_count(takes: &[Takes], count: usize) -> bool
    ensures { result ≡ spec.is_count takes.now count }
{
    if is_open(takes) {
        takes.len() - 1 <= count
    } else {
        count == takes.len()
    }
}
