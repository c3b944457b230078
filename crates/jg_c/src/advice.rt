//! Advice as numbers, and its texts.

ghost use Rattle.std.specs.Prelude.{◌≡◌};
ghost use Rattle.jg_advice.specs.Texts.{help_of, kind_text, sentence_of, verb_of};
ghost use Rattle.jg_c.specs.Advices as specs;
ghost use Rattle.jg_c.specs.Advices.{TellsKind};

use crate::copying::copy_out;
use crate::numbers::{
    BAD_VALUE, COMMITTED_AND_KEPT, DESCRIPTOR, GROWING, LONG_REGION, MONITOR_KEPT, NOBODY,
    UNCHECKED, WRITES_LOST,
};
use jg_advice::{Advice, Kind, Source, help, kind_word, sentence, verb};
use jg_words::Tid;

/// A place, the thread that was there, and the function that this called. It is `jg_spot` in jg.h.
#[repr(C)]
#[derive(Clone, Copy)]
pub struct JgSpot {
    /// As the caller numbered it.
    pub place: u64,
    /// `JG_NOBODY` where there is none.
    pub thread: u32,
    /// By its place in the table; `JG_NOBODY` where there is none.
    pub function: u32,
}

/// Something that is legal, and likely wrong. It is `jg_advice` in jg.h.
#[repr(C)]
#[derive(Clone, Copy)]
pub struct JgAdvice {
    /// Its kind, by its number from 1.
    pub kind: u32,
    /// 1 where it is told at the end, which has no place, else 0.
    pub at_end: u32,
    /// Where it is told, the thread and the function that it is about.
    pub told: JgSpot,
    /// The earlier call that made it so, or nobody's.
    pub source: JgSpot,
}

fn kind_number(kind: Kind) -> u32
    ensures { result ≡ specs.kind_number kind }
{
    match kind {
        Kind::Unchecked => UNCHECKED,
        Kind::WritesLost => WRITES_LOST,
        Kind::CommittedAndKept => COMMITTED_AND_KEPT,
        Kind::LongRegion => LONG_REGION,
        Kind::MonitorAtDetachment => MONITOR_KEPT,
        Kind::DescriptorForName => DESCRIPTOR,
        Kind::Growing => GROWING,
    }
}

fn function_number(function: Option<u16>) -> u32
    ensures { result ≡ specs.function_number function }
{
    match function {
        None => NOBODY,
        Some(function) => u32::from(function),
    }
}

fn spot(place: u64, tid: Tid, function: Option<u16>) -> JgSpot
    ensures { result ≡ specs.spot place tid.0 function }
{
    JgSpot {
        place,
        thread: u32::from(tid.0),
        function: function_number(function),
    }
}

/// The earlier call, or nobody's.
fn source_spot(source: Option<Source>) -> JgSpot
    ensures { result ≡ specs.source_spot source }
{
    match source {
        None => JgSpot {
            place: 0,
            thread: NOBODY,
            function: NOBODY,
        },
        Some(call) => spot(call.line, call.tid, call.function),
    }
}

fn place_number(place: Option<u64>) -> u64
    ensures { result ≡ specs.place_number place }
{
    match place {
        None => 0,
        Some(place) => place,
    }
}

fn is_at_end(place: Option<u64>) -> u32
    ensures { result ≡ specs.is_at_end place }
{
    match place {
        None => 1,
        Some(_) => 0,
    }
}

/// The numbers of the advice.
pub(crate) fn of_advice(advice: Advice) -> JgAdvice
    ensures { result ≡ specs.of_advice advice }
{
    JgAdvice {
        kind: kind_number(advice.kind),
        at_end: is_at_end(advice.line),
        told: spot(place_number(advice.line), advice.tid, advice.function),
        source: source_spot(advice.source),
    }
}

/// The kind of this number, from 1.
fn kind_of(number: u32) -> Option<Kind>
    ensures { result ≡ specs.kind_of number }
{
    match number {
        UNCHECKED => Some(Kind::Unchecked),
        WRITES_LOST => Some(Kind::WritesLost),
        COMMITTED_AND_KEPT => Some(Kind::CommittedAndKept),
        LONG_REGION => Some(Kind::LongRegion),
        MONITOR_KEPT => Some(Kind::MonitorAtDetachment),
        DESCRIPTOR => Some(Kind::DescriptorForName),
        GROWING => Some(Kind::Growing),
        _ => None,
    }
}

/// Writes the name of the kind of this number, and answers how long it is.
#[unsafe(no_mangle)]
pub extern "C" fn jg_advice_name(kind: u32, text: &mut [u8]) -> i64
    ensures { TellsKind kind_text (specs.kind_of kind) text.old text.new result }
{
    match kind_of(kind) {
        Some(kind) => copy_out(kind_word(kind).as_bytes(), text),
        None => i64::from(BAD_VALUE),
    }
}

/// Writes what is amiss where advice of this kind is told, and answers how long that is.
#[unsafe(no_mangle)]
pub extern "C" fn jg_advice_text(kind: u32, text: &mut [u8]) -> i64
    ensures { TellsKind sentence_of (specs.kind_of kind) text.old text.new result }
{
    match kind_of(kind) {
        Some(kind) => copy_out(sentence(kind).as_bytes(), text),
        None => i64::from(BAD_VALUE),
    }
}

/// Writes what the earlier call did, in a word, and answers how long that is.
#[unsafe(no_mangle)]
pub extern "C" fn jg_advice_verb(kind: u32, text: &mut [u8]) -> i64
    ensures { TellsKind verb_of (specs.kind_of kind) text.old text.new result }
{
    match kind_of(kind) {
        Some(kind) => copy_out(verb(kind).as_bytes(), text),
        None => i64::from(BAD_VALUE),
    }
}

/// Writes what helps, and answers how long that is.
#[unsafe(no_mangle)]
pub extern "C" fn jg_advice_help(kind: u32, text: &mut [u8]) -> i64
    ensures { TellsKind help_of (specs.kind_of kind) text.old text.new result }
{
    match kind_of(kind) {
        Some(kind) => copy_out(help(kind).as_bytes(), text),
        None => i64::from(BAD_VALUE),
    }
}
