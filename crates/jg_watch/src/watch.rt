//! What watches a record.

ghost use Rattle.std.specs.Prelude.{◌≡◌, ◌<◌, ◌-◌, ◌^◌, ℕ, [], IfOk, nat_lt, slice_index_or};
ghost use Rattle.jg_words.specs.Rule.{number_of};
ghost use Rattle.jg_core.specs.Facts.{parts_of};
ghost use Rattle.jg_leaks.specs.Left.{AreLeft};
ghost use Rattle.jg_watch.specs.Lines.{IsTally, any_denied, reply_number};
ghost use Rattle.jg_watch.specs.Steps.{counted_at, denied_after};
ghost use Rattle.jg_watch.specs.Told.{Stands, Told, nothing_told};

use jg_core::Core;
use jg_judge::Bounds;
use jg_leaks::Leaks;
use jg_policy::Setup;
use jg_record::Reply;
use jg_words::Rule;
use std::alloc::{AllocError, Allocator, Global};
use std::marker::Model;

/// What is written of a record.
#[derive(Clone, Copy)]
pub enum Shown {
    /// All of its lines.
    All,
    /// Those of denied questions alone.
    Denials,
}

/// At 0 the questions that passed, and at each rule's number those that it denied.
type Tally = [u64; 18];

/// What watches a record: a core, the bounds by which it judges questions, and how it answered them. Contracts see all.
pub struct Watch<A: Allocator = Global> {
    pub(crate) core: Core<A>,
    pub(crate) bounds: Bounds,
    tally: Tally,
    denied: u64,
}

impl<A: Allocator> Drop for Watch<A> {
    fn drop(self) {
        let Watch {
            core: _core,
            bounds: _,
            tally: _,
            denied: _,
        } = self;
    }
}

impl<A: Allocator> Model for Watch<A> {
    ghost use Rattle.jg_watch.specs.Told.{Watching};

    ghost Value = { Watching };

    ghost view = { λ w. record { core = w.core; bounds = w.bounds; tally = w.tally; denied = w.denied } };
}

impl<A: Allocator + Copy> Watch<A> {
    /// A watch that was told nothing. It takes no memory; what is told grows from the handle.
    pub fn new(alloc: A, setup: Setup) -> Watch<A>
        ensures setup { result.core.setup ≡ setup }
        ensures stands { Stands result nothing_told }
        ensures tally { IsTally [] result.tally }
        ensures denied { result.denied ≡ 0 }
    {
        Watch {
            core: Core::new(alloc, setup),
            bounds: Bounds {
                capacity: i32::MAX,
                length: i32::MAX,
                items: i32::MAX,
            },
            tally: [0; 18],
            denied: 0,
        }
    }
}

fn is_any(count: u64) -> bool
    ensures { result ≡ nat_lt 0 count }
{
    count > 0
}

impl<A: Allocator> Watch<A> {
    /// How many questions passed.
    pub fn passed(&self) -> u64
        ensures { result ≡ slice_index_or self.now.tally 0 0 }
    {
        self.tally[0]
    }

    /// How many questions the rule denied.
    pub fn denied_by(&self, rule: Rule) -> u64
        ensures { result ≡ slice_index_or self.now.tally (number_of rule) 0 }
    {
        self.tally[rule.number() as usize]
    }

    /// How many questions were denied.
    pub fn denied(&self) -> u64
        ensures { result ≡ self.now.denied }
    {
        self.denied
    }

    /// Whether some question was denied.
    pub fn has_denied(&self) -> bool
        ensures { result ≡ any_denied self.now.tally }
    {
        let (_, denied) = self.tally.split_at(1);
        denied.iter().any(|count| is_any(*count))
    }

    /// Counts the reply, if it is a question's.
    pub(crate) fn count(&mut self, reply: Reply)
        requires tally { (k : ℕ) → slice_index_or self.old.tally k 0 < 2 ^ 64 - 1 }
        requires denied { self.old.denied < 2 ^ 64 - 1 }
        ensures tally { self.new.tally ≡ counted_at (reply_number reply) self.old.tally }
        ensures denied { self.new.denied ≡ denied_after reply self.old.denied }
        ensures core { self.new.core ≡ self.old.core }
        ensures bounds { self.new.bounds ≡ self.old.bounds }
    {
        match reply {
            Reply::Passed => self.tally[0] += 1,
            Reply::Denied(rule) => {
                self.tally[rule.number() as usize] += 1;
                self.denied += 1;
            }
            _ => {}
        }
    }
}

impl<A: Allocator + Clone> Watch<A> {
    /// What is left behind, as [`Core::leaks`] lists it. Fails only for want of memory.
    pub fn leaks(&self) -> Result<Leaks<A>, AllocError>
        ensures { IfOk result (λ left. (told : Told) → Stands self.now told
            → AreLeft (parts_of told.facts) left.refs.items left.buffers.items left.monitors.items) }
    {
        Ok(self.core.leaks()?)
    }
}
