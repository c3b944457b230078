//! What threads did in their activations.

ghost use Rattle.std.specs.Prelude.{◌≡◌, ◌==◌, ℕ, if◌then◌else◌, IfOk, OnOk, Some};
ghost use Rattle.std.specs.Map.{lookup};
ghost use Rattle.std.specs.Option.{option_map};
ghost use Rattle.jg_lists.specs.ByThread.{at};
ghost use Rattle.jg_lists.specs.ByMaker.{Name, named, same_name};
ghost use Rattle.jg_rows.specs.Columns.{columns};
ghost use Rattle.jg_rules.specs.Parts.{Parts};
ghost use Rattle.jg_advice.specs.Doing.{cause_by, doing_after, owed_after};
ghost use Rattle.jg_advice.specs.Standing.{kept, Sees};

use crate::advice::Source;
use crate::functions::{asks, is_jni, wants_none};
use jg_lists::ByNumber;
use jg_lists::by_maker::{ByMaker, add, find};
use jg_rows::Row;
use jg_rules::{Store, View};
use jg_words::Tid;
use std::alloc::{AllocError, Allocator, Global};

/// What a thread did in an activation: its latest call of the JNI there, and the one that may have thrown, of which
/// nobody asked since whether it did, and nobody was told.
#[derive(Clone, Copy)]
pub struct Doing {
    pub latest: Option<Source>,
    pub owed: Option<Source>,
}

impl Doing {
    const IDLE: Doing = Doing {
        latest: None,
        owed: None,
    };
}

/// By the thread and the depth of the activation.
pub type Doings = ByMaker<Doing, Global>;

/// What the thread did in the activation of that depth.
pub fn doing_at(doings: &Doings, name: (u16, u64)) -> Doing
    ensures { result ≡ kept doings.now name }
{
    match find(doings, name) {
        None => Doing::IDLE,
        Some(doing) => *doing,
    }
}

/// The call that a moment of the thread on this line came of.
pub fn cause<A: Allocator + Clone, S: Store>(
    doings: &Doings,
    view: &View<'_, A, S>,
    line: u64,
    tid: Tid,
) -> Source
    ensures { (p : Parts) → Sees view.now p → result ≡ cause_by (kept doings.now) p line tid }
{
    match doing_at(doings, (tid.0, view.locals.depth(tid))).latest {
        None => Source {
            line,
            tid,
            function: None,
        },
        Some(call) => call,
    }
}

fn owed_after(row: &Row, throws: bool, call: Source, owed: Option<Source>) -> Option<Source>
    ensures { result ≡ owed_after (columns row.now) throws call owed }
{
    if asks(row) {
        None
    } else if throws {
        Some(call)
    } else if wants_none(row) {
        None
    } else {
        owed
    }
}

fn doing_after(row: &Row, throws: bool, call: Source, before: Doing) -> Doing
    ensures { result ≡ doing_after (Some (columns row.now)) throws call before }
{
    if !is_jni(row) {
        return before;
    }
    Doing {
        latest: Some(call),
        owed: owed_after(row, throws, call, before.owed),
    }
}

/// The call is made in the activation of that depth, if something was done there. Answers that.
fn note_in(
    numbers: &mut ByNumber<Doing, Global>,
    depth: u64,
    row: &Row,
    throws: bool,
    call: Source,
) -> Option<Doing>
    ensures before { result ≡ at depth numbers.old }
    ensures noted { (q : ℕ) → at q numbers.new ≡ (if depth == q
        then option_map (doing_after (Some (columns row.now)) throws call) (at depth numbers.old)
        else at q numbers.old) }
{
    match numbers.get_mut(depth) {
        None => None,
        Some(doing) => {
            let before = *doing;
            *doing = doing_after(row, throws, call, before);
            Some(before)
        }
    }
}

/// The same, of the activation of that thread and depth.
fn note_known(
    doings: &mut Doings,
    name: (u16, u64),
    row: &Row,
    throws: bool,
    call: Source,
) -> Option<Doing>
    ensures before { result ≡ lookup (same_name name) (named doings.old) }
    ensures noted { (q : Name) → lookup (same_name q) (named doings.new) ≡ (if same_name name q
        then option_map (doing_after (Some (columns row.now)) throws call) (lookup (same_name name) (named doings.old))
        else lookup (same_name q) (named doings.old)) }
{
    match doings.get_mut(name.0) {
        None => None,
        Some(numbers) => note_in(numbers, name.1, row, throws, call),
    }
}

/// The thread makes the call, in the activation of that depth; it may throw or can't. Answers what the thread did there
/// before.
pub fn note_call(
    doings: &mut Doings,
    alloc: Global,
    name: (u16, u64),
    row: &Row,
    throws: bool,
    call: Source,
) -> Result<Doing, AllocError>
    ensures before { IfOk result (λ before. before ≡ kept doings.old name) }
    ensures noted { OnOk result ((q : Name) → kept doings.new q ≡ (if same_name name q
        then doing_after (Some (columns row.now)) throws call (kept doings.old q) else kept doings.old q)) }
{
    match note_known(doings, name, row, throws, call) {
        Some(before) => Ok(before),
        None => {
            add(
                doings,
                &alloc,
                name,
                doing_after(row, throws, call, Doing::IDLE),
            )?;
            Ok(Doing::IDLE)
        }
    }
}
