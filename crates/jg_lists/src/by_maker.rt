//! Values by maker and number, in a table for each maker that has one.

ghost use Rattle.std.specs.Prelude.{◌≡◌, ◌==◌, ◌<◌, ◌^◌, ◌∷◌, ℕ, false, if◌then◌else◌, [], None, Some, All, IsPermutation, IsSome, IfOk, IfSome, IsTrue, OnOk, OnErr, map, option_copied};
ghost use Rattle.std.specs.Option.{option_copied_mut};
ghost use Rattle.std.specs.Borrow.{sem};
ghost use Rattle.std.specs.Map.{lookup};
ghost use Rattle.jg_lists.specs.ByThread.{at, IsOnce};
ghost use Rattle.jg_lists.specs.ByNumber.{seen};
ghost use Rattle.jg_lists.specs.ByMaker.{Name, same_name, named, table_at, Adds, Drops, IsThereOnce};

use crate::by_number::{ByNumber, Numbered};
use crate::by_thread::ByThread;
use std::alloc::{AllocError, Allocator};
use std::marker::Model;

/// A value for each of some names, found in two steps, however many there are. A name is a maker's
/// number, and a number that the maker gave. A maker without values has no table, so that a pass over all
/// tables goes over what is there; the table that it had serves the next maker. Takes memory for as many
/// values as a table ever had at once and for as many tables as there ever were at once, whatever the
/// numbers are. Contracts see the makers' tables.
#[derive(Drop)]
pub struct ByMaker<V, A: Allocator> {
    tables: ByThread<ByNumber<V, A>, A>,
    /// Tables without values, for the next makers.
    spares: Vec<ByNumber<V, A>, A>,
}

impl<V, A: Allocator> Model for ByMaker<V, A> {
    ghost use Rattle.std.specs.Prelude.{List, ℕ, ◌≡◌, [], All};

    ghost Value = { List (ℕ × List (ℕ × V)) };

    ghost view = { λ a. a.tables };

    ghost invariant = { λ a. All (λ t. t ≡ []) a.spares.items };
}

impl<V, A: Allocator> ByMaker<V, A> {
    ghost use Rattle.jg_lists.specs.Lending.{lends_get_by_maker};

    /// No name has a value. Takes no memory; the lists of tables grow from the three handles.
    pub fn new(places: A, tables: A, spares: A) -> ByMaker<V, A>
        ensures empty { result ≡ [] }
        ensures once { IsOnce result }
    {
        ByMaker {
            tables: ByThread::new(places, tables),
            spares: Vec::new(spares),
        }
    }

    /// The maker's table, if it has one.
    pub fn get(&self, maker: u16) -> Option<&ByNumber<V, A>>
        ensures value { option_copied result ≡ at maker self.now }
        ensures once { IsOnce self.now }
    {
        self.tables.get(maker)
    }

    /// The maker's table for writing, if it has one.
    pub fn get_mut(&mut self, maker: u16) -> Option<&mut ByNumber<V, A>>
        ensures* writes_back { sem 𝓛 (lends_get_by_maker V.row A.row A.Allocator self.entry maker result) }
        ensures value { option_copied_mut result ≡ at maker self.old }
        ensures once { IsOnce self.old }
    {
        self.tables.get_mut(maker)
    }

    /// The makers that have a table, with it. Each number is that of a thread, so it fits in a `u16`.
    pub fn seats(&self) -> &[Numbered<ByNumber<V, A>>]
        ensures seats { map seen result.now ≡ self.now }
        ensures once { IsOnce self.now }
        ensures threads { All (λ seat. seat.number < 2 ^ 16) result.now }
    {
        self.tables.seats()
    }

    /// Takes the maker's table away, where it has no value in it. No name's value goes.
    fn close(&mut self, maker: u16)
    where
        V: Drop,
        ensures same { IsPermutation (named self.old) (named self.new) }
        ensures found { (q : Name) → lookup (same_name q) (named self.new) ≡ lookup (same_name q) (named self.old) }
        ensures there { (q : Name) → IsThereOnce q (named self.old) → IsThereOnce q (named self.new) }
    {
        if !is_empty_at(&self.tables, maker) {
            return;
        }
        let Some(numbers) = self.tables.remove(maker) else {
            return;
        };
        keep(&mut self.spares, numbers);
    }
}

/// Whether the maker has a table, and no value in it.
fn is_empty_at<V, A: Allocator>(tables: &ByThread<ByNumber<V, A>, A>, maker: u16) -> bool
    ensures empty { IsTrue result → at maker tables.now ≡ Some [] }
    ensures once { IsOnce tables.now }
{
    match tables.get(maker) {
        None => false,
        Some(numbers) => numbers.seats().is_empty(),
    }
}

/// Keeps the table, which has no value, where there is room for it.
fn keep<V: Drop, A: Allocator>(spares: &mut Vec<ByNumber<V, A>, A>, numbers: ByNumber<V, A>)
    requires empty { numbers ≡ [] }
    requires spares { All (λ t. t ≡ []) spares.old.items }
    ensures { All (λ t. t ≡ []) spares.new.items }
{
    if spares.len() < spares.capacity() {
        spares.push_reserved(numbers);
    }
}

/// A table without values: a spare one, or a new one. Makes room to keep it and so many others, once they
/// have no value any more; without memory for that they are let go then.
fn empty_table<V, A: Allocator + Clone>(
    spares: &mut Vec<ByNumber<V, A>, A>,
    alloc: &A,
    others: usize,
) -> Result<ByNumber<V, A>, AllocError>
    requires { All (λ t. t ≡ []) spares.old.items }
    ensures empty { IfOk result (λ numbers. numbers ≡ []) }
    ensures spares { All (λ t. t ≡ []) spares.new.items }
{
    if let Some(numbers) = spares.pop() {
        return Ok(numbers);
    }
    let _room = spares.try_reserve(others.saturating_add(1));
    let slots = alloc.clone()?;
    let seats = alloc.clone()?;
    Ok(ByNumber::new(slots, seats))
}

/// The name's value, if it has one.
pub fn find<V, A: Allocator>(tables: &ByMaker<V, A>, name: (u16, u64)) -> Option<&V>
    ensures { option_copied result ≡ lookup (same_name name) (named tables.now) }
{
    match tables.get(name.0) {
        None => None,
        Some(numbers) => numbers.get(name.1),
    }
}

impl<V: Drop, A: Allocator + Clone> ByMaker<V, A> {
    /// Gives the maker a table, if it has none. No name gets a value.
    fn open(&mut self, alloc: &A, maker: u16) -> Result<(), AllocError>
        ensures table { OnOk result (IsSome (at maker self.new)) }
        ensures same { named self.new ≡ named self.old }
        ensures once { IsOnce self.new }
    {
        if self.tables.contains(maker) {
            return Ok(());
        }
        let others = self.tables.seats().len();
        let Ok(numbers) = empty_table(&mut self.spares, alloc, others) else {
            return Err(AllocError);
        };
        self.tables.add(maker, numbers)?;
        Ok(())
    }
}

/// Puts the value into its maker's table, which is there.
fn put<V: Drop, A: Allocator>(
    tables: &mut ByMaker<V, A>,
    name: (u16, u64),
    value: V,
) -> Result<(), AllocError>
    requires table { IsSome (at name.0 tables.old) }
    requires absent { at name.1 (table_at name.0 tables.old) ≡ None }
    ensures ok { OnOk result (Adds name value (named tables.old) (named tables.new)) }
    ensures err { OnErr result (named tables.new ≡ named tables.old) }
{
    match tables.get_mut(name.0) {
        None => Ok(()),
        Some(numbers) => numbers.add(name.1, value),
    }
}

/// Gives a value to a name that has none. A maker's table grows from clones of the handle. Fails for
/// want of memory, and where a maker has 2^32 - 1 values; each value then stays as it was.
pub fn add<V: Drop, A: Allocator + Clone>(
    tables: &mut ByMaker<V, A>,
    alloc: &A,
    name: (u16, u64),
    value: V,
) -> Result<(), AllocError>
    requires { lookup (same_name name) (named tables.old) ≡ None }
    ensures ok { OnOk result (Adds name value (named tables.old) (named tables.new)) }
    ensures found { OnOk result ((q : Name) → lookup (same_name q) (named tables.new)
        ≡ (if same_name name q then Some value else lookup (same_name q) (named tables.old))) }
    ensures once { OnOk result ((q : Name) → IsThereOnce q (named tables.old) → IsThereOnce q (named tables.new)) }
    ensures err { OnErr result (named tables.new ≡ named tables.old) }
{
    tables.open(alloc, name.0)?;
    put(tables, name, value)
}

/// Takes the name's value out of its maker's table, if it has one.
fn take<V: Drop, A: Allocator>(tables: &mut ByMaker<V, A>, name: (u16, u64)) -> Option<V>
    ensures was { result ≡ lookup (same_name name) (named tables.old) }
    ensures drops { Drops name (named tables.old) (named tables.new) }
    ensures taken { IfSome result (λ v. IsPermutation (named tables.old) ((name, v) ∷ named tables.new)) }
    ensures none { result ≡ None → named tables.new ≡ named tables.old }
    ensures once { (q : Name) → IsThereOnce q (named tables.old) → IsThereOnce q (named tables.new) }
{
    match tables.get_mut(name.0) {
        None => None,
        Some(numbers) => numbers.remove(name.1),
    }
}

/// Takes the name's value out, if it has one. Takes no memory. With its last value a maker has no table
/// any more.
pub fn remove<V: Drop, A: Allocator>(tables: &mut ByMaker<V, A>, name: (u16, u64)) -> Option<V>
    ensures was { result ≡ lookup (same_name name) (named tables.old) }
    ensures drops { Drops name (named tables.old) (named tables.new) }
    ensures taken { IfSome result (λ v. IsPermutation (named tables.old) ((name, v) ∷ named tables.new)) }
    ensures none { result ≡ None → named tables.new ≡ named tables.old }
    ensures once { (q : Name) → IsThereOnce q (named tables.old) → IsThereOnce q (named tables.new) }
{
    let Some(value) = take(tables, name) else {
        return None;
    };
    tables.close(name.0);
    Some(value)
}

/// The number of one of the maker's values.
fn last_number<V, A: Allocator>(tables: &ByMaker<V, A>, maker: u16) -> Option<u64>
    ensures found { IfSome result (λ n. IsSome (lookup (same_name (maker, n)) (named tables.now))) }
    ensures none { result ≡ None → (n : ℕ) → lookup (same_name (maker, n)) (named tables.now) ≡ None }
{
    let numbers = tables.get(maker)?;
    let seat = numbers.seats().last()?;
    Some(seat.number)
}

/// Takes out one of the maker's values, if it has one. Takes no memory, and the same few steps however many there are.
pub fn take_any<V: Drop, A: Allocator>(tables: &mut ByMaker<V, A>, maker: u16) -> Option<V>
    ensures taken { IfSome result (λ v. (n : ℕ)
        × IsPermutation (named tables.old) (((maker, n), v) ∷ named tables.new)) }
    ensures others { (q : Name) → (maker == q.0) ≡ false
        → lookup (same_name q) (named tables.new) ≡ lookup (same_name q) (named tables.old) }
    ensures none { result ≡ None → (n : ℕ) → lookup (same_name (maker, n)) (named tables.new) ≡ None }
    ensures same { result ≡ None → named tables.new ≡ named tables.old }
    ensures once { (q : Name) → IsThereOnce q (named tables.old) → IsThereOnce q (named tables.new) }
{
    let n = last_number(tables, maker)?;
    remove(tables, (maker, n))
}
