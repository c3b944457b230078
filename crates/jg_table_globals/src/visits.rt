//! Passes over all references of one kind. Each visits what is in being, and no more.

ghost use Rattle.std.specs.Prelude.{◌≡◌, ◌≤◌, ◌==◌, ◌++◌, OnOk, OnErr, find, map, option_map, vec_len, vec_capacity};
ghost use Rattle.std.specs.List.{list_any};
ghost use Rattle.jg_lists.specs.Marks.{Marks};
ghost use Rattle.jg_lists.specs.ByMaker.{named};
ghost use Rattle.jg_table_globals.specs.Seen.{ref_named};

use jg_lists::by_maker::ByMaker;
use jg_lists::{ByNumber, Marking, Numbered};
use jg_words::{Kind, ObjId, Ref, Tid};
use std::alloc::{AllocError, Allocator};

fn number_of(numbers: &[Numbered<ObjId>], object: ObjId) -> Option<u64>
    ensures { result ≡ option_map (λ seat. seat.number) (find (λ seat. seat.value.0 == object.0) numbers.now) }
{
    match numbers.iter().find(|seat| seat.value.0 == object.0) {
        None => None,
        Some(seat) => Some(seat.number),
    }
}

fn number_in<A: Allocator>(numbers: &ByNumber<ObjId, A>, object: ObjId) -> Option<u64>
    ensures { result ≡ option_map (λ e. e.0) (find (λ e. e.1.0 == object.0) numbers.now) }
{
    number_of(numbers.seats(), object)
}

/// The name of the first reference that names the object.
pub fn name_of<A: Allocator>(rows: &ByMaker<ObjId, A>, object: ObjId) -> Option<(u16, u64)>
    ensures { result ≡ option_map (λ e. e.0) (find (λ e. e.1.0 == object.0) (named rows.now)) }
{
    for table in rows.seats() {
        if let Some(n) = number_in(&table.value, object) {
            return Some((table.number as u16, n));
        }
    }
    None
}

fn mark_numbers<M: Marking>(numbers: &[Numbered<ObjId>], marks: &mut M)
    ensures { Marks (λ o. list_any (λ seat. seat.value.0 == o) numbers.now) (M.mark_of marks.old)
        (M.mark_of marks.new) }
{
    for seat in numbers {
        marks.set(seat.value.0);
    }
}

fn mark_in<A: Allocator, M: Marking>(numbers: &ByNumber<ObjId, A>, marks: &mut M)
    ensures { Marks (λ o. list_any (λ e. e.1.0 == o) numbers.now) (M.mark_of marks.old) (M.mark_of marks.new) }
{
    mark_numbers(numbers.seats(), marks);
}

fn mark_tables<A: Allocator, M: Marking>(tables: &[Numbered<ByNumber<ObjId, A>>], marks: &mut M)
    ensures { Marks (λ o. list_any (λ table. list_any (λ e. e.1.0 == o) table.value) tables.now)
        (M.mark_of marks.old) (M.mark_of marks.new) }
{
    for table in tables {
        mark_in(&table.value, marks);
    }
}

/// Sets the mark of each object that a reference names.
pub fn mark_objects<A: Allocator, M: Marking>(rows: &ByMaker<ObjId, A>, marks: &mut M)
    ensures { Marks (λ o. list_any (λ e. e.1.0 == o) (named rows.now)) (M.mark_of marks.old) (M.mark_of marks.new) }
{
    mark_tables(rows.seats(), marks);
}

fn list_numbers<V, B: Allocator>(
    numbers: &[Numbered<V>],
    kind: Kind,
    maker: u16,
    refs: &mut Vec<Ref, B>,
) -> Result<(), AllocError>
    ensures ok { OnOk result (refs.new.items
        ≡ refs.old.items ++ map (λ seat. ref_named kind (maker, seat.number)) numbers.now) }
    ensures full { OnErr result (vec_capacity refs.new ≤ vec_len refs.new) }
{
    for seat in numbers {
        refs.reserve(1)?;
        refs.push_reserved(Ref::To {
            kind,
            maker: Tid(maker),
            n: seat.number,
        });
    }
    Ok(())
}

fn list_in<V, A: Allocator, B: Allocator>(
    numbers: &ByNumber<V, A>,
    kind: Kind,
    maker: u16,
    refs: &mut Vec<Ref, B>,
) -> Result<(), AllocError>
    ensures ok { OnOk result (refs.new.items
        ≡ refs.old.items ++ map (λ e. ref_named kind (maker, e.0)) numbers.now) }
    ensures full { OnErr result (vec_capacity refs.new ≤ vec_len refs.new) }
{
    list_numbers(numbers.seats(), kind, maker, refs)
}

/// Appends the references of that kind. Fails only where the list is full and can't grow.
pub fn list_names<V, A: Allocator, B: Allocator>(
    rows: &ByMaker<V, A>,
    kind: Kind,
    refs: &mut Vec<Ref, B>,
) -> Result<(), AllocError>
    ensures ok { OnOk result (refs.new.items ≡ refs.old.items ++ map (λ e. ref_named kind e.0) (named rows.now)) }
    ensures full { OnErr result (vec_capacity refs.new ≤ vec_len refs.new) }
{
    for table in rows.seats() {
        list_in(&table.value, kind, table.number as u16, refs)?;
    }
    Ok(())
}
