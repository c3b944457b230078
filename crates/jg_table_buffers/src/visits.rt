//! Passes over all open buffers of one kind. Each visits what is open, and no more.

ghost use Rattle.std.specs.Prelude.{◌≡◌, ◌≤◌, ◌==◌, ◌++◌, IsPermutation, IsSortedByKey, OnOk, OnErr, filter, find, map, option_map, vec_len, vec_capacity};
ghost use Rattle.std.specs.List.{list_any};
ghost use Rattle.indexmap.specs.IndexMap.{keys};
ghost use Rattle.jg_lists.specs.ByMaker.{named};
ghost use Rattle.jg_lists.specs.Marks.{Marks};
ghost use Rattle.jg_table_buffers.specs.History.{kind_number, same_ref};
ghost use Rattle.jg_table_buffers.specs.Keys.{pair_cmp};
ghost use Rattle.jg_table_buffers.specs.Ordered.{buffer_key};
ghost use Rattle.jg_table_buffers.specs.Seen.{key_name};

use crate::copied::Copies;
use crate::items::Items;
use crate::pinned::Pinned;
use jg_lists::by_maker::ByMaker;
use jg_lists::{ByNumber, Marking, Numbered};
use jg_words::{BufId, Kind, Ref, Tid};
use std::alloc::{AllocError, Allocator};

fn number_of(numbers: &[Numbered<Pinned>], object: u64) -> Option<u64>
    ensures { result ≡ option_map (λ seat. seat.number) (find (λ seat. seat.value.object == object) numbers.now) }
{
    match numbers.iter().find(|seat| seat.value.object == object) {
        None => None,
        Some(seat) => Some(seat.number),
    }
}

fn number_in<A: Allocator>(numbers: &ByNumber<Pinned, A>, object: u64) -> Option<u64>
    ensures { result ≡ option_map (λ e. e.0) (find (λ e. e.1.object == object) numbers.now) }
{
    number_of(numbers.seats(), object)
}

/// The name of the first pinned buffer that is of the object.
pub fn name_of<A: Allocator>(pins: &ByMaker<Pinned, A>, object: u64) -> Option<(u16, u64)>
    ensures { result ≡ option_map (λ e. e.0) (find (λ e. e.1.object == object) (named pins.now)) }
{
    for table in pins.seats() {
        if let Some(n) = number_in(&table.value, object) {
            return Some((table.number as u16, n));
        }
    }
    None
}

fn mark_numbers<M: Marking>(numbers: &[Numbered<Pinned>], marks: &mut M)
    ensures { Marks (λ o. list_any (λ seat. seat.value.object == o) numbers.now) (M.mark_of marks.old)
        (M.mark_of marks.new) }
{
    for seat in numbers {
        marks.set(seat.value.object);
    }
}

fn mark_in<A: Allocator, M: Marking>(numbers: &ByNumber<Pinned, A>, marks: &mut M)
    ensures { Marks (λ o. list_any (λ e. e.1.object == o) numbers.now) (M.mark_of marks.old)
        (M.mark_of marks.new) }
{
    mark_numbers(numbers.seats(), marks);
}

fn mark_tables<A: Allocator, M: Marking>(tables: &[Numbered<ByNumber<Pinned, A>>], marks: &mut M)
    ensures { Marks (λ o. list_any (λ table. list_any (λ e. e.1.object == o) table.value) tables.now)
        (M.mark_of marks.old) (M.mark_of marks.new) }
{
    for table in tables {
        mark_in(&table.value, marks);
    }
}

/// Sets the mark of each object that a pinned buffer is of.
pub fn mark_objects<A: Allocator, M: Marking>(pins: &ByMaker<Pinned, A>, marks: &mut M)
    ensures { Marks (λ o. list_any (λ e. e.1.object == o) (named pins.now)) (M.mark_of marks.old)
        (M.mark_of marks.new) }
{
    mark_tables(pins.seats(), marks);
}

/// Appends the open copies.
pub fn list_copies<A: Allocator, I: Items, B: Allocator>(
    copies: &Copies<A, I>,
    buffers: &mut Vec<BufId, B>,
) -> Result<(), AllocError>
    ensures ok { OnOk result (buffers.new.items ≡ buffers.old.items ++ map key_name (keys copies.now)) }
    ensures full { OnErr result (vec_capacity buffers.new ≤ vec_len buffers.new) }
{
    for key in copies.keys() {
        buffers.reserve(1)?;
        buffers.push_reserved(BufId {
            maker: Tid(key.0),
            n: key.1,
        });
    }
    Ok(())
}

fn list_numbers<B: Allocator>(
    numbers: &[Numbered<Pinned>],
    maker: u16,
    buffers: &mut Vec<BufId, B>,
) -> Result<(), AllocError>
    ensures ok { OnOk result (buffers.new.items
        ≡ buffers.old.items ++ map (λ seat. key_name (maker, seat.number)) numbers.now) }
    ensures full { OnErr result (vec_capacity buffers.new ≤ vec_len buffers.new) }
{
    for seat in numbers {
        buffers.reserve(1)?;
        buffers.push_reserved(BufId {
            maker: Tid(maker),
            n: seat.number,
        });
    }
    Ok(())
}

fn list_in<A: Allocator, B: Allocator>(
    numbers: &ByNumber<Pinned, A>,
    maker: u16,
    buffers: &mut Vec<BufId, B>,
) -> Result<(), AllocError>
    ensures ok { OnOk result (buffers.new.items
        ≡ buffers.old.items ++ map (λ e. key_name (maker, e.0)) numbers.now) }
    ensures full { OnErr result (vec_capacity buffers.new ≤ vec_len buffers.new) }
{
    list_numbers(numbers.seats(), maker, buffers)
}

/// Appends the open pinned buffers.
pub fn list_pins<A: Allocator, B: Allocator>(
    pins: &ByMaker<Pinned, A>,
    buffers: &mut Vec<BufId, B>,
) -> Result<(), AllocError>
    ensures ok { OnOk result (buffers.new.items ≡ buffers.old.items ++ map (λ e. key_name e.0) (named pins.now)) }
    ensures full { OnErr result (vec_capacity buffers.new ≤ vec_len buffers.new) }
{
    for table in pins.seats() {
        list_in(&table.value, table.number as u16, buffers)?;
    }
    Ok(())
}

/// Appends the pinned buffers that the thread was lent.
pub fn list_pins_of<A: Allocator, B: Allocator>(
    pins: &ByMaker<Pinned, A>,
    maker: u16,
    buffers: &mut Vec<BufId, B>,
) -> Result<(), AllocError>
    ensures { OnOk result (buffers.new.items
        ≡ buffers.old.items ++ map (λ e. key_name e.0) (filter (λ e. e.0.0 == maker) (named pins.now))) }
{
    match pins.get(maker) {
        None => Ok(()),
        Some(numbers) => list_in(numbers, maker, buffers),
    }
}

fn is_same_kind(first: Kind, second: Kind) -> bool
    ensures { result ≡ (kind_number first == kind_number second) }
{
    match (first, second) {
        (Kind::Local, Kind::Local) => true,
        (Kind::Global, Kind::Global) => true,
        (Kind::Weak, Kind::Weak) => true,
        _ => false,
    }
}

/// Whether the two are one reference.
fn is_same_ref(first: Ref, second: Ref) -> bool
    ensures { result ≡ same_ref first second }
{
    match first {
        Ref::Null => match second {
            Ref::Null => true,
            Ref::To { .. } => false,
        },
        Ref::To { kind, maker, n } => match second {
            Ref::Null => false,
            Ref::To {
                kind: other_kind,
                maker: other_maker,
                n: other_n,
            } => is_same_kind(kind, other_kind) && maker.0 == other_maker.0 && n == other_n,
        },
    }
}

fn list_numbers_through<B: Allocator>(
    numbers: &[Numbered<Pinned>],
    maker: u16,
    via: Ref,
    buffers: &mut Vec<BufId, B>,
) -> Result<(), AllocError>
    ensures { OnOk result (buffers.new.items ≡ buffers.old.items
        ++ map (λ seat. key_name (maker, seat.number)) (filter (λ seat. same_ref seat.value.via via) numbers.now)) }
{
    for seat in numbers {
        if is_same_ref(seat.value.via, via) {
            buffers.push(BufId {
                maker: Tid(maker),
                n: seat.number,
            })?;
        }
    }
    Ok(())
}

fn list_in_through<A: Allocator, B: Allocator>(
    numbers: &ByNumber<Pinned, A>,
    maker: u16,
    via: Ref,
    buffers: &mut Vec<BufId, B>,
) -> Result<(), AllocError>
    ensures { OnOk result (buffers.new.items ≡ buffers.old.items
        ++ map (λ e. key_name (maker, e.0)) (filter (λ e. same_ref e.1.via via) numbers.now)) }
{
    list_numbers_through(numbers.seats(), maker, via, buffers)
}

/// Appends the pinned buffers that were opened through the reference.
pub fn list_pins_through<A: Allocator, B: Allocator>(
    pins: &ByMaker<Pinned, A>,
    via: Ref,
    buffers: &mut Vec<BufId, B>,
) -> Result<(), AllocError>
    ensures { OnOk result (buffers.new.items
        ≡ buffers.old.items ++ map (λ e. key_name e.0) (filter (λ e. same_ref e.1.via via) (named pins.now))) }
{
    for table in pins.seats() {
        list_in_through(&table.value, table.number as u16, via, buffers)?;
    }
    Ok(())
}

/// Puts the buffers in order: by the thread that was lent them, and then by number.
pub fn sort_names<B: Allocator>(buffers: &mut Vec<BufId, B>)
    ensures same { IsPermutation buffers.old.items buffers.new.items }
    ensures ascends { IsSortedByKey buffer_key pair_cmp buffers.new.items }
{
    buffers.sort_unstable_by_key(|buffer| (buffer.maker.0, buffer.n));
}
