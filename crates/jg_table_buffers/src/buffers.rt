//! The table of open buffers, copies and pinned ones.

ghost use Rattle.std.specs.Prelude.{◌≡◌, ℕ, pos, true, false, ◌==◌, ◌<◌, ◌≤◌, ◌^◌, ◌++◌, if◌then◌else◌, List, [], ◌∷◌, map, length, replicate, vec_len, vec_capacity, OnOk, OnErr, IfOk, IfSome, is_some, option_map, slice_index_or};
ghost use Rattle.jg_table_buffers.specs.History.{Event, Opened, Wrote, Closed, ReleaseAll, is_critical, copy_with, pin_through, copied_only, opened, content, contents, in_critical, pinned_by, IsPinOf, pins_object, info_of, is_null};
ghost use Rattle.jg_table_buffers.specs.Ordered.{pins_of, pins_through};
ghost use Rattle.jg_table_buffers.specs.Rows.{AddsNumber, IsAbove, KeepsBuffers, KeepsNumbers, name_of, row_of, copy_length, items_in};
ghost use Rattle.jg_table_buffers.specs.Standing.{Stands};
ghost use Rattle.jg_lists.specs.Marks.{Marks};

use crate::copied::{Copied, Copies, copy_kind, family_of_copy, item_at, set_item};
use crate::family::Family;
use crate::info::Info;
use crate::items::{Items, Unseen};
use crate::maker_counts::{lower_count, raise_count, widen_counts};
use crate::pinned::{Pinned, ViaKey, family_of_pin, pin_kind, via_key};
use crate::tally::{Tally, count_of, lower, make_room, raise};
use crate::visits::{
    list_copies, list_pins, list_pins_of, list_pins_through, mark_objects, name_of, sort_names,
};
use indexmap::IndexMap;
use jg_lists::by_maker::{ByMaker, add, find, remove, take_any};
use jg_lists::{Marking, Recent, number_at};
use jg_words::{BufId, ObjId, Ref, Tid};
use std::alloc::{AllocError, Allocator, Global};
use std::marker::Model;

/// The open buffers. Contracts see the rows. Copies and pinned buffers are kept apart, and the
/// pinned ones are counted by thread and by reference, so that no look-up goes over all of them. It takes
/// memory for as many as were ever open at once, and 16 bytes for each thread up to the one of the
/// greatest number that had a pinned buffer. Of a copy's items it keeps all, in a list, or with
/// [`Unseen`] no more than how many there are.
pub struct Buffers<A: Allocator = Global, I: Items = Vec<i64, A>> {
    copies: Copies<A, I>,
    pins: ByMaker<Pinned, A>,
    makers: Vec<usize, A>,
    vias: Tally<ViaKey, A>,
    /// How many pinned buffers are open.
    pinned: u64,
    alloc: A,
    recent_copy: Recent,
}

// Not derived, so that who owns a table lets it go by one call: else each way out of a function
// drops each part of the maps, which its proof goes through one by one.
impl<A: Allocator, I: Items> Drop for Buffers<A, I> {
    fn drop(self) {
        let Buffers {
            copies: _copies,
            pins: _pins,
            makers: _makers,
            vias: _vias,
            pinned: _pinned,
            alloc: _alloc,
            recent_copy: _recent_copy,
        } = self;
    }
}

impl<A: Allocator, I: Items> Model for Buffers<A, I> {
    ghost use Rattle.std.specs.Prelude.{◌≡◌, ◌++◌, length, map};
    ghost use Rattle.jg_lists.specs.ByMaker.{named};
    ghost use Rattle.jg_table_buffers.specs.Rows.{Rows};
    ghost use Rattle.jg_table_buffers.specs.Seen.{copy_seen, pin_seen};
    ghost use Rattle.jg_table_buffers.specs.Tallies.{Counted};

    ghost Value = { Rows };

    ghost view = { λ a. record { lent = map (copy_seen I.items_of) a.copies.entries ++ map pin_seen (named a.pins) } };

    ghost invariant = { λ a. Counted (named a.pins) a.makers.items a.vias × (a.pinned ≡ length (named a.pins)) };
}

impl<A: Allocator + Copy, I: Items> Buffers<A, I> {
    /// No buffer is open. Takes no memory: the copies, the threads with pinned buffers, and the counts
    /// by thread and by reference grow from the first four handles, and the items of copies and what
    /// each thread has pinned from clones of the last.
    pub fn new(copies: A, pins: A, makers: A, vias: A, alloc: A) -> Buffers<A, I>
        ensures empty { result.lent ≡ [] }
        ensures stands { Stands result [] }
        ensures numbers { (k i : ℕ) → IsAbove k i result }
    {
        Buffers {
            copies: IndexMap::new(copies),
            pins: ByMaker::new(pins, pins, pins),
            makers: Vec::new(makers),
            vias: IndexMap::new(vias),
            pinned: 0,
            alloc,
            recent_copy: Recent::new(),
        }
    }
}

impl<A: Allocator + Clone> Buffers<A> {
    /// Opens buffer `n` of the thread, a copy with these items (chapter 4,
    /// `Get<PrimitiveType>ArrayElements`, `GetStringChars` and `GetStringUTFChars`), of a family
    /// that copies. The number is above those of all open buffers of the thread, which
    /// `new_number_is_above` gives to who counts them. Fails only for want of memory, and then
    /// leaves all unchanged.
    pub fn open_copy(
        &mut self,
        tid: Tid,
        n: u64,
        object: ObjId,
        family: Family,
        items: &[i64],
    ) -> Result<(), AllocError>
        requires above { IsAbove tid.0 n self.old }
        requires copies { is_critical family ≡ false }
        ensures ok { OnOk result ((e : List Event) → Stands self.old e
            → Stands self.new (Opened (copy_with tid.0 n object.0 family items.now) ∷ e)) }
        ensures err { OnErr result (self.new ≡ self.old) }
        ensures numbers { AddsNumber tid.0 n self.old self.new }
    {
        let items = Vec::from_slice(self.alloc.clone()?, items)?;
        self.open_with(tid, n, object, family, items)
    }

    /// The item of an open copy. The index is below the copy's length, which [`Buffers::commit`]
    /// and [`Buffers::find`] tell.
    pub fn read(&self, buf: BufId, index: u64) -> i64
        requires { index < copy_length (row_of buf.maker.0 buf.n self.now) }
        ensures row { result ≡ slice_index_or (items_in (row_of buf.maker.0 buf.n self.now)) index (pos 0) }
        ensures stands { (e : List Event) → Stands self.now e → result ≡ content e buf.maker.0 buf.n index }
    {
        item_at(self.commit(buf), index as usize)
    }

    /// Writes the item of an open copy. The index is below the copy's length, which
    /// [`Buffers::commit`] and [`Buffers::find`] tell. The object that it was copied from keeps its
    /// own.
    pub fn write(&mut self, buf: BufId, index: u64, value: i64)
        requires { index < copy_length (row_of buf.maker.0 buf.n self.old) }
        ensures stands { (e : List Event) → Stands self.old e
            → Stands self.new (Wrote buf.maker.0 buf.n index value ∷ e) }
        ensures numbers { KeepsNumbers self.old self.new }
        ensures buffers { KeepsBuffers self.old self.new }
    {
        set_item(
            &mut self.copies,
            (buf.maker.0, buf.n),
            index as usize,
            value,
        );
    }

    /// Lends the items of an open copy as they are now, to be written back into its object; none
    /// for any other buffer. The copy stays open (chapter 4, `JNI_COMMIT`).
    pub fn commit(&self, buf: BufId) -> &[i64]
        ensures row { result.now ≡ items_in (row_of buf.maker.0 buf.n self.now) }
        ensures length { length result.now ≡ copy_length (row_of buf.maker.0 buf.n self.now) }
        ensures stands { (e : List Event) → Stands self.now e → result.now ≡ contents e buf.maker.0 buf.n }
    {
        match self.recent_copy.find(&self.copies, &(buf.maker.0, buf.n)) {
            Some(copy) => copy.items.as_slice(),
            None => &[],
        }
    }
}

impl<A: Allocator + Clone> Buffers<A, Unseen> {
    /// Opens buffer `n` of the thread, a copy of so many items that stand elsewhere. The family, the
    /// number and what fails are as for [`Buffers::open_copy`].
    pub fn open_unseen(
        &mut self,
        tid: Tid,
        n: u64,
        object: ObjId,
        family: Family,
        count: u64,
    ) -> Result<(), AllocError>
        requires above { IsAbove tid.0 n self.old }
        requires copies { is_critical family ≡ false }
        ensures ok { OnOk result ((e : List Event) → Stands self.old e
            → Stands self.new (Opened (copy_with tid.0 n object.0 family (replicate count (pos 0))) ∷ e)) }
        ensures err { OnErr result (self.new ≡ self.old) }
        ensures numbers { AddsNumber tid.0 n self.old self.new }
    {
        self.open_with(tid, n, object, family, Unseen { count })
    }
}

impl<A: Allocator + Clone, I: Items> Buffers<A, I> {
    /// Opens a copy, with what is kept of its items.
    fn open_with(
        &mut self,
        tid: Tid,
        n: u64,
        object: ObjId,
        family: Family,
        items: I,
    ) -> Result<(), AllocError>
        requires above { IsAbove tid.0 n self.old }
        requires copies { is_critical family ≡ false }
        ensures ok { OnOk result ((e : List Event) → Stands self.old e
            → Stands self.new (Opened (copy_with tid.0 n object.0 family (I.items_of items)) ∷ e)) }
        ensures err { OnErr result (self.new ≡ self.old) }
        ensures numbers { AddsNumber tid.0 n self.old self.new }
    {
        self.copies.insert(
            (tid.0, n),
            Copied {
                object: object.0,
                kind: copy_kind(family),
                items,
            },
        )?;
        Ok(())
    }

    /// Opens buffer `n` of the thread, a pinned one of `length` items through the reference, and
    /// with it a critical region (chapter 4, `GetPrimitiveArrayCritical` and `GetStringCritical`).
    /// The family is one that pins, the reference isn't null, and the number is as for
    /// [`Buffers::open_copy`]. Fails for want of memory, and where the thread has 2^32 - 1 pinned buffers
    /// open, and then leaves all unchanged.
    pub fn open_pin(
        &mut self,
        tid: Tid,
        n: u64,
        object: ObjId,
        family: Family,
        via: Ref,
        length: u64,
    ) -> Result<(), AllocError>
        requires above { IsAbove tid.0 n self.old }
        requires pins { is_critical family ≡ true }
        requires through { is_null via ≡ false }
        ensures ok { OnOk result ((e : List Event) → Stands self.old e
            → Stands self.new (Opened (pin_through tid.0 n object.0 family via length) ∷ e)) }
        ensures err { OnErr result (self.new ≡ self.old) }
        ensures numbers { AddsNumber tid.0 n self.old self.new }
    {
        // At most 2^16 threads have fewer than 2^32 each, so that nothing is refused here.
        let Some(pinned) = self.pinned.checked_add(1) else {
            return Err(AllocError);
        };
        let key = via_key(via);
        widen_counts(&mut self.makers, tid.0)?;
        make_room(&mut self.vias, key)?;
        add(
            &mut self.pins,
            &self.alloc,
            (tid.0, n),
            Pinned {
                object: object.0,
                kind: pin_kind(family),
                via,
                length,
            },
        )?;
        raise_count(&mut self.makers, tid.0);
        raise(&mut self.vias, &key);
        self.pinned = pinned;
        Ok(())
    }

    /// What the buffer is, where it is open (chapter 4, `Release<PrimitiveType>ArrayElements` and
    /// its sisters, which ask for it).
    pub fn find(&self, buf: BufId) -> Option<Info>
        ensures row { result ≡ option_map info_of (row_of buf.maker.0 buf.n self.now) }
        ensures stands { (e : List Event) → Stands self.now e
            → result ≡ option_map info_of (opened e buf.maker.0 buf.n) }
    {
        if let Some(copy) = self.recent_copy.find(&self.copies, &(buf.maker.0, buf.n)) {
            return Some(Info {
                maker: buf.maker,
                object: ObjId(copy.object),
                family: family_of_copy(copy.kind),
                via: Ref::Null,
                length: copy.items.count(),
            });
        }
        match find(&self.pins, (buf.maker.0, buf.n)) {
            None => None,
            Some(pin) => Some(Info {
                maker: buf.maker,
                object: ObjId(pin.object),
                family: family_of_pin(pin.kind),
                via: pin.via,
                length: pin.length,
            }),
        }
    }

    /// Closes the buffer, if it is open (chapter 4, a release in mode 0 or `JNI_ABORT`). With the
    /// last pinned buffer of its thread that thread's critical region ends.
    pub fn close(&mut self, buf: BufId)
        ensures stands { (e : List Event) → Stands self.old e → Stands self.new (Closed buf.maker.0 buf.n ∷ e) }
        ensures numbers { KeepsNumbers self.old self.new }
    {
        self.copies.swap_remove(&(buf.maker.0, buf.n));
        if let Some(pin) = remove(&mut self.pins, (buf.maker.0, buf.n)) {
            lower_count(&mut self.makers, buf.maker.0);
            lower(&mut self.vias, &via_key(pin.via));
            self.pinned -= 1;
        }
    }

    /// Closes each pinned buffer that the thread was lent, as the end of its session does (chapter 5,
    /// `DetachCurrentThread`), and with them its critical region. Its copies stay open. Takes no memory,
    /// and time by how many it closes.
    pub fn release_pins(&mut self, tid: Tid)
        ensures stands { (e : List Event) → Stands self.old e → Stands self.new (ReleaseAll tid.0 ∷ e) }
        ensures rows { (m i : ℕ) → row_of m i self.new
            ≡ (if tid.0 == m then copied_only (row_of m i self.old) else row_of m i self.old) }
        ensures numbers { KeepsNumbers self.old self.new }
    {
        while let Some(pin) = take_any(&mut self.pins, tid.0) {
            lower_count(&mut self.makers, tid.0);
            lower(&mut self.vias, &via_key(pin.via));
            self.pinned -= 1;
        }
    }

    /// How many buffers are open, copies and pinned ones. Takes one step, however many there are.
    pub fn len(&self) -> u128
        ensures count { result ≡ length self.now.lent }
        ensures few { result ≤ 2 ^ 126 }
    {
        u128::from(self.pinned) + self.copies.len() as u128
    }

    /// Whether the thread is in a critical region: a pinned buffer that it was lent is open.
    pub fn in_critical(&self, tid: Tid) -> bool
        ensures { (e : List Event) → Stands self.now e → result ≡ in_critical e tid.0 }
    {
        number_at(&self.makers, tid.0 as usize, 0) > 0
    }

    /// Whether a pinned buffer that was opened through the reference is open.
    pub fn pinned_by(&self, reference: Ref) -> bool
        ensures { (e : List Event) → Stands self.now e → result ≡ pinned_by e reference }
    {
        count_of(&self.vias, &via_key(reference)) > 0
    }

    /// Whether a pinned buffer of the object is open. Copies don't hold their object.
    pub fn pins_object(&self, object: ObjId) -> bool
        ensures { (e : List Event) → Stands self.now e → result ≡ pins_object e object.0 }
    {
        self.pin_of(object).is_some()
    }

    /// An open pinned buffer of the object, if there is one; of several any. Takes time by how many pinned
    /// buffers are open.
    pub fn pin_of(&self, object: ObjId) -> Option<BufId>
        ensures held { (e : List Event) → Stands self.now e → is_some result ≡ pins_object e object.0 }
        ensures names { (e : List Event) → Stands self.now e → IfSome result (IsPinOf e object.0) }
    {
        match name_of(&self.pins, object.0) {
            None => None,
            Some((maker, n)) => Some(BufId {
                maker: Tid(maker),
                n,
            }),
        }
    }

    /// Sets the mark of each object of which a pinned buffer is open and leaves the other marks. An
    /// object without a mark is passed over.
    pub fn mark_held<M: Marking>(&self, marks: &mut M)
        ensures { (e : List Event) → Stands self.now e
            → Marks (pins_object e) (M.mark_of marks.old) (M.mark_of marks.new) }
    {
        mark_objects(&self.pins, marks);
    }

    /// Appends the open copies and then the open pinned buffers, each kind in no order that means
    /// anything. Takes time by how many there are. Fails only for want of memory, where the list is full;
    /// it then holds a part of them.
    pub fn list<B: Allocator>(&self, buffers: &mut Vec<BufId, B>) -> Result<(), AllocError>
        ensures ok { OnOk result (buffers.new.items ≡ buffers.old.items ++ map name_of self.now.lent) }
        ensures full { OnErr result (vec_capacity buffers.new ≤ vec_len buffers.new) }
    {
        list_copies(&self.copies, buffers)?;
        list_pins(&self.pins, buffers)
    }

    /// The open pinned buffers that the thread was lent, by number. Takes time by how many there are.
    /// Fails only for want of memory.
    pub fn pins_of<B: Allocator>(&self, tid: Tid, alloc: B) -> Result<Vec<BufId, B>, AllocError>
        ensures { IfOk result (λ buffers. (e : List Event) → Stands self.now e → buffers.items ≡ pins_of e tid.0) }
    {
        let mut buffers = Vec::new(alloc);
        list_pins_of(&self.pins, tid.0, &mut buffers)?;
        sort_names(&mut buffers);
        Ok(buffers)
    }

    /// The open pinned buffers that were opened through the reference, by the thread that was lent
    /// them and then by number. Takes time by how many pinned buffers are open in all. Fails only for
    /// want of memory.
    pub fn pins_through<B: Allocator>(
        &self,
        reference: Ref,
        alloc: B,
    ) -> Result<Vec<BufId, B>, AllocError>
        ensures { IfOk result (λ buffers. (e : List Event) → Stands self.now e
            → buffers.items ≡ pins_through e reference) }
    {
        let mut buffers = Vec::new(alloc);
        list_pins_through(&self.pins, reference, &mut buffers)?;
        sort_names(&mut buffers);
        Ok(buffers)
    }
}
