//! Guesses of where a thread's locals stand.

use crate::row::LocalSlot;
use std::alloc::Allocator;

/// The place from which on there are hints: a search among the slots below it is cheap.
const FIRST_PLACE: usize = 32;

/// How many numbers share a base.
const GROUP: usize = 256;

/// How many times as many hints as there are slots are too many.
const OUTGROWN: usize = 16;

/// Where each local stood when it was put into its thread's list, or when the list was last closed up.
/// It is a hint, which each look-up checks at the slot itself: it may be wrong, and it may be missing,
/// so no clause knows of it. In a list of up to 32 slots none is noted. A longer one takes a byte for
/// each reference that the thread has made since the oldest of those behind the first 32, but at most 16
/// for each slot, so that many hints lie in a near cache: the locals of 256 numbers in a row stand within
/// 256 places.
#[derive(Drop)]
pub struct Hints<A: Allocator> {
    /// For local `first`, the one after it, and so on: how far behind the base of its group it stands.
    offsets: Vec<u8, A>,
    /// For each group of numbers the place of the first local in it.
    bases: Vec<u32, A>,
    first: u64,
}

impl<A: Allocator> Hints<A> {
    /// No hints. Takes no memory.
    pub fn new(offsets: A, bases: A) -> Hints<A> {
        Hints {
            offsets: Vec::new(offsets),
            bases: Vec::new(bases),
            first: 0,
        }
    }

    /// Where the local `n` may stand.
    pub fn get(&self, n: u64) -> Option<usize> {
        let index = n.checked_sub(self.first)? as usize;
        let offset = *self.offsets.get(index)?;
        let base = *self.bases.get(index / GROUP)?;
        Some(base as usize + offset as usize)
    }

    /// Notes the place of the local `n`, the newest. Without memory for it there is no hint.
    pub fn note(&mut self, n: u64, place: usize) {
        if place < FIRST_PLACE {
            return;
        }
        if place == FIRST_PLACE {
            self.offsets.clear();
            self.bases.clear();
        }
        if self.offsets.is_empty() {
            self.first = n;
        }
        self.make_room(n, place);
        self.put(n, place);
    }

    /// Notes the places of all slots of the list anew, as far as the memory goes that is there.
    pub fn note_all(&mut self, slots: &[LocalSlot]) {
        self.offsets.clear();
        self.bases.clear();
        if let Some(slot) = slots.get(FIRST_PLACE) {
            self.first = slot.n;
        }
        for place in FIRST_PLACE..slots.len() {
            self.put(slots[place].n, place);
        }
    }

    /// Asks for room for the hint of the local `n`, which stands at the place, the last. Where the hints
    /// would outgrow the list, it asks for none.
    fn make_room(&mut self, n: u64, place: usize) {
        let index = n.saturating_sub(self.first) as usize;
        if index / OUTGROWN > place {
            return;
        }
        let offsets = index.saturating_sub(self.offsets.len()).saturating_add(1);
        let bases = (index / GROUP)
            .saturating_sub(self.bases.len())
            .saturating_add(1);
        if self.offsets.try_reserve(offsets).is_ok() {
            let _made = self.bases.try_reserve(bases);
        }
    }

    /// Makes the place of the local the last hint, if there is room for it.
    fn put(&mut self, n: u64, place: usize) {
        let (Some(index), Ok(place)) = (n.checked_sub(self.first), u32::try_from(place)) else {
            return;
        };
        let index = index as usize;
        if index >= self.offsets.capacity() || index / GROUP >= self.bases.capacity() {
            return;
        }
        let Some(base) = self.base_of(index / GROUP, place) else {
            return;
        };
        let offset = place.saturating_sub(base).min(255) as u8;
        if self.offsets.resize(index, 0).is_ok() {
            let _noted = self.offsets.push(offset);
        }
    }

    /// The base of the group, which is at most the place: those that stood behind it have gone.
    fn base_of(&mut self, group: usize, place: u32) -> Option<u32> {
        if self.bases.len() <= group {
            self.bases.resize(group.checked_add(1)?, place).ok()?;
        }
        let base = self.bases[group].min(place);
        self.bases[group] = base;
        Some(base)
    }
}
