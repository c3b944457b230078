//! A list that grows by blocks of 1,024 places: what was put into it isn't moved again, and no call
//! pays for the growth of the whole.
#![tactic(auto)]

ghost use Rattle.std.specs.Prelude.{◌≡◌, ◌<◌, ◌≤◌, ◌+◌, ◌++◌, ◌∷◌, [], length, max, slice_get, OnOk, OnErr};
ghost use Rattle.std.specs.Option.{option_copied};

use std::alloc::{AllocError, Allocator, Global};
use std::marker::Model;

/// How many items a block has places for.
const BLOCK: usize = 1024;

/// How many blocks there may be, so that their places can be counted.
const MOST_BLOCKS: usize = usize::MAX / BLOCK;

/// A list, the oldest item first. Contracts see its items and `spare`, for how many more there is
/// room.
#[derive(Drop)]
pub struct Blocks<T, A: Allocator = Global> {
    /// Full blocks, then one that is being filled, then empty ones.
    blocks: Vec<Vec<T, A>, A>,
    len: usize,
    alloc: A,
}

impl<T, A: Allocator> Model for Blocks<T, A> {
    ghost use Rattle.std.specs.Prelude.{map};
    ghost use Rattle.jg_blocks.specs.Seen.{Kept, kept_code, items_of, room_of, AreBlocks};

    ghost Value = { Kept T };

    ghost coded = { kept_code T.code };

    ghost view = { λ b. record {
      items = items_of (map (λ v. v.items) b.blocks.items);
      spare = room_of b.blocks.items b.len;
    } };

    ghost invariant = { λ b. AreBlocks b.blocks.items b.len };
}

impl<T, A: Allocator + Clone> Blocks<T, A> {
    /// No items, and room for none. Takes no memory; the blocks grow from clones of the second
    /// handle.
    pub fn new(blocks: A, alloc: A) -> Blocks<T, A>
        ensures items { result.items ≡ [] }
        ensures spare { result.spare ≡ 0 }
    {
        Blocks {
            blocks: Vec::new(blocks),
            len: 0,
            alloc,
        }
    }

    /// How many items there are.
    pub fn len(&self) -> usize
        ensures { result ≡ length self.now.items }
    {
        self.len
    }

    /// The item at the index, the oldest at 0; `None` past the end. Takes the same time at each.
    pub fn get(&self, index: usize) -> Option<&T>
        ensures { option_copied result ≡ slice_get self.now.items index }
    {
        match self.blocks.get(index / BLOCK) {
            Some(block) => block.get(index % BLOCK),
            None => None,
        }
    }

    fn spare(&self) -> usize
        ensures { result ≡ self.now.spare }
    {
        self.blocks.len() * BLOCK - self.len
    }

    /// One empty block more.
    fn grow(&mut self) -> Result<(), AllocError>
        ensures ok { OnOk result (self.new.spare ≡ self.old.spare + 1024) }
        ensures items { self.new.items ≡ self.old.items }
        ensures err { OnErr result (self.new.spare ≡ self.old.spare) }
    {
        if self.blocks.len() >= MOST_BLOCKS {
            return Err(AllocError);
        }
        self.blocks.try_reserve(1)?;
        let block = Vec::with_capacity(self.alloc.clone()?, BLOCK)?;
        self.blocks.push(block).unwrap();
        Ok(())
    }

    /// Makes room for this many items more, so that as many calls of `push` can't fail. Takes no
    /// memory where there is the room, and for less than a block more than is asked for where there isn't.
    /// Fails only for want of memory; no item changes or moves either way, and no room is lost. A failed
    /// call may have made some of the room.
    pub fn reserve(&mut self, additional: usize) -> Result<(), AllocError>
        ensures ok { OnOk result (additional ≤ self.new.spare) }
        ensures wants { OnErr result (self.old.spare < additional) }
        ensures items { self.new.items ≡ self.old.items }
        ensures spare { self.old.spare ≤ self.new.spare }
        ensures few { self.new.spare ≤ max self.old.spare (additional + 1023) }
    {
        while self.spare() < additional {
            self.grow()?;
        }
        Ok(())
    }

    /// Puts an item at the end. Asks for room (`reserve`).
    pub fn push(&mut self, item: T)
        requires { 0 < self.old.spare }
        ensures items { self.new.items ≡ self.old.items ++ item ∷ [] }
        ensures spare { self.new.spare + 1 ≡ self.old.spare }
    {
        match self.blocks.get_mut(self.len / BLOCK) {
            Some(block) => block.push(item).unwrap(),
            None => unreachable!(),
        }
        self.len += 1;
    }
}
