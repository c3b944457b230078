//! Lists of numbers, as operands and as answers.

ghost use Rattle.std.specs.Prelude.{◌≡◌, ◌≤◌, ◌↔◌, ◌<◌, IsOk, IfOk, IfErr, length, vec_len};

use std::alloc::AllocError;
use std::marker::Model;

/// The most items that a list operand or a list answer has.
pub const MAX_ITEMS: usize = 1000;

/// A list operand or a list answer: at most 1,000 numbers of 64 bits. Contracts see it as the
/// list.
#[derive(Drop)]
pub struct Items {
    items: Vec<i64>,
}

impl Model for Items {
    ghost use Rattle.std.specs.Prelude.{◌≤◌, List, ℤ, vec_len};

    ghost Value = { List ℤ };

    ghost view = { λ a. a.items.items };

    ghost invariant = { λ a. vec_len a.items ≤ 1000 };
}

impl Items {
    /// The list, where it isn't too long; else it is handed back.
    pub fn new(items: Vec<i64>) -> Result<Items, Vec<i64>>
        ensures fits { IsOk result ↔ (vec_len items ≤ 1000) }
        ensures ok { IfOk result (λ list. list ≡ items.items) }
        ensures err { IfErr result (λ back. back ≡ items) }
    {
        if items.len() > MAX_ITEMS {
            return Err(items);
        }
        Ok(Items { items })
    }

    /// What it holds.
    pub fn as_slice(&self) -> &[i64]
        ensures items { result.now ≡ self.now }
        ensures bound { length self.now ≤ 1000 }
    {
        self.items.as_slice()
    }

    /// An equal list. Fails only for want of memory.
    pub fn try_copy(&self) -> Result<Items, AllocError>
        ensures { IfOk result (λ copy. copy ≡ self.now) }
    {
        let items = self.items.clone()?;
        Ok(Items { items })
    }
}

impl PartialEq for Items {
    ghost use Rattle.std.specs.Cmp.Lexicographic.{lists_per, pointwise};
    ghost use Rattle.std.specs.Cmp.{partial_equiv_from_equiv};
    ghost use Rattle.std.proofs.lemmas.Cmp.{int_eq_equiv};
    ghost use Rattle.std.specs.Ordering.{int_eq};

    ghost eq = { pointwise int_eq };

    ghost laws = { lists_per (partial_equiv_from_equiv int_eq_equiv) };

    fn eq(&self, other: &Items) -> bool {
        self.as_slice() == other.as_slice()
    }
}

impl Eq for Items {
    ghost use Rattle.std.specs.Cmp.Lexicographic.{lists_equiv};
    ghost use Rattle.std.proofs.lemmas.Cmp.{int_eq_equiv};

    ghost laws = { lists_equiv int_eq_equiv };
}
