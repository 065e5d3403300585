ghost use Rattle.std.specs.Prelude.{◌≡◌, ◌<◌, ℕ, Bool, List, [], length, get_or, IsTrue, IfOk};
ghost use Rattle.std.specs.Cmp.Lexicographic.{slice_cmp};
ghost use Rattle.std.specs.List.{list_any};
ghost use Rattle.std.specs.List.Sorted.{IsStrictlySortedBy};
ghost use Rattle.std.specs.Ordering.{nat_cmp};
ghost use Rattle.tree_board.specs.Rows.{Grows};

use crate::order;
use base_texts::{Name, NoMemory};
use indexmap::IndexSet;
use std::alloc::Global;
use std::marker::Model;

/// The keys of a tree, each once. The number of a key is its place among them. Contracts see the list of them.
#[derive(Drop)]
pub(crate) struct Numbers {
    set: IndexSet<Name>,
}

impl Model for Numbers {
    ghost use Rattle.std.specs.Prelude.{List, ℕ};

    ghost Value = { List (List ℕ) };

    ghost view = { λ it. it.set.keys };
}

impl Numbers {
    /// No keys.
    pub(crate) fn new(alloc: Global) -> Numbers
        ensures { result ≡ [] }
    {
        Numbers {
            set: IndexSet::new(alloc),
        }
    }

    /// Lends the keys, by their numbers.
    pub(crate) fn list(&self) -> &[Name]
        ensures { result.now ≡ self.now }
    {
        self.set.as_slice()
    }

    /// The keys in order.
    pub(crate) fn in_order(&self, alloc: Global) -> Result<Vec<Name>, NoMemory>
        ensures strict { IfOk result (λ v. IsStrictlySortedBy (slice_cmp nat_cmp) v.items) }
        ensures same { IfOk result (λ v. (p : List ℕ → Bool) → list_any p v.items ≡ list_any p self.now) }
    {
        let mut keys = Vec::with_capacity(alloc, self.set.len())?;
        for key in self.set.as_slice() {
            keys.push(key.copy(alloc)?)?;
        }
        order::in_order(keys)
    }

    /// The number of a key, which is added where it is not yet there. One number is expected, and is looked at first:
    /// the scopes of a tree that is opened again and again name its keys in one order, so that most need no search.
    pub(crate) fn number(
        &mut self,
        alloc: Global,
        key: &Name,
        expected: u32,
    ) -> Result<u32, NoMemory>
        ensures grown { Grows self.old self.new }
        ensures number { IfOk result (λ n. (n < length self.new) × (get_or self.new n [] ≡ key.now)) }
    {
        if self.is_at(expected, key) {
            return Ok(expected);
        }
        let (place, _) = self.set.insert_full(key.copy(alloc)?)?;
        if place > u32::MAX as usize {
            return Err(NoMemory);
        }
        Ok(place as u32)
    }

    /// The same, where two numbers are expected.
    pub(crate) fn number_or(
        &mut self,
        alloc: Global,
        key: &Name,
        first: u32,
        second: u32,
    ) -> Result<u32, NoMemory>
        ensures grown { Grows self.old self.new }
        ensures number { IfOk result (λ n. (n < length self.new) × (get_or self.new n [] ≡ key.now)) }
    {
        if self.is_at(first, key) {
            return Ok(first);
        }
        self.number(alloc, key, second)
    }

    /// Whether the key has this number.
    fn is_at(&self, number: u32, key: &Name) -> bool
        ensures { IsTrue result → (number < length self.now) × (get_or self.now number [] ≡ key.now) }
    {
        match self.set.get_index(number as usize) {
            Some(other) => key == other,
            None => false,
        }
    }
}
