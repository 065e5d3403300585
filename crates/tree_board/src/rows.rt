ghost use Rattle.std.specs.Prelude.{◌≡◌, ◌++◌, ◌∷◌, [], OnOk};

use crate::numbers::Numbers;
use base_texts::{Name, NoMemory};
use spec_tree::Cell;
use std::alloc::Global;
use std::marker::Model;

/// A key that is named in a scope, and its cell: each is the number of a scope, and that of a key.
#[derive(Clone, Copy)]
pub(crate) struct Row {
    pub(crate) named: (u32, u32),
    pub(crate) cell: (u32, u32),
}

/// What a tree names, by the numbers of its keys, so that a key is kept once however often it is named. Contracts see
/// the namings.
#[derive(Drop)]
pub(crate) struct Namings {
    pub(crate) keys: Numbers,
    pub(crate) rows: Vec<Row>,
    /// The number of the key that is expected next, and that of the last cell.
    next: u32,
    owned: u32,
}

impl Model for Namings {
    ghost use Rattle.std.specs.Prelude.{List, map, length};
    ghost use Rattle.std.specs.List.{AllByRecursion};
    ghost use Rattle.spec_tree.specs.declared.cell.Naming.{Naming};
    ghost use Rattle.tree_board.specs.Rows.{naming_by, IsWithin};

    ghost Value = { List Naming };

    ghost view = { λ it. map (naming_by it.keys) it.rows.items };

    ghost invariant = { λ it. AllByRecursion (IsWithin (length it.keys)) it.rows.items };
}

impl Namings {
    /// Nothing is named.
    pub(crate) fn new(alloc: Global) -> Namings
        ensures { result ≡ [] }
    {
        Namings {
            keys: Numbers::new(alloc),
            rows: Vec::new(alloc),
            next: 0,
            owned: 0,
        }
    }

    /// Adds a key that is named in the scope of this number, with its cell.
    pub(crate) fn add(
        &mut self,
        alloc: Global,
        scope: u32,
        key: &Name,
        cell: &Cell,
    ) -> Result<(), NoMemory>
        ensures { OnOk result (self.new ≡ self.old ++ record { number = scope; key = key.now; cell = cell.now } ∷ []) }
    {
        let named = self.keys.number(alloc, key, self.next)?;
        let owned = self.keys.number_or(alloc, &cell.key, named, self.owned)?;
        self.next = named.wrapping_add(1);
        self.owned = owned;
        self.rows.push(Row {
            named: (scope, named),
            cell: (cell.scope, owned),
        })?;
        Ok(())
    }
}
