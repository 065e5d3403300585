ghost use Rattle.std.specs.Prelude.{◌≡◌, IfOk};

use base_texts::{Name, NoMemory};
use std::alloc::Global;
use std::cmp::Ordering;

/// A cell of a blackboard: the number of a scope, and the key that this scope owns. The main tree has
/// scope 0, and the subtree below a SubTree node has that node's uid. Cells are ordered by
/// scope, and within a scope by the bytes of the key.
#[derive(Debug, Drop)]
pub struct Cell {
    pub scope: u32,
    pub key: Name,
}

impl Cell {
    /// An equal cell. `NoMemory` (want of memory, that is, out of memory) where an allocation fails.
    pub fn copy(&self, alloc: Global) -> Result<Cell, NoMemory>
        ensures { IfOk result (λ cell. cell ≡ self.now) }
    {
        let key = self.key.copy(alloc)?;
        Ok(Cell {
            scope: self.scope,
            key,
        })
    }
}

impl PartialEq for Cell {
    ghost use Rattle.spec_tree.specs.Boards.{same_cell};
    ghost use Rattle.std.specs.Cmp.Rules.{comparing};
    ghost use Rattle.std.proofs.Common.{rules};

    ghost eq = { same_cell };

    ghost laws = { Prim.search (comparing, rules) };

    fn eq(&self, other: &Cell) -> bool {
        self.scope == other.scope && self.key == other.key
    }
}

impl Eq for Cell {
    ghost use Rattle.std.specs.Cmp.Rules.{comparing};
    ghost use Rattle.std.proofs.Common.{rules};

    ghost laws = { Prim.search (comparing, rules) };
}

impl PartialOrd for Cell {
    ghost use Rattle.std.specs.Prelude.{Some};
    ghost use Rattle.std.specs.Cmp.Rules.{comparing};
    ghost use Rattle.std.proofs.Common.{rules};
    ghost use Rattle.spec_tree.specs.Boards.{cell_order};

    ghost partial_cmp = { λ a b. Some (cell_order a b) };

    ghost laws = { Prim.search (comparing, rules) };

    fn partial_cmp(&self, other: &Cell) -> Option<Ordering> {
        Some(self.cmp(other))
    }
}

impl Ord for Cell {
    ghost use Rattle.std.specs.Prelude.{refl};
    ghost use Rattle.std.specs.Cmp.Rules.{comparing};
    ghost use Rattle.std.proofs.Common.{rules};
    ghost use Rattle.spec_tree.specs.Boards.{cell_order};

    ghost cmp = { cell_order };

    ghost total = { Prim.search (comparing, rules) };

    ghost matches_partial_cmp = { λ a b. refl };

    ghost matches_eq = { Prim.search (comparing, rules) };

    fn cmp(&self, other: &Cell) -> Ordering {
        self.scope
            .cmp(&other.scope)
            .then_with(|| self.key.cmp(&other.key))
    }
}

/// A key that a tree names in the scope of this number, with the cell that it stands for.
#[derive(Debug, Drop)]
pub struct Naming {
    pub number: u32,
    pub key: Name,
    pub cell: Cell,
}
