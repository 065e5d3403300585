ghost use Rattle.std.specs.Prelude.{◌≡◌, ◌<◌, ◌++◌, ◌∷◌, [], false, length, IfOk, OnOk, bytes_eq};
ghost use Rattle.std.specs.List.{list_any};
ghost use Rattle.spec_world.specs.Worlds.{ids_of_rows};
ghost use Rattle.spec_world_file.specs.WorldFile as file;
ghost use Rattle.spec_world_file.specs.WorldFile.{where_compares};

use crate::tables::{add, has_name, number_of};
use base_texts::NoMemory;
use indexmap::IndexMap;
use spec_world::{Row, RowSort};
use std::alloc::Global;
use std::marker::Model;

/// The rows so far, numbered from 0, with a look-up by ID.
#[derive(Drop)]
pub struct Rows {
    map: IndexMap<Vec<u8>, Row>,
}

impl Model for Rows {
    ghost use Rattle.std.specs.Prelude.{List};
    ghost use Rattle.indexmap.specs.IndexMap.{values};
    ghost use Rattle.spec_world.specs.declared.world.Row.{Row};
    ghost use Rattle.world_draft.specs.Rows.{RowsKept};
    ghost use Rattle.spec_script.specs.contracts.syntax.Expr as expr;
    ghost use Rattle.std.specs.Coded.{codes};

    ghost Value = { List Row };

    ghost coded = { Prim.hlevel (codes, expr.the_row.coded) };

    ghost view = { λ r. values r.map };

    ghost invariant = { λ r. RowsKept r.map };
}

impl Rows {
    /// No row.
    pub fn new(alloc: Global) -> Rows
        ensures { result ≡ [] }
    {
        Rows {
            map: IndexMap::new(alloc),
        }
    }

    /// How many rows there are.
    pub fn len(&self) -> usize
        ensures { result ≡ length self.now }
    {
        self.map.len()
    }

    /// Whether a row has this ID.
    pub fn has(&self, id: &[u8]) -> bool
        ensures { result ≡ list_any (bytes_eq id.now) (ids_of_rows self.now) }
    {
        has_name(&self.map, id)
    }

    /// The number of the condition of this ID that compares a fact. None where there is none.
    pub fn comparison_number(&self, id: &[u8]) -> Option<u32>
        ensures { result ≡ file.comparison_number self.now id.now }
    {
        let number = number_of(&self.map, id)?;
        let (_, row) = self.map.get_index(number)?;
        match row.sort {
            RowSort::Is { .. } => Some(number as u32),
            _ => None,
        }
    }

    /// Adds a row of a new ID.
    pub fn add(&mut self, alloc: Global, row: Row) -> Result<(), NoMemory>
        requires free { list_any (bytes_eq row.id) (ids_of_rows self.old) ≡ false }
        requires room { length self.old < 1024 }
        ensures { OnOk result (self.new ≡ self.old ++ row ∷ []) }
    {
        match row.id.copy(alloc) {
            Ok(id) => add(alloc, &mut self.map, id.list(), row),
            Err(stop) => {
                drop(row);
                Err(stop)
            }
        }
    }

    /// The rows in the order of their numbers.
    pub fn into_items(self, alloc: Global) -> Result<Vec<Row>, NoMemory>
        ensures { IfOk result (λ rows. rows.items ≡ self) }
    {
        let Rows { map } = self;
        let rows = map.into_values().collect(alloc)?;
        Ok(rows)
    }
}
