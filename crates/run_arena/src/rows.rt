ghost use Rattle.std.specs.Prelude.{◌≡◌, ◌≤◌, ℕ, List, if◌then◌else◌, length, slice_get, Some, None, IfOk, OnOk};
ghost use Rattle.std.specs.Option.{option_copied, option_or};
ghost use Rattle.std.specs.Str.{bytes_eq};
ghost use Rattle.indexmap.specs.IndexMap.{get};
ghost use Rattle.std.specs.List.{All};
ghost use Rattle.spec_world.specs.Runnable.{IsRunnableWorld};
ghost use Rattle.run_driver.specs.Places.{CanBeReady};
ghost use Rattle.run_arena.specs.Rows.{AreReady, Finds, TellsEachOnce};

use base_texts::{Items, Name, NoMemory, Shared};
use indexmap::IndexMap;
use run_driver::{ReadyRow, ready};
use spec_world::{Fact, Row, World};
use std::alloc::Global;
use std::cell::Cell;
use std::marker::Model;

/// What stands at a number, where there are so many.
fn at<T>(items: &[T], number: u32) -> Option<&T>
    ensures { option_copied result ≡ slice_get items.now number }
{
    items.get(number as usize)
}

/// A row of a world, and what is ready of it.
#[derive(Clone, Copy)]
pub(crate) struct FoundRow<'a> {
    pub row: &'a Row,
    pub ready: &'a Shared<ReadyRow>,
}

/// A world with the numbers of its rows by their IDs, and with its rows made ready. Made once, it serves all
/// arenas of that world, whose leaves share what is ready. Contracts see the world.
#[derive(Debug, Drop)]
pub struct IndexedWorld<'a> {
    world: &'a World,
    numbers: IndexMap<Name, u32>,
    ready: Items<Shared<ReadyRow>>,
    /// For each row the number of the one that was looked for after it, the last time.
    after: Vec<Cell<u32>>,
    /// The number of the row that was looked for last.
    last: Cell<u32>,
}

impl<'a> Model for IndexedWorld<'a> {
    ghost use Rattle.std.specs.List.{IsDistinct};
    ghost use Rattle.std.specs.Str.{bytes_eq};
    ghost use Rattle.indexmap.specs.IndexMap.{get};
    ghost use Rattle.spec_world.specs.declared.world.World.{World as Whole};
    ghost use Rattle.spec_world.specs.Worlds.{ids_of_rows};
    ghost use Rattle.run_arena.specs.Rows.{AreReady, Finds};
    ghost use Rattle.spec_script.specs.contracts.syntax.Expr as expr;
    ghost use Rattle.std.specs.Coded.{codes};

    ghost Value = { Whole };

    ghost coded = { Prim.hlevel (codes, expr.the_row.coded) };

    ghost view = { λ it. it.world.now };

    ghost invariant = { λ it. Finds it.world.now.rows (get bytes_eq it.numbers)
        × AreReady it.world.now.facts it.world.now.rows it.ready
        × IsDistinct bytes_eq (ids_of_rows it.world.now.rows) };
}

impl<'a> IndexedWorld<'a> {
    ghost use Rattle.std.specs.Prelude.{◌≡◌, IsTrue, None, Some, MatchOption};
    ghost use Rattle.spec_run.specs.Leaves.{row_of};
    ghost use Rattle.run_arena.specs.Rows.{IsReadyRow, row_by};

    /// Lends the world.
    pub fn world(&self) -> &World
        ensures { result.now ≡ self.now }
    {
        self.world
    }

    /// Whether the row of this number has this ID.
    fn has_id(&self, number: u32, id: &Name) -> bool
        ensures { IsTrue result → row_by self.now.rows (Some number) ≡ row_of self.now.rows id.now }
    {
        match at(self.world.rows.list(), number) {
            Some(row) => row.id == *id,
            None => false,
        }
    }

    /// The number of the row of an ID. A tree that is laid again mostly wants its rows in the same order, so the row
    /// that came next the last time is looked at first, and an ID is hashed only where that row has another one.
    fn number_of(&self, id: &Name) -> Option<u32>
        ensures { row_by self.now.rows result ≡ row_of self.now.rows id.now }
    {
        let after = at(self.after.as_slice(), self.last.get());
        if let Some(next) = after {
            let guess = next.get();
            if self.has_id(guess, id) {
                self.last.set(guess);
                return Some(guess);
            }
        }
        let number = *self.numbers.get(id)?;
        if let Some(next) = after {
            next.set(number);
        }
        self.last.set(number);
        Some(number)
    }

    /// The row of an ID, with what is ready of it; none where there is no such row.
    pub(crate) fn find(&self, id: &Name) -> Option<FoundRow>
        ensures { MatchOption result (row_of self.now.rows id.now ≡ None) (λ found.
            (row_of self.now.rows id.now ≡ Some found.row.now) × IsReadyRow self.now.facts found.row.now found.ready.now) }
    {
        let number = self.number_of(id)?;
        let row = at(self.world.rows.list(), number)?;
        let ready = at(self.ready.list(), number)?;
        Some(FoundRow { row, ready })
    }
}

/// Adds the number of a row at its ID, where no earlier row has that ID. The error is want of
/// memory.
fn add_row(
    alloc: Global,
    row: &Row,
    number: u32,
    index: &mut IndexMap<Name, u32>,
) -> Result<(), NoMemory>
    ensures { OnOk result ((id : List ℕ) →
        get bytes_eq index.new id ≡ option_or (get bytes_eq index.old id) (if bytes_eq row.now.id id then Some number else None)) }
{
    if !index.contains_key(&row.id) {
        index.insert(row.id.copy(alloc)?, number)?;
    }
    Ok(())
}

/// The numbers of rows by their IDs, or want of memory. Of several rows of one ID the first counts.
fn index_of(alloc: Global, rows: &[Row]) -> Result<IndexMap<Name, u32>, NoMemory>
    requires { length rows.now ≤ 4096 }
    ensures { IfOk result (λ index. Finds rows.now (get bytes_eq index)) }
{
    let mut index = IndexMap::with_capacity(alloc, rows.len())?;
    let mut number = 0u32;
    for row in rows {
        add_row(alloc, row, number, &mut index)?;
        number += 1;
    }
    Ok(index)
}

/// What is ready of rows over these facts, one for each, or want of memory.
fn ready_rows(
    alloc: Global,
    rows: &[Row],
    facts: &[Fact],
) -> Result<Items<Shared<ReadyRow>>, NoMemory>
    requires can { All (CanBeReady facts.now) rows.now }
    requires once { All TellsEachOnce rows.now }
    ensures { IfOk result (λ all. AreReady facts.now rows.now all) }
{
    let mut all = Vec::with_capacity(alloc, rows.len())?;
    for row in rows {
        all.push(Shared::of(alloc, ready(alloc, row, facts)?)?)?;
    }
    Ok(Items::of(all))
}

/// For each of so many rows the first one, as that which comes next, or want of memory.
fn first_after(alloc: Global, rows: usize) -> Result<Vec<Cell<u32>>, NoMemory> {
    let mut after = Vec::with_capacity(alloc, rows)?;
    for _ in 0..rows {
        after.push(Cell::new(0))?;
    }
    Ok(after)
}

/// A world, made ready for the arenas that are made for it. The error is want of memory.
pub fn index_world(alloc: Global, world: &World) -> Result<IndexedWorld, NoMemory>
    requires { IsRunnableWorld world.now }
    ensures { IfOk result (λ indexed. indexed ≡ world.now) }
{
    let rows = world.rows.list();
    Ok(IndexedWorld {
        world,
        numbers: index_of(alloc, rows)?,
        ready: ready_rows(alloc, rows, world.facts.list())?,
        after: first_after(alloc, rows.len())?,
        last: Cell::new(0),
    })
}
