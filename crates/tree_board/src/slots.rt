ghost use Rattle.std.specs.Prelude.{◌≡◌, ◌<◌, ◌^◌, [], length, map, IfOk};
ghost use Rattle.std.specs.Cmp.Lexicographic.{slice_cmp};
ghost use Rattle.std.specs.List.Sorted.{IsStrictlySortedBy};
ghost use Rattle.std.specs.Ordering.{nat_cmp};
ghost use Rattle.spec_tree.specs.declared.term.Tree.{Tree};
ghost use Rattle.spec_tree.specs.Boards.{cell_order, owner, slot_in};
ghost use Rattle.base_tables.specs.SlotTables.{slot_of, slot_table};
ghost use Rattle.tree_board.specs.Rows.{cell_by, first_by, place_order};
ghost use Rattle.tree_board.specs.Slots.{entry_by, ranked};

use crate::naming::name_tree;
use crate::order;
use crate::rows::Row;
use base_texts::{Name, NoMemory};
use spec_tree::{Cell, Tree};
use std::alloc::Global;
use std::cmp::Ordering;
use std::marker::Model;

/// The number of a scope, and that of a key which a tree names there, with the slot of its cell. Entries are ordered by
/// the scope and the key alone.
#[derive(Drop)]
struct Entry {
    named: (u32, u32),
    slot: u32,
}

impl PartialEq for Entry {
    ghost use Rattle.std.specs.Prelude.{◌&&◌, nat_eq};
    ghost use Rattle.std.specs.Cmp.Rules.{comparing};
    ghost use Rattle.std.proofs.Common.{rules};

    ghost eq = { λ a b. nat_eq a.named.0 b.named.0 && nat_eq a.named.1 b.named.1 };

    ghost laws = { Prim.search (comparing, rules) };

    fn eq(&self, other: &Entry) -> bool {
        self.named == other.named
    }
}

impl Eq for Entry {
    ghost use Rattle.std.specs.Cmp.Rules.{comparing};
    ghost use Rattle.std.proofs.Common.{rules};

    ghost laws = { Prim.search (comparing, rules) };
}

impl PartialOrd for Entry {
    ghost use Rattle.std.specs.Prelude.{Some};
    ghost use Rattle.std.specs.Cmp.Rules.{comparing};
    ghost use Rattle.std.proofs.Common.{rules};
    ghost use Rattle.tree_board.specs.Rows.{place_order};

    ghost partial_cmp = { λ a b. Some (place_order a.named b.named) };

    ghost laws = { Prim.search (comparing, rules) };

    fn partial_cmp(&self, other: &Entry) -> Option<Ordering> {
        Some(self.cmp(other))
    }
}

impl Ord for Entry {
    ghost use Rattle.std.specs.Prelude.{refl};
    ghost use Rattle.std.specs.Cmp.Rules.{comparing};
    ghost use Rattle.std.proofs.Common.{rules};
    ghost use Rattle.tree_board.specs.Rows.{place_order};

    ghost cmp = { λ a b. place_order a.named b.named };

    ghost total = { Prim.search (comparing, rules) };

    ghost matches_partial_cmp = { λ a b. refl };

    ghost matches_eq = { Prim.search (comparing, rules) };

    fn cmp(&self, other: &Entry) -> Ordering {
        self.named.cmp(&other.named)
    }
}

/// The slots of a tree. Contracts see the cells in their order, and the slot of each key that is
/// named in a scope.
#[derive(Drop)]
pub struct Slots {
    /// The keys in order, so that their numbers are ordered as they are.
    keys: Vec<Name>,
    cells: Vec<Cell>,
    entries: Vec<Entry>,
}

impl Model for Slots {
    ghost use Rattle.std.specs.Prelude.{◌<◌, ◌^◌, length};
    ghost use Rattle.std.specs.Cmp.Lexicographic.{slice_cmp};
    ghost use Rattle.std.specs.List.{AllByRecursion};
    ghost use Rattle.std.specs.List.Sorted.{IsStrictlySortedBy};
    ghost use Rattle.std.specs.Ordering.{nat_cmp};
    ghost use Rattle.spec_tree.specs.Boards.{cell_order};
    ghost use Rattle.base_tables.specs.SlotTables.{SlotTable};
    ghost use Rattle.tree_board.specs.Slots.{IsOf, entry_order, table};

    ghost Value = { SlotTable };

    ghost view = { λ s. table s.keys.items s.cells.items s.entries.items };

    ghost invariant = { λ s. record {
      few_keys : length s.keys.items < 2 ^ 32;
      few : length s.cells.items < 2 ^ 32;
      keys : IsStrictlySortedBy (slice_cmp nat_cmp) s.keys.items;
      cells : IsStrictlySortedBy cell_order s.cells.items;
      entries : IsStrictlySortedBy entry_order s.entries.items;
      within : AllByRecursion (IsOf (length s.keys.items)) s.entries.items;
    } };
}

/// How a cell compares to the one that the scope would have for the key.
fn order_of(cell: &Cell, scope: u32, key: &Name) -> Ordering
    ensures { result ≡ cell_order cell.now (owner scope key.now) }
{
    cell.scope.cmp(&scope).then_with(|| cell.key.cmp(key))
}

/// The slot of the cell that the scope has for the key; the number of cells where there is none.
fn slot_among(cells: &[Cell], scope: u32, key: &Name) -> u32
    requires ascend { IsStrictlySortedBy cell_order cells.now }
    requires few { length cells.now < 2 ^ 32 }
    ensures { result ≡ slot_in cells.now (owner scope key.now) }
{
    match cells.binary_search_by(|cell| order_of(cell, scope, key)) {
        Ok(slot) => slot as u32,
        Err(_) => cells.len() as u32,
    }
}

/// The slot of the cell that the scope owns for the key; the number of slots where there is none.
pub(crate) fn own_slot(slots: &Slots, scope: u32, key: &Name) -> u32
    ensures { result ≡ slot_in slots.now.cells (owner scope key.now) }
{
    slot_among(&slots.cells, scope, key)
}

/// The place of each key among all keys in order.
fn ranks_of(alloc: Global, keys: &[Name], ordered: &[Name]) -> Result<Vec<u32>, NoMemory>
    requires ascend { IsStrictlySortedBy (slice_cmp nat_cmp) ordered.now }
    requires few { length ordered.now < 2 ^ 32 }
    ensures { IfOk result (λ ranks. ranks.items ≡ map (first_by (slice_cmp nat_cmp) ordered.now) keys.now) }
{
    let mut ranks = Vec::with_capacity(alloc, keys.len())?;
    for key in keys {
        ranks.push(order::place_of(ordered, key))?;
    }
    Ok(ranks)
}

/// The number of a scope and that of a key, where the key has its place in order as its number.
fn by_rank(place: (u32, u32), ranks: &[u32]) -> (u32, u32)
    ensures { result ≡ ranked ranks.now place }
{
    let (scope, key) = place;
    match ranks.get(key as usize) {
        Some(rank) => (scope, *rank),
        None => (scope, 0),
    }
}

/// The cells of what is named, by numbers.
fn places_of(alloc: Global, rows: &[Row], ranks: &[u32]) -> Result<Vec<(u32, u32)>, NoMemory>
    ensures { IfOk result (λ places. places.items ≡ map (λ row. ranked ranks.now row.cell) rows.now) }
{
    let mut places = Vec::with_capacity(alloc, rows.len())?;
    for row in rows {
        places.push(by_rank(row.cell, ranks))?;
    }
    Ok(places)
}

/// The cell of a number of a scope and that of a key.
fn cell_of(alloc: Global, keys: &[Name], place: (u32, u32)) -> Result<Cell, NoMemory>
    ensures { IfOk result (λ cell. cell ≡ cell_by keys.now place) }
{
    let key = match keys.get(place.1 as usize) {
        Some(key) => key.copy(alloc)?,
        None => Name::empty(),
    };
    Ok(Cell {
        scope: place.0,
        key,
    })
}

/// The cells that are told by numbers.
fn cells_of(alloc: Global, keys: &[Name], places: &[(u32, u32)]) -> Result<Vec<Cell>, NoMemory>
    ensures { IfOk result (λ cells. cells.items ≡ map (cell_by keys.now) places.now) }
{
    let mut cells = Vec::with_capacity(alloc, places.len())?;
    for place in places {
        cells.push(cell_of(alloc, keys, *place)?)?;
    }
    Ok(cells)
}

/// What a row names, with the slot of its cell.
fn entry_of(row: Row, ranks: &[u32], places: &[(u32, u32)]) -> Entry
    requires ascend { IsStrictlySortedBy place_order places.now }
    requires few { length places.now < 2 ^ 32 }
    ensures { result ≡ entry_by ranks.now places.now row }
{
    Entry {
        named: by_rank(row.named, ranks),
        slot: order::place_of(places, &by_rank(row.cell, ranks)),
    }
}

/// What is named, with the slots of its cells.
fn entries_of(
    alloc: Global,
    rows: &[Row],
    ranks: &[u32],
    places: &[(u32, u32)],
) -> Result<Vec<Entry>, NoMemory>
    requires ascend { IsStrictlySortedBy place_order places.now }
    requires few { length places.now < 2 ^ 32 }
    ensures { IfOk result (λ entries. entries.items ≡ map (entry_by ranks.now places.now) rows.now) }
{
    let mut entries = Vec::with_capacity(alloc, rows.len())?;
    for row in rows {
        entries.push(entry_of(*row, ranks, places))?;
    }
    Ok(entries)
}

/// Resolves each key that a tree names, in its scope, to the slot of its cell. A tree with 2^32 nodes or names
/// does not fit into memory, and is answered by `NoMemory`.
pub fn slots_of(alloc: Global, tree: &Tree) -> Result<Slots, NoMemory>
    ensures { IfOk result (λ slots. slots ≡ slot_table tree.now) }
{
    let named = name_tree(alloc, tree)?;
    let keys = named.keys.in_order(alloc)?;
    if keys.len() > u32::MAX as usize {
        return Err(NoMemory);
    }
    let ranks = ranks_of(alloc, named.keys.list(), &keys)?;
    let places = order::in_order(places_of(alloc, &named.rows, &ranks)?)?;
    if places.len() > u32::MAX as usize {
        return Err(NoMemory);
    }
    let cells = cells_of(alloc, &keys, &places)?;
    let all = entries_of(alloc, &named.rows, &ranks, &places)?;
    drop(named);
    let entries = order::in_order(all)?;
    Ok(Slots {
        keys,
        cells,
        entries,
    })
}

/// The slots of a tree that names nothing. It allocates nothing.
pub fn no_slots(alloc: Global) -> Slots
    ensures { result ≡ record { cells = []; named = [] } }
{
    Slots {
        keys: Vec::new(alloc),
        cells: Vec::new(alloc),
        entries: Vec::new(alloc),
    }
}

/// The slot of a key in the scope of this number: None exactly where the tree does not name it there.
/// It allocates nothing.
pub fn slot(slots: &Slots, scope: u32, key: &Name) -> Option<u32>
    ensures { (tree : Tree) → slots.now ≡ slot_table tree → result ≡ slot_of tree scope key.now }
{
    let named = (scope, order::place_of(&slots.keys, key));
    match slots
        .entries
        .binary_search_by(|entry| entry.named.cmp(&named))
    {
        Ok(at) => Some(slots.entries[at].slot),
        Err(_) => None,
    }
}

/// The number of slots. It allocates nothing.
pub fn slot_count(slots: &Slots) -> u32
    ensures { result ≡ length slots.now.cells }
{
    slots.cells.len() as u32
}

/// Lends the cells by slot.
pub fn cells(slots: &Slots) -> &[Cell]
    ensures { result.now ≡ slots.now.cells }
{
    slots.cells.as_slice()
}
