ghost use Rattle.std.specs.Prelude.{◌≡◌, ℕ, List, IfOk, OnOk};
ghost use Rattle.std.specs.Option.{option_or};
ghost use Rattle.std.specs.Str.{bytes_eq};
ghost use Rattle.indexmap.specs.IndexMap.{get};
ghost use Rattle.spec_tree.specs.Boards.{is_private, scope_below, owner, cell_by_value};
ghost use Rattle.tree_board.specs.Scopes.{number_of, cells_of, cells_below, cell_of_port};

use base_texts::{Name, NoMemory};
use indexmap::IndexMap;
use spec_tree::{Cell, Port, PortValue};
use std::alloc::Global;

/// A scope while the names of a tree are resolved.
#[derive(Clone, Copy)]
pub(crate) enum Scope<'a> {
    /// The main tree's.
    Main,
    /// That of a SubTree node, within the scope in which the node stands.
    Below(&'a Mappings, &'a Scope<'a>),
}

/// What a SubTree node says of the keys of its scope.
#[derive(Drop)]
pub(crate) struct Mappings {
    pub(crate) uid: u32,
    /// The cell of each key that a port names, as the scopes further out resolve it.
    pub(crate) cells: IndexMap<Name, Cell>,
    pub(crate) autoremap: bool,
}

/// Whether a key begins with `_`.
pub fn begins_private(key: &Name) -> bool
    ensures { result ≡ is_private key.now }
{
    key.list().first() == Some(&b'_')
}

/// The cell of the key in a scope that owns it.
pub(crate) fn owned(alloc: Global, scope: u32, key: &Name) -> Result<Cell, NoMemory>
    ensures { IfOk result (λ cell. cell ≡ owner scope key.now) }
{
    let key = key.copy(alloc)?;
    Ok(Cell { scope, key })
}

/// The number of a scope.
pub(crate) fn scope_number(scope: &Scope) -> u32
    ensures { result ≡ number_of scope.now }
{
    match scope {
        Scope::Main => 0,
        Scope::Below(mappings, _) => mappings.uid,
    }
}

/// The cell of a key in a scope.
pub(crate) fn cell_in(alloc: Global, scope: &Scope, key: &Name) -> Result<Cell, NoMemory>
    ensures { IfOk result (λ cell. cell ≡ cells_of scope.now key.now) }
{
    match scope {
        Scope::Main => owned(alloc, 0, key),
        Scope::Below(mappings, outer) => match mappings.cells.get(key) {
            Some(cell) => cell.copy(alloc),
            None if mappings.autoremap && !begins_private(key) => cell_in(alloc, outer, key),
            None => owned(alloc, mappings.uid, key),
        },
    }
}

/// The cell of a key that a port of a SubTree node names.
fn mapped(alloc: Global, port: &Port, uid: u32, outer: &Scope) -> Result<Cell, NoMemory>
    ensures { IfOk result (λ cell. cell ≡ cell_by_value port.now.value uid (cells_of outer.now) port.now.name) }
{
    match &port.value {
        PortValue::Key(key) => cell_in(alloc, outer, key),
        PortValue::Lit(_) => owned(alloc, uid, &port.name),
    }
}

/// Adds the cell that a port of a SubTree node gives its name. An earlier port of the name counts.
fn add_port(
    alloc: Global,
    port: &Port,
    uid: u32,
    outer: &Scope,
    cells: &mut IndexMap<Name, Cell>,
) -> Result<(), NoMemory>
    ensures { OnOk result ((key : List ℕ) → get bytes_eq cells.new key ≡
        option_or (get bytes_eq cells.old key) (cell_of_port port.now uid (cells_of outer.now) key)) }
{
    if !cells.contains_key(&port.name) {
        let name = port.name.copy(alloc)?;
        let cell = mapped(alloc, port, uid, outer)?;
        cells.insert(name, cell)?;
    }
    Ok(())
}

/// The mappings of a SubTree node with these ports, within a scope. The first port of a name counts.
pub(crate) fn mappings_of(
    alloc: Global,
    uid: u32,
    ports: &[Port],
    autoremap: bool,
    outer: &Scope,
) -> Result<Mappings, NoMemory>
    ensures uid { IfOk result (λ m. m.uid ≡ uid) }
    ensures cells { IfOk result (λ m. (key : List ℕ) → cells_below m (cells_of outer.now) key ≡
        scope_below uid ports.now autoremap (cells_of outer.now) key) }
{
    let mut cells = IndexMap::with_capacity(alloc, ports.len())?;
    for port in ports {
        add_port(alloc, port, uid, outer, &mut cells)?;
    }
    Ok(Mappings {
        uid,
        cells,
        autoremap,
    })
}
