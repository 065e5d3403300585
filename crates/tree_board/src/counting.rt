ghost use Rattle.std.specs.Prelude.{◌≡◌, ◌+◌, ◌++◌, ◌∷◌, [], ℕ, List, map, sum, nat_le, length, true, IfOk, OnOk};
ghost use Rattle.std.specs.List.{flat_map, list_any};
ghost use Rattle.std.specs.Option.{option_or};
ghost use Rattle.std.specs.Str.{bytes_eq};
ghost use Rattle.indexmap.specs.IndexMap.{get};
ghost use Rattle.spec_tree.specs.declared.term.Kind.TheVariants.{SubTree};
ghost use Rattle.spec_tree.specs.declared.term.Term.{out-Term};
ghost use Rattle.spec_tree.specs.Boards.{Scope, main_scope, owner, scope_below, namings, slots};
ghost use Rattle.spec_tree.specs.Terms.{node_count};
ghost use Rattle.tree_board.specs.Countings.{Found, cells_left, found_so_far, mapped_by, mapped_by_port, cells_named};
ghost use Rattle.tree_board.specs.Namings.{namings_of_term, namings_of_terms};

use crate::keys::Keys;
use crate::naming::{name_literals, name_node, uid_after};
use crate::scope::{begins_private, owned};
use base_texts::{Name, NoMemory, Stop};
use indexmap::IndexMap;
use spec_tree::{Cell, Kind, Port, PortValue, Term, Tree};
use std::alloc::Global;
use std::collections::BTreeSet;

/// How many cells are counted at most.
#[derive(Clone, Copy)]
struct Limit {
    alloc: Global,
    most: u32,
}

/// More cells were found.
#[derive(Drop)]
struct TooMany;

/// What a SubTree node says of the keys that are named in the scope that it makes.
#[derive(Drop)]
struct Inner {
    uid: u32,
    /// For each of these keys that a port names: the key that it is mapped to, or None where the port has a literal.
    mapped: IndexMap<Name, Option<Name>>,
    autoremap: bool,
}

/// Adds the cell that a scope owns for a key.
fn own(
    limit: Limit,
    scope: u32,
    key: &Name,
    cells: &mut BTreeSet<Cell>,
) -> Result<(), Stop<TooMany>>
    ensures { (outer : Scope) (keys : List (List ℕ)) → Found result limit.most outer keys cells.new
        (found_so_far outer keys cells.old ++ owner scope key.now ∷ []) }
{
    cells.insert(owned(limit.alloc, scope, key)?)?;
    if cells.len() > limit.most as usize {
        return Err(Stop::Fault(TooMany));
    }
    Ok(())
}

/// Adds the cells that a scope owns for some keys.
fn own_all(
    limit: Limit,
    scope: u32,
    named: &[Name],
    cells: &mut BTreeSet<Cell>,
) -> Result<(), Stop<TooMany>>
    ensures { (outer : Scope) (keys : List (List ℕ)) → Found result limit.most outer keys cells.new
        (found_so_far outer keys cells.old ++ map (owner scope) named.now) }
{
    for key in named {
        own(limit, scope, key, cells)?;
    }
    Ok(())
}

/// The key that a port maps its name to.
fn mapped_key(alloc: Global, value: &PortValue) -> Result<Option<Name>, NoMemory>
    ensures { IfOk result (λ key. key ≡ mapped_by value.now) }
{
    match value {
        PortValue::Key(key) => Ok(Some(key.copy(alloc)?)),
        PortValue::Lit(_) => Ok(None),
    }
}

/// Adds what a port says of its name, where that is one of the keys. An earlier port of the name counts.
fn add_mapped(
    alloc: Global,
    port: &Port,
    keys: &Keys,
    mapped: &mut IndexMap<Name, Option<Name>>,
) -> Result<(), NoMemory>
    ensures { OnOk result ((key : List ℕ) → list_any (bytes_eq key) keys.now ≡ true →
        get bytes_eq mapped.new key ≡ option_or (get bytes_eq mapped.old key) (mapped_by_port port.now key)) }
{
    if keys.holds(&port.name) && !mapped.contains_key(&port.name) {
        let name = port.name.copy(alloc)?;
        let key = mapped_key(alloc, &port.value)?;
        mapped.insert(name, key)?;
    }
    Ok(())
}

/// What a SubTree node with these ports says of keys that are named in its scope.
fn inner_of(
    alloc: Global,
    uid: u32,
    ports: &[Port],
    autoremap: bool,
    keys: &Keys,
) -> Result<Inner, NoMemory>
    ensures { IfOk result (λ inner. (outer : Scope) (key : List ℕ) → list_any (bytes_eq key) keys.now ≡ true →
        cells_left inner outer key ≡ scope_below uid ports.now autoremap outer key) }
{
    let mut mapped = IndexMap::new(alloc);
    for port in ports {
        add_mapped(alloc, port, keys, &mut mapped)?;
    }
    Ok(Inner {
        uid,
        mapped,
        autoremap,
    })
}

/// Leaves a scope with a key that is named in it: it is a key of the scope further out, or has a cell of its own.
fn leave_with(
    limit: Limit,
    inner: &Inner,
    key: &Name,
    keys: &mut Keys,
    cells: &mut BTreeSet<Cell>,
) -> Result<(), Stop<TooMany>>
    ensures { (outer : Scope) → Found result limit.most outer keys.new cells.new
        (found_so_far outer keys.old cells.old ++ cells_left inner.now outer key.now ∷ []) }
{
    match inner.mapped.get(key) {
        Some(Some(mapped)) => Ok(keys.name(limit.alloc, mapped)?),
        Some(None) => own(limit, inner.uid, key, cells),
        None if inner.autoremap && !begins_private(key) => Ok(keys.name(limit.alloc, key)?),
        None => own(limit, inner.uid, key, cells),
    }
}

/// Leaves a scope with all keys that are named in it.
fn leave(
    limit: Limit,
    inner: &Inner,
    named: &[Name],
    keys: &mut Keys,
    cells: &mut BTreeSet<Cell>,
) -> Result<(), Stop<TooMany>>
    ensures { (outer : Scope) → Found result limit.most outer keys.new cells.new
        (found_so_far outer keys.old cells.old ++ map (cells_left inner.now outer) named.now) }
{
    for key in named {
        leave_with(limit, inner, key, keys, cells)?;
    }
    Ok(())
}

/// Finds what the nodes of a term name, as `count_term` does, where the first is a SubTree node: its scope is left
/// when all keys that are named in it are known, so that ports that no key asks for cost next to nothing.
#[inline(never)]
#[cycle(counted)]
fn count_subtree(
    limit: Limit,
    term: &Term,
    uid: u32,
    keys: &mut Keys,
    cells: &mut BTreeSet<Cell>,
) -> Result<u32, Stop<TooMany>>
    requires { (out-Term term.now).kind ≡ SubTree }
    ensures next { IfOk result (λ next. next ≡ uid + node_count term.now) }
    ensures found { (number : ℕ) (scope : Scope) → Found result limit.most scope keys.new cells.new
        (found_so_far scope keys.old cells.old ++ cells_named (namings_of_term term.now uid number scope)) }
{
    let first = uid_after(uid)?;
    name_node(limit.alloc, term, keys)?;
    let mut named = Keys::new(limit.alloc);
    let next = count_terms(limit, term.children.list(), first, &mut named, cells)?;
    let ports = term.ports.list();
    name_literals(limit.alloc, ports, &mut named)?;
    let inner = inner_of(limit.alloc, uid, ports, term.autoremap, &named)?;
    leave(limit, &inner, named.list(), keys, cells)?;
    Ok(next)
}

/// Finds the cells of what the nodes of a term name, from this uid on: adds the keys that they name in the scope in
/// which the term stands, and the cells of scopes that they make. Answers the uid after the last.
#[cycle(counted)]
fn count_term(
    limit: Limit,
    term: &Term,
    uid: u32,
    keys: &mut Keys,
    cells: &mut BTreeSet<Cell>,
) -> Result<u32, Stop<TooMany>>
    ensures next { IfOk result (λ next. next ≡ uid + node_count term.now) }
    ensures found { (number : ℕ) (scope : Scope) → Found result limit.most scope keys.new cells.new
        (found_so_far scope keys.old cells.old ++ cells_named (namings_of_term term.now uid number scope)) }
{
    if let Kind::SubTree = term.kind {
        count_subtree(limit, term, uid, keys, cells)
    } else {
        let first = uid_after(uid)?;
        name_node(limit.alloc, term, keys)?;
        count_terms(limit, term.children.list(), first, keys, cells)
    }
}

/// Finds the cells of what the nodes of some terms name, one term after the other.
#[cycle(counted)]
fn count_terms(
    limit: Limit,
    terms: &[Term],
    uid: u32,
    keys: &mut Keys,
    cells: &mut BTreeSet<Cell>,
) -> Result<u32, Stop<TooMany>>
    ensures next { IfOk result (λ next. next ≡ uid + sum (map node_count terms.now)) }
    ensures found { (number : ℕ) (scope : Scope) → Found result limit.most scope keys.new cells.new
        (found_so_far scope keys.old cells.old ++ cells_named (namings_of_terms terms.now uid number scope)) }
{
    let mut next = uid;
    for term in terms {
        next = count_term(limit, term, next, keys, cells)?;
    }
    Ok(next)
}

/// Finds the cells of a tree.
fn count_tree(limit: Limit, tree: &Tree, cells: &mut BTreeSet<Cell>) -> Result<(), Stop<TooMany>>
    ensures { Found result limit.most main_scope [] cells.new (cells.old.keys ++ cells_named (namings tree.now)) }
{
    let mut keys = Keys::new(limit.alloc);
    count_term(limit, &tree.term, 1, &mut keys, cells)?;
    own_all(limit, 0, keys.list(), cells)
}

/// Whether a tree has at most so many cells. No more than one over that are kept.
pub(crate) fn has_few_cells(alloc: Global, tree: &Tree, most: u32) -> Result<bool, NoMemory>
    ensures { IfOk result (λ few. few ≡ nat_le (length (slots tree.now)) most) }
{
    let mut cells = BTreeSet::new(alloc);
    let counted = count_tree(Limit { alloc, most }, tree, &mut cells);
    let few = cells.len() <= most as usize;
    match counted {
        Ok(()) => Ok(few),
        Err(stop) => match stop {
            Stop::Fault(_) => Ok(false),
            Stop::NoMemory => Err(NoMemory),
        },
    }
}
