ghost use Rattle.std.specs.Prelude.{◌≡◌, ◌++◌, IfOk, IsUtf8, OnOk};
ghost use Rattle.std.specs.List.{flat_map};
ghost use Rattle.spec_tree.specs.declared.term.Term.{out-Term};
ghost use Rattle.spec_tree_file.specs.Substitutions.{inside};
ghost use Rattle.spec_expect.specs.Leaves.{places_below, places_of};

use base_texts::{Name, NoMemory};
use spec_expect::Place;
use spec_tree::{Kind, Term, Tree};
use std::alloc::Global;

/// A text and another one after it.
fn joined(alloc: Global, above: &Name, text: &[u8]) -> Result<Name, NoMemory>
    requires { IsUtf8 text.now }
    ensures { IfOk result (λ path. path ≡ above.now ++ text.now) }
{
    let mut path = Vec::from_slice(alloc, above.list())?;
    path.extend_from_slice(text)?;
    Name::of(path)
}

/// What the paths below a node begin with.
fn inside(alloc: Global, node: &Term, above: &Name) -> Result<Name, NoMemory>
    ensures { IfOk result (λ path. path ≡ inside (out-Term node.now).kind (out-Term node.now).name above.now) }
{
    match node.kind {
        Kind::SubTree => joined(alloc, &joined(alloc, above, node.name.list())?, b"/"),
        _ => Ok(above.copy(alloc)?),
    }
}

/// A node where paths begin with this text.
fn place_of(alloc: Global, node: &Term, above: &Name) -> Result<Place, NoMemory>
    ensures { let node = out-Term node.now in
        IfOk result (λ place. place ≡ record { kind = node.kind; id = node.id; name = node.name; path = above.now ++ node.name }) }
{
    Ok(Place {
        kind: node.kind,
        id: node.id.copy(alloc)?,
        name: node.name.copy(alloc)?,
        path: joined(alloc, above, node.name.list())?,
    })
}

/// Adds the nodes below a node in pre-order, where their paths begin with this text. The error is want of memory.
fn add_places(
    alloc: Global,
    node: &Term,
    above: &Name,
    places: &mut Vec<Place>,
) -> Result<(), NoMemory>
    ensures { OnOk result (places.new.items ≡ places.old.items ++ flat_map (λ t. places_below t above.now) (out-Term node.now).children) }
{
    for child in node.children.list() {
        places.push(place_of(alloc, child, above)?)?;
        add_places(alloc, child, &inside(alloc, child, above)?, places)?;
    }
    Ok(())
}

/// The nodes of a tree in pre-order. The error is want of memory, that is, out of memory.
pub fn places_of(alloc: Global, tree: &Tree) -> Result<Vec<Place>, NoMemory>
    ensures { IfOk result (λ places. places.items ≡ places_of tree.now) }
{
    let above = Name::empty();
    let mut places = Vec::new(alloc);
    places.push(place_of(alloc, &tree.term, &above)?)?;
    let below = inside(alloc, &tree.term, &above)?;
    add_places(alloc, &tree.term, &below, &mut places)?;
    Ok(places)
}
