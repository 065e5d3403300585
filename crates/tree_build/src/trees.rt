ghost use Rattle.std.specs.Prelude.{◌≡◌, ◌++◌, ◌∷◌, [], None, IfOk, is_some, option_map, length};
ghost use Rattle.std.specs.Option.{option_copied};
ghost use Rattle.spec_tree_file.specs.Models.{attributes_of, children_of};
ghost use Rattle.tree_build.specs.Gives.{GivesSeen};
ghost use Rattle.spec_tree_file.specs.Heads as heads;
ghost use Rattle.spec_tree_file.specs.Reads.{is_tree, may_stand, tree_of};
ghost use Rattle.tree_build.specs.ReadSteps.{not_root, stray_place, with_id, with_tree, with_trees};
ghost use Rattle.tree_build.specs.Seen.{trees_seen};

use crate::head::id_or_empty;
use base_texts::{Name, NoMemory, Stop};
use indexmap::IndexMap;
use spec_tree_file::{BuildFault, Element};
use std::alloc::Global;

/// The trees of a file by their IDs.
pub type Trees<'a> = IndexMap<Name, &'a Element>;

/// Whether an element of this name is a tree: `BehaviorTree`.
fn is_tree(name: &[u8]) -> bool
    ensures { result ≡ is_tree name.now }
{
    name == b"BehaviorTree".as_slice()
}

/// Whether an element of this name may stand in the document element.
fn may_stand(name: &[u8]) -> bool
    ensures { result ≡ may_stand name.now }
{
    is_tree(name) || name == b"TreeNodesModel".as_slice()
}

/// The place of the first of these elements that may not stand in the document element. None where all may.
fn stray_place(elements: &[Element]) -> Option<u32>
    ensures { result ≡ stray_place elements.now }
{
    for element in elements {
        if !may_stand(element.name.list()) {
            return Some(element.place);
        }
    }
    None
}

/// The place of the document element, where it is no `root`, or of the first child that may not stand in it. None
/// where there is neither.
pub fn not_root(root: &Element) -> Option<u32>
    ensures { result ≡ not_root root.now }
{
    if root.name.list() == b"root".as_slice() {
        stray_place(root.children.list())
    } else {
        Some(root.place)
    }
}

/// The tree of this ID. None where there is none.
pub fn tree_of<'a>(trees: &Trees<'a>, id: &Name) -> Option<&'a Element>
    ensures { option_copied result ≡ tree_of id.now (trees_seen trees.now.entries) }
{
    trees.get(id).copied()
}

/// The table with one more tree, at its end.
fn with_new<'a>(mut trees: Trees<'a>, id: Name, tree: &'a Element) -> Result<Trees<'a>, NoMemory>
    requires { tree_of id (trees_seen trees.entries) ≡ None }
    ensures { IfOk result (λ t. trees_seen t.entries ≡ trees_seen trees.entry.entries ++ (id, tree.now) ∷ []) }
{
    trees.insert(id, tree)?;
    Ok(trees)
}

/// The trees with that of this element, where it is one. The fault `DoubleTree` where an earlier one has its ID.
fn with_tree<'a>(
    alloc: Global,
    trees: Trees<'a>,
    element: &'a Element,
) -> Result<Trees<'a>, Stop<BuildFault>>
    ensures { GivesSeen (λ t. trees_seen t.entries) result (with_tree (trees_seen trees.entry.entries) element.now) }
{
    if !is_tree(element.name.list()) {
        return Ok(trees);
    }
    let id = id_or_empty(alloc, element.attributes.list())?;
    match tree_of(&trees, &id) {
        Some(_) => Err(Stop::Fault(BuildFault::DoubleTree { id })),
        None => Ok(with_new(trees, id, element)?),
    }
}

/// The trees of these elements, or the first fault.
pub fn trees_of<'a>(alloc: Global, elements: &'a [Element]) -> Result<Trees<'a>, Stop<BuildFault>>
    ensures { GivesSeen (λ t. trees_seen t.entries) result (with_trees [] elements.now) }
{
    let mut trees = IndexMap::new(alloc);
    for element in elements {
        trees = with_tree(alloc, trees, element)?;
    }
    Ok(trees)
}
