ghost use Rattle.std.specs.Prelude.{◌≡◌, Ok, IfOk};
ghost use Rattle.std.specs.Option.{option_copied};
ghost use Rattle.base_texts.specs.Stops.{Gives};
ghost use Rattle.tree_elements.specs.Valid.{IsValid as IsValidElement};
ghost use Rattle.spec_tree.specs.Trees.{IsValid};
ghost use Rattle.spec_tree_file.specs.Models.{manifest_in};
ghost use Rattle.spec_tree_file.specs.Reads.{main_of, most_levels, only_id, reads, tree_of, within_limits};
ghost use Rattle.tree_build.specs.ReadSteps.{file_steps, main_read, read_root, root_read, trees_read};
ghost use Rattle.tree_build.specs.Seen.{file_seen, trees_seen};

use crate::content::Source;
use crate::contents::Contents;
use crate::tree::{File, Place, read_node};
use crate::trees::{Trees, not_root, tree_of, trees_of};
use crate::version::version_in;
use crate::working::is_within_work;
use base_tables::{MOST_DEPTH, MOST_KEYS, MOST_WORK};
use base_texts::{Boxed, Name, NoMemory, Stop};
use spec_tree::{Term, Tree};
use spec_tree_file::{BuildFault, Element, Elements, Numbers, Version};
use std::alloc::Global;
use tree_board::is_within_slots;
use tree_manifest::{Manifest, attribute};

/// The ID of the only tree. None where the file has none or several.
fn only_id<'t>(trees: &'t Trees<'_>) -> Option<&'t Name>
    ensures { option_copied result ≡ only_id (trees_seen trees.now.entries) }
{
    if trees.len() != 1 {
        return None;
    }
    match trees.as_slice().first() {
        Some((id, _)) => Some(id),
        None => None,
    }
}

/// The ID of the main tree: the one that is asked for, else the one that the file names, else that
/// of its only tree. None where there is none of these.
fn main_of<'t>(
    asked: Option<&'t Name>,
    attributes: &'t [(Name, Name)],
    trees: &'t Trees<'_>,
) -> Option<&'t Name>
    ensures { option_copied result ≡ main_of (option_copied asked.entry) attributes.now (trees_seen trees.now.entries) }
{
    if let Some(id) = asked {
        return Some(id);
    }
    match attribute(attributes, b"main_tree_to_execute") {
        Some(id) => Some(id),
        None => only_id(trees),
    }
}

/// How many levels a tree may have: the root node and what is below it.
#[tactic(auto, unfolding(spec_tree_file::specs::Reads::most_levels))]
fn most_levels() -> u32
    ensures { result ≡ most_levels }
{
    MOST_DEPTH
}

/// The term of a root node, whose tree has this ID, and the numbers after it.
fn read_root(
    file: &File<'_>,
    root: &Element,
    id: &Name,
) -> Result<(Boxed<Term>, Numbers), Stop<BuildFault>>
    ensures { Gives result (read_root (file_seen file.now) root.now id.now) }
{
    let numbers = Numbers {
        nodes: 0,
        scopes: 1,
    };
    let opened = [id];
    let place = Place {
        left: most_levels(),
        opened: opened.as_slice(),
        mark: root.place,
    };
    read_node(file, place, root, numbers)
}

/// The tree, if it is within the limits of slots and of work. Else the fault `TooManyKeys` or `TooMuchWork`.
fn within_limits(alloc: Global, tree: Tree) -> Result<Tree, Stop<BuildFault>>
    ensures { Gives result (within_limits tree) }
{
    let stop = match is_within_slots(alloc, &tree, MOST_KEYS) {
        Ok(true) if is_within_work(&tree.term, MOST_WORK) => return Ok(tree),
        Ok(true) => Stop::Fault(BuildFault::TooMuchWork),
        Ok(false) => Stop::Fault(BuildFault::TooManyKeys),
        Err(NoMemory) => Stop::NoMemory,
    };
    drop(tree);
    Err(stop)
}

/// The tree of this ID and root node, or its first fault.
fn root_read(
    alloc: Global,
    file: &File<'_>,
    id: &Name,
    root: &Element,
) -> Result<Tree, Stop<BuildFault>>
    ensures { Gives result (root_read (file_seen file.now) id.now root.now) }
{
    let (term, _) = read_root(file, root, id)?;
    let main = id.copy(alloc)?;
    let term = term.into_inner();
    within_limits(alloc, Tree { main, term })
}

/// The tree of this ID, or its first fault: `NoTree` where the file has none of this ID, `ChildCount` where it has
/// not exactly one root node.
fn main_read(alloc: Global, file: &File<'_>, id: &Name) -> Result<Tree, Stop<BuildFault>>
    ensures { Gives result (main_read (file_seen file.now) id.now (tree_of id.now (file_seen file.now).trees)) }
{
    match tree_of(file.trees, id) {
        Some(tree) => match tree.children.list() {
            [root] => root_read(alloc, file, id, root),
            _ => Err(Stop::Fault(BuildFault::ChildCount { uid: 0 })),
        },
        None => {
            let id = id.copy(alloc)?;
            Err(Stop::Fault(BuildFault::NoTree { id }))
        }
    }
}

/// The tree of a file with these trees, or its first fault: `NoMain` where no tree is the main one.
fn trees_read(
    alloc: Global,
    models: &Manifest,
    asked: Option<&Name>,
    attributes: &[(Name, Name)],
    version: Version,
    trees: Trees<'_>,
) -> Result<Tree, Stop<BuildFault>>
    ensures { Gives result (trees_read models.now (option_copied asked.entry) attributes.now version (trees_seen trees.entry.entries)) }
{
    let Some(id) = main_of(asked, attributes, &trees) else {
        return Err(Stop::Fault(BuildFault::NoMain));
    };
    let source = Source { alloc, models };
    let file = File {
        alloc,
        trees: &trees,
        version,
        contents: Contents::below(source, &trees, version, id)?,
    };
    main_read(alloc, &file, id)
}

/// The tree that the elements of a file read as, or the first fault.
fn file_read(
    alloc: Global,
    root: &Element,
    models: &Manifest,
    asked: Option<&Name>,
) -> Result<Tree, Stop<BuildFault>>
    ensures { Gives result (file_steps models.now (option_copied asked.entry) root.now) }
{
    let attributes = root.attributes.list();
    if let Some(place) = not_root(root) {
        return Err(Stop::Fault(BuildFault::NotRoot { place }));
    }
    let Some(version) = version_in(attribute(attributes, b"BTCPP_format")) else {
        return Err(Stop::Fault(BuildFault::Format));
    };
    let trees = trees_of(alloc, root.children.list())?;
    trees_read(alloc, models, asked, attributes, version, trees)
}

/// The tree that the elements of a file read as, with the main tree that is asked for, or the first
/// fault. The models are those of the file. `NoMemory` (want of memory, that is, out of memory) where an allocation
/// fails, here and below.
pub fn build(
    alloc: Global,
    elements: &Elements,
    models: &Manifest,
    main: Option<&Name>,
) -> Result<Tree, Stop<BuildFault>>
    requires valid { IsValidElement elements.now.root }
    requires models { manifest_in elements.now.root ≡ Ok models.now }
    ensures reads { Gives result (reads models.now (option_copied main.entry) elements.now.root) }
    ensures valid { IfOk result IsValid }
{
    file_read(alloc, &elements.root, models, main)
}
