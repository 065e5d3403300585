//! The limits of a tree.

ghost use Rattle.std.specs.Prelude.{◌≡◌, ◌<◌, ◌^◌, IfOk, min};
ghost use Rattle.base_texts.specs.Stops.{Gives};
ghost use Rattle.spec_tree.specs.Terms.{depth_of, node_count};
ghost use Rattle.spec_tree_file.specs.Substitutions.{passed_limit, within_limits};

use base_tables::{MOST_DEPTH, MOST_KEYS, MOST_NODES, MOST_WORK};
use base_texts::{NoMemory, Stop};
use spec_tree::{Term, Tree};
use spec_tree_file::MockFault;
use std::alloc::Global;
use tree_board::is_within_slots;
use tree_build::is_within_work;

/// The number of nodes of the term, up to `most`.
fn nodes_up_to(term: &Term, most: u32) -> u32
    requires { most < 2 ^ 31 }
    ensures { result ≡ min most (node_count term.now) }
{
    let mut below = 0;
    for child in term.children.list() {
        below = most.min(below + nodes_up_to(child, most));
    }
    most.min(1 + below)
}

/// The depth of the term, up to `most`.
fn depth_up_to(term: &Term, most: u32) -> u32
    requires { most < 2 ^ 31 }
    ensures { result ≡ min most (depth_of term.now) }
{
    let mut deepest = 0;
    for child in term.children.list() {
        deepest = depth_up_to(child, most).max(deepest);
    }
    most.min(1 + deepest)
}

/// The limit that the tree passes first. None where it passes none.
fn passed_limit(alloc: Global, tree: &Tree) -> Result<Option<MockFault>, NoMemory>
    ensures { IfOk result (λ passed. passed ≡ passed_limit tree.now) }
{
    if nodes_up_to(&tree.term, MOST_NODES + 1) > MOST_NODES {
        Ok(Some(MockFault::TooManyNodes))
    } else if depth_up_to(&tree.term, MOST_DEPTH + 1) > MOST_DEPTH {
        Ok(Some(MockFault::TooDeep))
    } else if !is_within_slots(alloc, tree, MOST_KEYS)? {
        Ok(Some(MockFault::TooManyKeys))
    } else if !is_within_work(&tree.term, MOST_WORK) {
        Ok(Some(MockFault::TooMuchWork))
    } else {
        Ok(None)
    }
}

/// The tree, where it is within the limits; else the first that it passes.
pub fn within_limits(alloc: Global, tree: Tree) -> Result<Tree, Stop<MockFault>>
    ensures { Gives result (within_limits tree) }
{
    match passed_limit(alloc, &tree)? {
        Some(fault) => Err(Stop::Fault(fault)),
        None => Ok(tree),
    }
}
