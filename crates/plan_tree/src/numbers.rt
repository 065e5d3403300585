//! The keys and rows of nodes.

ghost use Rattle.std.specs.Prelude.{◌≡◌, ◌-◌, ◌≤◌, ℕ, Option, Some, option_map, slice_get, unwrap_or};
ghost use Rattle.std.specs.Option.{option_and_then};
ghost use Rattle.slab.specs.Slab.{get};
ghost use Rattle.spec_world.specs.declared.world.World.{World};
ghost use Rattle.plan_tree.specs.declared.node.Node.{Node};
ghost use Rattle.spec_plan.specs.Forests.{Forest, part_at, times};
ghost use Rattle.plan_tree.specs.Sizes.{height, keys_of, size};
ghost use Rattle.plan_tree.specs.Numbers.{IsRowAt, Numbered};
ghost use Rattle.spec_plan.specs.Achievers.{row_in};
ghost use Rattle.plan_tree.specs.Stands.{Stands, StandsFor};

use crate::node::Node;
use crate::tree::PlanTree;
use slab::Slab;
use spec_plan::Part;

/// The row of a node, if it has one.
fn row_in(part: Part) -> Option<u32>
    ensures { result ≡ row_in part }
{
    match part {
        Part::Sequence(row) | Part::Condition(row) | Part::Action(row) => Some(row),
        Part::Goals | Part::Fallback => None,
    }
}

/// The row of the node of this key, or 0 where there is none.
fn row_at(nodes: &Slab<Node>, key: usize) -> u32
    ensures { result ≡ unwrap_or (option_and_then (λ (node : Node). row_in node.part) (get nodes.now key)) 0 }
{
    match nodes.get(key) {
        Some(node) => row_in(node.part).unwrap_or(0),
        None => 0,
    }
}

/// What the node of this key is, for a key that the plan tree has.
pub fn part_of(t: &PlanTree, key: usize) -> Option<Part>
    ensures known { (world : World) (tree : Forest) → StandsFor t.now world tree → 1 ≤ times key tree → result ≡ part_at key tree }
    ensures slab { result ≡ option_map (λ (node : Node). node.part) (get t.now.nodes key) }
{
    match t.nodes.get(key) {
        Some(node) => Some(node.part),
        None => None,
    }
}

/// The row of a condition or an action, and of a sequence that was added the row of its own action.
pub fn row_of(t: &PlanTree, key: usize) -> u32
    requires { (world : World) × (tree : Forest) × (row : ℕ) × StandsFor t.now world tree × IsRowAt tree key row }
    ensures { (world : World) (tree : Forest) (row : ℕ) → StandsFor t.now world tree → IsRowAt tree key row → result ≡ row }
{
    row_at(&t.nodes, key)
}

/// The key of this number among the nodes of some trees, from 0 on in pre-order, or the number that
/// is left after all of them.
fn find_in(nodes: &Slab<Node>, keys: &[usize], number: usize, levels: usize) -> Result<usize, usize>
    ensures { (parent : Option ℕ) (f : Forest) → Stands nodes.now parent keys.now f → height f ≤ levels → Numbered f number result }
{
    if levels == 0 {
        return Err(number);
    }
    let mut left = number;
    for key in keys {
        if left == 0 {
            return Ok(*key);
        }
        let Some(node) = nodes.get(*key) else {
            continue;
        };
        match find_in(nodes, &node.children, left - 1, levels - 1) {
            Ok(found) => return Ok(found),
            Err(rest) => left = rest,
        }
    }
    Err(left)
}

/// The key of the node that has this number in the behavior tree, from 1 on.
pub fn key_of(t: &PlanTree, uid: u32) -> usize
    requires { (world : World) × (tree : Forest) × StandsFor t.now world tree × (1 ≤ uid) × (uid ≤ size tree) }
    ensures numbered { (world : World) (tree : Forest) → StandsFor t.now world tree → slice_get (keys_of tree) (uid - 1) ≡ Some result }
    ensures known { (world : World) (tree : Forest) → StandsFor t.now world tree → 1 ≤ times result tree }
{
    find_in(&t.nodes, &[t.root], uid as usize - 1, t.nodes.len()).unwrap_or(t.root)
}
