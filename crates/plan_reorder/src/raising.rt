//! How a new sequence is raised.

ghost use Rattle.std.specs.Prelude.{◌≡◌, ◌+◌, ◌<◌, ◌≤◌, ◌==◌, ℕ, List, Option, Some, None, [], ◌∷◌, length, option_map, position, MatchBool};
ghost use Rattle.std.specs.List.{find};
ghost use Rattle.std.specs.Option.{option_and_then};
ghost use Rattle.slab.specs.Slab.{get};
ghost use Rattle.spec_world.specs.declared.world.World.{World};
ghost use Rattle.plan_tree.specs.declared.node.Node.{Node};
ghost use Rattle.spec_plan.specs.Forests.{AreApart, Forest, Place, is_sequence, place_of};
ghost use Rattle.plan_tree.specs.Growth.{Edits};
ghost use Rattle.plan_tree.specs.Stands.{IsSequenceOf, Stands, StandsFor};
ghost use Rattle.plan_reorder.specs.Looked.{left_of, move_in, swapped};
ghost use Rattle.plan_reorder.specs.Raises.{Raises};
ghost use Rattle.spec_plan.specs.Raising.{can_move, raised};

use plan_tree::{Node, PlanTree};
use slab::Slab;
use spec_plan::Part;

/// A change of two neighbours: the node in which they stand, and the place of the left one.
#[derive(Clone, Copy, Debug, PartialEq, Eq)]
pub(crate) struct Move {
    pub parent: usize,
    pub place: usize,
}

/// Whether the children of a node may change places.
pub(crate) fn is_sequence(part: Part) -> bool
    ensures { result ≡ is_sequence part }
{
    matches!(part, Part::Goals | Part::Sequence(_))
}

/// The place of a key among these.
pub(crate) fn place_among(keys: &[usize], wanted: usize) -> Option<usize>
    ensures { result ≡ position (λ key. key == wanted) keys.now }
{
    keys.iter().position(|key| *key == wanted)
}

/// The key of the node above this one.
pub(crate) fn parent_of(nodes: &Slab<Node>, key: usize) -> Option<usize>
    ensures { result ≡ option_and_then (λ (node : Node). node.parent) (get nodes.now key) }
{
    match nodes.get(key) {
        Some(node) => node.parent,
        None => None,
    }
}

/// The place of the left neighbour of a key in a sequence.
fn left_of(nodes: &Slab<Node>, parent: usize, key: usize) -> Option<usize>
    ensures { (node : Node) → get nodes.now parent ≡ Some node → result ≡ left_of key node }
{
    let node = nodes.get(parent)?;
    match place_among(&node.children, key) {
        Some(place) if place > 0 && is_sequence(node.part) => Some(place - 1),
        _ => None,
    }
}

/// The move in the nearest sequence above a node in which the child on the way down has a left
/// neighbour. There are at most so many nodes above it.
fn find_move(nodes: &Slab<Node>, key: usize, levels: usize) -> Option<Move>
    ensures { (root : ℕ) (tree : Forest) (place : Place) → Stands nodes.now None (root ∷ []) tree → AreApart tree →
        place_of key tree ≡ Some place → length place.above ≤ levels →
        result ≡ option_map move_in (find can_move place.above) }
{
    if levels == 0 {
        return None;
    }
    let Some(parent) = parent_of(nodes, key) else {
        return None;
    };
    match left_of(nodes, parent, key) {
        Some(place) => Some(Move { parent, place }),
        None => find_move(nodes, parent, levels - 1),
    }
}

/// Two neighbours change places.
fn swap_neighbours(keys: &mut [usize], place: usize)
    requires { place + 1 < length keys.old }
    ensures { keys.new ≡ swapped place keys.old }
{
    let first = keys[place];
    keys[place] = keys[place + 1];
    keys[place + 1] = first;
}

/// Two children of a node change places.
fn swap_children(nodes: &mut Slab<Node>, change: Move)
    requires { (node : Node) × (get nodes.old change.parent ≡ Some node) × (change.place + 1 < length node.children.items) }
    ensures edited { (node : Node) → get nodes.old change.parent ≡ Some node →
        Edits nodes.old nodes.new change.parent node.parent (swapped change.place node.children.items) node }
    ensures room { nodes.new.capacity ≡ nodes.old.capacity }
{
    if let Some(node) = nodes.get_mut(change.parent) {
        swap_neighbours(&mut node.children, change.place);
    }
}

/// Raises a sequence that was added: in the nearest sequence above it in which the child on the way
/// down has a left neighbour, these two change places. Where there is none, nothing is changed. Every
/// key names the same node as before.
pub fn raise(t: &mut PlanTree, added: usize) -> bool
    requires { (world : World) × (tree : Forest) × StandsFor t.old world tree × IsSequenceOf tree added }
    ensures raised { (world : World) (tree : Forest) → StandsFor t.old world tree → IsSequenceOf tree added →
        MatchBool result (Raises t.new world tree added) ((raised added tree ≡ None) × (t.new ≡ t.old)) }
    ensures room { t.new.nodes.capacity ≡ t.old.nodes.capacity }
{
    match find_move(&t.nodes, added, t.nodes.len()) {
        Some(change) => {
            swap_children(&mut t.nodes, change);
            true
        }
        None => false,
    }
}
