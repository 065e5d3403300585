//! The first conflict of a plan tree.

ghost use Rattle.std.specs.Prelude.{◌≡◌, ◌≤◌, ℕ, Option, Some, [], ◌∷◌, length, option_map, slice_get, is_some, IsSome, IsTrue};
ghost use Rattle.std.specs.List.{find};
ghost use Rattle.slab.specs.Slab.{get};
ghost use Rattle.spec_world.specs.declared.world.World.{World};
ghost use Rattle.plan_tree.specs.declared.node.Node.{Node};
ghost use Rattle.spec_plan.specs.Forests.{Forest, Place, place_of, times};
ghost use Rattle.plan_tree.specs.Sizes.{height};
ghost use Rattle.plan_tree.specs.Growth.{rule_effects};
ghost use Rattle.plan_tree.specs.Stands.{StandsFor};
ghost use Rattle.spec_plan.specs.Conflicts.{actions, conflicts, conflicts_of, heads_before, outer_of, own_actions};
ghost use Rattle.plan_reorder.specs.Looked.{first_threat, keys_before, rule_threatens, threat_at, threat_in};
ghost use Rattle.plan_reorder.specs.Reads.{AreRead, IsPlaced};

use crate::heads::head_at;
use crate::raising::{is_sequence, parent_of, place_among};
use crate::reads::{PLACES, Read, add_head, touches};
use plan_tree::{Node, PlanTree, Rule, part_of, threatens};
use spec_plan::Part;
use spec_world::Set;

/// The effects of the action of this row.
pub(crate) fn effects_of(rules: &[Rule], row: u32) -> &[Set]
    ensures { result.now ≡ rule_effects rules.now row }
{
    match rules.get(row as usize) {
        Some(rule) => rule.effects.list(),
        None => &[],
    }
}

/// Whether the action of the first row may turn the condition of the second one false.
fn row_threatens(rules: &[Rule], action: u32, condition: u32) -> bool
    ensures { result ≡ rule_threatens rules.now action condition }
{
    match rules.get(condition as usize) {
        Some(rule) => match &rule.test {
            Some(test) => threatens(effects_of(rules, action), test),
            None => false,
        },
        None => false,
    }
}

/// The head of a sequence's child, where the action of this row threatens it.
fn threat_at(t: &PlanTree, action: u32, key: usize) -> Option<usize>
    ensures { result ≡ threat_at t.now.rules t.now.nodes action key }
{
    let head = head_at(&t.nodes, key)?;
    if row_threatens(t.rules.list(), action, head.row) {
        Some(head.key)
    } else {
        None
    }
}

/// The first head of some children that the action of this row threatens.
fn first_threat(t: &PlanTree, action: u32, keys: &[usize]) -> Option<usize>
    ensures { result ≡ first_threat t.now.rules t.now.nodes action keys.now }
{
    for key in keys {
        if let Some(head) = threat_at(t, action, *key) {
            return Some(head);
        }
    }
    None
}

/// The keys before this one.
fn keys_before(keys: &[usize], key: usize) -> &[usize]
    ensures { result.now ≡ keys_before key keys.now }
{
    match place_among(keys, key) {
        Some(place) => &keys[..place],
        None => keys,
    }
}

/// The first head before a child of a sequence that the action of this row threatens.
fn threat_in(t: &PlanTree, action: u32, parent: usize, key: usize) -> Option<usize>
    ensures { (node : Node) → get t.now.nodes parent ≡ Some node → result ≡ threat_in t.now.rules t.now.nodes action key node }
{
    let node = t.nodes.get(parent)?;
    if is_sequence(node.part) {
        first_threat(t, action, keys_before(&node.children, key))
    } else {
        None
    }
}

/// The first head before a node, in the sequences above it from outside inwards, that the action of
/// this row threatens. There are at most so many nodes above it.
fn threat_above(t: &PlanTree, action: u32, key: usize, levels: usize) -> Option<usize>
    ensures { (world : World) (tree : Forest) (place : Place) → StandsFor t.now world tree → place_of key tree ≡ Some place →
        length place.above ≤ levels →
        result ≡ option_map (λ head. head.key) (find (λ head. rule_threatens t.now.rules action head.row) (heads_before place.above)) }
{
    if levels == 0 {
        return None;
    }
    let Some(parent) = parent_of(&t.nodes, key) else {
        return None;
    };
    match threat_above(t, action, parent, levels - 1) {
        Some(head) => Some(head),
        None => threat_in(t, action, parent, key),
    }
}

/// The first conflict of the action of this key and row.
fn own_conflict(t: &PlanTree, action: u32, key: usize) -> Option<(usize, usize)>
    ensures { (world : World) (tree : Forest) (place : Place) → StandsFor t.now world tree → place_of key tree ≡ Some place →
        result ≡ slice_get (conflicts_of world.rows tree (record { key = key; row = action } ∷ [])) 0 }
{
    let Some(parent) = parent_of(&t.nodes, key) else {
        return None;
    };
    match threat_above(t, action, parent, t.nodes.len()) {
        Some(head) => Some((key, head)),
        None => None,
    }
}

/// The first conflict of the action of this key and row, where `read` has every fact that a head before
/// it reads, in the sequences above its own. An action that touches none of these facts has none.
fn action_conflict(t: &PlanTree, action: u32, key: usize, read: &Read) -> Option<(usize, usize)>
    ensures { (world : World) (tree : Forest) (place : Place) → StandsFor t.now world tree → place_of key tree ≡ Some place →
        AreRead t.now.rules read.now (heads_before (outer_of place.above)) →
        result ≡ slice_get (conflicts_of world.rows tree (record { key = key; row = action } ∷ [])) 0 }
{
    if touches(effects_of(t.rules.list(), action), read) {
        own_conflict(t, action, key)
    } else {
        None
    }
}

/// The first conflict below a node, where there are at most so many levels. `read` has every fact that
/// a head reads before the node.
#[cycle(walk)]
fn conflict_in(t: &PlanTree, node: &Node, levels: usize, read: &Read) -> Option<(usize, usize)>
    ensures { (world : World) (tree : Forest) (key : ℕ) (place : Place) (below : Forest) →
        IsPlaced t.now world tree key place node.now below →
        height below ≤ levels → AreRead t.now.rules read.now (heads_before place.above) →
        result ≡ slice_get (conflicts_of world.rows tree (actions below)) 0 }
{
    if levels == 0 {
        return None;
    }
    let keys = node.children.as_slice();
    if keys.is_empty() {
        return None;
    }
    let mut within = *read;
    for key in keys {
        if let Some(pair) = conflict_at(t, *key, levels - 1, read, &within) {
            return Some(pair);
        }
        add_head(t, node.part, *key, &mut within);
    }
    None
}

/// The first conflict in the tree of a node, with at most so many levels below it. `read` has every
/// fact that a head reads before the node, and `outer` those before the sequence in which it stands.
#[cycle(walk)]
fn conflict_at(
    t: &PlanTree,
    key: usize,
    levels: usize,
    outer: &Read,
    read: &Read,
) -> Option<(usize, usize)>
    ensures { (world : World) (tree : Forest) (place : Place) (node : Node) (below : Forest) →
        IsPlaced t.now world tree key place node below →
        height below ≤ levels → AreRead t.now.rules outer.now (heads_before (outer_of place.above)) →
        AreRead t.now.rules read.now (heads_before place.above) →
        result ≡ slice_get (conflicts_of world.rows tree (own_actions key node.part (actions below))) 0 }
{
    let Some(node) = t.nodes.get(key) else {
        return None;
    };
    match node.part {
        Part::Action(row) => action_conflict(t, row, key, outer),
        _ => conflict_in(t, node, levels, read),
    }
}

/// The first conflict of a plan tree: the key of an action, and that of a head that stands before it
/// in a sequence above it, though not in its own, and that it threatens. Conflicts are ordered by
/// the action in pre-order, then by the sequence from outside inwards, then from left to right.
pub fn conflict(t: &PlanTree) -> Option<(usize, usize)>
    ensures { (world : World) (tree : Forest) → StandsFor t.now world tree → result ≡ slice_get (conflicts world.rows tree) 0 }
{
    let none = [false; PLACES];
    conflict_at(t, t.root, t.nodes.len(), &none, &none)
}

/// Whether the action of a sequence that was added threatens a head before it, in the sequences above its own: then the
/// tree has a conflict.
fn is_threat(t: &PlanTree, sequence: usize) -> bool
    ensures { IsTrue result → (world : World) (tree : Forest) → StandsFor t.now world tree → 1 ≤ times sequence tree →
        IsSome (slice_get (conflicts world.rows tree) 0) }
{
    let Some(node) = t.nodes.get(sequence) else {
        return false;
    };
    let keys = node.children.as_slice();
    if keys.is_empty() {
        return false;
    }
    let last = keys[keys.len() - 1];
    match part_of(t, last) {
        Some(Part::Action(row)) => own_conflict(t, row, last).is_some(),
        _ => false,
    }
}

/// Whether a plan tree has a conflict. The action of this sequence is looked at first: where the sequence is new, mostly
/// it is what conflicts, and then no other action is looked at.
pub fn has_conflict(t: &PlanTree, sequence: usize) -> bool
    ensures { (world : World) (tree : Forest) → StandsFor t.now world tree → 1 ≤ times sequence tree →
        result ≡ is_some (slice_get (conflicts world.rows tree) 0) }
{
    is_threat(t, sequence) || conflict(t).is_some()
}
