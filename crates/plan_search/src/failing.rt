//! The conditions that failed in a tick.

ghost use Rattle.std.specs.Prelude.{◌≡◌, ◌<◌, ◌≤◌, ◌+◌, ◌==◌, ◌^◌, ◌++◌, ◌||◌, ℕ, Option, Some, false, length, max, IfOk, IsTrue, OnOk};
ghost use Rattle.std.specs.List.{filter};
ghost use Rattle.std.specs.Option.{option_map_or, option_to_list};
ghost use Rattle.spec_world.specs.declared.world.World.{World};
ghost use Rattle.spec_plan.specs.Forests.{Forest};
ghost use Rattle.plan_tree.specs.Sizes.{height, size};
ghost use Rattle.plan_tree.specs.Stands.{Stands, StandsFor};
ghost use Rattle.spec_plan.specs.Failing.{at_level, breadth_first, failed, has_failed, is_failure_of, levels, places_from, spots_from};
ghost use Rattle.plan_search.specs.Marked.{is_marked, marked_place};

use base_texts::NoMemory;
use plan_tree::{Node, PlanTree};
use slab::Slab;
use spec_plan::{Part, Place, Spot};
use spec_run::{Answer, Note};
use std::alloc::Global;

/// The number of the node that answered FAILURE by this note.
fn failure_of(note: &Note) -> Option<u32>
    ensures { (uid : ℕ) → is_failure_of uid note.now ≡ option_map_or (λ own. own == uid) result false }
{
    match note {
        Note::Started {
            uid,
            answer: Answer::Failure,
        } => Some(*uid),
        Note::Ran {
            uid,
            answer: Answer::Failure,
        } => Some(*uid),
        _ => None,
    }
}

/// Marks the node that answered FAILURE by this note, if one did.
fn mark_failure(marks: &mut Vec<bool>, note: &Note)
    ensures many { length marks.new.items ≡ length marks.old.items }
    ensures marks { (uid : ℕ) → uid < length marks.old.items →
        is_marked marks.new.items uid ≡ (is_marked marks.old.items uid || is_failure_of uid note.now) }
{
    if let Some(uid) = failure_of(note) {
        if (uid as usize) < marks.len() {
            marks[uid as usize] = true;
        }
    }
}

/// Marks the nodes that answered FAILURE, by their number, of so many nodes.
fn failures(alloc: Global, notes: &[Note], nodes: usize) -> Result<Vec<bool>, NoMemory>
    requires { nodes < 2 ^ 32 }
    ensures many { IfOk result (λ marks. length marks.items ≡ nodes + 1) }
    ensures marks { IfOk result (λ marks. (uid : ℕ) → uid ≤ nodes → is_marked marks.items uid ≡ has_failed notes.now uid) }
{
    let mut marks = vec![in alloc; false; nodes + 1]?;
    for note in notes {
        mark_failure(&mut marks, note);
    }
    Ok(marks)
}

/// Lists the nodes of some trees in pre-order, of which the first stand on this level. There are at
/// most so many levels from it on.
fn list_spots(
    nodes: &Slab<Node>,
    keys: &[usize],
    level: u32,
    levels: usize,
    spots: &mut Vec<Spot>,
) -> Result<(), NoMemory>
    requires { level + levels < 2 ^ 32 }
    ensures { (parent : Option ℕ) (f : Forest) → Stands nodes.now parent keys.now f → height f ≤ levels →
        OnOk result (spots.new.items ≡ spots.old.items ++ spots_from level f) }
{
    if levels == 0 {
        return Ok(());
    }
    for key in keys {
        let Some(node) = nodes.get(*key) else {
            continue;
        };
        spots.push(Spot {
            key: *key,
            part: node.part,
            level,
        })?;
        // More than half of the nodes have no children, and cost no call.
        if node.children.is_empty() {
            continue;
        }
        list_spots(nodes, &node.children, level + 1, levels - 1, spots)?;
    }
    Ok(())
}

/// A node of this number, where it is a condition and is marked.
fn marked_place(spot: &Spot, uid: u32, marks: &[bool]) -> Option<Place>
    requires { uid < length marks.now }
    ensures { result ≡ marked_place marks.now uid spot.now }
{
    match spot.part {
        Part::Condition(row) if marks[uid as usize] => Some(Place {
            key: spot.key,
            uid,
            row,
            level: spot.level,
        }),
        _ => None,
    }
}

/// Adds a node of this number to others, where it is a condition and is marked.
fn add_marked(
    spot: &Spot,
    uid: u32,
    marks: &[bool],
    places: &mut Vec<Place>,
) -> Result<(), NoMemory>
    requires { uid < length marks.now }
    ensures { OnOk result (places.new.items ≡ places.old.items ++ option_to_list (marked_place marks.now uid spot.now)) }
{
    if let Some(place) = marked_place(spot, uid, marks) {
        places.push(place)?;
    }
    Ok(())
}

/// The conditions among the nodes of a tree in pre-order that are marked.
fn marked_places(alloc: Global, spots: &[Spot], marks: &[bool]) -> Result<Vec<Place>, NoMemory>
    requires few { length spots.now + 1 < 2 ^ 32 }
    requires marks { length marks.now ≡ length spots.now + 1 }
    ensures { IfOk result (λ places. places.items ≡ filter (λ c. is_marked marks.now c.uid) (places_from 1 spots.now)) }
{
    let mut places = Vec::new(alloc);
    for (index, spot) in spots.iter().enumerate() {
        add_marked(spot, index as u32 + 1, marks, &mut places)?;
    }
    Ok(places)
}

/// The levels down to this one, where there are so many or more.
fn deeper(levels: usize, level: u32) -> usize
    ensures { result ≡ max levels (level + 1) }
{
    let own = level as usize + 1;
    if levels < own { own } else { levels }
}

/// How many levels there are down to the deepest of some conditions.
fn levels(places: &[Place]) -> usize
    ensures { result ≡ levels places.now }
{
    let mut deepest = 0usize;
    for place in places {
        deepest = deeper(deepest, place.level);
    }
    deepest
}

/// Adds the conditions of this level to others.
fn add_level(places: &[Place], level: usize, ordered: &mut Vec<Place>) -> Result<(), NoMemory>
    ensures { OnOk result (ordered.new.items ≡ ordered.old.items ++ at_level places.now level) }
{
    for place in places {
        if place.level as usize == level {
            ordered.push(*place)?;
        }
    }
    Ok(())
}

/// Whether the levels never fall: then conditions are in breadth-first order already.
fn are_ordered(places: &[Place]) -> bool
    ensures { IsTrue result → breadth_first places.now ≡ places.now }
{
    let mut level = 0;
    for place in places {
        if place.level < level {
            return false;
        }
        level = place.level;
    }
    true
}

/// Conditions in breadth-first order, where they were in pre-order.
fn breadth_first(alloc: Global, places: &[Place]) -> Result<Vec<Place>, NoMemory>
    ensures { IfOk result (λ ordered. ordered.items ≡ breadth_first places.now) }
{
    if are_ordered(places) {
        return Ok(Vec::from_slice(alloc, places)?);
    }
    let mut ordered = Vec::with_capacity(alloc, places.len())?;
    for level in 0..levels(places) {
        add_level(places, level, &mut ordered)?;
    }
    Ok(ordered)
}

/// The conditions of a plan tree that answered FAILURE by these notes, in breadth-first order.
pub fn failed(alloc: Global, t: &PlanTree, notes: &[Note]) -> Result<Vec<Place>, NoMemory>
    requires { (world : World) × (tree : Forest) × StandsFor t.now world tree × (size tree + 1 < 2 ^ 32) }
    ensures { IfOk result (λ places. (world : World) (tree : Forest) → StandsFor t.now world tree → places.items ≡ failed tree notes.now) }
{
    let nodes = t.nodes.len();
    let marks = failures(alloc, notes, nodes)?;
    let mut spots = Vec::with_capacity(alloc, nodes)?;
    list_spots(&t.nodes, &[t.root], 0, nodes, &mut spots)?;
    let places = marked_places(alloc, spots.as_slice(), marks.as_slice())?;
    breadth_first(alloc, places.as_slice())
}
