//! The steps that a plan tree grows by, and what each of them tells.

ghost use Rattle.std.specs.Prelude.{◌≢◌, [], IfOk, IfSome};
ghost use Rattle.spec_world.specs.Worlds.{IsValidWorld};
ghost use Rattle.test_plans.specs.Stages.{HasCondition, HasKey, HasSequence, IsPlan};

use base_texts::{NoMemory, Stop};
use plan_reorder::{conflict, raise};
use plan_tree::{PlanTree, expand, key_of, part_of, plan_tree_of, tree_of};
use spec_plan::Part;
use spec_tree::Tree;
use spec_world::World;
use std::alloc::Global;

/// What is done to a plan tree. Each step tells a line.
#[derive(Clone, Copy)]
pub enum Step {
    /// Expands the condition of this number.
    Expand(u32),
    /// Raises the sequence of this number.
    Raise(u32),
    /// Looks for the first conflict.
    Conflict,
}

/// A plan tree, and how many sequences were added to it.
#[derive(Drop)]
struct Growing {
    tree: PlanTree,
    added: u32,
}

/// The ID of a row.
fn id_of(world: &World, row: u32) -> &str {
    match world.rows.list().get(row as usize) {
        Some(row) => str::from_utf8(row.id.list()).unwrap_or("?"),
        None => "?",
    }
}

/// The ID of the row of the node of this key.
fn name_of<'a>(t: &PlanTree, world: &'a World, key: usize) -> &'a str {
    match part_of(t, key) {
        Some(Part::Sequence(row) | Part::Condition(row) | Part::Action(row)) => id_of(world, row),
        _ => "?",
    }
}

/// The key of this number, if the tree has so many nodes.
fn key_at(growing: &Growing, world: &World, uid: u32) -> Option<usize>
    requires { IsPlan world.now growing.now.tree growing.now.added }
    ensures { IfSome result (HasKey world.now growing.now.tree) }
{
    if uid == 0 || uid as usize > growing.tree.nodes.len() {
        return None;
    }
    Some(key_of(&growing.tree, uid))
}

/// The key of this number, if it is that of a condition.
fn condition_at(growing: &Growing, world: &World, uid: u32) -> Option<usize>
    requires { IsPlan world.now growing.now.tree growing.now.added }
    ensures { IfSome result (HasCondition world.now growing.now.tree) }
{
    let key = key_at(growing, world, uid)?;
    match part_of(&growing.tree, key) {
        Some(Part::Condition(_)) => Some(key),
        _ => None,
    }
}

/// The key of this number, if it is that of a sequence that was added.
fn sequence_at(growing: &Growing, world: &World, uid: u32) -> Option<usize>
    requires { IsPlan world.now growing.now.tree growing.now.added }
    ensures { IfSome result (HasSequence world.now growing.now.tree) }
{
    let key = key_at(growing, world, uid)?;
    match part_of(&growing.tree, key) {
        Some(Part::Sequence(_)) => Some(key),
        _ => None,
    }
}

/// Expands the condition of this key, and tells whose sequence was added. Where 120 were added
/// before, it answers want of memory.
fn tell_expansion(
    alloc: Global,
    growing: &mut Growing,
    world: &World,
    key: usize,
    told: &mut String,
) -> Result<(), NoMemory>
    requires plan { IsPlan world.now growing.old.tree growing.old.added }
    requires condition { HasCondition world.now growing.old.tree key }
    ensures { IfOk result (λ _. IsPlan world.now growing.new.tree growing.new.added) }
{
    if growing.added >= 120 {
        return Err(NoMemory);
    }
    match expand(alloc, &mut growing.tree, key) {
        Ok(added) => {
            growing.added += 1;
            let id = name_of(&growing.tree, world, added);
            writeln!(told, "expand {id}")?;
        }
        Err(Stop::Fault(_)) => told.push_str("untried\n")?,
        Err(Stop::NoMemory) => return Err(NoMemory),
    }
    Ok(())
}

/// Raises the sequence of this key, and tells whether it was moved.
fn tell_raise(
    growing: &mut Growing,
    world: &World,
    key: usize,
    told: &mut String,
) -> Result<(), NoMemory>
    requires plan { IsPlan world.now growing.old.tree growing.old.added }
    requires sequence { HasSequence world.now growing.old.tree key }
    ensures { IfOk result (λ _. IsPlan world.now growing.new.tree growing.new.added) }
{
    let text = if raise(&mut growing.tree, key) {
        "raised\n"
    } else {
        "not raised\n"
    };
    told.push_str(text)?;
    Ok(())
}

/// Tells the first conflict.
fn tell_conflict(t: &PlanTree, world: &World, told: &mut String) -> Result<(), NoMemory> {
    match conflict(t) {
        Some((action, head)) => {
            let action = name_of(t, world, action);
            let head = name_of(t, world, head);
            writeln!(told, "conflict {action} {head}")?;
        }
        None => told.push_str("no conflict\n")?,
    }
    Ok(())
}

/// Takes one step.
fn take(
    alloc: Global,
    growing: &mut Growing,
    world: &World,
    step: Step,
    told: &mut String,
) -> Result<(), NoMemory>
    requires { IsPlan world.now growing.old.tree growing.old.added }
    ensures { IfOk result (λ _. IsPlan world.now growing.new.tree growing.new.added) }
{
    match step {
        Step::Expand(uid) => match condition_at(growing, world, uid) {
            Some(key) => tell_expansion(alloc, growing, world, key, told)?,
            None => told.push_str("no such condition\n")?,
        },
        Step::Raise(uid) => match sequence_at(growing, world, uid) {
            Some(key) => tell_raise(growing, world, key, told)?,
            None => told.push_str("no such sequence\n")?,
        },
        Step::Conflict => tell_conflict(&growing.tree, world, told)?,
    }
    Ok(())
}

/// What all nodes are, each with its key.
fn parts_of(alloc: Global, t: &PlanTree) -> Result<Vec<(usize, Part)>, NoMemory> {
    let mut parts = Vec::new(alloc);
    for (key, node) in t.nodes.iter() {
        parts.push((key, node.part))?;
    }
    Ok(parts)
}

/// Whether each of these keys still names such a node.
fn are_kept(t: &PlanTree, parts: &[(usize, Part)]) -> bool {
    parts
        .iter()
        .all(|(key, part)| part_of(t, *key) == Some(*part))
}

/// Takes one step, and tells where a key does not name what it named.
fn take_kept(
    alloc: Global,
    growing: &mut Growing,
    world: &World,
    step: Step,
    told: &mut String,
) -> Result<(), NoMemory>
    requires { IsPlan world.now growing.old.tree growing.old.added }
    ensures { IfOk result (λ _. IsPlan world.now growing.new.tree growing.new.added) }
{
    let parts = parts_of(alloc, &growing.tree)?;
    take(alloc, growing, world, step, told)?;
    if !are_kept(&growing.tree, parts.as_slice()) {
        told.push_str("a key names another node\n")?;
    }
    Ok(())
}

/// The behavior tree after all steps over a world that has a goal, which tell their lines.
pub fn grown(
    alloc: Global,
    world: &World,
    steps: &[Step],
    told: &mut String,
) -> Result<Tree, NoMemory>
    requires valid { IsValidWorld world.now }
    requires goal { world.now.goals ≢ [] }
{
    let mut growing = Growing {
        tree: plan_tree_of(alloc, world)?,
        added: 0,
    };
    for step in steps {
        take_kept(alloc, &mut growing, world, *step, told)?;
    }
    tree_of(alloc, &growing.tree, world)
}
