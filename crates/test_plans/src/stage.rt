//! Plan trees over the worlds of scripts, grown step by step and printed.

ghost use Rattle.std.specs.Prelude.{◌≢◌, []};
ghost use Rattle.spec_world.specs.Worlds.{IsValidWorld};

use crate::steps::{Step, grown};
use base_outside::SureSink;
use base_texts::NoMemory;
use spec_tree::Tree;
use spec_world::World;
use std::alloc::Global;
use std::process::Abort;
use text_lines::write_tree;
use world_reader::read_world;

/// A world script, the steps over its plan tree, and what they tell, with the tree at the end.
pub struct Row {
    pub world: &'static str,
    pub steps: &'static [Step],
    pub want: &'static str,
}

/// Prints a tree.
fn print(alloc: Global, tree: &Tree, told: &mut String) -> Result<(), NoMemory> {
    let mut sink = SureSink::new(alloc);
    if write_tree(alloc, &mut sink, tree).is_err() {
        return Err(NoMemory);
    }
    told.push_str(str::from_utf8(sink.list()).unwrap_or("?"))?;
    Ok(())
}

/// What the steps tell over a world that has a goal, and the tree after them.
fn told_of(alloc: Global, world: &World, steps: &[Step]) -> Result<String, NoMemory>
    requires valid { IsValidWorld world.now }
    requires goal { world.now.goals ≢ [] }
{
    let mut told = String::new(alloc);
    let tree = grown(alloc, world, steps, &mut told)?;
    print(alloc, &tree, &mut told)?;
    Ok(told)
}

/// What the steps tell over the world of a script.
fn told(alloc: Global, script: &str, steps: &[Step]) -> Result<String, NoMemory> {
    if script.len() > 1_048_576 {
        return Err(NoMemory);
    }
    match read_world(alloc, script.as_bytes()) {
        Ok(world) if !world.goals.list().is_empty() => told_of(alloc, &world, steps),
        _ => Err(NoMemory),
    }
}

/// Compares what is told with what is wanted.
pub fn compare(rt: &impl Abort, alloc: Global, rows: &[&Row]) -> Result<(), NoMemory> {
    for row in rows {
        assert_eq!(rt; told(alloc, row.world, row.steps)?.as_str(), row.want);
    }
    Ok(())
}
