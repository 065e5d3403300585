ghost use Rattle.std.specs.Prelude.{map};
ghost use Rattle.spec_run.specs.Drivers.{NothingHeld};

use crate::ending::{Ending, answer, answer_with};
use crate::files::{shelf_of, shelf_of_rows, tree_of, world_of};
use base_outside::{MemClock, MemShelf, MemSink, Sink};
use base_texts::NoMemory;
use run_driver::Driver;
use spec_program::Exit;
use std::alloc::Global;

/// The words of a run over the files `T` and `W`.
pub const TICK: [&str; 3] = ["tick", "T", "W"];

/// What words write over the files of a shelf, with the exit after it.
pub fn given_by(alloc: Global, words: &[&str], shelf: &mut MemShelf) -> Result<String, NoMemory> {
    let mut sink = MemSink::new(alloc, Vec::new(alloc));
    let mut clock = MemClock::new(Vec::new(alloc));
    let exit = answer(alloc, words, shelf, &mut sink, &mut clock)?.exit;
    let text = str::from_utf8(sink.list()).unwrap_or("?");
    Ok(format!(in alloc; "{text}{exit:?}")?)
}

/// What words write over files of which these reads fail, with the exit after it.
pub fn given(
    alloc: Global,
    words: &[&str],
    tree: &[u8],
    world: &[u8],
    fails: &[u64],
) -> Result<String, NoMemory> {
    let mut shelf = shelf_of(alloc, tree, world, fails)?;
    given_by(alloc, words, &mut shelf)
}

/// What words write over a tree of these nodes and a world of these lines, with the exit after it.
pub fn answered(
    alloc: Global,
    words: &[&str],
    nodes: &str,
    lines: &str,
    fails: &[u64],
) -> Result<String, NoMemory> {
    let tree = tree_of(alloc, nodes)?;
    let world = world_of(alloc, lines)?;
    given(alloc, words, tree.as_bytes(), world.as_bytes(), fails)
}

/// What a run writes, with its exit after it.
pub fn ran(alloc: Global, nodes: &str, lines: &str) -> Result<String, NoMemory> {
    answered(alloc, &TICK, nodes, lines, &[])
}

/// Runs these nodes in a world of these lines with the five drivers of `bt`.
pub fn run(
    alloc: Global,
    nodes: &str,
    lines: &str,
    sink: &mut MemSink,
) -> Result<Ending, NoMemory> {
    let mut shelf = shelf_of_rows(alloc, nodes, lines)?;
    let mut clock = MemClock::new(Vec::new(alloc));
    answer(alloc, &TICK, &mut shelf, sink, &mut clock)
}

/// Runs these nodes in a world of these lines with these drivers.
pub fn run_with<K: Sink>(
    alloc: Global,
    nodes: &str,
    lines: &str,
    sink: &mut K,
    roster: &mut Vec<Box<dyn Driver>>,
) -> Result<Exit, NoMemory>
    requires { NothingHeld (map (λ b. state b) roster.old.items) }
{
    let mut shelf = shelf_of_rows(alloc, nodes, lines)?;
    answer_with(alloc, &TICK, &mut shelf, sink, roster)
}
