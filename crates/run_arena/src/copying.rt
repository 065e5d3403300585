ghost use Rattle.std.specs.Prelude.{◌≡◌, ◌<◌, ◌≤◌, ◌+◌, ◌*◌, ℕ, IfOk, OnOk, Some, length, map, replicate, slice_index_or};
ghost use Rattle.spec_world.specs.declared.world.World.{World};
ghost use Rattle.base_tables.specs.Runnable.{IsRunnable};
ghost use Rattle.run_arena.specs.declared.nodes.ReadyLeaf.{ReadyLeaf as Readied};
ghost use Rattle.run_arena.specs.Copying.{leaf_moved, node_moved};
ghost use Rattle.run_arena.specs.Laying.{driver_of, next_after};
ghost use Rattle.run_arena.specs.Made.{IsArenaOf};
ghost use Rattle.run_arena.specs.Nodes.{leaf_at};
ghost use Rattle.run_arena.specs.Rows.{counted_at};

use crate::arena::Arena;
use crate::frame::frames_for;
use crate::joining::at_rest;
use crate::leaves::next_instance;
use crate::nodes::{Node, ReadyLeaf};
use crate::source::Source;
use base_texts::{Items, NoMemory};
use run_driver::Drivers;
use script_code::Code;
use spec_tree::Tree;
use std::alloc::Global;

/// Counts a node at its driver, where it is a leaf. The error is want of memory: there would be 2^32 of them.
fn count_leaf(counts: &mut [u32], node: &Node) -> Result<(), NoMemory>
    requires { (leaf : Readied) → node.now.leaf ≡ Some leaf → leaf.driver < length counts.old }
    ensures { OnOk result (counts.new ≡ counted_at (driver_of node.now.leaf) counts.old) }
{
    match &node.leaf {
        Some(leaf) => {
            next_instance(counts, leaf.driver)?;
            Ok(())
        }
        None => Ok(()),
    }
}

/// How many leaves of these nodes each driver of a roster of so many serves. The error is want of memory.
fn counts_in(alloc: Global, nodes: &[Node], drivers: usize) -> Result<Vec<u32>, NoMemory>
    requires { (uid : ℕ) (leaf : Readied) → leaf_at nodes.now uid ≡ Some leaf → leaf.driver < drivers }
    ensures { IfOk result (λ counts. counts.items ≡ next_after nodes.now (replicate drivers 0)) }
{
    let mut counts = vec![in alloc; 0u32; drivers]?;
    for node in nodes {
        count_leaf(&mut counts, node)?;
    }
    Ok(counts)
}

/// How many leaves a driver serves, by these counts.
fn count_at(counts: &[u32], driver: usize) -> u32
    ensures { result ≡ slice_index_or counts.now driver 0 }
{
    match counts.get(driver) {
        Some(count) => *count,
        None => 0,
    }
}

/// The number of an instance after those of `before` runners, each of which has `count` of them. The error is want of
/// memory: there would be 2^32 of them.
fn instance_after(instance: u32, count: u32, before: u32) -> Result<u32, NoMemory>
    ensures { IfOk result (λ moved. moved ≡ instance + before * count) }
{
    match before.checked_mul(count) {
        Some(more) => match instance.checked_add(more) {
            Some(moved) => Ok(moved),
            None => Err(NoMemory),
        },
        None => Err(NoMemory),
    }
}

/// Equal sources. The error is want of memory.
fn copy_sources(alloc: Global, sources: &[Source]) -> Result<Items<Source>, NoMemory>
    ensures { IfOk result (λ copied. copied ≡ sources.now) }
{
    let mut copied = Vec::with_capacity(alloc, sources.len())?;
    for source in sources {
        copied.push(source.copy(alloc)?)?;
    }
    Ok(Items::of(copied))
}

/// The code of a node for one more owner. The error is want of memory.
fn share_code(code: &Option<Code>) -> Result<Option<Code>, NoMemory>
    ensures { IfOk result (λ shared. shared ≡ code.now) }
{
    match code {
        Some(code) => Ok(Some(code.share()?)),
        None => Ok(None),
    }
}

/// A leaf of the first runner for the runner after so many, where each has so many leaves at each driver. The error is
/// want of memory.
fn move_leaf(
    alloc: Global,
    leaf: &Option<ReadyLeaf>,
    counts: &[u32],
    before: u32,
) -> Result<Option<ReadyLeaf>, NoMemory>
    ensures { IfOk result (λ moved. moved ≡ leaf_moved before counts.now leaf.now) }
{
    match leaf {
        Some(leaf) => Ok(Some(ReadyLeaf {
            row: leaf.row.share()?,
            driver: leaf.driver,
            instance: instance_after(leaf.instance, count_at(counts, leaf.driver), before)?,
            inputs: copy_sources(alloc, leaf.inputs.list())?,
            outputs: copy_sources(alloc, leaf.outputs.list())?,
        })),
        None => Ok(None),
    }
}

/// A node of the first runner for the runner after so many, where each has so many leaves at each driver. What is
/// compiled is shared. The error is want of memory.
fn move_node(alloc: Global, node: &Node, counts: &[u32], before: u32) -> Result<Node, NoMemory>
    ensures { IfOk result (λ moved. moved ≡ node_moved before counts.now node.now) }
{
    Ok(Node {
        kind: node.kind,
        size: node.size,
        children: node.children,
        child_uids: node.child_uids.copy(alloc)?,
        code: share_code(&node.code)?,
        guards: node.guards.share()?,
        ports: copy_sources(alloc, node.ports.list())?,
        leaf: move_leaf(alloc, &node.leaf, counts, before)?,
    })
}

/// The nodes of the first runner for the runner after so many, where each has so many leaves at each driver. The error is
/// want of memory.
fn move_nodes(
    alloc: Global,
    nodes: &[Node],
    counts: &[u32],
    before: u32,
) -> Result<Vec<Node>, NoMemory>
    ensures { IfOk result (λ moved. moved.items ≡ map (node_moved before counts.now) nodes.now) }
{
    let mut moved = Vec::with_capacity(alloc, nodes.len())?;
    for node in nodes {
        moved.push(move_node(alloc, node, counts, before)?)?;
    }
    Ok(moved)
}

/// The arena of a runner of this number, made of that of the first one: it is at rest, and its leaves have instances of
/// their own. The code of scripts is shared, so that it is made once for all runners. The error is want of memory.
pub fn arena_after<D: Drivers>(
    alloc: Global,
    tree: &Tree,
    first: &Arena,
    drivers: &D,
    runner: u8,
) -> Result<Arena, NoMemory>
    requires tree { IsRunnable tree.now }
    requires number { 1 ≤ runner }
    requires first { (world : World) × IsArenaOf tree.now world (D.states drivers.now) 1 first.now }
    ensures { (world : World) → IsArenaOf tree.now world (D.states drivers.now) 1 first.now →
        IfOk result (λ arena. IsArenaOf tree.now world (D.states drivers.now) runner arena) }
{
    let before = u32::from(runner) - 1;
    let counts = counts_in(alloc, first.nodes.as_slice(), drivers.count())?;
    let nodes = move_nodes(alloc, first.nodes.as_slice(), counts.as_slice(), before)?;
    let kept = at_rest(alloc, nodes.len())?;
    let frames = frames_for(alloc, &tree.term)?;
    Ok(Arena {
        runner,
        nodes,
        kept,
        frames,
    })
}
