ghost use Rattle.std.specs.Prelude.{◌≡◌, ◌<◌, ◌+◌, ◌*◌, ◌^◌, ℕ, List, true, false, IfOk, Some, length, slice_index_or};
ghost use Rattle.spec_tree.specs.declared.term.Tree.{Tree};
ghost use Rattle.spec_world.specs.declared.world.World.{World};
ghost use Rattle.spec_run.specs.Drivers.{DriverState};
ghost use Rattle.base_tables.specs.Runnable.{IsRunnable};
ghost use Rattle.spec_world.specs.Runnable.{IsRunnableWorld};
ghost use Rattle.run_arena.specs.declared.nodes.ReadyLeaf.{ReadyLeaf};
ghost use Rattle.run_arena.specs.Nodes.{leaf_at};
ghost use Rattle.run_arena.specs.Rosters.{is_served_at, served};
ghost use Rattle.run_loop.specs.Opening.{AreOpeningRuns};
ghost use Rattle.run_loop.specs.Runs.{AreRuns, arenas_of, leaves_of};
ghost use Rattle.spec_run.specs.Served.{Setup, instances_wanted};

use crate::runs::Runs;
use base_texts::NoMemory;
use run_arena::{Node, leaf_count};
use run_driver::Drivers;
use std::alloc::Global;

/// How many leaves all runners have together: a block needs room for one note more.
pub fn leaves(runs: &Runs) -> usize
    ghost of: { Setup }
    requires tree { IsRunnable of.tree }
    requires world { IsRunnableWorld of.world }
    requires runs { (drivers : List DriverState) × AreRuns of.tree of.world drivers runs.now }
    ensures { result ≡ leaves_of (arenas_of runs.now) }
{
    let mut count = 0usize;
    for runner in &runs.runners {
        count += leaf_count(runner.arena.nodes.as_slice()) as usize;
    }
    count
}

/// Counts the instances that this many runners need for a node, where it is a leaf.
fn count_leaf(counts: &mut Vec<u32>, node: &Node, runners: u32)
    requires driver { (leaf : ReadyLeaf) → node.now.leaf ≡ Some leaf → leaf.driver < length counts.old.items }
    requires room { (leaf : ReadyLeaf) → node.now.leaf ≡ Some leaf →
        slice_index_or counts.old.items leaf.driver 0 + runners < 2 ^ 32 }
    ensures many { length counts.new.items ≡ length counts.old.items }
    ensures own { (place : ℕ) → is_served_at place node.now.leaf ≡ true →
        slice_index_or counts.new.items place 0 ≡ slice_index_or counts.old.items place 0 + runners }
    ensures other { (place : ℕ) → is_served_at place node.now.leaf ≡ false →
        slice_index_or counts.new.items place 0 ≡ slice_index_or counts.old.items place 0 }
{
    if let Some(leaf) = &node.leaf {
        counts[leaf.driver] += runners;
    }
}

/// For each driver, how many instances this many runners need of it, each with these nodes. The
/// error is want of memory (out of memory).
fn counts_of<D: Drivers>(
    alloc: Global,
    nodes: &[Node],
    runners: u32,
    drivers: &D,
) -> Result<Vec<u32>, NoMemory>
    requires nodes { length nodes.now < 2 ^ 16 }
    requires runners { runners < 2 ^ 16 }
    requires served { (uid : ℕ) (leaf : ReadyLeaf) → leaf_at nodes.now uid ≡ Some leaf →
        leaf.driver < length (D.states drivers.now) }
    ensures many { IfOk result (λ counts. length counts.items ≡ length (D.states drivers.now)) }
    ensures counts { IfOk result (λ counts. (place : ℕ) → place < length (D.states drivers.now) →
        slice_index_or counts.items place 0 ≡ runners * served place nodes.now) }
{
    let mut counts = vec![in alloc; 0u32; drivers.count()]?;
    for node in nodes {
        count_leaf(&mut counts, node, runners);
    }
    Ok(counts)
}

/// For each driver, how many instances the runners of these runs need of it, or want of memory.
pub fn wanted<D: Drivers>(alloc: Global, runs: &Runs, drivers: &D) -> Result<Vec<u32>, NoMemory>
    requires { (tree : Tree) × (world : World) × IsRunnable tree × IsRunnableWorld world
        × AreOpeningRuns tree world (D.states drivers.now) runs.now }
    ensures { (tree : Tree) (world : World) → AreOpeningRuns tree world (D.states drivers.now) runs.now →
        IfOk result (λ counts. counts.items ≡ instances_wanted tree world (D.states drivers.now)) }
{
    let nodes = runs.runners[0].arena.nodes.as_slice();
    counts_of(alloc, nodes, runs.runners.len() as u32, drivers)
}
