ghost use Rattle.std.specs.Prelude.{◌≡◌, ◌≤◌, List, IfOk, None, length};
ghost use Rattle.spec_tree.specs.declared.term.Tree.{Tree as Modelled};
ghost use Rattle.spec_world.specs.declared.world.World.{World as Whole};
ghost use Rattle.base_tables.specs.SlotTables.{slot_table};
ghost use Rattle.spec_run.specs.Drivers.{DriverState};
ghost use Rattle.spec_tree.specs.Terms.{leaf_ids};
ghost use Rattle.base_tables.specs.Runnable.{IsRunnable};
ghost use Rattle.spec_world.specs.Runnable.{IsRunnableWorld};
ghost use Rattle.run_arena.specs.Joining.{Joins};
ghost use Rattle.spec_run.specs.Joins.{first_missing};
ghost use Rattle.run_loop.specs.Opening.{AreOpening, AreOpeningRuns, IsOpening};

use crate::runs::{ReadyRunner, Runs};
use base_texts::{NoMemory, Stop};
use run_arena::{IndexedWorld, arena_after, arena_of, first_arena_of};
use run_driver::{Drivers, facts_of};
use spec_run::JoinFault;
use spec_tree::Tree;
use spec_world::World;
use std::alloc::Global;
use tree_board::{Slots, board_of};

/// The first runner before the first event. The fault is what is missing for the first leaf for
/// which something is missing.
fn first_runner<D: Drivers>(
    alloc: Global,
    tree: &Tree,
    slots: &Slots,
    world: &IndexedWorld,
    drivers: &D,
) -> Result<ReadyRunner, Stop<JoinFault>>
    requires tree { IsRunnable tree.now }
    requires slots { slots.now ≡ slot_table tree.now }
    requires world { IsRunnableWorld world.now }
    ensures fault { Joins result (first_missing world.now.rows (D.states drivers.now) (leaf_ids tree.now.term)) }
    ensures runner { IfOk result (λ runner. IsOpening tree.now world.now (D.states drivers.now) 1 runner) }
{
    let arena = arena_of(alloc, tree, slots, world, drivers)?;
    let board = board_of(alloc, tree, slots)?;
    Ok(ReadyRunner { arena, board })
}

/// The runner of this number before the first event, made of the first one, or want of memory.
fn runner_after<D: Drivers>(
    alloc: Global,
    tree: &Tree,
    slots: &Slots,
    first: &ReadyRunner,
    drivers: &D,
    number: u8,
) -> Result<ReadyRunner, NoMemory>
    requires tree { IsRunnable tree.now }
    requires slots { slots.now ≡ slot_table tree.now }
    requires number { 1 ≤ number }
    requires first { (world : Whole) × IsOpening tree.now world (D.states drivers.now) 1 first.now }
    ensures { (world : Whole) → IsOpening tree.now world (D.states drivers.now) 1 first.now →
        IfOk result (λ runner. IsOpening tree.now world (D.states drivers.now) number runner) }
{
    let arena = arena_after(alloc, tree, &first.arena, drivers, number)?;
    let board = board_of(alloc, tree, slots)?;
    Ok(ReadyRunner { arena, board })
}

/// The runners of a world before the first event. The fault is what is missing for the first leaf
/// for which something is missing.
fn runners_of<D: Drivers>(
    alloc: Global,
    tree: &Tree,
    slots: &Slots,
    world: &IndexedWorld,
    drivers: &D,
) -> Result<Vec<ReadyRunner>, Stop<JoinFault>>
    requires tree { IsRunnable tree.now }
    requires slots { slots.now ≡ slot_table tree.now }
    requires world { IsRunnableWorld world.now }
    ensures fault { Joins result (first_missing world.now.rows (D.states drivers.now) (leaf_ids tree.now.term)) }
    ensures many { IfOk result (λ runners. length runners.items ≡ world.now.runners) }
    ensures runners { IfOk result (λ runners. AreOpening tree.now world.now (D.states drivers.now) runners.items) }
{
    let first = first_runner(alloc, tree, slots, world, drivers)?;
    let mut runners = Vec::new(alloc);
    runners.push(first)?;
    for before in 1..world.world().runners {
        let runner = runner_after(alloc, tree, slots, &runners[0], drivers, before + 1)?;
        runners.push(runner)?;
    }
    Ok(runners)
}

/// The runs of all runners of a world before the first event, or want of memory.
fn runs_with(alloc: Global, world: &World, runners: Vec<ReadyRunner>) -> Result<Runs, NoMemory>
    requires { length runners.items ≡ world.now.runners }
    ensures { (tree : Modelled) (drivers : List DriverState) → AreOpening tree world.now drivers runners.items →
        IfOk result (AreOpeningRuns tree world.now drivers) }
{
    let facts = facts_of(alloc, world)?;
    let told = facts.list().to_vec(alloc)?;
    Ok(Runs {
        runners,
        facts,
        told,
        last: 0,
        usable: true,
    })
}

/// The runs of a tree in a world before the first event, for drivers that are still to be prepared.
/// The fault is what is missing for the first leaf for which something is missing.
pub fn opening_runs<D: Drivers>(
    alloc: Global,
    tree: &Tree,
    slots: &Slots,
    world: &IndexedWorld,
    drivers: &D,
) -> Result<Runs, Stop<JoinFault>>
    requires tree { IsRunnable tree.now }
    requires slots { slots.now ≡ slot_table tree.now }
    requires world { IsRunnableWorld world.now }
    ensures fault { Joins result (first_missing world.now.rows (D.states drivers.now) (leaf_ids tree.now.term)) }
    ensures runs { IfOk result (AreOpeningRuns tree.now world.now (D.states drivers.now)) }
{
    let runners = runners_of(alloc, tree, slots, world, drivers)?;
    Ok(runs_with(alloc, world.world(), runners)?)
}

/// The runs of one runner before the first event, for a tree of which nothing is missing and for
/// drivers that are still to be prepared. The error is want of memory.
pub fn planned_runs<D: Drivers>(
    alloc: Global,
    tree: &Tree,
    slots: &Slots,
    world: &IndexedWorld,
    drivers: &D,
) -> Result<Runs, NoMemory>
    requires tree { IsRunnable tree.now }
    requires slots { slots.now ≡ slot_table tree.now }
    requires world { IsRunnableWorld world.now }
    requires alone { world.now.runners ≡ 1 }
    requires joined { first_missing world.now.rows (D.states drivers.now) (leaf_ids tree.now.term) ≡ None }
    ensures { IfOk result (AreOpeningRuns tree.now world.now (D.states drivers.now)) }
{
    let arena = first_arena_of(alloc, tree, slots, world, drivers)?;
    let board = board_of(alloc, tree, slots)?;
    let mut runners = Vec::new(alloc);
    runners.push(ReadyRunner { arena, board })?;
    runs_with(alloc, world.world(), runners)
}
