ghost use Rattle.std.specs.Prelude.{◌≡◌, Err, IfOk, None, OnErr, map};
ghost use Rattle.base_texts.specs.declared.stop.Stop.TheVariants as stop;
ghost use Rattle.spec_tree.specs.declared.term.Tree.{Tree as Modelled};
ghost use Rattle.spec_world.specs.declared.world.World.{World as Whole};
ghost use Rattle.base_tables.specs.SlotTables.{slot_table};
ghost use Rattle.spec_run.specs.Drivers.{NothingHeld};
ghost use Rattle.spec_tree.specs.Terms.{leaf_ids};
ghost use Rattle.base_tables.specs.Runnable.{IsRunnable};
ghost use Rattle.spec_world.specs.Runnable.{IsRunnableWorld};
ghost use Rattle.spec_run.specs.declared.join_fault.JoinFault.{JoinFault as Lack};
ghost use Rattle.run_arena.specs.Joining.{Joins};
ghost use Rattle.spec_run.specs.Joins.{first_missing};
ghost use Rattle.run_loop.specs.Begun.{AreBegun, ArePartlyPrepared, HaveSameTotals};
ghost use Rattle.run_loop.specs.Opening.{AreOpeningRuns};
ghost use Rattle.spec_run.specs.Rosters.{IsSameRoster};

use crate::boxed::Roster;
use crate::counts::wanted;
use crate::openings::{opening_runs, planned_runs};
use crate::runs::Runs;
use base_texts::{NoMemory, Stop};
use run_arena::{IndexedWorld, index_world};
use run_driver::{Driver, Drivers};
use spec_run::JoinFault;
use spec_tree::Tree;
use spec_world::World;
use std::alloc::Global;
use std::mem;
use tree_board::Slots;

/// Prepares the drivers for runs that were made for them, and gives these runs back. The error is want
/// of memory, and then a prefix of the drivers may be prepared.
fn prepared<D: Drivers>(alloc: Global, runs: Runs, drivers: &mut D) -> Result<Runs, NoMemory>
    requires made { (tree : Modelled) × (world : Whole) × IsRunnable tree × IsRunnableWorld world
        × AreOpeningRuns tree world (D.states drivers.old) runs }
    requires quiet { NothingHeld (D.states drivers.old) }
    ensures begun { (tree : Modelled) (world : Whole) → IsRunnable tree → IsRunnableWorld world →
        AreOpeningRuns tree world (D.states drivers.old) runs →
        IfOk result (AreBegun tree world (D.states drivers.old) (D.states drivers.new)) }
    ensures cut { (tree : Modelled) (world : Whole) → AreOpeningRuns tree world (D.states drivers.old) runs →
        OnErr result (ArePartlyPrepared tree world (D.states drivers.old) (D.states drivers.new)) }
    ensures none { NothingHeld (D.states drivers.new) }
    ensures roster { IsSameRoster (D.states drivers.old) (D.states drivers.new) }
    ensures totals { HaveSameTotals (D.states drivers.old) (D.states drivers.new) }
{
    let counts = wanted(alloc, &runs, drivers)?;
    drivers.prepare(counts.as_slice())?;
    Ok(runs)
}

/// Makes the runs of a tree in a world over any drivers, and prepares the drivers. The fault is
/// what is missing for the first leaf for which something is missing. Where there is want of
/// memory, a prefix of the drivers may be prepared.
pub fn make_runs<D: Drivers>(
    alloc: Global,
    tree: &Tree,
    slots: &Slots,
    world: &World,
    drivers: &mut D,
) -> Result<Runs, Stop<JoinFault>>
    requires tree { IsRunnable tree.now }
    requires slots { slots.now ≡ slot_table tree.now }
    requires world { IsRunnableWorld world.now }
    requires quiet { NothingHeld (D.states drivers.old) }
    ensures fault { Joins result (first_missing world.now.rows (D.states drivers.old) (leaf_ids tree.now.term)) }
    ensures begun { IfOk result (AreBegun tree.now world.now (D.states drivers.old) (D.states drivers.new)) }
    ensures faulted { let before = D.states drivers.old in
        (fault : Lack) → result ≡ Err (stop.Fault fault) → D.states drivers.new ≡ before }
    ensures cut { OnErr result (ArePartlyPrepared tree.now world.now (D.states drivers.old) (D.states drivers.new)) }
    ensures none { NothingHeld (D.states drivers.new) }
    ensures roster { IsSameRoster (D.states drivers.old) (D.states drivers.new) }
    ensures totals { HaveSameTotals (D.states drivers.old) (D.states drivers.new) }
{
    let world = index_world(alloc, world)?;
    let runs = opening_runs(alloc, tree, slots, &world, drivers)?;
    Ok(prepared(alloc, runs, drivers)?)
}

/// As `make_runs`, for one runner and a tree of which nothing is missing, as none is of a tree that was
/// planned in this world, which is indexed once for all its runs. No leaf is looked up before its node
/// is laid. The error is want of memory, and then a prefix of the drivers may be prepared.
pub fn make_planned_runs<D: Drivers>(
    alloc: Global,
    tree: &Tree,
    slots: &Slots,
    world: &IndexedWorld,
    drivers: &mut D,
) -> Result<Runs, NoMemory>
    requires tree { IsRunnable tree.now }
    requires slots { slots.now ≡ slot_table tree.now }
    requires world { IsRunnableWorld world.now }
    requires alone { world.now.runners ≡ 1 }
    requires joined { first_missing world.now.rows (D.states drivers.old) (leaf_ids tree.now.term) ≡ None }
    requires quiet { NothingHeld (D.states drivers.old) }
    ensures begun { IfOk result (AreBegun tree.now world.now (D.states drivers.old) (D.states drivers.new)) }
    ensures cut { OnErr result (ArePartlyPrepared tree.now world.now (D.states drivers.old) (D.states drivers.new)) }
    ensures none { NothingHeld (D.states drivers.new) }
    ensures roster { IsSameRoster (D.states drivers.old) (D.states drivers.new) }
    ensures totals { HaveSameTotals (D.states drivers.old) (D.states drivers.new) }
{
    let runs = planned_runs(alloc, tree, slots, world, drivers)?;
    prepared(alloc, runs, drivers)
}

/// Makes the runs of a tree with its slots in a world: so many runners as the world has, before their
/// first event. The drivers are prepared, each for so many instances as all runners have leaves that it
/// serves, and none was called. The fault is that of the first leaf in pre-order that has no row, or
/// whose row has no driver, and leaves the drivers as they were. Where memory is wanting, the first of
/// them may be prepared.
pub fn runs_of(
    alloc: Global,
    tree: &Tree,
    slots: &Slots,
    world: &World,
    roster: &mut Vec<Box<dyn Driver>>,
) -> Result<Runs, Stop<JoinFault>>
    requires tree { IsRunnable tree.now }
    requires slots { slots.now ≡ slot_table tree.now }
    requires world { IsRunnableWorld world.now }
    requires quiet { NothingHeld (map (λ b. state b) roster.old.items) }
    ensures fault { Joins result (first_missing world.now.rows (map (λ b. state b) roster.old.items) (leaf_ids tree.now.term)) }
    ensures begun { let before = map (λ b. state b) roster.old.items in
        IfOk result (AreBegun tree.now world.now before (map (λ b. state b) roster.new.items)) }
    ensures faulted { let before = map (λ b. state b) roster.old.items in
        (fault : Lack) → result ≡ Err (stop.Fault fault) → map (λ b. state b) roster.new.items ≡ before }
    ensures cut { let before = map (λ b. state b) roster.old.items in
        OnErr result (ArePartlyPrepared tree.now world.now before (map (λ b. state b) roster.new.items)) }
    ensures none { NothingHeld (map (λ b. state b) roster.new.items) }
    ensures roster { IsSameRoster (map (λ b. state b) roster.old.items) (map (λ b. state b) roster.new.items) }
    ensures totals { HaveSameTotals (map (λ b. state b) roster.old.items) (map (λ b. state b) roster.new.items) }
{
    let mut held = Roster {
        drivers: mem::replace(roster, Vec::new(alloc)),
    };
    let made = make_runs(alloc, tree, slots, world, &mut held);
    *roster = held.drivers;
    made
}
