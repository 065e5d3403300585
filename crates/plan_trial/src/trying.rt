//! A tree and its modelled run.

ghost use Rattle.std.specs.Prelude.{◌≡◌, IfOk, List};
ghost use Rattle.spec_run.specs.Drivers.{NothingHeld};
ghost use Rattle.spec_run.specs.Run.{RunnerCall};
ghost use Rattle.base_tables.specs.Runnable.{IsRunnable};
ghost use Rattle.run_loop.specs.Begun.{HaveSameTotals};
ghost use Rattle.spec_run.specs.Served.{Setup};
ghost use Rattle.run_loop.specs.Runs.{arenas_of, roster_over};
ghost use Rattle.spec_run.specs.Served.{roster_after_run};
ghost use Rattle.spec_run.specs.Rosters.{IsSameRoster};
ghost use Rattle.spec_plan.specs.Modelled.{modelled};
ghost use Rattle.plan_trial.specs.Tasks.{IsTaskOf, LacksNothing, NamesNothing};
ghost use Rattle.plan_trial.specs.Ticked.{IsAfter};
ghost use Rattle.plan_trial.specs.Tried.{RunEnds};

use crate::blocks::{Blocks, blocks_for};
use crate::task::Task;
use crate::ticking::make_ticks;
use base_texts::{NoMemory, Stop};
use run_driver::Drivers;
use run_loop::{Runs, leaves, make_planned_runs, run_finish};
use spec_plan::Verdict;
use spec_run::RunFault;
use spec_tree::Tree;
use tree_board::no_slots;

/// A modelled run without a fault: what its last tick decided, with the blocks of this tick and of the finish.
#[derive(Drop)]
pub struct Tried {
    /// How many ticks came before the last one.
    pub before: u32,
    pub verdict: Verdict,
    pub blocks: Blocks,
}

/// The runs of a tree that names nothing in the modelled world, before the first tick. All its leaves
/// have a row and a driver, so the error is want of memory.
fn begin<D: Drivers>(tree: &Tree, task: &Task, drivers: &mut D) -> Result<Runs, NoMemory>
    ghost of: { Setup }
    requires same { tree.now ≡ of.tree }
    requires task { IsTaskOf of.world task.now }
    requires joined { LacksNothing of.tree of.world (D.states drivers.old) }
    requires tree { IsRunnable of.tree }
    requires quiet { NothingHeld (D.states drivers.old) }
    requires nameless { NamesNothing of.tree }
    ensures runs { IfOk result (λ runs. IsAfter of task.now.pace.period 0 (D.states drivers.new) runs) }
    ensures prepared { let old = D.states drivers.old in
        let new = D.states drivers.new in
        IfOk result (λ runs. (calls : List RunnerCall) →
        roster_over (arenas_of runs) calls new ≡ roster_after_run of.tree (modelled of.world) old calls) }
    ensures none { NothingHeld (D.states drivers.new) }
    ensures roster { IsSameRoster (D.states drivers.old) (D.states drivers.new) }
    ensures totals { HaveSameTotals (D.states drivers.old) (D.states drivers.new) }
{
    let slots = no_slots(task.alloc);
    make_planned_runs(task.alloc, tree, &slots, &task.world, drivers)
}

/// Makes the ticks of a modelled run and then finishes it, in the blocks of an earlier run where these do. The error is
/// the fault of a node, or want of memory. In the end no driver holds anything, whatever is answered.
fn make_run<D: Drivers>(
    task: &Task,
    mut runs: Runs,
    spare: Option<Blocks>,
    drivers: &mut D,
) -> Result<Tried, Stop<RunFault>>
    ghost of: { Setup }
    requires task { IsTaskOf of.world task.now }
    requires tree { IsRunnable of.tree }
    requires run { IsAfter of task.now.pace.period 0 (D.states drivers.old) runs }
    requires quiet { NothingHeld (D.states drivers.old) }
    ensures ends { let old = D.states drivers.old in
        RunEnds result of task.now.pace (λ calls. roster_over (arenas_of runs) calls old) old (D.states drivers.new) }
    ensures none { NothingHeld (D.states drivers.new) }
    ensures roster { IsSameRoster (D.states drivers.old) (D.states drivers.new) }
{
    let count = leaves(&runs) as u32;
    let mut blocks = blocks_for(task.alloc, count, spare)?;
    let ticked = make_ticks(task, &mut runs, drivers, &mut blocks.ticked)?;
    run_finish(task.alloc, &mut runs, 1, drivers, &mut blocks.finished)?;
    Ok(Tried {
        before: ticked.before,
        verdict: ticked.verdict,
        blocks,
    })
}

/// Runs a tree that names nothing in the modelled world, with the drivers prepared anew, in the blocks of an earlier run
/// where these do. The error is the fault of a node, or want of memory. In the end no driver holds anything, whatever is
/// answered.
pub fn run_tree<D: Drivers>(
    tree: &Tree,
    task: &Task,
    spare: Option<Blocks>,
    drivers: &mut D,
) -> Result<Tried, Stop<RunFault>>
    ghost of: { Setup }
    requires same { tree.now ≡ of.tree }
    requires task { IsTaskOf of.world task.now }
    requires joined { LacksNothing of.tree of.world (D.states drivers.old) }
    requires tree { IsRunnable of.tree }
    requires quiet { NothingHeld (D.states drivers.old) }
    requires nameless { NamesNothing of.tree }
    ensures ends { let old = D.states drivers.old in
        RunEnds result of task.now.pace (roster_after_run of.tree (modelled of.world) old) old (D.states drivers.new) }
    ensures none { NothingHeld (D.states drivers.new) }
    ensures roster { IsSameRoster (D.states drivers.old) (D.states drivers.new) }
{
    let runs = begin(tree, task, drivers)?;
    make_run(task, runs, spare, drivers)
}
