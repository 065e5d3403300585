ghost use Rattle.std.specs.Prelude.{◌≡◌, ◌≢◌, ◌≤◌, [], IfOk, IfSome, OnErr, length};
ghost use Rattle.spec_world.specs.declared.world.World.{World as Modelled};
ghost use Rattle.spec_run.specs.Drivers.{NothingHeld};
ghost use Rattle.spec_world.specs.Worlds.{IsValidWorld};
ghost use Rattle.spec_plan.specs.Forests.{Forest};
ghost use Rattle.plan_tree.specs.Sizes.{subtrees};
ghost use Rattle.plan_tree.specs.Stands.{StandsFor};
ghost use Rattle.spec_run.specs.Rosters.{IsSameRoster};
ghost use Rattle.plan_search.specs.Served.{AreServed};
ghost use Rattle.spec_plan.specs.PlanAnswers.{IsPlan, IsPlanCut, StandsAlone};
ghost use Rattle.plan_search.specs.Going.{GoesFrom, IsPlanTask, IsStopped};
ghost use Rattle.plan_search.specs.Lacking.{NamesSome};
ghost use Rattle.plan_search.specs.Reached.{AreInRange, IsReached};
ghost use Rattle.spec_plan.specs.PlanRuns.{IsFirst};

use crate::growing::grow;
use crate::task::PlanTask;
use base_texts::{Items, NoMemory, Stop};
use plan_tree::{PlanTree, plan_tree_of, tree_from};
use plan_trial::{Blocks, modelled, run_tree, task_of};
use run_driver::Drivers;
use spec_plan::{End, Limits, Pace, PlanEnd, Step, Verdict};
use spec_run::RunFault;
use spec_tree::Tree;
use spec_world::World;
use std::alloc::Global;

/// What the run of a tree leaves to the next one.
#[derive(Drop)]
struct Earlier {
    tree: Tree,
    blocks: Blocks,
}

/// What an earlier run left, apart.
fn apart(earlier: Option<Earlier>) -> (Option<Tree>, Option<Blocks>) {
    match earlier {
        Some(Earlier { tree, blocks }) => (Some(tree), Some(blocks)),
        None => (None, None),
    }
}

/// How planning goes on where a modelled run was stopped: it ends, or memory was wanting.
fn stopped(stop: Stop<RunFault>) -> Result<Option<End>, NoMemory>
    ensures { IsStopped stop result }
{
    match stop {
        Stop::Fault(fault) => Ok(Some(End::Faulted {
            uid: fault.uid,
            cause: fault.cause,
        })),
        Stop::NoMemory => Err(NoMemory),
    }
}

/// Runs the tree as it stands, and makes a step or ends. The error is want of memory. In the end no
/// driver holds anything, whatever is answered.
fn go_on<D: Drivers>(
    world: &World,
    task: &PlanTask,
    earlier: &mut Option<Earlier>,
    t: &mut PlanTree,
    steps: &mut Vec<Step>,
    drivers: &mut D,
) -> Result<Option<End>, NoMemory>
    ghost of: { Modelled }
    requires same { world.now ≡ of }
    requires task { IsPlanTask world.now task.now }
    requires served { AreServed world.now (D.states drivers.old) }
    requires quiet { NothingHeld (D.states drivers.old) }
    requires tree { (tree : Forest) × StandsFor t.old world.now tree × (subtrees tree ≡ length steps.old.items) }
    requires few { length steps.old.items ≤ task.now.limits.expand }
    ensures goes { (tree : Forest) → StandsFor t.old world.now tree →
        GoesFrom result tree t.new world.now task.now.limits steps.old.items steps.new.items (D.states drivers.old) (D.states drivers.new) }
    ensures alone { IfOk result (λ end. IfSome end StandsAlone) }
    ensures none { NothingHeld (D.states drivers.new) }
    ensures roster { IsSameRoster (D.states drivers.old) (D.states drivers.new) }
{
    let alloc = task.runs.alloc;
    let (tree, blocks) = apart(earlier.take());
    let tree = tree_from(alloc, t, world, tree)?;
    let tried = match run_tree(&tree, &task.runs, blocks, drivers) {
        Ok(tried) => tried,
        Err(stop) => {
            drop(tree);
            return stopped(stop);
        }
    };
    match tried.verdict {
        Verdict::Reaches => {
            let tick = tried.before + 1;
            drop(tried);
            Ok(Some(End::Reached { tree, tick }))
        }
        Verdict::Fails => {
            let blocks = tried.blocks;
            let notes = blocks.ticked.notes.list();
            let ended = grow(alloc, world, &task.limits, notes, t, steps);
            *earlier = Some(Earlier { tree, blocks });
            ended
        }
        Verdict::GoesOn => {
            drop(tried);
            drop(tree);
            Ok(Some(End::StillRunning {
                ticks: task.limits.ticks,
            }))
        }
    }
}

/// Makes steps from the first tree on until the plan run ends. The error is want of memory. In the end
/// no driver holds anything, whatever is answered.
fn make_steps<D: Drivers>(
    world: &World,
    task: &PlanTask,
    mut t: PlanTree,
    drivers: &mut D,
) -> Result<PlanEnd, NoMemory>
    requires task { IsPlanTask world.now task.now }
    requires served { AreServed world.now (D.states drivers.old) }
    requires quiet { NothingHeld (D.states drivers.old) }
    requires first { (first : Forest) × IsFirst world.now first × StandsFor t world.now first }
    ensures plan { IfOk result (λ planned. IsPlan world.now task.now.limits (D.states drivers.old) (D.states drivers.new) planned) }
    ensures alone { IfOk result (λ planned. StandsAlone planned.end) }
    ensures cut { OnErr result (IsPlanCut world.now task.now.limits (D.states drivers.old) (D.states drivers.new)) }
    ensures none { NothingHeld (D.states drivers.new) }
    ensures roster { IsSameRoster (D.states drivers.old) (D.states drivers.new) }
{
    let mut steps = Vec::new(task.runs.alloc);
    let mut earlier = None;
    for _ in 0..task.limits.expand + 1 {
        if let Some(end) = go_on(world, task, &mut earlier, &mut t, &mut steps, drivers)? {
            return Ok(PlanEnd {
                steps: Items::of(steps),
                end,
            });
        }
    }
    unreachable!()
}

/// Plans for the goals of a world, over drivers that serve all of its rows. The first tree has the
/// goals alone. Each tree is run in the modelled world: one runner, from the opening facts on, ticked
/// once each period, with the drivers prepared anew. Where it reaches the goals, planning ends. Where
/// it fails, the first condition that failed, in breadth-first order, and has an untried template is
/// expanded, and the new sequence is raised until nothing conflicts. The error is want of memory. In
/// the end no driver holds anything, whatever is answered.
pub fn plan<D: Drivers>(
    alloc: Global,
    world: &World,
    limits: &Limits,
    drivers: &mut D,
) -> Result<PlanEnd, NoMemory>
    requires world { IsValidWorld world.now }
    requires goal { world.now.goals ≢ [] }
    requires limits { AreInRange limits.now }
    requires served { AreServed world.now (D.states drivers.old) }
    requires quiet { NothingHeld (D.states drivers.old) }
    ensures plan { IfOk result (λ planned. IsPlan world.now limits.now (D.states drivers.old) (D.states drivers.new) planned) }
    ensures reached { IfOk result (λ planned. IsReached world.now limits.now planned.end) }
    ensures named { IfOk result (λ planned. NamesSome planned.end) }
    ensures alone { IfOk result (λ planned. StandsAlone planned.end) }
    ensures cut { OnErr result (IsPlanCut world.now limits.now (D.states drivers.old) (D.states drivers.new)) }
    ensures none { NothingHeld (D.states drivers.new) }
    ensures roster { IsSameRoster (D.states drivers.old) (D.states drivers.new) }
{
    let pace = Pace {
        ticks: limits.ticks,
        period: limits.period,
    };
    let model = modelled(alloc, world)?;
    let task = PlanTask {
        runs: task_of(alloc, world, &model, pace)?,
        limits: *limits,
    };
    let t = plan_tree_of(alloc, world)?;
    make_steps(world, &task, t, drivers)
}
