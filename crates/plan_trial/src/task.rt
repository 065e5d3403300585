ghost use Rattle.std.specs.Prelude.{◌≡◌, IfOk};
ghost use Rattle.spec_world.specs.Worlds.{IsValidWorld};
ghost use Rattle.spec_plan.specs.Modelled.{modelled};
ghost use Rattle.plan_trial.specs.Tasks.{IsInRange, IsTaskOf};

use crate::goals::goal_tests;
use base_texts::NoMemory;
use run_arena::{IndexedWorld, index_world};
use spec_plan::{Pace, Test};
use spec_world::World;
use std::alloc::Global;

/// What stays the same in all modelled runs of a world.
#[derive(Drop)]
pub struct Task<'a> {
    pub alloc: Global,
    /// The world of a modelled run.
    pub world: IndexedWorld<'a>,
    /// The tests of the goals.
    pub goals: Vec<Test>,
    pub pace: Pace,
}

/// The task of a world, of which the copy for modelled runs is lent. The error is want of memory.
pub fn task_of<'a>(
    alloc: Global,
    world: &World,
    model: &'a World,
    pace: Pace,
) -> Result<Task<'a>, NoMemory>
    requires world { IsValidWorld world.now }
    requires model { model.now ≡ modelled world.now }
    requires pace { IsInRange pace }
    ensures task { IfOk result (λ task. IsTaskOf world.now task) }
    ensures pace { IfOk result (λ task. task.pace ≡ pace) }
{
    Ok(Task {
        alloc,
        world: index_world(alloc, model)?,
        goals: goal_tests(alloc, world)?,
        pace,
    })
}
