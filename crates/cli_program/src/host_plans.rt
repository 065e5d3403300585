ghost use Rattle.std.specs.Prelude.{◌≢◌, [], IfOk, OnErr, map};
ghost use Rattle.plan_search.specs.Lacking.{NamesSome};
ghost use Rattle.plan_search.specs.Reached.{AreInRange, IsReached};
ghost use Rattle.plan_search.specs.Served.{AreServed};
ghost use Rattle.spec_plan.specs.PlanAnswers.{IsPlan, IsPlanCut, StandsAlone};
ghost use Rattle.spec_run.specs.Drivers.{NothingHeld};
ghost use Rattle.spec_run.specs.Rosters.{IsSameRoster};
ghost use Rattle.spec_world.specs.Worlds.{IsValidWorld};

use crate::boxes::Boxes;
use base_texts::NoMemory;
use plan_search::plan;
use run_driver::Driver;
use spec_plan::{Limits, PlanEnd};
use spec_world::World;
use std::alloc::Global;
use std::mem;

/// `plan` of `plan_search` over a vector of boxes, as a host has its drivers.
pub fn plan_over(
    alloc: Global,
    world: &World,
    limits: &Limits,
    roster: &mut Vec<Box<dyn Driver>>,
) -> Result<PlanEnd, NoMemory>
    requires world { IsValidWorld world.now }
    requires goal { world.now.goals ≢ [] }
    requires limits { AreInRange limits.now }
    requires served { AreServed world.now (map (λ b. state b) roster.old.items) }
    requires quiet { NothingHeld (map (λ b. state b) roster.old.items) }
    ensures plan { IfOk result (λ planned.
        IsPlan world.now limits.now (map (λ b. state b) roster.old.items) (map (λ b. state b) roster.new.items) planned) }
    ensures reached { IfOk result (λ planned. IsReached world.now limits.now planned.end) }
    ensures named { IfOk result (λ planned. NamesSome planned.end) }
    ensures alone { IfOk result (λ planned. StandsAlone planned.end) }
    ensures cut { OnErr result
        (IsPlanCut world.now limits.now (map (λ b. state b) roster.old.items) (map (λ b. state b) roster.new.items)) }
    ensures none { NothingHeld (map (λ b. state b) roster.new.items) }
    ensures roster { IsSameRoster (map (λ b. state b) roster.old.items) (map (λ b. state b) roster.new.items) }
{
    let mut held = Boxes {
        drivers: mem::replace(roster, Vec::new(alloc)),
    };
    let planned = plan(alloc, world, limits, &mut held);
    *roster = held.drivers;
    planned
}
