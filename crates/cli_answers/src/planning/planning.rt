ghost use Rattle.std.specs.Prelude.{◌≡◌, ◌≢◌, Ok, Some, None, MatchOption};
ghost use Rattle.spec_run.specs.declared.join_fault.JoinFault.TheVariants as join;
ghost use Rattle.spec_run.specs.Drivers.{NothingHeld};
ghost use Rattle.spec_world.specs.Worlds.{IsValidWorld};
ghost use Rattle.cli_refusals.specs.Ends.{EndWrites, EndsAt};
ghost use Rattle.cli_refusals.specs.Lent.Lent.{Stays, seen};
ghost use Rattle.spec_program.specs.declared.exit.Exit.{Exit as Given};
ghost use Rattle.spec_program.specs.declared.exit.Exit.TheVariants as exit;
ghost use Rattle.spec_program.specs.PlanOutputs.{WorldBegun, WorldPlans, first_unserved};
ghost use Rattle.spec_plan.specs.declared.ending.PlanEnd.{PlanEnd as Planned};
ghost use Rattle.spec_plan.specs.PlanAnswers.{IsPlan};
ghost use Rattle.plan_search.specs.Reached.{AreInRange};

use crate::planning::plan_lines::print_plan;
use base_outside::{Clock, Shelf, Sink};
use base_texts::NoMemory;
use cli_refusals::{Outside, Refusal};
use plan_search::plan;
use run_driver::{Drivers, kind_of};
use spec_plan::Limits;
use spec_program::Exit;
use spec_run::{DriverKind, JoinFault};
use spec_world::{Row, World};
use std::alloc::Global;

/// The kind of the first of these rows that no driver serves.
fn unserved<D: Drivers>(rows: &[Row], drivers: &D) -> Option<DriverKind>
    ensures { MatchOption result (first_unserved (D.states drivers.now) rows.now ≡ None)
        (λ kind. first_unserved (D.states drivers.now) rows.now ≡ Some (join.NoDriver kind)) }
{
    for row in rows {
        let kind = kind_of(row);
        if drivers.place_of(kind).is_none() {
            return Some(kind);
        }
    }
    None
}

/// Plans for the goals of a world, over drivers that serve all of its rows, and writes the steps and
/// the end; or is refused, first where there is no goal, and then for the first row that no driver
/// serves. The plan is made whole before its first line is written, so a write that fails cuts no
/// modelled run off.
pub fn plan_and_print<S: Shelf, K: Sink, C: Clock, D: Drivers>(
    alloc: Global,
    world: &World,
    limits: &Limits,
    outside: &mut Outside<S, K, C, D>,
) -> Result<Exit, Refusal>
    requires world { IsValidWorld world.now }
    requires limits { AreInRange limits.now }
    requires quiet { NothingHeld (D.states outside.old.drivers.now) }
    ensures ends { EndsAt (λ moments drivers. WorldPlans world.now limits.now drivers) (WorldBegun world.now limits.now) result
        (seen K.written K.faults C.moments D.states outside.old)
        (seen K.written K.faults C.moments D.states outside.new) }
    ensures made { (given : Given) → result ≡ Ok given → given ≢ exit.Memory → (planned : Planned) ×
        IsPlan world.now limits.now (D.states outside.old.drivers.now) (D.states outside.new.drivers.now) planned }
    ensures unread { outside.new.shelf.now ≡ outside.old.shelf.now }
    ensures stays { Stays S.faults K.faults D.states outside.old outside.new }
    ensures writes { EndWrites K.write_gives result outside.old.out.now outside.new.out.now }
{
    if world.goals.list().is_empty() {
        return Err(Refusal::NoGoal);
    }
    if let Some(kind) = unserved(world.rows.list(), outside.drivers) {
        return Err(Refusal::Join(JoinFault::NoDriver { kind }));
    }
    match plan(alloc, world, limits, outside.drivers) {
        Ok(planned) => {
            let exit = print_plan(alloc, &planned, outside.out);
            drop(planned);
            Ok(exit)
        }
        Err(NoMemory) => Ok(Exit::Memory),
    }
}
