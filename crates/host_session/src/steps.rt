//! Steps of runs over the drivers of a session.
ghost use Rattle.std.specs.Prelude.{◌≤◌};
ghost use Rattle.spec_run.specs.Run.{finish, step};
ghost use Rattle.spec_run.specs.Served.{Setup};
ghost use Rattle.run_loop.specs.Runs.{AreRuns, arenas_of};
ghost use Rattle.run_loop.specs.Steps.{CanCome, EventLeft, HaveRoom, event_side, kept_state};
ghost use Rattle.host_session.specs.Five.{states_of};

use crate::five::Five;
use base_texts::Stop;
use run_arena::Block;
use run_loop::{Runs, run_event, run_finish};
use spec_run::RunFault;
use spec_world::Event;
use std::alloc::Global;

/// Makes an event of runs over the drivers of a session.
pub fn make_event(
    alloc: Global,
    runs: &mut Runs,
    event: Event,
    five: &mut Five,
    block: &mut Block,
) -> Result<(), Stop<RunFault>>
    ghost of: { Setup }
    requires runs { AreRuns of.tree of.world (states_of five.old) runs.old }
    requires come { CanCome of runs.old.last event }
    requires room { HaveRoom (arenas_of runs.old) block.old.notes }
    ensures { let old = event_side (states_of five.old) runs.old block.old in
        let new = event_side (states_of five.new) runs.new block.new in
        EventLeft of result old new (step of.tree of.world event (kept_state of old)) }
{
    run_event(alloc, runs, event, five, block)
}

/// Makes the finish of a runner over the drivers of a session.
pub fn finish_runner(
    alloc: Global,
    runs: &mut Runs,
    runner: u8,
    five: &mut Five,
    block: &mut Block,
) -> Result<(), Stop<RunFault>>
    ghost of: { Setup }
    requires runs { AreRuns of.tree of.world (states_of five.old) runs.old }
    requires first { 1 ≤ runner }
    requires last { runner ≤ of.world.runners }
    requires room { HaveRoom (arenas_of runs.old) block.old.notes }
    ensures { let old = event_side (states_of five.old) runs.old block.old in
        let new = event_side (states_of five.new) runs.new block.new in
        EventLeft of result old new (finish of.tree of.world runner (kept_state of old)) }
{
    run_finish(alloc, runs, runner, five, block)
}
