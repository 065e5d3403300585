//! The ticks of a modelled run.

ghost use Rattle.std.specs.Prelude.{◌≡◌, ◌<◌, ◌+◌, OnErr, true, false};
ghost use Rattle.spec_run.specs.Drivers.{NothingHeld};
ghost use Rattle.spec_run.specs.Served.{Setup};
ghost use Rattle.run_loop.specs.Runs.{arenas_of};
ghost use Rattle.run_loop.specs.Steps.{HaveRoom};
ghost use Rattle.spec_run.specs.Rosters.{IsSameRoster};
ghost use Rattle.spec_plan.specs.declared.verdict.Verdict.TheVariants.{GoesOn};
ghost use Rattle.plan_trial.specs.Tasks.{IsTaskOf};
ghost use Rattle.plan_trial.specs.Ticked.{IsAfter, TickEnds, TicksEnd};

use crate::goals::decide;
use crate::task::Task;
use base_texts::Stop;
use run_arena::Block;
use run_driver::Drivers;
use run_loop::{Runs, run_event};
use spec_plan::Verdict;
use spec_run::RunFault;
use spec_world::{Event, What};

/// How many ticks of a modelled run came before its last one, and what this one decided.
#[derive(Clone, Copy)]
pub(crate) struct Ticked {
    pub before: u32,
    pub verdict: Verdict,
}

/// Makes the tick that comes after so many. The error is the fault of a node, or want of memory; after
/// either no driver holds anything.
fn make_tick<D: Drivers>(
    task: &Task,
    before: u32,
    runs: &mut Runs,
    drivers: &mut D,
    block: &mut Block,
    doubt: &mut usize,
) -> Result<Verdict, Stop<RunFault>>
    ghost of: { Setup }
    requires task { IsTaskOf of.world task.now }
    requires run { IsAfter of task.now.pace.period before (D.states drivers.old) runs.old }
    requires allowed { before < task.now.pace.ticks }
    requires room { HaveRoom (arenas_of runs.old) block.old.notes }
    ensures ends { TickEnds result of task.now.pace.period before (D.states drivers.old) (D.states drivers.new) runs.new block.new }
    ensures none { OnErr result (NothingHeld (D.states drivers.new)) }
    ensures arenas { arenas_of runs.new ≡ arenas_of runs.old }
    ensures room { block.new.notes.full ≡ block.old.notes.full }
    ensures roster { IsSameRoster (D.states drivers.old) (D.states drivers.new) }
{
    let event = Event {
        at: before as u64 * task.pace.period,
        what: What::Tick(1),
    };
    run_event(task.alloc, runs, event, drivers, block)?;
    let notes = block.notes.list();
    Ok(decide(&runs.facts, task.goals.as_slice(), notes, doubt))
}

/// Whether the tick after so many, which decided so, is the last one of its run.
fn is_last(verdict: Verdict, before: u32, ticks: u32) -> bool
    requires { before < ticks }
    ensures last { result ≡ true → verdict ≡ GoesOn → before + 1 ≡ ticks }
    ensures on { result ≡ false → (verdict ≡ GoesOn) × (before + 1 < ticks) }
{
    match verdict {
        Verdict::GoesOn => before + 1 == ticks,
        Verdict::Reaches | Verdict::Fails => true,
    }
}

/// Makes ticks until one decides, or as many as are allowed. The error is the fault of a node, or want
/// of memory; after either no driver holds anything.
pub fn make_ticks<D: Drivers>(
    task: &Task,
    runs: &mut Runs,
    drivers: &mut D,
    block: &mut Block,
) -> Result<Ticked, Stop<RunFault>>
    ghost of: { Setup }
    requires task { IsTaskOf of.world task.now }
    requires run { IsAfter of task.now.pace.period 0 (D.states drivers.old) runs.old }
    requires room { HaveRoom (arenas_of runs.old) block.old.notes }
    ensures ends { TicksEnd result of task.now.pace (D.states drivers.old) (D.states drivers.new) runs.new block.new }
    ensures none { OnErr result (NothingHeld (D.states drivers.new)) }
    ensures arenas { arenas_of runs.new ≡ arenas_of runs.old }
    ensures room { block.new.notes.full ≡ block.old.notes.full }
    ensures roster { IsSameRoster (D.states drivers.old) (D.states drivers.new) }
{
    let mut doubt = 0;
    for before in 0..task.pace.ticks {
        let verdict = make_tick(task, before, runs, drivers, block, &mut doubt)?;
        if is_last(verdict, before, task.pace.ticks) {
            return Ok(Ticked { before, verdict });
        }
    }
    unreachable!()
}
