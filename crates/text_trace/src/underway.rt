ghost use Rattle.std.specs.Prelude.{◌≡◌, IfOk, List};
ghost use Rattle.spec_run.specs.Drivers.{DriverState};
ghost use Rattle.spec_run.specs.Served.{Setup};
ghost use Rattle.run_loop.specs.Runs.{arenas_of};
ghost use Rattle.run_loop.specs.Steps.{HaveRoom};
ghost use Rattle.text_trace.specs.Traces.{CanRun};

use base_texts::NoMemory;
use run_arena::{Block, block_for};
use run_loop::{Runs, leaves};
use std::alloc::Global;

/// Runs that are under way, with the block in which each of their events is told.
#[derive(Debug, Drop)]
pub struct Underway {
    pub runs: Runs,
    pub block: Block,
}

/// Makes a block for runs before their first event.
pub fn begin(alloc: Global, runs: Runs) -> Result<Underway, NoMemory>
    ghost of: { Setup }
    requires { (drivers : List DriverState) × CanRun of drivers runs }
    ensures runs { IfOk result (λ u. u.runs ≡ runs) }
    ensures room { IfOk result (λ u. HaveRoom (arenas_of runs) u.block.notes) }
{
    let block = block_for(alloc, leaves(&runs) as u32)?;
    Ok(Underway { runs, block })
}
