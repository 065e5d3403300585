ghost use Rattle.std.specs.Prelude.{IfOk, OnErr, length};
ghost use Rattle.spec_run.specs.Served.{Setup};
ghost use Rattle.run_loop.specs.Runs.{arenas_of};
ghost use Rattle.text_trace.specs.Halted.{IsCut};
ghost use Rattle.text_trace.specs.Traces.{AreKept, CanAllCome, CanRun, trace_of};
ghost use Rattle.text_trace.specs.Load.Loads.{IsLoad};

use crate::counter::Counter;
use crate::ended::Ended;
use crate::load::nodes::nodes;
use crate::load::summary::summary_line;
use crate::running::run_events;
use base_texts::NoMemory;
use run_driver::Drivers;
use run_loop::Runs;
use spec_world::Event;
use std::alloc::Global;

/// Runs a load of this number: makes the events in order, finishes all runners, and gives the line
/// that sums up the run. The error is want of memory, and then the drivers had the first calls of the
/// run. No driver holds anything then, whatever is answered.
pub fn run_load<D: Drivers>(
    alloc: Global,
    n: u32,
    runs: Runs,
    events: &[Event],
    drivers: &mut D,
) -> Result<(Vec<u8>, Ended), NoMemory>
    ghost of: { Setup }
    requires runs { CanRun of (D.states drivers.old) runs }
    requires come { CanAllCome of runs.last events.now }
    ensures whole { IfOk result (λ told.
        IsLoad n of.tree (arenas_of runs) (length events.now) (D.states drivers.old) (D.states drivers.new) told.0.items told.1
        (trace_of of (D.states drivers.old) runs events.now)) }
    ensures cut { OnErr result (IsCut (arenas_of runs) (D.states drivers.old) (D.states drivers.new)
        (trace_of of (D.states drivers.old) runs events.now)) }
    ensures kept { AreKept (D.states drivers.old) (D.states drivers.new) }
{
    let count = nodes(&runs) as u64;
    let event_count = events.len() as u64;
    let mut counter = Counter::new();
    let Ok(ended) = run_events(alloc, runs, events, drivers, &mut counter) else {
        return Err(NoMemory);
    };
    let line = summary_line(alloc, n, count, event_count, &counter.counts)?;
    Ok((line, ended))
}
