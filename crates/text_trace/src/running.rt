ghost use Rattle.spec_run.specs.Served.{Setup};
ghost use Rattle.run_loop.specs.Runs.{arenas_of};
ghost use Rattle.text_trace.specs.Traces.{AreKept, CanAllCome, CanRun, Leaves, side, trace_of};
ghost use Rattle.text_trace.specs.Watches.{Shown, StaysWatcher};

use crate::ended::Ended;
use crate::finishes::end_run;
use crate::showing::show_event;
use crate::underway::begin;
use crate::watch::Watch;
use run_driver::Drivers;
use run_loop::{Runs, run_listed};
use spec_world::Event;
use std::alloc::Global;
use text_lines::TextStop;

/// Makes the events in order and then finishes all runners, and shows the block of each as soon as it
/// is made. A fault ends the run with its block. Where a block could not be shown, the runners are
/// finished without one, so that no driver holds anything, whatever is answered.
/// `TextStop::WriteFault` comes only where the watcher's count of failed writes rose in this call, and
/// `TextStop::NoMemory` where the run or the watcher is out of memory.
pub fn run_events<D: Drivers, W: Watch>(
    alloc: Global,
    runs: Runs,
    events: &[Event],
    drivers: &mut D,
    watch: &mut W,
) -> Result<Ended, TextStop>
    ghost of: { Setup }
    requires runs { CanRun of (D.states drivers.old) runs }
    requires come { CanAllCome of runs.last events.now }
    ensures leaves { let old = side (D.states drivers.old) (W.state watch.old) in
        let new = side (D.states drivers.new) (W.state watch.new) in
        Leaves result (arenas_of runs) old new (trace_of of old.drivers runs events.now) }
    ensures kept { AreKept (D.states drivers.old) (D.states drivers.new) }
    ensures watcher { StaysWatcher result (W.state watch.old) (W.state watch.new) }
    ensures shows { Shown W.shows result watch.old watch.new }
{
    let mut underway = begin(alloc, runs)?;
    for next in events {
        let made = run_listed(
            alloc,
            &mut underway.runs,
            next,
            drivers,
            &mut underway.block,
        );
        match show_event(alloc, made, &underway.block, watch) {
            Ok(Ended::Done) => (),
            Ok(Ended::Faulted) => return Ok(Ended::Faulted),
            Err(stopped) => return end_run(alloc, &mut underway, Err(stopped), drivers, watch),
        }
    }
    end_run(alloc, &mut underway, Ok(Ended::Done), drivers, watch)
}
