ghost use Rattle.std.specs.Prelude.{◌≡◌, ◌≤◌, List, ℕ, Ok};
ghost use Rattle.spec_run.specs.Served.{Setup};
ghost use Rattle.run_loop.specs.Runs.{arenas_of};
ghost use Rattle.text_trace.specs.Going.{CanGoOn, Makes, RoundsMade, stage, state_at};
ghost use Rattle.text_trace.specs.RoundMoments.{AreMoments, WasAsked};
ghost use Rattle.spec_output.specs.Rounds.{events_then, live_events, round_of};
ghost use Rattle.text_trace.specs.Traces.{AreKept, CanRun, Leaves, side, state_in, trace_of};
ghost use Rattle.text_trace.specs.Watches.{Shown, StaysWatcher};

use crate::ended::Ended;
use crate::finishes::end_run;
use crate::showing::show_event;
use crate::underway::{Underway, begin};
use crate::watch::Watch;
use base_outside::Clock;
use run_driver::Drivers;
use run_loop::{Runs, run_event};
use spec_world::{Event, What};
use std::alloc::Global;
use text_lines::TextStop;

/// Ticks all runners in order, at this moment in milliseconds, and shows the block of each tick. A fault ends them.
fn tick_all<D: Drivers, W: Watch>(
    alloc: Global,
    underway: &mut Underway,
    at: u64,
    drivers: &mut D,
    watch: &mut W,
) -> Result<Ended, TextStop>
    ghost of: { Setup }
    requires runs { CanGoOn of (D.states drivers.old) underway.old }
    requires ahead { underway.old.runs.last ≤ at }
    ensures made { let old = stage (D.states drivers.old) (W.state watch.old) underway.old in
        let new = stage (D.states drivers.new) (W.state watch.new) underway.new in
        Makes of result old new (λ rest. events_then of.tree of.world (round_of of.world.runners at) rest (state_at of old)) }
    ensures last { result ≡ Ok Ended.Done → underway.new.runs.last ≤ at }
    ensures shows { Shown W.shows result watch.old watch.new }
{
    for place in 0..underway.runs.runners.len() as u8 {
        let what = What::Tick(place + 1);
        let made = run_event(
            alloc,
            &mut underway.runs,
            Event { at, what },
            drivers,
            &mut underway.block,
        );
        if let Ended::Faulted = show_event(alloc, made, &underway.block, watch)? {
            return Ok(Ended::Faulted);
        }
    }
    Ok(Ended::Done)
}

/// Makes so many rounds, each at the moment that the clock gives, or at the one before where that lies
/// below it, and shows their blocks. A fault ends them.
fn follow_clock<D: Drivers, C: Clock, W: Watch>(
    alloc: Global,
    underway: &mut Underway,
    rounds: u32,
    clock: &mut C,
    drivers: &mut D,
    watch: &mut W,
) -> Result<Ended, TextStop>
    ghost of: { Setup }
    requires { CanGoOn of (D.states drivers.old) underway.old }
    ensures made { let old = stage (D.states drivers.old) (W.state watch.old) underway.old in
        let new = stage (D.states drivers.new) (W.state watch.new) underway.new in
        RoundsMade of result rounds old new (C.moments clock.old) (C.moments clock.new) }
    ensures shows { Shown W.shows result watch.old watch.new }
{
    let mut last = underway.runs.last;
    for _ in 0..rounds {
        last = clock.now().max(last);
        if let Ended::Faulted = tick_all(alloc, underway, last, drivers, watch)? {
            return Ok(Ended::Faulted);
        }
    }
    Ok(Ended::Done)
}

/// Makes so many rounds and then finishes all runners, and shows the block of each tick and finish as
/// soon as it is made. A round asks the clock once and ticks every runner in order at the moment that
/// it gives, or at the one before where that lies below it. A fault ends the run with its block. Where
/// a block could not be shown, the runners are finished without one, so that no driver holds anything,
/// whatever is answered. `TextStop::WriteFault` comes only where the watcher's count of failed writes
/// rose in this call, and `TextStop::NoMemory` where the run or the watcher is out of memory.
pub fn run_rounds<D: Drivers, C: Clock, W: Watch>(
    alloc: Global,
    runs: Runs,
    rounds: u32,
    clock: &mut C,
    drivers: &mut D,
    watch: &mut W,
) -> Result<Ended, TextStop>
    ghost of: { Setup }
    requires runs { CanRun of (D.states drivers.old) runs }
    ensures leaves { let old = side (D.states drivers.old) (W.state watch.old) in
        let new = side (D.states drivers.new) (W.state watch.new) in
        (moments : List ℕ) × AreMoments rounds (C.moments clock.old) moments
        × Leaves result (arenas_of runs) old new (trace_of of old.drivers runs (live_events of.world runs.last moments)) }
    ensures asked { let opened = state_in of (D.states drivers.old) runs in
        WasAsked result of.tree of.world rounds runs.last opened (C.moments clock.old) (C.moments clock.new) }
    ensures kept { AreKept (D.states drivers.old) (D.states drivers.new) }
    ensures watcher { StaysWatcher result (W.state watch.old) (W.state watch.new) }
    ensures shows { Shown W.shows result watch.old watch.new }
{
    let mut underway = begin(alloc, runs)?;
    let ended = follow_clock(alloc, &mut underway, rounds, clock, drivers, watch);
    end_run(alloc, &mut underway, ended, drivers, watch)
}
