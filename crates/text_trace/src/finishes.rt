ghost use Rattle.std.specs.Prelude.{◌≡◌, ◌≤◌, ◌<◌, ◌-◌, ◌^◌, Ok, OnOk, false, length, true};
ghost use Rattle.spec_run.specs.Drivers.{NothingHeld};
ghost use Rattle.spec_run.specs.Run.{finish as finish_step, then_rest};
ghost use Rattle.spec_run.specs.Served.{Setup};
ghost use Rattle.run_loop.specs.Runs.{arenas_of};
ghost use Rattle.run_loop.specs.Steps.{HaveRoom};
ghost use Rattle.text_trace.specs.Halted.{HaveHalted};
ghost use Rattle.text_trace.specs.Going.{AreAtRest, CanGoOn, EndsRun, Makes, Stand, finishes_then, stage, state_at};
ghost use Rattle.text_trace.specs.Traces.{AreKept, side};
ghost use Rattle.text_trace.specs.Watches.{Shown};

use crate::ended::Ended;
use crate::showing::show_event;
use crate::underway::Underway;
use crate::watch::Watch;
use run_driver::Drivers;
use run_loop::{run_finish, usable};
use std::alloc::Global;
use text_lines::TextStop;

/// Finishes a runner and shows its block.
fn finish_one<D: Drivers, W: Watch>(
    alloc: Global,
    underway: &mut Underway,
    runner: u8,
    drivers: &mut D,
    watch: &mut W,
) -> Result<Ended, TextStop>
    ghost of: { Setup }
    requires runs { CanGoOn of (D.states drivers.old) underway.old }
    requires first { 1 ≤ runner }
    requires last { runner ≤ of.world.runners }
    ensures made { let old = stage (D.states drivers.old) (W.state watch.old) underway.old in
        let new = stage (D.states drivers.new) (W.state watch.new) underway.new in
        Makes of result old new (λ rest. then_rest (finish_step of.tree of.world runner (state_at of old)) rest) }
    ensures rests { let old = stage (D.states drivers.old) (W.state watch.old) underway.old in
        let new = stage (D.states drivers.new) (W.state watch.new) underway.new in
        result ≡ Ok Ended.Done → AreAtRest (runner - 1) (state_at of old) → AreAtRest runner (state_at of new) }
    ensures shows { Shown W.shows result watch.old watch.new }
{
    let made = run_finish(
        alloc,
        &mut underway.runs,
        runner,
        drivers,
        &mut underway.block,
    );
    show_event(alloc, made, &underway.block, watch)
}

/// Finishes all runners in order, and shows the block of each. A fault ends it.
fn finish_all<D: Drivers, W: Watch>(
    alloc: Global,
    underway: &mut Underway,
    drivers: &mut D,
    watch: &mut W,
) -> Result<Ended, TextStop>
    ghost of: { Setup }
    requires runs { CanGoOn of (D.states drivers.old) underway.old }
    ensures made { let old = stage (D.states drivers.old) (W.state watch.old) underway.old in
        let new = stage (D.states drivers.new) (W.state watch.new) underway.new in
        Makes of result old new (λ rest. finishes_then of.tree of.world 1 of.world.runners rest (state_at of old)) }
    ensures none { OnOk result (NothingHeld (D.states drivers.new)) }
    ensures shows { Shown W.shows result watch.old watch.new }
{
    for place in 0..underway.runs.runners.len() as u8 {
        if let Ended::Faulted = finish_one(alloc, underway, place + 1, drivers, watch)? {
            return Ok(Ended::Faulted);
        }
    }
    Ok(Ended::Done)
}

/// Finishes all runners in order, as long as none stops, and shows nothing. Then nothing is held.
fn finish_unwritten<D: Drivers>(alloc: Global, underway: &mut Underway, drivers: &mut D)
    ghost of: { Setup }
    requires stand { Stand of (D.states drivers.old) underway.old.runs }
    requires few { length underway.old.runs.runners.items < 2 ^ 8 }
    requires room { HaveRoom (arenas_of underway.old.runs) underway.old.block.notes }
    ensures halts { HaveHalted (arenas_of underway.old.runs) (D.states drivers.old) (D.states drivers.new) }
    ensures kept { AreKept (D.states drivers.old) (D.states drivers.new) }
{
    for place in 0..underway.runs.runners.len() as u8 {
        if !usable(&underway.runs) {
            return;
        }
        let _stopped = run_finish(
            alloc,
            &mut underway.runs,
            place + 1,
            drivers,
            &mut underway.block,
        )
        .is_err();
    }
}

/// Ends a run whose events ended so: where none was a fault and each was shown, finishes all runners in order, and shows the
/// block of each. Where a block could not be shown, the runners are finished without one, so that no driver holds anything.
pub fn end_run<D: Drivers, W: Watch>(
    alloc: Global,
    underway: &mut Underway,
    ended: Result<Ended, TextStop>,
    drivers: &mut D,
    watch: &mut W,
) -> Result<Ended, TextStop>
    ghost of: { Setup }
    requires stand { Stand of (D.states drivers.old) underway.old.runs }
    requires few { length underway.old.runs.runners.items < 2 ^ 8 }
    requires room { HaveRoom (arenas_of underway.old.runs) underway.old.block.notes }
    requires on { ended ≡ Ok Ended.Done → underway.old.runs.usable ≡ true }
    requires off { ended ≡ Ok Ended.Faulted → underway.old.runs.usable ≡ false }
    ensures ends { let old = stage (D.states drivers.old) (W.state watch.old) underway.old in
        EndsRun of ended result old (side (D.states drivers.new) (W.state watch.new)) }
    ensures kept { AreKept (D.states drivers.old) (D.states drivers.new) }
    ensures shows { (first : W) → Shown W.shows ended first watch.old → Shown W.shows result first watch.new }
{
    match ended {
        Ok(Ended::Faulted) => Ok(Ended::Faulted),
        Ok(Ended::Done) => match finish_all(alloc, underway, drivers, watch) {
            Ok(ended) => Ok(ended),
            Err(stopped) => {
                finish_unwritten(alloc, underway, drivers);
                Err(stopped)
            }
        },
        Err(stopped) => {
            finish_unwritten(alloc, underway, drivers);
            Err(stopped)
        }
    }
}
