ghost use Rattle.std.specs.Prelude.{◌≡◌, IfOk, None};
ghost use Rattle.spec_run.specs.Served.{Setup};
ghost use Rattle.run_loop.specs.Begun.{AreBegun, HaveSameTotals};
ghost use Rattle.spec_run.specs.Drivers.{NothingHeld};
ghost use Rattle.base_tables.specs.SlotTables.{slot_table};
ghost use Rattle.spec_run.specs.Joins.{first_untold, lack_of};
ghost use Rattle.spec_run.specs.Rosters.{IsSameRoster};
ghost use Rattle.spec_run.specs.Run.{opening};
ghost use Rattle.spec_tree.specs.Trees.{nodes_of};
ghost use Rattle.run_arena.specs.Joining.{Joins};
ghost use Rattle.base_tables.specs.Runnable.{IsRunnable};
ghost use Rattle.spec_world.specs.Worlds.{IsValidWorld};
ghost use Rattle.cli_answers.specs.Courses.Courses.{RunGave, exit_of};
ghost use Rattle.cli_refusals.specs.Ends.{EndWrites, EndsAt};
ghost use Rattle.spec_program.specs.declared.course.Course.TheVariants as course;
ghost use Rattle.cli_refusals.specs.Lent.Lent.{Stays, seen};
ghost use Rattle.spec_program.specs.Output.{AreUncalled};
ghost use Rattle.cli_answers.specs.Courses.Joined.{JoinGives, names_on};
ghost use Rattle.text_trace.specs.Traces.{CanRun, state_in};
ghost use Rattle.spec_outside.specs.Writes.{Writes};
ghost use Rattle.spec_program.specs.Answers.{WritesAt};

use base_outside::{Clock, Shelf, Sink};
use base_texts::{NoMemory, Stop};
use cli_refusals::{Outside, Refusal};
use run_driver::Drivers;
use run_loop::{Runs, make_runs, tellings_fit};
use spec_program::{Course, Exit};
use spec_run::JoinFault;
use spec_tree::Tree;
use spec_world::{Event, World};
use std::alloc::Global;
use text_lines::{Names, TextStop, names_of, no_names, write_line};
use text_trace::{Ended, Writer, run_events, run_load, run_rounds};
use tree_board::{Slots, slots_of};

/// The exit of a run that ended so.
fn exit_of(ended: Result<Ended, TextStop>) -> Exit
    ensures { result ≡ exit_of ended }
{
    match ended {
        Ok(Ended::Done) => Exit::Done,
        Ok(Ended::Faulted) => Exit::Fault,
        Err(TextStop::WriteFault) => Exit::Write,
        Err(TextStop::NoMemory) => Exit::Memory,
    }
}

/// Runs a load of so many leaves, and writes the line that sums it up.
#[tactic(auto, using(crate::proofs::AboutCourses::Runs::all_come))]
fn run_summed<S: Shelf, K: Sink, C: Clock, D: Drivers>(
    alloc: Global,
    leaves: u32,
    runs: Runs,
    events: &[Event],
    outside: &mut Outside<S, K, C, D>,
) -> Result<Ended, TextStop>
    ghost of: { Setup }
    requires runs { CanRun of (D.states outside.old.drivers.now) runs }
    requires opening { state_in of (D.states outside.old.drivers.now) runs ≡ opening of.tree of.world }
    requires events { events.now ≡ of.world.events }
    requires told { first_untold of.world.rows (nodes_of of.tree.term) of.world.events ≡ None }
    ensures gave { RunGave of (course.Load leaves) runs (exit_of result)
        (seen K.written K.faults C.moments D.states outside.old)
        (seen K.written K.faults C.moments D.states outside.new) }
    ensures unread { outside.new.shelf.now ≡ outside.old.shelf.now }
    ensures stays { Stays S.faults K.faults D.states outside.old outside.new }
    ensures writes { Writes K.write_gives result outside.old.out.now outside.new.out.now }
{
    let (line, ended) = run_load(alloc, leaves, runs, events, outside.drivers)?;
    write_line(outside.out, line.as_slice())?;
    Ok(ended)
}

/// The names that the lines of a run need on this course. None of the lines of a load is written. The error is want of
/// memory.
fn names_on(
    alloc: Global,
    course: Course,
    tree: &Tree,
    world: &World,
    slots: &Slots,
) -> Result<Names, NoMemory>
    requires { slots.now ≡ slot_table tree.now }
    ensures { IfOk result (λ names. names ≡ names_on course tree.now world.now) }
{
    match course {
        Course::Script | Course::Rounds(_) => names_of(alloc, tree, world, slots),
        Course::Load(_) => no_names(alloc),
    }
}

/// The runs of a tree in a world over these drivers, where every leaf has a row and its row a driver, and every event of
/// the script that tells a leaf something finds one that can be told it. The fault is what is missing first.
pub fn joined_runs<D: Drivers>(
    alloc: Global,
    tree: &Tree,
    slots: &Slots,
    world: &World,
    drivers: &mut D,
) -> Result<Runs, Stop<JoinFault>>
    ghost of: { Setup }
    requires tree { tree.now ≡ of.tree }
    requires world { world.now ≡ of.world }
    requires runnable { IsRunnable tree.now }
    requires slots { slots.now ≡ slot_table tree.now }
    requires valid_world { IsValidWorld world.now }
    requires quiet { NothingHeld (D.states drivers.old) }
    ensures fault { Joins result (lack_of of.tree of.world (D.states drivers.old)) }
    ensures begun { IfOk result (AreBegun of.tree of.world (D.states drivers.old) (D.states drivers.new)) }
    ensures none { NothingHeld (D.states drivers.new) }
    ensures roster { IsSameRoster (D.states drivers.old) (D.states drivers.new) }
    ensures totals { HaveSameTotals (D.states drivers.old) (D.states drivers.new) }
{
    let runs = make_runs(alloc, tree, slots, world, drivers)?;
    match tellings_fit(&runs, world.events.list()) {
        Ok(()) => Ok(runs),
        Err(fault) => Err(Stop::Fault(fault)),
    }
}

/// Joins a tree with a world and the drivers and runs it on this course, where every leaf has a row and its row a
/// driver: the trace of its events is written, or the line that sums up a load. Else it is refused for the first leaf
/// that lacks one, or else for the first event that tells a leaf or an output that is not there.
pub fn join_and_run<S: Shelf, K: Sink, C: Clock, D: Drivers>(
    alloc: Global,
    tree: &Tree,
    world: &World,
    course: Course,
    outside: &mut Outside<S, K, C, D>,
) -> Result<Exit, Refusal>
    ghost of: { Setup }
    requires tree { tree.now ≡ of.tree }
    requires world { world.now ≡ of.world }
    requires runnable { IsRunnable tree.now }
    requires valid_world { IsValidWorld world.now }
    requires quiet { NothingHeld (D.states outside.old.drivers.now) }
    ensures ends { EndsAt (JoinGives of.tree of.world course) AreUncalled result
        (seen K.written K.faults C.moments D.states outside.old)
        (seen K.written K.faults C.moments D.states outside.new) }
    ensures unread { outside.new.shelf.now ≡ outside.old.shelf.now }
    ensures stays { Stays S.faults K.faults D.states outside.old outside.new }
    ensures writes { EndWrites K.write_gives result outside.old.out.now outside.new.out.now }
{
    let slots = slots_of(alloc, tree)?;
    let names = names_on(alloc, course, tree, world, &slots)?;
    let runs = joined_runs(alloc, tree, &slots, world, outside.drivers)?;
    let (names, events) = (&names, world.events.list());
    match course {
        Course::Script => {
            let mut writer = Writer {
                names,
                out: outside.out,
            };
            let ended = run_events(alloc, runs, events, outside.drivers, &mut writer);
            Ok(exit_of(ended))
        }
        Course::Rounds(rounds) => {
            let mut writer = Writer {
                names,
                out: outside.out,
            };
            let clock = &mut *outside.clock;
            let ended = run_rounds(alloc, runs, rounds, clock, outside.drivers, &mut writer);
            Ok(exit_of(ended))
        }
        Course::Load(leaves) => Ok(exit_of(run_summed(alloc, leaves, runs, events, outside))),
    }
}
