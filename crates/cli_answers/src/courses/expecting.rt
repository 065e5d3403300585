ghost use Rattle.std.specs.Prelude.{◌≡◌, ◌≤◌, None, length};
ghost use Rattle.spec_run.specs.Joins.{first_untold};
ghost use Rattle.spec_run.specs.Run.{opening};
ghost use Rattle.spec_tree.specs.Trees.{nodes_of};
ghost use Rattle.spec_output.specs.Lines.{line_names};
ghost use Rattle.expect_watch.specs.Begun.{Wanted};
ghost use Rattle.expect_watch.specs.Over.{AreOver};
ghost use Rattle.text_trace.specs.Traces.{CanRun, state_in};
ghost use Rattle.cli_answers.specs.Courses.Expecting.{ExpectGave, expect_exit_of};
ghost use Rattle.spec_run.specs.Served.{Setup};
ghost use Rattle.spec_run.specs.Drivers.{NothingHeld};
ghost use Rattle.spec_run.specs.Joins.{lack_of};
ghost use Rattle.base_tables.specs.Runnable.{IsRunnable};
ghost use Rattle.spec_world.specs.Worlds.{IsValidWorld};
ghost use Rattle.spec_tree.specs.Limits.{most_file_bytes};
ghost use Rattle.spec_program.specs.Expecting.{JoinExpects};
ghost use Rattle.spec_program.specs.Output.{AreUncalled};
ghost use Rattle.cli_refusals.specs.Ends.{EndWrites, EndsAt};
ghost use Rattle.cli_refusals.specs.Lent.Lent.{Stays, seen};
ghost use Rattle.spec_outside.specs.Writes.{Writes};

use crate::courses::join::joined_runs;
use base_outside::{Clock, Shelf, Sink};
use base_texts::Items;
use cli_refusals::{Outside, Refusal};
use expect_reader::read_expected;
use expect_watch::watching_of;
use run_driver::Drivers;
use run_loop::Runs;
use spec_expect::Expected;
use spec_program::Exit;
use spec_tree::Tree;
use spec_world::World;
use std::alloc::Global;
use text_lines::{Names, TextStop, names_of, write_line};
use text_trace::{Expecting, run_expected};
use tree_board::slots_of;

/// The exit of a run that came out so.
fn exit_of(ended: Result<Expecting, TextStop>) -> Exit
    ensures { result ≡ expect_exit_of ended }
{
    match ended {
        Ok(Expecting::Met) => Exit::Done,
        Ok(Expecting::Unmet) => Exit::Unmet,
        Ok(Expecting::Faulted) => Exit::Fault,
        Err(TextStop::WriteFault) => Exit::Write,
        Err(TextStop::NoMemory) => Exit::Memory,
    }
}

/// A tree and a world that fit together, and the names by which lines tell of them.
#[derive(Drop)]
struct Joined<'a> {
    tree: &'a Tree,
    world: &'a World,
    names: &'a Names,
}

/// Runs what is expected to do something, and writes what became of that.
fn run_watched<S: Shelf, K: Sink, C: Clock, D: Drivers>(
    alloc: Global,
    joined: &Joined,
    expected: Items<Expected>,
    runs: Runs,
    outside: &mut Outside<S, K, C, D>,
) -> Result<Expecting, TextStop>
    ghost wanted: { Wanted }
    requires expected { expected ≡ wanted.expected }
    requires tree { joined.now.tree.now ≡ wanted.of.tree }
    requires world { joined.now.world.now ≡ wanted.of.world }
    requires names { joined.now.names.now ≡ line_names wanted.of.tree wanted.of.world }
    requires over { AreOver wanted.of.world.facts wanted.expected }
    requires runs { CanRun wanted.of (D.states outside.old.drivers.now) runs }
    requires opening { state_in wanted.of (D.states outside.old.drivers.now) runs ≡ opening wanted.of.tree wanted.of.world }
    requires told { first_untold wanted.of.world.rows (nodes_of wanted.of.tree.term) wanted.of.world.events ≡ None }
    ensures gave { ExpectGave wanted.of wanted.expected runs (expect_exit_of result)
        (seen K.written K.faults C.moments D.states outside.old)
        (seen K.written K.faults C.moments D.states outside.new) }
    ensures unread { outside.new.shelf.now ≡ outside.old.shelf.now }
    ensures stays { Stays S.faults K.faults D.states outside.old outside.new }
    ensures writes { Writes K.write_gives result outside.old.out.now outside.new.out.now }
{
    let watching = watching_of(alloc, joined.tree, joined.world, expected)?;
    let events = joined.world.events.list();
    let (lines, ended) = run_expected(
        alloc,
        watching,
        joined.names,
        runs,
        events,
        outside.drivers,
    )?;
    write_line(outside.out, lines.as_slice())?;
    Ok(ended)
}

/// Joins a tree with a world and the drivers, reads what these bytes of a file of expectations expect of the run, runs it, and
/// tells for each expectation whether it is met. It is refused for what is missing first, as `join_and_run` does, and else for
/// the first faulty line of the file.
pub fn join_and_expect<S: Shelf, K: Sink, C: Clock, D: Drivers>(
    alloc: Global,
    tree: &Tree,
    world: &World,
    expect: &[u8],
    outside: &mut Outside<S, K, C, D>,
) -> Result<Exit, Refusal>
    ghost of: { Setup }
    requires tree { tree.now ≡ of.tree }
    requires world { world.now ≡ of.world }
    requires runnable { IsRunnable tree.now }
    requires valid_world { IsValidWorld world.now }
    requires short { length expect.now ≤ most_file_bytes }
    requires quiet { NothingHeld (D.states outside.old.drivers.now) }
    ensures ends { EndsAt (λ moments drivers. JoinExpects (lack_of of.tree of.world drivers) of expect.now) AreUncalled result
        (seen K.written K.faults C.moments D.states outside.old)
        (seen K.written K.faults C.moments D.states outside.new) }
    ensures unread { outside.new.shelf.now ≡ outside.old.shelf.now }
    ensures stays { Stays S.faults K.faults D.states outside.old outside.new }
    ensures writes { EndWrites K.write_gives result outside.old.out.now outside.new.out.now }
{
    let slots = slots_of(alloc, tree)?;
    let names = names_of(alloc, tree, world, &slots)?;
    let runs = joined_runs(alloc, tree, &slots, world, outside.drivers)?;
    match read_expected(alloc, tree, world, expect) {
        Ok(expected) => {
            let joined = Joined {
                tree,
                world,
                names: &names,
            };
            Ok(exit_of(run_watched(alloc, &joined, expected, runs, outside)))
        }
        Err(stopped) => {
            drop(runs);
            Err(Refusal::from(stopped))
        }
    }
}
