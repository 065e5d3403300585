ghost use Rattle.std.specs.Prelude.{◌≡◌, ◌≤◌, ◌++◌, ℤ, List, map};
ghost use Rattle.spec_run.specs.Drivers.{NothingHeld};
ghost use Rattle.spec_run.specs.Run.{quench_calls, quench_notes, quenched_runner};
ghost use Rattle.run_loop.specs.Runs.{RunnersFit, arenas_in, boards_in, leaves_of, roster_over, runners_in};
ghost use Rattle.spec_run.specs.Served.{Setup};

use crate::runs::ReadyRunner;
use run_arena::Notes;
use run_driver::Drivers;
use run_nodes::quench;

/// Quenches all runners, in order. It allocates no memory.
pub fn quench_all<D: Drivers>(runners: &mut Vec<ReadyRunner>, drivers: &mut D, notes: &mut Notes)
    requires fit { (of : Setup) × (facts : List ℤ) × RunnersFit of.tree of.world facts (D.states drivers.old) runners.old.items }
    requires room { leaves_of (arenas_in runners.old.items) ≤ notes.old.reserve }
    ensures state { (of : Setup) (facts : List ℤ) → RunnersFit of.tree of.world facts (D.states drivers.old) runners.old.items →
        let found = runners_in of.tree.term (D.states drivers.old) runners.old.items in
        runners_in of.tree.term (D.states drivers.new) runners.new.items ≡ map (quenched_runner of.tree) found }
    ensures notes { (of : Setup) (facts : List ℤ) → RunnersFit of.tree of.world facts (D.states drivers.old) runners.old.items →
        let found = runners_in of.tree.term (D.states drivers.old) runners.old.items in
        notes.new.list ≡ notes.old.list ++ quench_notes 1 found }
    ensures drivers { (of : Setup) (facts : List ℤ) → RunnersFit of.tree of.world facts (D.states drivers.old) runners.old.items →
        let found = runners_in of.tree.term (D.states drivers.old) runners.old.items in
        D.states drivers.new ≡ roster_over (arenas_in runners.old.items) (quench_calls 1 found) (D.states drivers.old) }
    ensures none { NothingHeld (D.states drivers.new) }
    ensures arenas { arenas_in runners.new.items ≡ arenas_in runners.old.items }
    ensures boards { boards_in runners.new.items ≡ boards_in runners.old.items }
    ensures full { notes.new.full ≡ notes.old.full }
{
    for place in 0..runners.len() {
        quench(&mut runners[place].arena, drivers, notes);
    }
}
