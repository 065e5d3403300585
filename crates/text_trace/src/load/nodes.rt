ghost use Rattle.std.specs.Prelude.{◌≡◌, List};
ghost use Rattle.spec_run.specs.Drivers.{DriverState};
ghost use Rattle.spec_tree.specs.Terms.{node_count};
ghost use Rattle.spec_world.specs.Worlds.{IsValidWorld};
ghost use Rattle.run_loop.specs.Runs.{AreRuns};
ghost use Rattle.spec_run.specs.Served.{Setup};

use run_loop::Runs;

/// How many nodes the tree of runs has.
pub fn nodes(runs: &Runs) -> usize
    ghost of: { Setup }
    requires { (drivers : List DriverState) × IsValidWorld of.world × AreRuns of.tree of.world drivers runs.now }
    ensures { result ≡ node_count of.tree.term }
{
    runs.runners[0].arena.nodes.len() - 1
}
