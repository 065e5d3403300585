ghost use Rattle.std.specs.Prelude.{◌≡◌, ℕ, List, Some, false, slice_get};
ghost use Rattle.spec_run.specs.declared.memory.Memory.{out-Memory};
ghost use Rattle.spec_tree.specs.declared.term.Tree.{Tree};
ghost use Rattle.spec_world.specs.declared.world.World.{World};
ghost use Rattle.spec_run.specs.Drivers.{DriverState, NothingHeld};
ghost use Rattle.spec_run.specs.Run.{Runner};
ghost use Rattle.base_tables.specs.Shapes.{is_running};
ghost use Rattle.run_loop.specs.declared.runs.Runs.{Runs};
ghost use Rattle.run_loop.specs.Runs.{AreRuns, state_of_runs};

/// Between events, where no runner's root is RUNNING, no driver holds an instance.
pub fn runs_at_rest_hold_nothing()
    ensures { (tree : Tree) (world : World) (drivers : List DriverState) (runs : Runs) → AreRuns tree world drivers runs →
        let runners = (state_of_runs tree.term drivers runs).runners in
        ((k : ℕ) (r : Runner) → slice_get runners k ≡ Some r → is_running (out-Memory r.memory).status ≡ false) →
        NothingHeld drivers }
{}
