ghost use Rattle.std.specs.Prelude.{◌≡◌, ◌+◌, ◌++◌, ◌<◌, ◌≤◌, ℕ, List, None, OnErr, OnOk, Result, Some, true, slice_get};
ghost use Rattle.std.specs.List.Sorted.{IsNonDecreasingBy};
ghost use Rattle.base_texts.specs.declared.stop.Stop.{Stop};
ghost use Rattle.spec_run.specs.declared.fault.RunFault.{RunFault};
ghost use Rattle.spec_run.specs.declared.memory.Memory.{Memory};
ghost use Rattle.spec_tree.specs.declared.term.Term.{Term};
ghost use Rattle.spec_tree.specs.declared.term.Tree.{Tree};
ghost use Rattle.spec_world.specs.declared.world.Event.{Event};
ghost use Rattle.spec_world.specs.declared.world.Row.{Row};
ghost use Rattle.spec_world.specs.declared.world.World.{World};
ghost use Rattle.spec_run.specs.Done.{State};
ghost use Rattle.spec_run.specs.Drivers.{DriverState, NothingHeld, is_held};
ghost use Rattle.base_tables.specs.DriverCalls.{instance_at};
ghost use Rattle.spec_run.specs.Run.{Runner, run_from, run_over};
ghost use Rattle.base_tables.specs.Sound.{RunSteady, Sound, held_at};
ghost use Rattle.spec_run.specs.Visit.{meaning};
ghost use Rattle.run_loop.specs.declared.runs.Runs.{Runs};
ghost use Rattle.run_loop.specs.Runs.{AreRuns, state_of_runs};
ghost use Rattle.run_loop.specs.Held.Prefixes.{after_events, after_finishes, goes_on};
ghost use Rattle.run_loop.specs.Held.RunningLeaves.{HasItsHeld, IsOfRunningLeaf, RunsDownTo};

/// Where the rules of states hold of a term, an instance of it is held exactly where it is that of a leaf
/// that is RUNNING, as are all nodes above it.
pub fn a_held_leaf_runs()
    ensures held { (t : Term) (rows : List Row) (uid : ℕ) (m : Memory) (s : State) → Sound t rows None uid m s →
        (p : ℕ) → uid ≤ p → p < uid + (meaning t).size → held_at s p ≡ Some true → RunsDownTo t uid m p }
    ensures running { (t : Term) (rows : List Row) (uid : ℕ) (m : Memory) (s : State) → Sound t rows None uid m s →
        (p : ℕ) → RunsDownTo t uid m p → held_at s p ≡ Some true }
{}

/// Between events each instance that a driver holds in its table is that of a leaf of a runner which is
/// RUNNING, as are all nodes above it, and the instance of each such leaf is held. So it is after an
/// event or a finish, whatever that answers: a fault or want of memory leaves nothing held.
pub fn drivers_hold_running_leaves()
    ensures held { (tree : Tree) (world : World) (drivers : List DriverState) (runs : Runs) → AreRuns tree world drivers runs →
        (place instance : ℕ) → is_held (instance_at drivers place instance) ≡ true → IsOfRunningLeaf tree drivers runs place instance }
    ensures running { (tree : Tree) (world : World) (drivers : List DriverState) (runs : Runs) → AreRuns tree world drivers runs →
        (place uid : ℕ) (r : Runner) → slice_get (state_of_runs tree.term drivers runs).runners place ≡ Some r →
        RunsDownTo tree.term 1 r.memory uid → HasItsHeld drivers runs place uid }
    // These are the clauses `runs` and `none` of `event` and of `finish`.
    ensures after_an_event { (tree : Tree) (world : World) (result : Result (Unit {0}) (Stop RunFault)) →
        (drivers : List DriverState) (runs : Runs) →
        OnOk result (AreRuns tree world drivers runs) → OnErr result (NothingHeld drivers) →
        (place instance : ℕ) → is_held (instance_at drivers place instance) ≡ true → IsOfRunningLeaf tree drivers runs place instance }
{}

/// What holds between events holds after every prefix of a list of events, also where a fault has ended
/// the run in it, and after each runner's finish.
pub fn the_rules_hold_after_every_prefix()
    ensures events { (tree : Tree) (world : World) (before after : List Event) → IsNonDecreasingBy (λ event. event.at) (before ++ after) →
        RunSteady tree.term world.rows (after_events tree world before).state }
    ensures finishes { (tree : Tree) (world : World) (events : List Event) (finished : ℕ) → IsNonDecreasingBy (λ event. event.at) events →
        RunSteady tree.term world.rows (after_finishes tree world events finished).state }
{}

/// A run goes through what each prefix of its events leaves, and ends with the finish of all runners.
pub fn a_run_goes_through_its_prefixes()
    ensures prefix { (tree : Tree) (world : World) (before after : List Event) →
        run_over tree world (before ++ after) ≡ goes_on (after_events tree world before) (run_from tree world after) }
    ensures whole { (tree : Tree) (world : World) (events : List Event) →
        run_over tree world events ≡ after_finishes tree world events world.runners }
{}
