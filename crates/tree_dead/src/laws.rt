ghost use Rattle.std.specs.Prelude.{List};
ghost use Rattle.std.specs.List.{AllByRecursion};
ghost use Rattle.spec_tree.specs.declared.term.Tree.{Tree};
ghost use Rattle.spec_world.specs.declared.world.Event.{Event};
ghost use Rattle.spec_world.specs.declared.world.World.{World};
ghost use Rattle.spec_run.specs.Run.{run_over};
ghost use Rattle.spec_tree.specs.Trees.{IsValid};
ghost use Rattle.spec_dead.specs.Dead.{dead_nodes};
ghost use Rattle.tree_dead.specs.Runs.{IsIdleIn, IsNeverNamed, LeavesHaveRows, states_between};

/// In every world with a row for each leaf, and over every list of events, no note of the run names
/// a dead node of the tree, and each dead node is IDLE at every runner before the first event, after
/// each event, and in the end.
pub fn no_run_visits_a_dead_node()
    ensures notes { (tree : Tree) (world : World) → IsValid tree → LeavesHaveRows tree world → (events : List Event) →
        AllByRecursion (IsNeverNamed (run_over tree world events).blocks) (dead_nodes tree) }
    ensures between { (tree : Tree) (world : World) → IsValid tree → LeavesHaveRows tree world → (events : List Event) →
        AllByRecursion (λ s. AllByRecursion (IsIdleIn s) (dead_nodes tree)) (states_between tree world events) }
    ensures end { (tree : Tree) (world : World) → IsValid tree → LeavesHaveRows tree world → (events : List Event) →
        AllByRecursion (IsIdleIn (run_over tree world events).state) (dead_nodes tree) }
{}
