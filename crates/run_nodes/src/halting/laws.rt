ghost use Rattle.std.specs.Prelude.{◌+◌, ◌<◌, ◌≤◌, ℕ, List, None};
ghost use Rattle.spec_tree.specs.declared.term.Term.{Term};
ghost use Rattle.spec_world.specs.declared.world.Row.{Row};
ghost use Rattle.spec_run.specs.Sites.{View};
ghost use Rattle.base_tables.specs.Sound.{Sound};
ghost use Rattle.run_arena.specs.declared.nodes.Node.{Node};
ghost use Rattle.run_arena.specs.Nodes.{node_at};
ghost use Rattle.run_arena.specs.Scenes.{Fits, Scene, state_in};
ghost use Rattle.run_arena.specs.Stands.{memory_of};
ghost use Rattle.run_nodes.specs.Halting.Halts.{RunningAreHeld};

/// What `halt` and `reset` require holds: each uid of an arena has a term that fits there, and
/// where the rules of states hold of a node and all below it, each RUNNING leaf among them has its
/// mark.
pub fn nodes_can_be_halted()
    ensures fits { (term : Term) (view : View) (uid : ℕ) (nodes : List Node) (s : Scene) → Fits term view uid nodes s →
        (p : ℕ) → uid ≤ p → p < uid + (node_at nodes uid).size → (c : Term) × (below : View) × Fits c below p nodes s }
    ensures held { (term : Term) (view : View) (uid : ℕ) (nodes : List Node) (s : Scene) (moment : ℕ) (rows : List Row) →
        Fits term view uid nodes s → Sound term rows None uid (memory_of term uid s.kept) (state_in nodes s moment) →
        RunningAreHeld nodes s.kept uid }
{}
