ghost use Rattle.std.specs.Prelude.{◌≡◌, ◌↔◌, ℕ, ◌+◌, ◌*◌, ◌<◌, ◌≤◌, ◌++◌, List, Some, length, map, slice_index_or, slice_set};
ghost use Rattle.spec_run.specs.declared.leaf.Instance.{Instance};
ghost use Rattle.spec_run.specs.declared.leaf.Phase.{Phase};
ghost use Rattle.spec_tree.specs.declared.term.Term.{Term, out-Term};
ghost use Rattle.spec_run.specs.Done.{Call};
ghost use Rattle.spec_run.specs.Drivers.{DriverState, is_held, roster_called, roster_prepared};
ghost use Rattle.spec_run.specs.Sites.{View, memory_at, remembered};
ghost use Rattle.spec_run.specs.Visit.{idle, meaning};
ghost use Rattle.run_arena.specs.declared.nodes.Kept.{Kept};
ghost use Rattle.run_arena.specs.declared.nodes.Node.{Node};
ghost use Rattle.run_arena.specs.declared.nodes.ReadyLeaf.{ReadyLeaf};
ghost use Rattle.run_arena.specs.Nodes.{at_rest, kept_at, leaf_at};
ghost use Rattle.run_arena.specs.Rosters.{AreNumbered, AreServed, instances_of, roster_after, served};
ghost use Rattle.run_arena.specs.Scenes.{marks_of};
ghost use Rattle.run_arena.specs.Stands.{Beside, IsKeptAlike, Stands, memories_of, memory_of, node_stands, uid_of};

/// A term that stands in an arena, opened: its node is there, and its children come after it.
pub fn terms_stand_in_pre_order()
    ensures stands { (t : Term) (nodes : List Node) (view : View) (uid : ℕ) →
        Stands t nodes view uid ↔ node_stands Term (λ c. c) Stands (out-Term t) nodes view uid }
    ensures memory { (t : Term) (uid : ℕ) (kept : List Kept) →
        memory_of t uid kept ≡
        remembered (kept_at kept uid).status (kept_at kept uid).memo (memories_of (out-Term t).children (uid + 1) kept) }
{}

/// The memory of a term is that of its own nodes. Where only the nodes of one of several terms in
/// order have changed, its memory alone has changed. Where all nodes are at rest, the memory is
/// idle.
pub fn memories_are_of_their_nodes()
    ensures own { (t : Term) (uid : ℕ) (a b : List Kept) → IsKeptAlike uid (meaning t).size a b → memory_of t uid a ≡ memory_of t uid b }
    ensures place { (ts : List Term) (place uid : ℕ) (t : Term) (kept : List Kept) → place < length ts →
        memory_at (memories_of ts uid kept) place ≡ memory_of (slice_index_or ts place t) (uid_of ts uid place) kept }
    ensures change { (ts : List Term) (place uid : ℕ) (t : Term) (a b : List Kept) → place < length ts →
        Beside (uid_of ts uid place) (meaning (slice_index_or ts place t)).size a b →
        slice_set (memories_of ts uid a) place (memory_of (slice_index_or ts place t) (uid_of ts uid place) b) ≡ memories_of ts uid b }
    ensures rest { (t : Term) (uid : ℕ) (kept : List Kept) →
        ((p : ℕ) → uid ≤ p → p < uid + (meaning t).size → kept_at kept p ≡ at_rest) → memory_of t uid kept ≡ idle t }
{}

/// A call for a leaf of an arena changes its instance alone, each leaf is served as before, and the
/// marks stay right where the leaf's mark is set.
pub fn calls_change_one_instance()
    ensures instances { (nodes : List Node) (drivers : List DriverState) (uid : ℕ) (leaf : ReadyLeaf) (phase : Phase) (left : Instance) →
        AreServed drivers nodes → leaf_at nodes uid ≡ Some leaf →
        instances_of nodes (roster_called drivers leaf.driver phase leaf.instance left) ≡ slice_set (instances_of nodes drivers) uid left }
    ensures served { (nodes : List Node) (drivers : List DriverState) (place : ℕ) (phase : Phase) (instance : ℕ) (left : Instance) →
        AreServed drivers nodes → AreServed (roster_called drivers place phase instance left) nodes }
    ensures marks { (nodes : List Node) (drivers : List DriverState) (uid : ℕ) (leaf : ReadyLeaf) (phase : Phase) (left : Instance) →
        AreServed drivers nodes → leaf_at nodes uid ≡ Some leaf → (kept : List Kept) (now : Kept) →
        marks_of kept ≡ map is_held (instances_of nodes drivers) → now.held ≡ is_held left →
        marks_of (slice_set kept uid now) ≡ map is_held (instances_of nodes (roster_called drivers leaf.driver phase leaf.instance left)) }
    ensures both { (nodes : List Node) (xs ys : List Call) (drivers : List DriverState) →
        roster_after nodes (xs ++ ys) drivers ≡ roster_after nodes ys (roster_after nodes xs drivers) }
{}

/// Where the drivers were prepared for as many instances as all runners need, each leaf of a runner's
/// arena is served, and has an instance of its own.
pub fn numbered_leaves_are_served()
    ensures { (drivers : List DriverState) (nodes : List Node) (counts : List ℕ) (runner runners : ℕ) →
        AreNumbered drivers runner nodes → 1 ≤ runner → runner ≤ runners →
        length counts ≡ length drivers → ((p : ℕ) → p < length drivers → slice_index_or counts p 0 ≡ runners * served p nodes) →
        AreServed (roster_prepared drivers counts) nodes }
{}
