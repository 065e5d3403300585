ghost use Rattle.std.specs.Prelude.{◌≡◌, ◌+◌, ◌<◌, ◌≤◌, ℕ, List, None, Some, false, length, slice_get};
ghost use Rattle.std.specs.List.{AllByRecursion};
ghost use Rattle.std.specs.List.Sorted.{IsNonDecreasingBy};
ghost use Rattle.spec_run.specs.declared.block.Header.{Header};
ghost use Rattle.spec_run.specs.declared.memory.Memory.{Memory, out-Memory};
ghost use Rattle.spec_tree.specs.declared.term.Term.{Term};
ghost use Rattle.spec_tree.specs.declared.term.Tree.{Tree};
ghost use Rattle.spec_world.specs.declared.world.Event.{Event};
ghost use Rattle.spec_world.specs.declared.world.Row.{Row};
ghost use Rattle.spec_world.specs.declared.world.World.{World};
ghost use Rattle.spec_run.specs.Done.{State};
ghost use Rattle.spec_run.specs.Run.{RunState, Runner, finish, later, opening, quenched, run_over, settled, step, ticked};
ghost use Rattle.base_tables.specs.Shapes.{AllIdle, is_running};
ghost use Rattle.spec_run.specs.Sites.{View};
ghost use Rattle.base_tables.specs.Sound.{Leaves, RunSteady, Sound, begun_calls, held_at, statuses};
ghost use Rattle.spec_tree.specs.Terms.{work_of};
ghost use Rattle.base_tables.specs.Runnable.{IsRunnable, NodeRuns};
ghost use Rattle.spec_tree.specs.Trees.{nodes_of};
ghost use Rattle.spec_run.specs.Visit.{idle, meaning, status_of};

use spec_run::Status;

/// A visit keeps the rules of states, except on the path to its fault. It changes no instance of
/// another node, and leaves its answer as the node's status.
pub fn a_visit_keeps_the_rules()
    ensures { (t : Term) (view : View) (uid : ℕ) (m : Memory) (s : State) → Sound t view.rows None uid m s →
        Leaves (λ fault m1 s1. Sound t view.rows fault uid m1 s1)
        (λ answer m1 s1. (out-Memory m1).status ≡ status_of answer)
        uid (meaning t).size s ((meaning t).visit view uid m s) }
{}

/// A reset keeps the rules of states, except on the path to its fault. It changes no instance of
/// another node, and leaves the node IDLE.
pub fn a_reset_keeps_the_rules()
    ensures { (t : Term) (view : View) (uid : ℕ) (m : Memory) (s : State) → Sound t view.rows None uid m s →
        Leaves (λ fault m1 s1. Sound t view.rows fault uid m1 s1)
        (λ _ m1 s1. (out-Memory m1).status ≡ Status.Idle)
        uid (meaning t).size s ((meaning t).reset view uid m s) }
{}

/// A reset of a RUNNING node, which is a halt, leaves its children IDLE too.
pub fn a_halt_keeps_the_rules()
    ensures { (t : Term) (view : View) (uid : ℕ) (m : Memory) (s : State) →
        Sound t view.rows None uid m s → (out-Memory m).status ≡ Status.Running →
        Leaves (λ fault m1 s1. Sound t view.rows fault uid m1 s1)
        (λ _ m1 s1. ((out-Memory m1).status ≡ Status.Idle) × AllIdle (statuses (out-Memory m1).children))
        uid (meaning t).size s ((meaning t).reset view uid m s) }
{}

/// A tick's visit of the root, with the end of the tick at the root, keeps the rules too, and
/// leaves the root IDLE or RUNNING. A halt and a finish of a runner reset the root.
pub fn a_tick_keeps_the_rules()
    ensures { (tree : Tree) (view : View) (runner : ℕ) (m : Memory) (s : State) →
        Sound tree.term view.rows None 1 m s →
        Leaves (λ fault m1 s1. Sound tree.term view.rows fault 1 m1 s1)
        (λ _ m1 s1. settled (out-Memory m1).status ≡ (out-Memory m1).status)
        1 (meaning tree.term).size s (ticked tree view runner m s) }
{}

/// A term that is IDLE, with none of its instances held, keeps the rules. So does each runner after
/// a quench, whatever was before.
pub fn a_quench_makes_the_rules()
    ensures idle { (t : Term) (rows : List Row) (uid : ℕ) (s : State) →
        ((p : ℕ) → uid ≤ p → p < uid + (meaning t).size → held_at s p ≡ Some false) →
        Sound t rows None uid (idle t) s }
    ensures quench { (tree : Tree) (rows : List Row) (run : RunState) →
        ((runner : ℕ) (r : Runner) → slice_get run.runners runner ≡ Some r → 1 + (meaning tree.term).size ≤ length r.instances) →
        RunSteady tree.term rows (quenched tree run) }
{}

/// What holds between events holds before the first one. Each event and each finish keeps it, even
/// with a fault, and so does time that passes.
pub fn an_event_keeps_the_rules()
    ensures opening { (tree : Tree) (world : World) → RunSteady tree.term world.rows (opening tree world) }
    ensures step { (tree : Tree) (world : World) (event : Event) (run : RunState) →
        RunSteady tree.term world.rows run → run.last ≤ event.at →
        RunSteady tree.term world.rows (step tree world event run).state }
    ensures finish { (tree : Tree) (world : World) (runner : ℕ) (run : RunState) →
        RunSteady tree.term world.rows run →
        RunSteady tree.term world.rows (finish tree world runner run).state }
    ensures time { (tree : Tree) (rows : List Row) (run : RunState) (at : ℕ) →
        RunSteady tree.term rows run → run.last ≤ at → RunSteady tree.term rows (later run at) }
{}

/// What holds between events holds at the end of every run over events in order.
pub fn a_run_keeps_the_rules()
    ensures { (tree : Tree) (world : World) (events : List Event) → IsNonDecreasingBy (λ event. event.at) events →
        RunSteady tree.term world.rows (run_over tree world events).state }
{}

/// Where the rules hold and a node is not RUNNING, no instance of it or of a node below it is held.
pub fn what_rests_holds_nothing()
    ensures { (t : Term) (rows : List Row) (uid : ℕ) (m : Memory) (s : State) →
        Sound t rows None uid m s → is_running (out-Memory m).status ≡ false →
        (p : ℕ) → uid ≤ p → p < uid + (meaning t).size → held_at s p ≡ Some false }
{}

/// A visit of a term whose nodes have what it needs, from a state that keeps the rules, makes at most as many
/// calls of `start` and `running` as its work counts. A tick makes at most as many, and a reset
/// makes none.
pub fn a_visit_is_within_its_work()
    ensures visit { (t : Term) → AllByRecursion NodeRuns (nodes_of t) →
        (view : View) (uid : ℕ) (m : Memory) (s : State) → Sound t view.rows None uid m s →
        begun_calls ((meaning t).visit view uid m s).calls ≤ work_of t }
    ensures tick { (tree : Tree) → IsRunnable tree →
        (view : View) (runner : ℕ) (m : Memory) (s : State) → Sound tree.term view.rows None 1 m s →
        begun_calls (ticked tree view runner m s).calls ≤ work_of tree.term }
    ensures reset { (t : Term) (view : View) (uid : ℕ) (m : Memory) (s : State) →
        begun_calls ((meaning t).reset view uid m s).calls ≡ 0 }
{}
