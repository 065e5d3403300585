ghost use Rattle.std.specs.Prelude.{◌≡◌, ◌+◌, ◌≤◌, ◌++◌, ℕ, ℤ, List, Option, length, false};
ghost use Rattle.std.specs.Vec.{vec_capacity};
ghost use Rattle.spec_script.specs.declared.value.Value.{Value};
ghost use Rattle.spec_tree.specs.declared.term.Term.{Term};
ghost use Rattle.spec_tree.specs.declared.term.Tree.{Tree};
ghost use Rattle.spec_run.specs.Drivers.{is_held};
ghost use Rattle.spec_run.specs.Run.{quenched_notes, quenched_runner};
ghost use Rattle.spec_run.specs.Sites.{View};
ghost use Rattle.run_arena.specs.Ends.{StaysFit};
ghost use Rattle.run_arena.specs.Nodes.{at_rest, kept_at, leaf_at};
ghost use Rattle.run_arena.specs.Rosters.{leaf_instance, leaves_in, roster_after};
ghost use Rattle.run_arena.specs.Scenes.{Fits, scene};
ghost use Rattle.run_nodes.specs.Halting.Quenches.{releases_in, runner_in};

use crate::halting::quenching::quench_nodes;
use run_arena::{Arena, Notes};
use run_driver::Drivers;

/// Halts each leaf of a runner that is held, by uid, with the note `Quenched`, and brings all its
/// nodes to rest. No script runs. It always succeeds and allocates no memory: the notes have
/// reserved room.
pub fn quench<D: Drivers>(arena: &mut Arena, drivers: &mut D, notes: &mut Notes)
    requires fits { (term : Term) × (view : View) × (board : List (Option Value)) × (facts : List ℤ) ×
        Fits term view 1 arena.old.nodes.items (scene arena.old.kept.items board facts (D.states drivers.old)) }
    requires room { leaves_in arena.old.nodes.items ≤ notes.old.reserve }
    ensures runner { (tree : Tree) (view : View) (board : List (Option Value)) (facts : List ℤ) →
        let nodes = arena.old.nodes.items in
        let before = scene arena.old.kept.items board facts (D.states drivers.old) in
        let after = scene arena.new.kept.items board facts (D.states drivers.new) in
        Fits tree.term view 1 nodes before → runner_in tree nodes after ≡ quenched_runner tree (runner_in tree nodes before) }
    ensures drivers { let calls = releases_in arena.old.nodes.items (D.states drivers.old) in
        D.states drivers.new ≡ roster_after arena.old.nodes.items calls (D.states drivers.old) }
    ensures notes { let calls = releases_in arena.old.nodes.items (D.states drivers.old) in
        notes.new.list ≡ notes.old.list ++ quenched_notes arena.old.runner calls }
    ensures rest { (uid : ℕ) → kept_at arena.new.kept.items uid ≡ at_rest }
    ensures none { (uid : ℕ) → is_held (leaf_instance (D.states drivers.new) (leaf_at arena.old.nodes.items uid)) ≡ false }
    ensures fits { (board : List (Option Value)) (facts : List ℤ) →
        let before = scene arena.old.kept.items board facts (D.states drivers.old) in
        StaysFit arena.old.nodes.items before (scene arena.new.kept.items board facts (D.states drivers.new)) }
    ensures nodes { arena.new.nodes.items ≡ arena.old.nodes.items }
    ensures room { (vec_capacity arena.new.nodes ≡ vec_capacity arena.old.nodes) ×
        (vec_capacity arena.new.kept ≡ vec_capacity arena.old.kept) }
    ensures same_runner { arena.new.runner ≡ arena.old.runner }
    ensures frames { arena.new.frames ≡ arena.old.frames }
    ensures reserve { let calls = releases_in arena.old.nodes.items (D.states drivers.old) in
        notes.new.reserve + length calls ≡ notes.old.reserve }
    ensures full { notes.new.full ≡ notes.old.full }
{
    quench_nodes(arena.runner, &arena.nodes, &mut arena.kept, drivers, notes)
}
