ghost use Rattle.std.specs.Prelude.{◌≡◌, ◌+◌, ◌<◌, ◌≤◌, ◌^◌, ◌++◌, ℕ, length, map, true, slice_set};
ghost use Rattle.spec_run.specs.Drivers.{is_held};
ghost use Rattle.spec_run.specs.Leaf.{let_go};
ghost use Rattle.spec_run.specs.Run.{quenched_notes};
ghost use Rattle.run_arena.specs.Nodes.{at_rest, kept_at, leaf_at};
ghost use Rattle.run_arena.specs.Rosters.{AreServed, instances_of, leaf_instance, leaves_in, roster_after};
ghost use Rattle.run_arena.specs.Scenes.{marks_of};
ghost use Rattle.run_nodes.specs.Halting.Quenches.{releases_at, releases_in};

use run_arena::{Kept, Node, Notes, keep, kept_by, node};
use run_driver::Drivers;
use spec_run::{Memo, Note, Status};

/// Halts the leaf with this uid where it is marked as held, and adds the note in the reserve.
fn quench_leaf<D: Drivers>(
    runner: u8,
    nodes: &[Node],
    kept: &[Kept],
    drivers: &mut D,
    uid: u32,
    notes: &mut Notes,
)
    requires there { uid < length nodes.now }
    requires marks { marks_of kept.now ≡ map is_held (instances_of nodes.now (D.states drivers.old)) }
    requires leaves { AreServed (D.states drivers.old) nodes.now }
    requires room { (kept_at kept.now uid).held ≡ true → 0 < notes.old.reserve }
    ensures drivers { let calls = releases_at nodes.now uid (D.states drivers.old) in
        D.states drivers.new ≡ roster_after nodes.now calls (D.states drivers.old) }
    ensures instances { let left = let_go (leaf_instance (D.states drivers.old) (leaf_at nodes.now uid)) in
        instances_of nodes.now (D.states drivers.new) ≡ slice_set (instances_of nodes.now (D.states drivers.old)) uid left }
    ensures leaves { AreServed (D.states drivers.new) nodes.now }
    ensures notes { notes.new.list ≡ notes.old.list ++ quenched_notes runner (releases_at nodes.now uid (D.states drivers.old)) }
    ensures reserve { notes.new.reserve + length (releases_at nodes.now uid (D.states drivers.old)) ≡ notes.old.reserve }
    ensures full { notes.new.full ≡ notes.old.full }
{
    match &node(nodes, uid).leaf {
        Some(leaf) => {
            if kept_by(kept, uid).held {
                drivers.halted(leaf.driver, leaf.instance);
                notes.push_reserved(Note::Quenched { runner, uid });
            }
        }
        None => {}
    }
}

/// Halts each leaf that is held, by uid, and brings all nodes to rest. It allocates no memory and
/// runs no script.
pub fn quench_nodes<D: Drivers>(
    runner: u8,
    nodes: &[Node],
    kept: &mut [Kept],
    drivers: &mut D,
    notes: &mut Notes,
)
    requires few { length nodes.now < 2 ^ 32 }
    requires marks { marks_of kept.old ≡ map is_held (instances_of nodes.now (D.states drivers.old)) }
    requires leaves { AreServed (D.states drivers.old) nodes.now }
    requires room { leaves_in nodes.now ≤ notes.old.reserve }
    ensures drivers { let calls = releases_in nodes.now (D.states drivers.old) in
        D.states drivers.new ≡ roster_after nodes.now calls (D.states drivers.old) }
    ensures instances { instances_of nodes.now (D.states drivers.new) ≡ map let_go (instances_of nodes.now (D.states drivers.old)) }
    ensures leaves { AreServed (D.states drivers.new) nodes.now }
    ensures rest { (uid : ℕ) → kept_at kept.new uid ≡ at_rest }
    ensures marks { marks_of kept.new ≡ map is_held (instances_of nodes.now (D.states drivers.new)) }
    ensures notes { notes.new.list ≡ notes.old.list ++ quenched_notes runner (releases_in nodes.now (D.states drivers.old)) }
    ensures reserve { notes.new.reserve + length (releases_in nodes.now (D.states drivers.old)) ≡ notes.old.reserve }
    ensures full { notes.new.full ≡ notes.old.full }
{
    for uid in 0..nodes.len() as u32 {
        quench_leaf(runner, nodes, kept, drivers, uid, notes);
        keep(
            kept,
            uid,
            Kept {
                status: Status::Idle,
                memo: Memo::Nothing,
                held: false,
            },
        );
    }
}
