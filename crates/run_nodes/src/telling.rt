ghost use Rattle.std.specs.Prelude.{◌≡◌, ◌∷◌, [], ℤ, List, Option, slice_set};
ghost use Rattle.spec_script.specs.declared.value.Value.{Value};
ghost use Rattle.run_arena.specs.declared.nodes.Kept.{Kept};
ghost use Rattle.run_arena.specs.Ends.{StaysFit};
ghost use Rattle.run_arena.specs.Rosters.{AreServed, instances_of, roster_after};
ghost use Rattle.run_arena.specs.Scenes.{scene};
ghost use Rattle.run_nodes.specs.Tellings.{CanBeTold, telling_at};

use run_arena::{Node, node};
use run_driver::Drivers;
use spec_world::Telling;

/// Tells the leaf with this uid what it answers, in place of what it was told before: its driver is told, and nothing
/// else changes. It allocates no memory, and moves what is told.
pub fn tell_leaf<D: Drivers>(nodes: &[Node], drivers: &mut D, uid: u32, telling: Telling)
    requires leaves { AreServed (D.states drivers.old) nodes.now }
    requires told { CanBeTold nodes.now uid }
    ensures drivers { let call = telling_at nodes.now (D.states drivers.old) uid telling in
        D.states drivers.new ≡ roster_after nodes.now (call ∷ []) (D.states drivers.old) }
    ensures instances { let call = telling_at nodes.now (D.states drivers.old) uid telling in
        instances_of nodes.now (D.states drivers.new) ≡ slice_set (instances_of nodes.now (D.states drivers.old)) uid call.left }
    ensures fits { (kept : List Kept) (board : List (Option Value)) (facts : List ℤ) →
        let before = scene kept board facts (D.states drivers.old) in
        StaysFit nodes.now before (scene kept board facts (D.states drivers.new)) }
{
    match &node(nodes, uid).leaf {
        Some(leaf) => drivers.tell(leaf.driver, leaf.instance, telling),
        None => unreachable!(),
    }
}
