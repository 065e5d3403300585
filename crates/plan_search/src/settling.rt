//! How a new sequence is raised until nothing conflicts.

ghost use Rattle.std.specs.Prelude.{◌≡◌, ◌≤◌, ◌<◌, ◌^◌, Option, is_some};
ghost use Rattle.spec_world.specs.declared.world.World.{World};
ghost use Rattle.spec_plan.specs.Forests.{Forest, times};
ghost use Rattle.spec_plan.specs.Settling.{first_conflict};
ghost use Rattle.plan_tree.specs.Sizes.{size};
ghost use Rattle.plan_tree.specs.Stands.{IsSequenceOf, StandsFor};
ghost use Rattle.plan_search.specs.Grown.{IsSettled};

use plan_reorder::{conflict, has_conflict, raise};
use plan_tree::PlanTree;

/// How often a sequence was raised, and the first conflict where no raise is left.
#[derive(Clone, Copy)]
pub(crate) struct Settled {
    pub raises: u32,
    pub conflict: Option<(usize, usize)>,
}

/// Whether anything conflicts after so many raises of a new sequence. What made it be raised mostly conflicts still, so
/// after a raise its action is looked at first.
fn is_unsettled(t: &PlanTree, sequence: usize, raises: u32) -> bool
    ensures { (world : World) (tree : Forest) → StandsFor t.now world tree → 1 ≤ times sequence tree →
        result ≡ is_some (first_conflict world.rows tree) }
{
    if raises == 0 {
        conflict(t).is_some()
    } else {
        has_conflict(t, sequence)
    }
}

/// Raises a new sequence as long as anything conflicts and a raise is left. Each raise brings it
/// nearer to the front, so there are fewer than the tree has nodes.
pub fn settle(t: &mut PlanTree, sequence: usize) -> Settled
    requires { (world : World) × (tree : Forest) × StandsFor t.old world tree × IsSequenceOf tree sequence × (size tree < 2 ^ 32) }
    ensures { (world : World) (tree : Forest) → StandsFor t.old world tree → IsSequenceOf tree sequence →
        IsSettled t.new world sequence tree result }
{
    for raises in 0..t.nodes.len() as u32 {
        if !is_unsettled(t, sequence, raises) {
            return Settled {
                raises,
                conflict: None,
            };
        }
        if !raise(t, sequence) {
            return Settled {
                raises,
                conflict: conflict(t),
            };
        }
    }
    unreachable!()
}
