//! Heads: the conditions with which the children of sequences begin.

ghost use Rattle.std.specs.Prelude.{◌≡◌};
ghost use Rattle.plan_reorder.specs.Looked.{condition_at, head_at};

use plan_tree::Node;
use slab::Slab;
use spec_plan::{Head, Part};

/// The condition of this key.
fn condition_at(nodes: &Slab<Node>, key: usize) -> Option<Head>
    ensures { result ≡ condition_at nodes.now key }
{
    match nodes.get(key)?.part {
        Part::Condition(row) => Some(Head { key, row }),
        _ => None,
    }
}

/// The head of a sequence's child.
pub(crate) fn head_at(nodes: &Slab<Node>, key: usize) -> Option<Head>
    ensures { result ≡ head_at nodes.now key }
{
    let node = nodes.get(key)?;
    match node.part {
        Part::Condition(row) => Some(Head { key, row }),
        Part::Fallback => condition_at(nodes, *node.children.as_slice().first()?),
        Part::Goals | Part::Sequence(_) | Part::Action(_) => None,
    }
}
