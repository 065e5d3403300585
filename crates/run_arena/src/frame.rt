ghost use Rattle.std.specs.Prelude.{◌≡◌, ◌≤◌, [], max, IfOk};
ghost use Rattle.std.specs.Vec.{vec_capacity};
ghost use Rattle.spec_tree.specs.Terms.{depth_of};

use base_texts::NoMemory;
use spec_run::Memo;
use spec_tree::Term;
use std::alloc::Global;

/// A visit that waits for a child.
#[derive(Clone, Copy, Debug)]
pub struct Frame {
    /// The node that is visited.
    pub uid: u32,
    /// The memo after its last move.
    pub memo: Memo,
    /// The place of the child among the node's children, and its uid.
    pub place: u32,
    pub child: u32,
}

/// The height of a term: how many nodes stand one below the other at most.
fn depth(term: &Term) -> usize
    requires { depth_of term.now ≤ 256 }
    ensures { result ≡ depth_of term.now }
{
    let mut below = 0;
    for child in term.children.list() {
        below = depth(child).max(below);
    }
    below + 1
}

/// An empty stack with room for the visits of this term that can be under way at once. The error is
/// want of memory.
pub(crate) fn frames_for(alloc: Global, term: &Term) -> Result<Vec<Frame>, NoMemory>
    requires { depth_of term.now ≤ 256 }
    ensures empty { IfOk result (λ frames. frames.items ≡ []) }
    ensures room { IfOk result (λ frames. vec_capacity frames ≡ max 32 (depth_of term.now)) }
{
    Ok(Vec::with_capacity(alloc, depth(term).max(32))?)
}
