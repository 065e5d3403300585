ghost use Rattle.std.specs.Prelude.{◌≡◌, ◌<◌, ◌^◌, length, slice_set};
ghost use Rattle.run_arena.specs.Nodes.{kept_at, node_at};
ghost use Rattle.run_arena.specs.Rosters.{has_driver, leaves_in};

use crate::frame::Frame;
use crate::nodes::{Kept, Node};
use spec_run::{Memo, Status};

/// The nodes of a runner's tree by uid, in pre-order, and what each keeps. Place 0 is no node's.
#[derive(Debug, Drop)]
pub struct Arena {
    pub runner: u8,
    /// The nodes, which never change.
    pub nodes: Vec<Node>,
    pub kept: Vec<Kept>,
    /// The visits of a tick that wait for a child, the topmost last.
    pub frames: Vec<Frame>,
}

/// The status of the node with this uid. It allocates no memory.
pub fn status(arena: &Arena, uid: u32) -> Status
    requires { uid < length arena.now.kept.items }
    ensures { result ≡ (kept_at arena.now.kept.items uid).status }
{
    arena.kept[uid as usize].status
}

/// The memo of the node with this uid. It allocates no memory.
pub fn memo(arena: &Arena, uid: u32) -> Memo
    requires { uid < length arena.now.kept.items }
    ensures { result ≡ (kept_at arena.now.kept.items uid).memo }
{
    arena.kept[uid as usize].memo
}

/// Lends the node with this uid.
pub fn node(nodes: &[Node], uid: u32) -> &Node
    requires { uid < length nodes.now }
    ensures { result.now ≡ node_at nodes.now uid }
{
    &nodes[uid as usize]
}

/// What the node with this uid keeps.
pub fn kept_by(kept: &[Kept], uid: u32) -> Kept
    requires { uid < length kept.now }
    ensures { result ≡ kept_at kept.now uid }
{
    kept[uid as usize]
}

/// Stores what the node with this uid keeps from now on.
pub fn keep(kept: &mut [Kept], uid: u32, now: Kept)
    requires { uid < length kept.old }
    ensures { kept.new ≡ slice_set kept.old uid now }
{
    kept[uid as usize] = now;
}

/// Gives the node with this uid a status.
pub fn set_status(kept: &mut [Kept], uid: u32, status: Status)
    requires { uid < length kept.old }
    ensures { kept.new ≡ slice_set kept.old uid (record (kept_at kept.old uid) { status = status }) }
{
    kept[uid as usize].status = status;
}

/// Gives the node with this uid a memo.
pub fn set_memo(kept: &mut [Kept], uid: u32, memo: Memo)
    requires { uid < length kept.old }
    ensures { kept.new ≡ slice_set kept.old uid (record (kept_at kept.old uid) { memo = memo }) }
{
    kept[uid as usize].memo = memo;
}

/// Marks the leaf with this uid as held, or as not held.
pub fn set_held(kept: &mut [Kept], uid: u32, held: bool)
    requires { uid < length kept.old }
    ensures { kept.new ≡ slice_set kept.old uid (record (kept_at kept.old uid) { held = held }) }
{
    kept[uid as usize].held = held;
}

/// Whether a node is a leaf with a driver.
fn is_leaf(node: &Node) -> bool
    ensures { result ≡ has_driver node.now.leaf }
{
    node.leaf.is_some()
}

/// How many of these nodes are leaves with a driver.
pub fn leaf_count(nodes: &[Node]) -> u32
    requires { length nodes.now < 2 ^ 32 }
    ensures { result ≡ leaves_in nodes.now }
{
    let mut count = 0u32;
    for node in nodes {
        if is_leaf(node) {
            count += 1;
        }
    }
    count
}
