//! New nodes in the slab of a plan tree.

ghost use Rattle.std.specs.Prelude.{◌≡◌, ◌+◌, ◌≤◌, ◌==◌, ℕ, List, Some, [], ◌∷◌, ◌++◌, length, map, position, IfOk, OnErr, OnOk};
ghost use Rattle.slab.specs.Slab.{Slab, HasRoomFor, get, slab_len};
ghost use Rattle.smallvec.specs.SmallVec.{HasRoomFor as HasPlaceFor};
ghost use Rattle.plan_tree.specs.declared.node.Node.{Node};
ghost use Rattle.spec_plan.specs.declared.part.Part.TheVariants.{Condition};
ghost use Rattle.spec_plan.specs.Expansion.{leaves};
ghost use Rattle.plan_tree.specs.Growth.{Adds, AddsLast, AddsNode, Edits, Wraps, blank, branch_tree, parts_of, replaced};

use crate::node::Node;
use base_texts::NoMemory;
use slab::Slab;
use smallvec::SmallVec;
use spec_plan::Part;
use std::alloc::Global;

/// A new sequence: what it is, the rows of the conditions that stand in it, and that of its action.
#[derive(Clone, Copy)]
pub(crate) struct Branch<'a> {
    pub part: Part,
    pub conditions: &'a [u32],
    pub action: Option<u32>,
}

/// A node without children joins the slab.
fn insert(alloc: Global, nodes: &mut Slab<Node>, part: Part, parent: Option<usize>) -> usize
    requires { HasRoomFor nodes.old 1 }
    ensures added { AddsNode nodes.old nodes.new result (blank part parent) }
    ensures capacity { nodes.new.capacity ≡ nodes.old.capacity }
{
    nodes.insert_reserved(Node {
        part,
        parent,
        children: SmallVec::new(alloc),
    })
}

/// A leaf joins the slab, and its key joins these.
fn add_leaf(
    alloc: Global,
    nodes: &mut Slab<Node>,
    keys: &mut SmallVec<usize, 4>,
    parent: usize,
    part: Part,
)
    requires room { HasRoomFor nodes.old 1 }
    requires place { HasPlaceFor keys.old 1 }
    ensures added { (key : ℕ) × AddsNode nodes.old nodes.new key (blank part (Some parent)) ×
        (keys.new.items ≡ keys.old.items ++ key ∷ []) }
    ensures capacity { nodes.new.capacity ≡ nodes.old.capacity }
    ensures places { keys.new.capacity ≡ keys.old.capacity }
{
    let key = insert(alloc, nodes, part, Some(parent));
    keys.push_reserved(key);
}

/// The conditions of these rows join the slab.
fn add_conditions(
    alloc: Global,
    nodes: &mut Slab<Node>,
    keys: &mut SmallVec<usize, 4>,
    parent: usize,
    rows: &[u32],
)
    requires room { HasRoomFor nodes.old (length rows.now) }
    requires place { HasPlaceFor keys.old (length rows.now) }
    requires empty { keys.old.items ≡ [] }
    ensures added { Adds nodes.old nodes.new (Some parent) keys.new.items (leaves keys.new.items (map Condition rows.now)) }
    ensures count { length keys.new.items ≡ length rows.now }
    ensures capacity { nodes.new.capacity ≡ nodes.old.capacity }
    ensures places { keys.new.capacity ≡ keys.old.capacity }
{
    for row in rows {
        add_leaf(alloc, nodes, keys, parent, Part::Condition(*row));
    }
}

/// What stands in a new sequence joins the slab.
fn add_leaves(
    alloc: Global,
    nodes: &mut Slab<Node>,
    keys: &mut SmallVec<usize, 4>,
    parent: usize,
    branch: &Branch<'_>,
)
    requires room { HasRoomFor nodes.old (length (parts_of branch.now.conditions.now branch.now.action)) }
    requires place { HasPlaceFor keys.old (length (parts_of branch.now.conditions.now branch.now.action)) }
    requires empty { keys.old.items ≡ [] }
    ensures added { Adds nodes.old nodes.new (Some parent) keys.new.items
        (leaves keys.new.items (parts_of branch.now.conditions.now branch.now.action)) }
    ensures count { length keys.new.items ≡ length (parts_of branch.now.conditions.now branch.now.action) }
    ensures capacity { nodes.new.capacity ≡ nodes.old.capacity }
{
    add_conditions(alloc, nodes, keys, parent, branch.conditions);
    if let Some(row) = branch.action {
        add_leaf(alloc, nodes, keys, parent, Part::Action(row));
    }
}

/// A node gets these children.
fn set_children(nodes: &mut Slab<Node>, key: usize, children: SmallVec<usize, 4>)
    ensures edited { (node : Node) → get nodes.old key ≡ Some node → Edits nodes.old nodes.new key node.parent children.items node }
    ensures capacity { nodes.new.capacity ≡ nodes.old.capacity }
{
    if let Some(node) = nodes.get_mut(key) {
        node.children = children;
    }
}

/// A node gets this parent.
fn set_parent(nodes: &mut Slab<Node>, key: usize, parent: usize)
    ensures { (node : Node) → get nodes.old key ≡ Some node → Edits nodes.old nodes.new key (Some parent) node.children.items node }
{
    if let Some(node) = nodes.get_mut(key) {
        node.parent = Some(parent);
    }
}

/// The place of a key among these.
pub(crate) fn place_of(keys: &[usize], wanted: usize) -> Option<usize>
    ensures { result ≡ position (λ key. key == wanted) keys.now }
{
    keys.iter().position(|key| *key == wanted)
}

/// The first of these keys that is `old` becomes `new`.
fn replace_key(keys: &mut [usize], old: usize, new: usize)
    ensures { keys.new ≡ replaced old new keys.old }
{
    if let Some(place) = place_of(keys, old) {
        keys[place] = new;
    }
}

/// One child of a node gives way to another.
fn replace_child(nodes: &mut Slab<Node>, key: usize, old: usize, new: usize)
    ensures { (node : Node) → get nodes.old key ≡ Some node →
        Edits nodes.old nodes.new key node.parent (replaced old new node.children.items) node }
{
    if let Some(node) = nodes.get_mut(key) {
        replace_key(&mut node.children, old, new);
    }
}

/// A new sequence joins the slab, which has room for it. `keys` are none yet, with places for what
/// stands in the sequence.
pub(crate) fn add_branch(
    alloc: Global,
    nodes: &mut Slab<Node>,
    mut keys: SmallVec<usize, 4>,
    parent: Option<usize>,
    branch: &Branch<'_>,
) -> usize
    requires room { HasRoomFor nodes.old (1 + length (parts_of branch.now.conditions.now branch.now.action)) }
    requires place { HasPlaceFor keys (length (parts_of branch.now.conditions.now branch.now.action)) }
    requires empty { keys.items ≡ [] }
    ensures added { (leaf_keys : List ℕ) × Adds nodes.old nodes.new parent (result ∷ [])
        (branch_tree result branch.now.part leaf_keys (parts_of branch.now.conditions.now branch.now.action))
        × (length leaf_keys ≡ length (parts_of branch.now.conditions.now branch.now.action)) }
    ensures capacity { nodes.new.capacity ≡ nodes.old.capacity }
{
    let key = insert(alloc, nodes, branch.part, parent);
    add_leaves(alloc, nodes, &mut keys, key, branch);
    set_children(nodes, key, keys);
    key
}

/// How many nodes stand in a new sequence.
fn leaf_count(branch: &Branch<'_>) -> usize
    ensures { result ≡ length (parts_of branch.now.conditions.now branch.now.action) }
{
    match branch.action {
        Some(_) => branch.conditions.len() + 1,
        None => branch.conditions.len(),
    }
}

/// No keys, with places for what stands in a new sequence.
pub(crate) fn leaf_keys(alloc: Global, branch: &Branch<'_>) -> Result<SmallVec<usize, 4>, NoMemory>
    ensures empty { IfOk result (λ keys. keys.items ≡ []) }
    ensures places { IfOk result (λ keys. HasPlaceFor keys (length (parts_of branch.now.conditions.now branch.now.action))) }
{
    Ok(SmallVec::with_capacity(alloc, leaf_count(branch))?)
}

/// The slab gets room for a new sequence and this many nodes besides.
pub(crate) fn reserve(
    nodes: &mut Slab<Node>,
    branch: &Branch<'_>,
    more: usize,
) -> Result<(), NoMemory>
    requires { more ≤ 2 }
    ensures room { OnOk result (HasRoomFor nodes.new (more + length (parts_of branch.now.conditions.now branch.now.action))) }
    ensures kept { nodes.new ≡ record nodes.old { capacity = nodes.new.capacity } }
{
    nodes.reserve(leaf_count(branch) + more)?;
    Ok(())
}

/// The children of a node, with a place for one more.
fn children_and_one(
    alloc: Global,
    nodes: &Slab<Node>,
    key: usize,
) -> Result<SmallVec<usize, 4>, NoMemory>
    ensures same { IfOk result (λ keys. (node : Node) → get nodes.now key ≡ Some node → keys.items ≡ node.children.items) }
    ensures place { IfOk result (λ keys. HasPlaceFor keys 1) }
{
    let old: &[usize] = match nodes.get(key) {
        Some(node) => &node.children,
        None => &[],
    };
    let mut keys = SmallVec::from_slice(alloc, old)?;
    keys.reserve(1)?;
    Ok(keys)
}

/// A condition and a new sequence, as the children of a fallback.
fn pair(alloc: Global, condition: usize, sequence: usize) -> SmallVec<usize, 4>
    ensures { result.items ≡ condition ∷ sequence ∷ [] }
{
    let mut keys = SmallVec::new(alloc);
    keys.push_reserved(condition);
    keys.push_reserved(sequence);
    keys
}

/// A new sequence becomes the last child of its parent. Refused for want of memory (out of memory),
/// only the slab's room has changed.
pub(crate) fn add_last(
    alloc: Global,
    nodes: &mut Slab<Node>,
    parent: usize,
    branch: &Branch<'_>,
) -> Result<usize, NoMemory>
    ensures added { IfOk result (λ key. AddsLast nodes.old nodes.new parent key branch.now.part
        (parts_of branch.now.conditions.now branch.now.action)) }
    ensures kept { OnErr result (nodes.new ≡ record nodes.old { capacity = nodes.new.capacity }) }
{
    let keys = leaf_keys(alloc, branch)?;
    let mut children = children_and_one(alloc, nodes, parent)?;
    reserve(nodes, branch, 1)?;
    let key = add_branch(alloc, nodes, keys, Some(parent), branch);
    children.push_reserved(key);
    set_children(nodes, parent, children);
    Ok(key)
}

/// A fallback of a condition and a new sequence takes the condition's place. Refused for want of
/// memory, only the slab's room has changed.
pub(crate) fn wrap(
    alloc: Global,
    nodes: &mut Slab<Node>,
    parent: usize,
    condition: usize,
    branch: &Branch<'_>,
) -> Result<usize, NoMemory>
    ensures added { IfOk result (λ key. Wraps nodes.old nodes.new parent condition key branch.now.part
        (parts_of branch.now.conditions.now branch.now.action)) }
    ensures kept { OnErr result (nodes.new ≡ record nodes.old { capacity = nodes.new.capacity }) }
{
    let keys = leaf_keys(alloc, branch)?;
    reserve(nodes, branch, 2)?;
    let fallback = insert(alloc, nodes, Part::Fallback, Some(parent));
    let key = add_branch(alloc, nodes, keys, Some(fallback), branch);
    set_children(nodes, fallback, pair(alloc, condition, key));
    replace_child(nodes, parent, condition, fallback);
    set_parent(nodes, condition, fallback);
    Ok(key)
}
