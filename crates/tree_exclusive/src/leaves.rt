ghost use Rattle.std.specs.Prelude.{◌≡◌, ◌<◌, ◌≤◌, ◌+◌, ◌++◌, ◌^◌, IfOk, OnOk, filter, length, nat_eq, not};
ghost use Rattle.std.specs.List.{list_any};
ghost use Rattle.std.specs.Option.{option_copied};
ghost use Rattle.spec_dead.specs.Dead.{dead_nodes};
ghost use Rattle.spec_exclusive.specs.Pairs.{is_leaf, is_listed, listed_leaves, listed_marks, marked, missing_leaf};
ghost use Rattle.spec_tree.specs.Terms.{leaf_ids, node_count};
ghost use Rattle.spec_tree.specs.Trees.{IsWithinLimits};
ghost use Rattle.tree_exclusive.specs.Steps.{living_marked};

use base_texts::{Name, NoMemory};
use spec_tree::{Kind, Term, Tree};
use std::alloc::Global;
use tree_dead::dead;

/// Whether an ID is among these.
fn is_listed(ids: &[Name], id: &Name) -> bool
    ensures { result ≡ is_listed ids.now id.now }
{
    for listed in ids {
        if listed.list() == id.list() {
            return true;
        }
    }
    false
}

/// Whether a uid is among these.
fn is_among(uids: &[u32], uid: u32) -> bool
    ensures { result ≡ list_any (nat_eq uid) uids.now }
{
    for other in uids {
        if uid == *other {
            return true;
        }
    }
    false
}

/// Whether a node of this kind is a leaf, which a row stands for.
fn is_leaf(kind: Kind) -> bool
    ensures { result ≡ is_leaf kind }
{
    matches!(kind, Kind::Leaf)
}

/// Whether a leaf of a term has this ID.
fn has_leaf(term: &Term, id: &Name) -> bool
    ensures { result ≡ is_listed (leaf_ids term.now) id.now }
{
    if is_leaf(term.kind) && term.id.list() == id.list() {
        return true;
    }
    for child in term.children.list() {
        if has_leaf(child, id) {
            return true;
        }
    }
    false
}

/// The first of these IDs that no leaf of the tree has.
pub fn missing_leaf<'a>(tree: &Tree, ids: &'a [Name]) -> Option<&'a Name>
    ensures { option_copied result ≡ missing_leaf ids.now tree.now }
{
    for id in ids {
        if !has_leaf(&tree.term, id) {
            return Some(id);
        }
    }
    None
}

/// Adds the leaves of a term with listed IDs that are not among the dead nodes, where its first node has
/// this uid, and gives the uid after its last node. The error is want of memory.
fn add_leaves(
    term: &Term,
    ids: &[Name],
    dead: &[u32],
    uid: u32,
    leaves: &mut Vec<u32>,
) -> Result<u32, NoMemory>
    requires { uid + node_count term.now < 2 ^ 32 }
    ensures uids { OnOk result (leaves.new.items ≡ leaves.old.items ++ living_marked dead.now uid (listed_marks ids.now term.now)) }
    ensures next { IfOk result (λ next. next ≡ uid + node_count term.now) }
{
    if is_leaf(term.kind) && is_listed(ids, &term.id) && !is_among(dead, uid) {
        leaves.push(uid)?;
    }
    let mut next = uid + 1;
    for child in term.children.list() {
        next = add_leaves(child, ids, dead, next, leaves)?;
    }
    Ok(next)
}

/// The leaves of a tree with listed IDs that are not dead, by their uids in rising order. The error is
/// want of memory.
pub(crate) fn leaves_of(alloc: Global, tree: &Tree, ids: &[Name]) -> Result<Vec<u32>, NoMemory>
    requires { IsWithinLimits tree.now }
    ensures leaves { IfOk result (λ leaves. leaves.items ≡ listed_leaves ids.now tree.now) }
    ensures few { IfOk result (λ leaves. length leaves.items ≤ 4096) }
{
    let dead = dead(alloc, tree)?;
    let mut leaves = Vec::new(alloc);
    add_leaves(&tree.term, ids, dead.as_slice(), 1, &mut leaves)?;
    Ok(leaves)
}
