ghost use Rattle.std.specs.Prelude.{◌≡◌, ◌<◌, ◌≤◌, ◌+◌, ◌*◌, ◌++◌, ◌^◌, [], ◌∷◌, ◌-◌, IfOk, List, OnOk, length, map, take};
ghost use Rattle.spec_exclusive.specs.Pairs.{meeting_pairs, pair_of, pairs_with};
ghost use Rattle.spec_exclusive.specs.declared.pair.Pair.{Pair as FoundPair};
ghost use Rattle.spec_tree.specs.Terms.{node_count};
ghost use Rattle.spec_tree.specs.Trees.{IsValid, IsWithinLimits};
ghost use Rattle.tree_exclusive.specs.Runs.{AreApart};
ghost use Rattle.tree_exclusive.specs.Steps.{IsFound, Rising, below, beyond, by_steps, pairs_from, steps_after};

use crate::laws::no_run_holds_exclusive_leaves_together;
use crate::leaves::leaves_of;
use crate::meetings::{may_meet, meeting_at};
use crate::steps::Step;
use base_tables::nodes_in;
use base_texts::{Name, NoMemory};
use spec_exclusive::{Meeting, Pair};
use spec_tree::{Term, Tree};
use std::alloc::Global;

/// The most pairs that are kept.
const MOST_PAIRS: usize = 100;

/// The pairs of leaves that may be held together.
#[derive(Drop)]
pub struct Found {
    /// The first ones, 100 at most.
    pub pairs: Vec<Pair>,
    /// How many there are.
    pub count: u64,
}

/// How many of these leaves stand before this uid.
fn count_before(leaves: &[u32], end: u32) -> usize
    requires { Rising 0 leaves.now }
    ensures { result ≡ length (below end leaves.now) }
{
    leaves.partition_point(|leaf| *leaf < end)
}

/// Keeps the pairs of a leaf and each of these, which it may meet so, while fewer than 100 are kept. The
/// error is want of memory.
fn keep_each(
    earlier: u32,
    later: &[u32],
    meeting: Meeting,
    pairs: &mut Vec<Pair>,
) -> Result<(), NoMemory>
    ensures { OnOk result (pairs.new.items
        ≡ pairs.old.items ++ take (100 - length pairs.old.items) (map (λ u. pair_of earlier u meeting) later.now)) }
{
    for uid in later {
        if pairs.len() >= MOST_PAIRS {
            return Ok(());
        }
        pairs.push(Pair {
            earlier,
            later: *uid,
            meeting,
        })?;
    }
    Ok(())
}

/// Adds the pairs of a leaf and each of these later ones, which it meets so. The error is want of memory.
fn add_each(
    earlier: u32,
    later: &[u32],
    meeting: Meeting,
    found: &mut Found,
) -> Result<(), NoMemory>
    requires { found.old.count + length later.now < 2 ^ 63 }
    ensures pairs { OnOk result ((pairs : List FoundPair) → IsFound found.old pairs →
        IsFound found.new (pairs ++ pairs_with (λ u v. meeting) earlier later.now)) }
    ensures few { OnOk result (found.new.count ≤ found.old.count + length later.now) }
{
    if !may_meet(meeting) {
        return Ok(());
    }
    keep_each(earlier, later, meeting, &mut found.pairs)?;
    found.count += later.len() as u64;
    Ok(())
}

/// Adds the pairs of a leaf, to which these steps lead, and of those of these later leaves that it may
/// meet: those that stand below the last child to which a step leads are met by the steps after it. The
/// error is want of memory.
fn add_with(earlier: u32, later: &[u32], steps: &[Step], found: &mut Found) -> Result<(), NoMemory>
    requires count { found.old.count + length later.now < 2 ^ 63 }
    requires rising { Rising 0 later.now }
    ensures pairs { OnOk result ((pairs : List FoundPair) → IsFound found.old pairs →
        IsFound found.new (pairs ++ pairs_with (λ u. by_steps steps.now) earlier later.now)) }
    ensures few { OnOk result (found.new.count ≤ found.old.count + length later.now) }
{
    let [step, more @ ..] = steps else {
        return add_each(earlier, later, Meeting::Together, found);
    };
    let (inside, outside) = later.split_at(count_before(later, step.end));
    add_with(earlier, inside, more, found)?;
    add_each(earlier, outside, step.meeting, found)
}

/// Adds the pairs of the node with this uid, to which these steps lead, where it is the first of these
/// leaves; and gives the leaves after it. The error is want of memory.
fn add_own<'a>(
    uid: u32,
    leaves: &'a [u32],
    steps: &[Step],
    found: &mut Found,
) -> Result<&'a [u32], NoMemory>
    requires next { uid + 1 < 2 ^ 32 }
    requires count { found.old.count + length leaves.now < 2 ^ 63 }
    requires rising { Rising uid leaves.now }
    ensures rest { IfOk result (λ rest. rest.now ≡ beyond (uid + 1) leaves.now) }
    ensures pairs { OnOk result ((pairs : List FoundPair) → IsFound found.old pairs →
        IsFound found.new (pairs ++ pairs_from (λ u. steps.now) (below (uid + 1) leaves.now) (beyond (uid + 1) leaves.now))) }
    ensures few { OnOk result (found.new.count ≤ found.old.count + length leaves.now) }
{
    match leaves {
        [leaf, more @ ..] if *leaf == uid => {
            add_with(uid, more, steps, found)?;
            Ok(more)
        }
        _ => Ok(leaves),
    }
}

/// Adds the pairs of the leaves of a term with later ones, where its first node has this uid and these
/// steps lead to it; and gives the leaves after the term. The steps are left as they were. The error is
/// want of memory.
fn add_below<'a>(
    term: &Term,
    uid: u32,
    leaves: &'a [u32],
    steps: &mut Vec<Step>,
    found: &mut Found,
) -> Result<&'a [u32], NoMemory>
    requires nodes { uid + node_count term.now < 2 ^ 32 }
    requires leaves { length leaves.now ≤ 4096 }
    requires count { found.old.count + 4096 * node_count term.now < 2 ^ 63 }
    requires rising { Rising uid leaves.now }
    ensures rest { IfOk result (λ rest. rest.now ≡ beyond (uid + node_count term.now) leaves.now) }
    ensures steps { OnOk result (steps.new.items ≡ steps.old.items) }
    ensures pairs { OnOk result ((pairs : List FoundPair) → IsFound found.old pairs →
        IsFound found.new (pairs ++ pairs_from (steps_after steps.old.items uid term.now)
        (below (uid + node_count term.now) leaves.now) (beyond (uid + node_count term.now) leaves.now))) }
    ensures few { OnOk result (found.new.count ≤ found.old.count + 4096 * node_count term.now) }
{
    let mut rest = add_own(uid, leaves, steps.as_slice(), found)?;
    let mut first = uid + 1;
    let mut place = 0;
    for child in term.children.list() {
        let end = first + nodes_in(child);
        let meeting = meeting_at(term.kind, place);
        steps.push(Step { end, meeting })?;
        rest = add_below(child, first, rest, steps, found)?;
        steps.pop();
        first = end;
        place += 1;
    }
    Ok(rest)
}

/// The pairs of leaves of a tree with listed IDs that may be held together. The memory that it takes
/// grows with the number of nodes, and the steps with it and the depth. The error is want of memory.
pub fn find_pairs(alloc: Global, tree: &Tree, ids: &[Name]) -> Result<Found, NoMemory>
    requires { IsWithinLimits tree.now }
    ensures pairs { IfOk result (λ found. IsFound found (meeting_pairs ids.now tree.now)) }

    // Where all of them are kept, no run of a valid tree holds two other leaves with these IDs together.
    ensures apart { IfOk result (λ found. IsValid tree.now → found.count ≤ 100 → AreApart ids.now tree.now found.pairs.items) }
{
    no_run_holds_exclusive_leaves_together();
    let leaves = leaves_of(alloc, tree, ids)?;
    let mut found = Found {
        pairs: Vec::new(alloc),
        count: 0,
    };
    let mut steps = Vec::new(alloc);
    add_below(&tree.term, 1, leaves.as_slice(), &mut steps, &mut found)?;
    Ok(found)
}
