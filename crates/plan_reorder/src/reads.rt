//! Which facts heads read.

ghost use Rattle.std.specs.Prelude.{◌≡◌, ℕ, Some, true};
ghost use Rattle.std.specs.List.{list_any};
ghost use Rattle.spec_plan.specs.declared.domain.Test.{Test};
ghost use Rattle.spec_plan.specs.Forests.{is_sequence};
ghost use Rattle.plan_tree.specs.Growth.{rule_test};
ghost use Rattle.spec_plan.specs.declared.head.Head.{Head};
ghost use Rattle.plan_reorder.specs.Looked.{head_at};
ghost use Rattle.plan_reorder.specs.Reads.{IsRead, is_read};

use crate::heads::head_at;
use crate::raising::is_sequence;
use plan_tree::{PlanTree, Rule};
use spec_plan::Part;
use spec_world::Set;

/// How many places the table has. It is copied at each node with children, so it has fewer places than
/// a world may have facts.
pub(crate) const PLACES: usize = 256;

/// For each place whether a fact at it is read. Facts share a place where their numbers are the same
/// modulo `PLACES`.
pub(crate) type Read = [bool; PLACES];

/// Whether a fact counts as read, as each does that shares the place of one that is read, or whose
/// place is past the table.
fn is_read(read: &[bool], fact: u32) -> bool
    ensures { result ≡ is_read read.now fact }
{
    match read.get(fact as usize % PLACES) {
        Some(own) => *own,
        None => true,
    }
}

/// Whether one of these effects touches a fact that counts as read.
pub(crate) fn touches(effects: &[Set], read: &[bool]) -> bool
    ensures { result ≡ list_any (λ effect. is_read read.now effect.fact) effects.now }
{
    effects.iter().any(|effect| is_read(read, effect.fact))
}

/// A fact counts as read from now on.
fn add_fact(read: &mut [bool], fact: u32)
    ensures kept { (own : ℕ) → is_read read.old own ≡ true → is_read read.new own ≡ true }
    ensures added { is_read read.new fact ≡ true }
{
    let place = fact as usize % PLACES;
    if place < read.len() {
        read[place] = true;
    }
}

/// The fact that the condition of this row tests, if it compares one, is read from now on.
fn add_test(rules: &[Rule], row: u32, read: &mut [bool])
    ensures kept { (own : ℕ) → is_read read.old own ≡ true → is_read read.new own ≡ true }
    ensures added { (test : Test) → rule_test rules.now row ≡ Some test → is_read read.new test.fact ≡ true }
{
    if let Some(rule) = rules.get(row as usize) {
        if let Some(test) = &rule.test {
            add_fact(read, test.fact);
        }
    }
}

/// What the head of a child reads is read from now on, where the child stands in a sequence.
pub(crate) fn add_head(t: &PlanTree, part: Part, key: usize, read: &mut [bool])
    ensures kept { (own : ℕ) → is_read read.old own ≡ true → is_read read.new own ≡ true }
    ensures added { (head : Head) → is_sequence part ≡ true → head_at t.now.nodes key ≡ Some head → IsRead t.now.rules read.new head }
{
    if is_sequence(part) {
        if let Some(head) = head_at(&t.nodes, key) {
            add_test(t.rules.list(), head.row, read);
        }
    }
}
