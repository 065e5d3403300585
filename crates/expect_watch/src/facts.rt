ghost use Rattle.std.specs.Prelude.{◌≡◌, IsErr, IsFalse, IsTrue, MatchOption, Ok, length, slice_set};
ghost use Rattle.spec_expect.specs.Stories.{changed, left_by};
ghost use Rattle.spec_run.specs.Leaf.{effects_of, fact_at, made_by};

use run_driver::FactTable;
use spec_world::{How, Set};

/// The value of the fact of this number, and 0 where there is no such fact.
fn value_of(facts: &FactTable, fact: u32) -> i64
    ensures { result ≡ fact_at facts.now fact }
{
    match facts.list().get(fact as usize) {
        Some(value) => *value,
        None => 0,
    }
}

/// Gives the fact of this number a value, where there is such a fact.
fn put(facts: &mut FactTable, fact: u32, value: i64)
    ensures put { facts.new ≡ slice_set facts.old fact value }
    ensures length { length facts.new ≡ length facts.old }
{
    if (fact as usize) < facts.list().len() {
        facts.put(fact, value);
    }
}

/// The value that an effect gives to its fact. None where the sum is no `i64`.
fn made(set: &Set, facts: &FactTable) -> Option<i64>
    ensures { MatchOption result (IsErr (made_by set.now.how set.now.value (fact_at facts.now set.now.fact)))
        (λ n. made_by set.now.how set.now.value (fact_at facts.now set.now.fact) ≡ Ok n) }
{
    match set.how {
        How::To => Some(set.value),
        How::By => value_of(facts, set.fact).checked_add(set.value),
    }
}

/// Applies effects, all of whose values are worked out before the first fact is changed. Whether each had a value; else no
/// fact is changed.
fn apply(sets: &[Set], facts: &mut FactTable) -> bool
    ensures applied { IsTrue result → effects_of sets.now facts.old ≡ Ok facts.new }
    ensures fault { IsFalse result → IsErr (effects_of sets.now facts.old) }
    ensures left { IsFalse result → facts.new ≡ facts.old }
    ensures length { length facts.new ≡ length facts.old }
{
    let [set, rest @ ..] = sets else {
        return true;
    };
    let Some(value) = made(set, facts) else {
        return false;
    };
    if !apply(rest, facts) {
        return false;
    }
    put(facts, set.fact, value);
    true
}

/// Makes the facts those that the effects leave, which a call that was answered has had.
pub fn leave(sets: &[Set], facts: &mut FactTable)
    ensures left { facts.new ≡ left_by (effects_of sets.now facts.old) facts.old }
    ensures length { length facts.new ≡ length facts.old }
{
    let _applied = apply(sets, facts);
}

/// Makes the changes that a block tells.
pub fn change(changes: &[(u32, i64)], facts: &mut FactTable)
    ensures changed { facts.new ≡ changed changes.now facts.old }
    ensures length { length facts.new ≡ length facts.old }
{
    for (fact, value) in changes {
        put(facts, *fact, *value);
    }
}
