ghost use Rattle.std.specs.Prelude.{◌≡◌, ◌<◌, IfOk, IsTrue, false, length};
ghost use Rattle.std.specs.List.{list_all, list_any};
ghost use Rattle.std.specs.Ordering.{int_cmp};
ghost use Rattle.spec_script.specs.Operators.{compares};
ghost use Rattle.spec_world.specs.Worlds.{IsValidWorld};
ghost use Rattle.spec_plan.specs.Achievers.{test_of};
ghost use Rattle.plan_trial.specs.Roots.{TellRootOnce};
ghost use Rattle.spec_plan.specs.Modelled.{decided, holds, is_failed_root};
ghost use Rattle.plan_trial.specs.Tasks.{AreTests, HaveFacts};

use base_texts::NoMemory;
use plan_tree::test_of;
use run_driver::FactTable;
use spec_plan::{Test, Verdict};
use spec_run::{Answer, Note};
use spec_script::Cmp;
use spec_world::World;
use std::alloc::Global;

/// The test of the condition of this row, if it has one.
fn test_at(world: &World, row: u32) -> Option<Test>
    ensures { result ≡ test_of world.now.rows row }
{
    match world.rows.list().get(row as usize) {
        Some(found) => test_of(&found.sort),
        None => None,
    }
}

/// The tests of a world's goals.
pub fn goal_tests(alloc: Global, world: &World) -> Result<Vec<Test>, NoMemory>
    requires { IsValidWorld world.now }
    ensures { IfOk result (λ tests. AreTests world.now tests.items) }
{
    let mut tests = Vec::new(alloc);
    for goal in world.goals.list() {
        match test_at(world, *goal) {
            Some(test) => tests.push(test)?,
            None => unreachable!(),
        }
    }
    Ok(tests)
}

/// Whether a comparison holds of a number and the wanted one.
fn compares(op: Cmp, value: i64, wanted: i64) -> bool
    ensures { result ≡ compares op (int_cmp value wanted) }
{
    match op {
        Cmp::Equal => value == wanted,
        Cmp::Differ => value != wanted,
        Cmp::Less => value < wanted,
        Cmp::AtMost => value <= wanted,
        Cmp::More => value > wanted,
        Cmp::AtLeast => value >= wanted,
    }
}

/// Whether a test is true.
fn holds(facts: &FactTable, test: &Test) -> bool
    requires { test.now.fact < length facts.now }
    ensures { result ≡ holds facts.now test.now }
{
    compares(test.op, facts.get(test.fact), test.value)
}

/// Whether the test at this place is false, where there is one.
fn fails_at(facts: &FactTable, tests: &[Test], place: usize) -> bool
    requires { HaveFacts (length facts.now) tests.now }
    ensures { IsTrue result → list_all (holds facts.now) tests.now ≡ false }
{
    match tests.get(place) {
        Some(test) => !holds(facts, test),
        None => false,
    }
}

/// Whether all tests are true. `doubt` is the place of the first one that was false when this was
/// asked last. It is looked at first, since mostly it is false still.
fn all_hold(facts: &FactTable, tests: &[Test], doubt: &mut usize) -> bool
    requires { HaveFacts (length facts.now) tests.now }
    ensures { result ≡ list_all (holds facts.now) tests.now }
{
    if fails_at(facts, tests, *doubt) {
        return false;
    }
    for (place, test) in tests.iter().enumerate() {
        if !holds(facts, test) {
            *doubt = place;
            return false;
        }
    }
    true
}

/// Whether the root failed by these notes. The note of its answer is looked for from the end, where a
/// tick has it.
fn has_failed_root(notes: &[Note]) -> bool
    requires { TellRootOnce notes.now }
    ensures { result ≡ list_any is_failed_root notes.now }
{
    for note in notes.iter().rev() {
        if let Note::Root { answer, .. } = note {
            return matches!(answer, Answer::Failure);
        }
    }
    false
}

/// What a tick that did not fault decides: the goals first, whatever the root answered, and then a
/// FAILURE of the root. `doubt` is the place of a goal that is looked at first.
pub fn decide(facts: &FactTable, tests: &[Test], notes: &[Note], doubt: &mut usize) -> Verdict
    requires facts { HaveFacts (length facts.now) tests.now }
    requires once { TellRootOnce notes.now }
    ensures { result ≡ decided (list_all (holds facts.now) tests.now) (list_any is_failed_root notes.now) }
{
    if all_hold(facts, tests, doubt) {
        Verdict::Reaches
    } else if has_failed_root(notes) {
        Verdict::Fails
    } else {
        Verdict::GoesOn
    }
}
