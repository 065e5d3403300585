//! The calls of the modelled runs of a plan, as its drivers count them, and the drivers that a plan needs.

ghost use Rattle.std.specs.Prelude.{map};
ghost use Rattle.spec_run.specs.Drivers.{NothingHeld};

use base_outside::{MemClock, MemSink};
use base_texts::NoMemory;
use cli_program::add_driver;
use run_driver::Driver;
use run_leaves::Conditions;
use std::alloc::Global;
use std::test::Fail;
use test_bed::{answer, answer_with, shelf_of_rows};

/// The exit of a plan, what its drivers have counted, and whether they hold anything.
fn counted(alloc: Global, words: &[&str], lines: &str) -> Result<String, NoMemory> {
    let mut shelf = shelf_of_rows(alloc, "", lines)?;
    let mut sink = MemSink::new(alloc, Vec::new(alloc));
    let mut clock = MemClock::new(Vec::new(alloc));
    let ending = answer(alloc, words, &mut shelf, &mut sink, &mut clock)?;
    Ok(format!(in alloc; "{:?}{}", ending.exit, ending.counts)?)
}

/// One action leads to the goal, and takes a while.
const TIMED: &str = "fact x 0 / condition G is x == 1 / action A timed 100 / sets x = 1 / goal G";

/// Words, the lines of a world, and the counts.
static COUNTED: [(&[&str], &str, &str); 4] = [
    (
        &["plan", "W"],
        TIMED,
        "Done; Condition 3 0 0 trail 1000007000013; Timed 1 1 0 trail 1000005",
    ),
    // What still runs after the last tick is halted.
    (
        &["plan", "W", "--ticks", "1"],
        TIMED,
        "NoPlan; Condition 2 0 0 trail 1000004; Timed 1 0 1 trail 1000006",
    ),
    (
        &["plan", "W"],
        "fact x 0 / condition G is x == 1 / goal G",
        "NoPlan; Condition 1 0 0 trail 1",
    ),
    // Nothing runs without a goal.
    (&["plan", "W"], "fact x 0 / condition G is x == 1", "World"),
];

/// Plans, with the counts of each driver that was called: those of all modelled runs, each of which
/// begins anew.
#[test]
fn drivers_count_the_calls_of_modelled_runs(rt: HostRuntime) -> Result<(), Fail> {
    let rows = &COUNTED;
    for (words, lines, want) in rows {
        let counts = counted(rt.alloc(), words, lines)?;
        assert_eq!(rt; counts.as_str(), *want, "{words:?} {lines}");
    }
    Ok(())
}

/// The exit of a plan whose write of this number fails, and what its drivers have counted.
fn counted_at_failure(alloc: Global, lines: &str, write: u64) -> Result<String, NoMemory> {
    let mut shelf = shelf_of_rows(alloc, "", lines)?;
    let mut sink = MemSink::new(alloc, vec![in alloc; (write, 0)]?);
    let mut clock = MemClock::new(Vec::new(alloc));
    let ending = answer(alloc, &["plan", "W"], &mut shelf, &mut sink, &mut clock)?;
    Ok(format!(in alloc; "{:?}{}", ending.exit, ending.counts)?)
}

/// A plan is made whole before its first line is written: where this write fails, all modelled runs were made.
#[test]
fn a_plan_is_made_before_its_first_line(rt: HostRuntime) -> Result<(), Fail> {
    for (write, want) in [
        (
            0,
            "Done; Condition 3 0 0 trail 1000007000013; Timed 1 1 0 trail 1000005",
        ),
        (
            1,
            "Write; Condition 3 0 0 trail 1000007000013; Timed 1 1 0 trail 1000005",
        ),
    ] {
        assert_eq!(rt;
            counted_at_failure(rt.alloc(), TIMED, write)?.as_str(),
            want
        );
    }
    Ok(())
}

/// What a plan writes with these drivers, and its exit after it.
fn planned_with(
    alloc: Global,
    lines: &str,
    roster: &mut Vec<Box<dyn Driver>>,
) -> Result<String, NoMemory>
    requires { NothingHeld (map (λ b. state b) roster.old.items) }
{
    let mut shelf = shelf_of_rows(alloc, "", lines)?;
    let mut sink = MemSink::new(alloc, Vec::new(alloc));
    let exit = answer_with(alloc, &["plan", "W"], &mut shelf, &mut sink, roster)?;
    let text = str::from_utf8(sink.list()).unwrap_or("?");
    Ok(format!(in alloc; "{text}{exit:?}")?)
}

/// What a plan writes without drivers, and its exit after it.
fn without_drivers(alloc: Global, lines: &str) -> Result<String, NoMemory> {
    let mut roster: Vec<Box<dyn Driver>> = Vec::new(alloc);
    planned_with(alloc, lines, &mut roster)
}

/// What a plan writes with a driver of conditions alone, and its exit after it.
fn with_conditions(alloc: Global, lines: &str) -> Result<String, NoMemory> {
    let mut roster: Vec<Box<dyn Driver>> = Vec::new(alloc);
    add_driver(&mut roster, Box::new(alloc, Conditions::new(alloc))?)?;
    planned_with(alloc, lines, &mut roster)
}

/// Worlds with a row whose kind has no driver: the first one in the script is named, whether or not
/// the plan would need it. A goal is asked for before.
#[test]
fn plans_need_their_drivers(rt: HostRuntime) -> Result<(), Fail> {
    let alloc = rt.alloc();
    for (lines, without, with) in [
        (
            "fact x 1 / condition C is x == 1 / action T timed 0 / action G gate 1 / goal C",
            "refused world NoDriver Condition\nWorld",
            "refused world NoDriver Timed\nWorld",
        ),
        (
            "action G gate 1 / action T timed 0 / fact x 1 / condition C is x == 1 / goal C",
            "refused world NoDriver Gate\nWorld",
            "refused world NoDriver Gate\nWorld",
        ),
        (
            "fact x 1 / condition C is x == 1 / action R replay 0 S / goal C",
            "refused world NoDriver Condition\nWorld",
            "refused world NoDriver Replay\nWorld",
        ),
        (
            "fact x 1 / condition C is x == 1 / action T told / goal C",
            "refused world NoDriver Condition\nWorld",
            "refused world NoDriver Told\nWorld",
        ),
        (
            "fact x 0 / condition C is x == 1 / goal C",
            "refused world NoDriver Condition\nWorld",
            "<!-- no plan NoTemplate C -->\nNoPlan",
        ),
        (
            "fact x 1 / condition C is x == 1 / action T timed 0",
            "refused world NoGoal\nWorld",
            "refused world NoGoal\nWorld",
        ),
    ] {
        assert_eq!(rt; without_drivers(alloc, lines)?.as_str(), without, "{lines}");
        assert_eq!(rt; with_conditions(alloc, lines)?.as_str(), with, "{lines}");
    }
    Ok(())
}
