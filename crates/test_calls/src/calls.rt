//! The calls of a run, as its drivers count them, and the drivers that a run needs.

ghost use Rattle.std.specs.Prelude.{map};
ghost use Rattle.spec_run.specs.Drivers.{NothingHeld};

use base_outside::{MemClock, MemSink};
use base_texts::NoMemory;
use cli_program::add_driver;
use run_driver::Driver;
use run_leaves::Conditions;
use spec_program::Exit;
use std::alloc::Global;
use std::test::Fail;
use test_bed::{TICK, answer, answer_with, run, run_with, shelf_of, shelf_of_rows};

/// The exit of a run, what its drivers have counted, and whether they hold anything.
fn counted(alloc: Global, nodes: &str, lines: &str) -> Result<String, NoMemory> {
    let mut sink = MemSink::new(alloc, Vec::new(alloc));
    let ending = run(alloc, nodes, lines, &mut sink)?;
    Ok(format!(in alloc; "{:?}{}", ending.exit, ending.counts)?)
}

/// Runs, with the counts of each driver that was called.
#[test]
fn drivers_count_their_calls(rt: HostRuntime) -> Result<(), Fail> {
    for (nodes, lines, want) in [
        (
            "<Sequence><A/><B/></Sequence>",
            "fact x 1 / condition A is x == 1 / condition B when x < 2 / tick 1",
            "Done; Condition 2 0 0 trail 1000007",
        ),
        (
            "<Sequence><A/><B/></Sequence>",
            "fact x 1 / condition A is x == 1 / action B timed 300 / tick 1 / at 299 / tick 1 / at 300 / tick 1",
            "Done; Condition 1 0 0 trail 1; Timed 1 2 0 trail 1000008000017",
        ),
        (
            "<ReactiveSequence><Ok/><B/></ReactiveSequence>",
            "fact ok 1 / condition Ok is ok == 1 / action B timed 100 / tick 1 / at 10 / set ok 0 / tick 1",
            "Done; Condition 2 0 0 trail 1000004; Timed 1 0 1 trail 1000006",
        ),
        (
            "<ReactiveSequence><Ok/><Parallel><A _onHalted=\"1 / 0\"/><B/></Parallel></ReactiveSequence>",
            "fact ok 1 / condition Ok is ok == 1 / action A timed 100 / action B timed 100 / tick 1 / set ok 0 / tick 1",
            "Fault; Condition 2 0 0 trail 1000004; Timed 2 0 2 trail 1000013000054000078",
        ),
        (
            "<Sequence><A/><Script code=\"y := z\"/></Sequence>",
            "runners 2 / action A timed 100 / tick 1 / at 50 / tick 2 / halt 1 / halt 1 / at 60 / tick 1 / at 150 / tick 2",
            "Fault; Timed 3 1 2 trail 18128281506779335907",
        ),
        (
            "<Sequence><G/></Sequence>",
            "fact x 2 / action G gate 0/x / tick 1 / set x 0 / tick 1",
            "Fault; Gate 1 1 1 trail 1000008000018",
        ),
        (
            "<Sequence><R/><A/></Sequence>",
            "action R replay 0 FS / action A timed 100 / tick 1 / tick 1",
            "Done; Timed 1 0 1 trail 1000006; Replay 2 0 0 trail 1000004",
        ),
        // A telling is in the trail, and no call that is counted.
        (
            "<Sequence><A/></Sequence>",
            "action A told / tick 1 / tell 1 2 SUCCESS / tick 1",
            "Done; Told 1 1 0 trail 1000010000023",
        ),
        (
            "<Sequence><A/></Sequence>",
            "action A told / tick 1 / halt 1",
            "Done; Told 1 0 1 trail 1000006",
        ),
        // Where a telling is refused, no driver is called.
        (
            "<Sequence><A/></Sequence>",
            "action A told / tick 1 / tell 1 2 SUCCESS / tell 1 1 SUCCESS",
            "World",
        ),
    ] {
        assert_eq!(rt;
            counted(rt.alloc(), nodes, lines)?.as_str(),
            want,
            "{nodes}"
        );
    }
    Ok(())
}

/// The exit of words whose write of this number fails, and what the drivers have counted.
fn counted_at_failure(
    alloc: Global,
    words: &[&str],
    nodes: &str,
    lines: &str,
    write: u64,
) -> Result<String, NoMemory> {
    let mut shelf = shelf_of_rows(alloc, nodes, lines)?;
    let mut sink = MemSink::new(alloc, vec![in alloc; (write, 0)]?);
    let mut clock = MemClock::new(Vec::new(alloc));
    let ending = answer(alloc, words, &mut shelf, &mut sink, &mut clock)?;
    Ok(format!(in alloc; "{:?}{}", ending.exit, ending.counts)?)
}

/// After a failed write a run begins nothing more, and halts what is held; what is printed of a tree,
/// and a refusal, call no driver.
#[test]
fn a_failed_write_begins_nothing(rt: HostRuntime) -> Result<(), Fail> {
    let lasting =
        "fact x 1 / condition A is x == 1 / action B timed 300 / tick 1 / at 299 / tick 1 / at 300 / tick 1";
    let table: [(&[&str], &str, u64, &str); 8] = [
        (
            &TICK,
            "<Sequence><A/><B/></Sequence>",
            0,
            "Done; Condition 1 0 0 trail 1; Timed 1 2 0 trail 1000008000017",
        ),
        (
            &TICK,
            "<Sequence><A/><B/></Sequence>",
            1,
            "Write; Condition 1 0 0 trail 1; Timed 1 0 1 trail 1000006",
        ),
        (&TICK, "<Sequence><C/></Sequence>", 0, "World"),
        (&TICK, "<Sequence><C/></Sequence>", 1, "Write"),
        (&["check", "T"], "<Sequence><A/><B/></Sequence>", 1, "Write"),
        (&["check", "T"], "<Sequence/>", 0, "Tree"),
        (&["check", "T"], "<Sequence/>", 1, "Write"),
        (&["dead", "T"], "<Sequence><A/><B/></Sequence>", 1, "Write"),
    ];
    for (words, nodes, write, want) in table {
        let text = counted_at_failure(rt.alloc(), words, nodes, lasting, write)?;
        assert_eq!(rt; text.as_str(), want, "{nodes}");
    }
    Ok(())
}

/// What a run without drivers writes, and its exit after it.
fn without_drivers(alloc: Global, nodes: &str, lines: &str) -> Result<String, NoMemory> {
    let mut sink = MemSink::new(alloc, Vec::new(alloc));
    let mut roster: Vec<Box<dyn Driver>> = Vec::new(alloc);
    let exit = run_with(alloc, nodes, lines, &mut sink, &mut roster)?;
    let text = str::from_utf8(sink.list()).unwrap_or("?");
    Ok(format!(in alloc; "{text}{exit:?}")?)
}

/// What a run writes with a driver of conditions alone, and its exit after it.
fn with_conditions(alloc: Global, nodes: &str, lines: &str) -> Result<String, NoMemory> {
    let mut sink = MemSink::new(alloc, Vec::new(alloc));
    let mut roster: Vec<Box<dyn Driver>> = Vec::new(alloc);
    add_driver(&mut roster, Box::new(alloc, Conditions::new(alloc))?)?;
    let exit = run_with(alloc, nodes, lines, &mut sink, &mut roster)?;
    let text = str::from_utf8(sink.list()).unwrap_or("?");
    Ok(format!(in alloc; "{text}{exit:?}")?)
}

/// What a run writes without drivers, and what it writes with a driver of conditions alone.
fn lacking(alloc: Global, nodes: &str, lines: &str) -> Result<String, NoMemory> {
    let without = without_drivers(alloc, nodes, lines)?;
    let with = with_conditions(alloc, nodes, lines)?;
    Ok(format!(in alloc; "{without}, {with}")?)
}

/// Trees whose leaves have no driver: the first one is named.
#[test]
fn kinds_need_their_drivers(rt: HostRuntime) -> Result<(), Fail> {
    let lines =
        "condition A when 1 / action T timed 0 / action R replay 0 S / action G gate 1 / condition S told / action O told / tick 1";
    for (nodes, want) in [
        (
            "<Sequence><A/><T/></Sequence>",
            "refused world NoDriver Condition\nWorld, refused world NoDriver Timed\nWorld",
        ),
        (
            "<Sequence><T/><A/></Sequence>",
            "refused world NoDriver Timed\nWorld, refused world NoDriver Timed\nWorld",
        ),
        (
            "<Sequence><A/><R/></Sequence>",
            "refused world NoDriver Condition\nWorld, refused world NoDriver Replay\nWorld",
        ),
        (
            "<Sequence><A/><G/></Sequence>",
            "refused world NoDriver Condition\nWorld, refused world NoDriver Gate\nWorld",
        ),
        (
            "<Sequence><A/><S/></Sequence>",
            "refused world NoDriver Condition\nWorld, refused world NoDriver Told\nWorld",
        ),
        (
            "<Sequence><A/><O/></Sequence>",
            "refused world NoDriver Condition\nWorld, refused world NoDriver Told\nWorld",
        ),
        // The first leaf without a row or a driver counts.
        (
            "<Sequence><A/><Q/><T/></Sequence>",
            "refused world NoDriver Condition\nWorld, refused world NoRow 'Q'\nWorld",
        ),
    ] {
        assert_eq!(rt;
            lacking(rt.alloc(), nodes, lines)?.as_str(),
            want,
            "{nodes}"
        );
    }
    Ok(())
}

/// Runs a load of one leaf with these drivers.
fn load_with(
    alloc: Global,
    sink: &mut MemSink,
    roster: &mut Vec<Box<dyn Driver>>,
) -> Result<Exit, NoMemory>
    requires { NothingHeld (map (λ b. state b) roster.old.items) }
{
    let mut shelf = shelf_of(alloc, b"", b"", &[])?;
    answer_with(alloc, &["load", "1"], &mut shelf, sink, roster)
}

/// What a load of one leaf writes without drivers, and its exit after it.
fn load_without_drivers(alloc: Global) -> Result<String, NoMemory> {
    let mut sink = MemSink::new(alloc, Vec::new(alloc));
    let mut roster: Vec<Box<dyn Driver>> = Vec::new(alloc);
    let exit = load_with(alloc, &mut sink, &mut roster)?;
    let text = str::from_utf8(sink.list()).unwrap_or("?");
    Ok(format!(in alloc; "{text}{exit:?}")?)
}

/// A load without drivers is refused.
#[test]
fn a_load_needs_its_drivers(rt: HostRuntime) -> Result<(), Fail> {
    let text = load_without_drivers(rt.alloc())?;
    assert_eq!(rt; text.as_str(), "refused world NoDriver Timed\nWorld");
    Ok(())
}
