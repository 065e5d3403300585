//! Runs at the times of a clock.

use base_outside::{Clock, MemClock, MemSink};
use base_texts::NoMemory;
use spec_program::Exit;
use std::alloc::Global;
use std::test::Fail;
use test_bed::{answer, shelf_of_rows};

/// Runs this many rounds of these nodes in this world, at the times of this clock.
fn live(
    alloc: Global,
    nodes: &str,
    lines: &str,
    rounds: &str,
    sink: &mut MemSink,
    clock: &mut MemClock,
) -> Result<Exit, NoMemory> {
    let mut shelf = shelf_of_rows(alloc, nodes, lines)?;
    let words = ["live", "T", "W", "--ticks", rounds];
    Ok(answer(alloc, &words, &mut shelf, sink, clock)?.exit)
}

/// What `live` writes for these nodes, this world and a clock of these times, with its exit and the
/// time that the clock gives next.
fn lived(
    alloc: Global,
    nodes: &str,
    lines: &str,
    rounds: &str,
    moments: &[u64],
) -> Result<String, NoMemory> {
    let mut clock = MemClock::new(Vec::from_slice(alloc, moments)?);
    let mut sink = MemSink::new(alloc, Vec::new(alloc));
    let exit = live(alloc, nodes, lines, rounds, &mut sink, &mut clock)?;
    let text = str::from_utf8(sink.list()).unwrap_or("?");
    Ok(format!(in alloc; "{text}{exit:?}, next {}", clock.now())?)
}

const MOMENTS_FALL: &str = "\
tick 1 at 5
node 1 IDLE RUNNING
call 2 start SUCCESS
node 2 IDLE SUCCESS
call 3 start RUNNING
node 3 IDLE RUNNING
root 1 RUNNING
tick 1 at 5
call 3 running RUNNING
root 1 RUNNING
finish 1 at 5
node 2 SUCCESS IDLE
call 3 halted
node 3 RUNNING IDLE
node 1 RUNNING IDLE
Done, next 3";

const ROUNDS_OF_TWO: &str = "\
tick 1 at 5
node 1 IDLE RUNNING
call 2 start RUNNING
node 2 IDLE RUNNING
root 1 RUNNING
tick 2 at 5
node 1 IDLE RUNNING
call 2 start RUNNING
node 2 IDLE RUNNING
root 2 RUNNING
tick 1 at 5
call 2 running RUNNING
root 1 RUNNING
tick 2 at 5
call 2 running RUNNING
root 2 RUNNING
tick 1 at 9
call 2 running SUCCESS
node 2 RUNNING SUCCESS
node 2 SUCCESS IDLE
node 1 RUNNING SUCCESS
root 1 SUCCESS
node 1 SUCCESS IDLE
tick 2 at 9
call 2 running SUCCESS
node 2 RUNNING SUCCESS
node 2 SUCCESS IDLE
node 1 RUNNING SUCCESS
root 2 SUCCESS
node 1 SUCCESS IDLE
finish 1 at 9
finish 2 at 9
Done, next 12";

const NO_MOMENTS: &str = "\
tick 1 at 0
call 1 start SUCCESS
node 1 IDLE SUCCESS
root 1 SUCCESS
node 1 SUCCESS IDLE
finish 1 at 0
Done, next 0";

const ENDED_BY_A_FAULT: &str = "\
tick 1 at 1
call 1 start RUNNING
node 1 IDLE RUNNING
root 1 RUNNING
tick 1 at 6
fault 1 1 ZeroDivisor
quench 1 1
Fault, next 7";

/// No event is used, so a leaf whose row is told is told nothing.
const TOLD_NOTHING: &str = "\
tick 1 at 5
node 1 IDLE RUNNING
call 2 start FAILURE
node 2 IDLE FAILURE
call 3 start RUNNING
node 3 IDLE RUNNING
root 1 RUNNING
tick 1 at 9
call 3 running RUNNING
root 1 RUNNING
finish 1 at 9
node 2 FAILURE IDLE
call 3 halted
node 3 RUNNING IDLE
node 1 RUNNING IDLE
Done, next 9";

/// Rounds, with the traces that they have at these times.
#[test]
fn rounds_have_the_moments_of_the_clock(rt: HostRuntime) -> Result<(), Fail> {
    let table: [(&str, &str, &str, &[u64], &str); 6] = [
        // The events of the script are not used, and a time before the last one counts as the last
        // one.
        (
            "<Sequence><A/><B/></Sequence>",
            "fact x 1 / condition A is x == 1 / action B timed 300 / tick 1 / at 299 / tick 1 / at 300 / tick 1",
            "2",
            &[5, 3],
            MOMENTS_FALL,
        ),
        (
            "<Sequence><A/></Sequence>",
            "runners 2 / action A timed 4",
            "3",
            &[5, 3, 9, 12],
            ROUNDS_OF_TWO,
        ),
        ("<A/>", "action A timed 0", "1", &[], NO_MOMENTS),
        // The clock no longer has the times of the rounds that were begun.
        (
            "<A/>",
            "fact x 0 / action A timed 5 / fails 1/x",
            "3",
            &[1, 6, 7],
            ENDED_BY_A_FAULT,
        ),
        (
            "<Fallback><C/><A/></Fallback>",
            "condition C told / action A told / tell 1 2 SUCCESS / tell 1 3 SUCCESS",
            "2",
            &[5, 9],
            TOLD_NOTHING,
        ),
        (
            "<A/>",
            "action A told / tell 1 2 SUCCESS",
            "1",
            &[5],
            "refused world NoLeaf 2\nWorld, next 5",
        ),
    ];
    for (nodes, lines, rounds, moments, want) in table {
        let text = lived(rt.alloc(), nodes, lines, rounds, moments)?;
        assert_eq!(rt; text.as_str(), want, "{nodes}");
    }
    Ok(())
}

/// The exit of three rounds of a leaf where the write of this number fails, and the time that the clock
/// gives next.
fn asked_at_failure(alloc: Global, write: u64) -> Result<String, NoMemory> {
    let mut clock = MemClock::new(Vec::from_slice(alloc, &[1, 2, 3, 4])?);
    let mut sink = MemSink::new(alloc, vec![in alloc; (write, 0)]?);
    let exit = live(
        alloc,
        "<A/>",
        "action A timed 0",
        "3",
        &mut sink,
        &mut clock,
    )?;
    Ok(format!(in alloc; "{exit:?}, next {}", clock.now())?)
}

/// After a write that fails the clock is asked no more. Each round has two writes, of its header and of its notes, and the
/// finish has one.
#[test]
fn a_failed_write_asks_the_clock_no_more(rt: HostRuntime) -> Result<(), Fail> {
    for (write, want) in [
        (0, "Done, next 4"),
        (1, "Write, next 2"),
        (2, "Write, next 2"),
        (3, "Write, next 3"),
        (5, "Write, next 4"),
        (7, "Write, next 4"),
        (8, "Done, next 4"),
    ] {
        let text = asked_at_failure(rt.alloc(), write)?;
        assert_eq!(rt; text.as_str(), want, "{write}");
    }
    Ok(())
}
