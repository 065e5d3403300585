//! Runs whose sink fails: a prefix of the trace is written, and no driver holds anything.

use crate::controls::{HALTED_BY_A_CHECK, TWO_CHECKS};
use crate::halts::FAULT_AT_THE_END;
use crate::runners::{ONE_FAULTS, WAITS, sixteen, sixteen_trace};
use base_outside::MemSink;
use base_texts::NoMemory;
use std::alloc::Global;
use std::test::Fail;
use test_bed::run;

/// What a run writes, where the write of this number fails after `taken` bytes, with its exit and
/// whether its drivers hold anything after it.
fn cut(
    alloc: Global,
    nodes: &str,
    lines: &str,
    write: u64,
    taken: u64,
) -> Result<String, NoMemory> {
    let mut sink = MemSink::new(alloc, vec![in alloc; (write, taken)]?);
    let ending = run(alloc, nodes, lines, &mut sink)?;
    let text = str::from_utf8(sink.list()).unwrap_or("?");
    Ok(format!(in alloc; "{text}{:?} {}", ending.exit, ending.holds)?)
}

/// How many bytes of the trace stood before the write that failed after `taken` bytes, by what the run wrote: none where
/// that is no beginning of the trace, or does not end with whole lines and these bytes of the next ones.
fn bytes_before(trace: &str, text: &str, taken: usize) -> Option<usize> {
    let before = text.len().checked_sub(taken)?;
    let lines = trace.get(..before)?;
    let is_whole = lines.is_empty() || lines.ends_with('\n');
    if trace.starts_with(text) && is_whole {
        Some(before)
    } else {
        None
    }
}

/// The first write whose failure after `taken` bytes leaves anything else than whole lines, more with each write, and
/// these bytes of the next ones; none where each leaves these until the whole trace is written.
fn first_wrong(
    alloc: Global,
    nodes: &str,
    lines: &str,
    trace: &str,
    taken: usize,
) -> Result<Option<u64>, NoMemory> {
    let mut least = 0;
    let mut write = 0_u64;
    for _ in trace.split('\n') {
        write = write.saturating_add(1);
        let given = cut(alloc, nodes, lines, write, taken as u64)?;
        let text = given.as_str();
        let Some(text) = text.strip_suffix("Write false") else {
            let is_whole = text.strip_suffix(" false") == Some(trace);
            return Ok(if is_whole { None } else { Some(write) });
        };
        match bytes_before(trace, text, taken) {
            Some(before) if before >= least => least = before.saturating_add(1),
            _ => return Ok(Some(write)),
        }
    }
    Ok(Some(write))
}

/// Runs of which each write fails in turn.
#[test]
fn each_write_may_fail(rt: HostRuntime) -> Result<(), Fail> {
    let alloc = rt.alloc();
    for (nodes, lines, trace) in [
        (
            "<Sequence><A/><B/></Sequence>",
            "fact x 1 / condition A is x == 1 / condition B when x < 2 / tick 1",
            TWO_CHECKS,
        ),
        (
            "<Sequence _onHalted=\"1 / 0\"><A/></Sequence>",
            "action A timed 100 / tick 1",
            FAULT_AT_THE_END,
        ),
        (
            "<ReactiveSequence><Ok/><B/></ReactiveSequence>",
            "fact ok 1 / condition Ok is ok == 1 / action B timed 100 / tick 1 / at 10 / set ok 0 / tick 1",
            HALTED_BY_A_CHECK,
        ),
        (
            "<Sequence><A/><Script code=\"y := z\"/></Sequence>",
            "runners 2 / action A timed 100 / tick 1 / at 50 / tick 2 / halt 1 / halt 1 / at 60 / tick 1 / at 150 / tick 2",
            ONE_FAULTS,
        ),
    ] {
        for taken in [0, 3] {
            let wrong = first_wrong(alloc, nodes, lines, trace, taken)?;
            assert_eq!(rt; wrong, None, "{taken} of {nodes}");
        }
    }
    Ok(())
}

/// The run of sixteen runners, of which each write fails in turn.
#[test]
fn each_write_of_sixteen_runners_may_fail(rt: HostRuntime) -> Result<(), Fail> {
    let alloc = rt.alloc();
    let lines = sixteen(alloc)?;
    let trace = sixteen_trace(alloc)?;
    for taken in [0, 3] {
        let wrong = first_wrong(alloc, WAITS, lines.as_str(), trace.as_str(), taken)?;
        assert_eq!(rt; wrong, None, "{taken}");
    }
    Ok(())
}

/// A write that fails after more than one byte.
#[test]
fn a_write_that_fails_takes_what_it_takes(rt: HostRuntime) -> Result<(), Fail> {
    let alloc = rt.alloc();
    let lines = "fact x 1 / condition A is x == 1 / condition B when x < 2 / tick 1";
    let text = cut(alloc, "<Sequence><A/><B/></Sequence>", lines, 2, 25)?;
    let want = "tick 1 at 0\nnode 1 IDLE RUNNING\ncall Write false";
    assert_eq!(rt; text.as_str(), want);
    Ok(())
}
