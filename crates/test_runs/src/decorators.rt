//! Runs of decorators.

use crate::compare::compare_rows;
use std::alloc::{AllocError, Global};
use std::test::Fail;
use test_bed::ran;

const ENDLESS: &str = "\
tick 1 at 0
node 1 IDLE RUNNING
call 2 start FAILURE
node 2 IDLE FAILURE
node 2 FAILURE IDLE
root 1 RUNNING
tick 1 at 0
call 2 start FAILURE
node 2 IDLE FAILURE
node 2 FAILURE IDLE
root 1 RUNNING
tick 1 at 0
call 2 start FAILURE
node 2 IDLE FAILURE
node 2 FAILURE IDLE
root 1 RUNNING
finish 1 at 0
node 1 RUNNING IDLE
Done";

const NO_CYCLES: &str = "\
tick 1 at 0
node 1 IDLE RUNNING
fault 1 1 BadPort num_cycles
Fault";

const SECOND_ATTEMPT: &str = "\
tick 1 at 0
node 1 IDLE RUNNING
call 2 start FAILURE
node 2 IDLE FAILURE
node 2 FAILURE IDLE
call 2 start SUCCESS
node 2 IDLE SUCCESS
node 2 SUCCESS IDLE
node 1 RUNNING SUCCESS
root 1 SUCCESS
node 1 SUCCESS IDLE
finish 1 at 0
Done";

const LAST_ATTEMPT: &str = "\
tick 1 at 0
node 1 IDLE RUNNING
call 2 start RUNNING
node 2 IDLE RUNNING
root 1 RUNNING
tick 1 at 10
call 2 running FAILURE
node 2 RUNNING FAILURE
node 2 FAILURE IDLE
call 2 start RUNNING
node 2 IDLE RUNNING
root 1 RUNNING
tick 1 at 20
call 2 running FAILURE
node 2 RUNNING FAILURE
node 2 FAILURE IDLE
node 1 RUNNING FAILURE
root 1 FAILURE
node 1 FAILURE IDLE
finish 1 at 20
Done";

/// Retry and Repeat nodes, with the traces of their runs.
#[test]
fn turns_are_counted(rt: HostRuntime) -> Result<(), Fail> {
    compare_rows(
        &rt,
        rt.alloc(),
        &[
            (
                "<RetryUntilSuccessful num_attempts=\"-1\"><F/></RetryUntilSuccessful>",
                "action F timed 0 / fails 1 / tick 1 / tick 1 / tick 1",
                ENDLESS,
            ),
            (
                "<Repeat num_cycles=\"{n}\"><A/></Repeat>",
                "condition A when 1 / tick 1",
                NO_CYCLES,
            ),
            (
                "<RetryUntilSuccessful num_attempts=\"2\"><A/></RetryUntilSuccessful>",
                "action A replay 0 FS / tick 1",
                SECOND_ATTEMPT,
            ),
            (
                "<RetryUntilSuccessful num_attempts=\"2\"><A/></RetryUntilSuccessful>",
                "action A replay 10 F / tick 1 / at 10 / tick 1 / at 20 / tick 1",
                LAST_ATTEMPT,
            ),
        ],
    )?;
    Ok(())
}

const TIME_IS_OVER: &str = "\
tick 1 at 0
node 1 IDLE RUNNING
node 2 IDLE RUNNING
root 1 RUNNING
tick 1 at 100
node 2 RUNNING IDLE
node 1 RUNNING FAILURE
root 1 FAILURE
node 1 FAILURE IDLE
finish 1 at 100
Done";

const TOO_SLOW: &str = "\
tick 1 at 0
node 1 IDLE RUNNING
call 2 start RUNNING
node 2 IDLE RUNNING
root 1 RUNNING
tick 1 at 10
call 2 halted
node 2 RUNNING IDLE
node 1 RUNNING FAILURE
root 1 FAILURE
node 1 FAILURE IDLE
finish 1 at 10
Done";

const LATER: &str = "\
tick 1 at 0
node 1 IDLE RUNNING
root 1 RUNNING
tick 1 at 10
call 2 start SUCCESS
node 2 IDLE SUCCESS
node 2 SUCCESS IDLE
node 1 RUNNING SUCCESS
root 1 SUCCESS
node 1 SUCCESS IDLE
finish 1 at 10
Done";

/// Timeouts and Delays, with the traces of their runs.
#[test]
fn moments_are_compared(rt: HostRuntime) -> Result<(), Fail> {
    compare_rows(
        &rt,
        rt.alloc(),
        &[
            (
                "<Timeout msec=\"100\"><Delay delay_msec=\"100\"><A/></Delay></Timeout>",
                "action A timed 0 / tick 1 / at 100 / tick 1",
                TIME_IS_OVER,
            ),
            (
                "<Timeout msec=\"10\"><A/></Timeout>",
                "action A timed 20 / tick 1 / at 10 / tick 1",
                TOO_SLOW,
            ),
            (
                "<Delay delay_msec=\"10\"><A/></Delay>",
                "condition A when 1 / tick 1 / at 10 / tick 1",
                LATER,
            ),
        ],
    )?;
    Ok(())
}

const ONCE: &str = "\
tick 1 at 0
node 1 IDLE RUNNING
call 2 start RUNNING
node 2 IDLE RUNNING
root 1 RUNNING
halt 1 at 0
call 2 halted
node 2 RUNNING IDLE
node 1 RUNNING IDLE
tick 1 at 0
node 1 IDLE RUNNING
call 2 start RUNNING
node 2 IDLE RUNNING
root 1 RUNNING
tick 1 at 100
call 2 running SUCCESS
node 2 RUNNING SUCCESS
node 2 SUCCESS IDLE
node 1 RUNNING SUCCESS
root 1 SUCCESS
node 1 SUCCESS IDLE
tick 1 at 100
root 1 SKIPPED
finish 1 at 100
Done";

const ONCE_AGAIN: &str = "\
tick 1 at 0
node 1 IDLE RUNNING
call 2 start RUNNING
node 2 IDLE RUNNING
root 1 RUNNING
halt 1 at 0
call 2 halted
node 2 RUNNING IDLE
node 1 RUNNING IDLE
tick 1 at 0
node 1 IDLE RUNNING
call 2 start RUNNING
node 2 IDLE RUNNING
root 1 RUNNING
tick 1 at 100
call 2 running SUCCESS
node 2 RUNNING SUCCESS
node 2 SUCCESS IDLE
node 1 RUNNING SUCCESS
root 1 SUCCESS
node 1 SUCCESS IDLE
tick 1 at 100
node 1 IDLE SUCCESS
root 1 SUCCESS
node 1 SUCCESS IDLE
finish 1 at 100
Done";

/// RunOnce nodes, with the traces of their runs.
#[test]
fn run_once_keeps_its_mark(rt: HostRuntime) -> Result<(), Fail> {
    compare_rows(
        &rt,
        rt.alloc(),
        &[
            (
                "<RunOnce><A/></RunOnce>",
                "action A timed 100 / tick 1 / halt 1 / tick 1 / at 100 / tick 1 / tick 1",
                ONCE,
            ),
            (
                "<RunOnce then_skip=\"false\"><A/></RunOnce>",
                "action A timed 100 / tick 1 / halt 1 / tick 1 / at 100 / tick 1 / tick 1",
                ONCE_AGAIN,
            ),
        ],
    )?;
    Ok(())
}

const FORCED: &str = "\
tick 1 at 0
node 1 IDLE RUNNING
node 2 IDLE RUNNING
call 3 start FAILURE
node 3 IDLE FAILURE
node 3 FAILURE IDLE
node 2 RUNNING SUCCESS
node 4 IDLE RUNNING
call 5 start SUCCESS
node 5 IDLE SUCCESS
node 5 SUCCESS IDLE
node 4 RUNNING FAILURE
node 2 SUCCESS IDLE
node 4 FAILURE IDLE
node 1 RUNNING FAILURE
root 1 FAILURE
node 1 FAILURE IDLE
finish 1 at 0
Done";

const KEPT_RUNNING: &str = "\
tick 1 at 0
node 1 IDLE RUNNING
call 2 start SUCCESS
node 2 IDLE SUCCESS
node 2 SUCCESS IDLE
root 1 RUNNING
tick 1 at 0
call 2 start FAILURE
node 2 IDLE FAILURE
node 2 FAILURE IDLE
node 1 RUNNING FAILURE
root 1 FAILURE
node 1 FAILURE IDLE
finish 1 at 0
Done";

/// Decorators that change their child's answer, with the traces of their runs.
#[test]
fn answers_are_turned(rt: HostRuntime) -> Result<(), Fail> {
    compare_rows(
        &rt,
        rt.alloc(),
        &[
            (
                "<Sequence><ForceSuccess><A/></ForceSuccess><ForceFailure><B/></ForceFailure>\
                </Sequence>",
                "condition A when 0 / condition B when 1 / tick 1",
                FORCED,
            ),
            (
                "<KeepRunningUntilFailure><A/></KeepRunningUntilFailure>",
                "action A replay 0 SF / tick 1 / tick 1",
                KEPT_RUNNING,
            ),
        ],
    )?;
    Ok(())
}

/// A text this many times.
fn repeated(alloc: Global, text: &str, times: u32) -> Result<String, AllocError> {
    let mut all = String::new(alloc);
    for _ in 0..times {
        all.push_str(text)?;
    }
    Ok(all)
}

/// This many Inverters inside one another, with these nodes in the last.
fn inverted(alloc: Global, times: u32, nodes: &str) -> Result<String, AllocError> {
    let before = repeated(alloc, "<Inverter>", times)?;
    let following = repeated(alloc, "</Inverter>", times)?;
    format!(in alloc; "{before}{nodes}{following}")
}

/// A tree at the limit of depth, ticked once.
#[test]
fn the_deepest_tree_is_ticked(rt: HostRuntime) -> Result<(), Fail> {
    let alloc = rt.alloc();
    let nodes = inverted(alloc, 255, "<AlwaysSuccess/>")?;
    let text = ran(alloc, nodes.as_str(), "tick 1")?;
    let end = "root 1 FAILURE\nnode 1 FAILURE IDLE\nfinish 1 at 0\nDone";
    assert!(rt; text.ends_with(end), "{text}");
    Ok(())
}
