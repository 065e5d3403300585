//! Halts, and faults within them: what stops, in which order, and what a quench halts.

use crate::compare::compare_rows;
use std::test::Fail;
use test_bed::{joined, ran};

const THREE_HELD: &str = "\
tick 1 at 0
node 1 IDLE RUNNING
call 2 start RUNNING
node 2 IDLE RUNNING
call 3 start RUNNING
node 3 IDLE RUNNING
call 4 start RUNNING
node 4 IDLE RUNNING
root 1 RUNNING
halt 1 at 10
call 2 halted
node 2 RUNNING IDLE
call 3 halted
node 3 RUNNING IDLE
call 4 halted
node 4 RUNNING IDLE
node 1 RUNNING IDLE
finish 1 at 10
Done";

const MEMORY_HALTED: &str = "\
tick 1 at 0
node 1 IDLE RUNNING
call 2 start SUCCESS
node 2 IDLE SUCCESS
call 3 start RUNNING
node 3 IDLE RUNNING
root 1 RUNNING
tick 1 at 10
call 3 running FAILURE
node 3 RUNNING FAILURE
node 3 FAILURE IDLE
node 1 RUNNING FAILURE
root 1 FAILURE
node 1 FAILURE IDLE
tick 1 at 10
node 1 IDLE RUNNING
call 3 start RUNNING
node 3 IDLE RUNNING
root 1 RUNNING
halt 1 at 10
node 2 SUCCESS IDLE
call 3 halted
node 3 RUNNING IDLE
node 1 RUNNING IDLE
tick 1 at 10
node 1 IDLE RUNNING
call 2 start SUCCESS
node 2 IDLE SUCCESS
call 3 start RUNNING
node 3 IDLE RUNNING
root 1 RUNNING
finish 1 at 10
node 2 SUCCESS IDLE
call 3 halted
node 3 RUNNING IDLE
node 1 RUNNING IDLE
Done";

const MARK_KEPT: &str = "\
tick 1 at 0
node 1 IDLE RUNNING
node 2 IDLE RUNNING
call 3 start SUCCESS
node 3 IDLE SUCCESS
node 3 SUCCESS IDLE
node 2 RUNNING SUCCESS
call 4 start RUNNING
node 4 IDLE RUNNING
root 1 RUNNING
halt 1 at 0
node 2 SUCCESS IDLE
call 4 halted
node 4 RUNNING IDLE
node 1 RUNNING IDLE
tick 1 at 0
node 1 IDLE RUNNING
call 4 start RUNNING
node 4 IDLE RUNNING
root 1 RUNNING
finish 1 at 0
call 4 halted
node 4 RUNNING IDLE
node 1 RUNNING IDLE
Done";

const IDLE_HALTED: &str = "\
halt 1 at 0
tick 1 at 0
node 1 IDLE RUNNING
call 2 start SUCCESS
node 2 IDLE SUCCESS
node 2 SUCCESS IDLE
node 1 RUNNING SUCCESS
root 1 SUCCESS
node 1 SUCCESS IDLE
halt 1 at 0
finish 1 at 0
Done";

/// Halts of running trees, with the traces of their runs.
#[test]
fn halts_stop_what_runs(rt: HostRuntime) -> Result<(), Fail> {
    compare_rows(
        &rt,
        rt.alloc(),
        &[
            (
                "<Parallel><A/><B/><C/></Parallel>",
                "action A timed 100 / action B timed 100 / action C gate 0 / tick 1 / \
                at 10 / halt 1",
                THREE_HELD,
            ),
            (
                "<SequenceWithMemory><A/><B/></SequenceWithMemory>",
                "condition A when 1 / action B replay 10 FS / tick 1 / at 10 / tick 1 / \
                tick 1 / halt 1 / tick 1",
                MEMORY_HALTED,
            ),
            (
                "<Sequence><RunOnce><A/></RunOnce><B/></Sequence>",
                "condition A when 1 / action B timed 100 / tick 1 / halt 1 / tick 1",
                MARK_KEPT,
            ),
            (
                "<Sequence><A/></Sequence>",
                "condition A when 1 / halt 1 / tick 1 / halt 1",
                IDLE_HALTED,
            ),
        ],
    )?;
    Ok(())
}

const HALT_SCRIPTS: &str = "\
tick 1 at 0
node 1 IDLE RUNNING
call 2 start RUNNING
node 2 IDLE RUNNING
root 1 RUNNING
halt 1 at 0
call 2 halted
node 2 RUNNING IDLE
node 1 RUNNING IDLE
board 1 0 a 1
board 1 0 s 1
finish 1 at 0
Done";

const CLOSED_GATE: &str = "\
tick 1 at 0
node 1 IDLE RUNNING
call 2 start RUNNING
node 2 IDLE RUNNING
root 1 RUNNING
set x 0 at 0
fact x 0
tick 1 at 0
fault 1 2 ZeroDivisor
quench 1 2
Fault";

/// The scripts of a halt run from the lowest node up.
#[test]
fn scripts_of_halts_run_from_below(rt: HostRuntime) -> Result<(), Fail> {
    compare_rows(
        &rt,
        rt.alloc(),
        &[(
            "<Sequence _onHalted=\"s := a\"><A _onHalted=\"a := 1\"/></Sequence>",
            "action A timed 100 / tick 1 / halt 1",
            HALT_SCRIPTS,
        )],
    )?;
    Ok(())
}

/// A leaf with a fault, whose instance is halted by the quench.
#[test]
fn a_leaf_that_faults_is_released(rt: HostRuntime) -> Result<(), Fail> {
    compare_rows(
        &rt,
        rt.alloc(),
        &[(
            "<Sequence><G/></Sequence>",
            "fact x 2 / action G gate 0/x / tick 1 / set x 0 / tick 1",
            CLOSED_GATE,
        )],
    )?;
    Ok(())
}

/// A robot that holds two arms while it is safe, and then it is not safe.
const OK_TURNS_FALSE: &str = "\
fact ok 1 / condition Ok is ok == 1 / action A timed 100 / action B timed 100 / \
tick 1 / set ok 0 / tick 1";

const BOTH_HELD: &str = "\
tick 1 at 0
node 1 IDLE RUNNING
call 2 start SUCCESS
node 2 IDLE SUCCESS
node 3 IDLE RUNNING
call 4 start RUNNING
node 4 IDLE RUNNING
call 5 start RUNNING
node 5 IDLE RUNNING
node 2 SUCCESS IDLE
root 1 RUNNING
set ok 0 at 0
fact ok 0
tick 1 at 0
call 2 start FAILURE
node 2 IDLE FAILURE
node 2 FAILURE IDLE
call 4 halted
node 4 RUNNING IDLE
";

/// What follows where none of the halted nodes has a fault: all end.
const BOTH_HALTED: &str = "\
call 5 halted
node 5 RUNNING IDLE
node 3 RUNNING IDLE
node 1 RUNNING FAILURE
root 1 FAILURE
node 1 FAILURE IDLE
finish 1 at 0
Done";

const PARALLEL_FAULTS: &str = "\
call 5 halted
node 5 RUNNING IDLE
node 3 RUNNING IDLE
fault 1 3 ZeroDivisor
Fault";

const FIRST_FAULTS: &str = "\
fault 1 4 ZeroDivisor
quench 1 5
Fault";

const SECOND_FAULTS: &str = "\
call 5 halted
node 5 RUNNING IDLE
fault 1 5 ZeroDivisor
Fault";

/// One tree, with a fault in the halt of each node in turn.
#[test]
fn a_fault_in_a_halt_at_each_node(rt: HostRuntime) -> Result<(), Fail> {
    let alloc = rt.alloc();
    for (nodes, end) in [
        (
            "<ReactiveSequence _onHalted=\"1 / 0\"><Ok/><Parallel><A/><B/></Parallel></ReactiveSequence>",
            BOTH_HALTED,
        ),
        (
            "<ReactiveSequence><Ok _onHalted=\"1 / 0\"/><Parallel><A/><B/></Parallel></ReactiveSequence>",
            BOTH_HALTED,
        ),
        (
            "<ReactiveSequence><Ok/><Parallel _onHalted=\"1 / 0\"><A/><B/></Parallel></ReactiveSequence>",
            PARALLEL_FAULTS,
        ),
        (
            "<ReactiveSequence><Ok/><Parallel><A _onHalted=\"1 / 0\"/><B/></Parallel></ReactiveSequence>",
            FIRST_FAULTS,
        ),
        (
            "<ReactiveSequence><Ok/><Parallel><A/><B _onHalted=\"1 / 0\"/></Parallel></ReactiveSequence>",
            SECOND_FAULTS,
        ),
    ] {
        let want = joined(alloc, &[BOTH_HELD, end])?;
        assert_eq!(rt; ran(alloc, nodes, OK_TURNS_FALSE)?, want, "{nodes}");
    }
    Ok(())
}

const ROOT_FAULTS: &str = "\
tick 1 at 0
node 1 IDLE RUNNING
call 2 start RUNNING
node 2 IDLE RUNNING
root 1 RUNNING
halt 1 at 0
call 2 halted
node 2 RUNNING IDLE
node 1 RUNNING IDLE
fault 1 1 ZeroDivisor
Fault";

pub const FAULT_AT_THE_END: &str = "\
tick 1 at 0
node 1 IDLE RUNNING
call 2 start RUNNING
node 2 IDLE RUNNING
root 1 RUNNING
finish 1 at 0
call 2 halted
node 2 RUNNING IDLE
node 1 RUNNING IDLE
fault 1 1 ZeroDivisor
Fault";

const BRANCH_FAULTS: &str = "\
tick 1 at 0
node 1 IDLE RUNNING
call 2 start SUCCESS
node 2 IDLE SUCCESS
node 3 IDLE RUNNING
call 4 start RUNNING
node 4 IDLE RUNNING
node 2 SUCCESS IDLE
root 1 RUNNING
set ok 0 at 0
fact ok 0
tick 1 at 0
call 2 start FAILURE
node 2 IDLE FAILURE
node 2 FAILURE IDLE
call 4 halted
node 4 RUNNING IDLE
node 3 RUNNING IDLE
fault 1 3 ZeroDivisor
Fault";

/// Halts with faults, which end the run.
#[test]
fn a_fault_in_a_halt_ends_the_run(rt: HostRuntime) -> Result<(), Fail> {
    compare_rows(
        &rt,
        rt.alloc(),
        &[
            (
                "<Sequence _onHalted=\"1 / 0\"><A/></Sequence>",
                "action A timed 100 / tick 1 / halt 1 / tick 1",
                ROOT_FAULTS,
            ),
            (
                "<Sequence _onHalted=\"1 / 0\"><A/></Sequence>",
                "action A timed 100 / tick 1",
                FAULT_AT_THE_END,
            ),
            (
                "<ReactiveSequence><Ok/><Sequence _onHalted=\"1/0\"><B/></Sequence>\
                </ReactiveSequence>",
                "fact ok 1 / condition Ok is ok == 1 / action B timed 100 / tick 1 / \
                set ok 0 / tick 1",
                BRANCH_FAULTS,
            ),
        ],
    )?;
    Ok(())
}
