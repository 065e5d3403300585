//! Runs of Nav2's nodes.

use crate::compare::compare_rows;
use crate::controls::ALL_SKIPPED;
use std::test::Fail;

const HELPED_TWICE: &str = "\
tick 1 at 0
node 1 IDLE RUNNING
call 2 start FAILURE
node 2 IDLE FAILURE
node 2 FAILURE IDLE
call 3 start SUCCESS
node 3 IDLE SUCCESS
node 3 SUCCESS IDLE
call 2 start FAILURE
node 2 IDLE FAILURE
node 2 FAILURE IDLE
call 3 start SUCCESS
node 3 IDLE SUCCESS
node 3 SUCCESS IDLE
call 2 start SUCCESS
node 2 IDLE SUCCESS
node 2 SUCCESS IDLE
node 1 RUNNING SUCCESS
root 1 SUCCESS
node 1 SUCCESS IDLE
finish 1 at 0
Done";

const HELPED_ONCE: &str = "\
tick 1 at 0
node 1 IDLE RUNNING
call 2 start FAILURE
node 2 IDLE FAILURE
node 2 FAILURE IDLE
call 3 start SUCCESS
node 3 IDLE SUCCESS
node 3 SUCCESS IDLE
call 2 start FAILURE
node 2 IDLE FAILURE
node 2 FAILURE IDLE
node 1 RUNNING FAILURE
root 1 FAILURE
node 1 FAILURE IDLE
finish 1 at 0
Done";

const NO_HELP: &str = "\
tick 1 at 0
node 1 IDLE RUNNING
call 2 start FAILURE
node 2 IDLE FAILURE
node 2 FAILURE IDLE
call 3 start FAILURE
node 3 IDLE FAILURE
node 3 FAILURE IDLE
node 1 RUNNING FAILURE
root 1 FAILURE
node 1 FAILURE IDLE
finish 1 at 0
Done";

const HELP_LASTS: &str = "\
tick 1 at 0
node 1 IDLE RUNNING
call 2 start FAILURE
node 2 IDLE FAILURE
node 2 FAILURE IDLE
call 3 start RUNNING
node 3 IDLE RUNNING
root 1 RUNNING
tick 1 at 10
call 3 running RUNNING
root 1 RUNNING
tick 1 at 20
call 3 running SUCCESS
node 3 RUNNING SUCCESS
node 3 SUCCESS IDLE
call 2 start SUCCESS
node 2 IDLE SUCCESS
node 2 SUCCESS IDLE
node 1 RUNNING SUCCESS
root 1 SUCCESS
node 1 SUCCESS IDLE
finish 1 at 20
Done";

const HELP_HALTED: &str = "\
tick 1 at 0
node 1 IDLE RUNNING
call 2 start RUNNING
node 2 IDLE RUNNING
root 1 RUNNING
tick 1 at 10
call 2 running FAILURE
node 2 RUNNING FAILURE
node 2 FAILURE IDLE
call 3 start RUNNING
node 3 IDLE RUNNING
root 1 RUNNING
halt 1 at 10
call 3 halted
node 3 RUNNING IDLE
node 1 RUNNING IDLE
tick 1 at 10
node 1 IDLE RUNNING
call 2 start RUNNING
node 2 IDLE RUNNING
root 1 RUNNING
finish 1 at 10
call 2 halted
node 2 RUNNING IDLE
node 1 RUNNING IDLE
Done";

const NO_RETRIES: &str = "\
tick 1 at 0
node 1 IDLE RUNNING
call 2 start FAILURE
node 2 IDLE FAILURE
node 2 FAILURE IDLE
node 1 RUNNING FAILURE
root 1 FAILURE
node 1 FAILURE IDLE
finish 1 at 0
Done";

const NO_NUMBER: &str = "\
tick 1 at 0
node 1 IDLE RUNNING
fault 1 1 BadPort number_of_retries
Fault";

/// RecoveryNodes, with the traces of their runs.
#[test]
fn recoveries_help(rt: HostRuntime) -> Result<(), Fail> {
    compare_rows(
        &rt,
        rt.alloc(),
        &[
            (
                "<RecoveryNode number_of_retries=\"2\"><A/><B/></RecoveryNode>",
                "action A replay 0 FFS / condition B when 1 / tick 1",
                HELPED_TWICE,
            ),
            (
                "<RecoveryNode number_of_retries=\"1\"><A/><B/></RecoveryNode>",
                "action A replay 0 FFS / condition B when 1 / tick 1",
                HELPED_ONCE,
            ),
            (
                "<RecoveryNode number_of_retries=\"2\"><A/><B/></RecoveryNode>",
                "condition A when 0 / action B replay 0 FS / tick 1",
                NO_HELP,
            ),
            (
                "<RecoveryNode><A/><B/></RecoveryNode>",
                "action A replay 0 FS / action B timed 20 / tick 1 / at 10 / tick 1 / at 20 / \
                tick 1",
                HELP_LASTS,
            ),
            (
                "<RecoveryNode><A/><B/></RecoveryNode>",
                "action A replay 10 FS / action B timed 10 / tick 1 / at 10 / tick 1 / halt 1 / \
                tick 1",
                HELP_HALTED,
            ),
            (
                "<RecoveryNode number_of_retries=\"0\"><A/><B/></RecoveryNode>",
                "condition A when 0 / condition B when 1 / tick 1",
                NO_RETRIES,
            ),
            (
                "<RecoveryNode><A/><B _skipIf=\"1\"/></RecoveryNode>",
                "condition A when 0 / condition B when 1 / tick 1",
                NO_RETRIES,
            ),
            (
                "<RecoveryNode><A _skipIf=\"1\"/><B/></RecoveryNode>",
                "condition A when 0 / condition B when 1 / tick 1",
                ALL_SKIPPED,
            ),
            (
                "<RecoveryNode number_of_retries=\"{n}\"><A/><B/></RecoveryNode>",
                "condition A when 0 / condition B when 1 / tick 1",
                NO_NUMBER,
            ),
        ],
    )?;
    Ok(())
}

const SECOND_AGAIN: &str = "\
tick 1 at 0
node 1 IDLE RUNNING
call 2 start SUCCESS
node 2 IDLE SUCCESS
call 3 start RUNNING
node 3 IDLE RUNNING
root 1 RUNNING
tick 1 at 10
call 2 start SUCCESS
call 3 running RUNNING
root 1 RUNNING
tick 1 at 20
call 2 start SUCCESS
call 3 running SUCCESS
node 3 RUNNING SUCCESS
call 4 start RUNNING
node 4 IDLE RUNNING
root 1 RUNNING
tick 1 at 30
call 2 start SUCCESS
call 3 start RUNNING
node 3 SUCCESS RUNNING
call 4 running SUCCESS
node 4 RUNNING SUCCESS
node 2 SUCCESS IDLE
call 3 halted
node 3 RUNNING IDLE
node 4 SUCCESS IDLE
node 1 RUNNING SUCCESS
root 1 SUCCESS
node 1 SUCCESS IDLE
finish 1 at 30
Done";

const FIRST_FAILS_LATER: &str = "\
tick 1 at 0
node 1 IDLE RUNNING
call 2 start SUCCESS
node 2 IDLE SUCCESS
call 3 start RUNNING
node 3 IDLE RUNNING
root 1 RUNNING
set x 1 at 10
fact x 1
tick 1 at 10
call 2 start FAILURE
node 2 SUCCESS FAILURE
node 2 FAILURE IDLE
call 3 halted
node 3 RUNNING IDLE
node 1 RUNNING FAILURE
root 1 FAILURE
node 1 FAILURE IDLE
finish 1 at 10
Done";

const FARTHEST_FAILS: &str = "\
tick 1 at 0
node 1 IDLE RUNNING
call 2 start RUNNING
node 2 IDLE RUNNING
root 1 RUNNING
tick 1 at 10
call 2 running SUCCESS
node 2 RUNNING SUCCESS
call 3 start RUNNING
node 3 IDLE RUNNING
root 1 RUNNING
tick 1 at 20
call 2 start RUNNING
node 2 SUCCESS RUNNING
call 3 running FAILURE
node 3 RUNNING FAILURE
call 2 halted
node 2 RUNNING IDLE
node 3 FAILURE IDLE
node 1 RUNNING FAILURE
root 1 FAILURE
node 1 FAILURE IDLE
finish 1 at 20
Done";

const SKIPPED_LATER: &str = "\
tick 1 at 0
node 1 IDLE RUNNING
node 2 IDLE SUCCESS
node 3 IDLE RUNNING
call 4 start SUCCESS
node 4 IDLE SUCCESS
call 5 start RUNNING
node 5 IDLE RUNNING
root 1 RUNNING
board 1 0 k 1
tick 1 at 10
node 4 SUCCESS IDLE
call 5 running RUNNING
root 1 RUNNING
halt 1 at 10
node 2 SUCCESS IDLE
call 5 halted
node 5 RUNNING IDLE
node 3 RUNNING IDLE
node 1 RUNNING IDLE
finish 1 at 10
Done";

/// PipelineSequences, with the traces of their runs.
#[test]
fn pipelines_begin_at_the_first_child(rt: HostRuntime) -> Result<(), Fail> {
    compare_rows(
        &rt,
        rt.alloc(),
        &[
            (
                "<PipelineSequence><A/><B/><C/></PipelineSequence>",
                "condition A when 1 / action B timed 20 / action C timed 10 / tick 1 / at 10 / \
                tick 1 / at 20 / tick 1 / at 30 / tick 1",
                SECOND_AGAIN,
            ),
            (
                "<PipelineSequence><A/><B/></PipelineSequence>",
                "fact x 0 / condition A is x == 0 / action B timed 20 / tick 1 / at 10 / \
                set x 1 / tick 1",
                FIRST_FAILS_LATER,
            ),
            (
                "<PipelineSequence><A/><B/></PipelineSequence>",
                "action A timed 10 / action B replay 10 F / tick 1 / at 10 / tick 1 / at 20 / \
                tick 1",
                FARTHEST_FAILS,
            ),
            (
                "<Sequence><Script code=\"k := 0\"/>\
                <PipelineSequence><A _skipIf=\"k == 1\" _onSuccess=\"k := 1\"/><B/>\
                </PipelineSequence></Sequence>",
                "condition A when 1 / action B timed 20 / tick 1 / at 10 / tick 1 / halt 1",
                SKIPPED_LATER,
            ),
            (
                "<PipelineSequence><A _skipIf=\"1\"/><B _skipIf=\"1\"/></PipelineSequence>",
                "condition A when 1 / condition B when 1 / tick 1",
                ALL_SKIPPED,
            ),
        ],
    )?;
    Ok(())
}

const IN_TURN: &str = "\
tick 1 at 0
node 1 IDLE RUNNING
call 2 start SUCCESS
node 2 IDLE SUCCESS
node 2 SUCCESS IDLE
node 1 RUNNING SUCCESS
root 1 SUCCESS
node 1 SUCCESS IDLE
tick 1 at 0
node 1 IDLE RUNNING
call 3 start SUCCESS
node 3 IDLE SUCCESS
node 3 SUCCESS IDLE
node 1 RUNNING SUCCESS
root 1 SUCCESS
node 1 SUCCESS IDLE
tick 1 at 0
node 1 IDLE RUNNING
call 4 start SUCCESS
node 4 IDLE SUCCESS
node 4 SUCCESS IDLE
node 1 RUNNING SUCCESS
root 1 SUCCESS
node 1 SUCCESS IDLE
tick 1 at 0
node 1 IDLE RUNNING
call 2 start SUCCESS
node 2 IDLE SUCCESS
node 2 SUCCESS IDLE
node 1 RUNNING SUCCESS
root 1 SUCCESS
node 1 SUCCESS IDLE
finish 1 at 0
Done";

const TURN_HALTED: &str = "\
tick 1 at 0
node 1 IDLE RUNNING
call 2 start SUCCESS
node 2 IDLE SUCCESS
node 2 SUCCESS IDLE
node 1 RUNNING SUCCESS
root 1 SUCCESS
node 1 SUCCESS IDLE
tick 1 at 0
node 1 IDLE RUNNING
call 3 start RUNNING
node 3 IDLE RUNNING
root 1 RUNNING
halt 1 at 0
call 3 halted
node 3 RUNNING IDLE
node 1 RUNNING IDLE
tick 1 at 0
node 1 IDLE RUNNING
call 2 start SUCCESS
node 2 IDLE SUCCESS
node 2 SUCCESS IDLE
node 1 RUNNING SUCCESS
root 1 SUCCESS
node 1 SUCCESS IDLE
finish 1 at 0
Done";

const PAST_THE_LAST: &str = "\
tick 1 at 0
node 1 IDLE RUNNING
call 2 start SUCCESS
node 2 IDLE SUCCESS
node 2 SUCCESS IDLE
node 1 RUNNING SUCCESS
root 1 SUCCESS
node 1 SUCCESS IDLE
tick 1 at 0
node 1 IDLE RUNNING
call 3 start FAILURE
node 3 IDLE FAILURE
node 3 FAILURE IDLE
call 4 start FAILURE
node 4 IDLE FAILURE
node 4 FAILURE IDLE
call 2 start SUCCESS
node 2 IDLE SUCCESS
node 2 SUCCESS IDLE
node 1 RUNNING SUCCESS
root 1 SUCCESS
node 1 SUCCESS IDLE
finish 1 at 0
Done";

const NONE_SUCCEEDS: &str = "\
tick 1 at 0
node 1 IDLE RUNNING
call 2 start FAILURE
node 2 IDLE FAILURE
node 2 FAILURE IDLE
call 4 start RUNNING
node 4 IDLE RUNNING
root 1 RUNNING
tick 1 at 10
call 4 running FAILURE
node 4 RUNNING FAILURE
node 4 FAILURE IDLE
node 1 RUNNING FAILURE
root 1 FAILURE
node 1 FAILURE IDLE
tick 1 at 10
node 1 IDLE RUNNING
call 2 start FAILURE
node 2 IDLE FAILURE
node 2 FAILURE IDLE
call 4 start RUNNING
node 4 IDLE RUNNING
root 1 RUNNING
finish 1 at 10
call 4 halted
node 4 RUNNING IDLE
node 1 RUNNING IDLE
Done";

/// RoundRobins, with the traces of their runs.
#[test]
fn robins_go_round(rt: HostRuntime) -> Result<(), Fail> {
    compare_rows(
        &rt,
        rt.alloc(),
        &[
            (
                "<RoundRobin><A/><B/><C/></RoundRobin>",
                "condition A when 1 / condition B when 1 / condition C when 1 / tick 1 / tick 1 / \
                tick 1 / tick 1",
                IN_TURN,
            ),
            (
                "<RoundRobin><A/><B/><C/></RoundRobin>",
                "condition A when 1 / action B timed 10 / condition C when 1 / tick 1 / tick 1 / \
                halt 1 / tick 1",
                TURN_HALTED,
            ),
            (
                "<RoundRobin><A/><B/><C/></RoundRobin>",
                "condition A when 1 / condition B when 0 / condition C when 0 / tick 1 / tick 1",
                PAST_THE_LAST,
            ),
            (
                "<RoundRobin><A/><B _skipIf=\"1\"/><C/></RoundRobin>",
                "condition A when 0 / condition B when 1 / action C replay 10 F / tick 1 / \
                at 10 / tick 1 / tick 1",
                NONE_SUCCEEDS,
            ),
            (
                "<RoundRobin><A _skipIf=\"1\"/><B _skipIf=\"1\"/></RoundRobin>",
                "condition A when 1 / condition B when 1 / tick 1",
                ALL_SKIPPED,
            ),
        ],
    )?;
    Ok(())
}

const ONCE_A_SECOND: &str = "\
tick 1 at 0
node 1 IDLE RUNNING
node 2 IDLE RUNNING
call 3 start SUCCESS
node 3 IDLE SUCCESS
node 3 SUCCESS IDLE
node 2 RUNNING SUCCESS
call 4 start RUNNING
node 4 IDLE RUNNING
root 1 RUNNING
tick 1 at 400
node 2 SUCCESS RUNNING
call 4 running RUNNING
root 1 RUNNING
tick 1 at 800
call 4 running RUNNING
root 1 RUNNING
tick 1 at 1000
call 3 start SUCCESS
node 3 IDLE SUCCESS
node 3 SUCCESS IDLE
node 2 RUNNING SUCCESS
call 4 running RUNNING
root 1 RUNNING
tick 1 at 1200
node 2 SUCCESS RUNNING
call 4 running RUNNING
root 1 RUNNING
finish 1 at 1200
node 2 RUNNING IDLE
call 4 halted
node 4 RUNNING IDLE
node 1 RUNNING IDLE
Done";

const NO_PACE: &str = "\
tick 1 at 0
node 1 IDLE RUNNING
node 2 IDLE RUNNING
call 3 start SUCCESS
node 3 IDLE SUCCESS
node 3 SUCCESS IDLE
node 2 RUNNING SUCCESS
call 4 start RUNNING
node 4 IDLE RUNNING
node 2 SUCCESS IDLE
root 1 RUNNING
tick 1 at 400
node 2 IDLE RUNNING
call 3 start SUCCESS
node 3 IDLE SUCCESS
node 3 SUCCESS IDLE
node 2 RUNNING SUCCESS
call 4 running RUNNING
node 2 SUCCESS IDLE
root 1 RUNNING
finish 1 at 400
call 4 halted
node 4 RUNNING IDLE
node 1 RUNNING IDLE
Done";

const CHILD_LASTS: &str = "\
tick 1 at 0
node 1 IDLE RUNNING
node 2 IDLE RUNNING
call 3 start RUNNING
node 3 IDLE RUNNING
root 1 RUNNING
tick 1 at 1
call 3 running RUNNING
root 1 RUNNING
tick 1 at 300
call 3 running SUCCESS
node 3 RUNNING SUCCESS
node 3 SUCCESS IDLE
node 2 RUNNING SUCCESS
call 4 start RUNNING
node 4 IDLE RUNNING
root 1 RUNNING
tick 1 at 699
node 2 SUCCESS RUNNING
call 4 running RUNNING
root 1 RUNNING
tick 1 at 700
call 3 start RUNNING
node 3 IDLE RUNNING
call 4 running RUNNING
root 1 RUNNING
finish 1 at 700
call 3 halted
node 3 RUNNING IDLE
node 2 RUNNING IDLE
call 4 halted
node 4 RUNNING IDLE
node 1 RUNNING IDLE
Done";

const NO_RATE: &str = "\
tick 1 at 0
node 1 IDLE RUNNING
fault 1 1 BadPort hz
Fault";

/// RateControllers, with the traces of their runs.
#[test]
fn rates_are_kept(rt: HostRuntime) -> Result<(), Fail> {
    compare_rows(
        &rt,
        rt.alloc(),
        &[
            (
                "<PipelineSequence><RateController hz=\"1\"><A/></RateController><B/>\
                </PipelineSequence>",
                "condition A when 1 / action B timed 5000 / tick 1 / at 400 / tick 1 / at 800 / \
                tick 1 / at 1000 / tick 1 / at 1200 / tick 1",
                ONCE_A_SECOND,
            ),
            (
                "<ReactiveSequence><RateController hz=\"1\"><A/></RateController><B/>\
                </ReactiveSequence>",
                "condition A when 1 / action B timed 5000 / tick 1 / at 400 / tick 1",
                NO_PACE,
            ),
            (
                "<PipelineSequence><RateController hz=\"2.5\"><A/></RateController><B/>\
                </PipelineSequence>",
                "action A timed 300 / action B timed 5000 / tick 1 / at 1 / tick 1 / at 300 / \
                tick 1 / at 699 / tick 1 / at 700 / tick 1",
                CHILD_LASTS,
            ),
            (
                "<RateController hz=\"{r}\"><A/></RateController>",
                "condition A when 1 / tick 1",
                NO_RATE,
            ),
        ],
    )?;
    Ok(())
}
