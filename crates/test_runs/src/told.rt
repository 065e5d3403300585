//! Leaves that are told what they answer: what is told, when it counts, and what is written of it.

use crate::compare::compare_rows;
use std::test::Fail;

const TOLD_WHILE_RUNNING: &str = "\
tick 1 at 0
node 1 IDLE RUNNING
call 2 start RUNNING
node 2 IDLE RUNNING
root 1 RUNNING
tell 1 2 SUCCESS at 0
tick 1 at 0
call 2 running SUCCESS
node 2 RUNNING SUCCESS
node 2 SUCCESS IDLE
node 1 RUNNING SUCCESS
root 1 SUCCESS
node 1 SUCCESS IDLE
finish 1 at 0
Done";

/// An action may be told before it starts; what it was told is used up by its first call.
const TOLD_BEFORE: &str = "\
tell 1 2 SUCCESS at 0
tick 1 at 0
node 1 IDLE RUNNING
call 2 start SUCCESS
node 2 IDLE SUCCESS
node 2 SUCCESS IDLE
node 1 RUNNING SUCCESS
root 1 SUCCESS
node 1 SUCCESS IDLE
tick 1 at 0
node 1 IDLE RUNNING
call 2 start RUNNING
node 2 IDLE RUNNING
root 1 RUNNING
finish 1 at 0
call 2 halted
node 2 RUNNING IDLE
node 1 RUNNING IDLE
Done";

/// A halt of what runs forgets what it was told.
const TOLD_THEN_HALTED: &str = "\
tick 1 at 0
node 1 IDLE RUNNING
call 2 start RUNNING
node 2 IDLE RUNNING
root 1 RUNNING
tell 1 2 SUCCESS at 0
halt 1 at 0
call 2 halted
node 2 RUNNING IDLE
node 1 RUNNING IDLE
tick 1 at 0
node 1 IDLE RUNNING
call 2 start RUNNING
node 2 IDLE RUNNING
root 1 RUNNING
finish 1 at 0
call 2 halted
node 2 RUNNING IDLE
node 1 RUNNING IDLE
Done";

/// A halt of what does not run calls no driver, so what was told stays.
const TOLD_BEFORE_A_HALT: &str = "\
tell 1 2 FAILURE at 0
halt 1 at 0
tick 1 at 0
node 1 IDLE RUNNING
call 2 start FAILURE
node 2 IDLE FAILURE
node 2 FAILURE IDLE
node 1 RUNNING FAILURE
root 1 FAILURE
node 1 FAILURE IDLE
finish 1 at 0
Done";

/// What is told last counts.
const TOLD_TWICE: &str = "\
tick 1 at 0
node 1 IDLE RUNNING
call 2 start RUNNING
node 2 IDLE RUNNING
root 1 RUNNING
tell 1 2 SUCCESS at 1
tell 1 2 FAILURE at 2
tick 1 at 3
call 2 running FAILURE
node 2 RUNNING FAILURE
node 2 FAILURE IDLE
node 1 RUNNING FAILURE
root 1 FAILURE
node 1 FAILURE IDLE
finish 1 at 3
Done";

/// An action that is told how it ended.
#[test]
fn an_action_ends_as_it_is_told(rt: HostRuntime) -> Result<(), Fail> {
    compare_rows(
        &rt,
        rt.alloc(),
        &[
            (
                "<Sequence><A/></Sequence>",
                "action A told / tick 1 / tell 1 2 SUCCESS / tick 1",
                TOLD_WHILE_RUNNING,
            ),
            (
                "<Sequence><A/></Sequence>",
                "action A told / tell 1 2 SUCCESS / tick 1 / tick 1",
                TOLD_BEFORE,
            ),
            (
                "<Sequence><A/></Sequence>",
                "action A told / tick 1 / tell 1 2 SUCCESS / halt 1 / tick 1",
                TOLD_THEN_HALTED,
            ),
            (
                "<Sequence><A/></Sequence>",
                "action A told / tell 1 2 FAILURE / halt 1 / tick 1",
                TOLD_BEFORE_A_HALT,
            ),
            (
                "<Sequence><A/></Sequence>",
                "action A told / tick 1 / at 1 / tell 1 2 SUCCESS / at 2 / tell 1 2 FAILURE / at 3 / tick 1",
                TOLD_TWICE,
            ),
        ],
    )?;
    Ok(())
}

/// A condition keeps what it is told, over ticks and halts, until it is told anew.
const SENSED: &str = "\
tick 1 at 0
node 1 IDLE RUNNING
call 2 start FAILURE
node 2 IDLE FAILURE
node 2 FAILURE IDLE
node 1 RUNNING FAILURE
root 1 FAILURE
node 1 FAILURE IDLE
tell 1 2 SUCCESS at 0
tick 1 at 0
node 1 IDLE RUNNING
call 2 start SUCCESS
node 2 IDLE SUCCESS
call 3 start RUNNING
node 3 IDLE RUNNING
node 2 SUCCESS IDLE
root 1 RUNNING
tick 1 at 10
call 2 start SUCCESS
node 2 IDLE SUCCESS
call 3 running RUNNING
node 2 SUCCESS IDLE
root 1 RUNNING
halt 1 at 10
call 3 halted
node 3 RUNNING IDLE
node 1 RUNNING IDLE
tick 1 at 20
node 1 IDLE RUNNING
call 2 start SUCCESS
node 2 IDLE SUCCESS
call 3 start RUNNING
node 3 IDLE RUNNING
node 2 SUCCESS IDLE
root 1 RUNNING
tell 1 2 FAILURE at 20
tick 1 at 20
call 2 start FAILURE
node 2 IDLE FAILURE
node 2 FAILURE IDLE
call 3 halted
node 3 RUNNING IDLE
node 1 RUNNING FAILURE
root 1 FAILURE
node 1 FAILURE IDLE
finish 1 at 20
Done";

/// A condition answers what it was told last.
#[test]
fn a_condition_answers_as_it_is_told(rt: HostRuntime) -> Result<(), Fail> {
    compare_rows(
        &rt,
        rt.alloc(),
        &[(
            "<ReactiveSequence><C/><B/></ReactiveSequence>",
            "condition C told / action B timed 300 / tick 1 / tell 1 2 SUCCESS / tick 1 / at 10 / tick 1 / halt 1 / at 20 / tick 1 / tell 1 2 FAILURE / tick 1",
            SENSED,
        )],
    )?;
    Ok(())
}

/// Of two leaves of one ID each ends as it is told itself.
const ONE_OF_TWO: &str = "\
tick 1 at 0
node 1 IDLE RUNNING
call 2 start RUNNING
node 2 IDLE RUNNING
call 3 start RUNNING
node 3 IDLE RUNNING
root 1 RUNNING
tell 1 3 SUCCESS at 0
tick 1 at 0
call 2 running RUNNING
call 3 running SUCCESS
node 3 RUNNING SUCCESS
root 1 RUNNING
tell 1 2 SUCCESS at 0
tick 1 at 0
call 2 running SUCCESS
node 2 RUNNING SUCCESS
node 2 SUCCESS IDLE
node 3 SUCCESS IDLE
node 1 RUNNING SUCCESS
root 1 SUCCESS
node 1 SUCCESS IDLE
finish 1 at 0
Done";

/// Of two runners each is told by itself.
const OWN_RUNNER: &str = "\
tick 1 at 0
call 1 start RUNNING
node 1 IDLE RUNNING
root 1 RUNNING
tick 2 at 0
call 1 start RUNNING
node 1 IDLE RUNNING
root 2 RUNNING
tell 2 1 FAILURE at 0
tick 1 at 0
call 1 running RUNNING
root 1 RUNNING
tick 2 at 0
call 1 running FAILURE
node 1 RUNNING FAILURE
root 2 FAILURE
node 1 FAILURE IDLE
finish 1 at 0
call 1 halted
node 1 RUNNING IDLE
finish 2 at 0
Done";

/// A fault of one runner quenches what another one was told, and is followed by nothing.
const FORGOTTEN: &str = "\
tick 2 at 0
node 1 IDLE RUNNING
call 2 start RUNNING
node 2 IDLE RUNNING
root 2 RUNNING
tell 2 2 SUCCESS at 0
tell 1 2 SUCCESS at 0
tick 1 at 0
node 1 IDLE RUNNING
call 2 start SUCCESS
node 2 IDLE SUCCESS
fault 1 3 ZeroDivisor
quench 2 2
Fault";

/// Leaves and runners that are told apart.
#[test]
fn leaves_are_told_apart(rt: HostRuntime) -> Result<(), Fail> {
    compare_rows(
        &rt,
        rt.alloc(),
        &[
            (
                "<Parallel><A/><A/></Parallel>",
                "action A told / tick 1 / tell 1 3 SUCCESS / tick 1 / tell 1 2 SUCCESS / tick 1",
                ONE_OF_TWO,
            ),
            (
                "<A/>",
                "runners 2 / action A told / tick 1 / tick 2 / tell 2 1 FAILURE / tick 1 / tick 2",
                OWN_RUNNER,
            ),
            (
                "<Sequence><A/><Script code=\"x := 1/0\"/></Sequence>",
                "runners 2 / action A told / tick 2 / tell 2 2 SUCCESS / tell 1 2 SUCCESS / tick 1 / tick 2",
                FORGOTTEN,
            ),
        ],
    )?;
    Ok(())
}

/// Both values that are told are printed as changed, in the order of the keys.
const BOTH_WRITTEN: &str = "\
tick 1 at 0
node 1 IDLE RUNNING
call 2 start RUNNING
node 2 IDLE RUNNING
root 1 RUNNING
tell 1 2 SUCCESS at 0
tick 1 at 0
call 2 running SUCCESS
node 2 RUNNING SUCCESS
node 2 SUCCESS IDLE
node 1 RUNNING SUCCESS
root 1 SUCCESS
node 1 SUCCESS IDLE
board 1 0 low 3
board 1 0 said 'a b'
finish 1 at 0
Done";

/// Values for a port without a key, for one that is given a literal and for none, and those that are not told.
const SOME_WRITTEN: &str = "\
tell 1 1 SUCCESS at 0
tick 1 at 0
call 1 start SUCCESS
node 1 IDLE SUCCESS
root 1 SUCCESS
node 1 SUCCESS IDLE
board 1 0 k -9223372036854775808
tick 1 at 0
call 1 start RUNNING
node 1 IDLE RUNNING
root 1 RUNNING
tell 1 1 SUCCESS at 0
tick 1 at 0
call 1 running SUCCESS
node 1 RUNNING SUCCESS
root 1 SUCCESS
node 1 SUCCESS IDLE
board 1 0 m ''
finish 1 at 0
Done";

/// Of two outputs with one key the one of the later `out` line is left, whatever the order in which they are told.
const LATER_LINE: &str = "\
tell 1 1 SUCCESS at 0
tick 1 at 0
call 1 start SUCCESS
node 1 IDLE SUCCESS
root 1 SUCCESS
node 1 SUCCESS IDLE
board 1 0 k 2
finish 1 at 0
Done";

/// Values are written before the script that follows the answer.
const BEFORE_THE_SCRIPT: &str = "\
tell 1 1 SUCCESS at 0
tick 1 at 0
call 1 start SUCCESS
node 1 IDLE SUCCESS
root 1 SUCCESS
node 1 SUCCESS IDLE
board 1 0 k 5
board 1 0 twice 10
finish 1 at 0
Done";

/// What a text may hold, as it is told and as it is printed.
const ESCAPED: &str = "\
tell 1 1 SUCCESS at 0
tick 1 at 0
call 1 start SUCCESS
node 1 IDLE SUCCESS
root 1 SUCCESS
node 1 SUCCESS IDLE
board 1 0 k 'it\\'s \\\\ \\n\\x00\\x1f ~'
finish 1 at 0
Done";

/// Values that are told with SUCCESS.
#[test]
fn values_are_written_as_outputs(rt: HostRuntime) -> Result<(), Fail> {
    compare_rows(
        &rt,
        rt.alloc(),
        &[
            (
                "<Sequence><A note=\"{said}\" level=\"{low}\"/></Sequence>",
                "action A told / out note / out level / tick 1 / tell 1 2 SUCCESS level=3 note='a b' / tick 1",
                BOTH_WRITTEN,
            ),
            (
                "<A a=\"{k}\" b=\"7\" d=\"{m}\"/>",
                "action A told / out a / out b / out c / out d / tell 1 1 SUCCESS b=1 c=2 a=-9223372036854775808 / tick 1 / tick 1 / tell 1 1 SUCCESS d='' / tick 1",
                SOME_WRITTEN,
            ),
            (
                "<A a=\"{k}\" b=\"{k}\"/>",
                "action A told / out a / out b / tell 1 1 SUCCESS b=2 a=1 / tick 1",
                LATER_LINE,
            ),
            (
                "<A a=\"{k}\" _onSuccess=\"twice := k * 2\"/>",
                "action A(a) told / out a / tell 1 1 SUCCESS a=5 / tick 1",
                BEFORE_THE_SCRIPT,
            ),
            (
                "<A a=\"{k}\"/>",
                "action A told / out a / tell 1 1 SUCCESS a='it\\'s \\\\ \\n\\x00\\x1f ~' / tick 1",
                ESCAPED,
            ),
        ],
    )?;
    Ok(())
}
