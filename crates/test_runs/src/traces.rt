//! Whole traces, from the first line to the exit.

use crate::compare::compare_rows;
use std::test::Fail;
use test_bed::{joined, ran};

const TWO_CHECKS: &str = "<Sequence><A/><B/></Sequence>";

const TWO_CONDITIONS: &str = "fact x 1\ncondition A is x == 1\ncondition B is x < 2\ntick 1";

const TWO_CHECKS_TRACE: &str = "\
tick 1 at 0
node 1 IDLE RUNNING
call 2 start SUCCESS
node 2 IDLE SUCCESS
call 3 start SUCCESS
node 3 IDLE SUCCESS
node 2 SUCCESS IDLE
node 3 SUCCESS IDLE
node 1 RUNNING SUCCESS
root 1 SUCCESS
node 1 SUCCESS IDLE
finish 1 at 0
Done";

const NESTED_TRACE: &str = "\
tick 1 at 0
node 1 IDLE RUNNING
node 2 IDLE RUNNING
call 3 start SUCCESS
node 3 IDLE SUCCESS
node 3 SUCCESS IDLE
node 2 RUNNING SUCCESS
call 4 start SUCCESS
node 4 IDLE SUCCESS
node 2 SUCCESS IDLE
node 4 SUCCESS IDLE
node 1 RUNNING SUCCESS
root 1 SUCCESS
node 1 SUCCESS IDLE
finish 1 at 0
Done";

const THREE_CONDITIONS: &str =
    "fact x 1\ncondition A is x == 1\ncondition B is x != 1\ncondition C is x == 1\ntick 1";

const SECOND_FAILS_TRACE: &str = "\
tick 1 at 0
node 1 IDLE RUNNING
call 2 start SUCCESS
node 2 IDLE SUCCESS
call 3 start FAILURE
node 3 IDLE FAILURE
node 2 SUCCESS IDLE
node 3 FAILURE IDLE
node 1 RUNNING FAILURE
root 1 FAILURE
node 1 FAILURE IDLE
finish 1 at 0
Done";

const CHECK_THEN_ACT: &str =
    "fact x 1\ncondition A is x == 1\naction B timed 300\ntick 1\nat 299\ntick 1";

const HELD_TRACE: &str = "\
tick 1 at 0
node 1 IDLE RUNNING
call 2 start SUCCESS
node 2 IDLE SUCCESS
call 3 start RUNNING
node 3 IDLE RUNNING
root 1 RUNNING
tick 1 at 299
call 3 running RUNNING
root 1 RUNNING
";

const HALTED_TRACE: &str = "\
finish 1 at 299
node 2 SUCCESS IDLE
call 3 halted
node 3 RUNNING IDLE
node 1 RUNNING IDLE
Done";

const OVER_TRACE: &str = "\
tick 1 at 300
call 3 running SUCCESS
node 3 RUNNING SUCCESS
node 2 SUCCESS IDLE
node 3 SUCCESS IDLE
node 1 RUNNING SUCCESS
root 1 SUCCESS
node 1 SUCCESS IDLE
finish 1 at 300
Done";

const SETTING: &str =
    "fact x 1\ncondition A is x == 1\naction B timed 300\nsets x = 7\ntick 1\nat 300\ntick 1";

const SETTING_TRACE: &str = "\
tick 1 at 0
node 1 IDLE RUNNING
call 2 start SUCCESS
node 2 IDLE SUCCESS
call 3 start RUNNING
node 3 IDLE RUNNING
root 1 RUNNING
tick 1 at 300
call 3 running SUCCESS
node 3 RUNNING SUCCESS
node 2 SUCCESS IDLE
node 3 SUCCESS IDLE
node 1 RUNNING SUCCESS
root 1 SUCCESS
node 1 SUCCESS IDLE
fact x 7
finish 1 at 300
Done";

const REPLAYED: &str =
    "fact x 0\naction A replay 0 FS\ncondition B is x == 1\ntick 1\nset x 1\nat 7\nat 7\ntick 1";

const REPLAYED_TRACE: &str = "\
tick 1 at 0
node 1 IDLE RUNNING
call 2 start FAILURE
node 2 IDLE FAILURE
call 3 start FAILURE
node 3 IDLE FAILURE
node 2 FAILURE IDLE
node 3 FAILURE IDLE
node 1 RUNNING FAILURE
root 1 FAILURE
node 1 FAILURE IDLE
set x 1 at 0
fact x 1
tick 1 at 7
node 1 IDLE RUNNING
call 2 start SUCCESS
node 2 IDLE SUCCESS
node 2 SUCCESS IDLE
node 1 RUNNING SUCCESS
root 1 SUCCESS
node 1 SUCCESS IDLE
finish 1 at 7
Done";

const EFFECTS: &str = "fact x 0\nfact y 5\naction A timed 0\nsets y = -3\nsets x = 0\ntick 1";

const EFFECTS_TRACE: &str = "\
tick 1 at 0
call 1 start SUCCESS
node 1 IDLE SUCCESS
root 1 SUCCESS
node 1 SUCCESS IDLE
fact y -3
finish 1 at 0
Done";

/// Trees and worlds with their whole traces.
#[test]
fn runs_have_their_traces(rt: HostRuntime) -> Result<(), Fail> {
    let alloc = rt.alloc();
    let table: [(&str, &[&str], &[&str]); 8] = [
        (TWO_CHECKS, &[TWO_CONDITIONS], &[TWO_CHECKS_TRACE]),
        (
            "<Sequence><Sequence><A/></Sequence><B/></Sequence>",
            &[TWO_CONDITIONS],
            &[NESTED_TRACE],
        ),
        (
            "<Sequence><A/><B/><C/></Sequence>",
            &[THREE_CONDITIONS],
            &[SECOND_FAILS_TRACE],
        ),
        (
            TWO_CHECKS,
            &[CHECK_THEN_ACT, "\nat 300\ntick 1"],
            &[HELD_TRACE, OVER_TRACE],
        ),
        (TWO_CHECKS, &[CHECK_THEN_ACT], &[HELD_TRACE, HALTED_TRACE]),
        (TWO_CHECKS, &[SETTING], &[SETTING_TRACE]),
        (
            "<Fallback><A/><B/></Fallback>",
            &[REPLAYED],
            &[REPLAYED_TRACE],
        ),
        ("<A/>", &[EFFECTS], &[EFFECTS_TRACE]),
    ];
    for (nodes, lines, trace) in table {
        let want = joined(alloc, trace)?;
        assert_eq!(rt;
            ran(alloc, nodes, joined(alloc, lines)?.as_str())?,
            want,
            "{nodes}"
        );
    }
    Ok(())
}

const COUNTED: &str = "\
tick 1 at 0
node 1 IDLE RUNNING
call 2 start SUCCESS
node 2 IDLE SUCCESS
call 3 start SUCCESS
node 3 IDLE SUCCESS
call 4 start SUCCESS
node 4 IDLE SUCCESS
node 2 SUCCESS IDLE
node 3 SUCCESS IDLE
node 4 SUCCESS IDLE
node 1 RUNNING SUCCESS
root 1 SUCCESS
node 1 SUCCESS IDLE
fact n 2
finish 1 at 0
Done";

const OVERFLOW: &str = "\
tick 1 at 0
node 1 IDLE RUNNING
fault 1 2 Overflow
Fault";

const HELD_OVERFLOW: &str = "\
tick 1 at 0
call 1 start RUNNING
node 1 IDLE RUNNING
root 1 RUNNING
tick 1 at 100
fault 1 1 Overflow
quench 1 1
Fault";

/// Rows with effects that add to a fact, with the traces of their runs.
#[test]
fn effects_add(rt: HostRuntime) -> Result<(), Fail> {
    compare_rows(
        &rt,
        rt.alloc(),
        &[
            (
                "<Sequence><Inc/><Inc/><Two/></Sequence>",
                "fact n 0 / action Inc timed 0 / sets n += 1 / condition Two is n == 2 / tick 1",
                COUNTED,
            ),
            (
                "<Sequence><Inc/></Sequence>",
                "fact n 9223372036854775807 / action Inc timed 0 / sets n += 1 / tick 1",
                OVERFLOW,
            ),
            (
                "<Inc/>",
                "fact x 0 / fact n 9223372036854775807 / action Inc timed 100 / sets x = 1 / sets n += 1 / \
                tick 1 / at 100 / tick 1",
                HELD_OVERFLOW,
            ),
        ],
    )?;
    Ok(())
}

const KEPT_LENGTH: &str = "\
tick 1 at 0
call 1 start RUNNING
node 1 IDLE RUNNING
root 1 RUNNING
set x 0 at 0
fact x 0
tick 1 at 99
call 1 running RUNNING
root 1 RUNNING
set x 7 at 99
fact x 7
tick 1 at 100
call 1 running SUCCESS
node 1 RUNNING SUCCESS
root 1 SUCCESS
node 1 SUCCESS IDLE
tick 1 at 100
call 1 start RUNNING
node 1 IDLE RUNNING
root 1 RUNNING
tick 1 at 107
call 1 running SUCCESS
node 1 RUNNING SUCCESS
root 1 SUCCESS
node 1 SUCCESS IDLE
finish 1 at 107
Done";

const NO_LENGTH: &str = "\
tick 1 at 0
node 1 IDLE RUNNING
call 2 start RUNNING
node 2 IDLE RUNNING
fault 1 3 Range
quench 1 2
Fault";

/// Actions whose length is an expression: it is worked out where they begin.
#[test]
fn lengths_are_worked_out_once(rt: HostRuntime) -> Result<(), Fail> {
    compare_rows(
        &rt,
        rt.alloc(),
        &[
            (
                "<A/>",
                "fact x 100 / action A timed (x) / tick 1 / set x 0 / at 99 / tick 1 / set x 7 / at 100 / tick 1 / \
                tick 1 / at 107 / tick 1",
                KEPT_LENGTH,
            ),
            (
                "<Parallel><A/><B far=\"-1\"/></Parallel>",
                "action A timed (1) / action B(far) timed (far * 100) / tick 1",
                NO_LENGTH,
            ),
        ],
    )?;
    Ok(())
}

/// Worlds without a tick: nothing is called.
#[test]
fn runs_without_ticks_have_no_calls(rt: HostRuntime) -> Result<(), Fail> {
    compare_rows(
        &rt,
        rt.alloc(),
        &[
            ("<A/>", "condition A when 1", "finish 1 at 0\nDone"),
            ("<A/>", "action A gate 1", "finish 1 at 0\nDone"),
            ("<A/>", "action A timed 1 / fails 1", "finish 1 at 0\nDone"),
            (
                "<A/>",
                "action A(p) timed 1 / out q = p",
                "finish 1 at 0\nDone",
            ),
            (
                "<A/>",
                "action A timed 1 / at 4 / halt 1 / at 9",
                "halt 1 at 4\nfinish 1 at 4\nDone",
            ),
            (
                "<A/>",
                "runners 2 / action A timed 1",
                "finish 1 at 0\nfinish 2 at 0\nDone",
            ),
        ],
    )?;
    Ok(())
}
