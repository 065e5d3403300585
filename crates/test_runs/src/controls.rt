//! Runs of control nodes.

use crate::compare::compare_rows;
use std::test::Fail;
use test_bed::{TICK, given, world_of};

pub const TWO_CHECKS: &str = "\
tick 1 at 0
node 1 IDLE RUNNING
call 2 start SUCCESS
node 2 IDLE SUCCESS
call 3 start SUCCESS
node 3 IDLE SUCCESS
node 2 SUCCESS IDLE
node 3 SUCCESS IDLE
node 1 RUNNING SUCCESS
root 1 SUCCESS
node 1 SUCCESS IDLE
finish 1 at 0
Done";

pub const ALL_SKIPPED: &str = "\
tick 1 at 0
node 1 IDLE RUNNING
node 1 RUNNING IDLE
root 1 SKIPPED
finish 1 at 0
Done";

const ONE_SKIPPED: &str = "\
tick 1 at 0
node 1 IDLE RUNNING
call 3 start FAILURE
node 3 IDLE FAILURE
node 3 FAILURE IDLE
node 1 RUNNING FAILURE
root 1 FAILURE
node 1 FAILURE IDLE
finish 1 at 0
Done";

/// Sequences and Fallbacks, with the traces of their runs.
#[test]
fn sequences_and_fallbacks_go_on(rt: HostRuntime) -> Result<(), Fail> {
    compare_rows(
        &rt,
        rt.alloc(),
        &[
            (
                "<Sequence><A/><B/></Sequence>",
                "fact x 1 / condition A is x == 1 / condition B when x < 2 / tick 1",
                TWO_CHECKS,
            ),
            (
                "<Sequence><A _skipIf=\"1\"/><B _skipIf=\"1\"/></Sequence>",
                "condition A when 1 / condition B when 1 / tick 1",
                ALL_SKIPPED,
            ),
            (
                "<Fallback><A _skipIf=\"1\"/><B/></Fallback>",
                "condition A when 1 / condition B when 0 / tick 1",
                ONE_SKIPPED,
            ),
        ],
    )?;
    Ok(())
}

const DOOR: &str = "\
<root BTCPP_format=\"4\">
  <BehaviorTree ID=\"MainTree\">
    <Sequence>
      <Fallback>
        <Inverter><IsDoorClosed/></Inverter>
        <SubTree ID=\"DoorClosed\"/>
      </Fallback>
      <PassThroughDoor/>
    </Sequence>
  </BehaviorTree>
  <BehaviorTree ID=\"DoorClosed\">
    <Fallback>
      <OpenDoor/>
      <RetryUntilSuccessful num_attempts=\"5\"><PickLock/></RetryUntilSuccessful>
      <SmashDoor/>
    </Fallback>
  </BehaviorTree>
</root>
";

const LOCKED: &str = "\
fact closed 1 / condition IsDoorClosed is closed == 1 / \
action OpenDoor timed 0 / fails 1 / action PickLock replay 0 FFS / sets closed = 0 / \
action SmashDoor timed 0 / action PassThroughDoor timed 0 / tick 1";

const DOOR_TRACE: &str = "\
tick 1 at 0
node 1 IDLE RUNNING
node 2 IDLE RUNNING
node 3 IDLE RUNNING
call 4 start SUCCESS
node 4 IDLE SUCCESS
node 4 SUCCESS IDLE
node 3 RUNNING FAILURE
node 5 IDLE RUNNING
node 6 IDLE RUNNING
call 7 start FAILURE
node 7 IDLE FAILURE
node 8 IDLE RUNNING
call 9 start FAILURE
node 9 IDLE FAILURE
node 9 FAILURE IDLE
call 9 start FAILURE
node 9 IDLE FAILURE
node 9 FAILURE IDLE
call 9 start SUCCESS
node 9 IDLE SUCCESS
node 9 SUCCESS IDLE
node 8 RUNNING SUCCESS
node 7 FAILURE IDLE
node 8 SUCCESS IDLE
node 6 RUNNING SUCCESS
node 6 SUCCESS IDLE
node 5 RUNNING SUCCESS
node 3 FAILURE IDLE
node 5 SUCCESS IDLE
node 2 RUNNING SUCCESS
call 11 start SUCCESS
node 11 IDLE SUCCESS
node 2 SUCCESS IDLE
node 11 SUCCESS IDLE
node 1 RUNNING SUCCESS
root 1 SUCCESS
node 1 SUCCESS IDLE
fact closed 0
finish 1 at 0
Done";

/// A file whose main tree has to be named: once it is, once it is not.
#[test]
fn a_locked_door_is_crossed(rt: HostRuntime) -> Result<(), Fail> {
    let alloc = rt.alloc();
    let world = world_of(alloc, LOCKED)?;
    let table: [(&[&str], &str); 2] = [
        (&["tick", "T", "W", "--main", "MainTree"], DOOR_TRACE),
        (&TICK, "refused tree NoMain\nTree"),
    ];
    for (words, want) in table {
        let text = given(alloc, words, DOOR.as_bytes(), world.as_bytes(), &[])?;
        assert_eq!(rt; text.as_str(), want);
    }
    Ok(())
}

pub const HALTED_BY_A_CHECK: &str = "\
tick 1 at 0
node 1 IDLE RUNNING
call 2 start SUCCESS
node 2 IDLE SUCCESS
call 3 start RUNNING
node 3 IDLE RUNNING
node 2 SUCCESS IDLE
root 1 RUNNING
set ok 0 at 10
fact ok 0
tick 1 at 10
call 2 start FAILURE
node 2 IDLE FAILURE
node 2 FAILURE IDLE
call 3 halted
node 3 RUNNING IDLE
node 1 RUNNING FAILURE
root 1 FAILURE
node 1 FAILURE IDLE
finish 1 at 10
Done";

const ENDED_BY_A_CHECK: &str = "\
tick 1 at 0
node 1 IDLE RUNNING
call 2 start FAILURE
node 2 IDLE FAILURE
call 3 start RUNNING
node 3 IDLE RUNNING
node 2 FAILURE IDLE
root 1 RUNNING
set x 1 at 0
fact x 1
tick 1 at 0
call 2 start SUCCESS
node 2 IDLE SUCCESS
node 2 SUCCESS IDLE
call 3 halted
node 3 RUNNING IDLE
node 1 RUNNING SUCCESS
root 1 SUCCESS
node 1 SUCCESS IDLE
finish 1 at 0
Done";

/// Reactive nodes, with the traces of their runs.
#[test]
fn reactive_nodes_ask_again(rt: HostRuntime) -> Result<(), Fail> {
    compare_rows(
        &rt,
        rt.alloc(),
        &[
            (
                "<ReactiveSequence><Ok/><B/></ReactiveSequence>",
                "fact ok 1 / condition Ok is ok == 1 / action B timed 100 / tick 1 / at 10 / \
                set ok 0 / tick 1",
                HALTED_BY_A_CHECK,
            ),
            (
                "<ReactiveFallback><A/><B/></ReactiveFallback>",
                "fact x 0 / condition A is x == 1 / action B timed 100 / tick 1 / set x 1 / \
                tick 1",
                ENDED_BY_A_CHECK,
            ),
        ],
    )?;
    Ok(())
}

const REMEMBERED: &str = "\
tick 1 at 0
node 1 IDLE RUNNING
call 2 start SUCCESS
node 2 IDLE SUCCESS
call 3 start FAILURE
node 3 IDLE FAILURE
node 3 FAILURE IDLE
node 1 RUNNING FAILURE
root 1 FAILURE
node 1 FAILURE IDLE
tick 1 at 0
node 1 IDLE RUNNING
call 3 start SUCCESS
node 3 IDLE SUCCESS
node 2 SUCCESS IDLE
node 3 SUCCESS IDLE
node 1 RUNNING SUCCESS
root 1 SUCCESS
node 1 SUCCESS IDLE
finish 1 at 0
Done";

const REPEATED: &str = "\
tick 1 at 0
node 1 IDLE RUNNING
node 2 IDLE RUNNING
call 3 start SUCCESS
node 3 IDLE SUCCESS
call 4 start FAILURE
node 4 IDLE FAILURE
node 4 FAILURE IDLE
node 2 RUNNING FAILURE
node 2 FAILURE IDLE
node 1 RUNNING FAILURE
root 1 FAILURE
node 1 FAILURE IDLE
tick 1 at 0
node 1 IDLE RUNNING
node 2 IDLE RUNNING
call 4 start SUCCESS
node 4 IDLE SUCCESS
node 3 SUCCESS IDLE
node 4 SUCCESS IDLE
node 2 RUNNING SUCCESS
node 2 SUCCESS IDLE
node 2 IDLE RUNNING
call 3 start SUCCESS
node 3 IDLE SUCCESS
call 4 start SUCCESS
node 4 IDLE SUCCESS
node 3 SUCCESS IDLE
node 4 SUCCESS IDLE
node 2 RUNNING SUCCESS
node 2 SUCCESS IDLE
node 1 RUNNING SUCCESS
root 1 SUCCESS
node 1 SUCCESS IDLE
finish 1 at 0
Done";

/// SequencesWithMemory, with the traces of their runs.
#[test]
fn a_sequence_with_memory_goes_on_where_it_failed(rt: HostRuntime) -> Result<(), Fail> {
    compare_rows(
        &rt,
        rt.alloc(),
        &[
            (
                "<SequenceWithMemory><A/><B/></SequenceWithMemory>",
                "condition A when 1 / action B replay 0 FS / tick 1 / tick 1",
                REMEMBERED,
            ),
            (
                "<Repeat num_cycles=\"2\"><SequenceWithMemory><A/><B/></SequenceWithMemory>\
                </Repeat>",
                "condition A when 1 / action B replay 0 FS / tick 1 / tick 1",
                REPEATED,
            ),
        ],
    )?;
    Ok(())
}

const TWO_OF_FOUR: &str = "\
tick 1 at 0
node 1 IDLE RUNNING
call 2 start RUNNING
node 2 IDLE RUNNING
call 4 start SUCCESS
node 4 IDLE SUCCESS
call 5 start RUNNING
node 5 IDLE RUNNING
root 1 RUNNING
tick 1 at 100
call 2 running SUCCESS
node 2 RUNNING SUCCESS
node 2 SUCCESS IDLE
node 4 SUCCESS IDLE
call 5 halted
node 5 RUNNING IDLE
node 1 RUNNING SUCCESS
root 1 SUCCESS
node 1 SUCCESS IDLE
finish 1 at 100
Done";

const SKIPPED_COUNT: &str = "\
tick 1 at 0
node 1 IDLE RUNNING
node 1 RUNNING SUCCESS
root 1 SUCCESS
node 1 SUCCESS IDLE
finish 1 at 0
Done";

const NONE_SUCCEEDED: &str = "\
tick 1 at 0
node 1 IDLE RUNNING
node 1 RUNNING IDLE
root 1 SKIPPED
finish 1 at 0
Done";

const TOO_MANY: &str = "\
tick 1 at 0
node 1 IDLE RUNNING
fault 1 1 BadPort success_count
Fault";

const FIRST_FAILS: &str = "\
tick 1 at 0
node 1 IDLE RUNNING
call 2 start FAILURE
node 2 IDLE FAILURE
node 2 FAILURE IDLE
node 1 RUNNING FAILURE
root 1 FAILURE
node 1 FAILURE IDLE
finish 1 at 0
Done";

/// Parallels, with the traces of their runs.
#[test]
fn parallels_count(rt: HostRuntime) -> Result<(), Fail> {
    compare_rows(
        &rt,
        rt.alloc(),
        &[
            (
                "<Parallel success_count=\"2\"><A/><B _skipIf=\"true\"/><C/><D/></Parallel>",
                "action A timed 100 / action B timed 0 / condition C when 1 / \
                action D timed 300 / tick 1 / at 100 / tick 1",
                TWO_OF_FOUR,
            ),
            (
                "<Parallel><B _skipIf=\"1\"/><B _skipIf=\"1\"/></Parallel>",
                "action B timed 0 / tick 1",
                SKIPPED_COUNT,
            ),
            (
                "<Parallel success_count=\"1\"><B _skipIf=\"1\"/><B _skipIf=\"1\"/></Parallel>",
                "action B timed 0 / tick 1",
                NONE_SUCCEEDED,
            ),
            (
                "<Parallel success_count=\"3\"><A/><B/></Parallel>",
                "condition A when 1 / condition B when 1 / tick 1",
                TOO_MANY,
            ),
            (
                "<Parallel><A/><B/></Parallel>",
                "condition A when 0 / action B timed 100 / tick 1",
                FIRST_FAILS,
            ),
        ],
    )?;
    Ok(())
}

const SELECTED: &str = "\
tick 1 at 0
node 1 IDLE RUNNING
call 2 start SUCCESS
node 2 IDLE SUCCESS
node 3 IDLE RUNNING
call 4 start RUNNING
node 4 IDLE RUNNING
node 2 SUCCESS IDLE
root 1 RUNNING
board 1 0 v 1
set x 2 at 0
fact x 2
tick 1 at 0
call 2 start SUCCESS
node 2 IDLE SUCCESS
call 4 halted
node 4 RUNNING IDLE
call 5 start RUNNING
node 5 IDLE RUNNING
node 2 SUCCESS IDLE
root 1 RUNNING
board 1 0 v 2
finish 1 at 0
call 5 halted
node 5 RUNNING IDLE
node 3 RUNNING IDLE
node 1 RUNNING IDLE
Done";

const NO_ENTRY: &str = "\
tick 1 at 0
node 1 IDLE RUNNING
call 4 start SUCCESS
node 4 IDLE SUCCESS
node 4 SUCCESS IDLE
node 1 RUNNING SUCCESS
root 1 SUCCESS
node 1 SUCCESS IDLE
finish 1 at 0
Done";

/// Switches, with the traces of their runs.
#[test]
fn switches_select(rt: HostRuntime) -> Result<(), Fail> {
    compare_rows(
        &rt,
        rt.alloc(),
        &[
            (
                "<ReactiveSequence><Read v=\"{v}\"/>\
                <Switch2 variable=\"{v}\" case_1=\"1\" case_2=\"2\"><A/><B/><C/></Switch2>\
                </ReactiveSequence>",
                "fact x 1 / action Read timed 0 / out v = x / action A timed 100 / \
                action B timed 100 / action C timed 0 / tick 1 / set x 2 / tick 1",
                SELECTED,
            ),
            (
                "<Switch2 variable=\"{v}\" case_1=\"1\" case_2=\"2\"><A/><B/><C/></Switch2>",
                "action A timed 100 / action B timed 100 / action C timed 0 / tick 1",
                NO_ENTRY,
            ),
        ],
    )?;
    Ok(())
}

const WHILE_OK: &str = "\
tick 1 at 0
node 1 IDLE RUNNING
call 2 start SUCCESS
node 2 IDLE SUCCESS
node 2 SUCCESS IDLE
call 3 start RUNNING
node 3 IDLE RUNNING
root 1 RUNNING
set ok 0 at 0
fact ok 0
tick 1 at 0
call 2 start FAILURE
node 2 IDLE FAILURE
node 2 FAILURE IDLE
call 3 halted
node 3 RUNNING IDLE
node 1 RUNNING FAILURE
root 1 FAILURE
node 1 FAILURE IDLE
finish 1 at 0
Done";

const WHILE_ELSE: &str = "\
tick 1 at 0
node 1 IDLE RUNNING
call 2 start SUCCESS
node 2 IDLE SUCCESS
node 2 SUCCESS IDLE
call 3 start RUNNING
node 3 IDLE RUNNING
root 1 RUNNING
set ok 0 at 0
fact ok 0
tick 1 at 0
call 2 start FAILURE
node 2 IDLE FAILURE
node 2 FAILURE IDLE
call 3 halted
node 3 RUNNING IDLE
call 4 start RUNNING
node 4 IDLE RUNNING
root 1 RUNNING
finish 1 at 0
call 4 halted
node 4 RUNNING IDLE
node 1 RUNNING IDLE
Done";

const CHOSEN: &str = "\
tick 1 at 0
node 1 IDLE RUNNING
call 2 start FAILURE
node 2 IDLE FAILURE
call 4 start RUNNING
node 4 IDLE RUNNING
root 1 RUNNING
set x 1 at 0
fact x 1
tick 1 at 10
call 4 running SUCCESS
node 4 RUNNING SUCCESS
node 2 FAILURE IDLE
node 4 SUCCESS IDLE
node 1 RUNNING SUCCESS
root 1 SUCCESS
node 1 SUCCESS IDLE
finish 1 at 10
Done";

/// IfThenElse and WhileDoElse nodes, with the traces of their runs.
#[test]
fn conditions_choose_a_branch(rt: HostRuntime) -> Result<(), Fail> {
    compare_rows(
        &rt,
        rt.alloc(),
        &[
            (
                "<WhileDoElse><Ok/><B/></WhileDoElse>",
                "fact ok 1 / condition Ok is ok == 1 / action B timed 100 / tick 1 / \
                set ok 0 / tick 1",
                WHILE_OK,
            ),
            (
                "<WhileDoElse><Ok/><B/><C/></WhileDoElse>",
                "fact ok 1 / condition Ok is ok == 1 / action B timed 100 / \
                action C timed 100 / tick 1 / set ok 0 / tick 1",
                WHILE_ELSE,
            ),
            (
                "<IfThenElse><A/><B/><C/></IfThenElse>",
                "fact x 0 / condition A is x == 1 / action B timed 10 / action C timed 10 / \
                tick 1 / set x 1 / at 10 / tick 1",
                CHOSEN,
            ),
        ],
    )?;
    Ok(())
}
