//! What is told of the expectations of a run, and with which exit.

use base_texts::NoMemory;
use std::alloc::Global;
use std::test::Fail;
use test_bed::{given_by, shelf_with_rules, tree_of, world_of};

/// The words of the command over the files `T`, `W` and `R`.
const EXPECT: [&str; 4] = ["expect", "T", "W", "R"];

/// A run of which something is expected: the nodes of its tree, the lines of its world and of its expectations, and what is
/// told. A slash between blanks stands for the end of a line.
struct Row {
    nodes: &'static str,
    world: &'static str,
    expect: &'static str,
    told: &'static str,
}

/// A condition that turns false while an action runs.
const GUARDED: &str = "<ReactiveSequence><Ok/><B/></ReactiveSequence>";

const TURNS: &str =
    "fact ok 1 / condition Ok is ok == 1 / action B timed 100 / tick 1 / at 10 / set ok 0 / tick 1";

static ROWS: [Row; 20] = [
    // Facts after events.
    Row {
        nodes: GUARDED,
        world: TURNS,
        expect: "always ok == 1 / always ok >= 0 / at 9 ok == 1 / at 10 ok == 1 / at 11 !ok / at 0 ok",
        told: "fail 2 10\npass 3\npass 4\nfail 5 10\npass 6\npass 7\nexpected 4 passed, 2 failed\nUnmet",
    },
    // Facts before the first event.
    Row {
        nodes: "<A/>",
        world: "fact x 0 / action A timed 0 / sets x = 1 / at 10 / tick 1",
        expect: "always x == 1 / at 9 x == 0 / at 10 x == 1 / at 9 x == 1",
        told: "fail 2 0\npass 3\npass 4\nfail 5 10\nexpected 2 passed, 2 failed\nUnmet",
    },
    // No event.
    Row {
        nodes: "<A/>",
        world: "fact x 0 / action A timed 0",
        expect: "always x == 0 / at 5 x / by 5 root 1 SUCCESS / starts A == 0 / starts A > 0 / starts A < 0",
        told: "pass 2\nfail 3 0\nfail 4 0\npass 5\nfail 6 0\nfail 7 0\nexpected 2 passed, 4 failed\nUnmet",
    },
    // Roots.
    Row {
        nodes: GUARDED,
        world: TURNS,
        expect: "by 10 root 1 FAILURE / by 9 root 1 FAILURE / by 0 root 1 RUNNING / by 1000000000000 root 1 SUCCESS / root 1 never FAILURE / root 1 never SKIPPED",
        told: "pass 2\nfail 3 10\npass 4\nfail 5 10\nfail 6 10\npass 7\nexpected 3 passed, 3 failed\nUnmet",
    },
    // A root that is skipped.
    Row {
        nodes: "<A _skipIf=\"1\"/>",
        world: "action A timed 0 / at 7 / tick 1",
        expect: "by 7 root 1 SKIPPED / root 1 never SKIPPED / starts A == 0",
        told: "pass 2\nfail 3 7\npass 4\nexpected 2 passed, 1 failed\nUnmet",
    },
    // Starts.
    Row {
        nodes: GUARDED,
        world: TURNS,
        expect: "starts Ok == 2 / starts Ok == 1 / starts Ok != 2 / starts Ok < 3 / starts Ok <= 1 / starts Ok > 2 / starts Ok >= 2 / starts B == 1",
        told: "pass 2\nfail 3 10\nfail 4 10\npass 5\nfail 6 10\nfail 7 10\npass 8\npass 9\nexpected 4 passed, 4 failed\nUnmet",
    },
    // A start that is one too many.
    Row {
        nodes: "<Repeat num_cycles=\"3\"><A/></Repeat>",
        world: "action A timed 10 / tick 1 / at 10 / tick 1 / at 20 / tick 1 / at 30 / tick 1",
        expect: "starts A <= 2 / starts A < 1 / starts A == 3",
        told: "fail 2 20\nfail 3 0\npass 4\nexpected 1 passed, 2 failed\nUnmet",
    },
    // Ends.
    Row {
        nodes: GUARDED,
        world: TURNS,
        expect: "ends Ok SUCCESS by 0 / ends Ok FAILURE by 9 / ends Ok FAILURE by 10 / ends B SUCCESS by 500",
        told: "pass 2\nfail 3 10\npass 4\nfail 5 10\nexpected 2 passed, 2 failed\nUnmet",
    },
    // Effects within a tick.
    Row {
        nodes: "<Sequence><A/><B/></Sequence>",
        world: "fact x 0 / action A timed 0 / sets x += 5 / action B timed 0 / sets x = 7 / tick 1 / tick 1",
        expect: "start A only x == 0 / start B only x == 5 || x == 12 / start B only x != 7 / start A only x != 7 / always x == 0 || x == 7",
        told: "fail 2 0\npass 3\npass 4\nfail 5 0\npass 6\nexpected 3 passed, 2 failed\nUnmet",
    },
    // An expression without a value.
    Row {
        nodes: GUARDED,
        world: TURNS,
        expect: "always 1/ok / start Ok only 1/ok / at 10 1/ok / at 9 1/ok",
        told: "fail 2 10\nfail 3 10\nfail 4 10\npass 5\nexpected 1 passed, 3 failed\nUnmet",
    },
    // A handover within a tick.
    Row {
        nodes: "<ReactiveSequence><A/><B/></ReactiveSequence>",
        world: "fact x 1 / action A gate x == 1 / action B timed 100 / tick 1 / at 10 / set x 0 / at 20 / tick 1",
        expect: "never A with B / never B with A / never A with A / never B with B",
        told: "fail 2 20\nfail 3 20\npass 4\npass 5\nexpected 2 passed, 2 failed\nUnmet",
    },
    // One leaf after the other.
    Row {
        nodes: "<Sequence><A/><B/></Sequence>",
        world: "action A timed 10 / action B timed 10 / tick 1 / at 10 / tick 1 / at 20 / tick 1",
        expect: "never A with B / order A before B / order B before A",
        told: "pass 2\npass 3\nfail 4 0\nexpected 2 passed, 1 failed\nUnmet",
    },
    // Leaves of one ID.
    Row {
        nodes: "<Parallel><A name=\"one\"/><A name=\"two\"/></Parallel>",
        world: "action A timed 10 / tick 1",
        expect: "never A with A / never 'one' with 'two' / never 'one' with 'one' / starts 'one' == 1 / starts A == 2 / starts '*' == 2 / starts '*o*' == 2 / starts 't*' == 1",
        told: "fail 2 0\nfail 3 0\npass 4\npass 5\npass 6\npass 7\npass 8\npass 9\nexpected 6 passed, 2 failed\nUnmet",
    },
    // Two runners.
    Row {
        nodes: "<Sequence><A/><B/></Sequence>",
        world: "runners 2 / action A timed 10 / action B timed 10 / tick 1 / at 10 / tick 1 / tick 2",
        expect: "never A with B / order A before B / starts A == 2 / by 10 root 2 RUNNING / root 2 never RUNNING",
        told: "pass 2\npass 3\npass 4\npass 5\nfail 6 10\nexpected 4 passed, 1 failed\nUnmet",
    },
    // A halt.
    Row {
        nodes: "<Sequence><A/><B/></Sequence>",
        world: "action A timed 10 / action B timed 10 / tick 1 / at 5 / halt 1 / tick 1",
        expect: "starts A == 2 / starts A == 1 / ends A SUCCESS by 5",
        told: "pass 2\nfail 3 5\nfail 4 5\nexpected 1 passed, 2 failed\nUnmet",
    },
    // A success of an earlier round.
    Row {
        nodes: "<Fallback><B/><A/></Fallback>",
        world: "action A timed 0 / action B replay 0 FS / tick 1 / tick 1",
        expect: "order A before B / order B before A",
        told: "fail 2 0\nfail 3 0\nexpected 0 passed, 2 failed\nUnmet",
    },
    // A fault.
    Row {
        nodes: "<Sequence><A/><Script code=\"y := z\"/></Sequence>",
        world: "action A timed 10 / tick 1 / at 10 / tick 1",
        expect: "starts A == 1 / by 50 root 1 SUCCESS / ends A SUCCESS by 10 / always 1",
        told: "pass 2\nfail 3 10\npass 4\npass 5\nfault 1 3 NoEntry 0 z\nFault",
    },
    // A fault of a finish.
    Row {
        nodes: "<A _onHalted=\"1 / 0\"/>",
        world: "action A timed 10 / tick 1",
        expect: "starts A == 1",
        told: "pass 2\nfault 1 1 ZeroDivisor\nFault",
    },
    // A built-in leaf.
    Row {
        nodes: "<Sequence><AlwaysSuccess name=\"A\"/><A/></Sequence>",
        world: "action A timed 0 / tick 1",
        expect: "starts 'A' == 1 / starts '*' == 1",
        told: "pass 2\npass 3\nexpected 2 passed, 0 failed\nDone",
    },
    // Nothing that is expected.
    Row {
        nodes: "<A/>",
        world: "action A timed 0 / tick 1",
        expect: "# nothing / ",
        told: "expected 0 passed, 0 failed\nDone",
    },
];

/// A tree that opens another one twice, and calls a leaf of its own too.
const TWO_TREES: &str =
    "<root BTCPP_format=\"4\" main_tree_to_execute=\"M\"><BehaviorTree ID=\"M\"><Sequence><A/><SubTree ID=\"S\" name=\"left\"/><SubTree ID=\"S\"/></Sequence></BehaviorTree><BehaviorTree ID=\"S\"><A name=\"two\"/></BehaviorTree></root>";

const ONE_TICK: &str = "bt-world 1\naction A timed 0\ntick 1\n";

const BY_PATHS: &str =
    "bt-expect 1\r\nstarts A == 3\nstarts 'A' == 1\nstarts 'two' == 2\nstarts 'left/two' == 1\n  starts\t'S/*'   == 1\nstarts '*/two' == 2\nstarts '*' == 3\norder 'A' before 'left/t\\x77o'\norder 'left/*' before 'A'";

const PATHS_TOLD: &str =
    "pass 2\npass 3\npass 4\npass 5\npass 6\npass 7\npass 8\npass 9\nfail 10 0\nexpected 8 passed, 1 failed\nUnmet";

/// What is told of a run of this tree file over this world script by this file of expectations, with the exit after it.
fn told(alloc: Global, tree: &[u8], world: &[u8], expect: &[u8]) -> Result<String, NoMemory> {
    let mut shelf = shelf_with_rules(alloc, tree, world, expect, &[])?;
    given_by(alloc, &EXPECT, &mut shelf)
}

/// What is told of a row.
fn told_of(alloc: Global, row: &Row) -> Result<String, NoMemory> {
    let tree = tree_of(alloc, row.nodes)?;
    let world = world_of(alloc, row.world)?;
    let lines = row.expect.replace(alloc, " / ", "\n")?;
    let expect = format!(in alloc; "bt-expect 1\n{lines}\n")?;
    told(alloc, tree.as_bytes(), world.as_bytes(), expect.as_bytes())
}

/// Each kind of line is met or lost as the page says, with its moment.
#[test]
fn each_line_is_judged(rt: HostRuntime) -> Result<(), Fail> {
    let rows = &ROWS;
    for row in rows {
        let text = told_of(rt.alloc(), row)?;
        assert_eq!(rt; text.as_str(), row.told, "{}", row.expect);
    }
    Ok(())
}

/// Leaves are told by their ID, by their name and by a pattern over their paths.
#[test]
fn leaves_are_told(rt: HostRuntime) -> Result<(), Fail> {
    let text = told(
        rt.alloc(),
        TWO_TREES.as_bytes(),
        ONE_TICK.as_bytes(),
        BY_PATHS.as_bytes(),
    )?;
    assert_eq!(rt; text.as_str(), PATHS_TOLD);
    Ok(())
}
