//! Tree files and world files that are refused, and reads that fail.

use std::test::Fail;
use test_bed::{answered, given};

const TICK: [&str; 3] = ["tick", "T", "W"];

const CHECK: [&str; 2] = ["check", "T"];

const TWO_CHECKS: &str = "<Sequence><A/><B/></Sequence>";

const TWO_CONDITIONS: &str = "fact x 1\ncondition A is x == 1\ncondition B is x < 2\ntick 1";

const CHECK_THEN_ACT: &str =
    "fact x 1\ncondition A is x == 1\naction B timed 300\ntick 1\nat 299\ntick 1";

/// Nodes and lines with the first refusal of each pair.
static PAIRS: [(&str, &str, &str); 21] = [
    ("<Sequence/>", "tick 1", "refused tree ChildCount 1\nTree"),
    (
        "<Inverter><A/></Inverter>",
        "x",
        "refused world BadLine 2\nWorld",
    ),
    ("<A x=\"1\"/>", "tick 1", "refused world NoRow 'A'\nWorld"),
    (
        "<A/>",
        "condition A is x == 0",
        "refused world NoName 2\nWorld",
    ),
    (
        "<A/>",
        "fact x 1\nfact x 2",
        "refused world DoubleName 3\nWorld",
    ),
    ("<A/>", "at 5\nat 4", "refused world MomentBack 3\nWorld"),
    ("<A/>", "goal G", "refused world NoName 2\nWorld"),
    (
        "<A/>",
        "fact x 9223372036854775808",
        "refused world Range 2\nWorld",
    ),
    (
        "<A/>",
        "condition B when 1",
        "refused world NoRow 'A'\nWorld",
    ),
    (
        "<Sequence><Sequence><A/></Sequence><Q/></Sequence>",
        "fact x 1\ncondition A is x == 1",
        "refused world NoRow 'Q'\nWorld",
    ),
    // A telling names a leaf whose row is told: no other node, and none beyond the last one.
    (
        TWO_CHECKS,
        "action A told\naction B timed 0\ntell 1 3 SUCCESS",
        "refused world NoLeaf 3\nWorld",
    ),
    (
        TWO_CHECKS,
        "action A told\naction B told\ntell 1 1 SUCCESS",
        "refused world NoLeaf 1\nWorld",
    ),
    (
        TWO_CHECKS,
        "action A told\naction B told\ntell 1 4 SUCCESS",
        "refused world NoLeaf 4\nWorld",
    ),
    (
        "<A/>",
        "action A told\ntell 1 0 FAILURE",
        "refused world NoLeaf 0\nWorld",
    ),
    (
        "<A/>",
        "action A timed 0\ntell 1 2 SUCCESS",
        "refused world NoLeaf 2\nWorld",
    ),
    // It gives values for outputs of its row alone.
    (
        "<Sequence><A/></Sequence>",
        "action A told\nout a\ntell 1 2 SUCCESS a=1 b=2",
        "refused world NoOutput 2\nWorld",
    ),
    (
        "<Sequence><A/></Sequence>",
        "action A(a) told\ntell 1 2 SUCCESS a=1",
        "refused world NoOutput 2\nWorld",
    ),
    (
        "<Sequence><C/></Sequence>",
        "condition C told\ntell 1 2 SUCCESS a=1",
        "refused world NoOutput 2\nWorld",
    ),
    // The rows of the leaves come first, and then the tellings in their order.
    (
        TWO_CHECKS,
        "action A told\ntell 1 1 SUCCESS",
        "refused world NoRow 'B'\nWorld",
    ),
    (
        TWO_CHECKS,
        "action A told\naction B told\ntell 1 2 SUCCESS\ntell 1 3 SUCCESS a=1\ntell 1 1 SUCCESS",
        "refused world NoOutput 3\nWorld",
    ),
    (
        TWO_CHECKS,
        "action A told\naction B told\ntick 1\ntell 1 9 SUCCESS\ntell 1 3 SUCCESS a=1",
        "refused world NoLeaf 9\nWorld",
    ),
];

/// Whole tree files with their refusals.
static FILES: [(&[u8], &str); 26] = [
    (b"", "refused tree Unmatched 0\nTree"),
    (b"\xff", "refused tree NotUtf8 0\nTree"),
    (b"<root BTCPP_f", "refused tree BadMark 0\nTree"),
    (
        b"<root a=\"1\" a=\"2\"/>",
        "refused tree DoubleAttribute 0\nTree",
    ),
    (
        b"<root BTCPP_format=\"4\">",
        "refused tree Unmatched 23\nTree",
    ),
    (b"<!-- x", "refused tree BadMark 0\nTree"),
    (b"<!DOCTYPE root><root/>", "refused tree BadMark 0\nTree"),
    (b"<root a=\"1<2\"/>", "refused tree BadMark 0\nTree"),
    (b"<root/><root/>", "refused tree Unmatched 7\nTree"),
    (b"<root></Root>", "refused tree Unmatched 6\nTree"),
    (b"<root>x</root>", "refused tree StrayText 6\nTree"),
    (
        b"<root><TreeNodesModel/><TreeNodesModel/></root>",
        "refused tree DoubleModel 23\nTree",
    ),
    (
        b"<root><TreeNodesModel><Action ID=\"A\"/><Condition ID=\"A\"/></TreeNodesModel></root>",
        "refused tree DoubleModel 38\nTree",
    ),
    (
        b"<root><TreeNodesModel><Action/></TreeNodesModel></root>",
        "refused tree BadModel 22\nTree",
    ),
    (b"<tree/>", "refused tree NotRoot 0\nTree"),
    (b"<root BTCPP_format=\"5\"/>", "refused tree Format\nTree"),
    (b"<root BTCPP_format=\"\"/>", "refused tree Format\nTree"),
    (
        b"<root main_tree_to_execute=\"M\"><BehaviorTree ID=\"M\"><SequenceStar><SubTree ID=\"S\" a=\"b\"/></SequenceStar></BehaviorTree><BehaviorTree ID=\"S\"><A/></BehaviorTree></root>",
        "refused tree OldSubTree 2\nTree",
    ),
    (
        b"<root><BehaviorTree ID=\"M\"><A/></BehaviorTree><TreeNodesModel><Action ID=\"SequenceStar\"><input_port/></Action></TreeNodesModel></root>",
        "refused tree BadModel 88\nTree",
    ),
    (
        b"<root BTCPP_format=\"4\"><BehaviorTree ID=\"M\"/><BehaviorTree ID=\"M\"/></root>",
        "refused tree DoubleTree 'M'\nTree",
    ),
    (b"<root BTCPP_format=\"4\"/>", "refused tree NoMain\nTree"),
    (
        b"<root BTCPP_format=\"4\" main_tree_to_execute=\"N\"><BehaviorTree ID=\"M\"/></root>",
        "refused tree NoTree 'N'\nTree",
    ),
    (
        b"<root BTCPP_format=\"4\"><BehaviorTree ID=\"M\"/></root>",
        "refused tree ChildCount 0\nTree",
    ),
    (
        b"<root BTCPP_format=\"4\"><BehaviorTree ID=\"M\"><SubTree ID=\"M\"/></BehaviorTree></root>",
        "refused tree Recursive 'M'\nTree",
    ),
    (
        b"<root BTCPP_format=\"4\"><BehaviorTree ID=\"M\"><N x=\"{}\"/></BehaviorTree></root>",
        "refused tree BadLiteral 1\nTree",
    ),
    (
        b"<root BTCPP_format=\"4\"><BehaviorTree ID=\"M\"><N/></BehaviorTree><TreeNodesModel><Action ID=\"N\"><input_port name=\"x\" default=\"{}\"/></Action></TreeNodesModel></root>",
        "refused tree BadLiteral 1\nTree",
    ),
];

/// Nodes of one tree with their refusals.
static NODES: [(&str, &str); 10] = [
    ("<Action/>", "refused tree UnknownNode 1\nTree"),
    ("<SubTree ID=\"M\"/>", "refused tree Recursive 'M'\nTree"),
    ("<SubTree ID=\"N\"/>", "refused tree NoTree 'N'\nTree"),
    ("<Sequence/>", "refused tree ChildCount 1\nTree"),
    (
        "<Inverter x=\"1\"><A/></Inverter>",
        "refused tree UnknownPort 1\nTree",
    ),
    ("<N x=\"{}\"/>", "refused tree BadLiteral 1\nTree"),
    (
        "<Script code=\"x := 1.5\"/>",
        "refused tree BadScript 1 RealNumber 5\nTree",
    ),
    (
        "<Script code=\"x := 9223372036854775808\"/>",
        "refused tree BadScript 1 NumberTooWide 5\nTree",
    ),
    (
        "<A _skipIf=\"1 +\"/>",
        "refused tree BadScript 1 Syntax 3\nTree",
    ),
    (
        "<Repeat num_cycles=\"1000\"><Repeat num_cycles=\"100\"><A/></Repeat></Repeat>",
        "refused tree TooMuchWork\nTree",
    ),
];

/// Trees and worlds with the first refusal of each pair.
#[test]
fn trees_and_worlds_are_refused(rt: HostRuntime) -> Result<(), Fail> {
    let rows = &PAIRS;
    for (nodes, lines, want) in rows {
        let text = answered(rt.alloc(), &TICK, nodes, lines, &[])?;
        assert_eq!(rt; text.as_str(), *want, "{nodes}");
    }
    Ok(())
}

/// Files whose bytes are refused, and the first refusal of each pair.
#[test]
fn files_are_refused(rt: HostRuntime) -> Result<(), Fail> {
    let alloc = rt.alloc();
    let long = vec![in alloc; b' '; 1_048_577]?;
    let table: [(&[u8], &[u8], &str); 5] = [
        (b"<!-- a --><root/>", b"", "refused tree NoMain\nTree"),
        (b"\xff", b"bt-world 1", "refused tree NotUtf8 0\nTree"),
        (long.as_slice(), b"bt-world 1", "refused tree TooLong\nTree"),
        (b"", long.as_slice(), "refused world TooLong\nWorld"),
        (b"", b"", "refused tree Unmatched 0\nTree"),
    ];
    for (tree, world, want) in table {
        assert_eq!(rt; given(alloc, &TICK, tree, world, &[])?.as_str(), want);
    }
    Ok(())
}

/// Reads that fail: the file that is named.
#[test]
fn a_read_that_fails_has_its_line(rt: HostRuntime) -> Result<(), Fail> {
    for (call, lines, want) in [
        (1, TWO_CONDITIONS, "refused read tree\nRead"),
        (2, TWO_CONDITIONS, "refused read world\nRead"),
        (1, CHECK_THEN_ACT, "refused read tree\nRead"),
        (2, CHECK_THEN_ACT, "refused read world\nRead"),
    ] {
        let text = answered(rt.alloc(), &TICK, TWO_CHECKS, lines, &[call])?;
        assert_eq!(rt; text.as_str(), want, "{call}");
    }
    Ok(())
}

/// Whole tree files with their refusals.
#[test]
fn whole_files_are_refused(rt: HostRuntime) -> Result<(), Fail> {
    let rows = &FILES;
    for (file, want) in rows {
        let text = given(rt.alloc(), &CHECK, file, b"", &[])?;
        assert_eq!(rt; text.as_str(), *want);
    }
    Ok(())
}

/// Trees of one node with their refusals.
#[test]
fn trees_are_refused(rt: HostRuntime) -> Result<(), Fail> {
    let rows = &NODES;
    for (nodes, want) in rows {
        let text = answered(rt.alloc(), &CHECK, nodes, "", &[])?;
        assert_eq!(rt; text.as_str(), *want, "{nodes}");
    }
    Ok(())
}
