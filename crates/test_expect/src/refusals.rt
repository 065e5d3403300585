//! Files of expectations that are refused, and in which order files are.

use base_texts::NoMemory;
use std::alloc::Global;
use std::test::Fail;
use test_bed::{given_by, shelf_with_rules};

/// The words of the command over the files `T`, `W` and `R`.
const EXPECT: [&str; 4] = ["expect", "T", "W", "R"];

const TREE: &str =
    "<root BTCPP_format=\"4\"><BehaviorTree ID=\"M\"><Sequence><A/><B name=\"x\"/></Sequence></BehaviorTree></root>";

const WORLD: &str = "bt-world 1\nfact f 1\nrunners 2\naction A timed 0\naction B timed 0\n";

/// Lines after the header, and what is refused.
static LINES: [(&str, &str); 44] = [
    ("x", "BadLine 2"),
    ("\n# x\n\talways", "BadLine 4"),
    ("always f f", "BadLine 2"),
    ("always 'a'", "BadLine 2"),
    ("always \u{e9}", "BadLine 2"),
    ("always g", "NoName 2"),
    ("always f\nalways 1 + f + A", "NoName 3"),
    ("at f", "BadLine 2"),
    ("at 01 f", "BadLine 2"),
    ("at -1 f", "Range 2"),
    ("at 1000000000001 g", "Range 2"),
    ("at 99999999999999999999 g", "Range 2"),
    ("at 1000000000000 g", "NoName 2"),
    ("at 1000000000001 g g", "BadLine 2"),
    ("by 5 root 1", "BadLine 2"),
    ("by 5 root 1 SUCCESS x", "BadLine 2"),
    ("by 5 root 1 IDLE", "BadLine 2"),
    ("by 5 toor 1 SUCCESS", "BadLine 2"),
    ("by 5 root 3 SUCCESS", "NoRunner 2"),
    ("by 5 root 0 SUCCESS", "NoRunner 2"),
    ("by 5 root -1 SUCCESS", "NoRunner 2"),
    ("by -5 root 3 SUCCESS", "Range 2"),
    ("root 1 never", "BadLine 2"),
    ("root 3 never SUCCESS", "NoRunner 2"),
    ("root 300 never SUCCESS", "NoRunner 2"),
    ("start A only", "BadLine 2"),
    ("start C only g g", "BadLine 2"),
    ("start C only g", "NoLeaf 2"),
    ("start A only g", "NoName 2"),
    ("start x only f", "NoLeaf 2"),
    ("starts 'x' = 1", "BadLine 2"),
    ("starts 'y' == -1", "NoLeaf 2"),
    ("starts 'x' == -1", "Range 2"),
    ("starts 'M/x' == 1", "NoLeaf 2"),
    ("starts 'x'== 1", "BadLine 2"),
    ("starts 'x == 1", "BadLine 2"),
    ("starts '\\q' == 1", "BadLine 2"),
    ("starts '\\xff' == 1", "BadLine 2"),
    ("ends A RUNNING by 5", "BadLine 2"),
    ("ends A SUCCESS by 1000000000001", "Range 2"),
    ("never A with", "BadLine 2"),
    ("never A with B B", "BadLine 2"),
    ("never C with 'D'", "NoLeaf 2"),
    ("order A befor B", "BadLine 2"),
];

/// What is told of a run of this tree over this world by this file of expectations, of which these reads fail, with the exit
/// after it.
fn told(
    alloc: Global,
    tree: &str,
    world: &str,
    expect: &str,
    fails: &[u64],
) -> Result<String, NoMemory> {
    let mut shelf = shelf_with_rules(
        alloc,
        tree.as_bytes(),
        world.as_bytes(),
        expect.as_bytes(),
        fails,
    )?;
    given_by(alloc, &EXPECT, &mut shelf)
}

/// The first faulty line is refused, by what is wrong with it first.
#[test]
fn faulty_lines_are_refused(rt: HostRuntime) -> Result<(), Fail> {
    let alloc = rt.alloc();
    let rows = &LINES;
    for (lines, refused) in rows {
        let expect = format!(in alloc; "bt-expect 1\n{lines}\n")?;
        let text = told(alloc, TREE, WORLD, expect.as_str(), &[])?;
        let want = format!(in alloc; "refused expect {refused}\nExpect")?;
        assert_eq!(rt; text.as_str(), want.as_str(), "{lines}");
    }
    Ok(())
}

/// Trees, worlds and files of expectations of which these reads fail, and what is answered: the files are read first, and then
/// judged in their order.
static FILES: [(&str, &str, &str, &[u64], &str); 9] = [
    (TREE, WORLD, "", &[], "refused expect Header 1\nExpect"),
    (
        TREE,
        WORLD,
        " bt-expect 1",
        &[],
        "refused expect Header 1\nExpect",
    ),
    (
        TREE,
        WORLD,
        "bt-expect 1",
        &[],
        "expected 0 passed, 0 failed\nDone",
    ),
    (TREE, WORLD, "", &[1], "refused read tree\nRead"),
    (TREE, WORLD, "", &[2], "refused read world\nRead"),
    ("", "", "", &[3], "refused read expect\nRead"),
    ("", "", "", &[], "refused tree Unmatched 0\nTree"),
    (TREE, "", "", &[], "refused world Header 1\nWorld"),
    (
        TREE,
        "bt-world 1\n",
        "",
        &[],
        "refused world NoRow 'A'\nWorld",
    ),
];

/// Which fault of which file is told.
#[test]
fn files_are_judged_in_order(rt: HostRuntime) -> Result<(), Fail> {
    let rows = &FILES;
    for (tree, world, expect, fails, want) in rows {
        let text = told(rt.alloc(), tree, world, expect, fails)?;
        assert_eq!(rt; text.as_str(), *want);
    }
    Ok(())
}

/// A file of so many expectations that are met.
fn many(alloc: Global, count: u32) -> Result<String, NoMemory> {
    let mut text = String::new(alloc);
    text.push_str("bt-expect 1\n")?;
    for _ in 0..count {
        text.push_str("always 1\n")?;
    }
    Ok(text)
}

/// A thousand expectations are read, and no more.
#[test]
fn a_thousand_are_enough(rt: HostRuntime) -> Result<(), Fail> {
    let alloc = rt.alloc();
    let text = told(alloc, TREE, WORLD, many(alloc, 1001)?.as_str(), &[])?;
    assert_eq!(rt; text.as_str(), "refused expect TooMany 1002\nExpect");
    let text = told(alloc, TREE, WORLD, many(alloc, 1000)?.as_str(), &[])?;
    assert!(rt; text.ends_with("pass 1001\nexpected 1000 passed, 0 failed\nDone"));
    Ok(())
}
