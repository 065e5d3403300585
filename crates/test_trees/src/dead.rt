//! What `dead` prints: a line for each dead node, and how many they are.

use base_outside::{MemClock, MemSink};
use base_texts::NoMemory;
use std::alloc::Global;
use std::test::Fail;
use test_bed::{answer, answered, given, shelf_of_rows};

/// The words of the command over the file `T`.
const DEAD: [&str; 2] = ["dead", "T"];

/// Nodes, and what is printed of them.
static NODES: [(&str, &str); 8] = [
    (
        "<Fallback><AlwaysSuccess/><A/></Fallback>",
        "dead 3 'A'\ndead 1 of 3\nDone",
    ),
    (
        "<Sequence><KeepRunningUntilFailure><Script code=\"x := 1\"/></KeepRunningUntilFailure><Inverter><B/></Inverter></Sequence>",
        "dead 4 'Inverter'\ndead 5 'B'\ndead 2 of 5\nDone",
    ),
    ("<A/>", "dead 0 of 1\nDone"),
    (
        "<Sequence _skipIf=\"1\"><A/><B name=\"c\"/></Sequence>",
        "dead 2 'A'\ndead 3 'B'\ndead 2 of 3\nDone",
    ),
    (
        "<Sequence _skipIf=\"(1)\"><A/><B/></Sequence>",
        "dead 0 of 3\nDone",
    ),
    (
        "<Fallback><RetryUntilSuccessful num_attempts=\"-1\"><KeepRunningUntilFailure><A/></KeepRunningUntilFailure></RetryUntilSuccessful><B/></Fallback>",
        "dead 5 'B'\ndead 1 of 5\nDone",
    ),
    (
        "<Sequence><AlwaysFailure/><Action ID=\"it's\"/><Action ID=\"a\\b&#10;&#9;\"/></Sequence>",
        "dead 3 'it\\'s'\ndead 4 'a\\\\b\\n\\x09'\ndead 2 of 4\nDone",
    ),
    ("<Sequence/>", "refused tree ChildCount 1\nTree"),
];

/// A file of two trees, whose second one is dead where it is opened the second time.
const OPENED_TWICE: &str = "\
<root BTCPP_format=\"4\" main_tree_to_execute=\"M\">
  <BehaviorTree ID=\"M\">
    <Fallback>
      <SubTree ID=\"S\"/>
      <AlwaysSuccess/>
      <SubTree ID=\"S\"/>
    </Fallback>
  </BehaviorTree>
  <BehaviorTree ID=\"S\">
    <Inverter>
      <A/>
    </Inverter>
  </BehaviorTree>
</root>
";

const OPENED_TWICE_DEAD: &str = "\
dead 6 'S'
dead 7 'Inverter'
dead 8 'A'
dead 3 of 8
Done";

/// The crossing of a door, which names no main tree.
const DOOR: &str =
    "<root BTCPP_format=\"4\"><BehaviorTree ID=\"MainTree\"><Sequence><Fallback><Inverter><IsDoorClosed/></Inverter><SubTree ID=\"DoorClosed\"/></Fallback><PassThroughDoor/></Sequence></BehaviorTree><BehaviorTree ID=\"DoorClosed\"><Fallback><OpenDoor/><RetryUntilSuccessful num_attempts=\"5\"><PickLock/></RetryUntilSuccessful><SmashDoor/></Fallback></BehaviorTree></root>";

/// Words, a tree file, the reads of it that fail, and what is answered.
static FILES: [(&[&str], &str, &[u64], &str); 7] = [
    (&["dead", "T"], OPENED_TWICE, &[], OPENED_TWICE_DEAD),
    (
        &["dead", "T", "--main", "S"],
        OPENED_TWICE,
        &[],
        "dead 0 of 2\nDone",
    ),
    (
        &["dead", "T", "--main", "MainTree"],
        DOOR,
        &[],
        "dead 0 of 11\nDone",
    ),
    (&["dead", "T"], DOOR, &[], "refused tree NoMain\nTree"),
    (
        &["dead", "none"],
        DOOR,
        &[],
        "refused tree Unmatched 0\nTree",
    ),
    (&["dead", "T"], DOOR, &[1], "refused read tree\nRead"),
    (&["dead", "T"], OPENED_TWICE, &[2], OPENED_TWICE_DEAD),
];

/// The dead nodes of trees of these nodes.
#[test]
fn dead_nodes_have_their_lines(rt: HostRuntime) -> Result<(), Fail> {
    let rows = &NODES;
    for (nodes, want) in rows {
        let text = answered(rt.alloc(), &DEAD, nodes, "", &[])?;
        assert_eq!(rt; text.as_str(), *want, "{nodes}");
    }
    Ok(())
}

/// The dead nodes of whole files, over words and with reads that fail.
#[test]
fn dead_nodes_of_files(rt: HostRuntime) -> Result<(), Fail> {
    let rows = &FILES;
    for (words, tree, fails, want) in rows {
        let text = given(rt.alloc(), words, tree.as_bytes(), b"", fails)?;
        assert_eq!(rt; text.as_str(), *want);
    }
    Ok(())
}

/// What is printed of dead nodes where the write of this number fails after `taken` bytes, with the
/// exit after it and what the drivers count.
fn cut(alloc: Global, nodes: &str, write: u64, taken: u64) -> Result<String, NoMemory> {
    let mut shelf = shelf_of_rows(alloc, nodes, "")?;
    let mut sink = MemSink::new(alloc, vec![in alloc; (write, taken)]?);
    let mut clock = MemClock::new(Vec::new(alloc));
    let ending = answer(alloc, &DEAD, &mut shelf, &mut sink, &mut clock)?;
    let text = str::from_utf8(sink.list()).unwrap_or("?");
    Ok(format!(in alloc; "{text}{:?}{}", ending.exit, ending.counts)?)
}

/// Writes of lines of dead nodes that fail.
#[test]
fn a_write_of_a_dead_node_may_fail(rt: HostRuntime) -> Result<(), Fail> {
    for (write, taken, want) in [
        (1, 0, "Write"),
        (1, 4, "deadWrite"),
        (2, 5, "dead 2 'A'\ndead Write"),
        (3, 0, "dead 2 'A'\ndead 3 'B'\nWrite"),
        (3, 7, "dead 2 'A'\ndead 3 'B'\ndead 2 Write"),
        (4, 0, "dead 2 'A'\ndead 3 'B'\ndead 2 of 3\nDone"),
    ] {
        let nodes = "<Sequence _skipIf=\"1\"><A/><B/></Sequence>";
        let text = cut(rt.alloc(), nodes, write, taken)?;
        assert_eq!(rt; text.as_str(), want);
    }
    Ok(())
}
