//! What `exclusive` prints: a line for each pair of leaves that may be held together, and how many they are.

use base_outside::{MemClock, MemSink};
use base_texts::NoMemory;
use std::alloc::Global;
use std::test::Fail;
use test_bed::{answer, answered, shelf_of_rows};

/// The words of the command over the file `T`, for these three IDs.
const EXCLUSIVE: [&str; 5] = ["exclusive", "T", "A", "B", "C"];

/// Nodes with leaves `A`, `B` and `C`, and what is printed of them.
static NODES: [(&str, &str); 18] = [
    ("<Sequence><A/><B/><C/></Sequence>", "exclusive\nDone"),
    (
        "<SequenceWithMemory><A/><B/><C/></SequenceWithMemory>",
        "exclusive\nDone",
    ),
    ("<Fallback><A/><B/><C/></Fallback>", "exclusive\nDone"),
    (
        "<Parallel><A/><B/><C/></Parallel>",
        "together 2 3\ntogether 2 4\ntogether 3 4\npairs 3\nNotExclusive",
    ),
    (
        "<PipelineSequence><A/><B/><C/></PipelineSequence>",
        "together 2 3\ntogether 2 4\ntogether 3 4\npairs 3\nNotExclusive",
    ),
    (
        "<ReactiveSequence><A/><B/><C/></ReactiveSequence>",
        "handover 2 3\nhandover 2 4\nhandover 3 4\npairs 3\nNotExclusive",
    ),
    (
        "<ReactiveFallback><A/><Sequence><B/><C/></Sequence></ReactiveFallback>",
        "handover 2 4\nhandover 2 5\npairs 2\nNotExclusive",
    ),
    (
        "<WhileDoElse><A/><B/><C/></WhileDoElse>",
        "together 2 3\ntogether 2 4\npairs 2\nNotExclusive",
    ),
    ("<IfThenElse><A/><B/><C/></IfThenElse>", "exclusive\nDone"),
    (
        "<Switch2 variable=\"{v}\" case_1=\"1\" case_2=\"2\"><A/><B/><C/></Switch2>",
        "exclusive\nDone",
    ),
    (
        "<RecoveryNode><A/><Sequence><B/><C/></Sequence></RecoveryNode>",
        "exclusive\nDone",
    ),
    ("<RoundRobin><A/><B/><C/></RoundRobin>", "exclusive\nDone"),
    (
        "<Sequence><Parallel><A/><B/></Parallel><Parallel><C/><A/></Parallel></Sequence>",
        "together 3 4\ntogether 6 7\npairs 2\nNotExclusive",
    ),
    // Two leaves of one ID are a pair.
    (
        "<Sequence><Parallel><A/><A/></Parallel><B/><C/></Sequence>",
        "together 3 4\npairs 1\nNotExclusive",
    ),
    // A leaf that no run visits is held by none.
    (
        "<Parallel><Fallback><AlwaysSuccess/><A/></Fallback><B/><Delay delay_msec=\"5\"><C/></Delay></Parallel>",
        "together 5 7\npairs 1\nNotExclusive",
    ),
    (
        "<Parallel><A/><D/><B/></Parallel>",
        "refused tree NoLeaf 'C'\nTree",
    ),
    ("<D/>", "refused tree NoLeaf 'A'\nTree"),
    ("<Sequence/>", "refused tree ChildCount 1\nTree"),
];

/// Words over the file `T`, nodes, and what is printed.
static WORDS: [(&[&str], &str, &str); 8] = [
    (
        &["exclusive", "T", "A"],
        "<Parallel><A/><B/></Parallel>",
        "exclusive\nDone",
    ),
    (
        &["exclusive", "T", "B", "A", "--main", "M"],
        "<Parallel><A/><B/></Parallel>",
        "together 2 3\npairs 1\nNotExclusive",
    ),
    (&["exclusive", "T"], "<A/>", "refused words\nWords"),
    (
        &["exclusive", "T", "--main", "M"],
        "<A/>",
        "refused words\nWords",
    ),
    (
        &["exclusive", "T", "A", "--main"],
        "<A/>",
        "refused words\nWords",
    ),
    (
        &["exclusive", "T", "A", "--main", "M", "B"],
        "<A/>",
        "refused words\nWords",
    ),
    (&["exclusive"], "<A/>", "refused words\nWords"),
    (
        &["exclusive", "T", "it's"],
        "<A/>",
        "refused tree NoLeaf 'it\\'s'\nTree",
    ),
];

/// Which leaves of these nodes may be held together.
#[test]
fn pairs_have_their_lines(rt: HostRuntime) -> Result<(), Fail> {
    let rows = &NODES;
    for (nodes, want) in rows {
        let text = answered(rt.alloc(), &EXCLUSIVE, nodes, "", &[])?;
        assert_eq!(rt; text.as_str(), *want, "{nodes}");
    }
    Ok(())
}

/// The words of the command.
#[test]
fn words_of_exclusive(rt: HostRuntime) -> Result<(), Fail> {
    let rows = &WORDS;
    for (words, nodes, want) in rows {
        let text = answered(rt.alloc(), words, nodes, "", &[])?;
        assert_eq!(rt; text.as_str(), *want);
    }
    Ok(())
}

/// What is printed of pairs where the write of this number fails after `taken` bytes, with the exit after
/// it and what the drivers count.
fn cut(alloc: Global, nodes: &str, write: u64, taken: u64) -> Result<String, NoMemory> {
    let mut shelf = shelf_of_rows(alloc, nodes, "")?;
    let mut sink = MemSink::new(alloc, vec![in alloc; (write, taken)]?);
    let mut clock = MemClock::new(Vec::new(alloc));
    let ending = answer(alloc, &EXCLUSIVE, &mut shelf, &mut sink, &mut clock)?;
    let text = str::from_utf8(sink.list()).unwrap_or("?");
    Ok(format!(in alloc; "{text}{:?}{}", ending.exit, ending.counts)?)
}

/// Writes of lines of pairs that fail.
#[test]
fn a_write_of_a_pair_may_fail(rt: HostRuntime) -> Result<(), Fail> {
    for (write, taken, want) in [
        (1, 0, "Write"),
        (1, 4, "togeWrite"),
        (2, 5, "together 2 3\ntogetWrite"),
        (4, 3, "together 2 3\ntogether 2 4\ntogether 3 4\npaiWrite"),
        (
            5,
            0,
            "together 2 3\ntogether 2 4\ntogether 3 4\npairs 3\nNotExclusive",
        ),
    ] {
        let text = cut(
            rt.alloc(),
            "<Parallel><A/><B/><C/></Parallel>",
            write,
            taken,
        )?;
        assert_eq!(rt; text.as_str(), want);
    }
    Ok(())
}
