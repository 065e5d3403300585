//! How deep and how large a tree may be.

use base_texts::NoMemory;
use std::alloc::{AllocError, Global};
use std::test::Fail;
use test_bed::given;

/// The beginning of a file of version 4.
const FOUR: &str = "<root BTCPP_format=\"4\">";

/// The beginning of a file of version 3, of the same length.
const THREE: &str = "<root BTCPP_format=\"3\">";

/// What is printed of a file with this root whose main tree has these nodes.
fn checked(alloc: Global, root: &str, nodes: &str) -> Result<String, NoMemory> {
    let file = format!(in alloc; "{root}<BehaviorTree ID=\"M\">{nodes}</BehaviorTree></root>")?;
    given(
        alloc,
        &["check", "T", "--main", "M"],
        file.as_bytes(),
        b"",
        &[],
    )
}

/// A text this many times.
fn repeated(alloc: Global, text: &str, times: u32) -> Result<String, AllocError> {
    let mut all = String::new(alloc);
    for _ in 0..times {
        all.push_str(text)?;
    }
    Ok(all)
}

/// This many Inverters inside one another, with these nodes in the last.
fn inverted(alloc: Global, times: u32, nodes: &str) -> Result<String, AllocError> {
    let before = repeated(alloc, "<Inverter>", times)?;
    let following = repeated(alloc, "</Inverter>", times)?;
    format!(in alloc; "{before}{nodes}{following}")
}

/// Trees of one file at the limit of depth.
#[test]
fn depth_is_limited(rt: HostRuntime) -> Result<(), Fail> {
    let alloc = rt.alloc();
    for (root, times, want) in [
        (FOUR, 255, "<!-- nodes 256 work 256 -->\nDone"),
        (FOUR, 256, "refused tree TooDeep 2604\nTree"),
        (THREE, 256, "refused tree TooDeep 2604\nTree"),
    ] {
        let nodes = inverted(alloc, times, "<AlwaysSuccess/>")?;
        let text = checked(alloc, root, nodes.as_str())?;
        assert!(rt; text.ends_with(want), "{times}");
    }
    Ok(())
}

/// Trees that open a tree, at the limit of depth.
#[test]
fn depth_is_limited_across_trees(rt: HostRuntime) -> Result<(), Fail> {
    let alloc = rt.alloc();
    for (root, times, want) in [
        (FOUR, 127, "<!-- nodes 256 work 256 -->\nDone"),
        (FOUR, 128, "refused tree TooDeep 257\nTree"),
        (THREE, 128, "refused tree TooDeep 257\nTree"),
    ] {
        let main = inverted(alloc, 127, "<SubTree ID=\"S\"/>")?;
        let below = inverted(alloc, times, "<A/>")?;
        let nodes = format!(in alloc; "{main}</BehaviorTree><BehaviorTree ID=\"S\">{below}")?;
        let text = checked(alloc, root, nodes.as_str())?;
        assert!(rt; text.ends_with(want), "{times}");
    }
    Ok(())
}

/// Trees at the limit of nodes.
#[test]
fn nodes_are_counted(rt: HostRuntime) -> Result<(), Fail> {
    let alloc = rt.alloc();
    for (root, leaves, want) in [
        (FOUR, 4_095, "<!-- nodes 4096 work 4096 -->\nDone"),
        (FOUR, 4_096, "refused tree TooManyNodes\nTree"),
        (THREE, 4_096, "refused tree TooManyNodes\nTree"),
    ] {
        let nodes = format!(in alloc; "<Sequence>{}</Sequence>", repeated(alloc, "<A/>", leaves)?)?;
        let text = checked(alloc, root, nodes.as_str())?;
        assert!(rt; text.ends_with(want), "{leaves}");
    }
    Ok(())
}

/// The trees `T0` up to the last, each of which opens the next one twice. The last one is a leaf.
fn doubling(alloc: Global, root: &str, last: u32) -> Result<String, AllocError> {
    let mut trees = String::new(alloc);
    for n in 0..last {
        let below = repeated(
            alloc,
            format!(in alloc; "<SubTree ID=\"T{}\"/>", n + 1)?.as_str(),
            2,
        )?;
        trees.push_str(format!(in alloc;
            "<BehaviorTree ID=\"T{n}\"><Sequence>{below}</Sequence></BehaviorTree>"
        )?.as_str())?;
    }
    format!(in alloc;
        "{root}{trees}<BehaviorTree ID=\"T{last}\"><AlwaysSuccess/></BehaviorTree></root>"
    )
}

/// Trees at the limit of scopes.
#[test]
fn scopes_are_counted(rt: HostRuntime) -> Result<(), Fail> {
    let alloc = rt.alloc();
    for (root, last, want) in [
        (FOUR, 7, "<!-- nodes 509 work 509 -->\nDone"),
        (FOUR, 8, "refused tree TooManyScopes\nTree"),
        (FOUR, 11, "refused tree TooManyScopes\nTree"),
        (THREE, 8, "refused tree TooManyScopes\nTree"),
    ] {
        let file = doubling(alloc, root, last)?;
        let words = ["check", "T", "--main", "T0"];
        let text = given(alloc, &words, file.as_bytes(), b"", &[])?;
        assert!(rt; text.ends_with(want), "{last}");
    }
    Ok(())
}

/// A leaf with this many ports, each of which names a key of its own.
fn leaf_of_keys(alloc: Global, count: u32) -> Result<String, AllocError> {
    let mut text = String::new(alloc);
    text.push_str("<A")?;
    for n in 0..count {
        text.push_str(format!(in alloc; " k{n}=\"{{=}}\"")?.as_str())?;
    }
    text.push_str("/>")?;
    Ok(text)
}

/// Trees past two limits: that of slots is told before that of work.
#[test]
fn slots_are_counted_before_work(rt: HostRuntime) -> Result<(), Fail> {
    let alloc = rt.alloc();
    for (root, slots, cycles, want) in [
        (FOUR, 4_096, "98", "<!-- nodes 3 work 99001 -->\nDone"),
        (FOUR, 4_097, "98", "refused tree TooManyKeys\nTree"),
        (FOUR, 4_096, "100", "refused tree TooMuchWork\nTree"),
        (FOUR, 4_097, "100", "refused tree TooManyKeys\nTree"),
        (THREE, 4_096, "100", "refused tree TooMuchWork\nTree"),
        (THREE, 4_097, "100", "refused tree TooManyKeys\nTree"),
    ] {
        let leaf = leaf_of_keys(alloc, slots)?;
        let nodes = format!(in alloc;
            "<Repeat num_cycles=\"1000\"><Repeat num_cycles=\"{cycles}\">{leaf}</Repeat></Repeat>"
        )?;
        let text = checked(alloc, root, nodes.as_str())?;
        assert!(rt; text.ends_with(want), "{slots} {cycles}");
    }
    Ok(())
}
