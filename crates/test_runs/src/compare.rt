//! Rows of runs.

use base_texts::NoMemory;
use std::alloc::Global;
use std::process::Abort;
use test_bed::ran;

/// Compares rows: the nodes of a tree, the lines of a world, and what their run writes, with its
/// exit after it.
pub fn compare_rows(
    rt: &impl Abort,
    alloc: Global,
    rows: &[(&str, &str, &str)],
) -> Result<(), NoMemory> {
    for (nodes, lines, want) in rows {
        assert_eq!(rt; ran(alloc, nodes, lines)?.as_str(), *want, "{nodes}");
    }
    Ok(())
}
