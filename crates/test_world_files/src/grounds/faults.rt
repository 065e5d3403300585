//! The faults of ground files, each at its line.

use crate::grounds::stage::text_of;
use std::test::Fail;

/// Ground files, and their faults.
static FAULTS: [(&str, &str); 49] = [
    ("", "Header 1"),
    ("bt-world 1", "Header 1"),
    (" bt-ground 1", "Header 1"),
    ("bt-ground 1 \nsort", "Header 1"),
    ("\nbt-ground 1", "Header 1"),
    // A line for a sort has a name and 1 to 16 values, and stands outside all blocks.
    ("bt-ground 1\nsort", "BadLine 2"),
    ("bt-ground 1\nsort s", "BadLine 2"),
    ("bt-ground 1\nsort 1s a", "BadLine 2"),
    ("bt-ground 1\nsort s a-b", "BadLine 2"),
    (
        "bt-ground 1\nsort s a\nforall X s\nsort t b\nend",
        "BadLine 4",
    ),
    (
        "bt-ground 1\nsort s v1 v2 v3 v4 v5 v6 v7 v8 v9 v10 v11 v12 v13 v14 v15 v16 v17",
        "BadLine 2",
    ),
    (
        "bt-ground 1\nsort s a2345678901234567890123456789012345678901234567890123456789012345",
        "BadLine 2",
    ),
    // A block has an upper-case letter and the name of a sort.
    ("bt-ground 1\nsort s a\nforall", "BadLine 3"),
    ("bt-ground 1\nsort s a\nforall X", "BadLine 3"),
    ("bt-ground 1\nsort s a\nforall X s s", "BadLine 3"),
    ("bt-ground 1\nsort s a\nforall x s", "BadLine 3"),
    ("bt-ground 1\nsort s a\nforall XY s", "BadLine 3"),
    ("bt-ground 1\nsort s a\nforall X 1s", "BadLine 3"),
    ("bt-ground 1\nsort s a\nforall $X s", "BadLine 3"),
    // An end has a block to end, and no further word.
    ("bt-ground 1\nend", "BadLine 2"),
    ("bt-ground 1\nsort s a\nforall X s\nend\nend", "BadLine 5"),
    ("bt-ground 1\nsort s a\nforall X s\nend X", "BadLine 4"),
    // A mark stands before an upper-case letter, in a block or outside all.
    ("bt-ground 1\nfact $", "BadLine 2"),
    ("bt-ground 1\nfact a#", "BadLine 2"),
    ("bt-ground 1\nsort s a\nforall X s\n$x\nend", "BadLine 4"),
    ("bt-ground 1\nsort s a\nforall X s\n$$X\nend", "BadLine 4"),
    ("bt-ground 1\nsort s a\nforall X s\n$#X\nend", "BadLine 4"),
    ("bt-ground 1\nsort s a\nforall X s\n$ X\nend", "BadLine 4"),
    ("bt-ground 1\nsort s a\nforall X s\n$X$\r\nend", "BadLine 4"),
    // A byte that no line may have.
    ("bt-ground 1\nfact \u{7f} 0", "BadLine 2"),
    ("bt-ground 1\nfact a 0\r\r", "BadLine 2"),
    ("bt-ground 1\nfact \u{e9} 0", "BadLine 2"),
    // A name stands once.
    ("bt-ground 1\nsort s a\nsort s b", "DoubleName 3"),
    ("bt-ground 1\nsort s a b a", "DoubleName 2"),
    (
        "bt-ground 1\nsort s a\nforall X s\nforall X s\nend\nend",
        "DoubleName 4",
    ),
    // A name is known from an earlier line.
    ("bt-ground 1\nforall X s\nend\nsort s a", "NoName 2"),
    ("bt-ground 1\nfact $X", "NoName 2"),
    ("bt-ground 1\nsort s a\nforall X s\nend\n$X", "NoName 5"),
    ("bt-ground 1\nsort s a\nforall X s\na#Y\nend", "NoName 4"),
    // Three blocks may be open.
    (
        "bt-ground 1\nsort s a\nforall X s\nforall Y s\nforall Z s\nforall W s\nend\nend\nend\nend",
        "TooNested 6",
    ),
    // The innermost block is named where the file ends in one.
    ("bt-ground 1\nsort s a\nforall X s", "Unended 3"),
    (
        "bt-ground 1\nsort s a\nforall X s\nforall Y s\n$X\n",
        "Unended 4",
    ),
    (
        "bt-ground 1\nsort s a\nforall X s\nforall Y s\n$X\nend\n",
        "Unended 3",
    ),
    // The earlier line counts.
    ("bt-ground 1\nfact $X\nfact $", "NoName 2"),
    ("bt-ground 1\nend\nsort s a a", "BadLine 2"),
    // Of one line the first fault in their order counts.
    ("bt-ground 1\nfact $X $", "BadLine 2"),
    ("bt-ground 1\nsort s a a 1", "BadLine 2"),
    (
        "bt-ground 1\nsort s a\nforall X s\nforall X t\nend\nend",
        "DoubleName 4",
    ),
    (
        "bt-ground 1\nsort s a\nforall X s\nforall Y s\nforall Z s\nforall W t\nend\nend\nend\nend",
        "NoName 6",
    ),
];

#[test]
fn faults(rt: HostRuntime) -> Result<(), Fail> {
    let alloc = rt.alloc();
    for (file, wanted) in &FAULTS {
        assert!(rt; file.len() <= 1_048_576);
        assert_eq!(rt;
            text_of(alloc, file.as_bytes())?.as_str(),
            *wanted,
            "{file}"
        );
    }
    Ok(())
}
