//! Patterns, and texts that they match or do not.

use std::test::Fail;
use tree_mock::is_match;

/// A pattern, a text, and whether the pattern matches it.
static PATTERNS: [(&str, &str, bool); 26] = [
    ("", "", true),
    ("", "a", false),
    ("a", "", false),
    ("a", "a", true),
    ("a", "A", false),
    ("a", "ab", false),
    ("*", "", true),
    ("*", "main/arm/grip", true),
    ("**", "", true),
    ("**", "grip", true),
    ("ta*", "talk", true),
    ("ta*", "ta", true),
    ("ta*", "t", false),
    ("ta*", "stay", false),
    ("*lk", "talk", true),
    ("*lk", "talks", false),
    ("arm/*", "arm/hand/grip", true),
    ("arm/*", "grip", false),
    ("*grip", "arm/hand/grip", true),
    ("a*b*c", "a/b/b/c", true),
    ("a*b*c", "acb", false),
    ("a*aab", "aaaaaab", true),
    ("*ab*ab", "abxab", true),
    ("*ab*ab", "xaab", false),
    ("?", "a", false),
    ("*é", "café", true),
];

#[test]
fn patterns(rt: HostRuntime) -> Result<(), Fail> {
    for (pattern, text, wanted) in &PATTERNS {
        assert!(rt;
            is_match(pattern.as_bytes(), text.as_bytes()) == *wanted,
            "{pattern} {text}"
        );
    }
    Ok(())
}

/// Long texts, in which each star is tried at many places.
#[test]
fn long_texts(rt: HostRuntime) -> Result<(), Fail> {
    let alloc = rt.alloc();
    let text = format!(in alloc; "{}b", "a".repeat(alloc, 2000)?)?;
    let rows = [
        ("a*b*c", false),
        ("a*a*b", true),
        ("*aaaaaaaaaa*b", true),
        ("*aaaaaaaaaac", false),
    ];
    for (pattern, wanted) in &rows {
        assert!(rt;
            is_match(pattern.as_bytes(), text.as_bytes()) == *wanted,
            "{pattern}"
        );
    }
    Ok(())
}
