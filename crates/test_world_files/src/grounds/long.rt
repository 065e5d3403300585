//! Files with many sorts, and files whose texts are long.

use crate::grounds::stage::text_of;
use base_texts::NoMemory;
use std::alloc::Global;
use std::process::Abort;
use std::test::Fail;

/// The text of a file that was made in a test, or its fault.
fn told(rt: &impl Abort, alloc: Global, file: &String) -> Result<String, NoMemory> {
    assert!(rt; file.len() <= 1_048_576);
    text_of(alloc, file.as_bytes())
}

/// A file of so many sorts.
fn sorts(alloc: Global, count: u32) -> Result<String, NoMemory> {
    let mut file = String::from_str(alloc, "bt-ground 1")?;
    for number in 0..count {
        let line = format!(in alloc; "\nsort s{number} a")?;
        file.push_str(line.as_str())?;
    }
    Ok(file)
}

#[test]
fn many_sorts(rt: HostRuntime) -> Result<(), Fail> {
    let alloc = rt.alloc();
    let rows = [
        (16_u32, "bt-world 1\n"),
        (17, "TooMany 18"),
        (18, "TooMany 18"),
    ];
    for (count, wanted) in &rows {
        let file = sorts(alloc, *count)?;
        assert_eq!(rt; told(&rt, alloc, &file)?.as_str(), *wanted, "{count}");
    }
    let mut file = sorts(alloc, 16)?;
    file.push_str("\nsort s0 a")?;
    assert_eq!(rt; told(&rt, alloc, &file)?.as_str(), "DoubleName 18");
    Ok(())
}

/// Three blocks over a sort of 16 values round these lines.
fn nested(alloc: Global, lines: &str) -> Result<String, NoMemory> {
    Ok(format!(in alloc;
        "bt-ground 1\nsort s v1 v2 v3 v4 v5 v6 v7 v8 v9 v10 v11 v12 v13 v14 v15 v16\nforall X s\nforall Y s\nforall Z s\n{lines}\nend\nend\nend"
    )?)
}

/// The size of a text that is too long is exact, also where it is far too long.
#[test]
fn too_long(rt: HostRuntime) -> Result<(), Fail> {
    let alloc = rt.alloc();
    let line = "a".repeat(alloc, 299)?;
    let file = nested(alloc, line.as_str())?;
    assert_eq!(rt; told(&rt, alloc, &file)?.as_str(), "TooManyGround 1228811");
    let line = "a".repeat(alloc, 1_000_000)?;
    let file = nested(alloc, line.as_str())?;
    assert_eq!(rt;
        told(&rt, alloc, &file)?.as_str(),
        "TooManyGround 4096004107"
    );
    let line = "$X#Y#Z".repeat(alloc, 100)?;
    let file = nested(alloc, line.as_str())?;
    assert_eq!(rt; told(&rt, alloc, &file)?.as_str(), "TooManyGround 2180107");
    Ok(())
}

/// A text may have 1,048,576 bytes, and not one more.
#[test]
fn longest(rt: HostRuntime) -> Result<(), Fail> {
    let alloc = rt.alloc();
    let inner = "a".repeat(alloc, 254)?;
    let blocks = nested(alloc, inner.as_str())?;
    let outer = "b".repeat(alloc, 4084)?;
    let file = format!(in alloc; "{blocks}\n{outer}")?;
    assert_eq!(rt; told(&rt, alloc, &file)?.len(), 1_048_576);
    let file = format!(in alloc; "{blocks}\n{outer}b")?;
    assert_eq!(rt; told(&rt, alloc, &file)?.as_str(), "TooManyGround 1048577");
    let line = "a".repeat(alloc, 1_048_564)?;
    let file = format!(in alloc; "bt-ground 1\n{line}")?;
    assert_eq!(rt; told(&rt, alloc, &file)?.len(), 1_048_576);
    Ok(())
}
