use base_outside::MemShelf;
use base_texts::{Name, NoMemory};
use cli_words::word_of;
use std::alloc::{AllocError, Global};

/// One text of these parts.
pub fn joined(alloc: Global, parts: &[&str]) -> Result<String, AllocError> {
    let mut text = String::new(alloc);
    for part in parts {
        text.push_str(part)?;
    }
    Ok(text)
}

/// A tree file whose one tree has these nodes.
pub fn tree_of(alloc: Global, nodes: &str) -> Result<String, AllocError> {
    format!(in alloc;
        "<root BTCPP_format=\"4\"><BehaviorTree ID=\"M\">{nodes}</BehaviorTree></root>"
    )
}

/// A world script of these lines after its header; a slash between blanks stands for the end of a line.
pub fn world_of(alloc: Global, lines: &str) -> Result<String, AllocError> {
    format!(in alloc; "bt-world 1\n{}\n", lines.replace(alloc, " / ", "\n")?)
}

/// A file of a shelf.
fn file(alloc: Global, name: &str, bytes: &[u8]) -> Result<(Name, Vec<u8>), NoMemory> {
    let bytes = Vec::from_slice(alloc, bytes)?;
    Ok((word_of(alloc, name)?, bytes))
}

/// A shelf of the files `T` and `W`, of which these reads fail.
pub fn shelf_of(
    alloc: Global,
    tree: &[u8],
    world: &[u8],
    fails: &[u64],
) -> Result<MemShelf, NoMemory> {
    let fails = Vec::from_slice(alloc, fails)?;
    let mut files = Vec::new(alloc);
    files.push(file(alloc, "T", tree)?)?;
    files.push(file(alloc, "W", world)?)?;
    Ok(MemShelf::new(files, fails))
}

/// A shelf of the files `T`, `W` and `R`, of which these reads fail.
pub fn shelf_with_rules(
    alloc: Global,
    tree: &[u8],
    world: &[u8],
    rules: &[u8],
    fails: &[u64],
) -> Result<MemShelf, NoMemory> {
    let fails = Vec::from_slice(alloc, fails)?;
    let mut files = Vec::new(alloc);
    files.push(file(alloc, "T", tree)?)?;
    files.push(file(alloc, "W", world)?)?;
    files.push(file(alloc, "R", rules)?)?;
    Ok(MemShelf::new(files, fails))
}

/// A shelf of a tree of these nodes and a world of these lines.
pub fn shelf_of_rows(alloc: Global, nodes: &str, lines: &str) -> Result<MemShelf, NoMemory> {
    let tree = tree_of(alloc, nodes)?;
    let world = world_of(alloc, lines)?;
    shelf_of(alloc, tree.as_bytes(), world.as_bytes(), &[])
}
