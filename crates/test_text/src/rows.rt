//! Rows of texts: what a call gets, and what it has to give.

ghost use Rattle.std.specs.Prelude.{◌≡◌, Ok};
ghost use Rattle.tree_elements.specs.Valid.{IsValid};
ghost use Rattle.spec_tree_file.specs.Models.{manifest_in};

use base_texts::NoMemory;
use spec_tree::Tree;
use spec_tree_file::Elements;
use std::alloc::Global;
use std::process::Abort;
use tree_build::build;
use tree_elements::read_elements;
use tree_manifest::{Manifest, manifest_of};

/// Compares rows: what a call tells of the first text of each is the second one.
pub fn compare<F: Fn(Global, &str) -> Result<String, NoMemory>>(
    rt: &impl Abort,
    alloc: Global,
    told: F,
    rows: &[(&str, &str)],
) -> Result<(), NoMemory>
    requires { F.IsAlwaysCallable told }
{
    for (text, want) in rows {
        assert_eq!(rt; told(alloc, text)?.as_str(), *want, "{text}");
    }
    Ok(())
}

/// What a call tells of the tree of these elements and models.
fn built_told<F: FnOnce(Global, &Tree) -> Result<String, NoMemory>>(
    alloc: Global,
    elements: &Elements,
    models: &Manifest,
    told: F,
) -> Result<String, NoMemory>
    requires valid { IsValid elements.now.root }
    requires models { manifest_in elements.now.root ≡ Ok models.now }
    requires told { F.IsAlwaysCallable told }
{
    match build(alloc, elements, models, None) {
        Ok(tree) => told(alloc, &tree),
        Err(_) => Err(NoMemory),
    }
}

/// What a call tells of the tree of these elements.
fn elements_told<F: FnOnce(Global, &Tree) -> Result<String, NoMemory>>(
    alloc: Global,
    elements: &Elements,
    told: F,
) -> Result<String, NoMemory>
    requires valid { IsValid elements.now.root }
    requires told { F.IsAlwaysCallable told }
{
    match manifest_of(alloc, elements) {
        Ok(models) => built_told(alloc, elements, &models, told),
        Err(_) => Err(NoMemory),
    }
}

/// What a call tells of the tree of a file.
pub fn file_told<F: FnOnce(Global, &Tree) -> Result<String, NoMemory>>(
    alloc: Global,
    file: &str,
    told: F,
) -> Result<String, NoMemory>
    requires { F.IsAlwaysCallable told }
{
    if file.len() > 1_048_576 {
        return Err(NoMemory);
    }
    match read_elements(alloc, file.as_bytes()) {
        Ok(elements) => elements_told(alloc, &elements, told),
        Err(_) => Err(NoMemory),
    }
}

/// What a call tells of the tree of these nodes. Other trees may stand after them.
pub fn nodes_told<F: FnOnce(Global, &Tree) -> Result<String, NoMemory>>(
    alloc: Global,
    nodes: &str,
    told: F,
) -> Result<String, NoMemory>
    requires { F.IsAlwaysCallable told }
{
    let file = format!(in alloc;
        "<root BTCPP_format=\"4\" main_tree_to_execute=\"M\"><BehaviorTree ID=\"M\">{nodes}</BehaviorTree></root>"
    )?;
    file_told(alloc, file.as_str(), told)
}
