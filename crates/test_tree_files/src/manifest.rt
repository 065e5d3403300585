//! Which models the files of trees have, and the first fault of each.

use base_texts::{Name, NoMemory, Stop};
use spec_tree_file::{Elements, ManifestFault};
use std::alloc::{AllocError, Global};
use std::test::Fail;
use tree_elements::read_elements;
use tree_manifest::{KnownModel, manifest_of, model};

/// A name of this text.
fn name(alloc: Global, text: &str) -> Result<Name, NoMemory> {
    Name::copied(alloc, text.as_bytes())
}

/// The text of a name.
fn text(name: &Name) -> &str {
    str::from_utf8(name.list()).unwrap_or("?")
}

/// Adds the ports of a model with their defaults.
fn put_ports(alloc: Global, model: &KnownModel, out: &mut String) -> Result<(), AllocError> {
    for port in model.ports() {
        out.push_str(" ")?;
        out.push_str(text(&port.name))?;
        if let Some(fallback) = &port.fallback {
            out.push_str(format!(in alloc; "='{}'", text(fallback))?.as_str())?;
        }
    }
    Ok(())
}

/// The model of an ID as text, or `none`.
fn model_text(alloc: Global, id: &Name, model: Option<&KnownModel>) -> Result<String, AllocError> {
    let Some(model) = model else {
        return String::from_str(alloc, "none");
    };
    let mut all = String::from_str(alloc, text(id))?;
    put_ports(alloc, model, &mut all)?;
    Ok(all)
}

/// The model of this ID in the file of these elements, or the file's fault.
fn elements_text(alloc: Global, elements: &Elements, id: &Name) -> Result<String, AllocError> {
    match manifest_of(alloc, elements) {
        Ok(models) => model_text(alloc, id, model(&models, id)),
        Err(Stop::Fault(ManifestFault::DoubleModel { place })) => format!(in alloc;
            "DoubleModel {place}"
        ),
        Err(Stop::Fault(ManifestFault::BadModel { place })) => format!(in alloc;
            "BadModel {place}"
        ),
        Err(Stop::NoMemory) => String::from_str(alloc, "no memory"),
    }
}

/// The model of the ID `A` in a file, or the file's fault.
fn file_text(alloc: Global, file: &[u8]) -> Result<String, AllocError> {
    if file.len() > 1_048_576 {
        return String::from_str(alloc, "too long");
    }
    let Ok(id) = name(alloc, "A") else {
        return String::from_str(alloc, "no memory");
    };
    match read_elements(alloc, file) {
        Ok(elements) => elements_text(alloc, &elements, &id),
        Err(_) => String::from_str(alloc, "no elements"),
    }
}

/// Files, and the model of `A` in each.
static FILES: [(&str, &str); 13] = [
    ("<root/>", "none"),
    (
        "<x><TreeNodesModel/><TreeNodesModel/></x>",
        "DoubleModel 20",
    ),
    (
        "<x><TreeNodesModel><Action/></TreeNodesModel></x>",
        "BadModel 19",
    ),
    (
        "<x><TreeNodesModel><Control/><Action ID=\"A\"/></TreeNodesModel></x>",
        "A",
    ),
    (
        "<x><TreeNodesModel><Action ID=\"A\"><input_port name=\"p\"/><output_port name=\"q\" default=\"3\"/><inout_port name=\"r\" default=\"\"/><other/></Action></TreeNodesModel></x>",
        "A p q='3' r=''",
    ),
    (
        "<x><TreeNodesModel><Action ID=\"A\"><input_port name=\"name\"/><input_port name=\"_p\"/><input_port name=\"1\"/><input_port name=\"ID\"/><input_port name=\"a.b\"/></Action></TreeNodesModel></x>",
        "A a.b",
    ),
    (
        "<x><TreeNodesModel><Action ID=\"A\"><input_port/></Action></TreeNodesModel></x>",
        "BadModel 34",
    ),
    (
        "<x><TreeNodesModel><Action ID=\"A\"><input_port name=\"p\"/><output_port name=\"p\"/></Action></TreeNodesModel></x>",
        "BadModel 56",
    ),
    (
        "<x><TreeNodesModel><Action ID=\"A\"><input_port name=\"\"/><output_port name=\"\"/></Action></TreeNodesModel></x>",
        "BadModel 55",
    ),
    (
        "<x><TreeNodesModel><Action ID=\"A\"/><Condition ID=\"A\"><input_port/></Condition></TreeNodesModel></x>",
        "DoubleModel 35",
    ),
    (
        "<x><TreeNodesModel><Action ID=\"A\"><input_port/></Action><Condition ID=\"A\"/></TreeNodesModel></x>",
        "BadModel 34",
    ),
    (
        "<x><TreeNodesModel><Action ID=\"Script\"><input_port/></Action><Action ID=\"Script\"/></TreeNodesModel></x>",
        "none",
    ),
    (
        "<x><y><TreeNodesModel><Action/></TreeNodesModel></y><TreeNodesModel><Action ID=\"B\"/></TreeNodesModel></x>",
        "none",
    ),
];

/// Each of `FILES` has the model or the fault that is wanted.
#[test]
fn files(rt: HostRuntime) -> Result<(), Fail> {
    let alloc = rt.alloc();
    for (file, wanted) in &FILES {
        assert_eq!(rt;
            file_text(alloc, file.as_bytes())?.as_str(),
            *wanted,
            "{file}"
        );
    }
    Ok(())
}
