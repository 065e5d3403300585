ghost use Rattle.std.specs.Prelude.{◌≡◌, option_copied, IfOk};
ghost use Rattle.base_texts.specs.Stops.{Gives};
ghost use Rattle.spec_tree_file.specs.Models.{no_ports, with_child, with_children, with_port, with_written};

use crate::attributes::attribute;
use crate::names::{can_be_written, is_port};
use base_texts::{Name, NoMemory, Stop};
use spec_tree_file::{Element, ManifestFault, ModelPort};
use std::alloc::Global;
use std::collections::BTreeSet;
use std::marker::Model;

/// The ports of a model so far, and the names of all, also of those that can't be written.
#[derive(Drop)]
pub struct Ports {
    ports: Vec<ModelPort>,
    names: Vec<Name>,
    /// The names in the order of their bytes, so that no names are slow, whatever their hashes would be.
    kept: BTreeSet<Name>,
}

impl Model for Ports {
    ghost use Rattle.spec_tree_file.specs.Models.{Ports as Seen};
    ghost use Rattle.tree_manifest.specs.Known.{AreKept};

    ghost Value = { Seen };

    ghost view = { λ p. record { ports = p.ports.items; names = p.names.items } };

    ghost invariant = { λ p. AreKept p.kept.keys p.names.items };
}

impl Ports {
    /// No ports.
    fn new(alloc: Global) -> Ports
        ensures { result ≡ no_ports }
    {
        Ports {
            ports: Vec::new(alloc),
            names: Vec::new(alloc),
            kept: BTreeSet::new(alloc),
        }
    }

    /// The ports themselves. It allocates nothing.
    pub fn into_ports(self) -> Vec<ModelPort>
        ensures { result.items ≡ self.ports }
    {
        let Ports { ports, .. } = self;
        ports
    }

    /// The ports with one of this name. `NoMemory` (want of memory, that is, out of memory),
    /// here and below, where an allocation fails.
    fn with(self, alloc: Global, name: &Name, fallback: Option<&Name>) -> Result<Ports, NoMemory>
        ensures { IfOk result (λ p. p ≡ with_port self name.now (option_copied fallback.entry)) }
    {
        let Ports {
            ports,
            mut names,
            mut kept,
        } = self;
        kept.insert(name.copy(alloc)?)?;
        names.push(name.copy(alloc)?)?;
        let ports = with_written(alloc, ports, name, fallback)?;
        Ok(Ports { ports, names, kept })
    }
}

/// An equal text, where there is one.
fn copied(alloc: Global, text: Option<&Name>) -> Result<Option<Name>, NoMemory>
    ensures { IfOk result (λ copy. copy ≡ option_copied text.entry) }
{
    match text {
        Some(text) => Ok(Some(text.copy(alloc)?)),
        None => Ok(None),
    }
}

/// The ports of nodes with one of this name, if it can be written as an attribute.
fn with_written(
    alloc: Global,
    mut ports: Vec<ModelPort>,
    name: &Name,
    fallback: Option<&Name>,
) -> Result<Vec<ModelPort>, NoMemory>
    ensures { IfOk result (λ v. v.items ≡ with_written ports.items name.now (option_copied fallback.entry)) }
{
    if !can_be_written(name.list()) {
        return Ok(ports);
    }
    let port = ModelPort {
        name: name.copy(alloc)?,
        fallback: copied(alloc, fallback)?,
    };
    ports.push(port)?;
    Ok(ports)
}

impl Ports {
    /// The ports with that of this child of a model, where it is one. The fault `BadModel` where it has no name, or an
    /// earlier one has it.
    fn with_child(self, alloc: Global, child: &Element) -> Result<Ports, Stop<ManifestFault>>
        ensures { Gives result (with_child self child.now) }
    {
        if !is_port(child.name.list()) {
            return Ok(self);
        }
        let attributes = child.attributes.list();
        match attribute(attributes, b"name") {
            Some(name) if !self.kept.contains(name) => {
                Ok(self.with(alloc, name, attribute(attributes, b"default"))?)
            }
            _ => Err(Stop::Fault(ManifestFault::BadModel { place: child.place })),
        }
    }
}

/// The ports of a model, by its children, or the first fault.
pub fn ports_of(alloc: Global, children: &[Element]) -> Result<Ports, Stop<ManifestFault>>
    ensures { Gives result (with_children no_ports children.now) }
{
    let mut ports = Ports::new(alloc);
    for child in children {
        ports = ports.with_child(alloc, child)?;
    }
    Ok(ports)
}
