ghost use Rattle.std.specs.Prelude.{◌≡◌, ◌++◌, ◌∷◌, [], Some, None, IfOk, false};
ghost use Rattle.base_texts.specs.Stops.{Gives};
ghost use Rattle.spec_tree_file.specs.Models.{has_model, manifest_in, model_of, no_second, with_model, with_model_of, with_models, with_ports};

use crate::attributes::attribute;
use crate::known::KnownModel;
use crate::models::Manifest;
use crate::names::{holds_models, is_model};
use crate::ports::{Ports, ports_of};
use base_tables::kind_named;
use base_texts::{Items, Name, NoMemory, Stop};
use indexmap::IndexMap;
use spec_tree_file::{Element, Elements, ManifestFault, NodeModel};
use std::alloc::Global;

impl Manifest {
    /// No models.
    fn new(alloc: Global) -> Manifest
        ensures { result ≡ [] }
    {
        Manifest {
            models: IndexMap::new(alloc),
        }
    }

    /// Whether a model has this ID.
    fn has(&self, id: &Name) -> bool
        ensures { result ≡ has_model self.now id.now }
    {
        self.models.get(id).is_some()
    }

    /// The models with one of this ID, which no earlier one has.
    fn with(self, alloc: Global, id: &Name, ports: Ports) -> Result<Manifest, NoMemory>
        requires { has_model self id.now ≡ false }
        ensures { IfOk result (λ manifest. manifest ≡ with_ports self id.now ports) }
    {
        let Manifest { models } = self;
        let model = NodeModel {
            id: id.copy(alloc)?,
            ports: Items::of(ports.into_ports()),
        };
        let models = with_new(models, id.copy(alloc)?, KnownModel::of(alloc, model)?)?;
        Ok(Manifest { models })
    }

    /// The models with that of this element, which has this ID. The fault `DoubleModel` where an earlier one has it, or
    /// that of its ports. A built-in node needs no model, and one of its name is ignored.
    fn with_id(
        self,
        alloc: Global,
        element: &Element,
        id: &Name,
    ) -> Result<Manifest, Stop<ManifestFault>>
        ensures { Gives result (with_model_of self element.now (Some id.now)) }
    {
        if kind_named(id.list()).is_some() {
            return Ok(self);
        }
        if self.has(id) {
            return Err(Stop::Fault(ManifestFault::DoubleModel {
                place: element.place,
            }));
        }
        let ports = ports_of(alloc, element.children.list())?;
        Ok(self.with(alloc, id, ports)?)
    }

    /// The models with that of this element, where it is one. The fault `BadModel` where it has no ID, and as above.
    fn with_model(self, alloc: Global, element: &Element) -> Result<Manifest, Stop<ManifestFault>>
        ensures { Gives result (with_model self element.now) }
    {
        if !is_model(element.name.list()) {
            return Ok(self);
        }
        match attribute(element.attributes.list(), b"ID") {
            Some(id) => self.with_id(alloc, element, id),
            None => Err(Stop::Fault(ManifestFault::BadModel {
                place: element.place,
            })),
        }
    }
}

/// The table with one more model, at its end.
fn with_new(
    mut models: IndexMap<Name, KnownModel>,
    id: Name,
    model: KnownModel,
) -> Result<IndexMap<Name, KnownModel>, NoMemory>
    requires { model_of id models.entries ≡ None }
    ensures { IfOk result (λ m. m.entries ≡ models.entries ++ (id, model) ∷ []) }
{
    models.insert(id, model)?;
    Ok(models)
}

/// The models of these elements, or the first fault.
fn models_of(alloc: Global, elements: &[Element]) -> Result<Manifest, Stop<ManifestFault>>
    ensures { Gives result (with_models [] elements.now) }
{
    let mut manifest = Manifest::new(alloc);
    for element in elements {
        manifest = manifest.with_model(alloc, element)?;
    }
    Ok(manifest)
}

/// The models, where none of the later elements holds more of them. Else the fault `DoubleModel`.
fn alone(manifest: Manifest, elements: &[Element]) -> Result<Manifest, Stop<ManifestFault>>
    ensures { Gives result (no_second manifest elements.now) }
{
    for element in elements {
        if holds_models(element.name.list()) {
            return Err(Stop::Fault(ManifestFault::DoubleModel {
                place: element.place,
            }));
        }
    }
    Ok(manifest)
}

/// The node models of a tree file, or the first fault. A file without `TreeNodesModel` has none.
pub fn manifest_of(alloc: Global, elements: &Elements) -> Result<Manifest, Stop<ManifestFault>>
    ensures { Gives result (manifest_in elements.now.root) }
{
    let children = elements.root.children.list();
    for (i, child) in children.iter().enumerate() {
        if holds_models(child.name.list()) {
            let manifest = models_of(alloc, child.children.list())?;
            return alone(manifest, &children[i + 1..]);
        }
    }
    Ok(Manifest::new(alloc))
}
