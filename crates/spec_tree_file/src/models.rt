use base_texts::{Items, Name};

/// A port of a model.
#[derive(Debug, Drop)]
pub struct ModelPort {
    pub name: Name,
    /// What stands for the port where a node does not write it.
    pub fallback: Option<Name>,
}

/// The ports of the leaves of one ID.
#[derive(Debug, Drop)]
pub struct NodeModel {
    pub id: Name,
    pub ports: Items<ModelPort>,
}
