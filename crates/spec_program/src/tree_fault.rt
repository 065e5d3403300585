use spec_tree_file::{BuildFault, ElementFault, ManifestFault};

/// Why a tree file is refused.
#[derive(Debug, Drop)]
pub enum TreeFault {
    /// Its bytes spell no element.
    Elements(ElementFault),
    /// Its node models can't be read.
    Manifest(ManifestFault),
    /// Its elements are no tree.
    Build(BuildFault),
}
