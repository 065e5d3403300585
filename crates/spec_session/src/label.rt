use base_texts::Name;
use spec_tree::{Kind, Ports};

/// What is told of a node, which no event changes.
#[derive(Debug, Drop)]
pub struct Label {
    pub kind: Kind,
    pub id: Name,
    /// The attribute `name`, or else the ID.
    pub name: Name,
    /// The names of the SubTree nodes down to the node, each followed by `/`, and then its own name.
    pub path: Name,
    /// The number of the scope in which it stands: the uid of the SubTree node round it, or 0.
    pub scope: u32,
    pub ports: Ports,
}
