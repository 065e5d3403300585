use crate::version::Form;
use base_texts::Name;
use spec_tree::Kind;

/// The kind and the ID of a node, and the form of its element.
#[derive(Debug, Drop)]
pub struct Head {
    pub kind: Kind,
    pub id: Name,
    pub form: Form,
}
