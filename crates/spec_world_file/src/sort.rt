use base_texts::{Items, Name};

/// A sort: its name, and its values in their order.
#[derive(Debug, Drop)]
pub struct Sort {
    pub name: Name,
    pub values: Items<Name>,
}
