use base_texts::Shared;
use spec_script::Script;
use spec_tree::{Guards, Ports};

/// What a node has beside its kind, its ID, its name and its children.
#[derive(Debug, Drop)]
pub struct Content {
    pub ports: Ports,
    pub code: Option<Shared<Script>>,
    pub guards: Guards,
    pub autoremap: bool,
}
