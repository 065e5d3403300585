use base_texts::Name;
use spec_tree::Kind;

/// A node of a tree: its path is the names of the SubTree nodes down to it, each followed by `/`, and then its own.
#[derive(Debug, Drop)]
pub struct Place {
    pub kind: Kind,
    pub id: Name,
    pub name: Name,
    pub path: Name,
}

/// How leaves are told: by their ID, by their name, or by a pattern over their paths.
#[derive(Debug, Drop)]
pub enum Pick {
    ById(Name),
    ByName(Name),
    ByPath(Name),
}
