/// The version of a tree file.
#[derive(Clone, Copy, Debug, PartialEq, Eq)]
pub enum Version {
    Three,
    Four,
}

/// How the element of a node is written: this decides how its attributes are read.
#[derive(Clone, Copy, Debug, PartialEq, Eq)]
pub enum Form {
    /// As in version 4, and any node but a SubTree in version 3.
    Plain,
    /// `SubTree` in version 3: it may have an ID and a name alone.
    OldSubTree,
    /// `SubTreePlus` in version 3: `__autoremap` counts beside `_autoremap`.
    SubTreePlus,
}
