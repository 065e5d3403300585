use crate::part::Part;

/// A node of a plan tree: its key, what it is, and how many nodes stand above it.
#[derive(Clone, Copy)]
pub struct Spot {
    pub key: usize,
    pub part: Part,
    pub level: u32,
}

/// A condition of a plan tree.
#[derive(Clone, Copy)]
pub struct Place {
    pub key: usize,
    /// Its number in the behavior tree.
    pub uid: u32,
    pub row: u32,
    pub level: u32,
}
