use spec_exclusive::Meeting;

/// A step down to a node: to the child that has it.
#[derive(Clone, Copy, Debug)]
pub(crate) struct Step {
    /// The uid after the last node of the child.
    pub end: u32,
    /// How the node and one of a later child of the same parent may meet.
    pub meeting: Meeting,
}
