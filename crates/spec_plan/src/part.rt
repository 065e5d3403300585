/// What a node of a plan tree is. Rows are numbers of rows of the world.
#[derive(Clone, Copy, Debug, PartialEq, Eq)]
pub enum Part {
    /// The sequence of the goals, which is the root.
    Goals,
    /// The sequence of what the action of this row needs and the action itself.
    Sequence(u32),
    /// A condition and the sequences that were added for it.
    Fallback,
    /// The condition of this row.
    Condition(u32),
    /// The action of this row.
    Action(u32),
}
