use crate::status::Answer;

/// What a node learns before it makes its next move. Children are counted from 0.
#[derive(Clone, Copy, Debug, PartialEq, Eq)]
pub enum Heard {
    /// A visit begins. `picked` is the child that a Switch selects; for a RunOnce with a mark it is
    /// 1 where `then_skip` is true, and 0 where it is false.
    Begin { picked: u32 },
    /// The child at this place has answered.
    Answered(u32, Answer),
    /// The child at this place has completed in an earlier visit of a Parallel, and is not visited again.
    Passed(u32),
}

/// The children that are reset.
#[derive(Clone, Copy, Debug, PartialEq, Eq)]
pub enum Span {
    /// No child.
    None,
    /// All children.
    All,
    /// The children from this place on.
    From(u32),
    /// All children but the one at this place.
    AllBut(u32),
    /// The child at this place alone.
    One(u32),
}

/// What follows the resets.
#[derive(Clone, Copy, Debug, PartialEq, Eq)]
pub enum Then {
    /// The child at this place is visited, or passed where it is a Parallel's and has completed.
    Visit(u32),
    /// The node answers.
    Give(Answer),
}

/// What a node does next: the children of a span are reset in order, and then a child is visited or
/// the answer is given.
#[derive(Clone, Copy, Debug, PartialEq, Eq)]
pub struct Move {
    pub reset: Span,
    pub then: Then,
}
