/// What is wrong with a line of a file of expectations. Where a line has several of these, `BadLine` comes first, then the
/// one that stands first in the line, and `TooMany` last.
#[derive(Clone, Copy, Debug, PartialEq, Eq)]
pub enum ExpectFaultKind {
    /// The first line is not `bt-expect 1`, or there is no line.
    Header,
    /// The line has none of the forms.
    BadLine,
    /// The expression names something that is no fact of the world.
    NoName,
    /// The tree has no such leaf.
    NoLeaf,
    /// The world has no runner of this number.
    NoRunner,
    /// A number is below 0 or above the last moment.
    Range,
    /// It would be the thousand and first expectation.
    TooMany,
}

/// The first faulty line of a file of expectations, counted from 1, and what is wrong with it.
#[derive(Clone, Copy, Debug, PartialEq, Eq)]
pub struct ExpectFault {
    pub line: u32,
    pub kind: ExpectFaultKind,
}
