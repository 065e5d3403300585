/// What is wrong with a line of a world script. Where a line has several of these, the first in
/// this order counts.
#[derive(Clone, Copy, Debug, PartialEq, Eq)]
pub enum WorldFaultKind {
    /// The first line is not `bt-world 1`, or there is no line.
    Header,
    /// The line has none of the forms, or stands in a wrong place.
    BadLine,
    /// A number is outside its range.
    Range,
    /// A name or a line stands twice where it may stand once, or a row has a reserved ID.
    DoubleName,
    /// No earlier line has the fact or the condition that the line names.
    NoName,
    /// The moment lies before the last one.
    MomentBack,
    /// The line passes a limit.
    TooMany,
}

/// The first faulty line of a world script, counted from 1, and what is wrong with it.
#[derive(Clone, Copy, Debug, PartialEq, Eq)]
pub struct WorldFault {
    pub line: u32,
    pub kind: WorldFaultKind,
}
