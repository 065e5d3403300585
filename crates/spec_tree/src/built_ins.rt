/// The class of a node, by which an element may write it with its name in the attribute `ID`:
/// `Control`, `Decorator`, `Action` or `Condition`.
#[derive(Clone, Copy, Debug, PartialEq, Eq)]
pub enum Class {
    Control,
    Decorator,
    Leaf,
    /// A SubTree node is written by elements of its own.
    SubTree,
}

/// The literals that a port may be given.
#[derive(Clone, Copy, Debug, PartialEq, Eq)]
pub enum Range {
    /// A number, or a text of at most 4,096 bytes.
    AnyValue,
    AnyInt,
    /// 1 to 1000, or -1.
    Turns,
    /// 0 to 4294967295 milliseconds.
    Duration,
    /// `true`, `false`, `1` or `0`.
    Truth,
    /// 0 to 1000.
    Recoveries,
    /// 0.001 to 1000 hertz, with at most three digits after the point.
    Rate,
}
