use crate::world_fault::WorldFaultKind;

/// What is wrong with a ground file. The first faulty line counts, and of one line the first fault in this order. Lines
/// are counted from 1, in the ground file.
#[derive(Clone, Copy, Debug, PartialEq, Eq)]
pub enum GroundFault {
    /// The first line is not `bt-ground 1`, or there is no line.
    Header { line: u32 },
    /// A line for a sort or a block has not its form or its place, a `$` or `#` stands before no upper-case letter, or the
    /// line has a byte that no line may have.
    BadLine { line: u32 },
    /// The name of a sort, or a value in its sort, stands twice, or the variable is that of an open block.
    DoubleName { line: u32 },
    /// No earlier line names the sort, or no open block has the variable.
    NoName { line: u32 },
    /// The block would be the fourth that is open.
    TooNested { line: u32 },
    /// The sort would be the seventeenth.
    TooMany { line: u32 },
    /// The file ends in a block; the line of the innermost.
    Unended { line: u32 },
    /// The world script would have more than 1,048,576 bytes; how many it would have.
    TooManyGround { size: u64 },
    /// The world script has a fault; its kind, and the line of the ground file from which its line comes.
    World { line: u32, kind: WorldFaultKind },
}
