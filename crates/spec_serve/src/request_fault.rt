use spec_world_file::WorldFaultKind;

/// Why a line of a host is refused.
#[derive(Clone, Copy, Debug, PartialEq, Eq)]
pub enum RequestFault {
    /// It is none of the lines that a host may send, or a world script may not have it there.
    Line(WorldFaultKind),
    /// No runner has this number.
    NoRunner,
    /// No leaf that can be told something has this uid.
    NoLeaf,
    /// The row of the leaf has no such output as one that is told.
    NoOutput,
    /// The line has more than 65,536 bytes.
    TooLong,
    /// It is the line 4,294,967,296.
    TooMany,
    /// The input could not be read, or it ends in the middle of the line.
    End,
}
