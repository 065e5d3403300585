/// Why no line was taken.
#[derive(Clone, Copy, Debug, PartialEq, Eq)]
pub enum LineFault {
    /// The input could not be read.
    Failed,
    /// The line has more bytes than the limit.
    TooLong,
    /// The input ends in the middle of a line.
    Cut,
    /// Want of memory (out of memory): the room cannot grow.
    NoMemory,
}
