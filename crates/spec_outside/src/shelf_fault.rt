/// Why a read failed.
#[derive(Clone, Copy, Debug, PartialEq, Eq)]
pub enum ShelfFault {
    /// The shelf could not read the file.
    Failed,
    /// The file has more bytes than the limit.
    TooLong,
    /// Want of memory (out of memory): the room cannot grow.
    NoMemory,
}
