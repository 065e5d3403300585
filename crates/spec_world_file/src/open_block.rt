/// A block that is open: its variable, and the line that opened it.
#[derive(Clone, Copy, Debug, PartialEq, Eq)]
pub struct OpenBlock {
    pub variable: u8,
    pub line: u32,
}
