/// A head: the key of a condition, and its row.
#[derive(Clone, Copy, Debug, PartialEq, Eq)]
pub struct Head {
    pub key: usize,
    pub row: u32,
}
