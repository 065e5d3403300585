use crate::meeting::Meeting;

/// Two leaves that may be held together, by their uids.
#[derive(Clone, Copy, Debug, PartialEq, Eq)]
pub struct Pair {
    pub earlier: u32,
    /// It comes after the earlier one in the tree.
    pub later: u32,
    /// Other than `Meeting::Never`.
    pub meeting: Meeting,
}
