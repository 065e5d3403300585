/// What the notes of a run tell: how many calls of each sort its leaves' drivers had, and how many
/// ticks answered SUCCESS. A count stands still at the last value of its type.
#[derive(Clone, Copy, Debug, PartialEq, Eq)]
pub struct Counts {
    /// Calls of `start`.
    pub starts: u64,
    /// Calls of `running`.
    pub runnings: u64,
    /// Calls of `halted`, but for those of a quench.
    pub haltings: u64,
    /// Ticks that answered SUCCESS.
    pub successes: u64,
}
