/// How a run ended.
#[derive(Clone, Copy, Debug, PartialEq, Eq)]
pub enum Ended {
    /// Every event was made and every runner was finished.
    Done,
    /// An event or a finish ended in a fault.
    Faulted,
}
