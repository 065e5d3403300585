/// What became of an expectation.
#[derive(Clone, Copy, Debug, PartialEq, Eq)]
pub enum Verdict {
    /// The run meets it.
    Pass,
    /// The run does not meet it: the moment of the event with which that was decided, in milliseconds.
    Fail { at: u64 },
}
